//! Counting the lines of legal moves.

ghost use Rattle.std.specs.Prelude.{◌≡◌};

use chess_moves::Board;

/// Counts the lines of `depth` legal moves from the board's position (perft), and leaves the board as it was. The moves
/// at the last depth are only counted, not made.
pub fn count_lines<B: Board>(board: &mut B, depth: u8) -> u64
    ensures { B.position board.new ≡ B.position board.old }
{
    if depth == 0 {
        return 1;
    }
    if depth == 1 {
        return board.legal_move_count() as u64;
    }
    let moves = board.legal_moves();
    let mut count: u64 = 0;
    for m in moves.as_slice() {
        let saved = board.make(*m);
        let further = if depth == 2 {
            board.legal_move_count() as u64
        } else {
            count_lines(board, depth - 1)
        };
        count = count.saturating_add(further);
        board.take_back(*m, saved);
    }
    count
}
