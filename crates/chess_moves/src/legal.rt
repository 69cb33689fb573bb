//! The legal moves of a position, without a board.

ghost use Rattle.std.specs.Prelude.{◌≡◌, IsTrue};
ghost use Rattle.std.specs.List.{All};
ghost use Rattle.chess_base.specs.MoveList.{moves};
ghost use Rattle.chess_base.specs.Moves.{is_legal};

use crate::board::MoveList;
use crate::listing;
use chess_base::Position;

/// All legal moves of a position, each once, rising by start square and then end square (a1 first, h8 last); promotions
/// in the order queen, rook, bishop, knight. A program that goes through many positions keeps a [`crate::Board`]
/// instead.
///
/// ```
/// for m in legal_moves(&position).as_slice() {
///     println!(rt; "{m}")?;
/// }
/// ```
pub fn legal_moves(position: &Position) -> MoveList
    ensures moves { result.items ≡ moves position.now }
    ensures legal { All (λ m. IsTrue (is_legal position.now m)) result.items }
{
    listing::legal_moves(position.setup())
}
