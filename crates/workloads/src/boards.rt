//! What an engine's author asks of a board: lines counted, moves listed, made and taken back, SAN and FEN.

ghost use Rattle.std.specs.Prelude.{◌≡◌, IsTrue};
ghost use Rattle.chess_base.specs.Moves.{is_legal};

use crate::digest::Digest;
use crate::lines::count_lines;
use crate::random::Random;
use crate::starts::{QUEENS, fischerandom_start, start_of};
use crate::walk::{Style, choose, next_move};
use chess_base::{Move, Position};
use chess_bits::{AttackTables, Bits};
use chess_fen::{read_fen_as, write_fen};
use chess_moves::{Board, Plain};
use chess_text::{Reading, coordinate, read_move, san};
use std::alloc::{AllocError, Global};

// A number for a move; different moves have different numbers.
fn number_of(m: &Move) -> u64 {
    let promotion = match m.promotion {
        Some(kind) => kind as u64 + 1,
        None => 0,
    };
    (u64::from(m.from.number()) * 64 + u64::from(m.to.number())) * 8 + promotion
}

// Adds to the digest which move a text was read as, or why it was read as none.
fn add_reading(reading: Reading, digest: &mut Digest) {
    match reading {
        Reading::Move(m) => digest.add(number_of(&m)),
        // Numbers that no move has.
        Reading::Ambiguous => digest.add(1_000_001),
        Reading::NoSuch => digest.add(1_000_002),
        Reading::NotAMove => digest.add(1_000_003),
    }
}

// Writes a legal move as SAN and by squares, reads both texts, makes the move, counts the lines of `depth` legal moves
// after it, and takes it back. Adds all results to the digest.
fn go_through<B: Board>(board: &mut B, m: &Move, depth: u8, digest: &mut Digest)
    requires { IsTrue (is_legal (B.position board.old) m.now) }
    ensures { B.position board.new ≡ B.position board.old }
{
    let text = san(board, *m);
    digest.add(number_of(m));
    digest.add_bytes(text.as_slice());
    add_reading(read_move(board, text.as_slice()), digest);
    add_reading(read_move(board, coordinate(*m).as_slice()), digest);
    let saved = board.make(*m);
    digest.add(board.word());
    digest.add(u64::from(board.in_check()));
    digest.add(count_lines(board, depth));
    board.take_back(*m, saved);
}

// Does what `go_through` does with each legal move of the board's position, and returns one of them, drawn at random;
// `None` if there is none.
fn go_over<B: Board>(
    board: &mut B,
    depth: u8,
    random: &mut Random,
    digest: &mut Digest,
) -> Option<Move> {
    let moves = board.legal_moves();
    for m in moves.as_slice() {
        go_through(board, m, depth, digest);
    }
    choose(board.setup(), moves.as_slice(), Style::Lively, random)
}

// Adds to the digest the legal moves, as the plain board lists them, and of eight moves, each mixed of two legal ones,
// whether they are legal; most are not.
fn judge_moves(position: &Position, random: &mut Random, digest: &mut Digest) {
    let mut plain = Plain::new();
    plain.set(position);
    let moves = plain.legal_moves();
    for m in moves.as_slice() {
        digest.add(number_of(m));
    }
    for _ in 0..8 {
        if let (Some(one), Some(other)) = (
            moves.as_slice().get(random.below(moves.len())),
            moves.as_slice().get(random.below(moves.len())),
        ) {
            let mixed = Move {
                from: one.from,
                to: other.to,
                promotion: one.promotion,
            };
            digest.add(u64::from(position.is_legal(mixed)));
        }
    }
}

// Writes a position as FEN, adds this to the digest, and returns the position that is read from it.
fn through_fen(position: &Position, digest: &mut Digest) -> Position {
    let fen = write_fen(position);
    digest.add_bytes(fen.as_slice());
    match read_fen_as(position.variant(), fen.as_slice()) {
        Ok(again) => again,
        Err(_) => Position::initial(),
    }
}

// Asks the board all about its position: its FEN, its legal moves on both kinds of board, and the lines of `depth`
// moves after each. Returns one of the moves; `None` if there is none.
fn ask_position(
    board: &mut Bits<'_>,
    depth: u8,
    random: &mut Random,
    digest: &mut Digest,
) -> Option<Move> {
    let again = through_fen(&board.position(), digest);
    board.set(&again);
    judge_moves(&again, random, digest);
    go_over(board, depth, random, digest)
}

// Returns the move with which a walk goes on from the board's position; `None` if there is none. `left` is how many
// more moves are to come: if it is a multiple of 6, the board is first asked all about its position (`ask_position`),
// with lines of one move, or if it is 0, of `last_depth`.
fn step(
    board: &mut Bits<'_>,
    left: usize,
    last_depth: u8,
    random: &mut Random,
    digest: &mut Digest,
) -> Option<Move> {
    match left {
        0 => ask_position(board, last_depth, random, digest),
        _ if left % 6 == 0 => ask_position(board, 1, random, digest),
        _ => next_move(board, Style::Lively, random),
    }
}

/// Makes `positions` random moves and one more from the position `start`, as long as there are legal ones. It asks the
/// board all about each sixth position on the way and the last one; there it counts the lines of `last_depth` moves
/// after each move.
pub fn ask_walk(
    board: &mut Bits<'_>,
    start: &Position,
    positions: usize,
    last_depth: u8,
    random: &mut Random,
    digest: &mut Digest,
) {
    board.set(start);
    for number in 0..=positions {
        let Some(m) = step(board, positions - number, last_depth, random, digest) else {
            return;
        };
        if !board.is_legal(&m) {
            return;
        }
        board.make(m);
    }
}

// The start of the walk with this number: of eight walks four begin in the initial position, three in a random starting
// position of Chess960, and one in a position with many queens.
fn start_for(number: usize, random: &mut Random) -> Position {
    match number % 8 {
        0 | 1 | 2 | 3 => Position::initial(),
        7 => start_of(random.one_of(&QUEENS)),
        _ => fischerandom_start(random),
    }
}

/// Makes `walks` walks, each of 24 to 96 moves if there are as many, and asks the board all about each sixth position.
/// At the last one it counts the lines of four moves.
///
/// # Errors
/// If memory runs out.
pub fn ask_boards(
    alloc: Global,
    walks: usize,
    random: &mut Random,
    digest: &mut Digest,
) -> Result<(), AllocError> {
    let tables = AttackTables::open(alloc)?;
    let mut board = Bits::new(&tables);
    for number in 0..walks {
        let start = start_for(number, random);
        ask_walk(
            &mut board,
            &start,
            23 + 6 * random.below(13),
            3,
            random,
            digest,
        );
    }
    Ok(())
}
