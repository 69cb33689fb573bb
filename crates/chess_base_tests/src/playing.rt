//! Moves given by their squares, and comparisons, for the other tests.

use chess_base::{Kind, Move, Position, Square};
use chess_fen::write_fen;
use std::fmt::Debug;
use std::process::Abort;

/// Asserts that two values are equal. One function for all types, since an assertion for each costs much to prove.
pub fn is_equal<T: PartialEq + Debug>(rt: &impl Abort, found: &T, wanted: &T) {
    assert_eq!(rt; *found, *wanted);
}

// The square with this letter and digit, such as `e` and `4`.
fn square(file: u8, rank: u8) -> Square {
    Square::new(rank.wrapping_sub(b'1') % 8 * 8 + file.wrapping_sub(b'a') % 8)
}

/// The position after a move, given as `e2e4` and a promotion, if it is legal.
pub fn play(position: Position, squares: &[u8; 4], promotion: Option<Kind>) -> Option<Position> {
    let [from_file, from_rank, to_file, to_rank] = *squares;
    let m = Move {
        from: square(from_file, from_rank),
        to: square(to_file, to_rank),
        promotion,
    };
    let again = m;
    position.is_legal(m).then(|| position.after(again))
}

/// Asserts that the position after a move has this FEN, or that the move is illegal if the FEN is empty.
pub fn leaves(
    rt: &impl Abort,
    start: Position,
    squares: &[u8; 4],
    promotion: Option<Kind>,
    fen: &[u8],
) {
    match play(start, squares, promotion) {
        Some(position) => is_equal(rt, &write_fen(&position).as_slice(), &fen),
        None => assert!(rt; fen.is_empty(), "at {squares:?}"),
    }
}
