//! What a position holds, sound or not, what has to be saved to take a move back, and the limits of a game.

use crate::man::{Colour, Man, Rights, Variant};
use crate::square::Square;

/// The largest halfmove clock and fullmove number; both stop there, so that in a FEN each has at most six digits.
pub const COUNTER_LIMIT: u32 = 999_999;

/// The greatest limit, in half-moves, that a game can be opened with. It is here for crates that don't use chess_game,
/// such as cecp_engine.
pub const MOST_MOVES: u32 = 20_000;

/// What a position holds (the six fields of FEN, PGN standard of 1994, section 16.1, and the variant), sound or not.
#[derive(Clone, Copy, Debug, PartialEq, Eq)]
pub struct Setup {
    /// Whether castling follows the rules of normal chess or of Chess960.
    pub variant: Variant,
    /// The pieces, by the number of their square.
    pub men: [Option<Man>; 64],
    /// The colour on move.
    pub side: Colour,
    /// The castling rights.
    pub rights: Rights,
    /// The square that a pawn's double advance has just crossed (Laws of Chess 2023, article 3.7).
    pub target: Option<Square>,
    /// Half-moves since the last capture or pawn move; it stops at `COUNTER_LIMIT`.
    pub halfmove: u32,
    /// The number of the move, from 1, one more after each of Black's; it stops at `COUNTER_LIMIT`.
    pub fullmove: u32,
}

/// What has to be saved to take a move back: the captured piece, and the rest as it was before the move.
#[derive(Clone, Copy, Debug, PartialEq, Eq)]
pub struct Saved {
    /// The piece that was captured, en passant too.
    pub captured: Option<Man>,
    /// The castling rights before the move.
    pub rights: Rights,
    /// The target before the move.
    pub target: Option<Square>,
    /// The halfmove clock before the move, in half-moves.
    pub halfmove: u32,
    /// The fullmove number before the move.
    pub fullmove: u32,
}
