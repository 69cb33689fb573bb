//! Boards: all legal moves of a position in order, and a position that goes forward and back without loss. A board also
//! hashes its position, by pieces, side on move and castling rights alone.
//!
//! ```
//! let mut board = Plain::new();
//! board.set(&position);
//! let moves = board.legal_moves();
//! for m in moves.as_slice() {
//!     if board.is_legal(m) {
//!         let saved = board.make(*m);
//!         // The position after the move.
//!         board.take_back(*m, saved);
//!     }
//! }
//! ```
//!
//! The test in the loop is for the prover, which doesn't know in the loop that each move of the list is legal. The
//! function `legal_moves` lists the moves of a position without a board.
#![tactic(auto)]

mod board;
mod hashing;
mod legal;
mod listing;
mod moving;
mod plain;
mod set;
mod squares;

pub use board::{Board, MoveList, make_then_take_back};
pub use hashing::{ComputedKeys, Keys, hash_with, man_key, position_hash};
pub use legal::legal_moves;
pub use listing::would_promote;
pub use plain::Plain;
pub use set::SquareSet;
pub use squares::Squares;
