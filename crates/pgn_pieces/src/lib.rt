//! Cuts a collection of PGN games, of any length, into pieces, and returns them one after another. A piece is mostly
//! one game with its tags: it begins at the first byte, or at a tag line after a line of moves, or at an Event line
//! after an Event line, and ends where the next one begins. Each piece can be read as a text of its own.
//!
//! ```
//! let mut pieces = PgnPieces::open(alloc)?;
//! for _ in 0..u64::MAX {
//!     if !pieces.next(&mut input)? {
//!         break;
//!     }
//!     match pieces.text() {
//!         Some(text) => println!(rt; "{} bytes from byte {} on", text.len(), pieces.offset())?,
//!         None => println!(rt; "too long, from byte {} on", pieces.offset())?,
//!     }
//! }
//! ```
#![tactic(auto)]

mod gone;
mod laws;
mod line_kinds;
mod piece_end;
mod pieces;

pub use laws::{pieces_are_cut, pieces_are_in_place};
pub use line_kinds::line_ends;
pub use pieces::{PIECE_LEN, PgnPieces, PieceFault};
