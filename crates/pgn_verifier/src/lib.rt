//! Verifies the games of a PGN text: each is read according to the Laws of Chess, and reported on a line of an output.
//!
//! ```
//! let mut input = Counted::reading(b"1. e4 *".as_slice());
//! let mut output = Counted::writing(Vec::<u8>::new(alloc));
//! let options = VerifyOptions { quiet: false, strict: LENIENT, spans: false, names: false, explain: false };
//! match verify(alloc, options, &mut input, &mut output)? {
//!     Verified::EachGame => println!(rt; "each game was read")?,
//!     Verified::FaultReported => println!(rt; "a game has a fault")?,
//! }
//! ```
//!
//! The output then contains the line `game 1: 1 half-moves, *`. `verify_collection` takes an input of any length and
//! continues after faults, piece by piece.
#![tactic(auto)]

mod after_fault;
mod buffered;
mod collection;
mod contradiction;
mod end_faults;
mod explanation;
mod fault;
mod fen_field;
mod game_fault;
mod games;
mod judged;
mod label;
mod names;
mod place;
mod report;
mod shown;
mod start;
mod tally;
mod token_reason;

pub use buffered::verify;
pub use collection::verify_collection;
pub use fault::VerifyFault;
pub use game_fault::{FaultKind, GameFault};
pub use tally::{Tally, Verified};
pub use verify_options::{LENIENT, STRICT_FAULTS, Strictness, VerifyOptions};
