//! Games' texts, written (PGN standard of 1994). chess_pgn reads them.
//!
//! ```
//! let tags = Tags {
//!     white: TagText::cut(b"Morphy, Paul"),
//!     ..Tags::default()
//! };
//! write_pgn(&game, &mut scratch, &tags, b"", &mut output)?;
//! ```
#![tactic(auto)]

mod buffer;
mod line_writer;
mod outcome;
mod tag_lines;
mod tags;
mod termination;
mod write;

pub use chess_game::{HowEnded, TagText};
pub use outcome::outcome_of;
pub use tags::Tags;
pub use termination::Termination;
pub use write::write_pgn;
