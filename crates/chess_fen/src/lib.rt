//! Positions as FEN (PGN standard of 1994, section 16.1), read and written. In Chess960 both X-FEN and Shredder-FEN are
//! read, and castling rights are written by their rooks' files, as Shredder-FEN has them.
//!
//! ```
//! let position = read_fen(b"4k3/8/8/8/8/8/4P3/4K3 w - - 0 1")?;
//! let text = write_fen(&position);
//! ```
//!
//! `Fen` is a position together with its FEN as text, to parse, print and compare:
//!
//! ```
//! let fen: Fen = "4k3/8/8/8/8/8/4P3/4K3 w - - 0 1".parse()?;
//! println!(rt; "{fen}")?;
//! ```
#![tactic(auto)]

mod castling_rights;
mod fen;
mod fields;
mod initial;
mod letters;
mod number;
mod placement;
mod rank;
mod reading;
mod target;
mod writing;

pub use fen::Fen;
pub use initial::is_initial;
pub use reading::{read_fen, read_fen_as};
pub use writing::{FenText, write_fen};
