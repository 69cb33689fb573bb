//! Texts of moves, read and written: SAN (standard algebraic notation, PGN standard of 1994, section 8.2.3) and
//! coordinates.
//!
//! ```
//! match read_move(game.board(), b"Nf3") {
//!     Reading::Move(m) => game.play(m)?,
//!     Reading::Ambiguous => println!(rt; "of several moves")?,
//!     Reading::NoSuch => println!(rt; "of no legal move")?,
//!     Reading::NotAMove => println!(rt; "of no move at all")?,
//! }
//! ```
#![tactic(auto)]

mod coordinates;
mod described;
mod form;
mod laws;
mod parts;
mod reading;
mod san_text;
mod usual;
mod writing;

pub use coordinates::{CoordinateText, coordinate, move_text};
pub use laws::{read_moves_are_legal, san_is_a_word};
pub use reading::{Reading, has_move_shape, read_move};
pub use san_text::San;
pub use writing::{SanText, add_check_mark, make_san, san, unmarked_san};
