//! The lines of a stream of bytes, however reads cut it, and the words and the numbers of a line. It knows no chess.
//!
//! ```
//! let mut lines: Lines<1024> = Lines::new();
//! for _ in 0..u64::MAX {
//!     let Some(line) = lines.next(&mut input)? else {
//!         break;
//!     };
//!     let (word, argument) = split_word(line.text());
//!     println!(rt; "{} and {} bytes", word.len(), argument.len())?;
//! }
//! ```
//!
//! Of the line `ping 7`, `word` is `ping` and `argument` is the text `7`; `read_number` gives its value.
#![tactic(auto)]

mod laws;
mod lines;
mod number;
mod trim;
mod words;

pub use byte_devices::is_blank;
pub use laws::lines_are_pieces;
pub use lines::{Line, Lines};
pub use number::short_number;
pub use trim::trim_start;
pub use words::{argument, first_word, read_number, split_word};
