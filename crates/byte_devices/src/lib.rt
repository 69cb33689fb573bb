//! Readers and writers of bytes, whose contracts fix their bytes and count their failures; buffers, in which a text is
//! put together before it is written; kinds of bytes; and a search for bytes.
//!
//! A reader that gives pieces of three bytes, and a writer into memory:
//!
//! ```
//! let mut input = Counted::reading(PieceReader::new(b"new\n", 3, 0));
//! let mut output = Counted::writing(Vec::<u8>::new(alloc));
//! let mut piece = [0; 16];
//! let count = input.read(&mut piece)?;
//! put(&mut output, &piece[..count])?;
//! ```
#![tactic(auto)]

mod buffers;
mod bytes;
mod counted;
mod gated;
mod memory;
mod search;
mod silent;
mod traits;

pub use buffers::{append, append_number};
pub use bytes::{after_byte_order_mark, is_blank, is_digit, is_name_byte, shown_byte, split_while};
pub use counted::Counted;
pub use gated::{GatedReader, GatedWriter};
pub use memory::{PieceReader, PieceWriter};
pub use search::{len_before, len_before_any};
pub use silent::SilentAfter;
pub use traits::{Input, Output, ReadFault, WriteFault, put, put_parts, send};
