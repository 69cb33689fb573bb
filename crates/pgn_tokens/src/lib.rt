//! The tokens of a text of chess games (PGN standard of 1994, sections 5 to 8), and the tags of a game; no chess. A
//! text is given whole, as bytes, and read from an offset on.
//!
//! The names of a game's tags, one a line:
//!
//! ```
//! for tag in game_tags(text, 0) {
//!     put(&mut output, tag.name)?;
//!     put(&mut output, b"\n")?;
//! }
//! ```
#![tactic(auto)]

mod bytes;
mod last_tags;
mod marks;
mod passed_tags;
mod skips;
mod tag;
mod tag_list;
mod token;
mod variation;
mod variations;

pub use bytes::{is_white_space, is_word_byte};
pub use last_tags::{last_tag, may_precede_tags, named_tag};
pub use marks::is_marks;
pub use passed_tags::after_tags;
pub use skips::{after_brace, after_gap};
pub use tag::{Tag, split_name, split_string};
pub use tag_list::{GameTags, PgnTag, game_tags, tag_text};
pub use token::{Token, TokenFault, after_blanks, next_token, split_word};
pub use variations::{has_variation, is_variation};
