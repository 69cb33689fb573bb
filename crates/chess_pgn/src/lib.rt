//! Reads games of chess in PGN (standard of 1994) and reports their faults. What pgn_writer offers for writing games,
//! and pgn_tokens for their tags, can be imported from here too.
//!
//! The first game of a text, written anew; the next one is read from `offset` on:
//!
//! ```
//! let mut offset = 0;
//! if let Some(end) = read_pgn(text, 0, &mut game)? {
//!     offset = end.offset;
//! }
//! write_pgn(&game, &mut scratch, &Tags::default(), b"", &mut output)?;
//! ```
#![tactic(auto)]

mod game_ends;
mod laws;
mod past_draws;
mod progress;
mod read;
mod tagged_result;
mod termination;
mod unknown_variants;
mod variations;
mod word_kind;
mod words;

pub use chess_game::{HowEnded, TagText};
pub use game_ends::game_end;
pub use laws::{faults_have_offsets, half_moves_have_bytes, unreadable_games_have_no_end};
pub use past_draws::{ReadGame, ending, read_past_draws};
pub use pgn_tokens::{GameTags, PgnTag, game_tags, has_variation, tag_text};
pub use pgn_writer::{Tags, Termination, outcome_of, write_pgn};
pub use read::{PgnEnd, PgnFault, PgnFaultKind, read_pgn};
pub use tagged_result::{ResultTag, result_tag};
pub use unknown_variants::unknown_variant;
pub use variations::{MOST_NESTED, read_variations};
