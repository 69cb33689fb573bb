//! The tags of a game.

ghost use Rattle.std.specs.Prelude.{◌≡◌, ◌≤◌, length};

use chess_game::{HowEnded, TagText};

/// The tags of a game that is to be written: six of the seven that each game has (PGN standard of 1994, section 8.1.1),
/// and how the game ended, for the tag `Termination`. The seventh, `Result`, comes from the game.
#[derive(Drop)]
pub struct Tags {
    /// The tournament or match.
    pub event: TagText,
    /// The place.
    pub site: TagText,
    /// The day on which the game began, such as `2024.12.31`, with `?` for what isn't known.
    pub date: TagText,
    /// The round.
    pub round: TagText,
    /// The player with White.
    pub white: TagText,
    /// The player with Black.
    pub black: TagText,
    /// How the game ended. It is ignored while the outcome is `*`: then `Termination` is `unterminated`.
    pub ended: HowEnded,
}

impl Default for Tags {
    ghost use Rattle.pgn_writer.specs.Tags.{default_tags};

    ghost is_default = { λ t. t ≡ default_tags };

    /// The tags of a game of which nothing is known: `?` for each, `????.??.??` for the date, and a normal end.
    fn default() -> Self {
        Tags {
            event: TagText::cut(b"?"),
            site: TagText::cut(b"?"),
            date: TagText::cut(b"????.??.??"),
            round: TagText::cut(b"?"),
            white: TagText::cut(b"?"),
            black: TagText::cut(b"?"),
            ended: HowEnded::Normal,
        }
    }
}

/// A tag that is to be written: `[Event "a"]` has the name `Event` and the text `a`, in which quotes and backslashes
/// are not yet escaped. Its name has at most 20 bytes, and its text at most 100.
#[derive(Clone, Copy)]
pub(crate) struct TagPair<'a> {
    pub name: &'a [u8],
    pub text: &'a [u8],
    ghost short_name: { length name.now ≤ 20 },
    ghost short_text: { length text.now ≤ 100 },
}
