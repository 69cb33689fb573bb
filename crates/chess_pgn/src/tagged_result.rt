//! The tag Result of a game.

ghost use Rattle.std.specs.Prelude.{◌≡◌, ◌≤◌, List, length, ℕ};
ghost use Rattle.std.specs.Option.{IfSome};
ghost use Rattle.chess_pgn.specs.ResultTags.{result_tag_of};
ghost use Rattle.pgn_tokens.specs.Split.{IsSplit};
ghost use Rattle.pgn_tokens.specs.Tokens.{Token};
ghost use Rattle.byte_devices.specs.Bytes.{after_byte_order_mark};

use byte_devices::after_byte_order_mark;
use chess_game::Outcome;
use pgn_tokens::last_tag;
use pgn_writer::outcome_of;

/// The last tag `Result` of a game, such as `[Result "1-0"]`.
#[derive(Clone, Copy, Debug, PartialEq, Eq)]
pub struct ResultTag {
    /// The outcome that its text denotes; `None` if it denotes none.
    pub outcome: Option<Outcome>,
    /// The offset of the first byte after its opening quote, counted from the text's first byte.
    pub offset: usize,
    /// How many bytes are between its quotes.
    pub len: usize,
}

/// Finds the last tag `Result` of the game that begins at the offset `at`, such as `[Result "1-0"]`. `None` if there is
/// no such tag before the game's first number, move or outcome. A byte order mark at offset 0 is skipped. `read_pgn`
/// ignores this tag; a caller that compares it with the game's end, such as `verify --strict`, calls this function.
///
/// The clause `tag` says: there is a split of the text into tokens (`IsSplit`), and this is the last tag `Result` in
/// it.
pub fn result_tag(text: &[u8], at: usize) -> Option<ResultTag>
    requires { at ≤ length text.now }
    ensures tag { (tokens : List (ℕ × Token)) × IsSplit text.now (after_byte_order_mark text.now at) tokens
        × (result ≡ result_tag_of (length text.now) tokens) }
    ensures within { IfSome result (λ tag. tag.offset ≤ length text.now) }
{
    let tag = last_tag(text, after_byte_order_mark(text, at), b"Result")?;
    Some(ResultTag {
        outcome: outcome_of(tag.text),
        offset: text.len() - tag.to_end,
        len: tag.text.len(),
    })
}
