//! What a line of an engine says.

ghost use Rattle.std.specs.Prelude.{◌≡◌, ◌≤◌, length, take, codes};
ghost use Rattle.text_lines.specs.Words.{word_of, argument_of, command_number};
ghost use Rattle.cecp_engine.specs.EngineLines.{kind_of, Answers, SaysElse};
ghost use Rattle.std.specs.Option.{option_map_or};
ghost use Rattle.cecp_engine.specs.Seen.{seen};

use chess_base::Colour;
use text_lines::{argument, first_word, read_number};

/// The kinds of line that an engine sends (CECP, version 2).
#[derive(Clone, Copy, Debug, PartialEq, Eq)]
pub enum EngineLine<'a> {
    /// `feature ..`: the text of its items.
    Features(&'a [u8]),
    /// `move M`: the move's text, which may be empty.
    Move(&'a [u8]),
    /// `resign`, whatever follows.
    Resign,
    /// `offer draw`, whatever follows.
    Offer,
    /// `1/2-1/2`, whatever follows.
    Draw,
    /// `1-0` or `0-1`, whatever follows: who wins.
    Win(Colour),
    /// `Illegal move`, whatever follows.
    Rejection,
    /// `pong N`, with a number of one to nine digits and nothing else.
    Pong(u32),
    /// Anything else.
    Other,
}

// The kind of a line `pong N`, where `text` is N: the answer to `ping N`; `Other`, if N is no number of one to nine
// digits.
fn pong(text: &[u8]) -> EngineLine<'_>
    ensures { seen result ≡ option_map_or Answers (command_number text.now) SaysElse }
{
    match read_number(text) {
        Some(number) => EngineLine::Pong(number),
        None => EngineLine::Other,
    }
}

/// The kind of a line with this text, by its first words: `move e2e4` is a move, with the text `e2e4`. Spaces and
/// tabs at the ends of the text are to be removed before.
#[tactic(auto, unfolding(crate::specs::EngineLines::kind_of))]
pub fn read_engine_line(text: &[u8]) -> EngineLine<'_>
    ensures { seen result ≡ kind_of text.now }
{
    let word = first_word(text);
    // These are two words, after which anything may come: `Illegal move: e2e4`.
    if text.len() >= 12 && &text[..12] == b"Illegal move".as_slice() {
        EngineLine::Rejection
    } else if word == b"feature".as_slice() {
        EngineLine::Features(argument(text))
    } else if word == b"move".as_slice() {
        EngineLine::Move(argument(text))
    } else if word == b"resign".as_slice() {
        EngineLine::Resign
    } else if word == b"offer".as_slice() && first_word(argument(text)) == b"draw".as_slice() {
        EngineLine::Offer
    } else if word == b"1/2-1/2".as_slice() {
        EngineLine::Draw
    } else if word == b"1-0".as_slice() {
        EngineLine::Win(Colour::White)
    } else if word == b"0-1".as_slice() {
        EngineLine::Win(Colour::Black)
    } else if word == b"pong".as_slice() {
        pong(argument(text))
    } else {
        EngineLine::Other
    }
}
