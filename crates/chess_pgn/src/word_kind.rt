//! What a word of a game's text is. `word_kind` is inlined for the reason at the head of pgn_tokens' token.rt.

ghost use Rattle.std.specs.Prelude.{◌≡◌, false};
ghost use Rattle.std.specs.List.{list_all};
ghost use Rattle.byte_devices.specs.Bytes.{byte, is_digit};
ghost use Rattle.pgn_tokens.specs.Marks.{is_marks};
ghost use Rattle.chess_pgn.specs.laws.WordKinds.{word_kind};
ghost use Rattle.chess_pgn.specs.shared.Begins.{begins_as_move};

use byte_devices::is_digit;
use chess_game::Outcome;
use pgn_tokens::is_marks;
use pgn_writer::outcome_of;

/// The kinds of words of a game's text.
#[derive(Clone, Copy, Debug, PartialEq, Eq)]
pub enum WordKind {
    /// An outcome, such as `1-0` or `*`: the game's text ends with it.
    End(Outcome),
    /// The number of a move: only digits, as the `12` of `12.`.
    Number,
    /// Only the marks `!` and `?`, such as `!?`.
    Marks,
    /// Any other word. It may be a move: whether it denotes a legal one depends on the position.
    Move,
}

// Whether all bytes of a word are digits, as in the number `12`; true of the empty word.
fn has_digits_alone(word: &[u8]) -> bool
    ensures { result ≡ list_all is_digit word.now }
{
    word.iter().all(|byte| is_digit(*byte))
}

// Whether a word begins with a letter or `_`, as `Nf3` does. Of the bytes that a word may have, these are the ones from
// `A` (0x41) on. The kind of such a word is `Move`, since outcomes, numbers and marks begin with `*`, a digit, `!` or
// `?`.
fn begins_as_move(word: &[u8]) -> bool
    ensures { result ≡ begins_as_move word.now }
{
    match word {
        [first, ..] => *first >= b'A',
        [] => false,
    }
}

// The kind of a word that is not a number: an outcome, marks such as `!?`, or what may be a move, such as `0-0`.
// `word_kind` calls this only for words that begin with neither a letter nor `_`. These are few, so it is not inlined.
#[inline(never)]
fn other_word_kind(word: &[u8]) -> WordKind
    requires { list_all is_digit word.now ≡ false }
    ensures { result ≡ word_kind word.now }
{
    if let Some(outcome) = outcome_of(word) {
        WordKind::End(outcome)
    } else if is_marks(word) {
        WordKind::Marks
    } else {
        WordKind::Move
    }
}

/// The kind of a word: what may be a move, such as `Nf3+`; a number, such as `12`; an outcome, such as `1-0`; or marks,
/// such as `!?`. Most words are moves that begin with a letter, and most others are numbers, so these are tested first.
#[tactic(auto, using(crate::proofs::PgnWords::begins_as_move_kind, crate::proofs::PgnWords::number_kind))]
#[inline(always)]
pub(crate) fn word_kind(word: &[u8]) -> WordKind
    ensures { result ≡ word_kind word.now }
{
    if begins_as_move(word) {
        WordKind::Move
    } else if has_digits_alone(word) {
        WordKind::Number
    } else {
        other_word_kind(word)
    }
}
