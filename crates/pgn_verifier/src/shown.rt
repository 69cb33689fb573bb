//! Texts as explanations show them.

ghost use Rattle.std.specs.Prelude.{◌≡◌, ◌≤◌, ◌+◌, ◌++◌, ◌&&◌, nat_le, not, take_while, take, map, length, codes};
ghost use Rattle.arrayvec.specs.ArrayVec.{array_vec_len};
ghost use Rattle.pgn_tokens.specs.Tokens.{is_white_space};
ghost use Rattle.pgn_verifier.specs.declared.shown.TheConstants.{FIELD_LEN};
ghost use Rattle.pgn_verifier.specs.Explanations.{shown_word, shown};
ghost use Rattle.byte_devices.specs.Bytes.{shown_byte};

use arrayvec::ArrayVec;
use byte_devices::{shown_byte, split_while};
use pgn_tokens::is_white_space;

// The most bytes of a word, or of a tag's text, that are shown.
const WORD_LEN: usize = 40;

// The most bytes of a FEN's field that are shown; the longest that denotes pieces has 71.
const FIELD_LEN: usize = 80;

/// A word or a field as it is shown.
pub(crate) type Shown = ArrayVec<u8, FIELD_LEN>;

// The first `most` bytes of a text; the whole text if it has fewer.
fn first_bytes(most: usize, text: &[u8]) -> &[u8]
    ensures value { result.now ≡ take most text.now }
    ensures few { length result.now ≤ most }
{
    &text[..most.min(text.len())]
}

// The bytes of a text before its first white space, at most 40.
fn first_word(text: &[u8]) -> &[u8]
    ensures value { result.now ≡ take_while (λ c. not (is_white_space c)) (take 40 text.now) }
    ensures few { length result.now ≤ 40 }
{
    split_while(first_bytes(WORD_LEN, text), |byte| !is_white_space(byte)).0
}

// A word, or a tag's text, as it is shown: with `?` for each byte that is not printable ASCII.
fn shown_bytes(word: &[u8]) -> Shown
    requires { length word.now ≤ FIELD_LEN }
    ensures text { result.items ≡ map shown_byte word.now }
    ensures len { array_vec_len result ≡ length word.now }
{
    let mut shown = Shown::new();
    for byte in word {
        shown.push(shown_byte(*byte));
    }
    shown
}

// A word as it is shown: with `?` for each byte that is not printable ASCII; `(end)` for an empty word.
fn shown_word(word: &[u8]) -> Shown
    requires { length word.now ≤ FIELD_LEN }
    ensures text { result.items ≡ shown_word word.now }
    ensures len { array_vec_len result ≤ 5 + length word.now }
{
    if word.is_empty() {
        return shown_bytes(b"(end)");
    }
    shown_bytes(word)
}

/// The first word of a text as it is shown, at most 40 bytes.
pub(crate) fn shown(text: &[u8]) -> Shown
    ensures text { result.items ≡ shown text.now }
    ensures len { array_vec_len result ≤ 45 }
{
    shown_word(first_word(text))
}

/// The first 40 bytes of a text as they are shown; the whole text if it has fewer.
pub(crate) fn shown_beginning(text: &[u8]) -> Shown
    ensures text { result.items ≡ map shown_byte (take 40 text.now) }
    ensures len { array_vec_len result ≤ 40 }
{
    shown_bytes(first_bytes(WORD_LEN, text))
}

/// A field of a FEN as it is shown, at most 80 bytes of it.
pub(crate) fn shown_field(field: &[u8]) -> Shown
    ensures { result.items ≡ shown_word (take 80 field.now) }
{
    shown_word(first_bytes(FIELD_LEN, field))
}
