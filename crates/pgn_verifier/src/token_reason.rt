//! Why a tag or another token is bad.

ghost use Rattle.std.specs.Prelude.{◌≡◌, ◌≤◌, ◌||◌, ◌∷◌, [], length, take, take_while, codes, Option};
ghost use Rattle.std.specs.List.{list_any, prefix_len};
ghost use Rattle.std.specs.Option.{IfSome, option_map};
ghost use Rattle.std.specs.Str.{bytes_eq};
ghost use Rattle.pgn_tokens.specs.Tokens.{name_at, is_word_byte};
ghost use Rattle.pgn_verifier.specs.WrongParts.{token_reason};
ghost use Rattle.pgn_verifier.specs.laws.Reasons.{move_reason, string_reason, value_reason, name_reason, tag_reason};

use pgn_tokens::{after_gap, is_word_byte, split_name, split_string};

// The text after the name at its front; `None` if it doesn't begin with a name.
fn after_name(text: &[u8]) -> Option<&[u8]>
    ensures { option_map (λ r. r.now) result ≡ option_map (λ name. name.1) (name_at text.now) }
{
    let (name, rest) = split_name(text);
    if name.is_empty() {
        return None;
    }
    Some(rest)
}

// What a bad tag lacks, from the text after the opening quote of its string on: the closing quote, or if that is there,
// the tag's `]`.
fn string_reason(string: &[u8]) -> &'static [u8]
    ensures value { result.now ≡ string_reason string.now }
    ensures short { length result.now ≤ 26 }
{
    if split_string(string).is_some() {
        b"no bracket after the value"
    } else {
        b"string not closed"
    }
}

// What a bad tag lacks, from the text after its name on: a value, which begins with a quote, or else what
// `string_reason` says.
fn value_reason(text: &[u8]) -> &'static [u8]
    ensures value { result.now ≡ value_reason text.now }
    ensures short { length result.now ≤ 26 }
{
    match after_gap(text) {
        [b'"', string @ ..] => string_reason(string),
        _ => b"no value",
    }
}

// What a bad tag lacks, from the text after its `[` on: a name, or else what `value_reason` says.
fn name_reason(text: &[u8]) -> &'static [u8]
    ensures value { result.now ≡ name_reason text.now }
    ensures short { length result.now ≤ 26 }
{
    match after_name(after_gap(text)) {
        Some(rest) => value_reason(rest),
        None => b"no name",
    }
}

/// What a bad tag lacks, from its `[` on: the first of a name, a string and a `]` that is missing.
pub(crate) fn bad_tag_reason(text: &[u8]) -> &'static [u8]
    ensures value { result.now ≡ tag_reason text.now }
    ensures short { length result.now ≤ 26 }
{
    match text {
        [b'[', rest @ ..] => name_reason(rest),
        _ => b"no name",
    }
}

/// Whether the text's first byte is one of a word.
pub(crate) fn begins_word(text: &[u8]) -> bool
    ensures { result ≡ list_any is_word_byte (take 1 text.now) }
{
    match text {
        [byte, ..] => is_word_byte(*byte),
        [] => false,
    }
}

// How many bytes of a word are at a text's front.
fn word_len(text: &[u8]) -> usize
    ensures value { result ≡ prefix_len is_word_byte text.now }
    ensures within { result ≤ length text.now }
{
    text.iter().take_while(|byte| is_word_byte(**byte)).count()
}

// The word at a text's front, such as `1/2` of `1/2 *`; empty if the text begins with no word.
fn first_word(text: &[u8]) -> &[u8]
    ensures { result.now ≡ take_while is_word_byte text.now }
{
    &text[..word_len(text)]
}

// Whether the text begins with a draw as it is written elsewhere: the word `1/2`, or `½`.
fn begins_with_half(text: &[u8]) -> bool
    ensures { result
        ≡ (bytes_eq (take_while is_word_byte text.now) (codes "1/2")
        || bytes_eq (take 2 text.now) (194 ∷ 189 ∷ [])) }
{
    first_word(text) == b"1/2".as_slice() || text.starts_with(&[0xC2, 0xBD])
}

// Whether the text begins with an en dash, `–`.
fn begins_with_dash(text: &[u8]) -> bool
    ensures { result ≡ bytes_eq (take 3 text.now) (226 ∷ 128 ∷ 147 ∷ []) }
{
    text.starts_with(&[0xE2, 0x80, 0x93])
}

// Whether the text begins with a null move as other programs write it: the word `--` or `Z0`.
fn begins_with_null_move(text: &[u8]) -> bool
    ensures { result ≡ list_any (bytes_eq (take_while is_word_byte text.now)) (codes "--" ∷ codes "Z0" ∷ []) }
{
    first_word(text) == b"--".as_slice() || first_word(text) == b"Z0".as_slice()
}

/// The reason for a bad token at the text's front: a draw that PGN writes in another way, an en dash, a null move, a
/// variation with no move before it, another word (which is not a move), or a byte that begins no token.
pub(crate) fn token_reason(text: &[u8]) -> &'static [u8]
    ensures value { result.now ≡ token_reason text.now }
    ensures short { length result.now ≤ 40 }
{
    if begins_with_half(text) {
        b"a draw is written 1/2-1/2"
    } else if begins_with_dash(text) {
        b"an en dash, where results have a hyphen"
    } else if begins_with_null_move(text) {
        b"a null move, which chess does not have"
    } else if text.starts_with(b"(") {
        b"no move that this variation replaces"
    } else if begins_word(text) {
        b"not a move"
    } else {
        b"begins no token"
    }
}

/// The reason for an illegal move at the text's front, if that is `0-0`: it is castling, but may have been meant as a
/// result. `None` for any other move.
pub(crate) fn move_reason(text: &[u8]) -> Option<&'static [u8]>
    ensures value { option_map (λ r. r.now) result ≡ move_reason text.now }
    ensures short { IfSome result (λ r. length r.now ≤ 40) }
{
    if first_word(text) == b"0-0".as_slice() {
        Some(b"castling, and no result of PGN")
    } else {
        None
    }
}
