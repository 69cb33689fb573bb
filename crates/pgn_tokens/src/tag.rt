//! Reading a tag.

ghost use Rattle.std.specs.Prelude.{◌≡◌, drop, false, take_while, Option};
ghost use Rattle.std.specs.List.{prefix_len};
ghost use Rattle.std.specs.Option.{option_map};
ghost use Rattle.byte_devices.specs.Bytes.{is_name_byte};
ghost use Rattle.pgn_tokens.specs.Tokens.{is_white_space, after_next, string_at};
ghost use Rattle.pgn_tokens.specs.shared.TagParts.{tag_by_parts};
ghost use Rattle.pgn_tokens.specs.ties.FirstSeen.{tag_seen};

use crate::skips::after_gap;
use byte_devices::{is_name_byte, len_before_any, split_while};

/// A tag that was read: `[Event "a"]` has the name `Event` and the text `a`, the bytes between its quotes as they are,
/// with their backslashes. `to_end` is the number of bytes from the byte after its opening quote (here `a`) to the end
/// of the whole PGN text, so the offset of that byte is the text's length less `to_end`.
#[derive(Clone, Copy)]
pub struct Tag<'a> {
    pub name: &'a [u8],
    pub text: &'a [u8],
    pub to_end: usize,
}

/// Splits a text after the tag's name at its front: `Event "a"]` into `Event` and ` "a"]`. A name has letters, digits
/// and `_`; it is empty if the text begins with another byte.
pub fn split_name(text: &[u8]) -> (&[u8], &[u8])
    ensures name { result.0.now ≡ take_while is_name_byte text.now }
    ensures rest { result.1.now ≡ drop (prefix_len is_name_byte text.now) text.now }
{
    split_while(text, |byte| is_name_byte(byte))
}

// The text after any white space and `%` lines at its front (`after_gap`), and then the byte `byte`: for the byte `"`
// and the text ` "a"]` it is `a"]`. `None` if another byte comes there, or the text ends. The first test is a short cut
// for a byte with no white space before it, as a tag's `]` mostly is. The `match` alone gives the same, with 0.7 % more
// instructions for the whole workload `puzzles` and 0.1 % more for `collections`.
fn after_next(byte: u8, text: &[u8]) -> Option<&[u8]>
    requires { is_white_space byte ≡ false }
    ensures { option_map (λ r. r.now) result ≡ after_next byte text.now }
{
    if let [first, rest @ ..] = text {
        if *first == byte {
            return Some(rest);
        }
    }
    match after_gap(text) {
        [first, rest @ ..] if *first == byte => Some(rest),
        _ => None,
    }
}

/// Splits the text after a string's opening quote into the string's bytes and the text after its closing quote: `a"]`
/// into `a` and `]`. `None` if the line or the text ends first. A quote after a backslash doesn't end the string: of
/// `a\"b"]` the string is `a\"b`, with its backslash.
pub fn split_string(text: &[u8]) -> Option<(&[u8], &[u8])>
    ensures { option_map (λ r. (r.0.now, r.1.now)) result ≡ string_at text.now }
{
    // Whether the byte at `offset` is escaped by the backslash before it, so that it doesn't end the string.
    let mut is_kept = false;
    // The bytes before the first quote, backslash or line end are the string's. Mostly that is the closing quote.
    let mut offset = len_before_any(text, b'"', b'\\', b'\n');
    while offset < text.len() {
        let byte = text[offset];
        if byte == b'\n' {
            return None;
        }
        if is_kept {
            is_kept = false;
        } else if byte == b'"' {
            return Some((&text[..offset], &text[offset + 1..]));
        } else {
            is_kept = byte == b'\\';
        }
        offset += 1;
    }
    None
}

// Reads a tag from the text after its `[`, and returns the tag and the text after its `]`: for `Event "a"] 1. e4` the
// tag with the name `Event` and the text `a`, and the text ` 1. e4`. `None` if this is no tag.
pub(crate) fn read_tag(text: &[u8]) -> Option<(Tag<'_>, &[u8])>
    ensures { tag_seen result ≡ tag_by_parts text.now }
{
    let (name, rest) = split_name(after_gap(text));
    if name.is_empty() {
        return None;
    }
    let string = after_next(b'"', rest)?;
    let (text, rest) = split_string(string)?;
    let rest = after_next(b']', rest)?;
    // `string` is what is left of the whole text from the first byte of the tag's string on.
    let to_end = string.len();
    Some((Tag { name, text, to_end }, rest))
}
