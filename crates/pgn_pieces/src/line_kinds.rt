//! The kinds of lines of a collection. The kind of a line is decided by its front, which means its first 256 bytes
//! without a byte order mark, and then without spaces and tabs, at their beginning:
//!
//! - a tag line begins with `[`, a name, perhaps spaces and tabs, and `"`: `[White "Carlsen"]`
//! - an Event line is a tag line of the tag Event: `[Event "Oslo"]`
//! - an empty line has only white space, or begins with `;`, or its first byte is `%`
//! - a line of moves is any other line: `1. e4 e5`, but also `{a comment}`; and a tag line with more than tags, such as
//!   `[White "a"] [Result "1-0"] 1. e4 1-0`, or with a tag that isn't closed: `[White "a`
//!
//! The functions that `kind_of` calls are inlined, since `verify --keep-going` calls it for every line of a collection
//! (the workloads collections and puzzles). What that gains was not measured apart.

ghost use Rattle.std.specs.Prelude.{◌≡◌, ◌≤◌, nat_lt, true, false, ◌&&◌, ◌||◌, ◌==◌, length, take, drop, codes, Option, [], ◌∷◌};
ghost use Rattle.std.specs.Str.{bytes_eq};
ghost use Rattle.std.specs.List.{list_all, list_any};
ghost use Rattle.std.specs.Option.{option_map};
ghost use Rattle.pgn_pieces.specs.Pieces.{drop_while, front_of, after_name, after_part, after_parts, after_string, begins_tag, ends_in_tag, from_quote, has_more, tag_name, is_tag_line, is_event_line, is_moves_line};
ghost use Rattle.byte_devices.specs.Bytes.{after_byte, after_byte_order_mark, is_blank, is_digit};
ghost use Rattle.pgn_pieces.specs.Places.{breaks_line, line_ends};
ghost use Rattle.pgn_pieces.specs.ties.Fronts.{after_value, behind_string, from_mark, is_empty_with, without_blanks};

use byte_devices::{
    after_byte_order_mark, is_blank, is_digit, is_name_byte, len_before, len_before_any,
    split_while,
};

// How many of a line's first bytes decide its kind; the bytes after these are not looked at.
pub(crate) const FRONT_LEN: usize = 256;

// The kind of a line, and whether the piece has a line of moves with it. For an Event line `is_tag` is true too.
#[derive(Clone, Copy)]
pub(crate) struct Kind {
    // Whether it is a tag line.
    pub(crate) is_tag: bool,
    // Whether it is an Event line.
    pub(crate) is_event: bool,
    // Whether it, or a line of its piece before it, is a line of moves; a tag line may be one too.
    pub(crate) moves: bool,
}

// The kind of a line: `[Event "Oslo"]` is a tag line and an Event line, `[White "Carlsen"]` only a tag line, and
// `1. e4 e5` a line of moves. A line that counts as empty (`is_empty`) is none of these. `line` may have its line end
// or not, and may be only the beginning of a line that isn't all read (`Seen::see_open`). `moves`: whether its piece
// has a line of moves before it; then it isn't tested whether this line is one too.
#[inline(always)]
pub(crate) fn kind_of(line: &[u8], moves: bool) -> Kind
    ensures tag { result.is_tag ≡ is_tag_line line.now }
    ensures event { result.is_event ≡ is_event_line line.now }
    ensures moves { result.moves ≡ (moves || is_moves_line line.now) }
{
    let front = front_of(line);
    // Most lines of a long game are no tag lines, so this is tested first.
    if !front.starts_with(b"[") {
        return Kind {
            is_tag: false,
            is_event: false,
            moves: moves || !is_empty(line, front),
        };
    }
    let name = tag_name(front);
    let after_name = after_name(front, name);
    let is_tag = has_tag(name, after_name);
    Kind {
        is_tag,
        is_event: is_tag && name == b"Event".as_slice(),
        moves: moves
            || if is_tag {
                has_moves(front, after_name)
            } else {
                !is_empty(line, front)
            },
    }
}

// Whether a tag line with this front has more than tags, such as moves or a tag that isn't closed on the line. `value`
// is the front from its first tag's opening quote on: `"Oslo"]` for `[Event "Oslo"]`.
#[inline(never)]
fn has_moves(front: &[u8], value: &[u8]) -> bool
    requires value { value.now ≡ after_name front.now }
    requires tag { begins_tag front.now ≡ true }
    ensures { result ≡ has_more (list_any breaks_line front.now) (after_parts 256 front.now) }
{
    match after_parts(front, value) {
        [b'\r' | b'\n' | b'{' | b';', ..] | [] => false,
        rest => has_line_end(front) || !ends_in_tag(rest),
    }
}

// Whether a text ends within the tag with which it begins, as `[White "a` does.
fn ends_in_tag(text: &[u8]) -> bool
    ensures { result ≡ ends_in_tag text.now }
{
    if !text.starts_with(b"[") {
        return false;
    }
    let name = tag_name(text);
    let value = after_name(text, name);
    value.is_empty() || has_tag(name, value) && behind_string(value).is_empty()
}

// The rest of a string, from the quote on that closes it; empty if none does. A quote after a backslash doesn't.
#[inline(always)]
fn from_quote(text: &[u8]) -> &[u8]
    ensures { result.now ≡ from_quote false text.now }
{
    let mut rest = from_mark(text);
    // Most strings have no backslash.
    while begins_with(rest, b'\\') {
        rest = from_mark(without_first(without_first(rest)));
    }
    rest
}

// Whether a text begins with this byte.
#[inline(always)]
fn begins_with(text: &[u8], byte: u8) -> bool
    ensures { result ≡ bytes_eq (take 1 text.now) (byte ∷ []) }
{
    text.starts_with(&[byte])
}

// The text from its first quote or backslash on; empty if it has neither.
#[inline(always)]
fn from_mark(text: &[u8]) -> &[u8]
    ensures { result.now ≡ from_mark text.now }
{
    &text[len_before_any(text, b'"', b'\\', b'\\')..]
}

// The text after its first byte, if that is `byte`.
#[inline(always)]
fn after_byte(byte: u8, text: &[u8]) -> Option<&[u8]>
    ensures { option_map (λ r. r.now) result ≡ after_byte byte text.now }
{
    match text {
        [first, rest @ ..] if *first == byte => Some(rest),
        _ => None,
    }
}

// Whether a text begins with a tag, as the front of a tag line does.
fn begins_tag(text: &[u8]) -> bool
    ensures { result ≡ begins_tag text.now }
{
    if !text.starts_with(b"[") {
        return false;
    }
    let name = tag_name(text);
    has_tag(name, after_name(text, name))
}

// What comes after a tag's string and any spaces and tabs, where `value` is the text from the string's opening quote
// on: `] e4` for `"Oslo" ] e4`; empty if the string isn't closed.
#[inline(always)]
fn behind_string(value: &[u8]) -> &[u8]
    ensures { result.now ≡ behind_string value.now }
{
    without_blanks(without_first(from_quote(without_first(value))))
}

// What comes after a tag and any spaces and tabs, where `value` is the text from the string's opening quote on: `e4`
// for `"Oslo"] e4`; `None` if the tag isn't closed.
#[inline(always)]
fn after_value(value: &[u8]) -> Option<&[u8]>
    ensures { option_map (λ r. r.now) result ≡ after_value value.now }
{
    let rest = after_byte(b']', behind_string(value))?;
    Some(without_blanks(rest))
}

// What comes after the tag, comment, glyph, dot or mark with which a text begins, and any spaces and tabs; `None` if it
// begins with none of these, or the tag or the comment isn't closed.
fn after_part(text: &[u8]) -> Option<&[u8]>
    ensures { option_map (λ r. r.now) result ≡ after_part text.now }
{
    if begins_tag(text) {
        return after_value(after_name(text, tag_name(text)));
    }
    match text {
        [b'{', ..] => {
            let rest = after_byte(b'}', &text[len_before(text, b'}')..])?;
            Some(without_blanks(rest))
        }
        [b'$', rest @ ..] => Some(without_blanks(without_digits(rest))),
        [b'.' | b'!' | b'?', rest @ ..] => Some(without_blanks(rest)),
        _ => None,
    }
}

// What comes after the tags, comments, glyphs, dots and marks with which the front of a tag line begins. `value` is the
// front from its first tag's opening quote on.
#[inline(always)]
fn after_parts<'t>(front: &'t [u8], value: &'t [u8]) -> &'t [u8]
    requires value { value.now ≡ after_name front.now }
    requires tag { begins_tag front.now ≡ true }
    ensures { result.now ≡ after_parts 256 front.now }
{
    let Some(rest) = after_value(value) else {
        return front;
    };
    // Most lines have one tag and nothing else.
    if !begins_like_part(rest) {
        return rest;
    }
    after_more_parts(rest)
}

// Whether a text begins as a tag, a comment, a glyph, a dot or a mark does.
#[inline(always)]
fn begins_like_part(text: &[u8]) -> bool
    ensures { result ≡ list_any (λ c. list_any (λ k. c == k) (codes "[{$.!?")) (take 1 text.now) }
{
    match text {
        [b'[' | b'{' | b'$' | b'.' | b'!' | b'?', ..] => true,
        _ => false,
    }
}

// What comes after the tags, comments, glyphs, dots and marks with which `text` begins. `text` is a line's front after
// its first tag. Where the loop reaches its bound, nothing is left of the front, which has at most 256 bytes.
#[inline(never)]
fn after_more_parts(text: &[u8]) -> &[u8]
    ensures { result.now ≡ after_parts 255 text.now }
{
    let mut rest = text;
    for passed in 1..FRONT_LEN {
        let Some(next) = after_part(rest) else {
            return rest;
        };
        rest = next;
    }
    rest
}

// Whether a line's end is among these bytes: `\n` or `\r`.
fn has_line_end(bytes: &[u8]) -> bool
    ensures { result ≡ list_any breaks_line bytes.now }
{
    bytes.iter().any(|byte| *byte == b'\n' || *byte == b'\r')
}

// The text after the byte order mark (the bytes EF BB BF of UTF-8) at its front; all of the text, if it has none. Each
// line's mark is left out, so that files with marks can be joined to one collection.
#[inline(always)]
fn without_mark(text: &[u8]) -> &[u8]
    ensures { result.now ≡ drop (after_byte_order_mark text.now 0) text.now }
{
    &text[after_byte_order_mark(text, 0)..]
}

// The first 256 bytes (`FRONT_LEN`) of a line, which decide its kind; all of a shorter line.
#[inline(always)]
fn first_bytes(line: &[u8]) -> &[u8]
    ensures { result.now ≡ take 256 line.now }
{
    if line.len() > FRONT_LEN {
        return &line[..FRONT_LEN];
    }
    line
}

// The front of a line, which decides its kind: its first 256 bytes, without a byte order mark, and without the spaces
// and tabs that come first. The front of a line with 256 spaces or more is empty.
#[inline(always)]
fn front_of(line: &[u8]) -> &[u8]
    ensures { result.now ≡ front_of line.now }
{
    without_blanks(without_mark(first_bytes(line)))
}

// A text without its first byte; an empty text stays empty.
#[inline(always)]
fn without_first(text: &[u8]) -> &[u8]
    ensures { result.now ≡ drop 1 text.now }
{
    &text[text.len().min(1)..]
}

// The name of the tag with which a line's front begins: `Event` for `[Event "Oslo"]`. It is the letters, digits and `_`
// after the first byte. The caller has tested that the first byte is `[`.
#[inline(always)]
fn tag_name(front: &[u8]) -> &[u8]
    ensures { result.now ≡ tag_name front.now }
{
    split_while(without_first(front), |byte| is_name_byte(byte)).0
}

// A text without the spaces and tabs at its front: `"Oslo"]` for ` "Oslo"]`.
#[inline(always)]
fn without_blanks(text: &[u8]) -> &[u8]
    ensures { result.now ≡ without_blanks text.now }
{
    split_while(text, |byte| is_blank(byte)).1
}

// A text without the digits at its front: ` e4` for `12 e4`.
#[inline(always)]
fn without_digits(text: &[u8]) -> &[u8]
    ensures { result.now ≡ drop_while is_digit text.now }
{
    split_while(text, |byte| is_digit(byte)).1
}

// The part of a line's front after the tag's name, and after any spaces and tabs that follow the name: `"Oslo"]` for
// `[Event "Oslo"]`. `name` is what `tag_name` returned for this front.
#[inline(always)]
fn after_name<'t>(front: &'t [u8], name: &[u8]) -> &'t [u8]
    requires { name.now ≡ tag_name front.now }
    ensures { result.now ≡ after_name front.now }
{
    let rest = without_first(front);
    without_blanks(&rest[name.len()..])
}

// Whether a line's front is that of a tag line, by the name after its `[` and by what follows the name and any spaces
// and tabs (`after_name`): the name isn't empty, and `"` follows.
#[inline(always)]
fn has_tag(name: &[u8], after_name: &[u8]) -> bool
    ensures { result ≡ (nat_lt 0 (length name.now) && bytes_eq (take 1 after_name.now) (codes "\"")) }
{
    !name.is_empty() && after_name.starts_with(b"\"")
}

// Whether a byte is white space, as an empty line may contain: a space, a tab, `\r` or `\n`.
#[inline(always)]
fn is_white(byte: u8) -> bool
    ensures { result ≡ (is_blank byte || (byte == 13) || (byte == 10)) }
{
    is_blank(byte) || byte == b'\r' || byte == b'\n'
}

// Whether all these bytes are white space; true if there are no bytes.
#[inline(always)]
fn is_all_white(bytes: &[u8]) -> bool
    ensures { result ≡ list_all (λ c. is_blank c || (c == 13) || (c == 10)) bytes.now }
{
    bytes.iter().all(|byte| is_white(*byte))
}

// Whether a line with this front counts as empty, so neither as a tag line nor as a line of moves: the front has only
// white space, or begins with `;` (a comment up to the line's end), or the line's first byte is `%` (PGN's escape).
#[inline(always)]
fn is_empty(line: &[u8], front: &[u8]) -> bool
    ensures { result ≡ is_empty_with (take 1 line.now) front.now }
{
    line.starts_with(b"%") || front.starts_with(b";") || is_all_white(front)
}

/// How many lines end in a text: the number of its bytes that are `\n`. A last line without `\n` is not counted, so
/// `a\nb` has one line end. Line numbers are counted with this.
pub fn line_ends(bytes: &[u8]) -> usize
    ensures value { result ≡ line_ends bytes.now }
    ensures within { result ≤ length bytes.now }
{
    bytes.iter().filter(|byte| **byte == b'\n').count()
}
