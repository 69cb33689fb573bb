//! The tokens of a game's text. The functions that read the most common ones are inlined into the loops over a game's
//! tokens, here in last_tags.rt, and in chess_pgn's words.rt and read.rt, for speed in the workload `collections`; the
//! others are kept out of these loops by `inline(never)`. The gain was not measured apart.

ghost use Rattle.std.specs.Prelude.{◌≡◌, ◌≤◌, ◌∷◌, length, drop, false, [], None};
ghost use Rattle.std.specs.List.{prefix_len, take_while};
ghost use Rattle.std.specs.Option.{unwrap_or};
ghost use Rattle.pgn_tokens.specs.Tokens.{is_word_byte, token_at, comment_at, after_brace, variation_at, tag_at, Bad_tag, begins_line};
ghost use Rattle.byte_devices.specs.Bytes.{is_digit};
ghost use Rattle.pgn_tokens.specs.ties.FirstSeen.{first_seen};
ghost use Rattle.pgn_tokens.specs.Seen.{IsNextToken, SkipsTo};

use crate::bytes::{is_passed, is_word_byte};
use crate::skips::{after_brace, line_end};
use crate::tag::{Tag, read_tag};
use crate::variation::after_variation;
use byte_devices::{is_digit, split_while};

/// A token of a PGN text that can be read.
#[derive(Clone, Copy)]
pub enum Token<'a> {
    /// What changes nothing: a byte of white space, a dot, a comment, a `%` line, a `$` glyph or a variation.
    Skip,
    /// A tag.
    Tag(Tag<'a>),
    /// A move, a number, marks such as `!?`, or an outcome such as `1-0` (chess_pgn says which).
    Word(&'a [u8]),
}

/// Why no token can be read.
#[derive(Clone, Copy)]
pub enum TokenFault {
    /// A `[` that begins no tag.
    BadTag,
    /// A `{` comment without its `}`. `to_end` is the number of bytes from its `{` (counted too) to the text's end.
    UnclosedComment { to_end: usize },
    /// A variation without its `)`.
    UnclosedVariation,
    /// A byte that begins no token.
    BadByte,
}

// Skips the digits at a text's front: of `14 Nf3`, which follows the `$` of the glyph `$14`, the text ` Nf3` is left.
fn after_digits(text: &[u8]) -> &[u8]
    ensures { result.now ≡ drop (prefix_len is_digit text.now) text.now }
{
    split_while(text, |byte| is_digit(byte)).1
}

// Splits a text after the word at its front: `Nf3+ d5` into `Nf3+` and ` d5`. The word ends before the first byte that
// no word may have (`is_word_byte`), and is empty if the text begins with such a byte.
#[inline(always)]
pub fn split_word(text: &[u8]) -> (&[u8], &[u8])
    ensures word { result.0.now ≡ take_while is_word_byte text.now }
    ensures rest { result.1.now ≡ drop (prefix_len is_word_byte text.now) text.now }
{
    split_while(text, |byte| is_word_byte(byte))
}

// Skips a `{` comment: returns `Token::Skip` and the text after its `}`, or a fault if there is no `}`. `text` begins
// after the `{`; `to_end` is the number of bytes from the `{` to the text's end, which the fault reports.
#[inline(never)]
fn read_comment(to_end: usize, text: &[u8]) -> Result<(Token<'_>, &[u8]), TokenFault>
    ensures { first_seen result ≡ comment_at to_end (after_brace text.now) }
{
    match after_brace(text) {
        Some(rest) => Ok((Token::Skip, rest)),
        None => Err(TokenFault::UnclosedComment { to_end }),
    }
}

// Skips a variation: returns `Token::Skip` and the text after its `)`, or a fault if the variation, or a comment in it,
// isn't closed. `text` begins after its `(`. The comment of `after_variation`, in variation.rt, explains
// `None false 1`.
#[inline(never)]
fn read_variation(text: &[u8]) -> Result<(Token<'_>, &[u8]), TokenFault>
    ensures { first_seen result ≡ variation_at None false 1 text.now }
{
    match after_variation(text) {
        Ok(rest) => Ok((Token::Skip, rest)),
        Err(fault) => Err(fault),
    }
}

// Reads a tag such as `[Event "a"]`: returns the tag and the text after its `]`, or a fault if this is no tag. `text`
// begins after the `[`.
#[tactic(auto, using(crate::proofs::TagParts::parts_are))]
#[inline(never)]
fn read_bracket(text: &[u8]) -> Result<(Token<'_>, &[u8]), TokenFault>
    ensures { first_seen result ≡ unwrap_or (tag_at text.now) (Bad_tag, []) }
{
    match read_tag(text) {
        Some((tag, rest)) => Ok((Token::Tag(tag), rest)),
        None => Err(TokenFault::BadTag),
    }
}

// Reads the first token of `text`, and returns the token and the text after it, or a fault if no token begins here or
// one isn't closed. `next_token` reads words itself, and calls this for everything else, also for `*`, the one word
// that has no byte of a word. `text` is given twice: whole, and as its `first` byte and its `rest`. `line_begins`:
// whether `first` is the first byte of a line, where `%` begins a line that is skipped.
#[tactic(auto, unfolding(crate::specs::Tokens::token_at))]
#[inline(never)]
fn read_token<'a>(
    line_begins: bool,
    first: u8,
    rest: &'a [u8],
    text: &'a [u8],
) -> Result<(Token<'a>, &'a [u8]), TokenFault>
    requires text { text.now ≡ first ∷ rest.now }
    requires no_word { is_word_byte first ≡ false }
    ensures { first_seen result ≡ token_at line_begins first rest.now }
{
    match first {
        b'%' if line_begins => Ok((Token::Skip, line_end(rest))),
        _ if is_passed(first) => Ok((Token::Skip, rest)),
        b'{' => read_comment(text.len(), rest),
        b';' => Ok((Token::Skip, line_end(rest))),
        b'$' => Ok((Token::Skip, after_digits(rest))),
        b'(' => read_variation(rest),
        b'[' => read_bracket(rest),
        b'*' => Ok((Token::Word(&text[..1]), rest)),
        _ => Err(TokenFault::BadByte),
    }
}

// Whether a line begins at the offset `at`: `at` is 0, or the byte before it is `\n`. Only there a `%` begins a line
// that is skipped.
fn begins_line(text: &[u8], at: usize) -> bool
    requires { at ≤ length text.now }
    ensures { result ≡ begins_line text.now at }
{
    at == 0 || text[at - 1] == b'\n'
}

/// The token that begins at the offset `at`, and the offset after it; `None` at the text's end. In `1. e4` the token at
/// 3 is the word `e4`, with the offset 5; the token at 1 is `Token::Skip` for the dot, with the offset 2.
///
/// # Errors
/// If no token can be read at that offset.
#[inline(always)]
pub fn next_token(text: &[u8], at: usize) -> Result<Option<(Token<'_>, usize)>, TokenFault>
    requires { at ≤ length text.now }
    ensures { IsNextToken text.now at result }
{
    let ahead = &text[at..];
    let [first, rest @ ..] = ahead else {
        return Ok(None);
    };
    if is_word_byte(*first) {
        let (word, tail) = split_word(ahead);
        return Ok(Some((Token::Word(word), text.len() - tail.len())));
    }
    match read_token(begins_line(text, at), *first, rest, ahead) {
        Ok((token, tail)) => Ok(Some((token, text.len() - tail.len()))),
        Err(fault) => Err(fault),
    }
}

/// Skips white space and dots from the offset `at` on, and returns the offset after them: in `12. e4` from 2 on it is
/// 4. [`next_token`] would return each of these bytes as a `Token::Skip` (`SkipsTo`); here no tokens are made of them.
/// Its loop skips one token in each round, so `SkipsTo` is the loop's invariant. The library's `split_while` would take
/// the same bytes, but its contract doesn't say that each of them is a token.
#[inline(always)]
pub fn after_blanks(text: &[u8], at: usize) -> usize
    requires { at ≤ length text.now }
    ensures skips { SkipsTo text.now at result }
    ensures forward { at ≤ result }
    ensures within { result ≤ length text.now }
{
    let mut offset = at;
    while offset < text.len() && is_passed(text[offset]) {
        offset += 1;
    }
    offset
}
