//! Whether a game has a variation.

ghost use Rattle.std.specs.Prelude.{◌≡◌, ◌≤◌, ◌+◌, ◌==◌, drop, length, ℕ};
ghost use Rattle.std.specs.List.{position_or_len};
ghost use Rattle.byte_devices.specs.Bytes.{byte};
ghost use Rattle.pgn_tokens.specs.Seen.{token_seen};
ghost use Rattle.pgn_tokens.specs.Tokens.{tokens_from};
ghost use Rattle.pgn_tokens.specs.VariationTokens.{has_variation, is_variation};
ghost use Rattle.pgn_tokens.specs.ties.Parentheses.{HasNone};

use crate::token::{Token, next_token};
use byte_devices::len_before;

/// Whether a token, which begins at the offset `at`, is a variation: it is skipped, and begins with `(`.
pub fn is_variation(text: &[u8], at: usize, token: &Token<'_>) -> bool
    requires { at + 1 ≤ length text.now }
    ensures { result ≡ is_variation text.now at (token_seen token.now) }
{
    match token {
        Token::Skip => text[at] == b'(',
        Token::Tag(_) | Token::Word(_) => false,
    }
}

// The offset of the first `(` of a text from the offset `at` on; the text's length if there is none.
fn next_parenthesis(text: &[u8], at: usize) -> usize
    requires { at ≤ length text.now }
    ensures { result ≡ at + position_or_len (λ c. c == byte "(") (drop at text.now) }
{
    at + len_before(&text[at..], b'(')
}

// The offset of the first `(` from the offset `at` on, where `known` is the offset of the first `(` from an earlier
// offset on. The text is searched only if `known` comes before `at`, so that no byte is looked at twice. In the
// contract `HasNone` says that no `(` comes from one offset up to another.
fn parenthesis_from(text: &[u8], at: usize, known: usize) -> usize
    requires { at ≤ length text.now }
    ensures { (from : ℕ) → from ≤ at → HasNone text.now from known → HasNone text.now at result }
{
    if known < at {
        next_parenthesis(text, at)
    } else {
        known
    }
}

/// Whether a token from the offset `at` on is a variation. If none is, and the game's text ends where `text` does,
/// chess_pgn's `read_variations` has nothing to read, so its caller needs no board. Tokens are read only up to the
/// text's last `(`, so mostly none is read, as a game's text mostly has no `(`. A byte order mark at `at` is to be
/// skipped by the caller.
pub fn has_variation(text: &[u8], at: usize) -> bool
    requires { at ≤ length text.now }
    ensures { result ≡ has_variation text.now (tokens_from text.now at) }
{
    let mut offset = at;
    // Where the first `(` from `offset` on is.
    let mut place = next_parenthesis(text, at);
    while place < text.len() {
        match next_token(text, offset) {
            Ok(Some((token, token_end))) => {
                if is_variation(text, offset, &token) {
                    return true;
                }
                place = parenthesis_from(text, token_end, place);
                offset = token_end;
            }
            Ok(None) => return false,
            Err(_) => return false,
        }
    }
    false
}
