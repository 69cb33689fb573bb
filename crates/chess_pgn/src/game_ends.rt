//! Where a game ends, also if it has a fault.

ghost use Rattle.std.specs.Prelude.{◌≡◌, ◌≤◌, ◌<◌, List, ℕ, length};
ghost use Rattle.std.specs.Option.{IfSome};
ghost use Rattle.byte_devices.specs.Bytes.{after_byte_order_mark};
ghost use Rattle.chess_pgn.specs.GameEnds.{ends_at, game_end};
ghost use Rattle.pgn_tokens.specs.Split.{IsSplit};
ghost use Rattle.pgn_tokens.specs.Tokens as spec;
ghost use Rattle.pgn_tokens.specs.Tokens.{tokens_from};
ghost use Rattle.pgn_tokens.specs.shared.Places.{IsWithin};
ghost use Rattle.pgn_tokens.specs.Seen.{token_seen};
ghost use Rattle.pgn_tokens.specs.TagsPassed.{IsAfterTags};

use byte_devices::after_byte_order_mark;
use pgn_tokens::{Token, after_tags, next_token};
use pgn_writer::outcome_of;

// The offset at which a token after a game's tags ends the game, in a text of `len` bytes: after a termination marker,
// or before a tag, which is the next game's. `None` for any other token. `to_end` bytes are left where the token
// begins.
fn ends_at(token: &Token<'_>, len: usize, to_end: usize) -> Option<usize>
    requires to_end { to_end ≤ len }
    requires within { IsWithin to_end (token_seen token.now) }
    ensures { result ≡ ends_at len (to_end, token_seen token.now) }
{
    match token {
        Token::Skip => None,
        Token::Tag(_) => Some(len - to_end),
        Token::Word(word) => match outcome_of(word) {
            Some(_) => Some(len - to_end + word.len()),
            None => None,
        },
    }
}

// The offset where a game ends of which all tags come before the offset `at`: after its termination marker, or before a
// tag, which is the next game's. `None` if neither comes before the text's end, or before what can't be read.
fn end_after_tags(text: &[u8], at: usize) -> Option<usize>
    requires { at ≤ length text.now }
    ensures { (from : ℕ) → IsAfterTags text.now from at
        → result ≡ game_end (length text.now) (tokens_from text.now from) }
{
    let mut offset = at;
    loop {
        match next_token(text, offset) {
            Ok(Some((token, token_end))) => {
                if let Some(end) = ends_at(&token, text.len(), text.len() - offset) {
                    return Some(end);
                }
                offset = token_end;
            }
            Ok(None) => return None,
            Err(_) => return None,
        }
    }
}

/// Where the game ends that begins at the offset `at`, also if it has a fault, which `read_pgn` reports: after its
/// termination marker, such as `1-0`, or before a tag that comes after its tags and a number or move, since that is the
/// next game's. `None` if neither comes before the text's end, or before what can't be read, such as a comment that
/// isn't closed. A byte order mark at offset 0 is skipped.
///
/// The clause `end` says: there is a split of the text into tokens (`IsSplit`), and by it the game ends there.
/// `further`: the offset returned is after `at`, so going on from game to game ends.
pub fn game_end(text: &[u8], at: usize) -> Option<usize>
    requires { at ≤ length text.now }
    ensures end { (tokens : List (ℕ × spec.Token)) × IsSplit text.now (after_byte_order_mark text.now at) tokens
        × (result ≡ game_end (length text.now) tokens) }
    ensures further { IfSome result (λ end. at < end) }
    ensures within { IfSome result (λ end. end ≤ length text.now) }
{
    end_after_tags(text, after_tags(text, after_byte_order_mark(text, at)))
}
