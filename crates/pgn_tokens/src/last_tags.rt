//! The last tag of a name among a game's tags.

ghost use Rattle.std.specs.Prelude.{◌≡◌, ◌≤◌, length};
ghost use Rattle.std.specs.Option.{IfSome};
ghost use Rattle.pgn_tokens.specs.LastTags.{may_precede_tags, named_tag, tag_section, last_tag};
ghost use Rattle.pgn_tokens.specs.Tokens.{tokens_from};
ghost use Rattle.pgn_tokens.specs.Seen.{found_seen, token_seen};

use crate::marks::is_marks;
use crate::tag::Tag;
use crate::token::{Token, after_blanks, next_token};

/// Whether more tags of the same game may come after this token. They may after a token that is skipped, a tag, or
/// marks such as `!?`; after a number, a move or an outcome no tag belongs to this game.
pub fn may_precede_tags(token: &Token<'_>) -> bool
    ensures { result ≡ may_precede_tags (token_seen token.now) }
{
    match token {
        Token::Skip | Token::Tag(_) => true,
        Token::Word(word) => is_marks(word),
    }
}

/// The token's tag, if the token is a tag with this name; `None` for a tag with another name, and for any other token.
/// In contracts `found_seen` is the tag's text and its `to_end`.
pub fn named_tag<'t>(name: &[u8], token: &Token<'t>) -> Option<Tag<'t>>
    ensures { found_seen result ≡ named_tag name.now (token_seen token.now) }
{
    let Token::Tag(tag) = token else {
        return None;
    };
    if tag.name == name { Some(*tag) } else { None }
}

/// The last tag with this name among a game's tags; `None` if no tag has this name. The tags end before the game's
/// first number, move or outcome, or before what can't be read. `at` is the offset from which on tags are looked at,
/// mostly that at which the game's text begins.
///
/// Each call reads these tags again: it is for callers that ask for one tag, such as `tag_text`. chess_pgn's
/// `read_normal_tags` goes over the same tokens, but applies each to a game.
pub fn last_tag<'t>(text: &'t [u8], at: usize, name: &[u8]) -> Option<Tag<'t>>
    requires { at ≤ length text.now }
    ensures tag { found_seen result ≡ last_tag name.now (tag_section (tokens_from text.now at)) }
    ensures within { IfSome result (λ tag. tag.to_end ≤ length text.now) }
{
    let mut offset = at;
    let mut last = None;
    loop {
        match next_token(text, offset) {
            Ok(Some((token, token_end))) => {
                if !may_precede_tags(&token) {
                    return last;
                }
                last = named_tag(name, &token).or(last);
                offset = after_blanks(text, token_end);
            }
            Ok(None) | Err(_) => return last,
        }
    }
}
