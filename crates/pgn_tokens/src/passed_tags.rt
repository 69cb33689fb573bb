//! Passing over the tags of a game.

ghost use Rattle.std.specs.Prelude.{◌≤◌, length};
ghost use Rattle.pgn_tokens.specs.TagsPassed.{IsAfterTags};

use crate::last_tags::may_precede_tags;
use crate::token::next_token;

/// The offset after the tags of the game that begins at the offset `at`: that of its first number, move or outcome, of
/// what can't be read, or of the text's end.
pub fn after_tags(text: &[u8], at: usize) -> usize
    requires { at ≤ length text.now }
    ensures passed { IsAfterTags text.now at result }
    ensures within { result ≤ length text.now }
{
    let mut offset = at;
    loop {
        match next_token(text, offset) {
            Ok(Some((token, token_end))) => {
                if !may_precede_tags(&token) {
                    return offset;
                }
                offset = token_end;
            }
            Ok(None) => return offset,
            Err(_) => return offset,
        }
    }
}
