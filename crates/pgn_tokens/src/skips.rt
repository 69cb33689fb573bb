//! What is skipped between tokens: white space, `%` lines and comments. Each function cuts the front of a text off.
//! `after_brace` is inlined for the reason at the head of token.rt.

ghost use Rattle.std.specs.Prelude.{◌≡◌, ◌≤◌, ◌<◌, length, false, Option, IfSome};
ghost use Rattle.std.specs.Option.{option_map};
ghost use Rattle.pgn_tokens.specs.Tokens.{line_end, after_brace, after_gap};

use crate::bytes::is_white_space;
use byte_devices::len_before;

// Skips the rest of a line: returns the text from its first `\n` on, for `ab\ncd` the text `\ncd`. The result is empty
// if there is no `\n`. The `\n` is left, so that the caller sees that a line begins after it.
pub(crate) fn line_end(text: &[u8]) -> &[u8]
    ensures rest { result.now ≡ line_end text.now }
    ensures shorter { length result.now ≤ length text.now }
{
    &text[len_before(text, b'\n')..]
}

// Skips the rest of a `{` comment: returns the text after its first `}`, for `best} e5` the text ` e5`. `None` if there
// is no `}`.
#[inline(always)]
pub fn after_brace(text: &[u8]) -> Option<&[u8]>
    ensures rest { option_map (λ r. r.now) result ≡ after_brace text.now }
    ensures shorter { IfSome result (λ r. length r.now < length text.now) }
{
    let len = len_before(text, b'}');
    if len == text.len() {
        return None;
    }
    Some(&text[len + 1..])
}

/// Skips the white space and the `%` lines at a text's front: of ` \n%x\n"a"]` the text `"a"]` is left. Such a gap may
/// be between the parts of a tag. The text begins inside a line, so a `%` as its first byte is not skipped.
pub fn after_gap(text: &[u8]) -> &[u8]
    ensures { result.now ≡ after_gap text.now }
{
    let mut rest = text;
    let mut line_begins = false;
    while let [byte, others @ ..] = rest {
        if line_begins && *byte == b'%' {
            rest = line_end(others);
        } else if is_white_space(*byte) {
            rest = others;
        } else {
            break;
        }
        line_begins = *byte == b'\n';
    }
    rest
}
