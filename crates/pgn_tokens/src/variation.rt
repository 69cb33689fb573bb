//! Skipping a variation.

ghost use Rattle.std.specs.Prelude.{◌≡◌, ◌+◌, ◌≤◌, ◌<◌, ◌^◌, length, false, IfSome, None, Option, Result};
ghost use Rattle.std.specs.Option.{option_map};
ghost use Rattle.pgn_tokens.specs.Tokens.{variation_at};
ghost use Rattle.pgn_tokens.specs.ties.VariationParts.{after_part, depth_after};
ghost use Rattle.pgn_tokens.specs.ties.FirstSeen.{variation_seen};

use crate::skips::{after_brace, line_end};
use crate::token::TokenFault;

// One step through a variation: skips `byte`, or the whole `%` line or comment that begins with `byte`, and returns the
// text that is left. `None` if `byte` begins a `{` comment without a `}`. `rest` is the text after `byte`;
// `line_begins`: whether `byte` is the first of its line. The `\n` at the end of a skipped line is left, so that the
// next step sees that a line begins after it.
fn after_part(line_begins: bool, byte: u8, rest: &[u8]) -> Option<&[u8]>
    ensures rest { option_map (λ r. r.now) result ≡ after_part line_begins byte rest.now }
    ensures shorter { IfSome result (λ r. length r.now ≤ length rest.now) }
{
    match byte {
        b'%' if line_begins => Some(line_end(rest)),
        b';' => Some(line_end(rest)),
        b'{' => after_brace(rest),
        _ => Some(rest),
    }
}

// How many variations are open inside the outermost one after `byte`, if `depth` are open before it: `(` opens one, `)`
// closes one, and any other byte changes nothing. `None` if `byte` closes the outermost one.
fn depth_after(depth: usize, byte: u8) -> Option<usize>
    requires { depth + 1 < 2 ^ 64 }
    ensures { result ≡ depth_after depth byte }
{
    match byte {
        b'(' => Some(depth + 1),
        b')' => depth.checked_sub(1),
        _ => Some(depth),
    }
}

// Skips a variation, with all variations and comments inside it: `text` begins after its `(`, and the text after its
// `)` is returned. The result is a fault if the variation, or a `{` comment in it, is not closed. In the contract
// `None` means that `text` begins in no comment, `false` that it begins inside a line, and `1` that one variation is
// open.
pub(crate) fn after_variation(text: &[u8]) -> Result<&[u8], TokenFault>
    ensures { variation_seen result ≡ variation_at None false 1 text.now }
{
    let mut rest = text;
    let mut line_begins = false;
    // How many variations are open inside this one.
    let mut depth = 0;
    while let [byte, others @ ..] = rest {
        let Some(tail) = after_part(line_begins, *byte, others) else {
            return Err(TokenFault::UnclosedComment { to_end: rest.len() });
        };
        let Some(open) = depth_after(depth, *byte) else {
            return Ok(tail);
        };
        line_begins = *byte == b'\n';
        depth = open;
        rest = tail;
    }
    Err(TokenFault::UnclosedVariation)
}
