//! The text of a line, without `\r` and the spaces and tabs at its ends.

ghost use Rattle.std.specs.Prelude.{◌≡◌, ◌≤◌, length};
ghost use Rattle.text_lines.specs.Lines.{without_return, without_front_blanks, without_end_blanks, trimmed};

use byte_devices::is_blank;

// The text with the `\r` at its end cut off, if it ends with one; of several only the last is cut.
fn cut_return(text: &[u8]) -> &[u8]
    ensures { result.now ≡ without_return text.now }
{
    if !text.is_empty() && text[text.len() - 1] == b'\r' {
        &text[..text.len() - 1]
    } else {
        text
    }
}

/// A text without the spaces and tabs at its front.
pub fn trim_start(text: &[u8]) -> &[u8]
    ensures { result.now ≡ without_front_blanks text.now }
{
    let mut from = 0;
    while from < text.len() && is_blank(text[from]) {
        from += 1;
    }
    &text[from..]
}

// A text without the spaces and tabs at its end.
fn cut_end(text: &[u8]) -> &[u8]
    ensures { result.now ≡ without_end_blanks text.now }
{
    let mut to = text.len();
    while to > 0 && is_blank(text[to - 1]) {
        to -= 1;
    }
    &text[..to]
}

/// A line's text, of its bytes before `\n`: without one `\r` at the end, and then without spaces and tabs at both
/// ends.
#[tactic(auto, using(crate::proofs::LineParts::trimmed_short), unfolding(crate::specs::Lines::trimmed))]
pub fn trim(piece: &[u8]) -> &[u8]
    ensures text { result.now ≡ trimmed piece.now }
    ensures short { length result.now ≤ length piece.now }
{
    cut_end(trim_start(cut_return(piece)))
}
