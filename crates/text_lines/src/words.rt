//! The first word of a line, what follows it, and numbers written in digits.

ghost use Rattle.std.specs.Prelude.{◌≡◌, ◌≤◌, length};
ghost use Rattle.text_lines.specs.Words.{word_of, argument_of, command_number};

use crate::number::short_number;
use byte_devices::is_blank;

/// Splits a text into its first word and what follows after spaces and tabs: `usermove e4` into `usermove` and `e4`.
#[tactic(auto, unfolding(crate::specs::Words::argument_of))]
pub fn split_word(text: &[u8]) -> (&[u8], &[u8])
    ensures word { result.0.now ≡ word_of text.now }
    ensures argument { result.1.now ≡ argument_of text.now }
    ensures short { length result.1.now ≤ length text.now }
{
    let mut end = 0;
    while end < text.len() && !is_blank(text[end]) {
        end += 1;
    }
    let mut from = end;
    while from < text.len() && is_blank(text[from]) {
        from += 1;
    }
    (&text[..end], &text[from..])
}

/// The first word of a text, which ends at a space or tab; empty if the text begins with one.
pub fn first_word(text: &[u8]) -> &[u8]
    ensures { result.now ≡ word_of text.now }
{
    split_word(text).0
}

/// The text after the first word and the spaces and tabs that follow it: of `usermove e4` it is `e4`.
pub fn argument(text: &[u8]) -> &[u8]
    ensures value { result.now ≡ argument_of text.now }
    ensures short { length result.now ≤ length text.now }
{
    split_word(text).1
}

/// The number that a text of 1 to 9 digits denotes, which fits into a `u32`; `None` for any other text.
#[tactic(auto, unfolding(crate::specs::Words::command_number))]
pub fn read_number(text: &[u8]) -> Option<u32>
    ensures { result ≡ command_number text.now }
{
    short_number(text, 9)
}
