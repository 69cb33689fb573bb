//! An offset in a text, with its line and its column. They are counted from one offset to the next, so that the time to
//! explain the faults of a text grows only with its length.

ghost use Rattle.std.specs.Prelude.{◌≡◌, ◌≤◌, ◌<◌, ◌+◌, ◌-◌, ◌^◌, not, true, Bool, length};
ghost use Rattle.std.specs.List.{suffix_len};
ghost use Rattle.pgn_pieces.specs.Places.{breaks_line};
ghost use Rattle.pgn_verifier.specs.ties.Counting.{Known, column_on};

use crate::start::TextStart;
use pgn_pieces::line_ends;

/// An offset in a text, with its line and its column in the input, which are known only if faults are explained.
#[derive(Clone, Copy)]
pub(crate) struct Place {
    /// Where the text begins.
    pub start: TextStart,
    /// The offset, counted from the text's first byte.
    pub offset: usize,
    /// The number of the line, counted from 1.
    pub line: usize,
    /// The column, counted from 1.
    pub column: usize,
}

// Whether columns are counted anew after this byte: whether it is `\n` or `\r`.
fn breaks_line(byte: u8) -> bool
    ensures { result ≡ breaks_line byte }
{
    byte == b'\n' || byte == b'\r'
}

// How many bytes a text has after its last `\n` or `\r`; all of them if it has none.
fn last_line_len(text: &[u8]) -> usize
    ensures value { result ≡ suffix_len (λ c. not (breaks_line c)) text.now }
    ensures within { result ≤ length text.now }
{
    text.iter()
        .rev()
        .take_while(|byte| !breaks_line(**byte))
        .count()
}

// The column right after these bytes, the first of which is in the column `column`.
fn column_on(column: usize, bytes: &[u8]) -> usize
    requires { column + length bytes.now < 2 ^ 64 }
    ensures { result ≡ column_on column bytes.now }
{
    let last = last_line_len(bytes);
    if last == bytes.len() {
        column + last
    } else {
        last + 1
    }
}

impl Place {
    /// The text's beginning: the offset 0, in column 1 of the line on which the text begins.
    pub(crate) fn at_start(start: TextStart) -> Self
        ensures { result ≡ record { start = start; offset = 0; line = start.line; column = 1 } }
    {
        Place {
            start,
            offset: 0,
            line: start.line,
            column: 1,
        }
    }

    // Moves on to this offset of the text, which isn't before the present one: counts the lines and the column in the
    // bytes between them.
    fn moved_to(self, text: &[u8], offset: usize) -> Self
        requires forward { self.offset ≤ offset }
        requires within { offset ≤ length text.now }
        requires line { self.line + (length text.now - self.offset) < 2 ^ 64 }
        requires column { self.column + (length text.now - self.offset) < 2 ^ 64 }
        ensures start { result.start ≡ self.start }
        ensures offset { result.offset ≡ offset }
        ensures known { (explain : Bool) → Known explain text.now self → Known explain text.now result }
    {
        let between = &text[self.offset..offset];
        Place {
            start: self.start,
            offset,
            line: self.line + line_ends(between),
            column: column_on(self.column, between),
        }
    }

    /// Moves to this offset of the text if faults are explained; otherwise stays. It counts on from the present offset,
    /// or from the text's beginning if the new offset is before the present one.
    pub(crate) fn counted_to(self, explain: bool, text: &[u8], offset: usize) -> Self
        requires known { Known explain text.now self }
        requires within { offset ≤ length text.now }
        requires few { length text.now ≤ 2 ^ 63 }
        requires few_lines { self.start.line + length text.now < 2 ^ 64 }
        ensures start { result.start ≡ self.start }
        ensures there { explain ≡ true → result.offset ≡ offset }
        ensures known { Known explain text.now result }
    {
        if !explain {
            return self;
        }
        if self.offset <= offset {
            return self.moved_to(text, offset);
        }
        Place::at_start(self.start).moved_to(text, offset)
    }
}
