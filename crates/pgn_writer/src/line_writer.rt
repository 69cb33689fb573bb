//! Lines of a game's text, each with the same prefix at its front.

ghost use Rattle.pgn_writer.specs.declared.line_writer.TheConstants.{LINE_LEN};
ghost use Rattle.std.specs.Prelude.{◌≡◌, ◌+◌, ◌≤◌, ◌<◌, [], ◌∷◌, ◌++◌, length};
ghost use Rattle.byte_devices.specs.Devices.{Puts};
ghost use Rattle.byte_devices.specs.Bytes.{new_line};
ghost use Rattle.pgn_writer.specs.ties.Waiting.{Adds};
ghost use Rattle.pgn_writer.specs.shared.Lines.{wrapped_token, next_column, line_close};

use crate::buffer::TextBuffer;
use byte_devices::{Output, WriteFault};

// The most bytes of a line of moves, its prefix and its end not counted (PGN standard of 1994, section 8.2.1).
const LINE_LEN: usize = 79;

/// Writes lines to `writer` through the buffer `waiting`, each with `prefix` at its front. Moves, numbers and the
/// outcome are put into lines of at most 79 bytes; `column` is how many bytes the line that is begun has so far, its
/// prefix not counted, and 0 if no line is begun.
///
/// A function that adds a text has a clause `added`. The last argument there is this text: the writer took it, or it
/// waits in the buffer (`Adds`). `finish`, which writes what waits, has a clause `put` instead. `column` says how long
/// the line is that is begun. `prefix` and `writer` say what stays as it was: by `ghost_name` the writer is still the
/// same one.
#[derive(Drop)]
pub(crate) struct LineWriter<'a, 'b, W> {
    writer: &'b mut W,
    prefix: &'a [u8],
    waiting: TextBuffer,
    column: usize,
    ghost short_line: { column ≤ 79 },
}

impl<'a, 'b, W: Output> LineWriter<'a, 'b, W> {
    /// A writer of lines to `writer`, each with `prefix` at its front. No line is begun, and nothing is written yet.
    pub(crate) fn new(prefix: &'a [u8], writer: &'b mut W) -> Self
        ensures old { result.writer.now ≡ writer.old }
        ensures writer { result.writer.ghost_name ≡ writer.entry.ghost_name }
        ensures prefix { result.prefix.now ≡ prefix.now }
        ensures none { result.waiting ≡ [] }
        ensures column { result.column ≡ 0 }
    {
        LineWriter {
            writer,
            prefix,
            waiting: TextBuffer::new(),
            column: 0,
        }
    }

    /// Writes a whole line: the prefix, `line` and `\n`. This is called for tags and empty lines, where no line of
    /// moves is begun.
    ///
    /// # Errors
    /// If the writer fails; a beginning of the text was written then.
    pub(crate) fn put_line(&mut self, line: &[u8]) -> Result<(), WriteFault>
        ensures added { Adds (W.seen self.old.writer.now) (W.seen self.new.writer.now) self.old.waiting
            self.new.waiting result (self.old.prefix.now ++ line.now ++ new_line ∷ []) }
        ensures prefix { self.new.prefix.now ≡ self.old.prefix.now }
        ensures writer { self.new.writer.ghost_name ≡ self.old.writer.ghost_name }
        ensures column { self.new.column ≡ self.old.column }
    {
        self.waiting
            .add_parts(self.writer, &[self.prefix, line, b"\n"])
    }

    /// Adds a token such as `12.`, `Nf3` or `1-0` to the line that is begun, after a space, if the line then has at
    /// most 79 bytes (its prefix isn't counted). If the line has no room for it, or no line is begun, the token begins
    /// a new line, after the prefix.
    ///
    /// # Errors
    /// If the writer fails; a beginning of the text was written then.
    pub(crate) fn put_token(&mut self, token: &[u8]) -> Result<(), WriteFault>
        requires some { 0 < length token.now }
        requires short { length token.now ≤ LINE_LEN }
        ensures added { Adds (W.seen self.old.writer.now) (W.seen self.new.writer.now) self.old.waiting
            self.new.waiting result (wrapped_token self.old.prefix.now self.old.column token.now) }
        ensures column { self.new.column ≡ next_column self.old.column token.now }
        ensures prefix { self.new.prefix.now ≡ self.old.prefix.now }
        ensures writer { self.new.writer.ghost_name ≡ self.old.writer.ghost_name }
    {
        if self.column == 0 {
            self.column = token.len();
            self.waiting.add_parts(self.writer, &[self.prefix, token])
        } else if self.column + 1 + token.len() <= LINE_LEN {
            self.column += 1 + token.len();
            self.waiting.add_parts(self.writer, &[b" ", token])
        } else {
            self.column = token.len();
            self.waiting
                .add_parts(self.writer, &[b"\n", self.prefix, token])
        }
    }

    /// Writes the `\n` that ends the line of moves, after the game's last token. If no line is begun, it writes
    /// nothing.
    ///
    /// # Errors
    /// If the writer fails; a beginning of the text was written then.
    pub(crate) fn end_line(&mut self) -> Result<(), WriteFault>
        ensures added { Adds (W.seen self.old.writer.now) (W.seen self.new.writer.now) self.old.waiting
            self.new.waiting result (line_close self.old.column) }
        ensures column { self.new.column ≡ 0 }
        ensures prefix { self.new.prefix.now ≡ self.old.prefix.now }
        ensures writer { self.new.writer.ghost_name ≡ self.old.writer.ghost_name }
    {
        if self.column == 0 {
            return Ok(());
        }
        self.column = 0;
        self.waiting.add(self.writer, b"\n")
    }

    /// Writes what is still in the buffer, at the end of a game's text. It writes no `\n`, so `end_line` is called
    /// before it.
    ///
    /// # Errors
    /// If the writer fails; a beginning of the text was written then.
    pub(crate) fn finish(&mut self) -> Result<(), WriteFault>
        ensures put { Puts (W.seen self.old.writer.now) (W.seen self.new.writer.now) result self.old.waiting }
        ensures writer { self.new.writer.ghost_name ≡ self.old.writer.ghost_name }
    {
        self.waiting.finish(self.writer)
    }
}
