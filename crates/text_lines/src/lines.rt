//! The lines of a stream, in whatever pieces it comes.

ghost use Rattle.std.specs.Prelude.{◌≡◌, ◌≢◌, ◌+◌, ◌≤◌, ◌==◌, [], ◌∷◌, ◌++◌, length, take, drop, true, false, not, Ok, Some, MatchOption, MatchResult};
ghost use Rattle.byte_devices.specs.Devices.{GavePiece, FailedToRead};
ghost use Rattle.text_lines.specs.Lines.{empty_line, line_of, nothing_held, trimmed};
ghost use Rattle.text_lines.specs.Next.{NextLine, NextLineUntil, line_if, line_read};
ghost use Rattle.text_lines.specs.ties.Kept.{SameLines, HeldLine, Filled};

use crate::trim::trim;
use arrayvec::ArrayVec;
use byte_devices::{Input, ReadFault, append, len_before};
use std::marker::Model;

/// A line of a stream, of at most N bytes: its text, or of one that is too long its first 64 bytes (N, if N is less).
#[derive(Drop)]
pub struct Line<const N: usize> {
    text: ArrayVec<u8, N>,
    too_long: bool,
    ended: bool,
}

impl<const N: usize> Model for Line<N> {
    ghost use Rattle.text_lines.specs.Lines.{LineSeen};

    ghost Value = { LineSeen };

    ghost view = { λ l. record {
      text = l.text.items;
      too_long = l.too_long;
      ended = l.ended;
    } };
}

impl<const N: usize> Line<N> {
    /// An empty line, before one is read into it.
    pub fn new() -> Self
        ensures { result ≡ empty_line }
    {
        Line {
            text: ArrayVec::new(),
            too_long: false,
            ended: false,
        }
    }

    /// The line's text, without its end and the spaces and tabs at both ends; one `\r` before the end is dropped. Of a
    /// line that is too long, its first 64 bytes as they are (N, if N is less).
    pub fn text(&self) -> &[u8]
        ensures value { result.now ≡ self.now.text }
        ensures short { length result.now ≤ N }
    {
        self.text.as_slice()
    }

    /// Whether the line had more than N bytes before its end.
    pub fn is_too_long(&self) -> bool
        ensures { result ≡ self.now.too_long }
    {
        self.too_long
    }

    /// Whether `\n` ended the line; if not, the input's end did.
    pub fn is_ended(&self) -> bool
        ensures { result ≡ self.now.ended }
    {
        self.ended
    }
}

// What has come of a line. Of more than N bytes only the first N are kept.
#[derive(Drop)]
struct Part<const N: usize> {
    bytes: ArrayVec<u8, N>,
    is_too_long: bool,
}

impl<const N: usize> Model for Part<N> {
    ghost use Rattle.std.specs.Prelude.{◌≡◌, ◌≤◌, List, ℕ, length, true, false};
    ghost use Rattle.text_lines.specs.ties.Kept.{kept_part};

    ghost Value = { List ℕ };

    ghost view = { λ p. kept_part p.bytes.items p.is_too_long };

    ghost invariant = { λ p. (p.is_too_long ≡ true → length p.bytes.items ≡ N) × (length p.bytes.items ≤ N) };
}

impl<const N: usize> Part<N> {
    // A line of which no byte has come.
    fn new() -> Self
        ensures { result ≡ [] }
    {
        Part {
            bytes: ArrayVec::new(),
            is_too_long: false,
        }
    }

    // Whether no byte of the line has come.
    fn is_empty(&self) -> bool
        ensures { result ≡ (length self.now == 0) }
    {
        if self.is_too_long {
            return false;
        }
        self.bytes.is_empty()
    }

    // Adds bytes to the line; those after the first N of the line are dropped, and then the line is too long.
    fn add(&mut self, bytes: &[u8])
        ensures { SameLines N (self.old ++ bytes.now) self.new }
    {
        let room = N - self.bytes.len();
        if bytes.len() > room {
            append(&mut self.bytes, &bytes[..room]);
            self.is_too_long = true;
        } else {
            append(&mut self.bytes, bytes);
        }
    }

    // Ends the line: puts it into `line`, in place of what that held, and begins the next one. `is_ended`: `\n` came
    // after its bytes, otherwise the end of the stream.
    fn finish(&mut self, is_ended: bool, line: &mut Line<N>)
        ensures line { line.new ≡ line_of N is_ended self.old }
        ensures empty { self.new ≡ [] }
    {
        put_text(self.bytes.as_slice(), self.is_too_long, &mut line.text);
        line.too_long = self.is_too_long;
        line.ended = is_ended;
        self.bytes.clear();
        self.is_too_long = false;
    }

    // Adds these bytes, which `\n` follows, and ends the line with them: puts it into `line`, in place of what that
    // held, and begins the next one. If no byte of the line had come before, they are put into `line` directly.
    fn finish_with(&mut self, bytes: &[u8], line: &mut Line<N>)
        ensures line { line.new ≡ line_of N true (self.old ++ bytes.now) }
        ensures empty { self.new ≡ [] }
    {
        if self.is_empty() {
            put_line(bytes, line);
        } else {
            self.add(bytes);
            self.finish(true, line);
        }
    }
}

// The first 64 bytes of a text, or all if it has no more.
#[tactic(auto, using(crate::proofs::LineParts::all_taken, crate::proofs::LineParts::beginning_short))]
fn beginning(text: &[u8]) -> &[u8]
    ensures value { result.now ≡ take 64 text.now }
    ensures short { length result.now ≤ length text.now }
{
    if text.len() > 64 { &text[..64] } else { text }
}

// Puts the text of a line of these bytes (the first N, if it is too long) into `text`, in place of what that held: of a
// line that is too long the first 64 bytes, otherwise all without one `\r` at the end and then without spaces and tabs
// at both ends.
fn put_text<const N: usize>(bytes: &[u8], is_too_long: bool, text: &mut ArrayVec<u8, N>)
    requires { length bytes.now ≤ N }
    ensures long { is_too_long ≡ true → text.new.items ≡ take 64 bytes.now }
    ensures short { is_too_long ≡ false → text.new.items ≡ trimmed bytes.now }
{
    let kept = if is_too_long {
        beginning(bytes)
    } else {
        trim(bytes)
    };
    text.clear();
    // `kept` is no longer than `bytes`, which are at most N.
    if text.try_extend_from_slice(kept).is_err() {
        unreachable!();
    }
}

// Puts the line of these bytes, which `\n` ended, into `line`, in place of what that held.
fn put_line<const N: usize>(bytes: &[u8], line: &mut Line<N>)
    ensures { line.new ≡ line_of N true bytes.now }
{
    let is_too_long = bytes.len() > N;
    let kept = if is_too_long { &bytes[..N] } else { bytes };
    put_text(kept, is_too_long, &mut line.text);
    line.too_long = is_too_long;
    line.ended = true;
}

// How many bytes a read asks for.
const PIECE_LEN: usize = 1024;

// The bytes of the last read that were not yet looked at, those from `from` to `to`.
#[derive(Drop)]
struct Window {
    piece: [u8; PIECE_LEN],
    from: usize,
    to: usize,
}

impl Model for Window {
    ghost use Rattle.std.specs.Prelude.{◌≡◌, ◌≤◌, List, ℕ, length, slice_range};
    ghost use Rattle.text_lines.specs.declared.lines.TheConstants.{PIECE_LEN};

    ghost Value = { List ℕ };

    ghost view = { λ w. slice_range w.piece w.from w.to };

    ghost invariant = { λ w. (w.from ≤ w.to) × (w.to ≤ PIECE_LEN) };
}

impl Window {
    // An empty window, before the first read.
    fn new() -> Self
        ensures { result ≡ [] }
    {
        Window {
            piece: [0; PIECE_LEN],
            from: 0,
            to: 0,
        }
    }

    // The bytes in the window.
    fn bytes(&self) -> &[u8]
        ensures { result.now ≡ self.now }
    {
        &self.piece[self.from..self.to]
    }

    // Removes so many bytes from the window, the first of them.
    fn remove(&mut self, count: usize)
        requires { count ≤ length self.old }
        ensures { self.new ≡ drop count self.old }
    {
        self.from += count;
    }

    // Reads once, into the window, which is empty before, and returns how many bytes came; 0 is the input's end.
    fn fill<R: Input>(&mut self, reader: &mut R) -> Result<usize, ReadFault>
        ensures { Filled (R.seen reader.old) (R.seen reader.new) result self.new }
    {
        self.from = 0;
        self.to = 0;
        let count = reader.read(&mut self.piece)?;
        self.to = count;
        Ok(count)
    }
}

/// Cuts a stream into lines of at most N bytes. It keeps what was read and not yet returned.
#[derive(Drop)]
pub struct Lines<const N: usize> {
    part: Part<N>,
    window: Window,
}

impl<const N: usize> Model for Lines<N> {
    ghost use Rattle.text_lines.specs.Lines.{Held};

    ghost Value = { Held };

    ghost view = { λ l. record {
      part = l.part;
      coming = l.window;
    } };
}

impl<const N: usize> Lines<N> {
    /// A reader of lines for a stream of which nothing was read yet.
    pub fn new() -> Self
        ensures { result ≡ nothing_held }
    {
        Lines {
            part: Part::new(),
            window: Window::new(),
        }
    }

    // Looks for a whole line in the bytes that were read and not yet returned, puts it into `line`, and returns whether
    // there was one.
    fn held_line(&mut self, line: &mut Line<N>) -> bool
        ensures held { HeldLine N self.old self.new (line_if result line.new) }
        ensures kept { result ≡ false → line.new ≡ line.old }
    {
        let coming = self.window.bytes();
        let len = len_before(coming, b'\n');
        if len == coming.len() {
            self.part.add(coming);
            self.window.remove(len);
            return false;
        }
        self.part.finish_with(&coming[..len], line);
        self.window.remove(len + 1);
        true
    }

    // Ends what has come of a line at the stream's end: puts it into `line`, in place of what that held, and returns
    // whether there was any. Otherwise `line` is as it was.
    fn last_line(&mut self, line: &mut Line<N>) -> bool
        ensures some { result ≡ not (length self.old.part == 0) }
        ensures line { result ≡ true → line.new ≡ line_of N false self.old.part }
        ensures kept { result ≡ false → line.new ≡ line.old }
        ensures held { self.new ≡ record { part = []; coming = self.old.coming } }
    {
        if self.part.is_empty() {
            return false;
        }
        self.part.finish(false, line);
        true
    }

    /// The next line, or `None` at the input's end. It reads only if what was read before has no whole line.
    ///
    /// # Errors
    /// If a read fails; what was read before is kept, and the next call goes on after it.
    pub fn next<R: Input>(&mut self, reader: &mut R) -> Result<Option<Line<N>>, ReadFault>
        ensures { NextLine N (R.seen reader.old) (R.seen reader.new) self.old self.new result }
    {
        let mut line = Line::new();
        match self.read_line(reader, &mut line) {
            Ok(true) => Ok(Some(line)),
            Ok(false) => Ok(None),
            Err(fault) => Err(fault),
        }
    }

    /// Reads the next line into `line`, in place of what it held, and returns whether there was one: none at the
    /// input's end. It reads only if what was read before has no whole line.
    ///
    /// # Errors
    /// Those of [`Lines::next`]. Without a line, `line` is as it was.
    pub fn read_line<R: Input>(
        &mut self,
        reader: &mut R,
        line: &mut Line<N>,
    ) -> Result<bool, ReadFault>
        ensures next { NextLine N (R.seen reader.old) (R.seen reader.new) self.old self.new
            (line_read result line.new) }
        ensures kept { result ≢ Ok true → line.new ≡ line.old }
    {
        loop {
            if self.held_line(line) {
                return Ok(true);
            }
            if self.window.fill(reader)? == 0 {
                return Ok(self.last_line(line));
            }
        }
    }

    /// Reads the next line into `line` as [`Lines::read_line`] does, but waits for each piece of it only until the
    /// moment `until`, by the reader's clock. Returns `None` if no whole line had come by then; the beginning of one is
    /// kept for the next call. Otherwise returns whether there was a line: none at the input's end.
    ///
    /// # Errors
    /// Those of [`Lines::next`]. Without a line, `line` is as it was.
    pub fn read_line_until<R: Input>(
        &mut self,
        reader: &mut R,
        until: u64,
        line: &mut Line<N>,
    ) -> Result<Option<bool>, ReadFault>
        ensures next { NextLineUntil N (R.seen reader.old) (R.seen reader.new) self.old self.new result line.new }
        ensures kept { result ≢ Ok (Some true) → line.new ≡ line.old }
    {
        loop {
            if self.held_line(line) {
                return Ok(Some(true));
            }
            if !reader.wait(until) {
                return Ok(None);
            }
            if self.window.fill(reader)? == 0 {
                return Ok(Some(self.last_line(line)));
            }
        }
    }
}
