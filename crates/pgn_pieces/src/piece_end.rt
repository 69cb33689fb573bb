//! Finds where a piece ends: before a tag line, if the piece has a line of moves, and before an Event line, if it has
//! an Event line already. The next piece begins there. The kinds of lines are explained at the head of line_kinds.rt.
//!
//! A piece may be read in several parts, so the last line that was read may be only the beginning of a line.
//!
//! In contracts `HasSeen seen piece` claims that `seen` is right for a piece with the bytes `piece`. The other claims
//! about lines (`SeesWhole`, `Steps`, `Looks`) say of each such piece what the result means for it.
//!
//! The functions of the search are inlined for the reason at the head of line_kinds.rt.

ghost use Rattle.std.specs.Prelude.{◌≡◌, ◌≤◌, ◌<◌, ◌++◌, ◌∷◌, ◌&&◌, ◌||◌, List, ℕ, [], length, take, drop, true, false};
ghost use Rattle.std.specs.List.{position_or_len};
ghost use Rattle.pgn_pieces.specs.Places.{breaks_line};
ghost use Rattle.pgn_pieces.specs.ties.Held.{HasSeen, IsWhole, Steps, SeesWhole, Looks, has_line_end};

use crate::line_kinds::{FRONT_LEN, Kind, kind_of};
use byte_devices::len_before_any;

// What is known of the lines of a piece, as far as the piece was read.
#[derive(Clone, Copy)]
pub(crate) struct Seen {
    // Whether the piece has a line of moves.
    pub(crate) moves: bool,
    // Whether the piece has an Event line.
    pub(crate) event: bool,
    // Whether the piece so far ends inside a line, whose end isn't read yet. Then the next bytes are more of this line,
    // and its kind is noted already.
    pub(crate) inside: bool,
}

// Whether the line that comes next belongs to the piece, as far as the bytes read of it show.
pub(crate) enum Step {
    // The next piece begins with the line.
    Begins,
    // The line is left until more of it is read, or the input ends. No piece begins with it so far, and neither its end
    // nor 256 bytes of it were read.
    Waits,
    // The line belongs to the piece. The number is how many bytes of it were read, its end included.
    Belongs(usize),
}

// How many bytes of a text come before its first line end, which is `\n` or `\r`; all, if it has none. `\r\n` is a line
// end and then a line of its own, which is empty.
#[inline(always)]
fn len_before_end(text: &[u8]) -> usize
    ensures count { result ≡ position_or_len breaks_line text.now }
    ensures within { result ≤ length text.now }
{
    // This looks for any of three bytes; for the two that are alike the compiler makes one comparison.
    len_before_any(text, b'\n', b'\r', b'\r')
}

impl Seen {
    // For a piece that has no bytes so far: no line was seen.
    pub(crate) fn nothing() -> Self
        ensures { HasSeen result [] }
    {
        Seen {
            moves: false,
            event: false,
            inside: false,
        }
    }

    // Whether the piece ends before a line of this kind, which then begins the next piece: a tag line, if the piece has
    // a line of moves, or an Event line, if it has an Event line.
    #[inline(always)]
    fn ends_at(&self, kind: Kind) -> bool
        ensures { result ≡ (kind.is_tag && (self.now.moves || (kind.is_event && self.now.event))) }
    {
        kind.is_tag && (self.moves || (kind.is_event && self.event))
    }

    // Notes that a line of this kind belongs to the piece. `kind.moves` is also true if a line before it has moves.
    // `goes_on`: the line's end isn't read yet.
    #[inline(always)]
    fn add(&mut self, kind: Kind, goes_on: bool)
        ensures moves { self.new.moves ≡ kind.moves }
        ensures event { self.new.event ≡ (self.old.event || kind.is_event) }
        ensures inside { self.new.inside ≡ goes_on }
    {
        self.moves = kind.moves;
        self.event |= kind.is_event;
        self.inside = goes_on;
    }

    // Decides whether the next piece begins with `line` (true), or `line` belongs to this piece (false). `line` is the
    // next bytes up to their first line end, which it contains. It is a whole line, whose kind is noted if it belongs
    // to the piece; or the rest of a line whose beginning the piece has already, and whose kind was noted then
    // (`inside`).
    #[inline(always)]
    fn see_whole(&mut self, line: &[u8]) -> bool
        requires whole { IsWhole line.now }
        ensures { SeesWhole self.old self.new line.now result }
    {
        if self.inside {
            // This is the rest of a line, with its end.
            self.inside = false;
            return false;
        }
        let kind = kind_of(line, self.moves);
        if self.ends_at(kind) {
            return true;
        }
        self.add(kind, false);
        false
    }

    // Decides whether the next piece begins with `line`, which is the next bytes and has no end, since no more of the
    // line was read. Returns `Begins` if so; `Belongs` if `line` is more of the piece's last line (`inside`), or a new
    // line of the piece, whose kind is then noted; and `Waits` if `line` begins no piece so far, and has fewer than the
    // 256 bytes (`FRONT_LEN`) that decide its kind. With more bytes a line such as `[Eve` may become a tag line, and
    // one such as `[Event "a"]` may get moves; one such as `1. e4` can't change, and waits all the same. A line that is
    // a tag line remains one.
    #[inline(always)]
    fn see_open(&mut self, line: &[u8]) -> Step
        requires plain { (0 < length line.now) × (has_line_end line.now ≡ false) }
        ensures { Steps self.old self.new line.now result }
    {
        if self.inside {
            return Step::Belongs(line.len());
        }
        let kind = kind_of(line, self.moves);
        if self.ends_at(kind) {
            return Step::Begins;
        }
        // With more bytes some such lines become tag lines, which may begin the next piece, or lines of moves. The
        // others wait too.
        if line.len() < FRONT_LEN {
            return Step::Waits;
        }
        self.add(kind, true);
        Step::Belongs(line.len())
    }

    // Decides whether the first line of `text` belongs to the piece, and notes its kind if it does. This is one step of
    // the search in `find_end`, which calls it line by line. `text` is the next bytes that were read. The line is given
    // to `see_whole` if its end is in `text`, and to `see_open` if not. The lines after it are not looked at.
    #[inline(always)]
    fn step(&mut self, text: &[u8]) -> Step
        requires { 0 < length text.now }
        ensures { Steps self.old self.new text.now result }
    {
        let len = len_before_end(text);
        // There is no line end in `text`.
        if len == text.len() {
            return self.see_open(text);
        }
        if self.see_whole(&text[..len + 1]) {
            return Step::Begins;
        }
        Step::Belongs(len + 1)
    }

    // Looks for the end of the piece in `text`, line by line. `text` is the bytes after those seen so far. Returns
    // `(true, n)` if the piece ends after the first `n` bytes of `text`. Returns `(false, n)` if no end is found: the
    // first `n` bytes belong to the piece, and the others, if any, are the beginning of a line that waits for more of
    // its bytes (`Waits`).
    pub(crate) fn find_end(&mut self, text: &[u8]) -> (bool, usize)
        ensures { Looks self.old self.new text.now result.0 result.1 }
    {
        let mut offset = 0;
        while offset < text.len() {
            match self.step(&text[offset..]) {
                Step::Belongs(len) => offset += len,
                Step::Begins => return (true, offset),
                Step::Waits => return (false, offset),
            }
        }
        (false, offset)
    }
}
