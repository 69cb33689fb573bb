//! A desk: the table of a match whose pipes, clock and witness are devices of their own.

ghost use Rattle.std.specs.Prelude.{◌≡◌, ◌<◌, ℕ, List, Option, None, Some, Ok};
ghost use Rattle.std.specs.Result.{is_err};
ghost use Rattle.chess_base.specs.declared.man.Colour.{Colour};
ghost use Rattle.text_lines.specs.Next.{line_read};
ghost use Rattle.chess_match.specs.Lines.{SentLine, bytes_of};
ghost use Rattle.chess_match.specs.Seen.{note_seen};
ghost use Rattle.chess_match.specs.Table.{Does, ReadsLine, ReadsClock, Notes, reading_of, reading_until, sending};
ghost use Rattle.chess_match.specs.ties.AtDesk.{LooksAt, PassesAt, left_at, passed_at};

use crate::moments::Moments;
use crate::note::Note;
use crate::run::ENGINE_LINE_LEN;
use crate::table::MatchTable;
use crate::witness::Witness;
use byte_devices::{Input, Output, ReadFault, WriteFault, send};
use chess_base::{ByColour, Colour};
use text_lines::{Line, Lines};

/// Both engines' pipes, the clock and the witness of a match, each on its own. Besides the clauses of the trait each
/// call has some of its own (`white`, `black`, `others`): all but the device that it uses is as it was.
#[derive(Drop)]
pub(crate) struct Desk<'a, 'b, 'c, 'd, 'e, 'f, R, W, M, L> {
    pub white_reader: &'a mut R,
    pub white_writer: &'b mut W,
    pub black_reader: &'c mut R,
    pub black_writer: &'d mut W,
    pub moments: &'e mut M,
    pub witness: &'f mut L,
    /// What was read of each engine's output and not yet returned as lines.
    pub lines: ByColour<Lines<ENGINE_LINE_LEN>>,
}

impl<R: Input, W: Output, M: Moments, L: Witness> MatchTable
    for Desk<'_, '_, '_, '_, '_, '_, R, W, M, L> {
    ghost passed = { λ d begun steps. passed_at R.seen W.seen M.coming L.noted d begun steps };

    ghost left = { λ d. left_at R.seen d };

    // Writes this text to the engine of this side, and flushes.
    fn send(&mut self, side: Colour, text: &[u8]) -> Result<(), WriteFault>
        ensures passes { (lines : List SentLine) → bytes_of lines ≡ text.now
            → PassesAt R.seen W.seen M.coming L.noted self.old self.new
            (Does (sending (is_err result) (record { to = side; lines = lines }))) }
        ensures left { left_at R.seen self.new ≡ left_at R.seen self.old }
        ensures white { side ≡ Colour.White → self.new ≡ (record self.old { white_writer = self.new.white_writer }) }
        ensures black { side ≡ Colour.Black → self.new ≡ (record self.old { black_writer = self.new.black_writer }) }
    {
        match side {
            Colour::White => send(self.white_writer, text),
            Colour::Black => send(self.black_writer, text),
        }
    }

    // Reads the next line of this side's engine into `line`, from bytes that were read before or from its pipe, and
    // returns whether there was one.
    fn read_line(
        &mut self,
        side: Colour,
        line: &mut Line<ENGINE_LINE_LEN>,
    ) -> Result<bool, ReadFault>
        ensures passes { LooksAt R.seen W.seen M.coming L.noted self.old self.new side None
            (reading_of side (line_read result line.new)) }
        ensures less { (text : Option (List ℕ)) → reading_of side (line_read result line.new) ≡ ReadsLine side text
            → left_at R.seen self.new < left_at R.seen self.old }
        ensures white { side ≡ Colour.White → self.new ≡ (record self.old {
          white_reader = self.new.white_reader;
          lines = record self.old.lines { white = self.new.lines.white };
        }) }
        ensures black { side ≡ Colour.Black → self.new ≡ (record self.old {
          black_reader = self.new.black_reader;
          lines = record self.old.lines { black = self.new.lines.black };
        }) }
    {
        match side {
            Colour::White => self.lines.white.read_line(self.white_reader, line),
            Colour::Black => self.lines.black.read_line(self.black_reader, line),
        }
    }

    // Reads the next line of this side's engine into `line` as `read_line` does, but waits for it only until the clock
    // shows `until`. Returns `None` if no line had come, otherwise whether there was one.
    fn read_line_until(
        &mut self,
        side: Colour,
        until: u64,
        line: &mut Line<ENGINE_LINE_LEN>,
    ) -> Result<Option<bool>, ReadFault>
        ensures passes { LooksAt R.seen W.seen M.coming L.noted self.old self.new side (Some until)
            (reading_until side result line.new) }
        ensures less { (text : Option (List ℕ)) → reading_until side result line.new ≡ ReadsLine side text
            → left_at R.seen self.new < left_at R.seen self.old }
        ensures silent { result ≡ Ok None → left_at R.seen self.new < left_at R.seen self.old }
        ensures white { side ≡ Colour.White → self.new ≡ (record self.old {
          white_reader = self.new.white_reader;
          lines = record self.old.lines { white = self.new.lines.white };
        }) }
        ensures black { side ≡ Colour.Black → self.new ≡ (record self.old {
          black_reader = self.new.black_reader;
          lines = record self.old.lines { black = self.new.lines.black };
        }) }
    {
        match side {
            Colour::White => self
                .lines
                .white
                .read_line_until(self.white_reader, until, line),
            Colour::Black => self
                .lines
                .black
                .read_line_until(self.black_reader, until, line),
        }
    }

    // Reads the clock: the milliseconds that it shows.
    fn moment(&mut self, _side: Colour) -> u64
        ensures passes { PassesAt R.seen W.seen M.coming L.noted self.old self.new
            (ReadsClock _side result) }
        ensures left { left_at R.seen self.new ≡ left_at R.seen self.old }
        ensures others { self.new ≡ (record self.old { moments = self.new.moments }) }
    {
        self.moments.now()
    }

    // Gives the witness the note.
    fn note(&mut self, note: Note<'_>)
        ensures passes { PassesAt R.seen W.seen M.coming L.noted self.old self.new (Notes (note_seen note.entry)) }
        ensures left { left_at R.seen self.new ≡ left_at R.seen self.old }
        ensures others { self.new ≡ (record self.old { witness = self.new.witness }) }
    {
        self.witness.note(note);
    }
}
