//! The log of a match: what the engines send and are sent.

ghost use Rattle.std.specs.Prelude.{◌≡◌, ◌<◌, ◌∷◌, ◌++◌, [], Bool, Err, decimal, false, length, map, option_map};
ghost use Rattle.arrayvec.specs.ArrayVec.{array_vec_len};
ghost use Rattle.byte_devices.specs.Bytes.{new_line, shown_byte};
ghost use Rattle.chess_base.specs.Options.{list_if};
ghost use Rattle.chess_match.specs.Events as events;
ghost use Rattle.chess_match.specs.Notes.{Gives, Happened};
ghost use Rattle.chess_match.specs.Played.{PlayedNoting};
ghost use Rattle.chess_match.specs.Reasons.{colour_name};
ghost use Rattle.chess_match.specs.Run.{engines_of};
ghost use Rattle.chess_match.specs.Seen.{note_seen};
ghost use Rattle.match_runner.specs.Games.{fault_text, killed_line, killed_lines, report_of};
ghost use Rattle.match_runner.specs.Log.{Logged, LogsNote};
ghost use Rattle.match_runner.specs.Log.{engine_name, lines_in, log_line, log_seen, log_from};
ghost use Rattle.match_runner.specs.ties.Logging.{Adds, IsLog, engine_text, line_head, noted_by};

use crate::fault::GamesFault;
use arrayvec::ArrayVec;
use byte_devices::{Input, Output, len_before, send, shown_byte};
use chess_base::{ByColour, Colour, same_colour};
use chess_game::Game;
use chess_match::{Ends, MatchEnd, Moments, Note, Setup, Witness, run_match_watched};
use chess_moves::Board;
use itoa::Buffer;

// The bytes of the log's present line that wait to be written (a line of more than 256 bytes is written in parts), and
// whether a write or flush of the log failed.
#[derive(Drop)]
pub(crate) struct Pending {
    bytes: ArrayVec<u8, 256>,
    broken: bool,
}

// Writes and flushes a text, unless a call on the log failed before (`broken`). Returns whether one has failed, before
// or now.
fn send_unless_broken<E: Output>(output: &mut E, text: &[u8], broken: bool) -> bool
    requires { 0 < length text.now }
    ensures { Logged (log_seen (E.seen output.old) broken) (log_seen (E.seen output.new) result) text.now }
{
    if broken {
        return true;
    }
    send(output, text).is_err()
}

impl Pending {
    // The bytes of a line that is to be logged, none at first; `broken` says whether a write or flush of the log failed
    // before.
    fn new(broken: bool) -> Self
        ensures bytes { result.bytes.items ≡ [] }
        ensures broken { result.broken ≡ broken }
    {
        Pending {
            bytes: ArrayVec::new(),
            broken,
        }
    }

    // Writes and flushes the bytes that wait, unless a call on the log failed before; none waits after that.
    fn flush_pending<E: Output>(&mut self, output: &mut E)
        requires { 0 < array_vec_len self.old.bytes }
        ensures adds { Adds (E.seen output.old) (E.seen output.new) self.old self.new [] }
        ensures empty { array_vec_len self.new.bytes ≡ 0 }
        ensures nothing { self.new.bytes.items ≡ [] }
    {
        self.broken = send_unless_broken(output, self.bytes.as_slice(), self.broken);
        self.bytes.clear();
    }

    // Makes room for one more byte: if there is none, writes and flushes the bytes that wait.
    fn make_room<E: Output>(&mut self, output: &mut E)
        ensures adds { Adds (E.seen output.old) (E.seen output.new) self.old self.new [] }
        ensures room { array_vec_len self.new.bytes < 256 }
    {
        if self.bytes.is_full() {
            self.flush_pending(output);
        }
    }

    // Writes and flushes the bytes that wait, if this byte, the last of them, ends a line.
    fn end_line<E: Output>(&mut self, output: &mut E, byte: u8)
        requires { 0 < array_vec_len self.old.bytes }
        ensures adds { Adds (E.seen output.old) (E.seen output.new) self.old self.new [] }
        ensures ended { byte ≡ new_line → self.new.bytes.items ≡ [] }
    {
        if byte == b'\n' {
            self.flush_pending(output);
        }
    }

    // Logs a byte: it waits with those of its line, and all are written and flushed when the line ends or there is no
    // room for more.
    fn add<E: Output>(&mut self, output: &mut E, byte: u8)
        ensures adds { Adds (E.seen output.old) (E.seen output.new) self.old self.new (byte ∷ []) }
        ensures ended { byte ≡ new_line → self.new.bytes.items ≡ [] }
    {
        self.make_room(output);
        self.bytes.push(byte);
        self.end_line(output, byte);
    }

    // Logs a text, byte by byte.
    fn add_text<E: Output>(&mut self, output: &mut E, text: &[u8])
        ensures { Adds (E.seen output.old) (E.seen output.new) self.old self.new text.now }
    {
        for byte in text {
            self.add(output, *byte);
        }
    }

    // Logs a text, with `?` for each byte that is no printable ASCII.
    fn add_shown<E: Output>(&mut self, output: &mut E, text: &[u8])
        ensures { Adds (E.seen output.old) (E.seen output.new) self.old self.new (map shown_byte text.now) }
    {
        for byte in text {
            self.add(output, shown_byte(*byte));
        }
    }

    // Logs a number in decimal.
    fn add_number<E: Output>(&mut self, output: &mut E, number: u64)
        ensures { Adds (E.seen output.old) (E.seen output.new) self.old self.new (decimal number) }
    {
        let mut buffer = Buffer::new();
        self.add_text(output, buffer.format(number).as_bytes());
    }

    // Logs what a line begins with, such as `312 <first : `; `mark` is `<`, `>` or `!`, and `is_first` says whether
    // the engine is that of `--white`.
    fn add_head<E: Output>(&mut self, output: &mut E, moment: u64, mark: u8, is_first: bool)
        ensures { Adds (E.seen output.old) (E.seen output.new) self.old self.new (line_head moment mark is_first) }
    {
        self.add_number(output, moment);
        self.add_text(output, &[b' ', mark]);
        self.add_text(output, engine_text(is_first));
    }

    // Logs the line that says that the engine of this side was killed after the game of this number.
    fn add_killed<E: Output>(&mut self, output: &mut E, number: u32, side: Colour)
        ensures adds { Adds (E.seen output.old) (E.seen output.new) self.old self.new (killed_line number side) }
        ensures nothing { self.new.bytes.items ≡ [] }
    {
        self.add_text(output, b"arbiter: game ");
        self.add_number(output, u64::from(number));
        self.add_text(output, b": ");
        self.add_text(output, colour_name(side));
        self.add_text(output, b" did not exit, and was killed");
        self.add(output, b'\n');
    }

    // Logs why a match was not played to its end.
    fn add_fault<E: Output>(&mut self, output: &mut E, fault: &GamesFault<'_>)
        ensures { Adds (E.seen output.old) (E.seen output.new) self.old self.new (fault_text fault.now) }
    {
        match fault {
            GamesFault::WriteFailed => self.add_text(output, b"write failed"),
            GamesFault::NoMemory => self.add_text(output, b"no memory"),
            GamesFault::CanNotStart(command) => {
                self.add_text(output, b"can not start ");
                self.add_text(output, command.as_bytes());
            }
            GamesFault::Game(number, text) => {
                self.add_text(output, b"game ");
                self.add_number(output, u64::from(*number));
                self.add_text(output, b": ");
                self.add_text(output, text.as_bytes());
            }
        }
    }

    // Logs the line that reports a fault of the match.
    fn add_report<E: Output>(&mut self, output: &mut E, fault: &GamesFault<'_>)
        ensures adds { Adds (E.seen output.old) (E.seen output.new) self.old self.new (report_of (Err fault.now)) }
        ensures nothing { self.new.bytes.items ≡ [] }
    {
        self.add_text(output, b"arbiter: ");
        self.add_fault(output, fault);
        self.add(output, b'\n');
    }

    // Logs a whole line, such as `312 <first : move e2e4`; `mark` is `<`, `>` or `!`, and `is_first` says whether the
    // engine is that of `--white`.
    fn add_line<E: Output>(
        &mut self,
        output: &mut E,
        moment: u64,
        mark: u8,
        is_first: bool,
        text: &[u8],
    )
        ensures adds { Adds (E.seen output.old) (E.seen output.new) self.old self.new
            (line_head moment mark is_first ++ map shown_byte text.now ++ new_line ∷ []) }
        ensures nothing { self.new.bytes.items ≡ [] }
    {
        self.add_head(output, moment, mark, is_first);
        self.add_shown(output, text);
        self.add(output, b'\n');
    }
}

// How the log names an engine: `first : ` for that of `--white` (`is_first`), `second: ` for the other.
fn engine_text(is_first: bool) -> &'static [u8]
    ensures { result.now ≡ engine_text is_first }
{
    if is_first { b"first : " } else { b"second: " }
}

// The name of a side: `White` or `Black`.
fn colour_name(side: Colour) -> &'static [u8]
    ensures { result.now ≡ colour_name side }
{
    match side {
        Colour::White => b"White",
        Colour::Black => b"Black",
    }
}

// Splits a text that isn't empty into its first line, without its `\n`, and the text after that.
fn split_line(text: &[u8]) -> (&[u8], &[u8])
    requires { 0 < length text.now }
    ensures lines { lines_in text.now ≡ result.0.now ∷ lines_in result.1.now }
    ensures less { length result.1.now < length text.now }
{
    let len = len_before(text, b'\n');
    let next = (len + 1).min(text.len());
    (&text[..len], text.split_at(next).1)
}

/// An output on which games are logged in the form of XBoard's debug file: it watches a match, and writes each line
/// that an engine sends or is sent, and a line for each silence, each failure, and each end of an output. All lines of
/// a note are written and flushed before the match goes on (the clause `logs` of the method `note`, by which it is a
/// `Witness`). After a write or flush that failed it logs nothing more.
#[derive(Drop)]
pub struct Log<E> {
    /// Where the log goes.
    pub output: E,
    /// Whether a write or flush of the log failed.
    broken: bool,
    /// The moment of the last event that has one, in milliseconds by the clock of the match.
    moment: u64,
    /// The side of the first engine, that of `--white`, in the game that is logged.
    first: Colour,
}

impl<E: Output> Log<E> {
    /// An empty log on this output, before the first game.
    pub fn new(output: E) -> Self
        ensures output { result.output ≡ output }
        ensures unbroken { result.broken ≡ false }
    {
        Log {
            output,
            broken: false,
            moment: 0,
            first: Colour::White,
        }
    }

    /// Ends the log, and gives its output back.
    pub fn into_output(self) -> E
        ensures { result ≡ self.output }
    {
        let Log {
            output,
            broken: _,
            moment: _,
            first: _,
        } = self;
        output
    }

    // Begins the log of a game in which the first engine, that of `--white`, has the side `first`; nothing is written
    // yet.
    fn begin(&mut self, first: Colour)
        ensures log { IsLog first (log_seen (E.seen self.old.output) self.old.broken)
            self.new.first (log_seen (E.seen self.new.output) self.new.broken) self.new.moment [] }
    {
        self.moment = 0;
        self.first = first;
    }

    // Logs the line that says that the engine of this side was killed after the game of this number, if it was.
    fn note_if_killed(&mut self, number: u32, side: Colour, killed: bool)
        ensures { Logged (log_seen (E.seen self.old.output) self.old.broken)
            (log_seen (E.seen self.new.output) self.new.broken) (list_if killed (killed_line number side)) }
    {
        if killed {
            let mut line = Pending::new(self.broken);
            line.add_killed(&mut self.output, number, side);
            self.broken = line.broken;
        }
    }

    /// Logs a line for each engine that was killed after the game of this number, such as
    /// `arbiter: game 3: White did not exit, and was killed`, also if the plan asks for no log.
    pub(crate) fn note_killed(&mut self, number: u32, killed: ByColour<bool>)
        ensures { Logged (log_seen (E.seen self.old.output) self.old.broken)
            (log_seen (E.seen self.new.output) self.new.broken) (killed_lines number killed) }
    {
        self.note_if_killed(number, Colour::White, killed.white);
        self.note_if_killed(number, Colour::Black, killed.black);
    }

    /// Writes the line that reports why a match was not played to its end, to the log's output, also after a write or a
    /// flush of the log that failed. Such a line is `arbiter: game 3: White has no ping`.
    pub fn report(&mut self, fault: &GamesFault<'_>)
        ensures reports { (failed : Bool) × Logged (log_seen (E.seen self.old.output) false)
            (log_seen (E.seen self.new.output) failed) (report_of (Err fault.now)) }
        ensures broken { self.new.broken ≡ self.old.broken }
    {
        let mut line = Pending::new(false);
        line.add_report(&mut self.output, fault);
    }

    // Logs a line of this side's engine at the time of the last event, such as `312 !first : output ended`; `mark` is
    // `<`, `>` or `!`.
    fn add_line(&mut self, side: Colour, mark: u8, text: &[u8])
        ensures logged { Logged (log_seen (E.seen self.old.output) self.old.broken)
            (log_seen (E.seen self.new.output) self.new.broken)
            (log_line self.old.moment mark (engine_name self.old.first side) text.now) }
        ensures first { self.new.first ≡ self.old.first }
        ensures moment { self.new.moment ≡ self.old.moment }
    {
        let mut line = Pending::new(self.broken);
        let is_first = same_colour(side, self.first);
        line.add_line(&mut self.output, self.moment, mark, is_first, text);
        self.broken = line.broken;
    }

    // Logs a line that an engine sent, such as `312 <first : move e2e4`, or that it was too long (`None`).
    fn note_line(&mut self, side: Colour, text: Option<&[u8]>, moment: u64)
        ensures logs { LogsNote E.seen self.old self.new
            (Happened (events.Line side (option_map (λ t. t.now) text.entry) moment)) }
    {
        self.moment = moment;
        match text {
            Some(text) => self.add_line(side, b'<', text),
            None => self.add_line(side, b'!', b"line too long"),
        }
    }

    // Logs the lines that an engine is sent, each such as `312 >first : e2e4`.
    fn note_given(&mut self, side: Colour, text: &[u8])
        ensures logs { LogsNote E.seen self.old self.new (Gives side text.now) }
    {
        let mut rest = text;
        while !rest.is_empty() {
            let (line, after) = split_line(rest);
            self.add_line(side, b'>', line);
            rest = after;
        }
    }
}

impl<E: Output> Witness for Log<E> {
    ghost noted = { λ l. noted_by E.seen l };

    // Logs what the note says. For the opening of a turn nothing is written; only its moment is kept, for the lines
    // that follow.
    fn note(&mut self, note: Note<'_>)
        ensures logs { LogsNote E.seen self.old self.new (note_seen note.entry) }
    {
        match note {
            Note::Line { side, text, moment } => self.note_line(side, text, moment),
            Note::Opened { moment, .. } => {
                self.moment = moment;
            }
            Note::Silent { side, moment } => {
                self.moment = moment;
                self.add_line(side, b'!', b"no line");
            }
            Note::OutputEnds { side } => self.add_line(side, b'!', b"output ended"),
            Note::FailsToRead { side } => self.add_line(side, b'!', b"read failed"),
            Note::FailsToWrite { side } => self.add_line(side, b'!', b"write failed"),
            Note::Gives { side, text } => self.note_given(side, text),
        }
    }
}

/// Plays one game as `run_match` of chess_match does, and logs it; the first engine (that of `--white`) has the side
/// `first`. `ends` are the ends of the two engines' pipes.
///
/// The contract says that the log contains the notes of the match: its events, and all lines that each engine is sent.
/// Either all of it was written and flushed; or a write or a flush of it failed, and a beginning of it was written; or
/// one had failed before, and nothing was written.
pub fn run_match_logged<R: Input, W: Output, M: Moments, B: Board, E: Output>(
    ends: &mut ByColour<Ends<R, W>>,
    moments: &mut M,
    setup: &Setup,
    game: &mut Game<B>,
    first: Colour,
    log: &mut Log<E>,
) -> MatchEnd
    ensures ran { PlayedNoting (λ notes. Logged (log_seen (E.seen log.old.output) log.old.broken)
        (log_seen (E.seen log.new.output) log.new.broken) (log_from first 0 notes)) setup.now result
        (record {
          engines = engines_of R.seen W.seen ends.old.white ends.old.black;
          coming = M.coming moments.old;
          game = game.old;
        })
        (record {
          engines = engines_of R.seen W.seen ends.new.white ends.new.black;
          coming = M.coming moments.new;
          game = game.new;
        }) }
{
    log.begin(first);
    run_match_watched(&mut ends.white, &mut ends.black, moments, setup, game, log)
}
