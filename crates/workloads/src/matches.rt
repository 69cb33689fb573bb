//! Matches between two engines in memory.

use crate::digest::Digest;
use crate::random::Random;
use crate::texts::{add, add_number};
use crate::walk::{Style, Texts, walk_on};
use byte_devices::{Counted, PieceReader, PieceWriter};
use cecp_engine::Level;
use chess_base::{ByColour, Colour, Position};
use chess_bits::{AttackTables, Bits};
use chess_game::{Game, MOST_MOVES};
use chess_match::{
    Draws, Ends, MatchEnd, Moments, Note, Patience, Setup, Witness, run_match_watched,
};
use chess_text::coordinate;
use std::alloc::{AllocError, Global};

/// What two engines send in a match, each engine's lines as one text.
#[derive(Drop)]
pub struct Script {
    pub white: Vec<u8>,
    pub black: Vec<u8>,
}

/// A clock that goes on by 7 milliseconds each time it is read.
#[derive(Drop)]
pub struct Ticking {
    pub moment: u64,
}

impl Moments for Ticking {
    ghost use Rattle.std.specs.Prelude.{None};

    ghost coming = { λ m n. None };

    // Reads the clock, after it has gone on by 7 milliseconds.
    fn now(&mut self) -> u64 {
        self.moment = self.moment.saturating_add(7);
        self.moment
    }
}

// A witness that adds all that it is given to a digest.
#[derive(Drop)]
struct Log {
    digest: Digest,
}

impl Log {
    // Adds an event on one side at a moment; `event` is a number for its kind.
    fn add(&mut self, event: u64, side: Colour, moment: u64) {
        self.digest.add(event);
        match side {
            Colour::White => self.digest.add(0),
            Colour::Black => self.digest.add(1),
        }
        self.digest.add(moment);
    }
}

impl Witness for Log {
    ghost noted = { λ w before notes. Unit {0} };

    // Adds the note: a number for its kind, its side, its moment (0 if it has none) and its text.
    fn note(&mut self, note: Note<'_>) {
        match note {
            Note::Line { side, text, moment } => {
                self.add(1, side, moment);
                if let Some(text) = text {
                    self.digest.add_bytes(text);
                }
            }
            Note::Opened { side, moment } => self.add(2, side, moment),
            Note::Silent { side, moment } => self.add(7, side, moment),
            Note::OutputEnds { side } => self.add(3, side, 0),
            Note::FailsToRead { side } => self.add(4, side, 0),
            Note::FailsToWrite { side } => self.add(5, side, 0),
            Note::Gives { side, text } => {
                self.add(6, side, 0);
                self.digest.add_bytes(text);
            }
        }
    }
}

/// In what form two engines talk.
#[derive(Clone, Copy, PartialEq, Eq)]
pub enum Talk {
    /// Moves by squares, and nothing else.
    Squares,
    /// Moves in SAN.
    San,
    /// Moves by squares, each after a few lines of thinking output.
    Thinking,
}

// Adds the lines of an engine before its first move: its features, and the answer to the first `ping`.
fn add_greeting(text: &mut Vec<u8>, talk: Talk) -> Result<(), AllocError> {
    add(
        text,
        b"feature ping=1 usermove=1 setboard=1 myname=\"Walker 1.0\"",
    )?;
    if talk == Talk::San {
        add(text, b" san=1")?;
    }
    add(text, b" done=1\npong 1\n")
}

// Adds three lines of an engine's thinking output (CECP: depth, score, time, nodes, moves).
fn add_thinking(text: &mut Vec<u8>, ply: usize) -> Result<(), AllocError> {
    for depth in 7..10 {
        add_number(text, depth)?;
        add(text, b" ")?;
        add_number(text, ply % 140)?;
        add(text, b" 12 ")?;
        add_number(text, ply % 1000 * 31 + depth)?;
        add(text, b" Nf3 Nc6 Bb5 a6 Ba4 Nf6\n")?;
    }
    Ok(())
}

// Adds the lines that an engine sends for its half-move `ply`, counted from 0: the move `m`, and the answer to the
// `ping` after it.
fn add_move(text: &mut Vec<u8>, m: &[u8], ply: usize, talk: Talk) -> Result<(), AllocError> {
    if talk == Talk::Thinking {
        add_thinking(text, ply)?;
    }
    add(text, b"move ")?;
    add(text, m)?;
    add(text, b"\npong ")?;
    add_number(text, ply / 2 + 2)?;
    add(text, b"\n")
}

/// Writes what both engines send in a match with the moves of this game, after which the side on move resigns.
///
/// # Errors
/// If memory runs out.
pub fn write_script(
    alloc: Global,
    game: &Game<Bits<'_>>,
    texts: &Texts,
    talk: Talk,
) -> Result<Script, AllocError> {
    let mut white = Vec::new(alloc);
    let mut black = Vec::new(alloc);
    add_greeting(&mut white, talk)?;
    add_greeting(&mut black, talk)?;
    for ply in 0..game.ply() {
        let squares = coordinate(game.move_at(ply));
        let m = match texts.as_slice().get(ply) {
            Some(san) if talk == Talk::San => san.as_slice(),
            _ => squares.as_slice(),
        };
        if ply % 2 == 0 {
            add_move(&mut white, m, ply, talk)?;
        } else {
            add_move(&mut black, m, ply, talk)?;
        }
    }
    add(&mut white, b"resign\n")?;
    add(&mut black, b"resign\n")?;
    Ok(Script { white, black })
}

/// Both ends of an engine in memory: it sends this text, 4,096 bytes a read, and what it is sent is kept.
pub fn ends(alloc: Global, text: &[u8]) -> Ends<Counted<PieceReader<'_>>, Counted<PieceWriter>> {
    Ends {
        reader: Counted::reading(PieceReader::new(text, 4096, 0)),
        writer: Counted::writing(PieceWriter::new(alloc, 65_536, 0)),
    }
}

// Adds how a match ended to the digest.
fn add_end(end: &MatchEnd, digest: &mut Digest) {
    digest.add_bytes(end.outcome.text());
    digest.add_bytes(end.comment.as_bytes());
    digest.add(end.ended as u64);
    digest.add_bytes(end.white_name.as_bytes());
    digest.add_bytes(end.black_name.as_bytes());
    match end.fault {
        None => digest.add(0),
        Some((Colour::White, fault)) => digest.add(1 + fault as u64),
        // Far from White's, of which there are fewer than 100.
        Some((Colour::Black, fault)) => digest.add(101 + fault as u64),
    }
}

// Plays the match of a script with a log, and adds what both engines were sent, the log and the match's end to the
// digest.
fn play(
    alloc: Global,
    script: &Script,
    level: Level,
    game: &mut Game<Bits<'_>>,
    digest: &mut Digest,
) {
    let mut white = ends(alloc, script.white.as_slice());
    let mut black = ends(alloc, script.black.as_slice());
    let setup = Setup {
        start: Position::initial(),
        levels: ByColour {
            white: level,
            black: level,
        },
        patience: Patience::ENDLESS,
        draws: Draws::Claimed,
    };
    let mut log = Log {
        digest: Digest::new(),
    };
    let mut clock = Ticking { moment: 0 };
    let end = run_match_watched(&mut white, &mut black, &mut clock, &setup, game, &mut log);
    add_end(&end, digest);
    digest.add(log.digest.value());
    digest.add(game.ply() as u64);
    digest.add_bytes(white.writer.writer().bytes.as_slice());
    digest.add_bytes(black.writer.writer().bytes.as_slice());
}

// The forms in which the two engines of each game talk, one match for each.
const TALKS: [Talk; 3] = [Talk::Squares, Talk::San, Talk::Thinking];

/// Makes `games` games by random moves, every fifth one a long one, and plays each as three matches: between engines
/// that write moves by squares, that write SAN, and that write lines of their thinking too. Adds the results to the
/// digest.
///
/// # Errors
/// If memory runs out, or a level of time is none.
pub fn play_matches(
    alloc: Global,
    games: usize,
    random: &mut Random,
    digest: &mut Digest,
) -> Result<(), AllocError> {
    let tables = AttackTables::open(alloc)?;
    let mut walked = Game::open(alloc, Bits::new(&tables), MOST_MOVES)?;
    let mut game = Game::open(alloc, Bits::new(&tables), MOST_MOVES)?;
    let mut texts = Vec::new(alloc);
    let Some(level) = Level::read(b"40 90 30") else {
        return Err(AllocError);
    };
    for number in 0..games {
        walked.restart(&Position::initial());
        texts.clear();
        let style = if number % 5 == 4 {
            Style::Long
        } else {
            Style::Lively
        };
        walk_on(
            &mut walked,
            style,
            60 + random.below(200),
            random,
            &mut texts,
        )?;
        for talk in &TALKS {
            let script = write_script(alloc, &walked, &texts, *talk)?;
            play(alloc, &script, level, &mut game, digest);
        }
    }
    Ok(())
}
