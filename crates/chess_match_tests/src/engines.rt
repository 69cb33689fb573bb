//! Matches of which each line is known: what both engines say, when, and what they are sent; also over devices that
//! fail, and in which order blocks are flushed and the clock is read.

use crate::plays::{
    BOARDS, Listed, On, TestEnds, check_end, ends, is_text, play_over, position_of, setup_of,
};
use byte_devices::Counted;
use chess_base::{Colour, Position, Variant};
use chess_game::Outcome;
use chess_match::{Ends, MatchFault, Moments};
use std::alloc::Global;
use std::cell::Cell;
use std::io::{Error, ErrorKind, Read, Write};
use std::process::Abort;
use std::test::Fail;

/// A match: its level, its start as a FEN (empty: the initial position), for how many half-moves there is room, what
/// the engines say, the moments of the clock, and what the engines are sent.
#[derive(Clone, Copy)]
pub struct Row {
    pub level: &'static [u8],
    pub start: &'static [u8],
    pub limit: u32,
    pub white: &'static [u8],
    pub black: &'static [u8],
    pub moments: &'static [u64],
    pub to_white: &'static [u8],
    pub to_black: &'static [u8],
}

// What both engines are sent in fool's mate, the first match; Black is sent the same where the end lines to White fail.
const MATE_TO_WHITE: &[u8] =
    b"xboard\nprotover 2\naccepted ping\naccepted usermove\naccepted done\nnew\nlevel 0 0:10 0\nnopost\neasy\nforce\nping 1\ntime 1000\notim 1000\ngo\nping 2\ntime 1000\notim 1000\nusermove e7e5\nping 3\nusermove d8h4\nresult 0-1 {Black mates}\nquit\n";

const MATE_TO_BLACK: &[u8] =
    b"xboard\nprotover 2\naccepted ping\naccepted done\nnew\nlevel 0 0:10 0\nnopost\neasy\nforce\nping 1\nf2f3\ntime 1000\notim 1000\ngo\nping 2\ntime 1000\notim 1000\ng2g4\nresult 0-1 {Black mates}\nquit\n";

/// Fool's mate, with ten seconds for each side.
pub const FOOLS_MATE: Row = Row {
    level: b"0 0:10 0",
    start: b"",
    limit: 100,
    white: b"feature ping=1 usermove=1 done=1\npong 1\nmove f2f3\npong 2\nmove g2g4\npong 3\n",
    black: b"feature ping=1 done=1\npong 1\nmove e7e5\npong 2\nmove d8h4\n",
    moments: &[0; 15],
    to_white: MATE_TO_WHITE,
    to_black: MATE_TO_BLACK,
};

// That match, and others that end otherwise or use time.
const ROWS: &[Row] = &[
    FOOLS_MATE,
    Row {
        level: b"0 0:10 0",
        start: b"",
        limit: 100,
        white: b"feature ping=1 usermove=1 done=1\npong 1\nmove e2e5\n",
        black: b"feature ping=1 done=1\npong 1\n",
        moments: &[0; 6],
        to_white: b"xboard\nprotover 2\naccepted ping\naccepted usermove\naccepted done\nnew\nlevel 0 0:10 0\nnopost\neasy\nforce\nping 1\ntime 1000\notim 1000\ngo\nresult 0-1 {White makes an illegal move}\nquit\n",
        to_black: b"xboard\nprotover 2\naccepted ping\naccepted done\nnew\nlevel 0 0:10 0\nnopost\neasy\nforce\nping 1\nresult 0-1 {White makes an illegal move}\nquit\n",
    },
    Row {
        level: b"0 0:10 0",
        start: b"",
        limit: 100,
        white: b"feature ping=1 done=1\npong 1\nmove g1f3\npong 2\nmove f3g1\npong 3\nmove g1f3\npong 4\nmove f3g1\npong 5\n",
        black: b"feature ping=1 done=1\npong 1\nmove g8f6\npong 2\nmove f6g8\n1/2-1/2 {Draw by repetition}\npong 3\nmove g8f6\npong 4\nmove f6g8\n1/2-1/2 {Draw by repetition}\n",
        moments: &[0; 29],
        to_white: b"xboard\nprotover 2\naccepted ping\naccepted done\nnew\nlevel 0 0:10 0\nnopost\neasy\nforce\nping 1\ntime 1000\notim 1000\ngo\nping 2\ntime 1000\notim 1000\ng8f6\nping 3\ndraw\ntime 1000\notim 1000\nf6g8\nping 4\ntime 1000\notim 1000\ng8f6\nping 5\nf6g8\nresult 1/2-1/2 {Threefold repetition}\nquit\n",
        to_black: b"xboard\nprotover 2\naccepted ping\naccepted done\nnew\nlevel 0 0:10 0\nnopost\neasy\nforce\nping 1\ng1f3\ntime 1000\notim 1000\ngo\nping 2\ntime 1000\notim 1000\nf3g1\nping 3\ntime 1000\notim 1000\ng1f3\nping 4\ntime 1000\notim 1000\nf3g1\nping 5\nresult 1/2-1/2 {Threefold repetition}\nquit\n",
    },
    Row {
        level: b"0 0:10 2",
        start: b"",
        limit: 100,
        white: b"feature ping=1 usermove=1 done=1\npong 1\nmove e2e4\npong 2\n",
        black: b"feature ping=1 done=1\npong 1\nmove e7e5\npong 2\n",
        moments: &[0, 0, 0, 0, 5000, 15000, 16000, 16000, 16000, 16000, 16000],
        to_white: b"xboard\nprotover 2\naccepted ping\naccepted usermove\naccepted done\nnew\nlevel 0 0:10 2\nnopost\neasy\nforce\nping 1\ntime 1000\notim 1000\ngo\nping 2\ntime 200\notim 1200\nusermove e7e5\nresult * {White ended its output}\nquit\n",
        to_black: b"xboard\nprotover 2\naccepted ping\naccepted done\nnew\nlevel 0 0:10 2\nnopost\neasy\nforce\nping 1\ne2e4\ntime 1000\notim 200\ngo\nping 2\nresult * {White ended its output}\nquit\n",
    },
    Row {
        level: b"0 0:10 2",
        start: b"",
        limit: 100,
        white: b"feature ping=1 usermove=1 done=1\npong 1\nmove e2e4\n",
        black: b"feature ping=1 done=1\npong 1\n",
        moments: &[0, 0, 0, 0, 5000, 15001],
        to_white: b"xboard\nprotover 2\naccepted ping\naccepted usermove\naccepted done\nnew\nlevel 0 0:10 2\nnopost\neasy\nforce\nping 1\ntime 1000\notim 1000\ngo\nresult 0-1 {White forfeits on time}\nquit\n",
        to_black: b"xboard\nprotover 2\naccepted ping\naccepted done\nnew\nlevel 0 0:10 2\nnopost\neasy\nforce\nping 1\nresult 0-1 {White forfeits on time}\nquit\n",
    },
    Row {
        level: b"0 0:10 2",
        start: b"4k3/8/8/8/8/8/8/R3K3 w - - 0 1",
        limit: 100,
        white: b"feature ping=1 setboard=1 done=1\npong 1\nx\n",
        black: b"feature ping=1 setboard=1 done=1\npong 1\n",
        moments: &[0, 0, 0, 0, 5000, 15001],
        to_white: b"xboard\nprotover 2\naccepted ping\naccepted setboard\naccepted done\nnew\nlevel 0 0:10 2\nnopost\neasy\nforce\nsetboard 4k3/8/8/8/8/8/8/R3K3 w - - 0 1\nping 1\ntime 1000\notim 1000\ngo\nresult 1/2-1/2 {Time forfeit against a bare king}\nquit\n",
        to_black: b"xboard\nprotover 2\naccepted ping\naccepted setboard\naccepted done\nnew\nlevel 0 0:10 2\nnopost\neasy\nforce\nsetboard 4k3/8/8/8/8/8/8/R3K3 w - - 0 1\nping 1\nresult 1/2-1/2 {Time forfeit against a bare king}\nquit\n",
    },
    Row {
        level: b"2 1 3",
        start: b"",
        limit: 100,
        white: b"feature ping=1 usermove=1 done=1\npong 1\nmove f2f3\npong 2\nmove g2g4\npong 3\n",
        black: b"feature ping=1 done=1\npong 1\nmove e7e5\npong 2\nmove d8h4\n",
        moments: &[
            0, 0, 0, 0, 0, 10000, 10000, 10000, 10000, 10000, 10000, 30000, 30000, 30000, 30000,
        ],
        to_white: b"xboard\nprotover 2\naccepted ping\naccepted usermove\naccepted done\nnew\nlevel 2 1 3\nnopost\neasy\nforce\nping 1\ntime 6000\notim 6000\ngo\nping 2\ntime 5300\notim 6300\nusermove e7e5\nping 3\nusermove d8h4\nresult 0-1 {Black mates}\nquit\n",
        to_black: b"xboard\nprotover 2\naccepted ping\naccepted done\nnew\nlevel 2 1 3\nnopost\neasy\nforce\nping 1\nf2f3\ntime 6000\notim 5300\ngo\nping 2\ntime 6300\notim 9600\ng2g4\nresult 0-1 {Black mates}\nquit\n",
    },
    // White's moves take 250 and 1,008 ms, Black's none.
    Row {
        level: b"0 0:08.25 0.08",
        start: b"",
        limit: 100,
        white: b"feature ping=1 usermove=1 done=1\npong 1\nmove f2f3\npong 2\nmove g2g4\npong 3\n",
        black: b"feature ping=1 done=1\npong 1\nmove e7e5\npong 2\nmove d8h4\n",
        moments: &[
            0, 0, 0, 0, 0, 250, 250, 250, 250, 250, 250, 1258, 1258, 1258, 1258,
        ],
        to_white: b"xboard\nprotover 2\naccepted ping\naccepted usermove\naccepted done\nnew\nlevel 0 0:08.25 0.08\nnopost\neasy\nforce\nping 1\ntime 825\notim 825\ngo\nping 2\ntime 808\notim 833\nusermove e7e5\nping 3\nusermove d8h4\nresult 0-1 {Black mates}\nquit\n",
        to_black: b"xboard\nprotover 2\naccepted ping\naccepted done\nnew\nlevel 0 0:08.25 0.08\nnopost\neasy\nforce\nping 1\nf2f3\ntime 825\notim 808\ngo\nping 2\ntime 833\notim 715\ng2g4\nresult 0-1 {Black mates}\nquit\n",
    },
    Row {
        level: b"0 0:10 0",
        start: b"",
        limit: 100,
        white: b"feature ping=1 foo=\"a b\" sigint=x san=1\nfeature done=1\n",
        black: b"feature done=1\n",
        moments: &[0; 3],
        to_white: b"xboard\nprotover 2\naccepted ping\nrejected foo\naccepted done\nresult * {Black has no ping}\nquit\n",
        to_black: b"xboard\nprotover 2\naccepted done\nresult * {Black has no ping}\nquit\n",
    },
    Row {
        level: b"0 0:10 0",
        start: b"",
        limit: 100,
        white: b"feature ping=1 usermove=1 done=1\npong 1\nmove f2f3\npong 2\noffer draw\n",
        black: b"feature ping=1 done=1\npong 1\noffer draw\nmove e7e5\npong 2\n",
        moments: &[0; 13],
        to_white: b"xboard\nprotover 2\naccepted ping\naccepted usermove\naccepted done\nnew\nlevel 0 0:10 0\nnopost\neasy\nforce\nping 1\ntime 1000\notim 1000\ngo\nping 2\ndraw\ntime 1000\notim 1000\nusermove e7e5\nresult 1/2-1/2 {Draw agreed}\nquit\n",
        to_black: b"xboard\nprotover 2\naccepted ping\naccepted done\nnew\nlevel 0 0:10 0\nnopost\neasy\nforce\nping 1\nf2f3\ntime 1000\notim 1000\ngo\nping 2\nresult 1/2-1/2 {Draw agreed}\nquit\n",
    },
    Row {
        level: b"0 0:10 0",
        start: b"",
        limit: 100,
        white: b"feature ping=1 usermove=1 done=1\npong 1\nmove f2f3\nmove g2g4\n",
        black: b"feature ping=1 done=1\npong 1\n",
        moments: &[0; 7],
        to_white: b"xboard\nprotover 2\naccepted ping\naccepted usermove\naccepted done\nnew\nlevel 0 0:10 0\nnopost\neasy\nforce\nping 1\ntime 1000\notim 1000\ngo\nping 2\nresult 0-1 {White moves out of turn}\nquit\n",
        to_black: b"xboard\nprotover 2\naccepted ping\naccepted done\nnew\nlevel 0 0:10 0\nnopost\neasy\nforce\nping 1\nf2f3\nresult 0-1 {White moves out of turn}\nquit\n",
    },
    Row {
        level: b"0 0:10 0",
        start: b"",
        limit: 100,
        white: b"feature ping=1 usermove=1 done=1\npong 1\nmove f2f3\npong 2\n",
        black: b"feature ping=1 done=1\npong 1\n0-1 {mate}\n",
        moments: &[0; 9],
        to_white: b"xboard\nprotover 2\naccepted ping\naccepted usermove\naccepted done\nnew\nlevel 0 0:10 0\nnopost\neasy\nforce\nping 1\ntime 1000\notim 1000\ngo\nping 2\nresult 1-0 {Black makes a false claim}\nquit\n",
        to_black: b"xboard\nprotover 2\naccepted ping\naccepted done\nnew\nlevel 0 0:10 0\nnopost\neasy\nforce\nping 1\nf2f3\ntime 1000\notim 1000\ngo\nresult 1-0 {Black makes a false claim}\nquit\n",
    },
    // A move that comes before its opening ends uses no time.
    Row {
        level: b"0 0:10 0",
        start: b"",
        limit: 100,
        white: b"feature ping=1 usermove=1 done=1\npong 1\nmove f2f3\npong 2\nmove g2g4\npong 3\n",
        black: b"feature ping=1 done=1\npong 1\nmove e7e5\npong 2\nmove d8h4\n",
        moments: &[
            0, 0, 0, 0, 5000, 4000, 4000, 4000, 4000, 4000, 4000, 4000, 4000, 4000, 4000,
        ],
        to_white: MATE_TO_WHITE,
        to_black: MATE_TO_BLACK,
    },
];

// Asserts what two engines were sent.
fn are_sent(
    rt: &impl Abort,
    white: &TestEnds<'_>,
    black: &TestEnds<'_>,
    to_white: &[u8],
    to_black: &[u8],
) {
    is_text(
        rt,
        "to White",
        white.writer.writer().bytes.as_slice(),
        to_white,
    );
    is_text(
        rt,
        "to Black",
        black.writer.writer().bytes.as_slice(),
        to_black,
    );
}

/// Failures in the first match: which call of White's reader, of White's writer and of Black's writer fails (0: none).
/// Then its outcome, comment and fault, and what both engines are sent.
struct Broken {
    white_read: u64,
    white_write: u64,
    black_write: u64,
    outcome: Outcome,
    comment: &'static [u8],
    fault: (Colour, MatchFault),
    to_white: &'static [u8],
    to_black: &'static [u8],
}

// A device fails at its first call, in the middle, or at the end lines.
const BROKEN: &[Broken] = &[
    Broken {
        white_read: 1,
        white_write: 0,
        black_write: 0,
        outcome: Outcome::Unfinished,
        comment: b"White can not be read",
        fault: (Colour::White, MatchFault::Read),
        to_white: b"xboard\nprotover 2\nresult * {White can not be read}\nquit\n",
        to_black: b"result * {White can not be read}\nquit\n",
    },
    Broken {
        white_read: 0,
        white_write: 0,
        black_write: 1,
        outcome: Outcome::Unfinished,
        comment: b"Black can not be written",
        fault: (Colour::Black, MatchFault::Write),
        to_white: b"xboard\nprotover 2\naccepted ping\naccepted usermove\naccepted done\nresult * {Black can not be written}\nquit\n",
        to_black: b"",
    },
    Broken {
        white_read: 0,
        white_write: 1,
        black_write: 0,
        outcome: Outcome::Unfinished,
        comment: b"White can not be written",
        fault: (Colour::White, MatchFault::Write),
        to_white: b"",
        to_black: b"result * {White can not be written}\nquit\n",
    },
    // White's fourth call is the flush of its answers: the block was taken.
    Broken {
        white_read: 0,
        white_write: 4,
        black_write: 0,
        outcome: Outcome::Unfinished,
        comment: b"White can not be written",
        fault: (Colour::White, MatchFault::Write),
        to_white: b"xboard\nprotover 2\naccepted ping\naccepted usermove\naccepted done\n",
        to_black: b"result * {White can not be written}\nquit\n",
    },
    // The end lines to White fail: the outcome is kept, and Black has all of its row.
    Broken {
        white_read: 0,
        white_write: 15,
        black_write: 0,
        outcome: Outcome::BlackWins,
        comment: b"Black mates",
        fault: (Colour::White, MatchFault::Write),
        to_white: b"xboard\nprotover 2\naccepted ping\naccepted usermove\naccepted done\nnew\nlevel 0 0:10 0\nnopost\neasy\nforce\nping 1\ntime 1000\notim 1000\ngo\nping 2\ntime 1000\notim 1000\nusermove e7e5\nping 3\n",
        to_black: MATE_TO_BLACK,
    },
];

// Plays the first match on this board with the failures of a row, and asserts what comes of it.
fn breaks(rt: &impl Abort, alloc: Global, on: On, broken: &Broken) -> Result<(), Fail> {
    let row = &FOOLS_MATE;
    let setup = setup_of(rt, row.level, Position::initial());
    let mut white = ends(
        alloc,
        row.white,
        1024,
        broken.white_read,
        broken.white_write,
    );
    let mut black = ends(alloc, row.black, 1024, 0, broken.black_write);
    let mut moments = Listed { rest: &[] };
    let (end, _) = play_over(
        alloc,
        on,
        row.limit,
        &mut white,
        &mut black,
        &mut moments,
        &setup,
    )?;
    check_end(rt, &end, broken.outcome, broken.comment, Some(broken.fault));
    are_sent(rt, &white, &black, broken.to_white, broken.to_black);
    Ok(())
}

// Plays each row on both boards.
#[test]
fn devices_that_fail(rt: HostRuntime) -> Result<(), Fail> {
    for broken in BROKEN {
        for on in BOARDS {
            breaks(&rt, rt.alloc(), *on, broken)?;
        }
    }
    Ok(())
}

// The position of a FEN, or the initial one if the FEN is empty.
fn start_of(rt: &impl Abort, fen: &[u8]) -> Position {
    if fen.is_empty() {
        return Position::initial();
    }
    position_of(rt, Variant::Normal, fen)
}

// Plays the match of a row on this board, where each read gives at most `cut` bytes of what an engine says, and asserts
// what both are sent.
fn check(rt: &impl Abort, alloc: Global, on: On, row: &Row, cut: usize) -> Result<(), Fail> {
    let setup = setup_of(rt, row.level, start_of(rt, row.start));
    let mut white = ends(alloc, row.white, cut, 0, 0);
    let mut black = ends(alloc, row.black, cut, 0, 0);
    let mut moments = Listed { rest: row.moments };
    let _end = play_over(
        alloc,
        on,
        row.limit,
        &mut white,
        &mut black,
        &mut moments,
        &setup,
    )?;
    are_sent(rt, &white, &black, row.to_white, row.to_black);
    Ok(())
}

// How many bytes a read gives at most.
const CUTS: &[usize] = &[1, 7, 1024];

/// The same on both boards and with reads of several lengths.
pub fn check_cuts(rt: &impl Abort, alloc: Global, row: &Row) -> Result<(), Fail> {
    for cut in CUTS {
        for on in BOARDS {
            check(rt, alloc, *on, row, *cut)?;
        }
    }
    Ok(())
}

// Plays each row.
#[test]
fn worked_matches(rt: HostRuntime) -> Result<(), Fail> {
    for row in ROWS {
        check_cuts(&rt, rt.alloc(), row)?;
    }
    Ok(())
}

/// What the devices of two engines count together: how many lines were flushed to each, and how many were read from
/// both.
#[derive(Drop)]
struct Shared {
    white: Cell<u64>,
    black: Cell<u64>,
    reads: Cell<u64>,
}

impl Shared {
    // The count of the lines that were flushed to this side.
    fn flushed(&self, side: Colour) -> &Cell<u64> {
        match side {
            Colour::White => &self.white,
            Colour::Black => &self.black,
        }
    }
}

/// An engine's output. Each line has a number, and is given by one read, which fails unless that many lines were
/// flushed to the engine before. The reads of both engines are counted together.
#[derive(Drop)]
struct Scripted<'a> {
    lines: &'static [(u64, &'static [u8])],
    shared: &'a Shared,
    side: Colour,
}

impl Read for Scripted<'_> {
    ghost use Rattle.std.specs.Prelude.{None};

    ghost remaining = { λ r. None };

    fn read(&mut self, buf: &mut [u8]) -> std::io::Result<usize> {
        match self.lines {
            [] => Ok(0),
            [first, tail @ ..] => {
                if self.shared.flushed(self.side).get() < first.0 {
                    return Err(Error::from(ErrorKind::Other));
                }
                let count = first.1.len().min(buf.len());
                buf[..count].copy_from_slice(&first.1[..count]);
                self.lines = tail;
                self.shared
                    .reads
                    .set(self.shared.reads.get().saturating_add(1));
                Ok(count)
            }
        }
    }
}

// How many lines a text has.
fn line_count(text: &[u8]) -> u64 {
    let mut count: u64 = 0;
    for byte in text {
        if *byte == b'\n' {
            count = count.saturating_add(1);
        }
    }
    count
}

/// An engine's input. It takes all bytes, and a flush notes how many lines it has taken by then.
#[derive(Drop)]
struct Flushed<'a> {
    bytes: Vec<u8>,
    shared: &'a Shared,
    side: Colour,
}

impl Write for Flushed<'_> {
    ghost use Rattle.std.specs.Prelude.{None};

    ghost contents = { λ w. None };

    fn write(&mut self, buf: &[u8]) -> std::io::Result<usize> {
        self.bytes.extend_from_slice(buf)?;
        Ok(buf.len())
    }

    fn flush(&mut self) -> std::io::Result<()> {
        self.shared
            .flushed(self.side)
            .set(line_count(self.bytes.as_slice()));
        Ok(())
    }
}

/// A clock that goes on by a second with each line that is read and each that is flushed. So if it is read too early,
/// before a line was read or a block was flushed, it shows too little.
#[derive(Drop)]
struct Ticks<'a> {
    shared: &'a Shared,
}

impl Moments for Ticks<'_> {
    ghost use Rattle.std.specs.Prelude.{None};

    ghost coming = { λ m n. None };

    fn now(&mut self) -> u64 {
        let Shared {
            white,
            black,
            reads,
        } = self.shared;
        let count = reads.get().saturating_add(white.get());
        count.saturating_add(black.get()).saturating_mul(1000)
    }
}

// What each engine says, each line with the number of lines that must have been flushed to the engine before it.
const WHITE_SAYS: [(u64, &'static [u8]); 6] = [
    (2, b"feature ping=1 usermove=1 done=1\n"),
    (11, b"pong 1\n"),
    (14, b"move f2f3\n"),
    (15, b"pong 2\n"),
    (18, b"move g2g4\n"),
    (19, b"pong 3\n"),
];

const BLACK_SAYS: [(u64, &'static [u8]); 5] = [
    (2, b"feature ping=1 done=1\n"),
    (10, b"pong 1\n"),
    (14, b"move e7e5\n"),
    (15, b"pong 2\n"),
    (18, b"move d8h4\n"),
];

// An engine of such devices.
type ScriptedEnds<'a> = Ends<Counted<Scripted<'a>>, Counted<Flushed<'a>>>;

// An engine of this side that says these lines, each once it has been sent enough.
fn scripted_ends<'a>(
    alloc: Global,
    lines: &'static [(u64, &'static [u8])],
    shared: &'a Shared,
    side: Colour,
) -> ScriptedEnds<'a> {
    Ends {
        reader: Counted::reading(Scripted {
            lines,
            shared,
            side,
        }),
        writer: Counted::writing(Flushed {
            bytes: Vec::new(alloc),
            shared,
            side,
        }),
    }
}

// Plays fool's mate between such engines. The times that both are sent show that the clock was read after each line and
// after each flush of an opening, and no read fails.
#[test]
fn blocks_are_flushed_and_moments_asked_in_time(rt: HostRuntime) -> Result<(), Fail> {
    let shared = Shared {
        white: Cell::new(0),
        black: Cell::new(0),
        reads: Cell::new(0),
    };
    let mut white = scripted_ends(rt.alloc(), &WHITE_SAYS, &shared, Colour::White);
    let mut black = scripted_ends(rt.alloc(), &BLACK_SAYS, &shared, Colour::Black);
    let setup = setup_of(&rt, b"0 0:10 0", Position::initial());
    let mut moments = Ticks { shared: &shared };
    let (end, _) = play_over(
        rt.alloc(),
        On::Plain,
        100,
        &mut white,
        &mut black,
        &mut moments,
        &setup,
    )?;
    check_end(&rt, &end, Outcome::BlackWins, b"Black mates", None);
    is_text(
        &rt,
        "to White",
        white.writer.writer().bytes.as_slice(),
        b"xboard\nprotover 2\naccepted ping\naccepted usermove\naccepted done\nnew\nlevel 0 0:10 0\nnopost\neasy\nforce\nping 1\ntime 1000\notim 1000\ngo\nping 2\ntime 900\notim 900\nusermove e7e5\nping 3\nusermove d8h4\nresult 0-1 {Black mates}\nquit\n",
    );
    is_text(
        &rt,
        "to Black",
        black.writer.writer().bytes.as_slice(),
        b"xboard\nprotover 2\naccepted ping\naccepted done\nnew\nlevel 0 0:10 0\nnopost\neasy\nforce\nping 1\nf2f3\ntime 1000\notim 900\ngo\nping 2\ntime 900\notim 800\ng2g4\nresult 0-1 {Black mates}\nquit\n",
    );
    Ok(())
}
