//! The log of a match, played over memory.

use crate::runs::{is_equal, is_text};
use byte_devices::{Counted, PieceReader, PieceWriter, SilentAfter};
use cecp_engine::Level;
use chess_arbiter::{Log, run_match_logged};
use chess_base::{ByColour, Colour, Position};
use chess_game::Game;
use chess_match::{Draws, Ends, MatchFault, Moments, Patience, Setup};
use chess_moves::Plain;
use std::alloc::Global;
use std::process::Abort;
use std::test::Fail;

/// A clock that shows these moments, one for each time it is read, and then zeros.
#[derive(Drop)]
struct Listed<'a> {
    rest: &'a [u64],
}

impl Moments for Listed<'_> {
    ghost use Rattle.std.specs.Prelude.{None};

    ghost coming = { λ m n. None };

    fn now(&mut self) -> u64 {
        match self.rest {
            [] => 0,
            [first, after @ ..] => {
                let moment = *first;
                self.rest = after;
                moment
            }
        }
    }
}

/// What a match gets: what both engines send; which side the first engine has, as the log names it; which call of
/// White's reader, of Black's writer and of the log's output fails (0: none); after how many bytes White falls silent,
/// and for how many waits; and the moments of the clock. If there are silences, flags fall by themselves and a reply
/// has two seconds.
#[derive(Clone, Copy)]
struct MatchInput<'a> {
    white: &'a [u8],
    black: &'a [u8],
    first: Colour,
    white_read: u64,
    black_write: u64,
    log_write: u64,
    silent_after: usize,
    silences: u64,
    moments: &'a [u64],
}

impl<'a> MatchInput<'a> {
    // A match in which nothing fails, no one is silent and the clock stays at 0.
    fn of(white: &'a [u8], black: &'a [u8]) -> Self {
        MatchInput {
            white,
            black,
            first: Colour::White,
            white_read: 0,
            black_write: 0,
            log_write: 0,
            silent_after: 0,
            silences: 0,
            moments: &[],
        }
    }
}

/// What came of a match that was logged.
#[derive(Drop)]
struct Logged {
    fault: Option<(Colour, MatchFault)>,
    to_white: Vec<u8>,
    to_black: Vec<u8>,
    log: Vec<u8>,
}

// Plays a match of ten seconds for each side, and gives what came of it.
fn play(rt: &impl Abort, alloc: Global, input: &MatchInput<'_>) -> Result<Logged, Fail> {
    let Some(level) = Level::read(b"0 0:10 0") else {
        panic!(rt; "level");
    };
    let setup = Setup {
        start: Position::initial(),
        levels: ByColour {
            white: level,
            black: level,
        },
        patience: Patience {
            flag: input.silences > 0,
            reply: (input.silences > 0).then_some(2000),
        },
        draws: Draws::Claimed,
    };
    let white = Ends {
        reader: SilentAfter::new(
            PieceReader::new(input.white, 9, input.white_read),
            input.silent_after,
            input.silences,
        ),
        writer: Counted::writing(PieceWriter::new(alloc, 1024, 0)),
    };
    let black = Ends {
        reader: SilentAfter::new(PieceReader::new(input.black, 9, 0), 0, 0),
        writer: Counted::writing(PieceWriter::new(alloc, 1024, input.black_write)),
    };
    let mut moments = Listed {
        rest: input.moments,
    };
    let mut game = Game::open(alloc, Plain::new(), 100)?;
    let mut log = Log::new(Counted::writing(PieceWriter::new(alloc, 1024, input.log_write)));
    let mut ends = ByColour { white, black };
    let end = run_match_logged(
        &mut ends,
        &mut moments,
        &setup,
        &mut game,
        input.first,
        &mut log,
    );
    let ByColour { white, black } = ends;
    Ok(Logged {
        fault: end.fault,
        to_white: white.writer.into_writer().bytes,
        to_black: black.writer.into_writer().bytes,
        log: log.into_output().into_writer().bytes,
    })
}

// What the engines send in a match that ends by fool's mate.
const WHITE: &[u8] =
    b"feature ping=1 usermove=1 done=1\npong 1\nmove f2f3\npong 2\nmove g2g4\npong 3\n";

const BLACK: &[u8] = b"feature ping=1 done=1\npong 1\nmove e7e5\npong 2\nmove d8h4\n";

// The clock goes on by 10 milliseconds each time it is read: at each line of an engine, and at the end of each block
// that gives the turn to one.
const EACH_10: &[u64] = &[
    10, 20, 30, 40, 50, 60, 70, 80, 90, 100, 110, 120, 130, 140, 150,
];

// The log of that match on this clock: the time, `>` for a line that the engine was sent or `<` for one that it sent,
// which engine, and the line.
const FOOLS_MATE: &str =
    "0 >first : xboard\n0 >first : protover 2\n10 <first : feature ping=1 usermove=1 done=1\n10 >first : accepted ping\n10 >first : accepted usermove\n10 >first : accepted done\n10 >second: xboard\n10 >second: protover 2\n20 <second: feature ping=1 done=1\n20 >second: accepted ping\n20 >second: accepted done\n20 >first : new\n20 >first : level 0 0:10 0\n20 >first : nopost\n20 >first : easy\n20 >first : force\n20 >first : ping 1\n30 <first : pong 1\n30 >second: new\n30 >second: level 0 0:10 0\n30 >second: nopost\n30 >second: easy\n30 >second: force\n30 >second: ping 1\n40 <second: pong 1\n40 >first : time 1000\n40 >first : otim 1000\n40 >first : go\n60 <first : move f2f3\n60 >first : ping 2\n70 <first : pong 2\n70 >second: f2f3\n70 >second: time 1000\n70 >second: otim 999\n70 >second: go\n90 <second: move e7e5\n90 >second: ping 2\n100 <second: pong 2\n100 >first : time 999\n100 >first : otim 999\n100 >first : usermove e7e5\n120 <first : move g2g4\n120 >first : ping 3\n130 <first : pong 3\n130 >second: time 999\n130 >second: otim 998\n130 >second: g2g4\n150 <second: move d8h4\n150 >first : usermove d8h4\n150 >first : result 0-1 {Black mates}\n150 >first : quit\n150 >second: result 0-1 {Black mates}\n150 >second: quit\n";

// Compares the whole log of that match.
#[test]
fn a_whole_log(rt: HostRuntime) -> Result<(), Fail> {
    let mut input = MatchInput::of(WHITE, BLACK);
    input.moments = EACH_10;
    let logged = play(&rt, rt.alloc(), &input)?;
    is_text(&rt, logged.log.as_slice(), FOOLS_MATE)
}

// The same where the engine that has Black is the first.
const WITH_BLACK_FIRST: &str =
    "0 >second: xboard\n0 >second: protover 2\n10 <second: feature ping=1 usermove=1 done=1\n10 >second: accepted ping\n10 >second: accepted usermove\n10 >second: accepted done\n10 >first : xboard\n10 >first : protover 2\n20 <first : feature ping=1 done=1\n20 >first : accepted ping\n20 >first : accepted done\n20 >second: new\n20 >second: level 0 0:10 0\n20 >second: nopost\n20 >second: easy\n20 >second: force\n20 >second: ping 1\n30 <second: pong 1\n30 >first : new\n30 >first : level 0 0:10 0\n30 >first : nopost\n30 >first : easy\n30 >first : force\n30 >first : ping 1\n40 <first : pong 1\n40 >second: time 1000\n40 >second: otim 1000\n40 >second: go\n60 <second: move f2f3\n60 >second: ping 2\n70 <second: pong 2\n70 >first : f2f3\n70 >first : time 1000\n70 >first : otim 999\n70 >first : go\n90 <first : move e7e5\n90 >first : ping 2\n100 <first : pong 2\n100 >second: time 999\n100 >second: otim 999\n100 >second: usermove e7e5\n120 <second: move g2g4\n120 >second: ping 3\n130 <second: pong 3\n130 >first : time 999\n130 >first : otim 998\n130 >first : g2g4\n150 <first : move d8h4\n150 >second: usermove d8h4\n150 >second: result 0-1 {Black mates}\n150 >second: quit\n150 >first : result 0-1 {Black mates}\n150 >first : quit\n";

// The log names engines by their order, so White is `second` here.
#[test]
fn the_first_engine_has_black(rt: HostRuntime) -> Result<(), Fail> {
    let mut input = MatchInput::of(WHITE, BLACK);
    input.moments = EACH_10;
    input.first = Colour::Black;
    let logged = play(&rt, rt.alloc(), &input)?;
    is_text(&rt, logged.log.as_slice(), WITH_BLACK_FIRST)
}

// What both engines of most matches below send first, and the log of it up to White's first turn, at moment 0.
const HANDSHAKE: &str = "feature ping=1 done=1\npong 1\n";

const HANDSHAKE_LOG: &str =
    "0 >first : xboard\n0 >first : protover 2\n0 <first : feature ping=1 done=1\n0 >first : accepted ping\n0 >first : accepted done\n0 >second: xboard\n0 >second: protover 2\n0 <second: feature ping=1 done=1\n0 >second: accepted ping\n0 >second: accepted done\n0 >first : new\n0 >first : level 0 0:10 0\n0 >first : nopost\n0 >first : easy\n0 >first : force\n0 >first : ping 1\n0 <first : pong 1\n0 >second: new\n0 >second: level 0 0:10 0\n0 >second: nopost\n0 >second: easy\n0 >second: force\n0 >second: ping 1\n0 <second: pong 1\n0 >first : time 1000\n0 >first : otim 1000\n0 >first : go\n";

/// A match after the handshake: what the engines send, the moments, and what the log then adds.
struct After {
    white: &'static str,
    black: &'static str,
    moments: &'static [u64],
    log: &'static str,
}

// Matches that end in different ways, with what their log has after the handshake.
const ENDS: [After; 9] = [
    After {
        white: "move e2e5\n",
        black: "",
        moments: &[],
        log: "0 <first : move e2e5\n0 >first : result 0-1 {White makes an illegal move}\n0 >first : quit\n0 >second: result 0-1 {White makes an illegal move}\n0 >second: quit\n",
    },
    // Black has not been sent the move, since White's `pong 2` did not come.
    After {
        white: "move f2f3\nmove g2g4\n",
        black: "",
        moments: &[],
        log: "0 <first : move f2f3\n0 >first : ping 2\n0 <first : move g2g4\n0 >first : result 0-1 {White moves out of turn}\n0 >first : quit\n0 >second: f2f3\n0 >second: result 0-1 {White moves out of turn}\n0 >second: quit\n",
    },
    After {
        white: "move f2f3\npong 2\n",
        black: "0-1 {mate}\n",
        moments: &[],
        log: "0 <first : move f2f3\n0 >first : ping 2\n0 <first : pong 2\n0 >second: f2f3\n0 >second: time 1000\n0 >second: otim 1000\n0 >second: go\n0 <second: 0-1 {mate}\n0 >first : result 1-0 {Black makes a false claim}\n0 >first : quit\n0 >second: result 1-0 {Black makes a false claim}\n0 >second: quit\n",
    },
    After {
        white: "resign\n",
        black: "",
        moments: &[],
        log: "0 <first : resign\n0 >first : result 0-1 {White resigns}\n0 >first : quit\n0 >second: result 0-1 {White resigns}\n0 >second: quit\n",
    },
    // The move comes 10,001 milliseconds after the turn was given.
    After {
        white: "move e2e4\n",
        black: "",
        moments: &[0, 0, 0, 0, 5000, 15001],
        log: "15001 <first : move e2e4\n15001 >first : result 0-1 {White forfeits on time}\n15001 >first : quit\n15001 >second: result 0-1 {White forfeits on time}\n15001 >second: quit\n",
    },
    // The output ends in the middle of a line, which is not shown.
    After {
        white: "mov",
        black: "",
        moments: &[],
        log: "0 !first : output ended\n0 >first : result * {White ended its output}\n0 >first : quit\n0 >second: result * {White ended its output}\n0 >second: quit\n",
    },
    // Bytes outside 32 to 126 are shown as `?`.
    After {
        white: "\u{1}tab\there \u{e9}~\u{7f}\nresign\n",
        black: "",
        moments: &[],
        log: "0 <first : ?tab?here ??~?\n0 <first : resign\n0 >first : result 0-1 {White resigns}\n0 >first : quit\n0 >second: result 0-1 {White resigns}\n0 >second: quit\n",
    },
    // A line of an engine can't look like one of the arbiter's.
    After {
        white: "0 >second: quit\n\nresign\n",
        black: "",
        moments: &[],
        log: "0 <first : 0 >second: quit\n0 <first : \n0 <first : resign\n0 >first : result 0-1 {White resigns}\n0 >first : quit\n0 >second: result 0-1 {White resigns}\n0 >second: quit\n",
    },
    After {
        white: "move f2f3\npong 2\n",
        black: "resign\n",
        moments: &[],
        log: "0 <first : move f2f3\n0 >first : ping 2\n0 <first : pong 2\n0 >second: f2f3\n0 >second: time 1000\n0 >second: otim 1000\n0 >second: go\n0 <second: resign\n0 >first : result 1-0 {Black resigns}\n0 >first : quit\n0 >second: result 1-0 {Black resigns}\n0 >second: quit\n",
    },
];

// These texts, one after another.
fn joined(alloc: Global, parts: &[&[u8]]) -> Result<Vec<u8>, Fail> {
    let mut text = Vec::new(alloc);
    for part in parts {
        text.extend_from_slice(part)?;
    }
    Ok(text)
}

// Plays a match in which each engine sends the handshake, and then `white` or `black`; all else is as `input` has it.
fn play_after(
    rt: &impl Abort,
    alloc: Global,
    white: &[u8],
    black: &[u8],
    input: &MatchInput<'_>,
) -> Result<Logged, Fail> {
    let white = joined(alloc, &[HANDSHAKE.as_bytes(), white])?;
    let black = joined(alloc, &[HANDSHAKE.as_bytes(), black])?;
    let input = MatchInput {
        white: white.as_slice(),
        black: black.as_slice(),
        first: input.first,
        white_read: input.white_read,
        black_write: input.black_write,
        log_write: input.log_write,
        silent_after: input.silent_after,
        silences: input.silences,
        moments: input.moments,
    };
    play(rt, alloc, &input)
}

// Asserts that a log is that of the handshake, followed by `after`.
fn is_log(rt: &impl Abort, alloc: Global, log: &[u8], after: &str) -> Result<(), Fail> {
    let wanted = joined(alloc, &[HANDSHAKE_LOG.as_bytes(), after.as_bytes()])?;
    is_text(rt, log, std::str::from_utf8(wanted.as_slice())?)
}

// Plays the match of a row, and asserts what its log has after the handshake.
fn is_logged(rt: &impl Abort, alloc: Global, after: &After) -> Result<(), Fail> {
    let mut input = MatchInput::of(b"", b"");
    input.moments = after.moments;
    let logged = play_after(
        rt,
        alloc,
        after.white.as_bytes(),
        after.black.as_bytes(),
        &input,
    )?;
    is_log(rt, alloc, logged.log.as_slice(), after.log)
}

// Plays each row.
#[test]
fn ends_are_logged(rt: HostRuntime) -> Result<(), Fail> {
    for after in &ENDS {
        is_logged(&rt, rt.alloc(), after)?;
    }
    Ok(())
}

/// A match in which White falls silent: after how many bytes beyond the handshake, for how many waits, what it sends,
/// the moments, and what the log then adds.
struct Silence {
    after: usize,
    silences: u64,
    white: &'static str,
    moments: &'static [u64],
    log: &'static str,
}

// Silences that end a match, and silences that a line ends in time.
const SILENCES: [Silence; 4] = [
    // Before the move, in the middle of its line: the flag falls at 10,001 milliseconds and not at 10,000.
    Silence {
        after: 4,
        silences: 2,
        white: "move e2e4\n",
        moments: &[0, 0, 0, 0, 500, 10500, 10501],
        log: "10500 !first : no line\n10501 !first : no line\n10501 >first : result 0-1 {White forfeits on time}\n10501 >first : quit\n10501 >second: result 0-1 {White forfeits on time}\n10501 >second: quit\n",
    },
    // The line comes after all.
    Silence {
        after: 0,
        silences: 1,
        white: "resign\n",
        moments: &[0, 0, 0, 0, 500, 700, 900],
        log: "700 !first : no line\n900 <first : resign\n900 >first : result 0-1 {White resigns}\n900 >first : quit\n900 >second: result 0-1 {White resigns}\n900 >second: quit\n",
    },
    // After the move, whose `pong` may take two seconds from there.
    Silence {
        after: 10,
        silences: 2,
        white: "move e2e4\n",
        moments: &[0, 0, 0, 0, 500, 600, 2600, 2601],
        log: "600 <first : move e2e4\n600 >first : ping 2\n2600 !first : no line\n2601 !first : no line\n2601 >first : result * {White did not answer}\n2601 >first : quit\n2601 >second: e2e4\n2601 >second: result * {White did not answer}\n2601 >second: quit\n",
    },
    // A line that is ignored gives no further time.
    Silence {
        after: 12,
        silences: 1,
        white: "move e2e4\nx\n",
        moments: &[0, 0, 0, 0, 500, 600, 2000, 2601],
        log: "600 <first : move e2e4\n600 >first : ping 2\n2000 <first : x\n2601 !first : no line\n2601 >first : result * {White did not answer}\n2601 >first : quit\n2601 >second: e2e4\n2601 >second: result * {White did not answer}\n2601 >second: quit\n",
    },
];

// Plays the match of a row, and asserts what its log has after the handshake.
fn is_silence_logged(rt: &impl Abort, alloc: Global, silence: &Silence) -> Result<(), Fail> {
    let mut input = MatchInput::of(b"", b"");
    input.silent_after = HANDSHAKE.len().saturating_add(silence.after);
    input.silences = silence.silences;
    input.moments = silence.moments;
    let logged = play_after(rt, alloc, silence.white.as_bytes(), b"", &input)?;
    is_log(rt, alloc, logged.log.as_slice(), silence.log)
}

// Plays each row.
#[test]
fn silences_are_logged(rt: HostRuntime) -> Result<(), Fail> {
    for silence in &SILENCES {
        is_silence_logged(&rt, rt.alloc(), silence)?;
    }
    Ok(())
}

// The log of the match below after the handshake: the long line is noted but not shown.
const TOO_LONG: &str =
    "0 !first : line too long\n0 <first : resign\n0 >first : result 0-1 {White resigns}\n0 >first : quit\n0 >second: result 0-1 {White resigns}\n0 >second: quit\n";

// White sends a line of 8,193 bytes, which is too long, and then resigns.
#[test]
fn a_line_that_is_too_long(rt: HostRuntime) -> Result<(), Fail> {
    let mut white = Vec::new(rt.alloc());
    for _ in 0..8_193 {
        white.push(b'x')?;
    }
    white.extend_from_slice(b"\nresign\n")?;
    let logged = play_after(
        &rt,
        rt.alloc(),
        white.as_slice(),
        b"",
        &MatchInput::of(b"", b""),
    )?;
    is_log(&rt, rt.alloc(), logged.log.as_slice(), TOO_LONG)
}

// The log of a flood: the 10,000 lines that White may send in its turn, and then the end.
fn flooded(alloc: Global) -> Result<Vec<u8>, Fail> {
    let mut log = joined(alloc, &[HANDSHAKE_LOG.as_bytes()])?;
    for _ in 0..10_000 {
        log.extend_from_slice(b"0 <first : x\n")?;
    }
    log.extend_from_slice(
        b"0 >first : result * {White sent too many lines}\n0 >first : quit\n0 >second: result * {White sent too many lines}\n0 >second: quit\n",
    )?;
    Ok(log)
}

// White sends one line more than that.
#[test]
fn a_flood_is_logged(rt: HostRuntime) -> Result<(), Fail> {
    let mut white = Vec::new(rt.alloc());
    for _ in 0..10_001 {
        white.extend_from_slice(b"x\n")?;
    }
    let logged = play_after(
        &rt,
        rt.alloc(),
        white.as_slice(),
        b"",
        &MatchInput::of(b"", b""),
    )?;
    is_equal(
        &rt,
        &logged.log.as_slice(),
        &flooded(rt.alloc())?.as_slice(),
    );
    Ok(())
}

// The first read from White fails: a line of the log says so, and the match ends.
#[test]
fn a_failed_read_is_logged(rt: HostRuntime) -> Result<(), Fail> {
    let mut input = MatchInput::of(WHITE, BLACK);
    input.white_read = 1;
    let logged = play(&rt, rt.alloc(), &input)?;
    is_equal(&rt, &logged.fault, &Some((Colour::White, MatchFault::Read)));
    is_text(
        &rt,
        logged.log.as_slice(),
        "0 >first : xboard\n0 >first : protover 2\n0 !first : read failed\n0 >first : result * {White can not be read}\n0 >first : quit\n0 >second: result * {White can not be read}\n0 >second: quit\n",
    )
}

// Where the call numbered `log_write` of the log's output fails, the log stops short of its whole; the match is played
// as without the failure.
fn is_beginning(rt: &impl Abort, alloc: Global, log_write: u64) -> Result<(), Fail> {
    let mut input = MatchInput::of(WHITE, BLACK);
    input.moments = EACH_10;
    let whole = play(rt, alloc, &input)?;
    input.log_write = log_write;
    let broken = play(rt, alloc, &input)?;
    assert!(rt; FOOLS_MATE.as_bytes().starts_with(broken.log.as_slice()));
    assert!(rt; broken.log.len() < FOOLS_MATE.len());
    is_equal(rt, &broken.fault, &whole.fault);
    is_equal(rt, &broken.to_white.as_slice(), &whole.to_white.as_slice());
    is_equal(rt, &broken.to_black.as_slice(), &whole.to_black.as_slice());
    Ok(())
}

// Lets calls near the beginning, in the middle and at the end fail.
#[test]
fn logs_that_break_off(rt: HostRuntime) -> Result<(), Fail> {
    for log_write in [1, 2, 3, 10, 20, 41, 42, 43] {
        is_beginning(&rt, rt.alloc(), log_write)?;
    }
    Ok(())
}

// The first write to Black fails. The line that says so comes after the block that was to be written, and White is sent
// the end lines.
#[test]
fn a_failed_write_is_logged(rt: HostRuntime) -> Result<(), Fail> {
    let mut input = MatchInput::of(WHITE, BLACK);
    input.black_write = 1;
    let logged = play(&rt, rt.alloc(), &input)?;
    is_equal(
        &rt,
        &logged.fault,
        &Some((Colour::Black, MatchFault::Write)),
    );
    is_text(
        &rt,
        logged.log.as_slice(),
        "0 >first : xboard\n0 >first : protover 2\n0 <first : feature ping=1 usermove=1 done=1\n0 >first : accepted ping\n0 >first : accepted usermove\n0 >first : accepted done\n0 >second: xboard\n0 >second: protover 2\n0 !second: write failed\n0 >first : result * {Black can not be written}\n0 >first : quit\n",
    )
}
