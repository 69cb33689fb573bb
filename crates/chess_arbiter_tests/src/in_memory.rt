//! Matches of the whole program over memory. What the engines say and what the clock shows is given; all that is then
//! written, logged and sent is compared.

use crate::runs::{is_equal, is_text};
use byte_devices::{Counted, PieceReader, PieceWriter};
use chess_arbiter::{Log, run_program};
use match_runner::{MemoryEngine, MemoryGame, MemoryHost};
use std::alloc::Global;
use std::process::Abort;
use std::test::Fail;

/// A match between the engines with the commands `A` and `B`. What each says, one text for each of its games; whether
/// `B` falls silent after that, instead of ending its output; the moments that the clock shows, one for each time it is
/// read (then the last one again, and 0 if there is none); and the arguments after `match --white A --black B --log`.
/// Then what comes of it: the output, the log and the status.
struct MatchRun {
    a_says: &'static [&'static [u8]],
    b_says: &'static [&'static [u8]],
    b_falls_silent: bool,
    moments: &'static [u64],
    others: &'static [&'static str],
    output: &'static str,
    log: &'static [&'static str],
    status: u8,
}

/// What the program wrote, and its status.
#[derive(Drop)]
struct Outcome {
    output: Vec<u8>,
    errors: Vec<u8>,
    status: u8,
}

// Runs `match` with this host, and gives what it wrote. (The big contract of `run_program` stays in here: tests compare
// values.)
fn run_with(
    host: &mut MemoryHost<'_>,
    alloc: Global,
    others: &[&'static str],
) -> Result<Outcome, Fail> {
    let mut arguments = Vec::new(alloc);
    for argument in ["match", "--white", "A", "--black", "B", "--log"] {
        arguments.push(argument)?;
    }
    for argument in others {
        arguments.push(*argument)?;
    }
    // A match doesn't read the input, so its failure is not met.
    let mut input = Counted::reading(PieceReader::new(b"x", 1, 1));
    let mut output = Counted::writing(PieceWriter::new(alloc, 1024, 0));
    let mut log = Log::new(Counted::writing(PieceWriter::new(alloc, 1024, 0)));
    let status = run_program(
        host,
        alloc,
        arguments.as_slice(),
        &mut input,
        &mut output,
        &mut log,
    );
    Ok(Outcome {
        output: output.into_writer().bytes,
        errors: log.into_output().into_writer().bytes,
        status,
    })
}

// These texts, one after another.
fn joined(alloc: Global, parts: &[&'static str]) -> Result<Vec<u8>, Fail> {
    let mut text = Vec::new(alloc);
    for part in parts {
        text.extend_from_slice(part.as_bytes())?;
    }
    Ok(text)
}

// Asserts that the row's output, log and status came of a match.
fn is_outcome(
    rt: &impl Abort,
    alloc: Global,
    outcome: &Outcome,
    played: &MatchRun,
) -> Result<(), Fail> {
    is_text(rt, outcome.output.as_slice(), played.output)?;
    let log = joined(alloc, played.log)?;
    is_text(
        rt,
        outcome.errors.as_slice(),
        std::str::from_utf8(log.as_slice())?,
    )?;
    is_equal(rt, &outcome.status, &played.status);
    Ok(())
}

/// What the engines of a game were sent.
struct Sent {
    white: &'static str,
    black: &'static str,
}

// Asserts that the engines of a game were sent this.
fn is_sent(rt: &impl Abort, game: &MemoryGame<'_>, sent: &Sent) -> Result<(), Fail> {
    is_text(rt, game.sent.white.as_slice(), sent.white)?;
    is_text(rt, game.sent.black.as_slice(), sent.black)
}

// Asserts that just these games were played, and that their engines were sent this.
fn are_sent(rt: &impl Abort, games: &[MemoryGame<'_>], sent: &[Sent]) -> Result<(), Fail> {
    is_equal(rt, &games.len(), &sent.len());
    for (game, texts) in games.iter().zip(sent) {
        is_sent(rt, game, texts)?;
    }
    Ok(())
}

// Plays a match, and asserts what comes of it.
fn play_out(rt: &impl Abort, alloc: Global, played: &MatchRun, sent: &[Sent]) -> Result<(), Fail> {
    let engines = [
        MemoryEngine {
            command: "A",
            outputs: played.a_says,
            falls_silent: false,
        },
        MemoryEngine {
            command: "B",
            outputs: played.b_says,
            falls_silent: played.b_falls_silent,
        },
    ];
    let mut host = MemoryHost::new(alloc, &engines, played.moments);
    let outcome = run_with(&mut host, alloc, played.others)?;
    is_outcome(rt, alloc, &outcome, played)?;
    are_sent(rt, host.games(), sent)
}

// Two games by fool's mate, which differ in White's first move. `A` names itself, and wants `usermove`.
const TWO_GAMES: MatchRun = MatchRun {
    a_says: &[
        b"feature ping=1 usermove=1 myname=\"Anna\" done=1\npong 1\nmove f2f3\npong 2\nmove g2g4\npong 3\n",
        b"feature ping=1 usermove=1 myname=\"Anna\" done=1\npong 1\nmove e7e5\npong 2\nmove d8h4\n",
    ],
    b_says: &[
        b"feature ping=1 done=1\npong 1\nmove e7e5\npong 2\nmove d8h4\n",
        b"feature ping=1 done=1\npong 1\nmove f2f4\npong 2\nmove g2g4\npong 3\n",
    ],
    b_falls_silent: false,
    // Of each game: both `feature` lines, both `pong 1`, and then for each turn its opening, the move and its `pong`.
    moments: &[
        5, 10, 15, 20, // both engines are ready
        20, 1020, 1021, // f2f3 took a second
        1021, 1521, 1522, // e7e5 half a second
        1522, 3022, 3023, // g2g4 one and a half
        3023, 3123, // d8h4
        4000, 4001, 4002, 4003, // the second game
        4003, 4103, 4104, // f2f4 took a tenth of a second
        4104, 4304, 4305, // e7e5 two tenths
        4305, 4335, 4336, // g2g4 three hundredths
        4336, 4346, // d8h4
    ],
    others: &["--games", "2"],
    output: "[Event \"CECP match\"]\n[Site \"?\"]\n[Date \"????.??.??\"]\n[Round \"1\"]\n[White \"Anna\"]\n[Black \"B\"]\n[Result \"0-1\"]\n[Termination \"normal\"]\n\n1. f3 e5 2. g4 Qh4# 0-1\n\n[Event \"CECP match\"]\n[Site \"?\"]\n[Date \"????.??.??\"]\n[Round \"2\"]\n[White \"B\"]\n[Black \"Anna\"]\n[Result \"0-1\"]\n[Termination \"normal\"]\n\n1. f4 e5 2. g4 Qh4# 0-1\n\nscore first 1 second 1 drawn 0 unfinished 0\n",
    log: &[
        // The first game: the first engine, `A`, has White.
        "0 >first : xboard\n0 >first : protover 2\n",
        "5 <first : feature ping=1 usermove=1 myname=\"Anna\" done=1\n",
        "5 >first : accepted ping\n5 >first : accepted usermove\n5 >first : accepted myname\n5 >first : accepted done\n",
        "5 >second: xboard\n5 >second: protover 2\n",
        "10 <second: feature ping=1 done=1\n",
        "10 >second: accepted ping\n10 >second: accepted done\n",
        "10 >first : new\n10 >first : level 40 5 0\n10 >first : nopost\n10 >first : easy\n10 >first : force\n10 >first : ping 1\n",
        "15 <first : pong 1\n",
        "15 >second: new\n15 >second: level 40 5 0\n15 >second: nopost\n15 >second: easy\n15 >second: force\n15 >second: ping 1\n",
        "20 <second: pong 1\n",
        "20 >first : time 30000\n20 >first : otim 30000\n20 >first : go\n",
        "1020 <first : move f2f3\n1020 >first : ping 2\n1021 <first : pong 2\n",
        "1021 >second: f2f3\n1021 >second: time 30000\n1021 >second: otim 29900\n1021 >second: go\n",
        "1521 <second: move e7e5\n1521 >second: ping 2\n1522 <second: pong 2\n",
        "1522 >first : time 29900\n1522 >first : otim 29950\n1522 >first : usermove e7e5\n",
        "3022 <first : move g2g4\n3022 >first : ping 3\n3023 <first : pong 3\n",
        "3023 >second: time 29950\n3023 >second: otim 29750\n3023 >second: g2g4\n",
        "3123 <second: move d8h4\n",
        "3123 >first : usermove d8h4\n3123 >first : result 0-1 {Black mates}\n3123 >first : quit\n",
        "3123 >second: result 0-1 {Black mates}\n3123 >second: quit\n",
        // The second game: the second engine, `B`, has White. Its clock has not been read before its first lines.
        "0 >second: xboard\n0 >second: protover 2\n",
        "4000 <second: feature ping=1 done=1\n",
        "4000 >second: accepted ping\n4000 >second: accepted done\n",
        "4000 >first : xboard\n4000 >first : protover 2\n",
        "4001 <first : feature ping=1 usermove=1 myname=\"Anna\" done=1\n",
        "4001 >first : accepted ping\n4001 >first : accepted usermove\n4001 >first : accepted myname\n4001 >first : accepted done\n",
        "4001 >second: new\n4001 >second: level 40 5 0\n4001 >second: nopost\n4001 >second: easy\n4001 >second: force\n4001 >second: ping 1\n",
        "4002 <second: pong 1\n",
        "4002 >first : new\n4002 >first : level 40 5 0\n4002 >first : nopost\n4002 >first : easy\n4002 >first : force\n4002 >first : ping 1\n",
        "4003 <first : pong 1\n",
        "4003 >second: time 30000\n4003 >second: otim 30000\n4003 >second: go\n",
        "4103 <second: move f2f4\n4103 >second: ping 2\n4104 <second: pong 2\n",
        "4104 >first : usermove f2f4\n4104 >first : time 30000\n4104 >first : otim 29990\n4104 >first : go\n",
        "4304 <first : move e7e5\n4304 >first : ping 2\n4305 <first : pong 2\n",
        "4305 >second: time 29990\n4305 >second: otim 29980\n4305 >second: e7e5\n",
        "4335 <second: move g2g4\n4335 >second: ping 3\n4336 <second: pong 3\n",
        "4336 >first : time 29980\n4336 >first : otim 29987\n4336 >first : usermove g2g4\n",
        "4346 <first : move d8h4\n",
        "4346 >second: d8h4\n4346 >second: result 0-1 {Black mates}\n4346 >second: quit\n",
        "4346 >first : result 0-1 {Black mates}\n4346 >first : quit\n",
    ],
    status: 0,
};

// What the engines are sent in them.
const TWO_GAMES_SENT: [Sent; 2] = [
    Sent {
        white: "xboard\nprotover 2\naccepted ping\naccepted usermove\naccepted myname\naccepted done\nnew\nlevel 40 5 0\nnopost\neasy\nforce\nping 1\ntime 30000\notim 30000\ngo\nping 2\ntime 29900\notim 29950\nusermove e7e5\nping 3\nusermove d8h4\nresult 0-1 {Black mates}\nquit\n",
        black: "xboard\nprotover 2\naccepted ping\naccepted done\nnew\nlevel 40 5 0\nnopost\neasy\nforce\nping 1\nf2f3\ntime 30000\notim 29900\ngo\nping 2\ntime 29950\notim 29750\ng2g4\nresult 0-1 {Black mates}\nquit\n",
    },
    Sent {
        white: "xboard\nprotover 2\naccepted ping\naccepted done\nnew\nlevel 40 5 0\nnopost\neasy\nforce\nping 1\ntime 30000\notim 30000\ngo\nping 2\ntime 29990\notim 29980\ne7e5\nping 3\nd8h4\nresult 0-1 {Black mates}\nquit\n",
        black: "xboard\nprotover 2\naccepted ping\naccepted usermove\naccepted myname\naccepted done\nnew\nlevel 40 5 0\nnopost\neasy\nforce\nping 1\nusermove f2f4\ntime 30000\notim 29990\ngo\nping 2\ntime 29980\notim 29987\nusermove g2g4\nresult 0-1 {Black mates}\nquit\n",
    },
];

// Plays these two games.
#[test]
fn two_games(rt: HostRuntime) -> Result<(), Fail> {
    play_out(&rt, rt.alloc(), &TWO_GAMES, &TWO_GAMES_SENT)
}

// What an engine of the matches below says first.
const READY: &[u8] = b"feature ping=1 done=1\npong 1\n";

// What both are sent up to White's first turn, at the level `0 0:10 0`, and the log of it at moment 0.
const SETUP_LOG: &str =
    "0 >first : xboard\n0 >first : protover 2\n0 <first : feature ping=1 done=1\n0 >first : accepted ping\n0 >first : accepted done\n0 >second: xboard\n0 >second: protover 2\n0 <second: feature ping=1 done=1\n0 >second: accepted ping\n0 >second: accepted done\n0 >first : new\n0 >first : level 0 0:10 0\n0 >first : nopost\n0 >first : easy\n0 >first : force\n0 >first : ping 1\n0 <first : pong 1\n0 >second: new\n0 >second: level 0 0:10 0\n0 >second: nopost\n0 >second: easy\n0 >second: force\n0 >second: ping 1\n0 <second: pong 1\n0 >first : time 1000\n0 >first : otim 1000\n0 >first : go\n";

// The log of White's f2f3, and of the opening of Black's first turn.
const F3_LOG: &str =
    "0 <first : move f2f3\n0 >first : ping 2\n0 <first : pong 2\n0 >second: f2f3\n0 >second: time 1000\n0 >second: otim 1000\n0 >second: go\n";

// What `A` says if its first move is illegal.
const ILLEGAL: &[u8] = b"feature ping=1 done=1\npong 1\nmove e2e5\n";

// White's move is illegal: White loses, and that is no fault.
const ILLEGAL_MOVE: MatchRun = MatchRun {
    a_says: &[ILLEGAL],
    b_says: &[READY],
    b_falls_silent: false,
    moments: &[],
    others: &["--level", "0 0:10 0"],
    output: "[Event \"CECP match\"]\n[Site \"?\"]\n[Date \"????.??.??\"]\n[Round \"1\"]\n[White \"A\"]\n[Black \"B\"]\n[Result \"0-1\"]\n[Termination \"rules infraction\"]\n\n0-1\n\nscore first 0 second 1 drawn 0 unfinished 0\n",
    log: &[
        SETUP_LOG,
        "0 <first : move e2e5\n",
        "0 >first : result 0-1 {White makes an illegal move}\n0 >first : quit\n",
        "0 >second: result 0-1 {White makes an illegal move}\n0 >second: quit\n",
    ],
    status: 0,
};

// What the engines are sent in it.
const ILLEGAL_MOVE_SENT: [Sent; 1] = [Sent {
    white: "xboard\nprotover 2\naccepted ping\naccepted done\nnew\nlevel 0 0:10 0\nnopost\neasy\nforce\nping 1\ntime 1000\notim 1000\ngo\nresult 0-1 {White makes an illegal move}\nquit\n",
    black: "xboard\nprotover 2\naccepted ping\naccepted done\nnew\nlevel 0 0:10 0\nnopost\neasy\nforce\nping 1\nresult 0-1 {White makes an illegal move}\nquit\n",
}];

// Plays this match.
#[test]
fn an_illegal_move(rt: HostRuntime) -> Result<(), Fail> {
    play_out(&rt, rt.alloc(), &ILLEGAL_MOVE, &ILLEGAL_MOVE_SENT)
}

// The output of the two matches below, in which Black loses on time at its first move: the PGN and the score.
const TIME_FORFEIT: &str =
    "[Event \"CECP match\"]\n[Site \"?\"]\n[Date \"????.??.??\"]\n[Round \"1\"]\n[White \"A\"]\n[Black \"B\"]\n[Result \"1-0\"]\n[Termination \"time forfeit\"]\n\n1. f3 1-0\n\nscore first 1 second 0 drawn 0 unfinished 0\n";

// Black's turn begins at 500 with ten seconds left, and its move comes at 10,501: a millisecond too late.
const LATE_MOVE: MatchRun = MatchRun {
    a_says: &[b"feature ping=1 done=1\npong 1\nmove f2f3\npong 2\n"],
    b_says: &[b"feature ping=1 done=1\npong 1\nmove e7e5\n"],
    b_falls_silent: false,
    moments: &[0, 0, 0, 0, 0, 0, 0, 500, 10501],
    others: &["--level", "0 0:10 0"],
    output: TIME_FORFEIT,
    log: &[
        SETUP_LOG,
        F3_LOG,
        "10501 <second: move e7e5\n",
        "10501 >first : result 1-0 {Black forfeits on time}\n10501 >first : quit\n",
        "10501 >second: result 1-0 {Black forfeits on time}\n10501 >second: quit\n",
    ],
    status: 0,
};

// What the engines are sent in it, and in the match after it.
const FLAG_SENT: [Sent; 1] = [Sent {
    white: "xboard\nprotover 2\naccepted ping\naccepted done\nnew\nlevel 0 0:10 0\nnopost\neasy\nforce\nping 1\ntime 1000\notim 1000\ngo\nping 2\nresult 1-0 {Black forfeits on time}\nquit\n",
    black: "xboard\nprotover 2\naccepted ping\naccepted done\nnew\nlevel 0 0:10 0\nnopost\neasy\nforce\nping 1\nf2f3\ntime 1000\notim 1000\ngo\nresult 1-0 {Black forfeits on time}\nquit\n",
}];

// Plays this match.
#[test]
fn a_late_move(rt: HostRuntime) -> Result<(), Fail> {
    play_out(&rt, rt.alloc(), &LATE_MOVE, &FLAG_SENT)
}

// Black says nothing on its turn. With `--flag` it loses at the first look at the clock that shows more than ten
// seconds after 500: not at 10,500, but at 10,501.
const SILENCE: MatchRun = MatchRun {
    a_says: &[b"feature ping=1 done=1\npong 1\nmove f2f3\npong 2\n"],
    b_says: &[READY],
    b_falls_silent: true,
    moments: &[0, 0, 0, 0, 0, 0, 0, 500, 10500, 10501],
    others: &["--level", "0 0:10 0", "--flag"],
    output: TIME_FORFEIT,
    log: &[
        SETUP_LOG,
        F3_LOG,
        "10500 !second: no line\n10501 !second: no line\n",
        "10501 >first : result 1-0 {Black forfeits on time}\n10501 >first : quit\n",
        "10501 >second: result 1-0 {Black forfeits on time}\n10501 >second: quit\n",
    ],
    status: 0,
};

// Plays this match.
#[test]
fn a_silence(rt: HostRuntime) -> Result<(), Fail> {
    play_out(&rt, rt.alloc(), &SILENCE, &FLAG_SENT)
}

// White's output ends in the middle of a line: a fault, after which the second game isn't played.
const OUTPUT_ENDS: MatchRun = MatchRun {
    a_says: &[b"feature ping=1 done=1\npong 1\nmov", READY],
    b_says: &[READY, READY],
    b_falls_silent: false,
    moments: &[],
    others: &["--level", "0 0:10 0", "--games", "2"],
    output: "[Event \"CECP match\"]\n[Site \"?\"]\n[Date \"????.??.??\"]\n[Round \"1\"]\n[White \"A\"]\n[Black \"B\"]\n[Result \"*\"]\n[Termination \"unterminated\"]\n\n*\n\nscore first 0 second 0 drawn 0 unfinished 1\n",
    log: &[
        SETUP_LOG,
        "0 !first : output ended\n",
        "0 >first : result * {White ended its output}\n0 >first : quit\n",
        "0 >second: result * {White ended its output}\n0 >second: quit\n",
        "arbiter: game 1: White ended its output\n",
    ],
    status: 1,
};

// What the engines are sent in it.
const OUTPUT_ENDS_SENT: [Sent; 1] = [Sent {
    white: "xboard\nprotover 2\naccepted ping\naccepted done\nnew\nlevel 0 0:10 0\nnopost\neasy\nforce\nping 1\ntime 1000\notim 1000\ngo\nresult * {White ended its output}\nquit\n",
    black: "xboard\nprotover 2\naccepted ping\naccepted done\nnew\nlevel 0 0:10 0\nnopost\neasy\nforce\nping 1\nresult * {White ended its output}\nquit\n",
}];

// Plays this match.
#[test]
fn an_output_ends(rt: HostRuntime) -> Result<(), Fail> {
    play_out(&rt, rt.alloc(), &OUTPUT_ENDS, &OUTPUT_ENDS_SENT)
}

// Black's engine can't be started: no game is played, and no score written.
const NO_ENGINE: MatchRun = MatchRun {
    a_says: &[READY],
    b_says: &[],
    b_falls_silent: false,
    moments: &[],
    others: &[],
    output: "",
    log: &["arbiter: can not start B\n"],
    status: 1,
};

// Starts this match: there is no game whose engines are sent anything.
#[test]
fn no_engine(rt: HostRuntime) -> Result<(), Fail> {
    play_out(&rt, rt.alloc(), &NO_ENGINE, &[])
}

// `A`, which has Black in the second game, can't be started for it: the first game is written, but no score.
const NO_SECOND_GAME: MatchRun = MatchRun {
    a_says: &[ILLEGAL],
    b_says: &[READY, READY],
    b_falls_silent: false,
    moments: &[],
    others: &["--level", "0 0:10 0", "--games", "2"],
    output: "[Event \"CECP match\"]\n[Site \"?\"]\n[Date \"????.??.??\"]\n[Round \"1\"]\n[White \"A\"]\n[Black \"B\"]\n[Result \"0-1\"]\n[Termination \"rules infraction\"]\n\n0-1\n\n",
    log: &[
        SETUP_LOG,
        "0 <first : move e2e5\n",
        "0 >first : result 0-1 {White makes an illegal move}\n0 >first : quit\n",
        "0 >second: result 0-1 {White makes an illegal move}\n0 >second: quit\n",
        "arbiter: can not start A\n",
    ],
    status: 1,
};

// Plays this match, whose only game is that of the illegal move above.
#[test]
fn no_second_game(rt: HostRuntime) -> Result<(), Fail> {
    play_out(&rt, rt.alloc(), &NO_SECOND_GAME, &ILLEGAL_MOVE_SENT)
}

// What each engine says in the match below: its knight goes out and back, twice.
const A_KNIGHT: &[u8] =
    b"feature ping=1 done=1\npong 1\nmove g1f3\npong 2\nmove f3g1\npong 3\nmove g1f3\npong 4\nmove f3g1\npong 5\n";

const B_KNIGHT: &[u8] =
    b"feature ping=1 done=1\npong 1\nmove g8f6\npong 2\nmove f6g8\npong 3\nmove g8f6\npong 4\nmove f6g8\n";

// The log of all their moves: each move, its `ping` and `pong`, and the lines that then pass the move and the times to
// the other engine.
const KNIGHTS_LOG: &str =
    "0 <first : move g1f3\n0 >first : ping 2\n0 <first : pong 2\n0 >second: g1f3\n0 >second: time 1000\n0 >second: otim 1000\n0 >second: go\n0 <second: move g8f6\n0 >second: ping 2\n0 <second: pong 2\n0 >first : time 1000\n0 >first : otim 1000\n0 >first : g8f6\n0 <first : move f3g1\n0 >first : ping 3\n0 <first : pong 3\n0 >second: time 1000\n0 >second: otim 1000\n0 >second: f3g1\n0 <second: move f6g8\n0 >second: ping 3\n0 <second: pong 3\n0 >first : time 1000\n0 >first : otim 1000\n0 >first : f6g8\n0 <first : move g1f3\n0 >first : ping 4\n0 <first : pong 4\n0 >second: time 1000\n0 >second: otim 1000\n0 >second: g1f3\n0 <second: move g8f6\n0 >second: ping 4\n0 <second: pong 4\n0 >first : time 1000\n0 >first : otim 1000\n0 >first : g8f6\n0 <first : move f3g1\n0 >first : ping 5\n0 <first : pong 5\n0 >second: time 1000\n0 >second: otim 1000\n0 >second: f3g1\n";

// With `--draws automatic` the game ends when its initial position is there for the third time.
const AUTOMATIC_DRAW: MatchRun = MatchRun {
    a_says: &[A_KNIGHT],
    b_says: &[B_KNIGHT],
    b_falls_silent: false,
    moments: &[],
    others: &["--level", "0 0:10 0", "--draws", "automatic"],
    output: "[Event \"CECP match\"]\n[Site \"?\"]\n[Date \"????.??.??\"]\n[Round \"1\"]\n[White \"A\"]\n[Black \"B\"]\n[Result \"1/2-1/2\"]\n[Termination \"normal\"]\n\n1. Nf3 Nf6 2. Ng1 Ng8 3. Nf3 Nf6 4. Ng1 Ng8 1/2-1/2\n\nscore first 0 second 0 drawn 1 unfinished 0\n",
    log: &[
        SETUP_LOG,
        KNIGHTS_LOG,
        "0 <second: move f6g8\n",
        "0 >first : f6g8\n0 >first : result 1/2-1/2 {Threefold repetition}\n0 >first : quit\n",
        "0 >second: result 1/2-1/2 {Threefold repetition}\n0 >second: quit\n",
    ],
    status: 0,
};

// What the engines are sent in it.
const AUTOMATIC_DRAW_SENT: [Sent; 1] = [Sent {
    white: "xboard\nprotover 2\naccepted ping\naccepted done\nnew\nlevel 0 0:10 0\nnopost\neasy\nforce\nping 1\ntime 1000\notim 1000\ngo\nping 2\ntime 1000\notim 1000\ng8f6\nping 3\ntime 1000\notim 1000\nf6g8\nping 4\ntime 1000\notim 1000\ng8f6\nping 5\nf6g8\nresult 1/2-1/2 {Threefold repetition}\nquit\n",
    black: "xboard\nprotover 2\naccepted ping\naccepted done\nnew\nlevel 0 0:10 0\nnopost\neasy\nforce\nping 1\ng1f3\ntime 1000\notim 1000\ngo\nping 2\ntime 1000\notim 1000\nf3g1\nping 3\ntime 1000\notim 1000\ng1f3\nping 4\ntime 1000\notim 1000\nf3g1\nresult 1/2-1/2 {Threefold repetition}\nquit\n",
}];

// Plays this match.
#[test]
fn an_automatic_draw(rt: HostRuntime) -> Result<(), Fail> {
    play_out(&rt, rt.alloc(), &AUTOMATIC_DRAW, &AUTOMATIC_DRAW_SENT)
}

// Two games, in each of which White loses by an illegal move. Each engine has its own level in both, whichever side it
// has.
const OWN_LEVELS: MatchRun = MatchRun {
    a_says: &[ILLEGAL, READY],
    b_says: &[READY, ILLEGAL],
    b_falls_silent: false,
    moments: &[],
    others: &[
        "--white-level",
        "0 0:10 0",
        "--level",
        "9 1 0.5",
        "--games",
        "2",
    ],
    output: "[Event \"CECP match\"]\n[Site \"?\"]\n[Date \"????.??.??\"]\n[Round \"1\"]\n[White \"A\"]\n[Black \"B\"]\n[Result \"0-1\"]\n[Termination \"rules infraction\"]\n\n0-1\n\n[Event \"CECP match\"]\n[Site \"?\"]\n[Date \"????.??.??\"]\n[Round \"2\"]\n[White \"B\"]\n[Black \"A\"]\n[Result \"0-1\"]\n[Termination \"rules infraction\"]\n\n0-1\n\nscore first 1 second 1 drawn 0 unfinished 0\n",
    log: &[
        "0 >first : xboard\n0 >first : protover 2\n0 <first : feature ping=1 done=1\n0 >first : accepted ping\n0 >first : accepted done\n0 >second: xboard\n0 >second: protover 2\n0 <second: feature ping=1 done=1\n0 >second: accepted ping\n0 >second: accepted done\n0 >first : new\n0 >first : level 0 0:10 0\n0 >first : nopost\n0 >first : easy\n0 >first : force\n0 >first : ping 1\n0 <first : pong 1\n0 >second: new\n0 >second: level 9 1 0.5\n0 >second: nopost\n0 >second: easy\n0 >second: force\n0 >second: ping 1\n0 <second: pong 1\n0 >first : time 1000\n0 >first : otim 6000\n0 >first : go\n",
        "0 <first : move e2e5\n",
        "0 >first : result 0-1 {White makes an illegal move}\n0 >first : quit\n",
        "0 >second: result 0-1 {White makes an illegal move}\n0 >second: quit\n",
        "0 >second: xboard\n0 >second: protover 2\n0 <second: feature ping=1 done=1\n0 >second: accepted ping\n0 >second: accepted done\n0 >first : xboard\n0 >first : protover 2\n0 <first : feature ping=1 done=1\n0 >first : accepted ping\n0 >first : accepted done\n0 >second: new\n0 >second: level 9 1 0.5\n0 >second: nopost\n0 >second: easy\n0 >second: force\n0 >second: ping 1\n0 <second: pong 1\n0 >first : new\n0 >first : level 0 0:10 0\n0 >first : nopost\n0 >first : easy\n0 >first : force\n0 >first : ping 1\n0 <first : pong 1\n0 >second: time 6000\n0 >second: otim 1000\n0 >second: go\n",
        "0 <second: move e2e5\n",
        "0 >second: result 0-1 {White makes an illegal move}\n0 >second: quit\n",
        "0 >first : result 0-1 {White makes an illegal move}\n0 >first : quit\n",
    ],
    status: 0,
};

// What the engines are sent in them.
const OWN_LEVELS_SENT: [Sent; 2] = [
    Sent {
        white: "xboard\nprotover 2\naccepted ping\naccepted done\nnew\nlevel 0 0:10 0\nnopost\neasy\nforce\nping 1\ntime 1000\notim 6000\ngo\nresult 0-1 {White makes an illegal move}\nquit\n",
        black: "xboard\nprotover 2\naccepted ping\naccepted done\nnew\nlevel 9 1 0.5\nnopost\neasy\nforce\nping 1\nresult 0-1 {White makes an illegal move}\nquit\n",
    },
    Sent {
        white: "xboard\nprotover 2\naccepted ping\naccepted done\nnew\nlevel 9 1 0.5\nnopost\neasy\nforce\nping 1\ntime 6000\notim 1000\ngo\nresult 0-1 {White makes an illegal move}\nquit\n",
        black: "xboard\nprotover 2\naccepted ping\naccepted done\nnew\nlevel 0 0:10 0\nnopost\neasy\nforce\nping 1\nresult 0-1 {White makes an illegal move}\nquit\n",
    },
];

// Plays these two games.
#[test]
fn engines_keep_their_levels(rt: HostRuntime) -> Result<(), Fail> {
    play_out(&rt, rt.alloc(), &OWN_LEVELS, &OWN_LEVELS_SENT)
}
