//! Matches between engines that run as processes, which are mostly this program itself, as a stub.

use crate::runs::{Devices, Outcome, ProgramRun, SOUND, Wanted, is_equal, is_text, run};
use byte_devices::Counted;
use chess_arbiter::{Log, ProcessHost, SinceStart, run_program};
use chess_match::Moments;
use std::alloc::Global;
use std::process::Abort;
use std::test::Fail;
use std::{env, fs};

// The engine of the tests below: they start this test program with the name of this test, and with the arguments that
// it hands to the arbiter program. Among the other tests it runs too, with no arguments.
#[test]
fn acts_as_the_program(rt: HostRuntime) -> Result<(), Fail> {
    let owned = env::args(&rt)?.skip(2).collect::<Vec<String>>(rt.alloc())?;
    let mut arguments = Vec::new(rt.alloc());
    for argument in &owned {
        arguments.push(argument.as_str())?;
    }
    let _status = run_program(
        &mut ProcessHost::new(&rt, rt.alloc()),
        rt.alloc(),
        arguments.as_slice(),
        &mut Counted::reading(rt.stdin()),
        &mut Counted::writing(rt.stdout()),
        &mut Log::new(Counted::writing(rt.stderr())),
    );
    Ok(())
}

// The command of an engine: the program as a stub that plays these arguments, such as `f2f3 g2g4`.
fn stub(rt: &HostRuntime, arguments: &str) -> Result<String, Fail> {
    let program = env::args(rt)?.next().ok_or("the program's name")?;
    Ok(format!(in rt.alloc(); "{program} engines::acts_as_the_program stub {arguments}")?)
}

/// A match over processes: the arguments of both stubs, the other arguments, what is written, reported and answered.
struct Played {
    white: &'static str,
    black: &'static str,
    others: &'static [&'static str],
    output: &'static str,
    errors: &'static str,
    status: u8,
}

// Matches that end by mate, by a fault and by other ends, in one game or several, and in both variants.
const PLAYED: [Played; 7] = [
    Played {
        white: "f2f3 g2g4",
        black: "e7e5 d8h4",
        others: &[],
        output: "[Event \"CECP match\"]\n[Site \"?\"]\n[Date \"????.??.??\"]\n[Round \"1\"]\n[White \"stub\"]\n[Black \"stub\"]\n[Result \"0-1\"]\n[Termination \"normal\"]\n\n1. f3 e5 2. g4 Qh4# 0-1\n\nscore first 0 second 1 drawn 0 unfinished 0\n",
        errors: "",
        status: 0,
    },
    // The second game's White begins with Black's first move.
    Played {
        white: "f2f3 g2g4",
        black: "e7e5 d8h4",
        others: &["--games", "2", "--date", "2026.11.23"],
        output: "[Event \"CECP match\"]\n[Site \"?\"]\n[Date \"2026.11.23\"]\n[Round \"1\"]\n[White \"stub\"]\n[Black \"stub\"]\n[Result \"0-1\"]\n[Termination \"normal\"]\n\n1. f3 e5 2. g4 Qh4# 0-1\n\n[Event \"CECP match\"]\n[Site \"?\"]\n[Date \"2026.11.23\"]\n[Round \"2\"]\n[White \"stub\"]\n[Black \"stub\"]\n[Result \"0-1\"]\n[Termination \"rules infraction\"]\n\n0-1\n\nscore first 1 second 1 drawn 0 unfinished 0\n",
        errors: "",
        status: 0,
    },
    // A fault ends the match, whatever number of games was asked for.
    Played {
        white: "end",
        black: "",
        others: &["--games", "3"],
        output: "[Event \"CECP match\"]\n[Site \"?\"]\n[Date \"????.??.??\"]\n[Round \"1\"]\n[White \"stub\"]\n[Black \"stub\"]\n[Result \"*\"]\n[Termination \"unterminated\"]\n\n*\n\nscore first 0 second 0 drawn 0 unfinished 1\n",
        errors: "arbiter: game 1: White ended its output\n",
        status: 1,
    },
    Played {
        white: "e2e4 end",
        black: "e7e5 end",
        others: &[],
        output: "[Event \"CECP match\"]\n[Site \"?\"]\n[Date \"????.??.??\"]\n[Round \"1\"]\n[White \"stub\"]\n[Black \"stub\"]\n[Result \"*\"]\n[Termination \"unterminated\"]\n\n1. e4 e5 *\n\nscore first 0 second 0 drawn 0 unfinished 1\n",
        errors: "arbiter: game 1: White ended its output\n",
        status: 1,
    },
    Played {
        white: "g1f3 f3g1 g1f3 f3g1",
        black: "g8f6 f6g8 g8f6 f6g8 claim",
        others: &["--level", "0 1 0"],
        output: "[Event \"CECP match\"]\n[Site \"?\"]\n[Date \"????.??.??\"]\n[Round \"1\"]\n[White \"stub\"]\n[Black \"stub\"]\n[Result \"1/2-1/2\"]\n[Termination \"normal\"]\n\n1. Nf3 Nf6 2. Ng1 Ng8 3. Nf3 Nf6 4. Ng1 Ng8 1/2-1/2\n\nscore first 0 second 0 drawn 1 unfinished 0\n",
        errors: "",
        status: 0,
    },
    Played {
        white: "",
        black: "e2e3",
        others: &["--fen", "4k3/8/8/8/8/8/4P3/4K3 w - - 5 9"],
        output: "[Event \"CECP match\"]\n[Site \"?\"]\n[Date \"????.??.??\"]\n[Round \"1\"]\n[White \"stub\"]\n[Black \"stub\"]\n[Result \"0-1\"]\n[FEN \"4k3/8/8/8/8/8/4P3/4K3 w - - 5 9\"]\n[SetUp \"1\"]\n[Termination \"normal\"]\n\n0-1\n\nscore first 0 second 1 drawn 0 unfinished 0\n",
        errors: "",
        status: 0,
    },
    // The stub says nothing of variants, so it is taken to play each.
    Played {
        white: "O-O",
        black: "",
        others: &[
            "--variant",
            "fischerandom",
            "--fen",
            "4k3/8/8/8/8/8/8/RK5R w KQ - 0 1",
        ],
        output: "[Event \"CECP match\"]\n[Site \"?\"]\n[Date \"????.??.??\"]\n[Round \"1\"]\n[White \"stub\"]\n[Black \"stub\"]\n[Result \"1-0\"]\n[FEN \"4k3/8/8/8/8/8/8/RK5R w HA - 0 1\"]\n[SetUp \"1\"]\n[Termination \"normal\"]\n[Variant \"fischerandom\"]\n\n1. O-O 1-0\n\nscore first 1 second 0 drawn 0 unfinished 0\n",
        errors: "",
        status: 0,
    },
];

// The arguments of a match between the engines with these commands, and then the `others`.
fn arguments_of<'a>(
    alloc: Global,
    white: &'a str,
    black: &'a str,
    others: &[&'static str],
) -> Result<Vec<&'a str>, Fail> {
    let mut arguments = Vec::new(alloc);
    for argument in ["match", "--white", white, "--black", black] {
        arguments.push(argument)?;
    }
    for argument in others {
        arguments.push(*argument)?;
    }
    Ok(arguments)
}

// Plays a match over processes between stubs that play the arguments `white` and `black`.
fn play_stubs(
    rt: &HostRuntime,
    white: &str,
    black: &str,
    others: &[&'static str],
    input: &[u8],
    devices: Devices,
) -> Result<Outcome, Fail> {
    let white = stub(rt, white)?;
    let black = stub(rt, black)?;
    let arguments = arguments_of(rt.alloc(), white.as_str(), black.as_str(), others)?;
    Ok(run(rt, arguments.as_slice(), input, devices))
}

// Plays the match of a row over processes.
fn play(
    rt: &HostRuntime,
    played: &Played,
    input: &[u8],
    devices: Devices,
) -> Result<Outcome, Fail> {
    play_stubs(
        rt,
        played.white,
        played.black,
        played.others,
        input,
        devices,
    )
}

// Asserts that the row's output, errors and status came of a match.
fn check_match(rt: &impl Abort, outcome: &Outcome, played: &Played) -> Result<(), Fail> {
    is_text(rt, outcome.output.as_slice(), played.output)?;
    is_text(rt, outcome.errors.as_slice(), played.errors)?;
    is_equal(rt, &outcome.status, &played.status);
    Ok(())
}

// Plays the match of a row, and asserts what comes of it. (The input of the program would fail, but a match doesn't
// read it.)
fn play_out(rt: &impl Abort, host: &HostRuntime, played: &Played) -> Result<(), Fail> {
    // The input is not read, so its failure is not met.
    let devices = Devices {
        read_fails: 1,
        ..SOUND
    };
    let outcome = play(host, played, b"x", devices)?;
    check_match(rt, &outcome, played)
}

// Plays each row.
#[test]
fn stubs_play(rt: HostRuntime) -> Result<(), Fail> {
    for played in &PLAYED {
        play_out(&rt, &rt, played)?;
    }
    Ok(())
}

// Plays a match with a log, where the call numbered `errors_fail` of the error output, on which the log is, fails (0:
// none).
fn play_logged(
    rt: &HostRuntime,
    played: &Played,
    others: &[&'static str],
    errors_fail: u64,
) -> Result<Outcome, Fail> {
    let devices = Devices {
        errors_fail,
        ..SOUND
    };
    play_stubs(rt, played.white, played.black, others, b"", devices)
}

// Texts that the log of both games must contain. The whole of it isn't compared, since its times differ from run to
// run.
const LOGGED: [&str; 8] = [
    "0 >first : xboard\n0 >first : protover 2\n",
    " <first : feature ping=1 setboard=1 usermove=1 myname=\"stub\" done=1\n",
    " <second: feature ping=1 setboard=1 usermove=1 myname=\"stub\" done=1\n",
    " <first : move f2f3\n",
    " >second: usermove f2f3\n",
    " <second: move d8h4\n",
    " >first : result 0-1 {Black mates}\n",
    // The first engine has Black in the second game.
    " >second: result 0-1 {White makes an illegal move}\n",
];

// Asserts that a log contains this text.
fn is_in_log(rt: &impl Abort, log: &[u8], text: &str) -> Result<(), Fail> {
    assert!(rt; std::str::from_utf8(log)?.contains(text));
    Ok(())
}

// Plays two games with a log: its output is as without, and each text is in the log.
#[test]
fn a_log_over_processes(rt: HostRuntime) -> Result<(), Fail> {
    let played = &PLAYED[1];
    let others = &["--games", "2", "--date", "2026.11.23", "--log"];
    let outcome = play_logged(&rt, played, others, 0)?;
    is_text(&rt, outcome.output.as_slice(), played.output)?;
    is_equal(&rt, &outcome.status, &0);
    for text in LOGGED {
        is_in_log(&rt, outcome.errors.as_slice(), text)?;
    }
    Ok(())
}

// A match is played to its end, with its own status, also where its log can't be written.
#[test]
fn a_log_on_a_failed_error_output(rt: HostRuntime) -> Result<(), Fail> {
    let played = &PLAYED[3];
    for errors_fail in [1, 2, 9] {
        let outcome = play_logged(&rt, played, &["--log"], errors_fail)?;
        is_text(&rt, outcome.output.as_slice(), played.output)?;
        is_equal(&rt, &outcome.status, &1);
    }
    Ok(())
}

// What is written of the match below, whose second engine ends after it has read a line.
const DECIDED: &str =
    "[Event \"CECP match\"]\n[Site \"?\"]\n[Date \"????.??.??\"]\n[Round \"1\"]\n[White \"stub\"]\n[Black \"head -n 1\"]\n[Result \"1-0\"]\n[FEN \"7k/6Q1/6K1/8/8/8/8/8 b - - 0 1\"]\n[SetUp \"1\"]\n[Termination \"normal\"]\n\n1-0\n\nscore first 1 second 0 drawn 0 unfinished 0\n";

// The start is mate. That is the game's result in its PGN and in the score, though Black's engine fails; the failure is
// reported.
#[test]
fn a_verdict_on_the_start_stands(rt: HostRuntime) -> Result<(), Fail> {
    let white = stub(&rt, "")?;
    let others = &["--fen", "7k/6Q1/6K1/8/8/8/8/8 b - - 0 1"];
    let arguments = arguments_of(rt.alloc(), white.as_str(), "head -n 1", others)?;
    let outcome = run(&rt, arguments.as_slice(), b"", SOUND);
    is_text(&rt, outcome.output.as_slice(), DECIDED)?;
    is_text(
        &rt,
        outcome.errors.as_slice(),
        "arbiter: game 1: Black ended its output\n",
    )?;
    is_equal(&rt, &outcome.status, &1);
    Ok(())
}

// What a process holds: how many descriptors are open, and which of the processes that it started still run.
fn held(rt: &HostRuntime) -> Result<(usize, Vec<u8>), Fail> {
    let open = fs::read_dir(rt, "/proc/self/fd")?.count();
    Ok((open, fs::read(rt, "/proc/thread-self/children")?))
}

// Asserts that this process holds what it held before.
fn check_held(rt: &impl Abort, now: &(usize, Vec<u8>), before: &(usize, Vec<u8>)) {
    is_equal(rt, &now.0, &before.0);
    is_equal(rt, &now.1.as_slice(), &before.1.as_slice());
}

// Plays the match of a row, after which this process holds no more than before.
fn play_and_leave(rt: &impl Abort, host: &HostRuntime, played: &Played) -> Result<(), Fail> {
    let before = held(host)?;
    let _outcome = play(host, played, b"", SOUND)?;
    check_held(rt, &held(host)?, &before);
    Ok(())
}

// However a match ends, its pipes are closed and its engines have ended.
#[test]
fn engines_leave_nothing_behind(rt: HostRuntime) -> Result<(), Fail> {
    for played in &PLAYED {
        play_and_leave(&rt, &rt, played)?;
    }
    Ok(())
}

// Asserts that a match with these arguments ends before its first game, with this report and status.
fn check_early_end(
    rt: &impl Abort,
    host: &HostRuntime,
    arguments: &[&str],
    errors: &[u8],
    status: u8,
) {
    let wanted = Wanted {
        output: b"",
        errors,
        status,
    };
    run(host, arguments, b"", SOUND).check(rt, wanted);
}

// Asserts that an engine of this match can't be started, with this report and status 1.
fn check_no_start(rt: &impl Abort, host: &HostRuntime, white: &str, black: &str, errors: &[u8]) {
    let arguments = ["match", "--white", white, "--black", black];
    check_early_end(rt, host, &arguments, errors, 1);
}

// White's command names no program, then Black's, and then Black's is all spaces.
#[test]
fn engines_that_can_not_start(rt: HostRuntime) -> Result<(), Fail> {
    let stub = stub(&rt, "e2e4")?;
    check_no_start(
        &rt,
        &rt,
        "/no/such/engine x",
        stub.as_str(),
        b"arbiter: can not start /no/such/engine x\n",
    );
    check_no_start(
        &rt,
        &rt,
        stub.as_str(),
        "/no/such/engine",
        b"arbiter: can not start /no/such/engine\n",
    );
    check_no_start(
        &rt,
        &rt,
        stub.as_str(),
        " \t",
        b"arbiter: can not start  \t\n",
    );
    Ok(())
}

// Arguments of matches with a value that is not in its form, and what is reported.
const OUT_OF_FORM: [(&[&str], &[u8]); 4] = [
    (
        &["match", "--white", "x", "--black", "y", "--level", "40 5"],
        b"arbiter: bad level\n",
    ),
    (
        &[
            "match", "--white", "x", "--black", "y", "--level", "0 0:60 0",
        ],
        b"arbiter: bad level\n",
    ),
    (
        &[
            "match",
            "--white",
            "x",
            "--black",
            "y",
            "--fen",
            "8/8/8/8/8/8/8/8 w - - 0 1",
        ],
        b"arbiter: illegal position (kings)\n",
    ),
    (
        &["match", "--white", "x", "--black", "y", "--date", "\u{7f}"],
        b"arbiter: bad date\n",
    ),
];

// Each of them ends before its first game, with status 2.
#[test]
fn matches_out_of_form(rt: HostRuntime) {
    for (arguments, errors) in &OUT_OF_FORM {
        check_early_end(&rt, &rt, arguments, errors, 2);
    }
}

// Asserts that a match stopped at a failed write: it wrote a beginning of `whole`, its output when nothing fails, and
// reported the failure.
fn check_broken(rt: &impl Abort, broken: &Outcome, whole: &[u8]) {
    assert!(rt; whole.starts_with(broken.output.as_slice()));
    is_equal(
        rt,
        &broken.errors.as_slice(),
        &b"arbiter: write failed\n".as_slice(),
    );
    is_equal(rt, &broken.status, &1);
}

// Plays a match where the call numbered `write_fails` of the output fails.
fn play_failed(
    rt: &impl Abort,
    host: &HostRuntime,
    arguments: &[&str],
    whole: &[u8],
    write_fails: u64,
) {
    let devices = Devices {
        taken: 4096,
        write_fails,
        ..SOUND
    };
    check_broken(rt, &run(host, arguments, b"", devices), whole);
}

// Plays a match once for each of six calls of its output, which then fails.
fn play_broken(rt: &impl Abort, host: &HostRuntime, arguments: &[&str], whole: &[u8]) {
    for write_fails in 1..=6 {
        play_failed(rt, host, arguments, whole, write_fails);
    }
}

// A match of two games makes at least six calls of its output. At whichever it fails, the match ends.
#[test]
fn a_match_on_a_failed_output(rt: HostRuntime) -> Result<(), Fail> {
    let stub = stub(&rt, "")?;
    let arguments = arguments_of(rt.alloc(), stub.as_str(), stub.as_str(), &["--games", "2"])?;
    let whole = run(&rt, arguments.as_slice(), b"", SOUND);
    is_equal(&rt, &whole.status, &0);
    play_broken(&rt, &rt, arguments.as_slice(), whole.output.as_slice());
    Ok(())
}

// Where the output fails in a game that has a fault, the failed write is reported instead of the fault.
#[test]
fn a_failed_output_after_a_fault(rt: HostRuntime) -> Result<(), Fail> {
    let white = stub(&rt, "end")?;
    let black = stub(&rt, "")?;
    let arguments = arguments_of(rt.alloc(), white.as_str(), black.as_str(), &[])?;
    let whole = run(&rt, arguments.as_slice(), b"", SOUND);
    for write_fails in 1..=4 {
        play_failed(
            &rt,
            &rt,
            arguments.as_slice(),
            whole.output.as_slice(),
            write_fails,
        );
    }
    Ok(())
}

// The command of an engine that has no `myname`, writes to its standard error, and answers nothing but pings. (`${IFS}`
// stands for a blank, by which the arbiter would split the command.)
const NAMELESS: &str =
    "sh -c N=é;echo${IFS}feature${IFS}ping=1${IFS}done=1;echo${IFS}noise>&2;exec${IFS}sed${IFS}-un${IFS}s/ping/pong/p";

// The match with it. As its name stand the first 60 bytes of its command, with `?` for each byte outside 32 to 126;
// what it writes to its standard error is nowhere.
const BY_NAMELESS: &str =
    "[Event \"CECP match\"]\n[Site \"?\"]\n[Date \"????.??.??\"]\n[Round \"1\"]\n[White \"stub\"]\n[Black \"sh -c N=??;echo${IFS}feature${IFS}ping=1${IFS}done=1;echo${I\"]\n[Result \"0-1\"]\n[Termination \"normal\"]\n\n0-1\n\nscore first 0 second 1 drawn 0 unfinished 0\n";

// Plays that match: nothing is on the error output.
#[test]
fn an_engine_without_a_name(rt: HostRuntime) -> Result<(), Fail> {
    let white = stub(&rt, "")?;
    let arguments = arguments_of(rt.alloc(), white.as_str(), NAMELESS, &[])?;
    let wanted = Wanted::without_errors(BY_NAMELESS.as_bytes(), 0);
    run(&rt, arguments.as_slice(), b"", SOUND).check(&rt, wanted);
    Ok(())
}

// Black can't be started. White, which takes 0.2 seconds to end once its input is closed, is waited for.
#[test]
fn white_is_ended_where_black_can_not_start(rt: HostRuntime) -> Result<(), Fail> {
    let before = held(&rt)?;
    check_no_start(
        &rt,
        &rt,
        "sh -c cat>/dev/null;sleep${IFS}0.2",
        "/no/such/engine",
        b"arbiter: can not start /no/such/engine\n",
    );
    check_held(&rt, &held(&rt)?, &before);
    Ok(())
}

// The clock of matches, which counts milliseconds from its start, gets to 50 at some time.
#[test]
fn moments_rise(rt: HostRuntime) {
    let mut moments = SinceStart::new(&rt);
    for _ in 0..100_000_000 {
        if moments.now() >= 50 {
            return;
        }
    }
    assert!(rt; false);
}

// Runs of a stub over memory: what it is sent, and what it says.
const STUB_RUNS: [ProgramRun; 13] = [
    ProgramRun {
        arguments: &["stub", "e2e4", "offer"],
        input: b"protover 2\nping 3\ngo\nusermove e7e5\n",
        fails: (0, 0),
        output: b"feature ping=1 setboard=1 usermove=1 myname=\"stub\" done=1\npong 3\nmove e2e4\noffer draw\nresign\n",
        errors: b"",
        status: 0,
    },
    ProgramRun {
        arguments: &["stub"],
        input: b"xboard\nnew\nusermove e2e4\nforce\nlevel 40 5 0\ntime 3\ndraw\n\nping x\nusermove\nundo\n?\nresult * {x}\n",
        fails: (0, 0),
        output: b"",
        errors: b"",
        status: 0,
    },
    // It plays from `go` on, up to `new` or `force`.
    ProgramRun {
        arguments: &["stub", "a", "b", "c"],
        input: b"usermove x\ngo\nusermove x\nforce\nusermove x\ngo\nnew\nusermove x\ngo\n",
        fails: (0, 0),
        output: b"move a\nmove b\nmove c\nresign\n",
        errors: b"",
        status: 0,
    },
    // `usermove` without a move is one of the other side too.
    ProgramRun {
        arguments: &["stub", "a", "b"],
        input: b"usermove\ngo\nusermove\n usermove \nusermoves\nforce\nusermove\n",
        fails: (0, 0),
        output: b"move a\nmove b\nresign\n",
        errors: b"",
        status: 0,
    },
    ProgramRun {
        arguments: &[
            "stub", "e2e4", "claim", "offer", "claim", "offers", "resign", "offer",
        ],
        input: b"go\r\n usermove x \nusermove x\nusermove x\n",
        fails: (0, 0),
        output: b"move e2e4\n1/2-1/2 {Draw by repetition}\noffer draw\n1/2-1/2 {Draw by repetition}\nmove offers\nresign\noffer draw\nresign\n",
        errors: b"",
        status: 0,
    },
    ProgramRun {
        arguments: &["stub", "end", "e2e4"],
        input: b"go\nping 1\n",
        fails: (0, 0),
        output: b"mov",
        errors: b"",
        status: 0,
    },
    ProgramRun {
        arguments: &["stub", "e2e4"],
        input: b"quit\ngo\n",
        fails: (0, 0),
        output: b"",
        errors: b"",
        status: 0,
    },
    ProgramRun {
        arguments: &["stub"],
        input: b"ping 007",
        fails: (0, 0),
        output: b"pong 7\n",
        errors: b"",
        status: 0,
    },
    // The first argument is played, whatever it is; it is longer than a line that is put together.
    ProgramRun {
        arguments: &["stub", "0123456789012345678901234567890123456789"],
        input: b"go\n",
        fails: (0, 0),
        output: b"move 0123456789012345678901234567890123456789\n",
        errors: b"",
        status: 0,
    },
    ProgramRun {
        arguments: &["stub", "offer"],
        input: b"go\n",
        fails: (0, 0),
        output: b"move offer\n",
        errors: b"",
        status: 0,
    },
    ProgramRun {
        arguments: &["stub", "e2e4"],
        input: b"ping 1\nping 2\ngo\n",
        fails: (2, 0),
        output: b"pong 1\npong 2\nmove e2e4\n",
        errors: b"arbiter: read failed\n",
        status: 1,
    },
    ProgramRun {
        arguments: &["stub", "e2e4"],
        input: b"ping 1\nping 2\ngo\n",
        fails: (0, 3),
        output: b"pong 1\n",
        errors: b"arbiter: write failed\n",
        status: 1,
    },
    ProgramRun {
        arguments: &["stub", "e2e4"],
        input: b"ping 1\nping 2\ngo\n",
        fails: (0, 4),
        output: b"pong 1\npong 2\n",
        errors: b"arbiter: write failed\n",
        status: 1,
    },
];

// Runs each row.
#[test]
fn stubs_say(rt: HostRuntime) {
    for row in &STUB_RUNS {
        row.check(&rt, &rt);
    }
}
