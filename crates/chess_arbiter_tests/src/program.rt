//! The program over memory: its arguments, its faults and its help.

use crate::runs::{Devices, Outcome, ProgramRun, SOUND, Wanted, is_equal, run};
use byte_devices::{Counted, PieceWriter};
use chess_arbiter::{Log, ProcessHost, ProgramFault, run_program};
use std::process::{Abort, ExitCode};
use std::test::Fail;

// Runs of the program over memory, by arguments of each kind. `fails` has the numbers of the calls of the input and of
// the output that fail.
const RUNS: [ProgramRun; 26] = [
    ProgramRun {
        arguments: &[],
        input: b"new\ne2e4\nping 7\nundo\nshowfen\nquit\nshowfen\n",
        fails: (0, 0),
        output: b"pong 7\n# fen rnbqkbnr/pppppppp/8/8/8/8/PPPPPPPP/RNBQKBNR w KQkq - 0 1\n",
        errors: b"",
        status: 0,
    },
    ProgramRun {
        arguments: &[],
        input: b"",
        fails: (0, 0),
        output: b"",
        errors: b"",
        status: 0,
    },
    ProgramRun {
        arguments: &["session"],
        input: b"ping 7",
        fails: (0, 0),
        output: b"pong 7\n",
        errors: b"",
        status: 0,
    },
    ProgramRun {
        arguments: &["session", "session"],
        input: b"ping 7\n",
        fails: (0, 0),
        output: b"",
        errors: b"error: unexpected argument 'session' found\n\nUsage: arbiter session\n\nFor more information, try '--help'.\n",
        status: 2,
    },
    ProgramRun {
        arguments: &["help"],
        input: b"ping 7\n",
        fails: (0, 0),
        output: b"",
        errors: b"error: unrecognized subcommand 'help'\n\nUsage: arbiter [COMMAND]\n\nFor more information, try '--help'.\n",
        status: 2,
    },
    ProgramRun {
        arguments: &["--version"],
        input: b"ping 7\n",
        fails: (0, 0),
        output: b"arbiter 0.3.0\n",
        errors: b"",
        status: 0,
    },
    ProgramRun {
        arguments: &[""],
        input: b"ping 7\n",
        fails: (0, 0),
        output: b"",
        errors: b"error: unrecognized subcommand ''\n\nUsage: arbiter [COMMAND]\n\nFor more information, try '--help'.\n",
        status: 2,
    },
    ProgramRun {
        arguments: &[],
        input: b"ping 1\nping 2",
        fails: (2, 0),
        output: b"pong 1\n",
        errors: b"arbiter: read failed\n",
        status: 1,
    },
    ProgramRun {
        arguments: &[],
        input: b"ping 1\nping 2\n",
        fails: (0, 3),
        output: b"pong 1\n",
        errors: b"arbiter: write failed\n",
        status: 1,
    },
    ProgramRun {
        arguments: &["verify"],
        input: b"1. e4 *",
        fails: (2, 0),
        output: b"",
        errors: b"arbiter: read failed\n",
        status: 1,
    },
    ProgramRun {
        arguments: &["verify"],
        input: b"1. e4 *",
        fails: (0, 1),
        output: b"",
        errors: b"arbiter: write failed\n",
        status: 1,
    },
    // The second line's write, and the flush at the end.
    ProgramRun {
        arguments: &["verify"],
        input: b"* *",
        fails: (0, 2),
        output: b"game 1: 0 half-moves, *\n",
        errors: b"arbiter: write failed\n",
        status: 1,
    },
    ProgramRun {
        arguments: &["verify"],
        input: b"1. e4 *",
        fails: (0, 2),
        output: b"game 1: 1 half-moves, *\n",
        errors: b"arbiter: write failed\n",
        status: 1,
    },
    ProgramRun {
        arguments: &["verify", "x"],
        input: b"*",
        fails: (0, 0),
        output: b"",
        errors: b"arbiter: verify reads standard input: arbiter verify < games.pgn (files by name: verify_all)\n",
        status: 2,
    },
    ProgramRun {
        arguments: &["verify", "--keep-going", "games.pgn", "--quiet"],
        input: b"*",
        fails: (0, 0),
        output: b"",
        errors: b"arbiter: verify reads standard input: arbiter verify < games.pgn (files by name: verify_all)\n",
        status: 2,
    },
    ProgramRun {
        arguments: &["verify", "--strict", "--ignore", "board", "games.pgn"],
        input: b"*",
        fails: (0, 0),
        output: b"",
        errors: b"arbiter: verify reads standard input: arbiter verify < games.pgn (files by name: verify_all)\n",
        status: 2,
    },
    ProgramRun {
        arguments: &["verify", "--strict", "--ignore", "board,after"],
        input: b"*",
        fails: (0, 0),
        output: b"",
        errors: b"arbiter: bad kind (variant, result, board or after-end, with commas between)\n",
        status: 2,
    },
    ProgramRun {
        arguments: &["verify", "--quite"],
        input: b"*",
        fails: (0, 0),
        output: b"",
        errors: b"error: unexpected argument '--quite' found\n\n  tip: a similar argument exists: '--quiet'\n\nUsage: arbiter verify [OPTIONS] < FILE\n\nFor more information, try '--help'.\n",
        status: 2,
    },
    // The line of the counts, and the flush after it.
    ProgramRun {
        arguments: &["verify", "--keep-going", "--quiet"],
        input: b"1. e4 *",
        fails: (0, 1),
        output: b"",
        errors: b"arbiter: write failed\n",
        status: 1,
    },
    ProgramRun {
        arguments: &["verify", "--keep-going", "--quiet"],
        input: b"1. e4 *",
        fails: (0, 2),
        output: b"games 1 half-moves 1 faults 0\n",
        errors: b"arbiter: write failed\n",
        status: 1,
    },
    ProgramRun {
        arguments: &["verify", "--keep-going"],
        input: b"1. e4 *",
        fails: (2, 0),
        output: b"",
        errors: b"arbiter: read failed\n",
        status: 1,
    },
    ProgramRun {
        arguments: &["verify", "--strict"],
        input: b"* *",
        fails: (0, 2),
        output: b"game 1: 0 half-moves, *\n",
        errors: b"arbiter: write failed\n",
        status: 1,
    },
    // The flush after a fault with its explanation, which are one write.
    ProgramRun {
        arguments: &["verify", "--explain"],
        input: b"1. e5 *",
        fails: (0, 2),
        output: b"game 1: illegal move at byte 3\n# line 1 column 4 e5 | rnbqkbnr/pppppppp/8/8/8/8/PPPPPPPP/RNBQKBNR w KQkq - 0 1\n",
        errors: b"arbiter: write failed\n",
        status: 1,
    },
    // The line of a fault, and the flush after the counts.
    ProgramRun {
        arguments: &["verify", "--strict", "--quiet"],
        input: b"1. e5 *",
        fails: (0, 1),
        output: b"",
        errors: b"arbiter: write failed\n",
        status: 1,
    },
    ProgramRun {
        arguments: &["verify", "--strict", "--keep-going"],
        input: b"1. e4 *",
        fails: (0, 3),
        output: b"game 1: 1 half-moves, *\ngames 1 half-moves 1 faults 0\n",
        errors: b"arbiter: write failed\n",
        status: 1,
    },
    // The flush of the first answer.
    ProgramRun {
        arguments: &["session"],
        input: b"ping 1\nping 2\n",
        fails: (0, 2),
        output: b"pong 1\n",
        errors: b"arbiter: write failed\n",
        status: 1,
    },
];

// Runs each row.
#[test]
fn runs_of_the_program(rt: HostRuntime) {
    for row in &RUNS {
        row.check(&rt, &rt);
    }
}

// Wrong arguments are reported on an error output that takes three bytes and then fails: the status is 2 all the same.
#[test]
fn a_failed_error_output_changes_no_status(rt: HostRuntime) {
    let mut input = Counted::reading(b"".as_slice());
    let mut output = Counted::writing(Vec::<u8>::new(rt.alloc()));
    let mut errors = Log::new(Counted::writing(PieceWriter::new(rt.alloc(), 3, 2)));
    let status = run_program(
        &mut ProcessHost::new(&rt, rt.alloc()),
        rt.alloc(),
        &["x"],
        &mut input,
        &mut output,
        &mut errors,
    );
    let errors = errors.into_output();
    is_equal(&rt, &errors.writer().bytes.as_slice(), &b"err".as_slice());
    is_equal(&rt, &status, &2);
}

// Asserts that a run was refused since this argument is missing. Nothing is on the output.
fn check_lacking(rt: &impl Abort, outcome: &Outcome, argument: &str) -> Result<(), Fail> {
    let errors = std::str::from_utf8(outcome.errors.as_slice())?;
    assert!(rt; errors.starts_with("error: the following required arguments were not provided:\n"));
    assert!(rt; errors.contains(argument));
    assert!(rt; outcome.output.is_empty() && outcome.status == 2);
    Ok(())
}

// A match without one of its engines is refused.
#[test]
fn a_match_needs_both_engines(rt: HostRuntime) -> Result<(), Fail> {
    check_lacking(
        &rt,
        &run(&rt, &["match", "--white", "x"], b"ping 1\n", SOUND),
        "  --black <CMD>\n",
    )?;
    check_lacking(
        &rt,
        &run(&rt, &["match", "--black", "x"], b"ping 1\n", SOUND),
        "  --white <CMD>\n",
    )
}

// Arguments that ask for help, and words that their help must contain.
const HELP: [(&[&str], &[&str]); 4] = [
    (&["--help"], &["session", "verify", "--help", "--version"]),
    (
        &["session", "-h"],
        &[
            "new",
            "setboard",
            "undo",
            "remove",
            "claim",
            "result",
            "showfen",
            "showmoves",
            "showstate",
            "showpgn",
            "ping",
            "protover",
            "variant",
            "quit",
        ],
    ),
    (
        &["verify", "--help"],
        &[
            "games.pgn",
            "at byte",
            "--keep-going --quiet",
            "faults 1",
            "--strict",
            "--explain",
            "--spans",
            "--names",
            "# line 2 column 4 Ke3 | rnbqkbnr/pppp1ppp/8/4p3/4P3/8/PPPP1PPP/RNBQKBNR w KQkq e6 0 2",
            "16,777,216 bytes",
        ],
    ),
    (
        &["stub", "--help"],
        &[
            "Usage: arbiter stub [REPLY]...\n",
            "a move",
            "`resign`",
            "`end`",
            "`offer`",
            "`claim`",
        ],
    ),
];

// Asserts that a run wrote a help text with each of these words, no error, and status 0.
fn check_help(rt: &impl Abort, outcome: &Outcome, named: &[&str]) -> Result<(), Fail> {
    let help = std::str::from_utf8(outcome.output.as_slice())?;
    for name in named {
        assert!(rt; help.contains(*name));
    }
    is_equal(rt, &outcome.errors.as_slice(), &b"".as_slice());
    is_equal(rt, &outcome.status, &0);
    Ok(())
}

// Each kind of help names the commands or options that it is about.
#[test]
fn help_names_the_options(rt: HostRuntime) -> Result<(), Fail> {
    for (arguments, named) in &HELP {
        check_help(&rt, &run(&rt, arguments, b"ping 1\n", SOUND), named)?;
    }
    Ok(())
}

// Help on an output that takes three bytes and then fails is a failed write.
#[test]
fn help_on_a_failed_output(rt: HostRuntime) {
    let devices = Devices {
        taken: 3,
        write_fails: 2,
        ..SOUND
    };
    let wanted = Wanted {
        output: b"arb",
        errors: b"arbiter: write failed\n",
        status: 1,
    };
    run(&rt, &["--version"], b"", devices).check(&rt, wanted);
}

// Each fault, how it is reported, and the status.
const FAULTS: [(ProgramFault, &str, u8); 4] = [
    (ProgramFault::ReadFailed, "read failed", 1),
    (ProgramFault::WriteFailed, "write failed", 1),
    (ProgramFault::NoMemory, "no memory", 1),
    (ProgramFault::InvalidArguments, "wrong words", 2),
];

// Each fault is shown by its text, and has its status.
#[test]
fn faults_have_texts(rt: HostRuntime) -> Result<(), Fail> {
    for (fault, text, status) in &FAULTS {
        let shown = format!(in rt.alloc(); "{fault}")?;
        is_equal(&rt, &shown.as_str(), text);
        is_equal(&rt, &fault.status(), status);
    }
    Ok(())
}

// The arguments of this test's own process are the name of a test, which the arbiter program refuses.
#[test]
fn the_arguments_of_the_process_are_read(rt: HostRuntime) {
    assert!(rt; chess_arbiter::run(&rt) == ExitCode::from(2));
}
