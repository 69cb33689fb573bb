//! Sessions, stubs and `verify` over devices that cut their bytes, end early or fail at some call.

use crate::runs::{Devices, Outcome, SOUND, Wanted, check_in_all_pieces, is_equal, run};
use std::alloc::Global;
use std::process::Abort;
use std::test::Fail;

/// A line that the program reads, and what it answers.
type Line = (&'static [u8], &'static [u8]);

/// A session, with the program or with its stub: the arguments of the program, and its lines in order.
struct Talk {
    arguments: &'static [&'static str],
    lines: &'static [Line],
}

// The sessions that the tests below run over devices of each kind.
const TALKS: [Talk; 3] = [
    Talk {
        arguments: &[],
        lines: &[
            (b"new\n", b""),
            (b"e2e4\n", b""),
            (b"ping 7\n", b"pong 7\n"),
            (b"undo\n", b""),
            (
                b"showfen\n",
                b"# fen rnbqkbnr/pppppppp/8/8/8/8/PPPPPPPP/RNBQKBNR w KQkq - 0 1\n",
            ),
            (b"undo\n", b"Error (command not legal now): undo\n"),
        ],
    },
    Talk {
        arguments: &["session"],
        lines: &[
            (b"f3\r\n", b""),
            (b"\n", b""),
            (b"e5\n", b""),
            (b"g4\n", b""),
            (b"Qh4\n", b"0-1 {Black mates}\n"),
            (b"Nf3\n", b"Illegal move (game over): Nf3\n"),
            (
                b"setboard 8/8/8/8/8/8/8/8 w - - 0 1\n",
                b"tellusererror Illegal position (kings)\n",
            ),
            (b"quit\n", b""),
        ],
    },
    Talk {
        arguments: &["stub", "e2e4", "offer", "d2d4"],
        lines: &[
            (b"xboard\n", b""),
            (
                b"protover 2\n",
                b"feature ping=1 setboard=1 usermove=1 myname=\"stub\" done=1\n",
            ),
            (b"ping 3\n", b"pong 3\n"),
            (b"go\n", b"move e2e4\noffer draw\n"),
            (b"usermove e7e5\n", b"move d2d4\n"),
            (b"quit\n", b""),
        ],
    },
];

// What a session has answered when it has read `given` bytes, which is the answers to the lines that are whole by then;
// and how many bytes these lines have.
fn answered(alloc: Global, lines: &[Line], given: usize) -> Result<(Vec<u8>, usize), Fail> {
    let mut answers = Vec::new(alloc);
    let mut read: usize = 0;
    for (text, answer) in lines {
        let end = read.saturating_add(text.len());
        if end > given {
            break;
        }
        answers.extend_from_slice(answer)?;
        read = end;
    }
    Ok((answers, read))
}

// The lines of a session, one after another, as its input.
fn input_of(alloc: Global, lines: &[Line]) -> Result<Vec<u8>, Fail> {
    let mut input = Vec::new(alloc);
    for (text, _) in lines {
        input.extend_from_slice(text)?;
    }
    Ok(input)
}

// What the program reports where its input fails, and where its output does.
const READ_FAILED: &[u8] = b"arbiter: read failed\n";

const WRITE_FAILED: &[u8] = b"arbiter: write failed\n";

// More calls than any run below makes of its output.
const CALLS: u64 = 400;

// Runs a session whose bytes are cut in several ways: the answers are the same.
fn check_talk(rt: &impl Abort, host: &HostRuntime, talk: &Talk) -> Result<(), Fail> {
    let input = input_of(host.alloc(), talk.lines)?;
    let (answers, _) = answered(host.alloc(), talk.lines, input.len())?;
    let wanted = Wanted::without_errors(answers.as_slice(), 0);
    check_in_all_pieces(rt, host, talk.arguments, input.as_slice(), wanted);
    Ok(())
}

// Runs each session so.
#[test]
fn answers_are_the_same_in_all_pieces(rt: HostRuntime) -> Result<(), Fail> {
    for talk in &TALKS {
        check_talk(&rt, &rt, talk)?;
    }
    Ok(())
}

// Asserts that a run on the beginning of an input wrote these answers, and then nothing more unless `is_cut`: a part of
// a line is left, which is answered as a line, by at most two lines.
fn check_beginning(
    rt: &impl Abort,
    outcome: &Outcome,
    answers: &[u8],
    is_cut: bool,
) -> Result<(), Fail> {
    let further = outcome
        .output
        .strip_prefix(answers)
        .ok_or("the answers to whole lines")?;
    let lines = further.iter().filter(|byte| **byte == b'\n').count();
    assert!(rt; lines <= 2 && (is_cut || further.is_empty()));
    is_equal(rt, &outcome.errors.as_slice(), &b"".as_slice());
    is_equal(rt, &outcome.status, &0);
    Ok(())
}

// Runs a session on the first `given` bytes of its input.
fn check_cut(
    rt: &impl Abort,
    host: &HostRuntime,
    talk: &Talk,
    input: &[u8],
    given: usize,
) -> Result<(), Fail> {
    let (answers, read) = answered(host.alloc(), talk.lines, given)?;
    let front = input.get(..given).ok_or("a beginning")?;
    let outcome = run(host, talk.arguments, front, SOUND);
    check_beginning(rt, &outcome, answers.as_slice(), read < given)
}

// Runs a session on each beginning of its input.
fn check_cuts(rt: &impl Abort, host: &HostRuntime, talk: &Talk) -> Result<(), Fail> {
    let input = input_of(host.alloc(), talk.lines)?;
    for given in 0..=input.len() {
        check_cut(rt, host, talk, input.as_slice(), given)?;
    }
    Ok(())
}

// Whole lines are answered as ever. What is left of a line at the input's end is read as a line of its own.
#[test]
fn inputs_cut_after_each_byte(rt: HostRuntime) -> Result<(), Fail> {
    for talk in &TALKS {
        check_cuts(&rt, &rt, talk)?;
    }
    Ok(())
}

// Runs a session that is read byte by byte, where the read numbered `call` fails: `call - 1` bytes came before it.
fn check_failed_read(
    rt: &impl Abort,
    host: &HostRuntime,
    talk: &Talk,
    input: &[u8],
    call: usize,
) -> Result<(), Fail> {
    let given = call.saturating_sub(1);
    let (answers, _) = answered(host.alloc(), talk.lines, given)?;
    let devices = Devices {
        piece: 1,
        read_fails: call as u64,
        ..SOUND
    };
    let wanted = Wanted {
        output: answers.as_slice(),
        errors: READ_FAILED,
        status: 1,
    };
    run(host, talk.arguments, input, devices).check(rt, wanted);
    Ok(())
}

// Runs a session once for each of its reads, which then fails.
fn check_failed_reads(rt: &impl Abort, host: &HostRuntime, talk: &Talk) -> Result<(), Fail> {
    let input = input_of(host.alloc(), talk.lines)?;
    for call in 1..=input.len() {
        check_failed_read(rt, host, talk, input.as_slice(), call)?;
    }
    Ok(())
}

// The lines that were whole before the failure are answered, and no more.
#[test]
fn reads_that_fail_at_each_call(rt: HostRuntime) -> Result<(), Fail> {
    for talk in &TALKS {
        check_failed_reads(&rt, &rt, talk)?;
    }
    Ok(())
}

// Asserts that a run wrote a beginning of the answers, and that it reported a failed write if its status isn't 0.
fn check_taken(rt: &impl Abort, outcome: &Outcome, answers: &[u8]) {
    assert!(rt; answers.starts_with(outcome.output.as_slice()));
    if outcome.status != 0 {
        is_equal(rt, &outcome.errors.as_slice(), &WRITE_FAILED);
        is_equal(rt, &outcome.status, &1);
    }
}

// Runs the program once for each call of its output, a write of one byte or a flush, which then fails, up to the first
// run in which none fails. A failure at a later call never leaves less written.
fn check_each_write(
    rt: &impl Abort,
    host: &HostRuntime,
    arguments: &[&str],
    input: &[u8],
    answers: &[u8],
) {
    let mut taken_before = 0;
    for call in 1..=CALLS {
        let devices = Devices {
            taken: 1,
            write_fails: call,
            ..SOUND
        };
        let outcome = run(host, arguments, input, devices);
        check_taken(rt, &outcome, answers);
        assert!(rt; outcome.output.len() >= taken_before);
        taken_before = outcome.output.len();
        if outcome.status == 0 {
            break;
        }
    }
    is_equal(rt, &taken_before, &answers.len());
}

// Runs a session so, against all of its answers.
fn check_failed_writes(rt: &impl Abort, host: &HostRuntime, talk: &Talk) -> Result<(), Fail> {
    let input = input_of(host.alloc(), talk.lines)?;
    let (answers, _) = answered(host.alloc(), talk.lines, input.len())?;
    check_each_write(
        rt,
        host,
        talk.arguments,
        input.as_slice(),
        answers.as_slice(),
    );
    Ok(())
}

// Wherever the output fails, a beginning of the answers was taken, and the failure is reported.
#[test]
fn writes_that_fail_at_each_call(rt: HostRuntime) -> Result<(), Fail> {
    for talk in &TALKS {
        check_failed_writes(&rt, &rt, talk)?;
    }
    Ok(())
}

// Runs a session whose output takes no byte: that is a failed write.
fn check_nothing_taken(rt: &impl Abort, host: &HostRuntime, talk: &Talk) -> Result<(), Fail> {
    let input = input_of(host.alloc(), talk.lines)?;
    let devices = Devices { taken: 0, ..SOUND };
    let wanted = Wanted {
        output: b"",
        errors: WRITE_FAILED,
        status: 1,
    };
    run(host, talk.arguments, input.as_slice(), devices).check(rt, wanted);
    Ok(())
}

// Runs each session so.
#[test]
fn writers_that_take_nothing(rt: HostRuntime) -> Result<(), Fail> {
    for talk in &TALKS {
        check_nothing_taken(&rt, &rt, talk)?;
    }
    Ok(())
}

// A text of one game, one of two games, and the lines that `verify` writes of them.
const FIRST: &[u8] = b"1. e4 *\n";

const BOTH: &[u8] = b"1. e4 *\n1. f3 e5 2. g4 Qh4# 0-1\n";

const FIRST_LINE: &[u8] = b"game 1: 1 half-moves, *\n";

const LINES: &[u8] = b"game 1: 1 half-moves, *\ngame 2: 4 half-moves, 0-1\n";

// The lines are the same however the text is cut.
#[test]
fn games_in_all_pieces(rt: HostRuntime) {
    let wanted = Wanted::without_errors(LINES, 0);
    check_in_all_pieces(&rt, &rt, &["verify"], BOTH, wanted);
}

// Asserts what comes of the first `given` bytes of BOTH. There is no fault where they end after a game, with or without
// the line end after it, or before the first; and once the first game is whole its line is written.
fn check_front(rt: &impl Abort, outcome: &Outcome, given: usize) {
    let is_whole = given == 0
        || given == FIRST.len() - 1
        || given == FIRST.len()
        || given >= BOTH.len() - 1;
    is_equal(rt, &(outcome.status == 0), &is_whole);
    if given >= FIRST.len() - 1 {
        assert!(rt; outcome.output.starts_with(FIRST_LINE));
    }
    is_equal(rt, &outcome.errors.as_slice(), &b"".as_slice());
}

// Verifies the first `given` bytes of BOTH.
fn verify_front(rt: &impl Abort, host: &HostRuntime, given: usize) -> Result<(), Fail> {
    let front = BOTH.get(..given).ok_or("a beginning")?;
    check_front(rt, &run(host, &["verify"], front, SOUND), given);
    Ok(())
}

// Verifies each beginning of the text.
#[test]
fn texts_cut_after_each_byte(rt: HostRuntime) -> Result<(), Fail> {
    for given in 0..=BOTH.len() {
        verify_front(&rt, &rt, given)?;
    }
    Ok(())
}

// Verifies both games, read byte by byte, where the read numbered `call` fails.
fn verify_failed_read(rt: &impl Abort, host: &HostRuntime, call: usize) {
    let devices = Devices {
        piece: 1,
        read_fails: call as u64,
        ..SOUND
    };
    let wanted = Wanted {
        output: b"",
        errors: READ_FAILED,
        status: 1,
    };
    run(host, &["verify"], BOTH, devices).check(rt, wanted);
}

// Without `--keep-going` nothing is written before the whole text was read.
#[test]
fn reads_of_games_that_fail(rt: HostRuntime) {
    for call in 1..=BOTH.len() {
        verify_failed_read(&rt, &rt, call);
    }
}

// Verifies both games on an output that takes a byte at a time and fails after `taken` of them.
fn verify_failed_write(rt: &impl Abort, host: &HostRuntime, taken: usize) -> Result<(), Fail> {
    let devices = Devices {
        taken: 1,
        write_fails: (taken as u64).saturating_add(1),
        ..SOUND
    };
    let wanted = Wanted {
        output: LINES.get(..taken).ok_or("a beginning")?,
        errors: WRITE_FAILED,
        status: 1,
    };
    run(host, &["verify"], BOTH, devices).check(rt, wanted);
    Ok(())
}

// Lets each write fail, and at last the flush after them.
#[test]
fn writes_of_games_that_fail(rt: HostRuntime) -> Result<(), Fail> {
    for taken in 0..=LINES.len() {
        verify_failed_write(&rt, &rt, taken)?;
    }
    Ok(())
}
