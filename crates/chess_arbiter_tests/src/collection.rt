//! Collections, which `verify --keep-going` cuts into pieces and goes on reading after a fault.

use crate::readers::{Parts, run_on};
use crate::runs::{Devices, SOUND, Wanted, check_in_all_pieces, run};
use std::process::Abort;
use std::test::Fail;

// The arguments of the runs below.
const KEEP_GOING: &[&str] = &["verify", "--keep-going"];

// Collections, what `verify --keep-going` writes of them (a line for each game or fault, and then the counts), and the
// program's status: 1 if there is a fault.
const PIECES: [(&[u8], &[u8], u8); 17] = [
    // Tags without a game: there is no result where the text ends.
    (
        b"[Event \"a\"]\n[Site \"b\"]\n",
        b"game 1: no result at byte 23\ngames 0 half-moves 0 faults 1\n",
        1,
    ),
    // A game without a result hides no other.
    (
        b"[Event \"a\"]\n\n1. e4\n\n[Event \"b\"]\n\n1. d4 *\n",
        b"game 1: no result at byte 20\ngame 2: 1 half-moves, *\ngames 1 half-moves 1 faults 1\n",
        1,
    ),
    // Text before the first tag: a game, or none.
    (
        b"1. e4 *\n\n[Event \"a\"]\n1. d4 *",
        b"game 1: 1 half-moves, *\ngame 2: 1 half-moves, *\ngames 2 half-moves 2 faults 0\n",
        0,
    ),
    (
        b"& text\n[Event \"a\"]\n1. d4 *",
        b"game 1: bad token at byte 0\ngame 2: 1 half-moves, *\ngames 1 half-moves 1 faults 1\n",
        1,
    ),
    (
        b"\n\n[Event \"a\"]\n1. d4 *",
        b"game 1: 1 half-moves, *\ngames 1 half-moves 1 faults 0\n",
        0,
    ),
    // A comment, a variation and a tag end with their piece.
    (
        b"1. e4 {x\n[Event \"b\"]\n1. d4 *",
        b"game 1: unclosed comment at byte 6\ngame 2: 1 half-moves, *\ngames 1 half-moves 1 faults 1\n",
        1,
    ),
    (
        b"1. e4 (1. d4\n[Event \"b\"]\n1. d4 *",
        b"game 1: unclosed variation at byte 6\ngame 2: 1 half-moves, *\ngames 1 half-moves 1 faults 1\n",
        1,
    ),
    (
        b"[Site \"x\n*\n[Event \"b\"]\n1. d4 *",
        b"game 1: bad tag at byte 0\ngame 2: 1 half-moves, *\ngames 1 half-moves 1 faults 1\n",
        1,
    ),
    (
        b"[Site \"x\n[Event \"b\"]\n1. d4 *",
        b"game 1: bad tag at byte 0\ngame 2: 1 half-moves, *\ngames 1 half-moves 1 faults 1\n",
        1,
    ),
    // Without moves between them tags stay together.
    (
        b"[Site \"x\"] {\n[Event \"b\"]\n1. d4 *",
        b"game 1: unclosed comment at byte 11\ngames 0 half-moves 0 faults 1\n",
        1,
    ),
    // In the middle of a line no piece begins.
    (
        b"1. e4 {x [Event \"b\"]} (1. d4 {[Event \"c\"]}) * [Event \"d\"] e4 e4 *",
        b"game 1: 1 half-moves, *\ngame 2: illegal move at byte 61\ngames 1 half-moves 1 faults 1\n",
        1,
    ),
    // After a space it does, and before any name.
    (
        b"1. e4 e4 *\n [Event \"b\"] *\n[Events \"c\"] *\n[event \"d\"] *",
        b"game 1: illegal move at byte 6\ngame 2: 0 half-moves, *\ngame 3: 0 half-moves, *\ngame 4: 0 half-moves, *\ngames 3 half-moves 0 faults 1\n",
        1,
    ),
    // Lines that end with bytes 13 and 10, and with 13 alone.
    (
        b"[Event \"a\"]\r\n\r\n1. e4 *\r\n\r\n[Event \"b\"]\r\n\r\n1. d4 d5 1-0\r\n",
        b"game 1: 1 half-moves, *\ngame 2: 2 half-moves, 1-0\ngames 2 half-moves 3 faults 0\n",
        0,
    ),
    (
        b"1. e4 e4 *\r[Event \"b\"]\r1. d4 *",
        b"game 1: illegal move at byte 6\ngame 2: 1 half-moves, *\ngames 1 half-moves 1 faults 1\n",
        1,
    ),
    // After a fault reading goes on where its game ends.
    (
        b"[Event \"a\"]\n1. e4 * e5 * *\n[Event \"b\"]\n* 1. d4 *",
        b"game 1: 1 half-moves, *\ngame 2: illegal move at byte 20\ngame 3: 0 half-moves, *\ngame 4: 0 half-moves, *\ngame 5: 1 half-moves, *\ngames 4 half-moves 2 faults 1\n",
        1,
    ),
    // A byte order mark at the front, and in the middle.
    (
        b"\xef\xbb\xbf[Event \"a\"]\n1. e4 *\n[Event \"b\"]\n\xef\xbb\xbf1. e4 *",
        b"game 1: 1 half-moves, *\ngame 2: bad token at byte 35\ngames 1 half-moves 1 faults 1\n",
        1,
    ),
    (b"", b"games 0 half-moves 0 faults 0\n", 0),
];

// Verifies each row, however its bytes are cut by reads and writes.
#[test]
fn collections_in_all_pieces(rt: HostRuntime) {
    for (text, lines, status) in &PIECES {
        check_in_all_pieces(
            &rt,
            &rt,
            KEEP_GOING,
            text,
            Wanted::without_errors(lines, *status),
        );
    }
}

// Verifies a collection of which one read gives the first `at` bytes and the next ones the rest.
fn check_two_reads(
    rt: &impl Abort,
    host: &HostRuntime,
    arguments: &[&str],
    text: &'static [u8],
    at: usize,
    wanted: Wanted<'_>,
) -> Result<(), Fail> {
    let (front, back) = text.split_at_checked(at).ok_or("an offset")?;
    let parts = Parts {
        front,
        inner: 0,
        back,
    };
    run_on(host, arguments, parts).check(rt, wanted);
    Ok(())
}

/// Verifies a collection that comes in two reads, cut after each byte.
pub fn check_each_cut(
    rt: &impl Abort,
    host: &HostRuntime,
    arguments: &[&str],
    text: &'static [u8],
    wanted: Wanted<'_>,
) -> Result<(), Fail> {
    for at in 0..=text.len() {
        check_two_reads(rt, host, arguments, text, at, wanted)?;
    }
    Ok(())
}

/// Three pieces, the second with a fault; no line feed follows the last. The end of the first is known after 33 bytes,
/// that of the second after 58: with the `"` that makes a line a tag line.
pub const COLLECTION: &[u8] =
    b"[Event \"a\"]\n\n1. e4 e5 *\n\n[Event \"b\"]\n\n1. e4 e4 *\n\n[Event \"c\"]\n\n1. d4 1-0";

// What is written of its first piece, of its first two, of all of it, and of all of it with `--spans`.
const FIRST_LINE: &[u8] = b"game 1: 2 half-moves, *\n";

const TWO_LINES: &[u8] = b"game 1: 2 half-moves, *\ngame 2: illegal move at byte 44\n";

const ALL_LINES: &[u8] =
    b"game 1: 2 half-moves, *\ngame 2: illegal move at byte 44\ngame 3: 1 half-moves, 1-0\ngames 2 half-moves 3 faults 1\n";

const ALL_SPANS: &[u8] =
    b"game 1: 2 half-moves, *, bytes 0 to 23\ngame 2: illegal move at byte 44, bytes 25 to 48\ngame 3: 1 half-moves, 1-0, bytes 50 to 72\ngames 2 half-moves 3 faults 1\n";

// Five pieces, of which the first ends within a comment and the fourth within a variation. There are byte order mark,
// both kinds of line end, and a tag within a comment.
const MIXED: &[u8] =
    b"\xef\xbb\xbf1. e4 {x\n[Event \"b\"]\r\n1. d4 *\r\n\r\n[Event \"c\"] {[Event \"d\"]} *\n[Event \"e\"]\n1. e4 (\n[Event \"f\"]\n*";

// What is written of it.
const MIXED_LINES: &[u8] =
    b"game 1: unclosed comment at byte 9\ngame 2: 1 half-moves, *\ngame 3: 0 half-moves, *\ngame 4: unclosed variation at byte 82\ngame 5: 0 half-moves, *\ngames 3 half-moves 1 faults 2\n";

// A collection that comes in two reads is verified as one that comes in one, wherever it is cut.
#[test]
fn collections_cut_at_each_byte(rt: HostRuntime) -> Result<(), Fail> {
    check_each_cut(
        &rt,
        &rt,
        KEEP_GOING,
        COLLECTION,
        Wanted::without_errors(ALL_LINES, 1),
    )?;
    check_each_cut(
        &rt,
        &rt,
        &["verify", "--keep-going", "--spans"],
        COLLECTION,
        Wanted::without_errors(ALL_SPANS, 1),
    )?;
    check_each_cut(
        &rt,
        &rt,
        KEEP_GOING,
        MIXED,
        Wanted::without_errors(MIXED_LINES, 1),
    )
}

// The lines of COLLECTION that can be written once `given` bytes were read: those of the pieces whose end is known.
fn lines_known(given: usize) -> &'static [u8] {
    if given < 33 {
        b""
    } else if given < 58 {
        FIRST_LINE
    } else {
        TWO_LINES
    }
}

/// Verifies a text that is read byte by byte, where the read after the first `given` bytes fails. Just `lines` are
/// written then, and the failure is reported.
pub fn check_failed_read(
    rt: &impl Abort,
    host: &HostRuntime,
    arguments: &[&str],
    text: &[u8],
    given: usize,
    lines: &[u8],
) {
    let devices = Devices {
        piece: 1,
        read_fails: (given as u64).saturating_add(1),
        ..SOUND
    };
    let wanted = Wanted {
        output: lines,
        errors: b"arbiter: read failed\n",
        status: 1,
    };
    run(host, arguments, text, devices).check(rt, wanted);
}

// Exactly the lines of the pieces whose end was read are written, also where the read at the input's end fails.
#[test]
fn collections_whose_reads_fail(rt: HostRuntime) {
    for given in 0..=COLLECTION.len() {
        let lines = lines_known(given);
        check_failed_read(&rt, &rt, KEEP_GOING, COLLECTION, given, lines);
    }
}

/// Verifies a text whose whole output is `lines`, on an output that takes a byte at a time and fails after `taken` of
/// them (after all: at the flush). These bytes are written then, and the failure is reported.
pub fn check_failed_write(
    rt: &impl Abort,
    host: &HostRuntime,
    arguments: &[&str],
    text: &[u8],
    taken: usize,
    lines: &[u8],
) -> Result<(), Fail> {
    let devices = Devices {
        taken: 1,
        write_fails: (taken as u64).saturating_add(1),
        ..SOUND
    };
    let wanted = Wanted {
        output: lines.get(..taken).ok_or("a beginning")?,
        errors: b"arbiter: write failed\n",
        status: 1,
    };
    run(host, arguments, text, devices).check(rt, wanted);
    Ok(())
}

// Lets the output fail after each number of bytes.
#[test]
fn collections_whose_writes_fail(rt: HostRuntime) -> Result<(), Fail> {
    for taken in 0..=ALL_LINES.len() {
        check_failed_write(&rt, &rt, KEEP_GOING, COLLECTION, taken, ALL_LINES)?;
    }
    Ok(())
}
