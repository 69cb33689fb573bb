//! Games as `verify` reads them, by its arguments.

use crate::collection::COLLECTION;
use crate::readers::{Parts, Spaces, run_on};
use crate::runs::{Devices, SOUND, Wanted, check_output, is_equal};
use byte_devices::{Counted, GatedWriter};
use chess_arbiter::{Log, ProcessHost, run_program};
use std::cell::Cell;
use std::process::Abort;

// Texts, what `verify` writes of them, and the status.
const GAMES: [(&[u8], &[u8], u8); 17] = [
    (
        b"1.e4 {a} e5 (1...c5 2.Nf3) 2.Nf3 $1 *",
        b"game 1: 3 half-moves, *\n",
        0,
    ),
    (b"1. e4 e4 *", b"game 1: illegal move at byte 6\n", 1),
    (
        b"* 1. d4 1/2-1/2",
        b"game 1: 0 half-moves, *\ngame 2: 1 half-moves, 1/2-1/2\n",
        0,
    ),
    (b"1. e4", b"game 1: no result at byte 5\n", 1),
    (b"1. e4 {x", b"game 1: unclosed comment at byte 6\n", 1),
    (b"1. e4 (e5 *", b"game 1: unclosed variation at byte 6\n", 1),
    (b"1. e4 & *", b"game 1: bad token at byte 6\n", 1),
    (b"[Event \"x\" 1. e4 *", b"game 1: bad tag at byte 0\n", 1),
    (
        b"[FEN \"8/8/8/8/8/8/8/8 w - - 0 1\"] *",
        b"game 1: bad FEN at byte 6\n",
        1,
    ),
    (
        b"[FEN \"4k3/8/8/8/8/5N2/8/1N2K3 w - - 0 1\"] Nd2 *",
        b"game 1: ambiguous move at byte 42\n",
        1,
    ),
    (
        b"1. f3 e5 2. g4 Qh4 a3 *",
        b"game 1: move after the end at byte 19\n",
        1,
    ),
    (
        b"1. f3 e5 2. g4 Qh4# 0-1\n\n% a line\n1. e4 ; a comment\n1-0\n",
        b"game 1: 4 half-moves, 0-1\ngame 2: 1 half-moves, 1-0\n",
        0,
    ),
    // How a game ended, where its text says it: each for itself.
    (
        b"[Termination \"Time forfeit\"] 1. e4 1-0",
        b"game 1: 1 half-moves, 1-0, time forfeit\n",
        0,
    ),
    (
        b"[Termination \"x\"] 1. e4 1-0",
        b"game 1: 1 half-moves, 1-0\n",
        0,
    ),
    (
        b"[Termination \"rules infraction\"] 1/2-1/2 1. e4 * [Termination \"ABANDONED\"] 0-1",
        b"game 1: 0 half-moves, 1/2-1/2, rules infraction\ngame 2: 1 half-moves, *\ngame 3: 0 half-moves, 0-1, abandoned\n",
        0,
    ),
    // Chess960, by its tag Variant.
    (
        b"[Variant \"Chess960\"] [FEN \"4k3/8/8/8/8/8/8/RK5R w HA - 0 1\"] 1. O-O-O *",
        b"game 1: 1 half-moves, *\n",
        0,
    ),
    (b"", b"", 0),
];

// Verifies each row, in reads of at most 7 and writes of at most 5 bytes.
#[test]
fn games_are_verified(rt: HostRuntime) {
    let devices = Devices {
        piece: 7,
        taken: 5,
        ..SOUND
    };
    for (text, output, status) in &GAMES {
        check_output(&rt, &rt, &["verify"], text, devices, output, *status);
    }
}

// The output's gate is shut by each write and opened by each flush. It is open at the end, so nothing is left
// unflushed.
#[test]
fn lines_on_games_are_flushed(rt: HostRuntime) {
    let open = Cell::new(true);
    let mut input = Counted::reading(b"* 1. e4 *".as_slice());
    let mut output = Counted::writing(GatedWriter::new(rt.alloc(), &open));
    let mut errors = Log::new(Counted::writing(Vec::<u8>::new(rt.alloc())));
    let status = run_program(
        &mut ProcessHost::new(&rt, rt.alloc()),
        rt.alloc(),
        &["verify"],
        &mut input,
        &mut output,
        &mut errors,
    );
    is_equal(&rt, &status, &0);
    is_equal(
        &rt,
        &output.writer().bytes.as_slice(),
        &b"game 1: 0 half-moves, *\ngame 2: 1 half-moves, *\n".as_slice(),
    );
    assert!(rt; open.get());
}

// An input that doesn't end within 16 MiB is refused, and no game of it reported.
#[test]
fn more_than_16_mebibytes_are_too_long(rt: HostRuntime) {
    let wanted = Wanted {
        output: b"",
        errors: b"arbiter: input too long\n",
        status: 1,
    };
    run_on(&rt, &["verify"], Spaces).check(&rt, wanted);
}

// Arguments of `verify`, a text, what is written of it, and the status.
const BY_ARGUMENTS: [(&[&str], &[u8], &[u8], u8); 13] = [
    (
        &["verify", "--keep-going"],
        COLLECTION,
        b"game 1: 2 half-moves, *\ngame 2: illegal move at byte 44\ngame 3: 1 half-moves, 1-0\ngames 2 half-moves 3 faults 1\n",
        1,
    ),
    (
        &["verify", "--keep-going", "--quiet"],
        COLLECTION,
        b"game 2: illegal move at byte 44\ngames 2 half-moves 3 faults 1\n",
        1,
    ),
    (
        &["verify", "--quiet", "--keep-going"],
        COLLECTION,
        b"game 2: illegal move at byte 44\ngames 2 half-moves 3 faults 1\n",
        1,
    ),
    (
        &["verify", "--quiet"],
        COLLECTION,
        b"game 2: illegal move at byte 44\n",
        1,
    ),
    (&["verify", "--quiet"], b"1. e4 * 1. d4 *", b"", 0),
    (
        &["verify", "--keep-going"],
        b"1. e4 * 1. d4 d5 *",
        b"game 1: 1 half-moves, *\ngame 2: 2 half-moves, *\ngames 2 half-moves 3 faults 0\n",
        0,
    ),
    (
        &["verify", "--keep-going"],
        b"",
        b"games 0 half-moves 0 faults 0\n",
        0,
    ),
    // A line that begins with any tag begins a piece after moves, also after spaces.
    (
        &["verify", "--keep-going"],
        b"1. e4 e4 *\n[Site \"x\"]\n *\n [Event \"y\"] *",
        b"game 1: illegal move at byte 6\ngame 2: 0 half-moves, *\ngame 3: 0 half-moves, *\ngames 2 half-moves 0 faults 1\n",
        1,
    ),
    // The second piece has a tag and no game.
    (
        &["verify", "--keep-going"],
        b"1. e4\n[Event \"x\"]\n[Event \"y\"] 1. e4 *",
        b"game 1: no result at byte 6\ngame 2: no result at byte 18\ngame 3: 1 half-moves, *\ngames 1 half-moves 1 faults 2\n",
        1,
    ),
    // The last piece is no whole tag.
    (
        &["verify", "--keep-going"],
        b"1. e4\n[Event \"",
        b"game 1: no result at byte 6\ngame 2: bad tag at byte 6\ngames 0 half-moves 0 faults 2\n",
        1,
    ),
    (
        &["verify", "--keep-going"],
        b"1. e4 & *\n[Event \"",
        b"game 1: bad token at byte 6\ngame 2: bad tag at byte 10\ngames 0 half-moves 0 faults 2\n",
        1,
    ),
    // Without its `"` a tag's beginning is a line of moves, and no piece begins there.
    (
        &["verify", "--keep-going"],
        b"1. e4\n[Event ",
        b"game 1: no result at byte 6\ngames 0 half-moves 0 faults 1\n",
        1,
    ),
    (
        &["verify", "--keep-going"],
        b"1. e4 & *\n[Event ",
        b"game 1: bad token at byte 6\ngames 0 half-moves 0 faults 1\n",
        1,
    ),
];

// Verifies each row in reads of several lengths.
#[test]
fn games_verified_by_arguments(rt: HostRuntime) {
    for (arguments, text, output, status) in &BY_ARGUMENTS {
        for piece in [1, 7, 100] {
            let devices = Devices { piece, ..SOUND };
            check_output(&rt, &rt, arguments, text, devices, output, *status);
        }
    }
}

// Texts with a long comment of bytes `a`: the arguments, the text before these, how many they are, the text after them,
// what is written, and the status.
const LONG: [(&[&str], &[u8], usize, &[u8], &[u8], u8); 7] = [
    // The text has 16,777,216 bytes.
    (
        &["verify"],
        b"{",
        16_777_212,
        b"} *",
        b"game 1: 0 half-moves, *\n",
        0,
    ),
    // It has one more.
    (&["verify"], b"{", 16_777_213, b"} *", b"", 1),
    // The first piece has 16,777,216 bytes, the one before the second's `[` among them.
    (
        &["verify", "--keep-going"],
        b"{",
        16_777_211,
        b"} *\n[Event \"y\"]\n1. d4 d5 *",
        b"game 1: 0 half-moves, *\ngame 2: 2 half-moves, *\ngames 2 half-moves 2 faults 0\n",
        0,
    ),
    // It has one more.
    (
        &["verify", "--keep-going"],
        b"{",
        16_777_212,
        b"} *\n[Event \"y\"]\n1. d4 d5 *",
        b"game 1: too long at byte 0\ngame 2: 2 half-moves, *\ngames 1 half-moves 2 faults 1\n",
        1,
    ),
    // The last piece is too long, and offsets count from the input's first byte.
    (
        &["verify", "--keep-going", "--quiet"],
        b"1. e4 *\n[Event \"x\"]\n{",
        16_777_216,
        b"",
        b"game 2: too long at byte 8\ngames 1 half-moves 1 faults 1\n",
        1,
    ),
    // Its span is the piece.
    (
        &["verify", "--keep-going", "--quiet", "--spans"],
        b"1. e4 *\n[Event \"x\"]\n{",
        16_777_216,
        b"",
        b"game 2: too long at byte 8, bytes 8 to 16777237\ngames 1 half-moves 1 faults 1\n",
        1,
    ),
    // An offset of more than 16,777,216.
    (
        &["verify", "--keep-going", "--quiet"],
        b"{",
        16_777_200,
        b"} *\n[Event \"y\"]\n1. e4 e4 *",
        b"game 2: illegal move at byte 16777223\ngames 1 half-moves 0 faults 1\n",
        1,
    ),
];

// Verifies such a text, and asserts what is written, and the status.
fn check_long(
    rt: &impl Abort,
    host: &HostRuntime,
    arguments: &[&str],
    text: Parts,
    lines: &[u8],
    status: u8,
) {
    let outcome = run_on(host, arguments, text);
    assert!(rt; outcome.output.as_slice() == lines && outcome.status == status);
}

// Verifies each row.
#[test]
fn texts_with_long_comments(rt: HostRuntime) {
    for (arguments, front, inner, back, lines, status) in &LONG {
        let text = Parts {
            front,
            inner: *inner,
            back,
        };
        check_long(&rt, &rt, arguments, text, lines, *status);
    }
}
