//! `verify --strict`: a game's termination is compared with its tag Result and with the verdict of its final position.

use crate::runs::{SOUND, check_output};
use std::process::Abort;
use std::test::Fail;

// The arguments of most runs below.
const STRICT: &[&str] = &["verify", "--strict"];

// Games that end by mate, stalemate, bare material, fivefold repetition and 75 moves: the text before the termination,
// how many half-moves it has, and the outcome by the verdict.
const VERDICTS: [(&str, usize, &str); 5] = [
    ("1. f3 e5 2. g4 Qh4 ", 4, "0-1"),
    (
        "[FEN \"7k/8/6K1/8/8/8/5Q2/8 w - - 0 1\"] Qf7 ",
        1,
        "1/2-1/2",
    ),
    (
        "[FEN \"4k3/8/8/8/8/8/4p3/4K3 w - - 0 1\"] Kxe2 ",
        1,
        "1/2-1/2",
    ),
    (
        "Nf3 Nf6 Ng1 Ng8 Nf3 Nf6 Ng1 Ng8 Nf3 Nf6 Ng1 Ng8 Nf3 Nf6 Ng1 Ng8 ",
        16,
        "1/2-1/2",
    ),
    (
        "[FEN \"4k3/8/8/8/8/8/8/R3K3 w - - 149 100\"] Ra2 ",
        1,
        "1/2-1/2",
    ),
];

// Each termination that a game may have.
const TERMINATIONS: [&str; 4] = ["1-0", "0-1", "1/2-1/2", "*"];

// Verifies a game of VERDICTS with this termination. With `--strict` that is a fault unless it is the verdict's
// outcome; without, it never is.
fn check_verdict(
    rt: &impl Abort,
    host: &HostRuntime,
    verdict: &(&str, usize, &str),
    termination: &str,
) -> Result<(), Fail> {
    let (front, plies, outcome) = verdict;
    let offset = front.len();
    let text = format!(in host.alloc(); "{front}{termination}")?;
    let game = format!(in host.alloc(); "game 1: {plies} half-moves, {termination}\n")?;
    let fault = format!(in host.alloc(); "game 1: board says otherwise at byte {offset}\n")?;
    let bytes = text.as_bytes();
    check_output(rt, host, &["verify"], bytes, SOUND, game.as_bytes(), 0);
    let (line, status) = if termination == *outcome {
        (game.as_bytes(), 0)
    } else {
        (fault.as_bytes(), 1)
    };
    check_output(rt, host, STRICT, bytes, SOUND, line, status);
    Ok(())
}

// Verifies each game with each termination.
#[test]
fn verdicts_beside_terminations(rt: HostRuntime) -> Result<(), Fail> {
    for verdict in &VERDICTS {
        for termination in &TERMINATIONS {
            check_verdict(&rt, &rt, verdict, termination)?;
        }
    }
    Ok(())
}

// Texts with tags Result, what `verify --strict` writes of them, and the status.
const RESULT_TAGS: [(&[u8], &[u8], u8); 18] = [
    // The tag has another text than the termination.
    (
        b"[Result \"1-0\"] 1. e4 0-1",
        b"game 1: result differs at byte 9\n",
        1,
    ),
    (
        b"[Result \"*\"] 1. e4 1/2-1/2",
        b"game 1: result differs at byte 9\n",
        1,
    ),
    (
        b"[Result \"?\"] 1. e4 1-0",
        b"game 1: result differs at byte 9\n",
        1,
    ),
    (
        b"[Result \"\"] 1. e4 *",
        b"game 1: result differs at byte 9\n",
        1,
    ),
    (
        b"[Result \"1/2\"] 1/2-1/2",
        b"game 1: result differs at byte 9\n",
        1,
    ),
    // It has the same.
    (
        b"[Result \"1-0\"] 1. e4 1-0",
        b"game 1: 1 half-moves, 1-0\n",
        0,
    ),
    (b"[Result \"*\"] *", b"game 1: 0 half-moves, *\n", 0),
    // There is none.
    (b"1. e4 1-0", b"game 1: 1 half-moves, 1-0\n", 0),
    // The last of two counts.
    (
        b"[Result \"1-0\"] [Result \"0-1\"] 1. e4 0-1",
        b"game 1: 1 half-moves, 0-1\n",
        0,
    ),
    (
        b"[Result \"0-1\"] [Result \"1-0\"] 1. e4 0-1",
        b"game 1: result differs at byte 24\n",
        1,
    ),
    // A tag after a move, or in a comment, is none.
    (
        b"1. e4 [Result \"0-1\"] 1-0",
        b"game 1: no result at byte 6\n",
        1,
    ),
    (
        b"[Result \"1-0\"] 1. e4 {[Result \"0-1\"]} 1-0",
        b"game 1: 1 half-moves, 1-0\n",
        0,
    ),
    // Each game has its own.
    (
        b"[Result \"1-0\"] 1. e4 1-0 1. d4 0-1",
        b"game 1: 1 half-moves, 1-0\ngame 2: 1 half-moves, 0-1\n",
        0,
    ),
    (
        b"1. e4 0-1 [Result \"1-0\"] 1. d4 0-1 *",
        b"game 1: 1 half-moves, 0-1\ngame 2: result differs at byte 19\n",
        1,
    ),
    // Both differ: the tag comes first.
    (
        b"[Result \"1-0\"] 1. f3 e5 2. g4 Qh4 1/2-1/2",
        b"game 1: result differs at byte 9\n",
        1,
    ),
    // The tag agrees, and the board does not.
    (
        b"[Result \"1-0\"] 1. f3 e5 2. g4 Qh4 1-0",
        b"game 1: board says otherwise at byte 34\n",
        1,
    ),
    (
        b"[Result \"0-1\"] 1. f3 e5 2. g4 Qh4 0-1",
        b"game 1: 4 half-moves, 0-1\n",
        0,
    ),
    // Another fault comes first.
    (
        b"[Result \"1-0\"] 1. e4 e4 0-1",
        b"game 1: illegal move at byte 21\n",
        1,
    ),
];

// Verifies each row.
#[test]
fn result_tags_beside_terminations(rt: HostRuntime) {
    for (text, lines, status) in &RESULT_TAGS {
        check_output(&rt, &rt, STRICT, text, SOUND, lines, *status);
    }
}

// Three pieces: each of the first two has a contradiction and then one more game.
const COLLECTION: &[u8] =
    b"[Event \"a\"]\n[Result \"1-0\"]\n1. e4 0-1 1. d4 *\n[Event \"b\"]\n1. f3 e5 2. g4 Qh4 * 1. d4 *\n[Event \"c\"]\n1. d4 *\n";

// Arguments, and what they write of that collection.
const BY_ARGUMENTS: [(&[&str], &[u8]); 4] = [
    (
        &["verify", "--strict", "--keep-going"],
        b"game 1: result differs at byte 21\ngame 2: 1 half-moves, *\ngame 3: board says otherwise at byte 76\ngame 4: 1 half-moves, *\ngame 5: 1 half-moves, *\ngames 3 half-moves 3 faults 2\n",
    ),
    (
        &["verify", "--keep-going", "--quiet", "--strict"],
        b"game 1: result differs at byte 21\ngame 3: board says otherwise at byte 76\ngames 3 half-moves 3 faults 2\n",
    ),
    (
        &["verify", "--quiet", "--strict"],
        b"game 1: result differs at byte 21\n",
    ),
    (
        &["verify", "--strict"],
        b"game 1: result differs at byte 21\n",
    ),
];

// Runs each row; the status is 1.
#[test]
fn contradictions_end_their_piece(rt: HostRuntime) {
    for (arguments, lines) in &BY_ARGUMENTS {
        check_output(&rt, &rt, arguments, COLLECTION, SOUND, lines, 1);
    }
}

// A game with each of the three faults: of its variant, of its result by the tag, and of its result by the board.
const EACH_KIND: &[u8] = b"[Variant \"Atomic\"] [Result \"1-0\"] 1. f3 e5 2. g4 Qh4 *";

// Values of `--ignore`; what is written of that game with them, which is its first fault that isn't ignored; and the
// status.
const IGNORED: [(&str, &[u8], u8); 6] = [
    ("board", b"game 1: unknown variant at byte 10\n", 1),
    ("variant", b"game 1: result differs at byte 28\n", 1),
    ("result", b"game 1: unknown variant at byte 10\n", 1),
    (
        "variant,result",
        b"game 1: board says otherwise at byte 53\n",
        1,
    ),
    ("board,variant", b"game 1: result differs at byte 28\n", 1),
    ("board,variant,result", b"game 1: 4 half-moves, *\n", 0),
];

// Verifies that game with each value.
#[test]
fn ignored_kinds_are_left_out(rt: HostRuntime) {
    for (kinds, lines, status) in &IGNORED {
        let arguments = ["verify", "--strict", "--ignore", *kinds];
        check_output(
            &rt,
            &rt,
            arguments.as_slice(),
            EACH_KIND,
            SOUND,
            lines,
            *status,
        );
    }
}

// Games that go on after the board ended them: what is written of them, then what is written with `--ignore after-end`,
// and the status then. Only the draws of 2014 (fivefold repetition, 75 moves) can be ignored.
const AFTER_END: [(&[u8], &[u8], &[u8], u8); 6] = [
    // The draws of 2014: five times the same position, and 75 moves of each side.
    (
        b"Nf3 Nf6 Ng1 Ng8 Nf3 Nf6 Ng1 Ng8 Nf3 Nf6 Ng1 Ng8 Nf3 Nf6 Ng1 Ng8 e4 *",
        b"game 1: move after the end at byte 64\n",
        b"game 1: 17 half-moves, *\n",
        0,
    ),
    (
        b"[FEN \"4k3/8/8/8/8/8/8/R3K3 w - - 149 100\"] Ra2 Kd7 *",
        b"game 1: move after the end at byte 47\n",
        b"game 1: 2 half-moves, *\n",
        0,
    ),
    // Mate, stalemate and a dead position.
    (
        b"1. f3 e5 2. g4 Qh4 3. a3 *",
        b"game 1: move after the end at byte 22\n",
        b"game 1: move after the end at byte 22\n",
        1,
    ),
    (
        b"[FEN \"7k/8/6K1/8/8/8/5Q2/8 w - - 0 1\"] Qf7 Kg8 *",
        b"game 1: move after the end at byte 43\n",
        b"game 1: move after the end at byte 43\n",
        1,
    ),
    (
        b"[FEN \"4k3/8/8/8/8/8/4p3/4K3 w - - 0 1\"] Kxe2 Kd7 *",
        b"game 1: move after the end at byte 45\n",
        b"game 1: move after the end at byte 45\n",
        1,
    ),
    // Mate after the position was there for the fifth time.
    (
        b"Nf3 Nf6 Ng1 Ng8 Nf3 Nf6 Ng1 Ng8 Nf3 Nf6 Ng1 Ng8 Nf3 Nf6 Ng1 Ng8 f3 e5 g4 Qh4 a3 *",
        b"game 1: move after the end at byte 64\n",
        b"game 1: move after the end at byte 77\n",
        1,
    ),
];

// Verifies each game in both ways; without the option the status is 1.
#[test]
fn games_go_on_after_draws_of_2014(rt: HostRuntime) {
    for (text, lines, ignoring, status) in &AFTER_END {
        check_output(&rt, &rt, &["verify"], text, SOUND, lines, 1);
        let arguments = ["verify", "--ignore", "after-end"];
        check_output(
            &rt,
            &rt,
            arguments.as_slice(),
            text,
            SOUND,
            ignoring,
            *status,
        );
    }
}

// A game that ends where its position is there for the fifth time: a draw, but its termination says `1-0`.
const FIVE_TIMES: &[u8] = b"Nf3 Nf6 Ng1 Ng8 Nf3 Nf6 Ng1 Ng8 Nf3 Nf6 Ng1 Ng8 Nf3 Nf6 Ng1 Ng8 1-0";

// Arguments, what they write of that game, and the status.
const FIVE_TIMES_BY_ARGUMENTS: [(&[&str], &[u8], u8); 4] = [
    (&["verify"], b"game 1: 16 half-moves, 1-0\n", 0),
    (
        &["verify", "--strict"],
        b"game 1: board says otherwise at byte 64\n",
        1,
    ),
    (
        &["verify", "--strict", "--ignore", "after-end"],
        b"game 1: 16 half-moves, 1-0\n",
        0,
    ),
    (
        &[
            "verify",
            "--strict",
            "--keep-going",
            "--ignore",
            "result,after-end",
        ],
        b"game 1: 16 half-moves, 1-0\ngames 1 half-moves 16 faults 0\n",
        0,
    ),
];

// With `--ignore after-end` such a draw isn't compared with the termination either.
#[test]
fn ignored_draws_are_not_compared_with_the_result(rt: HostRuntime) {
    for (arguments, lines, status) in &FIVE_TIMES_BY_ARGUMENTS {
        check_output(&rt, &rt, arguments, FIVE_TIMES, SOUND, lines, *status);
    }
}
