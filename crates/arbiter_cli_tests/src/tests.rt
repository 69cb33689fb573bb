//! What the arguments of the command line ask for, and which are refused.

use arbiter_cli::{Plan, WordsFault, read_words};
use cecp_engine::{Level, LevelFault};
use chess_base::Variant;
use chess_fen::write_fen;
use chess_match::{Draws, GamesPlan};
use std::alloc::{AllocError, Global};
use std::fmt::Debug;
use std::process::Abort;
use std::test::Fail;
use verify_options::{Strictness, VerifyOptions};

// Asserts that two values are equal. One function for all types, since an assertion for each costs much to prove.
fn is_equal<T: PartialEq + Debug>(rt: &impl Abort, found: &T, wanted: &T) {
    assert_eq!(rt; *found, *wanted);
}

// Without arguments the plan is a session, as with the word `session`.
#[test]
fn plans_without_arguments(rt: HostRuntime) -> Result<(), Fail> {
    let none: [&str; 0] = [];
    assert!(rt; matches!(read_words(rt.alloc(), none.as_slice())?, Plan::Session));
    assert!(rt;
        matches!(
            read_words(rt.alloc(), ["session"].as_slice())?,
            Plan::Session
        )
    );
    Ok(())
}

// Arguments of `verify`, and the flags that they set: keep-going, quiet, strict, explain, spans, names,
// variations.
const VERIFY: [(&[&str], bool, bool, bool, bool, bool, bool, bool); 23] = [
    (&["verify"], false, false, false, false, false, false, false),
    (
        &["verify", "--keep-going"],
        true,
        false,
        false,
        false,
        false,
        false,
        false,
    ),
    (
        &["verify", "--quiet"],
        false,
        true,
        false,
        false,
        false,
        false,
        false,
    ),
    (
        &["verify", "--strict"],
        false,
        false,
        true,
        false,
        false,
        false,
        false,
    ),
    (
        &["verify", "--explain"],
        false,
        false,
        false,
        true,
        false,
        false,
        false,
    ),
    (
        &["verify", "--keep-going", "--quiet"],
        true,
        true,
        false,
        false,
        false,
        false,
        false,
    ),
    (
        &["verify", "--quiet", "--keep-going"],
        true,
        true,
        false,
        false,
        false,
        false,
        false,
    ),
    (
        &["verify", "--strict", "--quiet"],
        false,
        true,
        true,
        false,
        false,
        false,
        false,
    ),
    (
        &["verify", "--keep-going", "--strict"],
        true,
        false,
        true,
        false,
        false,
        false,
        false,
    ),
    (
        &["verify", "--explain", "--keep-going"],
        true,
        false,
        false,
        true,
        false,
        false,
        false,
    ),
    (
        &["verify", "--quiet", "--explain"],
        false,
        true,
        false,
        true,
        false,
        false,
        false,
    ),
    (
        &["verify", "--strict", "--keep-going", "--quiet"],
        true,
        true,
        true,
        false,
        false,
        false,
        false,
    ),
    (
        &["verify", "--quiet", "--strict", "--keep-going"],
        true,
        true,
        true,
        false,
        false,
        false,
        false,
    ),
    (
        &["verify", "--explain", "--strict", "--quiet"],
        false,
        true,
        true,
        true,
        false,
        false,
        false,
    ),
    (
        &["verify", "--keep-going", "--quiet", "--strict", "--explain"],
        true,
        true,
        true,
        true,
        false,
        false,
        false,
    ),
    (
        &["verify", "--explain", "--strict", "--quiet", "--keep-going"],
        true,
        true,
        true,
        true,
        false,
        false,
        false,
    ),
    (
        &["verify", "--spans"],
        false,
        false,
        false,
        false,
        true,
        false,
        false,
    ),
    (
        &["verify", "--spans", "--keep-going"],
        true,
        false,
        false,
        false,
        true,
        false,
        false,
    ),
    (
        &[
            "verify",
            "--explain",
            "--strict",
            "--quiet",
            "--spans",
            "--keep-going",
        ],
        true,
        true,
        true,
        true,
        true,
        false,
        false,
    ),
    (
        &["verify", "--names"],
        false,
        false,
        false,
        false,
        false,
        true,
        false,
    ),
    (
        &["verify", "--names", "--spans", "--quiet"],
        false,
        true,
        false,
        false,
        true,
        true,
        false,
    ),
    (
        &["verify", "--variations"],
        false,
        false,
        false,
        false,
        false,
        false,
        true,
    ),
    (
        &["verify", "--strict", "--variations", "--names"],
        false,
        false,
        true,
        false,
        false,
        true,
        true,
    ),
];

// Reads the arguments of each row, whose options come in any order, and compares the plan. `--strict` sets three tests
// at once: the variant, the tag Result and the board.
#[test]
fn verify_by_its_options(rt: HostRuntime) -> Result<(), Fail> {
    for (arguments, keep_going, quiet, strict, explain, spans, names, variations) in &VERIFY {
        let Plan::Verify {
            keep_going: keeps_going,
            options,
        } = read_words(rt.alloc(), arguments)?
        else {
            return Err(Fail::new("another plan"));
        };
        is_equal(&rt, &keeps_going, keep_going);
        is_equal(
            &rt,
            &options,
            &VerifyOptions {
                quiet: *quiet,
                strict: Strictness {
                    draws_of_2014: true,
                    variations: *variations,
                    variant: *strict,
                    result: *strict,
                    board: *strict,
                },
                spans: *spans,
                names: *names,
                explain: *explain,
            },
        );
    }
    Ok(())
}

// Arguments of `verify` with `--ignore`, and whether these faults are then looked for: an unknown variant, a result
// that differs from the tag Result, one that differs from the board's verdict, and a move after one of the draws of
// 2014 (fivefold repetition, 75 moves).
const IGNORED: [(&[&str], bool, bool, bool, bool); 13] = [
    (&["verify", "--ignore", "board"], false, false, false, true),
    (
        &["verify", "--strict", "--ignore", "board"],
        true,
        true,
        false,
        true,
    ),
    (
        &["verify", "--ignore", "result", "--strict"],
        true,
        false,
        true,
        true,
    ),
    (
        &["verify", "--strict", "--ignore=variant"],
        false,
        true,
        true,
        true,
    ),
    (
        &["verify", "--strict", "--ignore", "board,variant"],
        false,
        true,
        false,
        true,
    ),
    (
        &["verify", "--strict", "--ignore", "variant,board"],
        false,
        true,
        false,
        true,
    ),
    (
        &["verify", "--strict", "--ignore", "result,result"],
        true,
        false,
        true,
        true,
    ),
    (
        &["verify", "--strict", "--ignore", "variant,result,board"],
        false,
        false,
        false,
        true,
    ),
    (&["verify", "--strict", "--quiet"], true, true, true, true),
    (
        &["verify", "--ignore", "after-end"],
        false,
        false,
        false,
        false,
    ),
    (
        &["verify", "--ignore=after-end", "--strict"],
        true,
        true,
        true,
        false,
    ),
    (
        &["verify", "--strict", "--ignore", "board,after-end"],
        true,
        true,
        false,
        false,
    ),
    (
        &["verify", "--ignore", "after-end,after-end,result"],
        false,
        false,
        false,
        false,
    ),
];

// A kind that is ignored is not looked for. Without `--strict` only moves after a draw of 2014 are looked for, unless
// `after-end` is ignored.
#[test]
fn kinds_are_ignored(rt: HostRuntime) -> Result<(), Fail> {
    for (arguments, variant, result, board, draws_of_2014) in &IGNORED {
        let Plan::Verify { options, .. } = read_words(rt.alloc(), arguments)? else {
            return Err(Fail::new("another plan"));
        };
        is_equal(&rt, &options.strict.variant, variant);
        is_equal(&rt, &options.strict.result, result);
        is_equal(&rt, &options.strict.board, board);
        is_equal(&rt, &options.strict.draws_of_2014, draws_of_2014);
    }
    Ok(())
}

// Values of `--ignore` that are not names of kinds with commas between.
const NO_KINDS: [&str; 12] = [
    "",
    "Board",
    "board,",
    ",board",
    "board,,result",
    "board, result",
    "board;result",
    "boards",
    "after",
    "after_end",
    "After-end",
    "after-end-board",
];

// Each of these values is refused as a bad kind.
#[test]
fn other_kinds_are_refused(rt: HostRuntime) -> Result<(), Fail> {
    for kinds in &NO_KINDS {
        match read_words(rt.alloc(), ["verify", "--ignore", *kinds].as_slice()) {
            Err(WordsFault::BadKind) => {}
            _ => return Err(Fail::new("no bad kind")),
        }
    }
    Ok(())
}

// Arguments of `stub`, and how many of them it plays.
const STUBS: [(&[&str], usize); 3] = [
    (&["stub", "e2e4", "offer"], 2),
    (&["stub"], 0),
    (&["stub", "--", "-x"], 1),
];

// The plan of a stub has the last arguments, of the number that the row gives.
#[test]
fn a_stub_keeps_its_arguments(rt: HostRuntime) -> Result<(), Fail> {
    for (arguments, count) in &STUBS {
        let Plan::Stub(found) = read_words(rt.alloc(), arguments)? else {
            return Err(Fail::new("another plan"));
        };
        is_equal(&rt, &found.len(), count);
        assert!(rt; arguments.ends_with(found.as_slice()));
    }
    Ok(())
}

// Arguments of `match`, and the plan that they give: both engines' commands, the level of both (the moves per session,
// the base and the increment, both in milliseconds), the variant and the FEN of the start, how many games are played,
// the date, and whether there is a log.
struct MatchRow {
    arguments: &'static [&'static str],
    white: &'static str,
    black: &'static str,
    level: [u32; 3],
    variant: Variant,
    fen: &'static [u8],
    games: u16,
    date: &'static str,
    log: bool,
}

// A match with nothing but its engines, one with most options, and one of each variant from its initial position.
const MATCHES: [MatchRow; 4] = [
    MatchRow {
        arguments: &["match", "--white", "a b", "--black=c"],
        white: "a b",
        black: "c",
        level: [40, 300_000, 0],
        variant: Variant::Normal,
        fen: b"rnbqkbnr/pppppppp/8/8/8/8/PPPPPPPP/RNBQKBNR w KQkq - 0 1",
        games: 1,
        date: "????.??.??",
        log: false,
    },
    MatchRow {
        arguments: &[
            "match",
            "--date",
            "2026.11.23",
            "--games",
            "1000",
            "--fen",
            "4k3/8/8/8/8/8/8/RK5R w KQ - 0 1",
            "--level=0 0:30.5 0.08",
            "--variant",
            "fischerandom",
            "--log",
            "--black",
            "y",
            "--white=-x",
        ],
        white: "-x",
        black: "y",
        level: [0, 30_500, 80],
        variant: Variant::Fischerandom,
        fen: b"4k3/8/8/8/8/8/8/RK5R w HA - 0 1",
        games: 1000,
        date: "2026.11.23",
        log: true,
    },
    MatchRow {
        arguments: &[
            "match",
            "--white",
            "x",
            "--black",
            "y",
            "--variant",
            "normal",
        ],
        white: "x",
        black: "y",
        level: [40, 300_000, 0],
        variant: Variant::Normal,
        fen: b"rnbqkbnr/pppppppp/8/8/8/8/PPPPPPPP/RNBQKBNR w KQkq - 0 1",
        games: 1,
        date: "????.??.??",
        log: false,
    },
    MatchRow {
        arguments: &[
            "match",
            "--white",
            "x",
            "--black",
            "y",
            "--variant",
            "fischerandom",
        ],
        white: "x",
        black: "y",
        level: [40, 300_000, 0],
        variant: Variant::Fischerandom,
        fen: b"rnbqkbnr/pppppppp/8/8/8/8/PPPPPPPP/RNBQKBNR w HAha - 0 1",
        games: 1,
        date: "????.??.??",
        log: false,
    },
];

// A level as rows give it: the moves per session, the base and the increment, both in milliseconds.
fn level_in(level: Level) -> [u32; 3] {
    [
        level.moves(),
        level.base_milliseconds(),
        level.increment_milliseconds(),
    ]
}

// Asserts that a plan gives both sides the row's level, and has its variant and start.
fn check_setup(rt: &impl Abort, plan: &GamesPlan<'_>, row: &MatchRow) {
    is_equal(rt, &level_in(plan.white_level), &row.level);
    is_equal(rt, &level_in(plan.black_level), &row.level);
    is_equal(rt, &plan.start.variant(), &row.variant);
    is_equal(rt, &write_fen(&plan.start).as_slice(), &row.fen);
}

// Asserts that a plan is what the row says.
fn check_match(rt: &impl Abort, plan: &GamesPlan<'_>, row: &MatchRow) {
    is_equal(
        rt,
        &[plan.white, plan.black, plan.date],
        &[row.white, row.black, row.date],
    );
    is_equal(rt, &plan.games, &row.games);
    is_equal(rt, &plan.log, &row.log);
    check_setup(rt, plan, row);
}

// Reads the arguments of each row, and compares the plan.
#[test]
fn a_match_by_its_options(rt: HostRuntime) -> Result<(), Fail> {
    for row in &MATCHES {
        let Plan::Match(plan) = read_words(rt.alloc(), row.arguments)? else {
            return Err(Fail::new("another plan"));
        };
        check_match(&rt, &plan, row);
    }
    Ok(())
}

// Options of a match after its engines; whether a flag then falls while its engine is silent (`--flag`), and how many
// milliseconds an engine has for a reply (`--reply-timeout`, which is given in seconds).
const PATIENCE: [(&[&str], bool, Option<u64>); 8] = [
    (&[], false, None),
    (&["--flag"], true, None),
    (&["--reply-timeout", "1"], false, Some(1_000)),
    (&["--reply-timeout", "10"], false, Some(10_000)),
    (&["--reply-timeout=999"], false, Some(999_000)),
    (&["--flag", "--reply-timeout", "10"], true, Some(10_000)),
    (&["--reply-timeout", "60", "--flag"], true, Some(60_000)),
    (&["--log", "--games", "2"], false, None),
];

// Options of a match after its engines that are refused: a timeout that is not a whole number from 1 to 999, or an
// option that is given twice, without its value, or with a value that it does not take.
const NO_PATIENCE: [&[&str]; 12] = [
    &["--reply-timeout", "0"],
    &["--reply-timeout", "1000"],
    &["--reply-timeout", "x"],
    &["--reply-timeout", "1.5"],
    &["--reply-timeout", ""],
    &["--reply-timeout", "-1"],
    &["--reply-timeout", "1", "--reply-timeout", "2"],
    &["--reply-timeout"],
    &["--reply-timeout", "--flag"],
    &["--flag", "--flag"],
    &["--flag=1"],
    &["--flag", "1"],
];

// The arguments of a match between the engines `x` and `y`, followed by these options.
fn match_with(alloc: Global, options: &[&'static str]) -> Result<Vec<&'static str>, AllocError> {
    let mut arguments = vec![in alloc; "match", "--white", "x", "--black", "y"]?;
    arguments.extend_from_slice(options)?;
    Ok(arguments)
}

// Reads a match with the options of each row, and compares both limits of its plan.
#[test]
fn a_match_has_its_patience(rt: HostRuntime) -> Result<(), Fail> {
    for (options, flag, reply) in &PATIENCE {
        let arguments = match_with(rt.alloc(), options)?;
        let Plan::Match(plan) = read_words(rt.alloc(), arguments.as_slice())? else {
            return Err(Fail::new("another plan"));
        };
        is_equal(&rt, &plan.patience.flag, flag);
        is_equal(&rt, &plan.patience.reply, reply);
    }
    Ok(())
}

// Options of a match after its engines, and the levels of the first engine and of the second one, as `level_in` gives
// them. An engine without an option of its own has that of `--level`, or the level by default.
const LEVELS: [(&[&str], [u32; 3], [u32; 3]); 6] = [
    (
        &["--white-level", "0 1 2"],
        [0, 60_000, 2_000],
        [40, 300_000, 0],
    ),
    (
        &["--black-level", "0 0:10 0.1"],
        [40, 300_000, 0],
        [0, 10_000, 100],
    ),
    (
        &["--level", "9 1 0", "--white-level", "0 1 2"],
        [0, 60_000, 2_000],
        [9, 60_000, 0],
    ),
    (
        &["--black-level=0 1 2", "--level=9 1 0"],
        [9, 60_000, 0],
        [0, 60_000, 2_000],
    ),
    (
        &["--white-level", "0 1 2", "--black-level", "0 0:10 0.1"],
        [0, 60_000, 2_000],
        [0, 10_000, 100],
    ),
    (
        &[
            "--black-level",
            "3 3 3",
            "--white-level",
            "2 2 2",
            "--level",
            "1 1 1",
        ],
        [2, 120_000, 2_000],
        [3, 180_000, 3_000],
    ),
];

// Reads a match with the options of each row, and compares both levels of its plan.
#[test]
fn engines_have_levels_of_their_own(rt: HostRuntime) -> Result<(), Fail> {
    for (options, white, black) in &LEVELS {
        let arguments = match_with(rt.alloc(), options)?;
        let Plan::Match(plan) = read_words(rt.alloc(), arguments.as_slice())? else {
            return Err(Fail::new("another plan"));
        };
        is_equal(&rt, &level_in(plan.white_level), white);
        is_equal(&rt, &level_in(plan.black_level), black);
    }
    Ok(())
}

// Options of a match after its engines, and the part of a level that is wrong. `--level` is judged first, even if both
// engines have levels of their own, then `--white-level`, and then `--black-level`.
const NO_LEVELS: [(&[&str], LevelFault); 5] = [
    (&["--white-level", "x 1 2"], LevelFault::Moves),
    (&["--black-level", "0 1"], LevelFault::Words),
    (
        &["--white-level", "0 x 2", "--black-level", "0 1"],
        LevelFault::Base,
    ),
    (
        &[
            "--white-level",
            "0 1 2",
            "--black-level",
            "0 1 2",
            "--level",
            "0 1 x",
        ],
        LevelFault::Increment,
    ),
    (
        &["--white-level", "0 1 x", "--fen", "x"],
        LevelFault::Increment,
    ),
];

// Each row is refused with a bad level, of which the fault is that of the first bad one.
#[test]
fn levels_of_their_own_may_be_bad(rt: HostRuntime) -> Result<(), Fail> {
    for (options, fault) in &NO_LEVELS {
        let arguments = match_with(rt.alloc(), options)?;
        match read_words(rt.alloc(), arguments.as_slice()) {
            Err(WordsFault::BadLevel(found)) => is_equal(&rt, &found, fault),
            _ => return Err(Fail::new("not a bad level")),
        }
    }
    Ok(())
}

// Options of a match after its engines, and whether its draws must be claimed.
const DRAWS: [(&[&str], Draws); 4] = [
    (&[], Draws::Claimed),
    (&["--draws", "claimed"], Draws::Claimed),
    (&["--draws", "automatic"], Draws::Automatic),
    (&["--draws=automatic", "--games", "2"], Draws::Automatic),
];

// Options of a match after its engines that `clap`, which reads the options, refuses.
const NO_DRAWS: [&[&str]; 5] = [
    &["--draws", "Automatic"],
    &["--draws", "auto"],
    &["--draws", ""],
    &["--draws"],
    &["--draws", "claimed", "--draws", "automatic"],
];

// Reads a match with the options of each row, and compares its kind of draws.
#[test]
fn a_match_has_its_draws(rt: HostRuntime) -> Result<(), Fail> {
    for (options, draws) in &DRAWS {
        let arguments = match_with(rt.alloc(), options)?;
        let Plan::Match(plan) = read_words(rt.alloc(), arguments.as_slice())? else {
            return Err(Fail::new("another plan"));
        };
        is_equal(&rt, &plan.draws, draws);
    }
    Ok(())
}

// Each of these options is refused by `clap`, with status 2.
#[test]
fn other_draws_are_refused(rt: HostRuntime) -> Result<(), Fail> {
    for options in &NO_DRAWS {
        let arguments = match_with(rt.alloc(), options)?;
        match read_words(rt.alloc(), arguments.as_slice()) {
            Err(WordsFault::Words(error)) => is_equal(&rt, &error.exit_code(), &2),
            _ => return Err(Fail::new("not clap's fault")),
        }
    }
    Ok(())
}

// Each of these options is refused by `clap`, with status 2.
#[test]
fn other_patience_is_refused(rt: HostRuntime) -> Result<(), Fail> {
    for options in &NO_PATIENCE {
        let arguments = match_with(rt.alloc(), options)?;
        match read_words(rt.alloc(), arguments.as_slice()) {
            Err(WordsFault::Words(error)) => is_equal(&rt, &error.exit_code(), &2),
            _ => return Err(Fail::new("not clap's fault")),
        }
    }
    Ok(())
}

// Arguments that `clap` accepts but that ask for no plan, and what is reported of them: the first fault, where there
// are several.
const FAULTS: [(&[&str], &str); 10] = [
    (
        &[
            "match", "--white", "x", "--black", "y", "--level", "40 5", "--fen", "x", "--date",
            "\u{7f}",
        ],
        "bad level",
    ),
    (
        &[
            "match", "--white", "x", "--black", "y", "--level", "0 0:60 0", "--fen", "x", "--date",
            "x",
        ],
        "bad level",
    ),
    (
        &[
            "match",
            "--white",
            "x",
            "--black",
            "y",
            "--level",
            "4.5 0:60 x",
            "--fen",
            "x",
        ],
        "bad level",
    ),
    (
        &[
            "match",
            "--white",
            "x",
            "--black",
            "y",
            "--level",
            "0 0:10 0.0001",
            "--fen",
            "x",
        ],
        "bad level",
    ),
    (
        &[
            "match",
            "--white",
            "x",
            "--black",
            "y",
            "--level",
            "40 5 0",
            "--fen",
            "8/8/8/8/8/8/8/8 w - - 0 1",
            "--date",
            "\u{7f}",
        ],
        "illegal position (kings)",
    ),
    (
        &[
            "match",
            "--white",
            "x",
            "--black",
            "y",
            "--level",
            "40 5 0",
            "--fen",
            "4k3/8 w - -",
            "--date",
            "x",
        ],
        "illegal position (placement)",
    ),
    (
        &[
            "match",
            "--white",
            "x",
            "--black",
            "y",
            "--level",
            "0 1 0",
            "--fen",
            "4k3/8/8/8/8/8/8/4K3 w - - 0 1",
            "--date",
            "\u{7f}",
        ],
        "bad date",
    ),
    (
        &[
            "match",
            "--white",
            "x",
            "--black",
            "y",
            "--level",
            "0 1 0",
            "--fen",
            "4k3/8/8/8/8/8/8/4K3 w - - 0 1",
            "--date",
            "é",
        ],
        "bad date",
    ),
    (
        &[
            "match",
            "--white",
            "x",
            "--black",
            "y",
            "--games",
            "1",
            "--variant",
            "normal",
            "--date",
            "0123456789012345678901234567890123456789012345678901234567890",
        ],
        "bad date",
    ),
    (
        &[
            "match",
            "--white",
            "x",
            "--black",
            "y",
            "--games",
            "1",
            "--variant",
            "normal",
            "--fen",
            "4k3/8/8/8/8/8/8/RK5R w HA - 0 1",
        ],
        "illegal position (castling)",
    ),
];

// Each row is refused, and its fault is shown by this text.
#[test]
fn faults_are_reported(rt: HostRuntime) -> Result<(), Fail> {
    for (arguments, wanted) in &FAULTS {
        let Err(fault) = read_words(rt.alloc(), arguments) else {
            return Err(Fail::new("a plan"));
        };
        let shown = format!(in rt.alloc(); "{fault}")?;
        assert!(rt; shown.as_str() == *wanted);
    }
    Ok(())
}

// Arguments that `clap` refuses, with status 2, or that ask it for help or for the version, with status 0.
const OTHERS: [(&[&str], i32); 46] = [
    (&["match", "--white", "x"], 2),
    (
        &["match", "--white", "x", "--white", "y", "--black", "z"],
        2,
    ),
    (&["match", "--white", "-x", "--black", "y"], 2),
    (&["match", "--white", "x", "--black", "--date", "y"], 2),
    (
        &["match", "--white", "x", "--black", "y", "--games", "0"],
        2,
    ),
    (
        &["match", "--white", "x", "--black", "y", "--games", "1001"],
        2,
    ),
    (
        &["match", "--white", "x", "--black", "y", "--games", "two"],
        2,
    ),
    (
        &[
            "match",
            "--white",
            "x",
            "--black",
            "y",
            "--variant",
            "atomic",
        ],
        2,
    ),
    (
        &[
            "match",
            "--white",
            "x",
            "--black",
            "y",
            "--variant",
            "Normal",
        ],
        2,
    ),
    (&["match", "--white", "x", "--black", "y", "z"], 2),
    (&["stub", "-x"], 2),
    (&["mat"], 2),
    (&[""], 2),
    (&["help"], 2),
    (&["session", "x"], 2),
    (&["verify", "--version"], 2),
    (&["verify", "--keep"], 2),
    (&["verify", "--quiet=true"], 2),
    (&["verify", "--quiet", "--quiet"], 2),
    (&["verify", "--stric"], 2),
    (&["verify", "--strict=true"], 2),
    (&["verify", "--strict", "--strict"], 2),
    (&["verify", "--strict", "16"], 2),
    (&["verify", "--any-size"], 2),
    (&["verify", "--ignore"], 2),
    (&["verify", "--ignore", "board", "result"], 2),
    (&["verify", "--ignore", "board", "--ignore", "result"], 2),
    (&["session", "--ignore", "board"], 2),
    (&["session", "--strict"], 2),
    (&["session", "--quiet"], 2),
    (&["--log"], 2),
    (&["session", "--log"], 2),
    (&["verify", "--log"], 2),
    (&["stub", "--log"], 2),
    (&["--flag"], 2),
    (&["verify", "--flag"], 2),
    (&["session", "--reply-timeout", "1"], 2),
    (&["match", "--white", "x", "--black", "y", "--log=x"], 2),
    (&["verify", "--quiet", "--help"], 0),
    (&["--white", "x"], 2),
    (&["--help"], 0),
    (&["-h"], 0),
    (&["match", "--help"], 0),
    (&["stub", "e2e4", "--help"], 0),
    (&["--version"], 0),
    (&["-V"], 0),
];

// Each row gives no plan, but an answer of `clap` with this status.
#[test]
fn other_arguments_are_refused(rt: HostRuntime) -> Result<(), Fail> {
    for (arguments, status) in &OTHERS {
        match read_words(rt.alloc(), arguments) {
            Err(WordsFault::Words(error)) => is_equal(&rt, &error.exit_code(), status),
            _ => return Err(Fail::new("not clap's fault")),
        }
    }
    Ok(())
}

// Arguments that ask for help, a line of that text up to its example's end, and the example's own arguments.
const EXAMPLES: [(&[&str], &str, &[&str]); 19] = [
    (&["--help"], "\n  arbiter     ", &[]),
    (&["--help"], "\n  arbiter verify < games.pgn ", &["verify"]),
    (
        &["--help"],
        "\n  arbiter match --white sjeng --black phalanx > a.txt ",
        &["match", "--white", "sjeng", "--black", "phalanx"],
    ),
    (
        &["--help"],
        "\n  arbiter stub e2e4 g1f3 ",
        &["stub", "e2e4", "g1f3"],
    ),
    (
        &["session", "--help"],
        "\n  printf 'e2e4\\nshowfen\\n' | arbiter session\n",
        &["session"],
    ),
    (
        &["verify", "--help"],
        "\n  arbiter verify < games.pgn\n",
        &["verify"],
    ),
    (
        &["verify", "--help"],
        "\n  arbiter verify --explain < games.pgn\n",
        &["verify", "--explain"],
    ),
    (
        &["verify", "--help"],
        "\n  arbiter verify --keep-going --quiet < games.pgn\n",
        &["verify", "--keep-going", "--quiet"],
    ),
    (
        &["verify", "--help"],
        "\n  zcat games.pgn.gz | arbiter verify --keep-going --strict\n",
        &["verify", "--keep-going", "--strict"],
    ),
    (
        &["stub", "--help"],
        "\n  arbiter stub e2e4 g1f3 offer resign\n",
        &["stub", "e2e4", "g1f3", "offer", "resign"],
    ),
    (
        &["stub", "--help"],
        "\n  arbiter match --white \"arbiter stub f2f3 g2g4\" --black \"arbiter stub e7e5 d8h4\"\n",
        &[
            "match",
            "--white",
            "arbiter stub f2f3 g2g4",
            "--black",
            "arbiter stub e7e5 d8h4",
        ],
    ),
    (
        &["match", "--help"],
        "\n  arbiter match --white sjeng --black phalanx\n",
        &["match", "--white", "sjeng", "--black", "phalanx"],
    ),
    (
        &["match", "--help"],
        "\n  arbiter match --white sjeng --black phalanx --games 10 --level \"40 5 0\" --date 2026.11.23 > match.txt\n",
        &[
            "match",
            "--white",
            "sjeng",
            "--black",
            "phalanx",
            "--games",
            "10",
            "--level",
            "40 5 0",
            "--date",
            "2026.11.23",
        ],
    ),
    (
        &["match", "--help"],
        "\n  arbiter match --white ./a --black \"./b -x\" --level \"0 0:30 1\" --fen \"4k3/8/8/8/8/8/4P3/4K3 w - - 0 1\"\n",
        &[
            "match",
            "--white",
            "./a",
            "--black",
            "./b -x",
            "--level",
            "0 0:30 1",
            "--fen",
            "4k3/8/8/8/8/8/4P3/4K3 w - - 0 1",
        ],
    ),
    (
        &["match", "--help"],
        "\n  arbiter match --white ./a --black ./b --variant fischerandom\n",
        &[
            "match",
            "--white",
            "./a",
            "--black",
            "./b",
            "--variant",
            "fischerandom",
        ],
    ),
    (
        &["match", "--help"],
        "\n  arbiter match --white ./a --black ./b --draws automatic\n",
        &[
            "match",
            "--white",
            "./a",
            "--black",
            "./b",
            "--draws",
            "automatic",
        ],
    ),
    (
        &["match", "--help"],
        "\n  arbiter match --white ./a --black ./b --white-level \"0 1 0\" --black-level \"0 0:30 0\"\n",
        &[
            "match",
            "--white",
            "./a",
            "--black",
            "./b",
            "--white-level",
            "0 1 0",
            "--black-level",
            "0 0:30 0",
        ],
    ),
    (
        &["match", "--help"],
        "\n  arbiter match --white ./a --black ./b --log 2> match.debug\n",
        &["match", "--white", "./a", "--black", "./b", "--log"],
    ),
    (
        &["match", "--help"],
        "\n  arbiter match --white ./a --black ./b --flag --reply-timeout 10\n",
        &[
            "match",
            "--white",
            "./a",
            "--black",
            "./b",
            "--flag",
            "--reply-timeout",
            "10",
        ],
    ),
];

// Each example that a text of help shows is there, and its arguments give a plan.
#[test]
fn examples_in_help_are_accepted(rt: HostRuntime) -> Result<(), Fail> {
    for (asked, line, arguments) in &EXAMPLES {
        let Err(fault) = read_words(rt.alloc(), asked) else {
            return Err(Fail::new("no help"));
        };
        let help = format!(in rt.alloc(); "{fault}")?;
        assert!(rt; help.as_str().contains(*line));
        assert!(rt; read_words(rt.alloc(), arguments).is_ok());
    }
    Ok(())
}
