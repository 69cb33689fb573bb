//! Matches whose sides have different levels, which are their time controls.

use crate::plays::{BOARDS, Listed, On, check_end, ends, is_text, play_over, setup_of};
use chess_base::{ByColour, Position};
use chess_game::{HowEnded, Outcome};
use chess_match::Setup;
use std::alloc::Global;
use std::process::Abort;
use std::test::Fail;

// A match from the initial position. White has five minutes for 40 moves; Black has half a minute, and half a second
// more after each move.
fn setup(rt: &impl Abort) -> Setup {
    let setup = setup_of(rt, b"40 5 0", Position::initial());
    let other = setup_of(rt, b"0 0:30 0.5", Position::initial());
    let ByColour { white, black: _ } = setup.levels;
    let ByColour { white: _, black } = other.levels;
    Setup {
        start: setup.start,
        levels: ByColour { white, black },
        patience: setup.patience,
        draws: setup.draws,
    }
}

// What both engines say: five half-moves, after which Black resigns.
const WHITE: &[u8] =
    b"feature ping=1 done=1\npong 1\nmove e2e4\npong 2\nmove g1f3\npong 3\nmove b1c3\npong 4\n";

const BLACK: &[u8] =
    b"feature ping=1 done=1\npong 1\nmove e7e5\npong 2\nmove b8c6\npong 3\nresign\n";

// What the clock shows each time it is read: once for a line of each handshake and each setup, and then for each turn
// at its opening, its move and its `pong`. e2e4 takes 40 seconds, more than Black has in all; e7e5 takes 10 seconds,
// g1f3 none, b8c6 20.5 seconds, all that Black has left.
const MOMENTS: &[u64] = &[
    0, 0, 0, 0, // both are ready
    0, 40_000, 40_000, // e2e4
    40_000, 50_000, 50_000, // e7e5
    50_000, 50_000, 50_000, // g1f3
    50_000, 70_500, 70_500, // b8c6
    70_500, 70_500, 70_500, // b1c3
];

// What both are sent in the test below.
const TO_WHITE: &[u8] =
    b"xboard\nprotover 2\naccepted ping\naccepted done\nnew\nlevel 40 5 0\nnopost\neasy\nforce\nping 1\ntime 30000\notim 3000\ngo\nping 2\ntime 26000\notim 2050\ne7e5\nping 3\ntime 26000\notim 50\nb8c6\nresult * {White ended its output}\nquit\n";

const TO_BLACK: &[u8] =
    b"xboard\nprotover 2\naccepted ping\naccepted done\nnew\nlevel 0 0:30 0.5\nnopost\neasy\nforce\nping 1\ne2e4\ntime 3000\notim 26000\ngo\nping 2\ntime 2050\notim 26000\ng1f3\nping 3\nresult * {White ended its output}\nquit\n";

// Each engine is sent its own level, and in each turn the times of both clocks, its own first. (White ends its output
// before its third move.)
#[test]
fn each_side_is_sent_its_level_and_its_time(rt: HostRuntime) -> Result<(), Fail> {
    let white_says =
        b"feature ping=1 done=1\npong 1\nmove e2e4\npong 2\nmove g1f3\npong 3\n".as_slice();
    let mut white = ends(rt.alloc(), white_says, 1024, 0, 0);
    let mut black = ends(rt.alloc(), BLACK, 1024, 0, 0);
    let mut moments = Listed { rest: MOMENTS };
    play_over(
        rt.alloc(),
        On::Bits,
        100,
        &mut white,
        &mut black,
        &mut moments,
        &setup(&rt),
    )?;
    let to_white = white.writer.into_writer().bytes;
    let to_black = black.writer.into_writer().bytes;
    is_text(&rt, "to White", to_white.as_slice(), TO_WHITE);
    is_text(&rt, "to Black", to_black.as_slice(), TO_BLACK);
    Ok(())
}

// Plays the match on this board: Black resigns. If a clock ran by the other side's level, a side would lose on time.
fn judges(rt: &impl Abort, alloc: Global, on: On) -> Result<(), Fail> {
    let mut white = ends(alloc, WHITE, 1024, 0, 0);
    let mut black = ends(alloc, BLACK, 1024, 0, 0);
    let mut moments = Listed { rest: MOMENTS };
    let (end, _) = play_over(
        alloc,
        on,
        100,
        &mut white,
        &mut black,
        &mut moments,
        &setup(rt),
    )?;
    check_end(rt, &end, Outcome::WhiteWins, b"Black resigns", None);
    assert_eq!(rt; end.ended, HowEnded::Normal);
    Ok(())
}

// Does so on both boards.
#[test]
fn each_clock_runs_by_its_own_level(rt: HostRuntime) -> Result<(), Fail> {
    for on in BOARDS {
        judges(&rt, rt.alloc(), *on)?;
    }
    Ok(())
}

// The same moments, but Black's second move comes a millisecond later. Its time is over then, though White's level
// would give it more.
const LATE: &[u64] = &[
    0, 0, 0, 0, 0, 40_000, 40_000, 40_000, 50_000, 50_000, 50_000, 50_000, 50_000, 50_000, 70_501,
];

// With these moments Black loses on time.
#[test]
fn a_flag_falls_by_its_own_level(rt: HostRuntime) -> Result<(), Fail> {
    let mut white = ends(rt.alloc(), WHITE, 1024, 0, 0);
    let mut black = ends(rt.alloc(), BLACK, 1024, 0, 0);
    let mut moments = Listed { rest: LATE };
    let (end, _) = play_over(
        rt.alloc(),
        On::Bits,
        100,
        &mut white,
        &mut black,
        &mut moments,
        &setup(&rt),
    )?;
    check_end(
        &rt,
        &end,
        Outcome::WhiteWins,
        b"Black forfeits on time",
        None,
    );
    assert_eq!(rt; end.ended, HowEnded::TimeForfeit);
    Ok(())
}
