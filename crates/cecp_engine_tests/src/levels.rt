//! Levels of time, parsed and shown.

use cecp_engine::{Clocks, Level, LevelFault};
use chess_base::{ByColour, Colour};
use std::alloc::Global;
use std::process::Abort;
use std::test::Fail;

// A text of a level, and what `shown` makes of it: the text that engines are sent, then the base in seconds and in
// milliseconds, and the increment in both.
const LEVELS: [(&str, &str); 12] = [
    ("0 0:30 2", "0 0:30 2: 30 s, 30000 ms and 2 s, 2000 ms"),
    (" 040\t5 000", "40 5 0: 300 s, 300000 ms and 0 s, 0 ms"),
    ("1 12:5 0", "1 12:05 0: 725 s, 725000 ms and 0 s, 0 ms"),
    ("0 0:10 0.1", "0 0:10 0.1: 10 s, 10000 ms and 0 s, 100 ms"),
    ("0 0:08 0.08", "0 0:08 0.08: 8 s, 8000 ms and 0 s, 80 ms"),
    (
        "0 1:30.5 0.25",
        "0 1:30.5 0.25: 90 s, 90500 ms and 0 s, 250 ms",
    ),
    (
        "0 0:0.025 1.005",
        "0 0:00.025 1.005: 0 s, 25 ms and 1 s, 1005 ms",
    ),
    (
        "0 0:8.500 00.100",
        "0 0:08.5 0.1: 8 s, 8500 ms and 0 s, 100 ms",
    ),
    ("40 1:00.000 2.0", "40 1 2: 60 s, 60000 ms and 2 s, 2000 ms"),
    (
        "0 2:00.001 0.110",
        "0 2:00.001 0.11: 120 s, 120001 ms and 0 s, 110 ms",
    ),
    (
        "0 999:59.999 999.999",
        "0 999:59.999 999.999: 59999 s, 59999999 ms and 999 s, 999999 ms",
    ),
    ("999 0 0", "999 0 0: 0 s, 0 ms and 0 s, 0 ms"),
];

// Texts that denote no level, and which part of each is the first that is wrong.
const REFUSED: [(&str, LevelFault); 20] = [
    ("", LevelFault::Words),
    ("40 5", LevelFault::Words),
    ("40 5 0 0", LevelFault::Words),
    ("x y", LevelFault::Words),
    ("40/5+0 ", LevelFault::Words),
    ("1000 5 0", LevelFault::Moves),
    ("0.5 5 0", LevelFault::Moves),
    ("-1 x y", LevelFault::Moves),
    ("40 5:60 0", LevelFault::Base),
    ("40 0:60.000 0", LevelFault::Base),
    ("40 0:005 0", LevelFault::Base),
    ("40 0.5 0", LevelFault::Base),
    ("40 0:.5 0", LevelFault::Base),
    ("40 0:8. 0", LevelFault::Base),
    ("40 0:8.0001 0", LevelFault::Base),
    ("40 :30 x", LevelFault::Base),
    ("0 0:10 .1", LevelFault::Increment),
    ("0 0:10 0.0001", LevelFault::Increment),
    ("0 0:10 0,1", LevelFault::Increment),
    ("0 0:10 1000", LevelFault::Increment),
];

// Reads a level, and writes its text, base and increment, as LEVELS has them.
fn shown(alloc: Global, text: &str) -> Result<String, Fail> {
    let level: Level = text.parse()?;
    Ok(format!(in alloc;
        "{level}: {} s, {} ms and {} s, {} ms",
        level.base(),
        level.base_milliseconds(),
        level.increment(),
        level.increment_milliseconds()
    )?)
}

// Asserts that `shown` makes `wanted` of this text.
fn is_shown(rt: &impl Abort, alloc: Global, text: &str, wanted: &str) -> Result<(), Fail> {
    assert_eq!(rt; shown(alloc, text)?.as_str(), wanted);
    Ok(())
}

// Each text of LEVELS is read and shown so. Zeros that say nothing, as in `040` and `2.0`, are left out.
#[test]
fn levels_are_parsed_and_shown(rt: HostRuntime) -> Result<(), Fail> {
    for (text, wanted) in &LEVELS {
        is_shown(&rt, rt.alloc(), text, wanted)?;
    }
    Ok(())
}

// Asserts that a text is read as no level, and parsed with this fault.
fn is_refused(rt: &impl Abort, text: &str, fault: LevelFault) {
    assert!(rt; Level::read(text.as_bytes()).is_none());
    assert_eq!(rt; text.parse::<Level>(), Err(fault));
}

// Each text of REFUSED has its fault.
#[test]
fn the_first_fault_of_a_level_is_reported(rt: HostRuntime) {
    for (text, fault) in &REFUSED {
        is_refused(&rt, text, *fault);
    }
}

// The example in the documentation of `Level`.
#[test]
fn levels_have_milliseconds(rt: HostRuntime) -> Result<(), Fail> {
    let level: Level = "0 0:30 0.5".parse()?;
    let text = format!(in rt.alloc();
        "{level}: {} seconds and {} ms per move",
        level.base(),
        level.increment_milliseconds()
    )?;
    assert_eq!(rt; text.as_str(), "0 0:30 0.5: 30 seconds and 500 ms per move");
    assert_eq!(rt; LevelFault::Base.name(), "base");
    Ok(())
}

// Charges White's clock with a move that took `used` milliseconds, and asserts that it then has `left`. (`charge`
// requires that the clock has that time, and counts few enough moves.)
fn spend(rt: &impl Abort, clocks: &mut Clocks, used: u64, left: u64) {
    if used <= clocks.remaining(Colour::White) && clocks.moves(Colour::White) < 20000 {
        clocks.charge(Colour::White, used);
    }
    assert_eq!(rt; clocks.remaining(Colour::White), left);
}

// At `0 0:08 0.08` a side begins with 8,000 ms, and gets 80 more after each move: 7,830 are left after a move of 250
// ms, and 7,902 after one of 8 ms. Black's clock stays.
#[test]
fn increments_of_less_than_a_second_are_counted(rt: HostRuntime) -> Result<(), Fail> {
    let level = "0 0:08 0.08".parse()?;
    let mut clocks = Clocks::new(ByColour {
        white: level,
        black: level,
    });
    spend(&rt, &mut clocks, 250, 7830);
    spend(&rt, &mut clocks, 8, 7902);
    assert_eq!(rt; clocks.remaining(Colour::Black), 8000);
    Ok(())
}

// Each clock runs by its own time control. White has a minute for each two moves; Black has ten seconds for the game,
// and a tenth of a second more after each move.
#[test]
fn each_side_has_its_time_control(rt: HostRuntime) -> Result<(), Fail> {
    let mut clocks = Clocks::new(ByColour {
        white: "2 1 0".parse()?,
        black: "0 0:10 0.1".parse()?,
    });
    assert_eq!(rt; clocks.level(Colour::White).moves(), 2);
    assert_eq!(rt; clocks.level(Colour::Black).moves(), 0);
    assert_eq!(rt; clocks.remaining(Colour::Black), 10_000);
    spend(&rt, &mut clocks, 40_000, 20_000);
    spend(&rt, &mut clocks, 15_000, 65_000);
    assert_eq!(rt; clocks.remaining(Colour::Black), 10_000);
    if clocks.moves(Colour::Black) < 20_000 && clocks.remaining(Colour::Black) >= 600 {
        clocks.charge(Colour::Black, 600);
    }
    assert_eq!(rt; clocks.remaining(Colour::Black), 9_500);
    assert_eq!(rt; clocks.remaining(Colour::White), 65_000);
    Ok(())
}
