//! Time controls.

ghost use Rattle.std.specs.Prelude.{◌≡◌, ◌≤◌, ◌/◌, ◌^◌, IfSome};
ghost use Rattle.cecp_engine.specs.Levels.{level_of, level_reading, base_of, milliseconds_of, thousandths_of, allotted};
ghost use Rattle.chess_base.specs.declared.setup.TheConstants.{MOST_MOVES};

use crate::level_fault::LevelFault;
use byte_devices::len_before;
use std::marker::Model;
use text_lines::{argument, first_word, short_number, trim_start};

/// A time control (CECP, version 2, command `level`): moves per session (0: one session for the whole game), the base
/// time of each session and the increment per move. The fields `base` and `increment` hold milliseconds.
///
/// ```
/// let level: Level = "0 0:30 0.5".parse()?;
/// println!(rt; "{level}: {} seconds and {} ms per move", level.base(), level.increment_milliseconds())?;
/// ```
#[derive(Clone, Copy, Debug, PartialEq, Eq, Hash)]
pub struct Level {
    moves: u32,
    base: u32,
    increment: u32,
}

impl Model for Level {
    ghost use Rattle.cecp_engine.specs.Levels.{LevelSeen};
    ghost use Rattle.cecp_engine.specs.ties.Bounds.{IsLevel};

    ghost Value = { LevelSeen };

    ghost view = { λ l. record {
      moves = l.moves;
      base = l.base;
      increment = l.increment;
    } };

    ghost invariant = { λ l. IsLevel (record { moves = l.moves; base = l.base; increment = l.increment }) };

    ghost inverse = { λ v. record { moves = v.moves; base = v.base; increment = v.increment } };
}

// The thousandths that decimals, one to three digits, denote: `5` is 500; `None` for any other text.
#[tactic(auto, unfolding(crate::specs::Levels::thousandths_of))]
fn thousandths(decimals: &[u8]) -> Option<u32>
    ensures value { result ≡ thousandths_of decimals.now }
    ensures small { IfSome result (λ n. n ≤ 999) }
{
    match decimals.len() {
        1 => Some(100 * short_number(decimals, 1)?),
        2 => Some(10 * short_number(decimals, 2)?),
        _ => short_number(decimals, 3),
    }
}

// The milliseconds that a text of seconds denotes: one to `most` digits (`2` is 2,000), and then perhaps a point and
// one to three decimals (`0.25` is 250); `None` for any other text.
#[tactic(auto, unfolding(crate::specs::Levels::milliseconds_of))]
fn milliseconds(text: &[u8], most: usize) -> Option<u32>
    requires { most ≤ 3 }
    ensures value { result ≡ milliseconds_of most text.now }
    ensures small { IfSome result (λ n. n ≤ 999999) }
{
    let point = len_before(text, b'.');
    let seconds = short_number(&text[..point], most)?;
    let thousandths = if point == text.len() {
        0
    } else {
        thousandths(&text[point + 1..])?
    };
    Some(1000 * seconds + thousandths)
}

// The base time that a text denotes, in milliseconds: minutes (`5` is 300,000), or minutes and fewer than 60 seconds
// (`0:30`, `0:08.5`); `None` for any other text.
#[tactic(auto, unfolding(crate::specs::Levels::base_of))]
fn base(text: &[u8]) -> Option<u32>
    ensures value { result ≡ base_of text.now }
    ensures small { IfSome result (λ n. n ≤ 59999999) }
{
    let colon = len_before(text, b':');
    let minutes = short_number(&text[..colon], 3)?;
    let milliseconds = if colon == text.len() {
        0
    } else {
        milliseconds(&text[colon + 1..], 2)?
    };
    if milliseconds < 60000 {
        Some(60000 * minutes + milliseconds)
    } else {
        None
    }
}

// The time control that a text denotes, or its first fault: it has not three words, or its moves, its base time or its
// increment is malformed.
#[tactic(auto, unfolding(crate::specs::Levels::level_reading))]
pub(crate) fn read_level(text: &[u8]) -> Result<Level, LevelFault>
    ensures { result ≡ level_reading text.now }
{
    let first = trim_start(text);
    let second = argument(first);
    let third = argument(second);
    if third.is_empty() || !argument(third).is_empty() {
        return Err(LevelFault::Words);
    }
    let Some(moves) = short_number(first_word(first), 3) else {
        return Err(LevelFault::Moves);
    };
    let Some(base) = base(first_word(second)) else {
        return Err(LevelFault::Base);
    };
    let Some(increment) = milliseconds(first_word(third), 3) else {
        return Err(LevelFault::Increment);
    };
    Ok(Level {
        moves,
        base,
        increment,
    })
}

impl Level {
    /// The time control that a text denotes: `MOVES BASE INCREMENT`, with spaces or tabs between and perhaps around.
    /// Each number has one to three digits. The base is in minutes, or `minutes:seconds` with one or two digits for
    /// fewer than 60 seconds. These seconds and the increment, in seconds, may have a point and one to three decimals.
    /// `None` for any other text.
    pub fn read(text: &[u8]) -> Option<Self>
        ensures { result ≡ level_of text.now }
    {
        read_level(text).ok()
    }

    /// How many moves a session has; 0: one session for the whole game.
    pub fn moves(self) -> u32
        ensures value { result ≡ self.moves }
        ensures few { result ≤ 999 }
    {
        self.moves
    }

    /// The base time of a session in whole seconds, rounded down.
    pub fn base(self) -> u32
        ensures value { result ≡ self.base / 1000 }
        ensures few { result ≤ 59999 }
    {
        self.base / 1000
    }

    /// The base time of a session in milliseconds.
    pub fn base_milliseconds(self) -> u32
        ensures value { result ≡ self.base }
        ensures few { result ≤ 59999999 }
    {
        self.base
    }

    /// The increment per move in whole seconds, rounded down.
    pub fn increment(self) -> u32
        ensures value { result ≡ self.increment / 1000 }
        ensures few { result ≤ 999 }
    {
        self.increment / 1000
    }

    /// The increment per move in milliseconds.
    pub fn increment_milliseconds(self) -> u32
        ensures value { result ≡ self.increment }
        ensures few { result ≤ 999999 }
    {
        self.increment
    }

    /// The milliseconds that a side was given in all, after `moves` moves: the base time for each session begun, and
    /// the increment for each move.
    #[tactic(auto, unfolding(crate::specs::Levels::allotted))]
    pub(crate) fn allotted(self, moves: u32) -> u64
        requires { moves ≤ MOST_MOVES }
        ensures value { result ≡ allotted self moves }
        ensures bound { result ≤ 2 ^ 62 }
    {
        let sessions = if self.moves == 0 {
            1
        } else {
            1 + moves / self.moves
        };
        u64::from(self.base) * u64::from(sessions) + u64::from(self.increment) * u64::from(moves)
    }
}
