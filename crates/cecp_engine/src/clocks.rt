//! The clocks of a game.

ghost use Rattle.std.specs.Prelude.{◌≡◌, ◌≤◌, ◌<◌};
ghost use Rattle.chess_base.specs.ByColour.{of_colour};
ghost use Rattle.cecp_engine.specs.Clocks.{new_clocks, side_clock, remaining, charged};
ghost use Rattle.chess_base.specs.declared.setup.TheConstants.{MOST_MOVES};

use crate::level::Level;
use chess_base::{ByColour, Colour};
use std::marker::Model;

// A side's clock: its time control, how many moves the side made, and the milliseconds that they took.
#[derive(Clone, Copy, Debug, PartialEq, Eq, Hash)]
struct SideClock {
    level: Level,
    moves: u32,
    used: u64,
}

/// The clocks of a game: of each side its time control, the number of its moves, and the milliseconds that they took.
#[derive(Clone, Copy, Debug, PartialEq, Eq, Hash)]
pub struct Clocks {
    white: SideClock,
    black: SideClock,
}

impl Model for Clocks {
    ghost use Rattle.cecp_engine.specs.Clocks.{ClocksSeen};
    ghost use Rattle.cecp_engine.specs.ties.Bounds.{IsWithin};

    ghost Value = { ClocksSeen };

    ghost view = { λ c. record {
      white = record { level = c.white.level; moves = c.white.moves; used = c.white.used };
      black = record { level = c.black.level; moves = c.black.moves; used = c.black.used };
    } };

    ghost invariant = { λ c. IsWithin (record { level = c.white.level; moves = c.white.moves; used = c.white.used })
        × IsWithin (record { level = c.black.level; moves = c.black.moves; used = c.black.used }) };

    ghost inverse = { λ v. record {
      white = record { level = v.white.level; moves = v.white.moves; used = v.white.used };
      black = record { level = v.black.level; moves = v.black.moves; used = v.black.used };
    } };
}

impl Clocks {
    /// The clocks of a game in which each side has its time control, before the first move.
    pub fn new(levels: ByColour<Level>) -> Self
        ensures { result ≡ new_clocks (of_colour levels) }
    {
        Clocks {
            white: SideClock {
                level: levels.white,
                moves: 0,
                used: 0,
            },
            black: SideClock {
                level: levels.black,
                moves: 0,
                used: 0,
            },
        }
    }

    /// The time control of this side.
    pub fn level(&self, side: Colour) -> Level
        ensures { result ≡ (side_clock self.now side).level }
    {
        match side {
            Colour::White => self.white.level,
            Colour::Black => self.black.level,
        }
    }

    /// How many moves this side has made.
    pub fn moves(&self, side: Colour) -> u32
        ensures value { result ≡ (side_clock self.now side).moves }
        ensures few { result ≤ MOST_MOVES }
    {
        match side {
            Colour::White => self.white.moves,
            Colour::Black => self.black.moves,
        }
    }

    /// The milliseconds that this side has left.
    pub fn remaining(&self, side: Colour) -> u64
        ensures { result ≡ remaining self.now side }
    {
        match side {
            Colour::White => self.white.level.allotted(self.white.moves) - self.white.used,
            Colour::Black => self.black.level.allotted(self.black.moves) - self.black.used,
        }
    }

    /// Counts one more move of this side, which took `used` milliseconds.
    pub fn charge(&mut self, side: Colour, used: u64)
        requires in_time { used ≤ remaining self.old side }
        requires few { (side_clock self.old side).moves < MOST_MOVES }
        ensures { self.new ≡ charged self.old side used }
    {
        match side {
            Colour::White => {
                // The prover wants this fact: the level gives 2 ^ 62 milliseconds at most.
                let _bound = self.white.level.allotted(self.white.moves);
                self.white.moves += 1;
                self.white.used += used;
            }
            Colour::Black => {
                // The prover wants this fact: the level gives 2 ^ 62 milliseconds at most.
                let _bound = self.black.level.allotted(self.black.moves);
                self.black.moves += 1;
                self.black.used += used;
            }
        }
    }
}
