//! Why a text denotes no time control.

ghost use Rattle.std.specs.Prelude.{◌≡◌};
ghost use Rattle.cecp_engine.specs.Levels.{level_fault_name};

/// Why a text denotes no time control: the first fault, in this order.
#[derive(Clone, Copy, Debug, PartialEq, Eq, Hash, thiserror::Error)]
pub enum LevelFault {
    /// The text has not three words.
    #[error("a level is moves, minutes or minutes:seconds, and seconds per move, such as 40 5 0")]
    Words,
    /// The first word is no number of one to three digits.
    #[error("the moves of a level are a number of one to three digits")]
    Moves,
    /// The second word is neither minutes nor minutes and seconds.
    #[error("the base of a level is minutes, or minutes:seconds, such as 5, 0:30 or 0:08.5")]
    Base,
    /// The third word is no number of seconds.
    #[error("the increment of a level is seconds, such as 2 or 0.1")]
    Increment,
}

impl LevelFault {
    /// The fault's short name, such as `base`.
    pub fn name(self) -> &'static str
        ensures { result.now ≡ level_fault_name self }
    {
        match self {
            LevelFault::Words => "words",
            LevelFault::Moves => "moves",
            LevelFault::Base => "base",
            LevelFault::Increment => "increment",
        }
    }
}
