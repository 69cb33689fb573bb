//! How a game ended, in the words of the tag `Termination` (PGN standard of 1994, section 9.8.1).

ghost use Rattle.std.specs.Prelude.{◌≡◌, ◌≤◌, length};
ghost use Rattle.pgn_writer.specs.Terminations.{termination_text, termination_of};

use chess_game::{HowEnded, Outcome};

/// How a game ended, as its tag `Termination` says.
#[derive(Clone, Copy, Debug, PartialEq, Eq)]
pub enum Termination {
    /// The game was abandoned.
    Abandoned,
    /// The result was adjudged by a third party.
    Adjudication,
    /// The losing player died.
    Death,
    /// Unforeseen circumstances ended the game.
    Emergency,
    /// The game ended on the board, or by agreement or resignation.
    Normal,
    /// The losing player did not keep to the Laws of Chess or to the event's rules.
    RulesInfraction,
    /// The losing player used up the time.
    TimeForfeit,
    /// The game did not end.
    Unterminated,
}

impl Termination {
    /// The text of the tag `Termination`, such as `time forfeit`.
    pub fn text(self) -> &'static [u8]
        ensures value { result.now ≡ termination_text self }
        ensures short { length result.now ≤ 16 }
    {
        match self {
            Termination::Abandoned => b"abandoned",
            Termination::Adjudication => b"adjudication",
            Termination::Death => b"death",
            Termination::Emergency => b"emergency",
            Termination::Normal => b"normal",
            Termination::RulesInfraction => b"rules infraction",
            Termination::TimeForfeit => b"time forfeit",
            Termination::Unterminated => b"unterminated",
        }
    }

    /// The value of the tag for a game that is written: `Unterminated` if its outcome is `*`, and otherwise the value
    /// of the same name as `ended`.
    pub(crate) fn of(ended: HowEnded, outcome: Outcome) -> Self
        ensures { result ≡ termination_of ended outcome }
    {
        match (outcome, ended) {
            (Outcome::Unfinished, _) => Termination::Unterminated,
            (_, HowEnded::Normal) => Termination::Normal,
            (_, HowEnded::TimeForfeit) => Termination::TimeForfeit,
            (_, HowEnded::RulesInfraction) => Termination::RulesInfraction,
        }
    }
}
