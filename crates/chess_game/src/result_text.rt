//! Results as text: outcomes parsed, comments and declared results shown.

ghost use Rattle.std.specs.Prelude.{Some};
ghost use Rattle.chess_game.specs.Ends.{result_text};
ghost use Rattle.chess_game.specs.Results.{ParsesOutcome};

use crate::results::{Comment, Declared, Outcome};
use std::fmt;
use std::str::FromStr;

/// The error that a text is none of the four outcomes.
#[derive(Clone, Copy, Debug, PartialEq, Eq, Hash, thiserror::Error)]
#[error("an outcome is 1-0, 0-1, 1/2-1/2 or *")]
pub struct ParseOutcomeError;

impl TryFrom<&[u8]> for Outcome {
    type Error = ParseOutcomeError;

    ghost try_from_gives = { λ text r. ParsesOutcome text.now r };

    // Parses an outcome as PGN writes it, such as `1-0`; any other text is an error.
    fn try_from(text: &[u8]) -> Result<Self, ParseOutcomeError> {
        match text {
            b"1-0" => Ok(Outcome::WhiteWins),
            b"0-1" => Ok(Outcome::BlackWins),
            b"1/2-1/2" => Ok(Outcome::Draw),
            b"*" => Ok(Outcome::Unfinished),
            _ => Err(ParseOutcomeError),
        }
    }
}

impl FromStr for Outcome {
    type Err = ParseOutcomeError;

    ghost from_str_gives = { λ text r. ParsesOutcome text r };

    // Parses an outcome as PGN writes it, such as `1-0`; any other text is an error.
    fn from_str(text: &str) -> Result<Self, ParseOutcomeError> {
        Outcome::try_from(text.as_bytes())
    }
}

impl fmt::Display for Comment {
    ghost output = { λ c. Some c };

    // Writes the comment without braces.
    fn fmt<W: fmt::Write>(&self, f: &mut fmt::Formatter<W>) -> fmt::Result {
        f.write_str(self.as_str())
    }
}

impl fmt::Debug for Comment {
    // Writes the comment in quotes.
    fn fmt<W: fmt::Write>(&self, f: &mut fmt::Formatter<W>) -> fmt::Result {
        fmt::Debug::fmt(&self.as_str(), f)
    }
}

impl fmt::Display for Declared {
    ghost output = { λ d. Some (result_text d) };

    // Writes the outcome and the comment in braces, such as `0-1 {White resigns}`.
    #[tactic(auto, unfolding(crate::specs::Ends::result_text))]
    fn fmt<W: fmt::Write>(&self, f: &mut fmt::Formatter<W>) -> fmt::Result {
        write!(f, "{} {{{}}}", self.outcome, self.comment)
    }
}
