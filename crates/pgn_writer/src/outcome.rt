//! The outcome that a text names.

ghost use Rattle.std.specs.Prelude.{◌≡◌};
ghost use Rattle.pgn_writer.specs.Outcomes.{outcome_of};

use chess_game::Outcome;

/// The outcome that is written as this word: `1-0`, `0-1`, `1/2-1/2` or `*`; `None` for any other word. Used for words
/// among a game's moves, for the tag `Result` and for the session's command `result`.
#[tactic(auto, using(crate::proofs::Outcomes::outcome_parsed))]
pub fn outcome_of(word: &[u8]) -> Option<Outcome>
    ensures { result ≡ outcome_of word.now }
{
    Outcome::try_from(word).ok()
}
