//! How a game ended, as its tag `Termination` says.

ghost use Rattle.std.specs.Prelude.{◌≡◌};
ghost use Rattle.pgn_writer.specs.Terminations.{termination_named};

use pgn_writer::Termination;

/// The value that the text of a tag `Termination` names, in capital or small letters: `Time Forfeit` too. `None` if
/// it is none of the eight texts.
#[tactic(auto, unfolding(pgn_writer::specs::Terminations::termination_named))]
pub(crate) fn termination_named(text: &[u8]) -> Option<Termination>
    ensures { result ≡ termination_named text.now }
{
    if text.eq_ignore_ascii_case(b"abandoned") {
        Some(Termination::Abandoned)
    } else if text.eq_ignore_ascii_case(b"adjudication") {
        Some(Termination::Adjudication)
    } else if text.eq_ignore_ascii_case(b"death") {
        Some(Termination::Death)
    } else if text.eq_ignore_ascii_case(b"emergency") {
        Some(Termination::Emergency)
    } else if text.eq_ignore_ascii_case(b"normal") {
        Some(Termination::Normal)
    } else if text.eq_ignore_ascii_case(b"rules infraction") {
        Some(Termination::RulesInfraction)
    } else if text.eq_ignore_ascii_case(b"time forfeit") {
        Some(Termination::TimeForfeit)
    } else if text.eq_ignore_ascii_case(b"unterminated") {
        Some(Termination::Unterminated)
    } else {
        None
    }
}
