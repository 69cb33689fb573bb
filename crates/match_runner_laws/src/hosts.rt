//! Laws of matches at a host over memory.

ghost use Rattle.match_runner_laws.specs.Hosts.{StepsMightCome};
ghost use Rattle.match_runner_laws.specs.OneMatch.{OneMatchOfAHost};

use chess_match_laws::{match_is_the_only_one, silences_end_matches};

/// States a law and does nothing: the steps that passed at a host over memory might come at it as it was before them.
/// So the engines of a match say what that host has for them, in the order in which they were started, and the clock
/// shows its moments.
pub fn steps_might_come()
    ensures { StepsMightCome }
{}

/// States a law: a match at a host over memory is fixed by the host and the plan. If two matches by one plan without
/// limits to waiting are played to their score at one host, and nothing fails at the pipes of their engines, then they
/// write the same, log the same, send their engines the same, and report the same fault or both none.
pub fn hosts_fix_matches()
    ensures { OneMatchOfAHost }
{
    // The prover wants these laws: two matches of one run are the same, act by act; and without a limit to waiting each
    // look for a line finds one, the end or a failure.
    match_is_the_only_one();
    silences_end_matches();
}
