//! Laws of what a match writes. That a law refuses something means: with definitions that allow it, the law can't be
//! proved.

ghost use Rattle.match_pgn_laws.specs.Verified.{MatchesPassVerify};
ghost use Rattle.match_pgn_laws.specs.Scores.{ScoresAreSums};

use chess_match_laws::{games_are_lines, games_end_at_verdicts, verdicts_end_matches};
use pgn_verifier_laws::{reports_are_the_only_ones, written_texts_have_no_fault};

/// States a law and does nothing: if a match from a sound position wrote its score (as it does after all games, or
/// those up to one with a fault of an engine), this is the sum of the tags `Result` above it. The last line of a match
/// says how many games its first engine won, lost and drew, and how many were unfinished. These are the numbers by the
/// lines `[Result ..]` above, where this engine has White in the first game, Black in the second, and so on. If no
/// engine had a fault, there are just as many such lines as planned games.
///
/// It refuses colours that never change, a draw that counts as a win, and a score of another outcome than the tag's.
pub fn scores_are_sums()
    ensures { ScoresAreSums }
{
    // The prover wants these laws: a game's moves are legal, and its outcome is the one reported.
    games_are_lines();
    verdicts_end_matches();
}

/// States a law and does nothing: if a match from a sound position wrote its score, `verify` accepts what it wrote
/// above that, with `--strict` or without (but without `--variations`). It reports each game, without a fault and with
/// the outcome of its tag `Result`. (Without `--keep-going`, `verify` takes at most 16,777,216 bytes.)
pub fn matches_pass_verify()
    ensures { MatchesPassVerify }
{
    // The prover wants these laws: a game's moves are legal, it ends at a verdict, and games as they are written have
    // no fault.
    games_are_lines();
    games_end_at_verdicts();
    reports_are_the_only_ones();
    verdicts_end_matches();
    written_texts_have_no_fault();
}
