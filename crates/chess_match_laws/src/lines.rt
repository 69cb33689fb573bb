//! Laws of single lines of an engine. A caller learns one by calling its function, which does nothing. What a law
//! refuses are wrong definitions: with one of them it can't be proved.

ghost use Rattle.chess_match_laws.specs.Claims.{DrawClaimsEndMatches};
ghost use Rattle.chess_match_laws.specs.Ignored.{OtherLinesAreIgnored};

/// States a law and does nothing: by `1/2-1/2` in its turn, in time or after its move, a side ends the match as a draw,
/// if one may be claimed by threefold repetition or 50 moves.
///
/// It refuses that `1/2-1/2` is only an offer where a draw may be claimed.
pub fn draw_claims_end_matches()
    ensures { DrawClaimsEndMatches }
{}

/// States a law and does nothing: some lines are ignored. In a setup: each but `pong 1`. Before a side's move, in time:
/// its thinking, `feature` lines, each `pong`, and `Illegal move` if its opponent has made no move. After its move: its
/// thinking, and each `pong` with another number than the latest `ping`. Such a line changes nothing, with fewer than
/// 9,999 before it in this setup or turn; the 10,000th ends the match.
pub fn other_lines_are_ignored()
    ensures { OtherLinesAreIgnored }
{}
