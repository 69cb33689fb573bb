//! Laws of lines, time controls and ends, by examples that are worked out. A caller learns one by calling its function,
//! which does nothing. What a law refuses are wrong definitions: with one of them it can't be proved.

ghost use Rattle.chess_match_laws.specs.Worked.{ClocksGoOn, EndsAreOfKinds, EndsAreWorded, FaultsAreReported, FeaturesAreOn, ItemsAreRead, KingsAreBare, LevelsGive, LinesAreSent, LinesSay, LosersLose};
ghost use Rattle.chess_match_laws.specs.WorkedTurns.{ClaimsAreJudged, EndLinesAreSent, HandshakesEnd, IgnoredAreCounted, OffersAreJudged, RepliesAreTimed, SilencesAreJudged};

/// States a law and does nothing: examples of lines of engines: what they say, which items a `feature` line has, and
/// which features are on by them; that ignored lines are counted anew in each setup and each turn; how handshakes end,
/// and which of several missing features is reported.
///
/// It refuses a `pong` that takes fewer than nine digits or more, a quoted 1 that counts as 1, and a lack of `setboard`
/// that is reported before that of `ping`.
pub fn engine_lines_are_worked_out()
    ensures lines { LinesSay }
    ensures items { ItemsAreRead }
    ensures features { FeaturesAreOn }
    ensures counts { IgnoredAreCounted }
    ensures handshakes { HandshakesEnd }
{}

/// States a law and does nothing: what some time controls are, how much time they give after some moves, and what moves
/// leave on the clocks of a game with two time controls.
///
/// It refuses that a side's move takes time off the other's clock, that the increment or the time for the next 40 moves
/// is left out, and that only the last move's time counts.
pub fn levels_are_worked_out()
    ensures levels { LevelsGive }
    ensures clocks { ClocksGoOn }
{}

/// States a law and does nothing: the lines that engines are sent in examples, byte by byte. Those of handshakes and of
/// openings of turns, in a match of 40 moves in 5 minutes: in an engine's first turn the move comes before the clocks,
/// in later turns after them; in SAN, and without clocks, if the engine asked for that. And those at the end: the last
/// move, if the engine was not sent it yet, the result and `quit`, to White first.
///
/// It refuses another version of the protocol, `time` and `otim` that are exchanged, clocks that are rounded up, an end
/// without `quit`, and a result that is sent before the last move.
pub fn sent_lines_are_worked_out()
    ensures openings { LinesAreSent }
    ensures ends { EndLinesAreSent }
{}

/// States a law and does nothing: a side with only its king has a bare king, whatever the other side has; with a queen,
/// a knight or a pawn more it has not.
pub fn bare_kings_are_worked_out()
    ensures { KingsAreBare }
{}

/// States a law and does nothing: the side that resigns, forfeits on time, moves illegally or out of turn, claims
/// falsely or rejects a legal move loses. Against a bare king, and by agreement, the game is drawn; after a fault, and
/// at the limit of half-moves, it has no outcome. Also the comments on ends, letter by letter; which ends are losses on
/// time or against the rules, for PGN's tag Termination; and which fault is reported.
pub fn losers_lose()
    ensures outcomes { LosersLose }
    ensures comments { EndsAreWorded }
    ensures kinds { EndsAreOfKinds }
    ensures faults { FaultsAreReported }
{}

/// States a law and does nothing: examples of claims, before a side's move and after it. A side that says by `1-0` or
/// `0-1` that it has won loses by a false claim; one that says that the other side has won, or `resign`, resigns. One
/// that answers a move by `Illegal move` loses by that; without a move to reject the line is ignored.
///
/// It refuses that a resignation by `1-0` or `0-1` is a false claim, that a side may reject a legal move, and that a
/// side to which no move was sent loses by `Illegal move`.
pub fn claims_are_worked_out()
    ensures { ClaimsAreJudged }
{}

/// States a law and does nothing: `offer draw` is passed on to the other side as `draw`, once; if that side has offered
/// a draw, both agree. The same holds of `1/2-1/2` where no draw may be claimed.
///
/// It refuses an offer that is ignored, is sent back, or is never agreed to, and a `1/2-1/2` that is no offer where no
/// draw may be claimed.
pub fn offers_are_worked_out()
    ensures { OffersAreJudged }
{}

/// States a law and does nothing: examples of the time for a reply: from which line on it runs, and by which fault a
/// match ends whose reply is owed for longer than the rules allow. In a handshake each `feature` line begins it anew,
/// and in a setup `pong 1`; other lines, such as a remark, don't.
///
/// It refuses that other lines give an engine more time, and that one which owes the answer to a `ping` is reported for
/// a missing `done=1`.
pub fn reply_times_are_worked_out()
    ensures times { RepliesAreTimed }
    ensures silences { SilencesAreJudged }
{}
