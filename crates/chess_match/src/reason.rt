//! Why a match is over, and how that is reported.

ghost use Rattle.std.specs.Prelude.{◌≡◌, ◌≤◌, ◌++◌, length};
ghost use Rattle.chess_base.specs.ByColour.{of_colour};
ghost use Rattle.chess_match.specs.Reasons.{win_of, outcome_by_reason, comment_of, colour_name, fault_comment, ended_by, reported_fault, reported_reason};

use chess_base::{ByColour, Colour};
use chess_game::{DrawClaim, HowEnded, Outcome, Verdict};

/// A fault that stopped a match, of an engine or of its input or output.
#[derive(Clone, Copy, Debug, PartialEq, Eq)]
pub enum MatchFault {
    /// The engine ended its output.
    Ended,
    /// A read of it failed.
    Read,
    /// A write or a flush to it failed.
    Write,
    /// Its handshake did not end within 1,000 lines.
    NoDone,
    /// Its handshake doesn't say `ping=1`.
    NoPing,
    /// The start is to be sent, and its handshake doesn't say `setboard=1`.
    NoSetboard,
    /// It sent 10,000 ignored lines in its setup or in one turn.
    Flood,
    /// The variant is Chess960, and its handshake says `variants` without `fischerandom`.
    NoVariant,
    /// It sent no further line of its handshake in time.
    NoHandshake,
    /// It sent no `pong` in time.
    NoAnswer,
}

/// Why a match is over. The side is the one that loses, but in `Faulted` the one whose engine failed.
#[derive(Clone, Copy, Debug, PartialEq, Eq)]
pub enum Reason {
    /// The board has this verdict.
    Decided(Verdict),
    /// A claim of a draw holds.
    Claimed(DrawClaim),
    /// Both offered a draw.
    Agreed,
    /// It sent `resign`, or `1-0` or `0-1` by which the other side wins.
    Resigns(Colour),
    /// Its `move` denotes no legal move, or more than one.
    MovesIllegally(Colour),
    /// It sends another `move` before it answers the ping after its move.
    MovesOutOfTurn(Colour),
    /// It says by `1-0` or `0-1` that it has won. (A draw that it claims without a right to it counts as an offer.)
    ClaimsFalsely(Colour),
    /// It says `Illegal move` of a move that it was sent: all of these are legal.
    RejectsLegalMove(Colour),
    /// It used more time than it had left, and the other side has more than its king.
    Forfeits(Colour),
    /// A side forfeits on time, and the other has only its king.
    ForfeitsToBareKing,
    /// The game has as many half-moves as its limit allows.
    GameTooLong,
    /// That side's engine, or a device of it, failed: the game has no outcome, unless the board has a verdict.
    Faulted(Colour, MatchFault),
}

// The outcome of a game that this side wins.
fn win_of(colour: Colour) -> Outcome
    ensures { result ≡ win_of colour }
{
    match colour {
        Colour::White => Outcome::WhiteWins,
        Colour::Black => Outcome::BlackWins,
    }
}

impl MatchFault {
    // What the comment says of this fault of the engine of the side `colour`, such as `White has no ping`.
    fn comment(self, colour: Colour) -> &'static [u8]
        ensures value { result.now ≡ colour_name colour ++ fault_comment self }
        ensures short { length result.now ≤ 60 }
    {
        match (self, colour) {
            (MatchFault::Ended, Colour::White) => b"White ended its output",
            (MatchFault::Ended, Colour::Black) => b"Black ended its output",
            (MatchFault::Read, Colour::White) => b"White can not be read",
            (MatchFault::Read, Colour::Black) => b"Black can not be read",
            (MatchFault::Write, Colour::White) => b"White can not be written",
            (MatchFault::Write, Colour::Black) => b"Black can not be written",
            (MatchFault::NoDone, Colour::White) => b"White did not send done=1",
            (MatchFault::NoDone, Colour::Black) => b"Black did not send done=1",
            (MatchFault::NoPing, Colour::White) => b"White has no ping",
            (MatchFault::NoPing, Colour::Black) => b"Black has no ping",
            (MatchFault::NoSetboard, Colour::White) => b"White has no setboard",
            (MatchFault::NoSetboard, Colour::Black) => b"Black has no setboard",
            (MatchFault::Flood, Colour::White) => b"White sent too many lines",
            (MatchFault::Flood, Colour::Black) => b"Black sent too many lines",
            (MatchFault::NoVariant, Colour::White) => b"White has no fischerandom",
            (MatchFault::NoVariant, Colour::Black) => b"Black has no fischerandom",
            (MatchFault::NoHandshake, Colour::White) => {
                b"White sent no done=1 (a UCI engine needs polyglot)"
            }
            (MatchFault::NoHandshake, Colour::Black) => {
                b"Black sent no done=1 (a UCI engine needs polyglot)"
            }
            (MatchFault::NoAnswer, Colour::White) => b"White did not answer",
            (MatchFault::NoAnswer, Colour::Black) => b"Black did not answer",
        }
    }
}

impl Reason {
    /// The outcome of a game that ended for this reason; `Unfinished` if an engine failed or the game is too long. (A
    /// match from a position with a verdict has the verdict's outcome, even if an engine fails.)
    pub fn outcome(self) -> Outcome
        ensures { result ≡ outcome_by_reason self }
    {
        match self {
            Reason::Decided(verdict) => verdict.outcome(),
            Reason::Claimed(_) => Outcome::Draw,
            Reason::Agreed => Outcome::Draw,
            Reason::Resigns(side) => win_of(side.other()),
            Reason::MovesIllegally(side) => win_of(side.other()),
            Reason::MovesOutOfTurn(side) => win_of(side.other()),
            Reason::ClaimsFalsely(side) => win_of(side.other()),
            Reason::RejectsLegalMove(side) => win_of(side.other()),
            Reason::Forfeits(side) => win_of(side.other()),
            Reason::ForfeitsToBareKing => Outcome::Draw,
            Reason::GameTooLong => Outcome::Unfinished,
            Reason::Faulted(_, _) => Outcome::Unfinished,
        }
    }

    /// The comment on the end, such as `Black resigns` in `result 1-0 {Black resigns}`.
    pub fn comment(self) -> &'static [u8]
        ensures value { result.now ≡ comment_of self }
        ensures short { length result.now ≤ 60 }
    {
        match self {
            Reason::Decided(verdict) => verdict.comment(),
            Reason::Claimed(claim) => claim.comment(),
            Reason::Agreed => b"Draw agreed",
            Reason::Resigns(Colour::White) => b"White resigns",
            Reason::Resigns(Colour::Black) => b"Black resigns",
            Reason::MovesIllegally(Colour::White) => b"White makes an illegal move",
            Reason::MovesIllegally(Colour::Black) => b"Black makes an illegal move",
            Reason::MovesOutOfTurn(Colour::White) => b"White moves out of turn",
            Reason::MovesOutOfTurn(Colour::Black) => b"Black moves out of turn",
            Reason::ClaimsFalsely(Colour::White) => b"White makes a false claim",
            Reason::ClaimsFalsely(Colour::Black) => b"Black makes a false claim",
            Reason::RejectsLegalMove(Colour::White) => b"White rejects a legal move",
            Reason::RejectsLegalMove(Colour::Black) => b"Black rejects a legal move",
            Reason::Forfeits(Colour::White) => b"White forfeits on time",
            Reason::Forfeits(Colour::Black) => b"Black forfeits on time",
            Reason::ForfeitsToBareKing => b"Time forfeit against a bare king",
            Reason::GameTooLong => b"Game too long",
            Reason::Faulted(side, fault) => fault.comment(side),
        }
    }

    /// How a game that ended for this reason came to its end, for the PGN tag `Termination`.
    pub fn ended(self) -> HowEnded
        ensures { result ≡ ended_by self }
    {
        match self {
            Reason::Decided(_) => HowEnded::Normal,
            Reason::Claimed(_) => HowEnded::Normal,
            Reason::Agreed => HowEnded::Normal,
            Reason::Resigns(_) => HowEnded::Normal,
            Reason::MovesIllegally(_) => HowEnded::RulesInfraction,
            Reason::MovesOutOfTurn(_) => HowEnded::RulesInfraction,
            Reason::ClaimsFalsely(_) => HowEnded::RulesInfraction,
            Reason::RejectsLegalMove(_) => HowEnded::RulesInfraction,
            Reason::Forfeits(_) => HowEnded::TimeForfeit,
            Reason::ForfeitsToBareKing => HowEnded::TimeForfeit,
            Reason::GameTooLong => HowEnded::Normal,
            Reason::Faulted(_, _) => HowEnded::Normal,
        }
    }
}

// The reason that is reported of a match that ended for this reason: the board's verdict, if there is one, also where a
// fault ended the match.
pub(crate) fn reported_reason(verdict: Option<Verdict>, reason: Reason) -> Reason
    ensures { result ≡ reported_reason verdict reason }
{
    match verdict {
        Some(verdict) => Reason::Decided(verdict),
        None => reason,
    }
}

// The fault that is reported of a match that ended for this reason, with its side: the one that ended it, if one did;
// otherwise the failed write of the last lines (`failed` says to which sides), White's before Black's.
pub(crate) fn reported_fault(reason: Reason, failed: ByColour<bool>) -> Option<(Colour, MatchFault)>
    ensures { result ≡ reported_fault reason (of_colour failed) }
{
    if let Reason::Faulted(side, fault) = reason {
        return Some((side, fault));
    }
    if failed.white {
        return Some((Colour::White, MatchFault::Write));
    }
    if failed.black {
        return Some((Colour::Black, MatchFault::Write));
    }
    None
}
