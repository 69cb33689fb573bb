//! What is wrong with a game.

ghost use Rattle.std.specs.Prelude.{◌≡◌, ◌≤◌, ◌<◌, ◌+◌, ◌^◌, length};
ghost use Rattle.pgn_verifier.specs.declared.game_fault.FaultKind.TheVariants.{Pgn};
ghost use Rattle.pgn_verifier.specs.GameFaults.{pgn_fault_name};
ghost use Rattle.pgn_verifier.specs.ties.OnTheWay.{moved};

use chess_game::Outcome;
use chess_pgn::{PgnFault, PgnFaultKind};

/// What is wrong with a game.
#[derive(Clone, Copy, Debug, PartialEq, Eq)]
pub enum FaultKind {
    /// Its text can't be read or played.
    Pgn(PgnFaultKind),
    /// One of its variations can't be read or played.
    InVariation(PgnFaultKind),
    /// Its tag `Variant` names a variant that is not known, so it was read as normal chess.
    UnknownVariant,
    /// Its tag `Result`, whose text has `tag_len` bytes, differs from its termination marker, which names `outcome`.
    ResultDiffers { tag_len: usize, outcome: Outcome },
    /// The board has a verdict with another outcome than its termination marker.
    BoardSaysOtherwise,
}

/// A fault of a game, and where it is.
#[derive(Clone, Copy, Debug, PartialEq, Eq)]
pub struct GameFault {
    /// What is wrong.
    pub kind: FaultKind,
    /// The offset of the fault's byte, counted from the text's first byte, or once it is reported from the input's.
    pub offset: usize,
}

impl GameFault {
    // The same fault with its offset counted from the input's first byte; the game's text begins at the offset `start`
    // there.
    pub(crate) fn moved(self, start: usize) -> Self
        requires { start + self.offset < 2 ^ 64 }
        ensures { result ≡ moved start self }
    {
        GameFault {
            kind: self.kind,
            offset: start + self.offset,
        }
    }
}

impl From<PgnFault> for GameFault {
    ghost from_gives = { λ pgn fault. fault ≡ record { kind = Pgn pgn.kind; offset = pgn.offset } };

    // A fault of reading as a game's fault, at the same byte.
    fn from(fault: PgnFault) -> GameFault {
        GameFault {
            kind: FaultKind::Pgn(fault.kind),
            offset: fault.offset,
        }
    }
}

// The words for a fault of reading a game's text, such as `illegal move`.
pub(crate) fn pgn_fault_name(kind: PgnFaultKind) -> &'static [u8]
    ensures value { result.now ≡ pgn_fault_name kind }
    ensures short { length result.now ≤ 18 }
{
    match kind {
        PgnFaultKind::BadTag => b"bad tag",
        PgnFaultKind::BadFen(_) => b"bad FEN",
        PgnFaultKind::BadToken => b"bad token",
        PgnFaultKind::IllegalMove => b"illegal move",
        PgnFaultKind::AmbiguousMove => b"ambiguous move",
        PgnFaultKind::AfterEnd => b"move after the end",
        PgnFaultKind::TooLong => b"too long",
        PgnFaultKind::UnclosedComment => b"unclosed comment",
        PgnFaultKind::UnclosedVariation => b"unclosed variation",
        PgnFaultKind::NoResult => b"no result",
    }
}
