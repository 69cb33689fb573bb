//! The faults of arguments.

ghost use Rattle.std.specs.Prelude.{◌≡◌};
ghost use Rattle.arbiter_cli.specs.declared.fault.WordsFault.TheVariants.{BadLevel, BadFen};
ghost use Rattle.arbiter_cli.specs.ties.Requests.{Refuses};

use cecp_engine::LevelFault;
use chess_base::FenFault;
use clap::Error;
use clap::error::ErrorKind;

/// Why there is no plan for the arguments.
#[derive(Debug, Drop, thiserror::Error)]
pub enum WordsFault {
    /// They have none of the program's forms, or ask for help or the version; the text is `clap`'s.
    #[error(transparent)]
    Words(Error),
    /// There was no memory to read them.
    #[error("no memory")]
    NoMemory,
    /// A text of `--level`, `--white-level` or `--black-level` denotes no time control.
    #[error("bad level")]
    BadLevel(LevelFault),
    /// The text of `--fen` denotes no sound position.
    #[error("illegal position ({})", .0.name())]
    BadFen(FenFault),
    /// The date of a match has more than 60 bytes, or one outside 32 to 126.
    #[error("bad date")]
    BadDate,
    /// `--ignore` of `verify` names a kind that can't be ignored.
    #[error("bad kind (variant, result, board or after-end, with commas between)")]
    BadKind,
}

impl From<LevelFault> for WordsFault {
    ghost from_gives = { λ level fault. fault ≡ BadLevel level };

    // The fault that `?` returns for a text that denotes no time control: `BadLevel`.
    fn from(fault: LevelFault) -> WordsFault {
        WordsFault::BadLevel(fault)
    }
}

impl From<FenFault> for WordsFault {
    ghost from_gives = { λ fen fault. fault ≡ BadFen fen };

    // The fault that `?` returns for a FEN that denotes no sound position: `BadFen`.
    fn from(fault: FenFault) -> WordsFault {
        WordsFault::BadFen(fault)
    }
}

// The fault that reports an error of `clap`: `NoMemory` if memory ran out, otherwise the error itself.
pub(crate) fn refusal(error: Error) -> WordsFault
    ensures { Refuses error result }
{
    if error.kind() == ErrorKind::OutOfMemory {
        WordsFault::NoMemory
    } else {
        WordsFault::Words(error)
    }
}
