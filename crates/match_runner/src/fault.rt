//! Why a match is not played to its end.

ghost use Rattle.std.specs.Prelude.{◌≡◌};
ghost use Rattle.match_runner.specs.declared.fault.GamesFault.TheVariants.{NoMemory, WriteFailed};

use byte_devices::WriteFault;
use std::alloc::AllocError;
use thiserror::Error;

/// Why a match was not played to its end.
#[derive(Clone, Copy, Debug, Error)]
pub enum GamesFault<'a> {
    /// A write or a flush of the output failed.
    #[error("write failed")]
    WriteFailed,
    /// There was no memory.
    #[error("no memory")]
    NoMemory,
    /// The engine with this command could not be started.
    #[error("can not start {0}")]
    CanNotStart(&'a str),
    /// An engine failed in the game with this number; the text says how.
    #[error("game {0}: {1}")]
    Game(u32, &'a str),
}

impl<'a> From<WriteFault> for GamesFault<'a> {
    ghost from_gives = { λ _ fault. fault ≡ WriteFailed };

    // The fault that `?` returns for a write or a flush that failed: `WriteFailed`.
    fn from(_fault: WriteFault) -> GamesFault<'a> {
        GamesFault::WriteFailed
    }
}

impl<'a> From<AllocError> for GamesFault<'a> {
    ghost from_gives = { λ _ fault. fault ≡ NoMemory };

    // The fault that `?` returns for memory that ran out: `NoMemory`.
    fn from(_error: AllocError) -> GamesFault<'a> {
        GamesFault::NoMemory
    }
}
