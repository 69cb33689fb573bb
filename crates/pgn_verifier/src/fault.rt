//! Why games are not verified.

ghost use Rattle.std.specs.Prelude.{◌≡◌};
ghost use Rattle.pgn_verifier.specs.declared.fault.VerifyFault.TheVariants.{NoMemory, ReadFailed, WriteFailed};
ghost use Rattle.pgn_verifier.specs.Faults.{of_piece};

use byte_devices::{ReadFault, WriteFault};
use pgn_pieces::PieceFault;
use std::alloc::AllocError;
use thiserror::Error;

/// Why games were not verified to the end, or their lines were not written.
#[derive(Clone, Copy, Debug, PartialEq, Eq, Error)]
pub enum VerifyFault {
    /// A read of the input failed.
    #[error("read failed")]
    ReadFailed,
    /// A write or a flush of the output failed.
    #[error("write failed")]
    WriteFailed,
    /// There was no memory.
    #[error("no memory")]
    NoMemory,
    /// The text is longer than 16,777,216 bytes, or a collection has nearly 2^63 bytes.
    #[error("input too long")]
    InputTooLong,
}

impl From<ReadFault> for VerifyFault {
    ghost from_gives = { λ _ fault. fault ≡ ReadFailed };

    // The fault that `?` returns for a read that failed: `ReadFailed`.
    fn from(_fault: ReadFault) -> VerifyFault {
        VerifyFault::ReadFailed
    }
}

impl From<WriteFault> for VerifyFault {
    ghost from_gives = { λ _ fault. fault ≡ WriteFailed };

    // The fault that `?` returns for a write or a flush that failed: `WriteFailed`.
    fn from(_fault: WriteFault) -> VerifyFault {
        VerifyFault::WriteFailed
    }
}

impl From<AllocError> for VerifyFault {
    ghost from_gives = { λ _ fault. fault ≡ NoMemory };

    // The fault that `?` returns for memory that ran out: `NoMemory`.
    fn from(_error: AllocError) -> VerifyFault {
        VerifyFault::NoMemory
    }
}

impl From<PieceFault> for VerifyFault {
    ghost from_gives = { λ piece fault. fault ≡ of_piece piece };

    // The fault of the same name, if cutting the input into pieces failed.
    fn from(fault: PieceFault) -> VerifyFault {
        match fault {
            PieceFault::ReadFailed => VerifyFault::ReadFailed,
            PieceFault::NoMemory => VerifyFault::NoMemory,
            PieceFault::InputTooLong => VerifyFault::InputTooLong,
        }
    }
}
