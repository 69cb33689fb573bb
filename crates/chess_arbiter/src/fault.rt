//! The faults of the program, and how they are written to its error output.

ghost use Rattle.std.specs.Prelude.{◌≡◌};
ghost use Rattle.chess_arbiter.specs.Program.{fault_status};
ghost use Rattle.chess_arbiter.specs.declared.fault.ProgramFault.TheVariants.{NoMemory, WriteFailed};
ghost use Rattle.chess_arbiter.specs.Faults.{fault_of};

use byte_devices::{Output, WriteFault, put};
use chess_cecp::Fault;
use std::alloc::AllocError;
use std::fmt;
use std::fmt::{Display, Write};
use thiserror::Error;

/// Why the program did not do what it was asked to.
#[derive(Clone, Copy, Debug, PartialEq, Eq, Error)]
pub enum ProgramFault {
    /// A read of the input failed.
    #[error("read failed")]
    ReadFailed,
    /// A write or a flush of the output failed.
    #[error("write failed")]
    WriteFailed,
    /// There was no memory.
    #[error("no memory")]
    NoMemory,
    /// The program's arguments could not be read, for example because one is not UTF-8.
    #[error("wrong words")]
    InvalidArguments,
}

impl ProgramFault {
    /// The program's exit status: 2 for invalid arguments, otherwise 1.
    pub fn status(self) -> u8
        ensures { result ≡ fault_status self }
    {
        match self {
            ProgramFault::ReadFailed | ProgramFault::WriteFailed | ProgramFault::NoMemory => 1,
            ProgramFault::InvalidArguments => 2,
        }
    }
}

impl From<Fault> for ProgramFault {
    ghost from_gives = { λ cause fault. fault ≡ fault_of cause };

    // The fault of the program for a read or a write that failed while lines were answered.
    fn from(fault: Fault) -> ProgramFault {
        match fault {
            Fault::Read => ProgramFault::ReadFailed,
            Fault::Write => ProgramFault::WriteFailed,
        }
    }
}

impl From<WriteFault> for ProgramFault {
    ghost from_gives = { λ _ fault. fault ≡ WriteFailed };

    // The fault that `?` returns for a write or a flush that failed: `WriteFailed`.
    fn from(_fault: WriteFault) -> ProgramFault {
        ProgramFault::WriteFailed
    }
}

impl From<AllocError> for ProgramFault {
    ghost from_gives = { λ _ fault. fault ≡ NoMemory };

    // The fault that `?` returns for memory that ran out: `NoMemory`.
    fn from(_error: AllocError) -> ProgramFault {
        ProgramFault::NoMemory
    }
}

// An output, to which formatted text can be written.
#[derive(Drop)]
struct TextOn<'a, W> {
    output: &'a mut W,
}

impl<W: Output> fmt::Write for TextOn<'_, W> {
    // Writes a text to the output, as formatting asks for it.
    fn write_str(&mut self, text: &str) -> fmt::Result {
        put(self.output, text.as_bytes()).map_err(|_| fmt::Error)
    }
}

/// Writes a text to the error output; if that fails, nothing is done about it.
pub(crate) fn report_text<E: Output, D: Display>(errors: &mut E, text: &D) {
    let mut output = TextOn { output: errors };
    if write!(output, "{text}").is_ok() {
        let _ = errors.flush();
    }
}

/// Writes a fault to the error output as the line `arbiter: FAULT`; if that fails, nothing is done about it.
pub(crate) fn report<E: Output, D: Display>(errors: &mut E, fault: &D) {
    let mut output = TextOn { output: errors };
    if writeln!(output, "arbiter: {fault}").is_ok() {
        let _ = errors.flush();
    }
}

// Writes a fault to the error output as the line `arbiter: FAULT`, and returns `status`.
pub(crate) fn reported<E: Output, D: Display>(errors: &mut E, fault: &D, status: u8) -> u8
    ensures { result ≡ status }
{
    report(errors, fault);
    status
}
