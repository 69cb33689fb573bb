//! The program on the arguments and the standard streams of this process.

ghost use Rattle.std.specs.Prelude.{◌≡◌, ◌≢◌};
ghost use Rattle.std.specs.IoError.{error_kind};

use crate::fault::{ProgramFault, report};
use crate::program::run_program;
use byte_devices::Counted;
use match_runner::{Log, ProcessHost};
use std::alloc::AllocError;
use std::env;
use std::io::{self, ErrorKind};
use std::process::ExitCode;

// The arguments after the program's name.
fn arguments_of(rt: &HostRuntime) -> io::Result<Vec<String>> {
    let mut arguments = Vec::new(rt.alloc());
    for argument in env::args(rt)?.skip(1) {
        arguments.push(argument).map_err(AllocError::from)?;
    }
    Ok(arguments)
}

// Runs the program on the arguments and the standard streams of this process, with engines as processes, and returns
// its exit status.
fn status_of(rt: &HostRuntime) -> io::Result<u8> {
    let owned = arguments_of(rt)?;
    let mut arguments = Vec::new(rt.alloc());
    for argument in &owned {
        arguments.push(argument.as_str()).map_err(AllocError::from)?;
    }
    Ok(run_program(
        &mut ProcessHost::new(rt, rt.alloc()),
        rt.alloc(),
        arguments.as_slice(),
        &mut Counted::reading(rt.stdin()),
        &mut Counted::writing(rt.stdout()),
        &mut Log::new(Counted::writing(rt.stderr())),
    ))
}

// Why the arguments could not be read: no memory for them, or one of them is no UTF-8.
fn arguments_fault(error: &io::Error) -> ProgramFault
    ensures memory { error_kind error.now ≡ ErrorKind.OutOfMemory → result ≡ ProgramFault.NoMemory }
    ensures others { error_kind error.now ≢ ErrorKind.OutOfMemory → result ≡ ProgramFault.InvalidArguments }
{
    match error.kind() {
        ErrorKind::OutOfMemory => ProgramFault::NoMemory,
        _ => ProgramFault::InvalidArguments,
    }
}

/// Runs the program on the arguments after its name and the standard streams, as `main` does, and returns its exit
/// status: `run_program`'s, but 2 if an argument is not UTF-8, and 1 if there is no memory for the arguments. No
/// contract says so: only its few lines of code and the program's stored run show it.
pub fn run(rt: &HostRuntime) -> ExitCode {
    match status_of(rt) {
        Ok(status) => ExitCode::from(status),
        Err(error) => {
            let fault = arguments_fault(&error);
            report(&mut Counted::writing(rt.stderr()), &fault);
            ExitCode::from(fault.status())
        }
    }
}
