//! The arbiter as a program: what its arguments ask for, on an input, an output and an error output, with a host that
//! starts the engines of a match.
//!
//! ```
//! let mut input = Counted::reading(b"1. e4 *".as_slice());
//! let mut output = Counted::writing(Vec::<u8>::new(alloc));
//! let mut errors = Log::new(Counted::writing(Vec::<u8>::new(alloc)));
//! let mut host = ProcessHost::new(rt, alloc);
//! let status = run_program(
//!     &mut host,
//!     alloc,
//!     &["verify"],
//!     &mut input,
//!     &mut output,
//!     &mut errors,
//! );
//! ```
#![tactic(auto)]

mod fault;
mod process;
mod program;

pub use fault::ProgramFault;
pub use match_runner::{Host, Log, ProcessHost, SinceStart, run_match_logged};
pub use process::run;
pub use program::run_program;
