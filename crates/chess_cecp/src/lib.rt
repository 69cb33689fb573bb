//! The Chess Engine Communication Protocol, version 2, from the side of an arbiter: lines, commands, and a session that
//! answers them.
//!
//! ```
//! let mut session = Session::open(alloc, Plain::new(), Plain::new(), Tags::default(), 1000)?;
//! let end = run_session(&mut input, &mut output, &mut session)?;
//! ```
#![tactic(auto)]

mod answer;
mod command;
mod result_command;
mod run;
mod session;

pub use command::{Command, read_command};
pub use run::{End, Fault, LineServer, run_session, serve_lines};
pub use session::{COMMAND_LEN, Go, Session};
pub use text_lines::{Line, Lines};
