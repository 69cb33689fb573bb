//! The program `arbiter`. Its stored run is a session.
#![tactic(auto)]

use std::process::ExitCode;

// Runs the program on the arguments and the standard streams of the process.
fn main(rt: HostRuntime) -> ExitCode {
    chess_arbiter::run(&rt)
}
