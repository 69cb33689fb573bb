//! The program `arbiter` once more, for a stored run by scripts. It is a match between two scripts of data/, each of
//! which becomes the program again, as a stub, after other runs of the program, also with too little memory, came out
//! as the files there have it.
#![tactic(auto)]

use std::process::ExitCode;

fn main(rt: HostRuntime) -> ExitCode {
    chess_arbiter::run(&rt)
}
