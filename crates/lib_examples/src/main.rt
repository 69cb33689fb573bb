//! The examples at the top of the crates' lib.rt as programs: each is the text of a function, and is proved with it.
//! `tools/checks/theorems` compares the texts.
#![tactic(auto)]

mod bytes;
mod chess;
mod programs;

use anyhow::Result;

// Runs the examples of all three modules.
fn main(rt: HostRuntime) -> Result<()> {
    bytes::run(&rt)?;
    chess::run(&rt)?;
    programs::run(&rt)
}
