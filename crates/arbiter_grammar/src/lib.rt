//! The grammar of the command line, by which `clap` parses the arguments. It knows nothing of chess.
#![tactic(auto)]

mod grammar;
mod parsing;

pub use parsing::parse;
