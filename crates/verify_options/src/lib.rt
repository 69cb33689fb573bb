//! How games are verified: what the arguments of `arbiter verify` ask for, and what pgn_verifier does. It is a crate of
//! its own, so that the arguments are proved beside the verifier.
#![tactic(auto)]

mod options;

pub use options::{LENIENT, STRICT_FAULTS, Strictness, VerifyOptions};
