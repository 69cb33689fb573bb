//! Laws of the games and the score that a match writes, each the contract of a function that does nothing. They are in
//! a crate of their own, since no other crate needs both matches and the verifier of PGN.
#![tactic(auto)]

mod laws;

pub use laws::{matches_pass_verify, scores_are_sums};
