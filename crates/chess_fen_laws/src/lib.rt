//! Laws of FEN, each the contract of a function that does nothing. They are in a crate of their own so that no program
//! waits for their proofs.
#![tactic(auto)]

mod laws;

pub use laws::{
    a_rank_has_one_text, equal_fens_are_equal_positions, fens_are_worked_out, normal_is_kept,
    rights_are_named, written_is_denoted,
};
