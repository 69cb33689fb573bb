//! Laws of the rules, each the contract of a function that does nothing. They are in a crate of their own so that no
//! program waits for their proofs.
#![tactic(auto)]

mod laws;

pub use laws::{
    after_is_sound, before_undoes_after, castling_is_named, equalities_are_derived,
    moves_go_in_steps, moves_rise, normal_is_kept,
};
