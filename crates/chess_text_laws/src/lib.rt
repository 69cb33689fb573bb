//! Laws of moves' texts, each the contract of a function that does nothing. They are in a crate of their own so that no
//! program waits for their proofs.
#![tactic(auto)]

mod laws;

pub use laws::{
    coordinate_denotes_its_move, move_text_denotes_its_move, normal_is_kept, san_denotes_its_move,
    texts_have_parts,
};
