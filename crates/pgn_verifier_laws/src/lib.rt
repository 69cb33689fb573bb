//! Laws of the reports on games that pgn_verifier makes, and one of the pieces that pgn_pieces cuts. Each is the
//! contract of a function that does nothing. They are in a crate of their own so that no other crate waits for their
//! proofs.
#![tactic(auto)]

mod laws;

pub use laws::{
    a_text_without_faults_is_reported_alike, counted_games_are_games, faults_are_in_order,
    files_are_verified_alike, games_are_in_parts, reports_are_the_only_ones,
    reports_are_worked_out, shards_are_cut, spans_make_up_the_text, written_games_have_no_fault,
    written_texts_have_no_fault,
};
