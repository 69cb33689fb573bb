//! Each law of pgn_verifier_laws can be called, without a condition.

use pgn_verifier_laws::{
    a_text_without_faults_is_reported_alike, counted_games_are_games, faults_are_in_order,
    files_are_verified_alike, games_are_in_parts, reports_are_the_only_ones,
    reports_are_worked_out, shards_are_cut, spans_make_up_the_text, written_games_have_no_fault,
    written_texts_have_no_fault,
};

#[test]
fn laws_are_called() {
    a_text_without_faults_is_reported_alike();
    counted_games_are_games();
    faults_are_in_order();
    files_are_verified_alike();
    games_are_in_parts();
    reports_are_the_only_ones();
    reports_are_worked_out();
    shards_are_cut();
    spans_make_up_the_text();
    written_games_have_no_fault();
    written_texts_have_no_fault();
}
