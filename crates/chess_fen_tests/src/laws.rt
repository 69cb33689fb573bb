//! Each law of chess_fen_laws can be called, without a condition.

use chess_fen_laws::{
    a_rank_has_one_text, equal_fens_are_equal_positions, fens_are_worked_out, normal_is_kept,
    rights_are_named, written_is_denoted,
};

#[test]
fn laws_are_called() {
    a_rank_has_one_text();
    equal_fens_are_equal_positions();
    fens_are_worked_out();
    normal_is_kept();
    rights_are_named();
    written_is_denoted();
}
