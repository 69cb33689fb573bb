//! Each law of chess_cecp_laws can be called, without a condition.

use chess_cecp::Session;
use chess_cecp_laws::{
    game_lines_are_answered, normal_chess_keeps_its_rows, other_words_are_unknown,
    read_games_are_accepted, reads_change_no_answer, refusals_change_nothing,
    session_lines_are_answered, shown_fens_are_set, undo_takes_a_move_back,
};
use chess_moves::Plain;

#[test]
fn laws_are_called() {
    game_lines_are_answered();
    normal_chess_keeps_its_rows();
    other_words_are_unknown();
    read_games_are_accepted();
    reads_change_no_answer::<Session<Plain>>();
    refusals_change_nothing();
    session_lines_are_answered();
    shown_fens_are_set();
    undo_takes_a_move_back();
}
