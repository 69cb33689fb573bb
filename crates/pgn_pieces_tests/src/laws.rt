//! Each law of pgn_pieces can be called, without a condition.

use pgn_pieces::{pieces_are_cut, pieces_are_in_place};

#[test]
fn laws_are_called() {
    pieces_are_cut();
    pieces_are_in_place();
}
