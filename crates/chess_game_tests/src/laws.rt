//! Each law of chess_game can be called, without a condition.

use chess_game::equalities_are_derived;

#[test]
fn laws_are_called() {
    equalities_are_derived();
}
