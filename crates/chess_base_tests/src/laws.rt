//! Each law of chess_base and chess_base_laws can be called, without a condition.

use chess_base::{orders_are_derived, reserve_never_grows, squares_are_named};
use chess_base_laws::{
    after_is_sound, before_undoes_after, castling_is_named, equalities_are_derived,
    moves_go_in_steps, moves_rise, normal_is_kept,
};

#[test]
fn laws_are_called() {
    after_is_sound();
    before_undoes_after();
    castling_is_named();
    equalities_are_derived();
    moves_go_in_steps();
    moves_rise();
    normal_is_kept();
    orders_are_derived();
    reserve_never_grows();
    squares_are_named();
}
