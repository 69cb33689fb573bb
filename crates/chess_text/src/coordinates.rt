//! Moves written by their squares.

ghost use Rattle.std.specs.Prelude.{◌≡◌, ◌≤◌};
ghost use Rattle.arrayvec.specs.ArrayVec.{array_vec_len};
ghost use Rattle.chess_base.specs.Coordinates.{coordinate};
ghost use Rattle.chess_text.specs.San.{shown_move};

use crate::writing::castling_name;
use arrayvec::ArrayVec;
use chess_base::rules::castling;
use chess_base::{Move, Position, Variant};

/// A move's text as `coordinate` or `move_text` writes it: three to five bytes, such as `e2e4`, `e7e8q` or `O-O`.
pub type CoordinateText = ArrayVec<u8, 5>;

/// The text of a move as CECP writes it, both to engines and in lists of legal moves: its coordinate text, such as
/// `e2e4`, but `O-O` or `O-O-O` for castling in Chess960.
#[tactic(auto, unfolding(crate::specs::San::shown_move))]
pub fn move_text(position: &Position, m: Move) -> CoordinateText
    ensures text { result.items ≡ shown_move position.now m }
    ensures len { array_vec_len result ≤ 5 }
{
    // The prover wants two variables here: one move is lent, and one is given away.
    let again = m;
    match position.variant() {
        Variant::Normal => coordinate(again),
        Variant::Fischerandom => match castling(position.setup(), &m) {
            Some(castling_side) => CoordinateText::try_from(castling_name(castling_side)).unwrap(),
            None => coordinate(again),
        },
    }
}

/// The coordinate text of a move: its start square, its end square, and for a promotion one letter of `qrbn`, as in
/// `e7e8q`. Castling is written by the king's squares, in Chess960 by the king's and the rook's; for CECP use
/// `move_text`.
pub fn coordinate(m: Move) -> CoordinateText
    ensures text { result.items ≡ coordinate m }
    ensures len { array_vec_len result ≤ 5 }
{
    // The prover wants the move lent here, since its squares are read more than once.
    let m = &m;
    let mut text = CoordinateText::new();
    let [from_file, from_rank] = m.from.letters();
    let [to_file, to_rank] = m.to.letters();
    text.push(from_file);
    text.push(from_rank);
    text.push(to_file);
    text.push(to_rank);
    if let Some(kind) = m.promotion {
        text.push(kind.small_letter());
    }
    text
}
