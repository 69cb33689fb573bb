//! Squares and moves parsed from text.

ghost use Rattle.std.specs.Prelude.{◌≡◌};
ghost use Rattle.chess_base.specs.Coordinates.{ParsesSquare, ParsesMove};
ghost use Rattle.chess_base.specs.ties.MoveTexts.{promotion_with_letter, promotion_of_text, move_of_text};

use crate::man::{Kind, Move};
use crate::square::Square;
use std::str::FromStr;

/// The error that a text is no square's name.
#[derive(Clone, Copy, Debug, PartialEq, Eq, Hash, thiserror::Error)]
#[error("a square is a file and a rank, such as e4")]
pub struct ParseSquareError;

/// The error that a text is no move's coordinate text.
#[derive(Clone, Copy, Debug, PartialEq, Eq, Hash, thiserror::Error)]
#[error("a move is two squares and perhaps a promotion, such as e2e4 or e7e8q")]
pub struct ParseMoveError;

// The square with that name, or an error if no square has it.
#[tactic(auto, using(crate::proofs::MoveTexts::parses_square))]
fn parse_square(text: &[u8]) -> Result<Square, ParseSquareError>
    ensures { ParsesSquare text.now result }
{
    Square::named(text).ok_or(ParseSquareError)
}

// The kind of piece that a pawn becomes by this letter of a move's text, one of `qrbn`; `None` for any other byte.
fn promotion_with_letter(letter: u8) -> Option<Kind>
    ensures { result ≡ promotion_with_letter letter }
{
    match letter {
        b'q' => Some(Kind::Queen),
        b'r' => Some(Kind::Rook),
        b'b' => Some(Kind::Bishop),
        b'n' => Some(Kind::Knight),
        _ => None,
    }
}

// The promotion that the text after a move's two squares denotes: `Some(None)` if it is empty, a kind by its letter;
// `None` for any other text.
fn read_promotion(text: &[u8]) -> Option<Option<Kind>>
    ensures { result ≡ promotion_of_text text.now }
{
    match text {
        [] => Some(None),
        [letter] => promotion_with_letter(*letter).map(Some),
        _ => None,
    }
}

// The move with that coordinate text, such as `e2e4` or `e7e8q`; `None` for any other text, as `e7e8k`. Whether the
// move is legal is asked only in a position.
fn read_move(text: &[u8]) -> Option<Move>
    ensures { result ≡ move_of_text text.now }
{
    let [from_file, from_rank, to_file, to_rank, rest @ ..] = text else {
        return None;
    };
    let from = Square::from_letters(*from_file, *from_rank)?;
    let to = Square::from_letters(*to_file, *to_rank)?;
    let promotion = read_promotion(rest)?;
    Some(Move {
        from,
        to,
        promotion,
    })
}

// The move with that coordinate text, or an error if no move has it.
#[tactic(auto, using(crate::proofs::MoveTexts::parses_move))]
fn parse_move(text: &[u8]) -> Result<Move, ParseMoveError>
    ensures { ParsesMove text.now result }
{
    read_move(text).ok_or(ParseMoveError)
}

impl TryFrom<&[u8]> for Square {
    type Error = ParseSquareError;

    ghost try_from_gives = { λ text r. ParsesSquare text.now r };

    // The square with that name, as `e4`.
    fn try_from(text: &[u8]) -> Result<Self, ParseSquareError> {
        parse_square(text)
    }
}

impl FromStr for Square {
    type Err = ParseSquareError;

    ghost from_str_gives = { λ text r. ParsesSquare text r };

    // The square with that name, as `e4`.
    fn from_str(text: &str) -> Result<Self, ParseSquareError> {
        parse_square(text.as_bytes())
    }
}

impl TryFrom<&[u8]> for Move {
    type Error = ParseMoveError;

    ghost try_from_gives = { λ text r. ParsesMove text.now r };

    // The move with that coordinate text, as `e2e4` or `e7e8q`.
    fn try_from(text: &[u8]) -> Result<Self, ParseMoveError> {
        parse_move(text)
    }
}

impl FromStr for Move {
    type Err = ParseMoveError;

    ghost from_str_gives = { λ text r. ParsesMove text r };

    // The move with that coordinate text, as `e2e4` or `e7e8q`.
    fn from_str(text: &str) -> Result<Self, ParseMoveError> {
        parse_move(text.as_bytes())
    }
}
