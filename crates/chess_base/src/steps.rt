//! The steps in which a move, made or taken back, changes the pieces.

ghost use Rattle.std.specs.Prelude.{◌≡◌};
ghost use Rattle.chess_base.specs.shared.OneSquare.{with_man};
ghost use Rattle.chess_base.specs.Steps.{men_stepped};

use crate::man::Man;
use crate::square::Square;

/// What a move changes on the board, and what taking it back changes: the mover and perhaps a second piece leave their
/// squares, then perhaps a second piece and the mover arrive. A move's second piece is the pawn taken en passant, which
/// only leaves, or the castling rook; taken back, it is the captured piece, which only arrives, or the castling rook.
#[derive(Clone, Copy, Debug, PartialEq, Eq)]
pub struct Steps {
    /// The square that the mover leaves.
    pub from: Square,
    /// The square that a second piece leaves, if one does.
    pub second_from: Option<Square>,
    /// The square where a second piece arrives, if one does.
    pub second_to: Option<Square>,
    /// The second piece that arrives; it means nothing where `second_to` is `None`.
    pub second: Option<Man>,
    /// The square where the mover arrives.
    pub to: Square,
    /// The mover, as it arrives; `None` only if the square that it leaves was empty.
    pub mover: Option<Man>,
}

// Puts a piece, or none to empty it, on the given square; nothing changes if no square is given.
fn put(men: &mut [Option<Man>; 64], square: Option<Square>, man: Option<Man>)
    ensures { men.new ≡ with_man men.old square man }
{
    if let Some(square) = square {
        men[square.index()] = man;
    }
}

/// Changes the pieces by these steps. Both pieces leave before one arrives: in Chess960 a castling king and
/// rook may change places.
pub fn take_steps(men: &mut [Option<Man>; 64], steps: &Steps)
    ensures { men.new ≡ men_stepped men.old steps.now }
{
    put(men, Some(steps.from), None);
    put(men, steps.second_from, None);
    put(men, steps.second_to, steps.second);
    put(men, Some(steps.to), steps.mover);
}
