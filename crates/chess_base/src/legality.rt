//! The rules of chess: which moves are legal. Castling, pawns, and what a move leaves have files of their own.

ghost use Rattle.std.specs.Prelude.{◌≡◌, Bool};
ghost use Rattle.chess_base.specs.Men.{man_at, first_rank};
ghost use Rattle.chess_base.specs.Sound.{IsSound};
ghost use Rattle.chess_base.specs.Moves.{man_moves, is_pseudo_legal, is_legal};

use crate::after::men_after;
use crate::attack::{attacks, is_king_attacked, is_of};
use crate::castling::{castle_of, castles};
use crate::man::{Colour, Kind, Man, Move};
use crate::pawns::pawn_moves;
use crate::setup::Setup;

/// The rank of this colour's king and rooks at the start: 0 (rank 1) for White, 7 (rank 8) for Black.
pub fn first_rank(colour: Colour) -> u8
    ensures { result ≡ first_rank colour }
{
    match colour {
        Colour::White => 0,
        Colour::Black => 7,
    }
}

// The piece on the square with this number; none if it is empty, or if the number is not below 64.
pub(crate) fn man_on(men: &[Option<Man>; 64], number: u8) -> Option<Man>
    ensures { result ≡ man_at men.now number }
{
    if number < 64 {
        men[number as usize]
    } else {
        None
    }
}

// Whether a piece other than a pawn makes an ordinary move, not castling: it goes to a square that it attacks and that
// holds no piece of its own colour (Laws of Chess 2023, article 3.1).
#[tactic(auto, unfolding(crate::specs::Moves::man_moves))]
fn man_moves(setup: &Setup, m: &Move) -> bool
    ensures { result ≡ man_moves setup.now m.now }
{
    m.promotion.is_none()
        && attacks(&setup.men, m.from, m.to)
        && !is_of(setup.side, setup.men[m.to.index()])
}

// Whether the move is pseudo-legal: a piece of the side on move can make it, but may leave its own king in check (Laws
// of Chess 2023, articles 3.1 to 3.8).
#[tactic(auto, unfolding(crate::specs::Moves::is_pseudo_legal))]
pub(crate) fn is_pseudo_legal(setup: &Setup, m: &Move) -> bool
    ensures { result ≡ is_pseudo_legal setup.now m.now }
{
    // The prover learns from its number that the end square is on the board.
    let _end = m.to.number();
    let Some(man) = setup.men[m.from.index()] else {
        return false;
    };
    if man.colour != setup.side {
        return false;
    }
    if man.kind == Kind::Pawn {
        return pawn_moves(setup, m);
    }
    match castle_of(setup, m) {
        None => man_moves(setup, m),
        Some(castle) => castles(setup, m, &castle),
    }
}

/// Whether the move is legal: it is pseudo-legal, and the mover's king is not attacked after it (Laws of Chess 2023,
/// article 3).
#[tactic(auto, unfolding(crate::specs::Moves::is_legal, crate::specs::Moves::after))]
pub fn is_legal(setup: &Setup, m: &Move) -> bool
    requires { IsSound setup.now }
    ensures { result ≡ is_legal setup.now m.now }
{
    is_pseudo_legal(setup, m) && !is_king_attacked(&men_after(setup, m), setup.side)
}
