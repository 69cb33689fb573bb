//! What is lost by a move and so has to be saved to take it back, such as the captured piece; and how the move is taken
//! back with what was saved.

ghost use Rattle.std.specs.Prelude.{◌≡◌, ◌<◌, IsTrue};
ghost use Rattle.chess_base.specs.Squares.{is_at};
ghost use Rattle.chess_base.specs.Men.{other, forward};
ghost use Rattle.chess_base.specs.Moves.{captured_square};
ghost use Rattle.chess_base.specs.Sound.{IsSound};
ghost use Rattle.chess_base.specs.Before.{saved_of, captured_from, was_castling, castling_side_undone, castling_undone, leaving_man, returning_square, returning_man, steps_back};

use crate::attack::{is_man, is_of};
use crate::castling::{
    Castle, castle_by, castled_king_file, home_square, mover_to, names_castling, right_of, rook_to,
};
use crate::man::{CastlingSide, Colour, Kind, Man, Move, Variant};
use crate::pawns::{is_en_passant, one_rank_back};
use crate::setup::{Saved, Setup};
use crate::square::{Square, is_at};
use crate::steps::Steps;

// The square of the piece that the move captures: its end square, or `e5` for White's en passant capture on `e6`; none
// if it captures nothing.
#[tactic(auto, unfolding(crate::specs::Moves::captured_square))]
fn captured_square(setup: &Setup, m: &Move) -> Option<Square>
    requires { IsSound setup.now }
    ensures { result ≡ captured_square setup.now m.now }
{
    if is_en_passant(setup, m) {
        Some(one_rank_back(setup.side, m.to))
    } else if is_of(setup.side.other(), setup.men[m.to.index()]) {
        Some(m.to)
    } else {
        None
    }
}

/// What has to be saved to take the move back: the captured piece (en passant too), and the rights, target and counters
/// of the position before it, which is `setup`.
#[tactic(auto, unfolding(crate::specs::Before::saved_of))]
pub fn saved_of(setup: &Setup, m: &Move) -> Saved
    requires { IsSound setup.now }
    ensures { result ≡ saved_of setup.now m.now }
{
    let captured = match captured_square(setup, m) {
        None => None,
        Some(square) => setup.men[square.index()],
    };
    Saved {
        captured,
        rights: setup.rights,
        target: setup.target,
        halfmove: setup.halfmove,
        fullmove: setup.fullmove,
    }
}

// The square of the piece that move `m` of this colour captured, from what was saved; none if it captured nothing. It
// is the move's end square, or `e5` for White's en passant capture on `e6`. A capture on the saved en passant target
// was en passant, since that square was empty. The square one rank back from there, as this colour sees it, must then
// be on the board.
#[tactic(auto, unfolding(crate::specs::Before::captured_from))]
fn captured_from(colour: Colour, m: &Move, saved: &Saved) -> Option<Square>
    requires { IsTrue (is_at saved.now.target m.now.to) → forward (other colour) m.now.to < 64 }
    ensures { result ≡ captured_from colour m.now saved.now }
{
    if saved.captured.is_none() {
        None
    } else if is_at(saved.target, m.to) {
        Some(one_rank_back(colour, m.to))
    } else {
        Some(m.to)
    }
}

// Whether move `m` of this colour, which left the pieces `men`, was castling on that side: the right was there before
// (it is in `saved`), `m` has the squares of castling, and the king is where that castling takes him.
// `is_castling_to` asks this before the move, of the king on the start square and of the position's own rights.
#[tactic(auto, unfolding(crate::specs::Before::was_castling))]
fn was_castling(
    variant: Variant,
    colour: Colour,
    men: &[Option<Man>; 64],
    m: &Move,
    saved: &Saved,
    castling_side: CastlingSide,
) -> bool
    ensures { result ≡ was_castling variant colour men.now m.now saved.now castling_side }
{
    let king_to = home_square(colour, castled_king_file(castling_side));
    is_man(colour, Kind::King, men[king_to.index()])
        && names_castling(
            variant,
            colour,
            m,
            castling_side,
            right_of(saved.rights, colour, castling_side),
        )
}

// The side to which move `m` of this colour castled: the king's side if its king went `e1g1`. `None` if it was not
// castling. `men` are the pieces after the move, `saved` is what was saved of the position before it. `castling` asks
// this of the position before the move, which is not at hand where a move is taken back.
#[tactic(auto, unfolding(crate::specs::Before::castling_side_undone))]
fn castled(
    variant: Variant,
    colour: Colour,
    men: &[Option<Man>; 64],
    m: &Move,
    saved: &Saved,
) -> Option<CastlingSide>
    ensures { result ≡ castling_side_undone variant colour men.now m.now saved.now }
{
    if was_castling(variant, colour, men, m, saved, CastlingSide::KingSide) {
        Some(CastlingSide::KingSide)
    } else if was_castling(variant, colour, men, m, saved, CastlingSide::QueenSide) {
        Some(CastlingSide::QueenSide)
    } else {
        None
    }
}

// The four squares of the castling that the move was, from the position after it (`setup`) and what was saved; none if
// it was not castling.
#[tactic(auto, unfolding(crate::specs::Before::castling_undone))]
fn castling_undone(setup: &Setup, m: &Move, saved: &Saved) -> Option<Castle>
    ensures { result ≡ castling_undone setup.now m.now saved.now }
{
    let colour = setup.side.other();
    let castling = castled(setup.variant, colour, &setup.men, m, saved);
    castle_by(colour, saved.rights, m, castling)
}

// The moving piece as it was before the move, from `man`, the piece as it arrived: a pawn if the move names a
// promotion, as for the queen of `e7e8q`.
fn leaving_man(man: Option<Man>, promotion: Option<Kind>) -> Option<Man>
    ensures { result ≡ leaving_man man promotion }
{
    let man = man?;
    match promotion {
        None => Some(man),
        Some(_) => Some(Man {
            colour: man.colour,
            kind: Kind::Pawn,
        }),
    }
}

// The square on which a second piece returns, apart from the mover, when move `m` of this colour is taken back: the
// castling rook's start square, if `m` was castling (`castle`), otherwise the square of the captured piece; `None` if
// there is no such piece. What must be on the board is said at `captured_from`.
fn returning_square(
    colour: Colour,
    m: &Move,
    saved: &Saved,
    castle: Option<Castle>,
) -> Option<Square>
    requires { IsTrue (is_at saved.now.target m.now.to) → forward (other colour) m.now.to < 64 }
    ensures { result ≡ returning_square colour m.now saved.now castle }
{
    match castle {
        None => captured_from(colour, m, saved),
        Some(castle) => Some(castle.rook_from),
    }
}

// The second piece that returns, apart from the mover, when a move of this colour is taken back: the castling rook, if
// the move was castling (`castle`), otherwise the captured piece; `None` if there is no such piece.
fn returning_man(colour: Colour, saved: &Saved, castle: Option<Castle>) -> Option<Man>
    ensures { result ≡ returning_man colour saved.now castle }
{
    match castle {
        None => saved.captured,
        Some(_) => Some(Man {
            colour,
            kind: Kind::Rook,
        }),
    }
}

/// What taking move `m` back changes on the board, from the position after it (`setup`) and what was saved of the one
/// before: the mover returns, and the castling rook or the captured piece.
///
/// After an en passant capture the captured pawn returns one rank back from the move's end square, as the mover sees
/// it: on `e5` if White captured on `e6`. So if the move ended on the saved target, the square one rank back from the
/// target must be on the board. After a legal move it is.
#[tactic(auto, unfolding(crate::specs::Before::steps_back))]
pub fn steps_back(setup: &Setup, m: &Move, saved: &Saved) -> Steps
    requires { IsTrue (is_at saved.now.target m.now.to) → forward setup.now.side m.now.to < 64 }
    ensures { result ≡ steps_back setup.now m.now saved.now }
{
    let colour = setup.side.other();
    // The prover wants a reference here, since the value is used four times.
    let castle = &castling_undone(setup, m, saved);
    let from = mover_to(m, *castle);
    Steps {
        from,
        second_from: rook_to(*castle),
        second_to: returning_square(colour, m, saved, *castle),
        second: returning_man(colour, saved, *castle),
        to: m.from,
        mover: leaving_man(setup.men[from.index()], m.promotion),
    }
}
