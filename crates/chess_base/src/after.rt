//! What a move leaves: the pieces, the castling rights, the target and the counters.

ghost use Rattle.std.specs.Prelude.{◌≡◌};
ghost use Rattle.chess_base.specs.Castling.{right_of};
ghost use Rattle.chess_base.specs.Sound.{IsSound};
ghost use Rattle.chess_base.specs.Moves.{arriving_man, second_square_emptied, steps_of, men_after, rights_after, target_after, resets_clock, halfmove_after, fullmove_after};
ghost use Rattle.chess_base.specs.shared.Parts.{right_after};

use crate::attack::{is_man, is_of};
use crate::castling::{castle_of, mover_to, right_of, rook_from, rook_to};
use crate::man::{CastlingSide, Colour, ColourRights, Kind, Man, Move, Rights};
use crate::pawns::{forward, is_double_advance, is_en_passant, one_rank_back};
use crate::setup::{COUNTER_LIMIT, Setup};
use crate::square::Square;
use crate::steps::{Steps, take_steps};

/// The piece that arrives on the end square, from the one that left the start square: the same piece, or after a
/// promotion one of the new kind.
pub fn arriving_man(man: Option<Man>, promotion: Option<Kind>) -> Option<Man>
    ensures { result ≡ arriving_man man promotion }
{
    let man = man?;
    match promotion {
        None => Some(man),
        Some(kind) => Some(Man {
            colour: man.colour,
            kind,
        }),
    }
}

/// The second square that the move empties, apart from its start square: that of the pawn taken en passant, or of the
/// castling rook; none for any other move.
#[tactic(auto, unfolding(crate::specs::Moves::second_square_emptied))]
pub fn second_square_emptied(setup: &Setup, m: &Move) -> Option<Square>
    requires { IsSound setup.now }
    ensures { result ≡ second_square_emptied setup.now m.now }
{
    if is_en_passant(setup, m) {
        return Some(one_rank_back(setup.side, m.to));
    }
    rook_from(castle_of(setup, m))
}

/// What the move changes on the board: which pieces leave which squares, and which arrive.
#[tactic(auto, unfolding(crate::specs::Castling::mover_end, crate::specs::Castling::castling_rook_to))]
pub fn steps_of(setup: &Setup, m: &Move) -> Steps
    requires { IsSound setup.now }
    ensures { result ≡ steps_of setup.now m.now }
{
    // The prover wants a reference here, since the value is used twice.
    let castle = &castle_of(setup, m);
    Steps {
        from: m.from,
        second_from: second_square_emptied(setup, m),
        second_to: rook_to(*castle),
        second: Some(Man {
            colour: setup.side,
            kind: Kind::Rook,
        }),
        to: mover_to(m, *castle),
        mover: arriving_man(setup.men[m.from.index()], m.promotion),
    }
}

// The pieces on all 64 squares after move `m` of the position.
#[tactic(auto, using(crate::proofs::shared::MenAfter::men_after_by_steps))]
pub(crate) fn men_after(setup: &Setup, m: &Move) -> [Option<Man>; 64]
    requires { IsSound setup.now }
    ensures { result ≡ men_after setup.now m.now }
{
    let mut men = setup.men;
    take_steps(&mut men, &steps_of(setup, m));
    men
}

// What the move leaves of one castling right (the square of its rook): it is lost when this colour's king moves, or
// when a move starts or ends on the rook's square.
fn right_after(
    setup: &Setup,
    m: &Move,
    colour: Colour,
    castling_side: CastlingSide,
) -> Option<Square>
    ensures { result ≡ right_after setup.now m.now colour (right_of setup.now.rights colour castling_side) }
{
    let rook = right_of(setup.rights, colour, castling_side)?;
    if is_man(colour, Kind::King, setup.men[m.from.index()]) || m.from == rook || m.to == rook {
        None
    } else {
        Some(rook)
    }
}

/// The castling rights of both colours after the move. A right is lost when the king moves, or when a move starts or
/// ends on the rook's square (Laws of Chess 2023, article 3.8.2.1).
#[tactic(auto, unfolding(crate::specs::Moves::rights_after))]
pub fn rights_after(setup: &Setup, m: &Move) -> Rights
    ensures { result ≡ rights_after setup.now m.now }
{
    let white = ColourRights {
        king_side: right_after(setup, m, Colour::White, CastlingSide::KingSide),
        queen_side: right_after(setup, m, Colour::White, CastlingSide::QueenSide),
    };
    let black = ColourRights {
        king_side: right_after(setup, m, Colour::Black, CastlingSide::KingSide),
        queen_side: right_after(setup, m, Colour::Black, CastlingSide::QueenSide),
    };
    Rights { white, black }
}

/// The en passant target after the move: the square that a pawn's double advance crosses, as `e3` after `e2e4`; none
/// after other moves.
#[tactic(auto, unfolding(crate::specs::Moves::target_after))]
pub fn target_after(setup: &Setup, m: &Move) -> Option<Square>
    ensures { result ≡ target_after setup.now m.now }
{
    if is_double_advance(setup, m) {
        Some(Square::new(forward(setup.side, m.from.number())))
    } else {
        None
    }
}

// Whether the move sets the halfmove clock to 0: a pawn moves or a piece is captured. A capture en passant is a pawn's
// move.
#[tactic(auto, using(crate::proofs::shared::Captures::resets_clock_is))]
fn resets_clock(setup: &Setup, m: &Move) -> bool
    ensures { result ≡ resets_clock setup.now m.now }
{
    is_man(setup.side, Kind::Pawn, setup.men[m.from.index()])
        || is_of(setup.side.other(), setup.men[m.to.index()])
}

/// The halfmove clock after the move: 0 after a capture or a pawn move, otherwise one more, up to `COUNTER_LIMIT`.
#[tactic(auto, unfolding(crate::specs::Moves::halfmove_after))]
pub fn halfmove_after(setup: &Setup, m: &Move) -> u32
    ensures { result ≡ halfmove_after setup.now m.now }
{
    if resets_clock(setup, m) {
        0
    } else {
        setup.halfmove.saturating_add(1).min(COUNTER_LIMIT)
    }
}

/// The fullmove number after a move of that side, from the number before it: one more after Black's, up to
/// `COUNTER_LIMIT`.
pub fn fullmove_after(side: Colour, fullmove: u32) -> u32
    ensures { result ≡ fullmove_after side fullmove }
{
    match side {
        Colour::White => fullmove,
        Colour::Black => fullmove.saturating_add(1).min(COUNTER_LIMIT),
    }
}
