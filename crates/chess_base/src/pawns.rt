//! The moves of pawns (Laws of Chess 2023, article 3.7).

ghost use Rattle.std.specs.Prelude.{◌≡◌, ◌+◌, ◌<◌, Option, Bool};
ghost use Rattle.chess_base.specs.Men.{forward, pawn_rank};
ghost use Rattle.chess_base.specs.Moves.{promotion_fits, is_double_advance, is_en_passant, pawn_advances, pawn_captures, pawn_moves};
ghost use Rattle.chess_base.specs.shared.Parts.{one_rank_back};

use crate::attack::{attacks, is_man, is_of};
use crate::legality::{first_rank, man_on};
use crate::man::{Colour, Kind, Move};
use crate::setup::Setup;
use crate::square::{Square, is_at};

// The number of the square straight ahead for a pawn of this colour: from `e2` (12) White's is `e3` (20). On its last
// rank, where no pawn is, the result means nothing: White's is above 63, Black's 0.
pub(crate) fn forward(colour: Colour, number: u8) -> u8
    requires { number < 248 }
    ensures { result ≡ forward colour number }
{
    match colour {
        Colour::White => number + 8,
        Colour::Black => number.saturating_sub(8),
    }
}

// The square one step back for a pawn of this colour: when Black takes en passant on `e3`, the pawn that it takes is on
// `e4`, one step back from `e3` for Black.
pub(crate) fn one_rank_back(colour: Colour, square: Square) -> Square
    requires { one_rank_back colour square < 64 }
    ensures { result ≡ one_rank_back colour square }
{
    Square::new(forward(colour.other(), square.number()))
}

/// The rank of this colour's pawns at the start: 1 (rank 2) for White, 6 (rank 7) for Black (Laws of Chess 2023,
/// article 2.3).
pub fn pawn_rank(colour: Colour) -> u8
    ensures { result ≡ pawn_rank colour }
{
    match colour {
        Colour::White => 1,
        Colour::Black => 6,
    }
}

/// The promotions that a pawn's move may name, each as in `Move::promotion`, in the order in which moves are listed.
pub const PROMOTIONS: [Option<Kind>; 4] = [
    Some(Kind::Queen),
    Some(Kind::Rook),
    Some(Kind::Bishop),
    Some(Kind::Knight),
];

/// Whether a pawn's move may have this promotion: a queen, rook, bishop or knight if it ends on the pawn's last rank
/// (`last`), and `None` if it doesn't (Laws of Chess 2023, article 3.7.3.3).
pub fn promotion_fits(last: bool, promotion: Option<Kind>) -> bool
    ensures { result ≡ promotion_fits last promotion }
{
    match promotion {
        None => !last,
        Some(Kind::King | Kind::Pawn) => false,
        Some(_) => last,
    }
}

// Whether a pawn of the side on move goes two squares straight ahead from its home rank, as `e2e4`. Whether these
// squares are empty is not asked here.
#[tactic(auto, unfolding(crate::specs::Moves::is_double_advance))]
pub(crate) fn is_double_advance(setup: &Setup, m: &Move) -> bool
    ensures { result ≡ is_double_advance setup.now m.now }
{
    is_man(setup.side, Kind::Pawn, setup.men[m.from.index()])
        && m.from.rank() == pawn_rank(setup.side)
        && m.to.number() == forward(setup.side, forward(setup.side, m.from.number()))
}

/// Whether the move takes a pawn en passant: a pawn goes diagonally to the en passant target (Laws of Chess 2023,
/// article 3.7.3.1).
#[tactic(auto, unfolding(crate::specs::Moves::is_en_passant))]
pub fn is_en_passant(setup: &Setup, m: &Move) -> bool
    ensures { result ≡ is_en_passant setup.now m.now }
{
    is_man(setup.side, Kind::Pawn, setup.men[m.from.index()])
        && attacks(&setup.men, m.from, m.to)
        && is_at(setup.target, m.to)
}

// Whether the move, of a pawn, goes straight ahead, one square or by a double advance, over empty squares.
#[tactic(auto, unfolding(crate::specs::Moves::pawn_advances))]
fn pawn_advances(setup: &Setup, m: &Move) -> bool
    ensures { result ≡ pawn_advances setup.now m.now }
{
    let ahead = forward(setup.side, m.from.number());
    setup.men[m.to.index()].is_none()
        && (m.to.number() == ahead
            || is_double_advance(setup, m) && man_on(&setup.men, ahead).is_none())
}

// Whether the move, of a pawn, goes diagonally to an enemy piece or to the en passant target.
#[tactic(auto, unfolding(crate::specs::Moves::pawn_captures))]
fn pawn_captures(setup: &Setup, m: &Move) -> bool
    ensures { result ≡ pawn_captures setup.now m.now }
{
    attacks(&setup.men, m.from, m.to)
        && (is_of(setup.side.other(), setup.men[m.to.index()]) || is_at(setup.target, m.to))
}

// Whether the move, of a pawn, is an advance or a capture, with a promotion exactly where it reaches its last rank.
#[tactic(auto, unfolding(crate::specs::Moves::pawn_moves))]
pub(crate) fn pawn_moves(setup: &Setup, m: &Move) -> bool
    ensures { result ≡ pawn_moves setup.now m.now }
{
    promotion_fits(m.to.rank() == first_rank(setup.side.other()), m.promotion)
        && (pawn_advances(setup, m) || pawn_captures(setup, m))
}
