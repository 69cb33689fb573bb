//! The plain board, which keeps what is on each of the 64 squares, and no sets.

ghost use Rattle.std.specs.Prelude.{◌≡◌, ℕ, ◌<◌, ◌&&◌, None};
ghost use Rattle.chess_base.specs.Initial.{initial_setup};
ghost use Rattle.chess_base.specs.Men.{man_at, is_man};
ghost use Rattle.chess_base.specs.MoveList.{move_of};
ghost use Rattle.chess_base.specs.Moves.{is_legal};
ghost use Rattle.chess_base.specs.Sound.{IsSound};
ghost use Rattle.chess_moves.specs.Sets.{HasLegalStarts, contains};

use crate::board::{Board, MoveList};
use crate::hashing::position_hash;
use crate::listing::{has_legal_move, legal_moves};
use crate::moving::{move_back, move_on};
use crate::set::SquareSet;
use chess_base::rules::{is_king_attacked, is_legal, is_man, saved_of};
use chess_base::{Colour, Kind, Man, Move, Position, Saved, Setup, Square};
use std::marker::Model;

/// A board that keeps the piece of each of the 64 squares and changes them in place. In contracts it is the
/// `Setup` of its position.
#[derive(Clone, Copy, PartialEq, Eq)]
pub struct Plain {
    setup: Setup,
}

impl Model for Plain {
    ghost use Rattle.chess_base.specs.declared.setup.Setup.{Setup};

    ghost Value = { Setup };

    ghost use Rattle.chess_base.specs.Sound.{IsSound};

    ghost view = { λ b. b.setup };

    ghost invariant = { λ b. IsSound b.setup };

    ghost inverse = { λ v. record { setup = v } };
}

// The squares of this colour's pieces of this kind: for White's knights in the initial position b1 and g1.
fn men_of(men: &[Option<Man>; 64], colour: Colour, kind: Kind) -> SquareSet
    ensures { (k : ℕ) → k < 64 → contains result k ≡ is_man colour kind (man_at men.now k) }
{
    let mut set = SquareSet::empty();
    for number in 0..64 {
        let square = Square::new(number);
        if is_man(colour, kind, men[square.index()]) {
            set = set.union(SquareSet::single(square));
        }
    }
    set
}

// Whether on `from` is a piece of this kind, of the side on move, that may legally move to `to` without a promotion.
fn is_legal_start(setup: &Setup, kind: Kind, from: Square, to: Square) -> bool
    requires { IsSound setup.now }
    ensures { result ≡ (is_man setup.now.side kind (man_at setup.now.men from)
        && is_legal setup.now (move_of from to None)) }
{
    let m = Move {
        from,
        to,
        promotion: None,
    };
    is_man(setup.side, kind, setup.men[from.index()]) && is_legal(setup, &m)
}

// The squares from which a piece of this kind, of the side on move, may legally move to `to` without a promotion: for a
// knight and f3 in the initial position only g1. It asks this of each of the 64 squares, in a loop as in `men_of`:
// one function for both, which takes the test, would need more proof than the two.
fn legal_starts(setup: &Setup, kind: Kind, to: Square) -> SquareSet
    requires { IsSound setup.now }
    ensures { HasLegalStarts setup.now kind to result }
{
    let mut set = SquareSet::empty();
    for number in 0..64 {
        let from = Square::new(number);
        if is_legal_start(setup, kind, from, to) {
            set = set.union(SquareSet::single(from));
        }
    }
    set
}

impl Plain {
    /// A board at the initial position.
    pub fn new() -> Self
        ensures { result ≡ initial_setup }
    {
        let position = Position::initial();
        Plain {
            setup: *position.setup(),
        }
    }
}

impl Board for Plain {
    ghost use Rattle.chess_moves.specs.PositionHash.{position_hash};

    ghost position = { λ b. b };

    ghost word_of = { position_hash };

    // Sets the board to the position `to`.
    fn set(&mut self, to: &Position) {
        self.setup = *to.setup();
    }

    // The position that the board is at.
    fn position(&self) -> Position {
        Position::from_sound(self.setup)
    }

    // The position that the board is at, lent as a `Setup` without a copy.
    fn setup(&self) -> &Setup {
        &self.setup
    }

    // All legal moves, each once, rising by start square and then end square; promotions in the order queen, rook,
    // bishop, knight.
    fn legal_moves(&self) -> MoveList {
        legal_moves(&self.setup)
    }

    // How many legal moves there are.
    fn legal_move_count(&self) -> usize {
        self.legal_moves().len()
    }

    // Whether there is a legal move.
    fn has_legal_move(&self) -> bool {
        has_legal_move(&self.setup)
    }

    // Whether a move is legal.
    fn is_legal(&self, m: &Move) -> bool {
        is_legal(&self.setup, m)
    }

    // The squares of all pieces of this kind, of the side on move, whether or not they could go to the square: so those
    // of the pieces that legally may are among them.
    #[tactic(auto, using(crate::proofs::shared::Origins::all_men))]
    fn origins(&self, kind: Kind, _to: Square) -> SquareSet {
        men_of(&self.setup.men, self.setup.side, kind)
    }

    // The squares of this colour's pieces of this kind.
    fn men_of(&self, colour: Colour, kind: Kind) -> SquareSet {
        men_of(&self.setup.men, colour, kind)
    }

    // The squares from which a piece of this kind, of the side on move, may legally move to `to` without a promotion.
    fn legal_starts(&self, kind: Kind, to: Square) -> SquareSet {
        legal_starts(&self.setup, kind, to)
    }

    // Whether the side on move is in check.
    #[tactic(auto, using(chess_base::proofs::shared::Kings::one_king_of))]
    fn in_check(&self) -> bool {
        is_king_attacked(&self.setup.men, self.setup.side)
    }

    // The position's Zobrist hash, computed from all its pieces at each call.
    fn word(&self) -> u64 {
        position_hash(&self.setup)
    }

    // Makes a legal move, and returns what `take_back` needs to take it back.
    fn make(&mut self, m: Move) -> Saved {
        let saved = saved_of(&self.setup, &m);
        move_on(&mut self.setup, &m);
        saved
    }

    // Takes back the move that was made last, `m`, by what `make` returned for it.
    fn take_back(&mut self, m: Move, saved: Saved) {
        move_back(&mut self.setup, &m, &saved);
    }
}
