//! Whether castling is legal, tested with sets of squares.

ghost use Rattle.std.specs.Prelude.{◌≡◌, ◌<◌, ℕ, ◌&&◌, ◌||◌, not, None, Some, IsTrue};
ghost use Rattle.chess_base.specs.Attacks.{is_attacked};
ghost use Rattle.chess_base.specs.Castling.{castle_of, is_on_way, castling_way_is_empty, castling_way_is_safe};
ghost use Rattle.chess_base.specs.Men.{other};
ghost use Rattle.chess_base.specs.Moves.{is_pseudo_legal, is_legal};
ghost use Rattle.chess_base.specs.Squares.{rank, each_square};
ghost use Rattle.chess_moves.specs.Sets.{contains};

use crate::bits::Bits;
use crate::squares::any;
use chess_base::rules::{Castle, Steps};
use chess_base::{Kind, Man, Move, Square, Variant};
use chess_moves::{Board, SquareSet};

impl Bits<'_> {
    // The squares from a to b, both included; a and b are on one rank. For a castling, a is where the king (or the
    // rook) starts, and b where it ends.
    fn way(&self, a: Square, b: Square) -> SquareSet
        requires { rank a ≡ rank b }
        ensures { (k : ℕ) → k < 64 → contains result k ≡ is_on_way a b k }
    {
        let ends = SquareSet::single(a).union(SquareSet::single(b));
        ends.union(self.tables.between(a, b))
    }

    // Whether the side that is not on move attacks none of the squares `way`.
    fn is_safe_way(&self, way: SquareSet) -> bool
        ensures { result ≡ each_square
            (λ x. not (contains way x) || not (is_attacked (self.now).men x (other (self.now).side))) }
    {
        let by = self.setup.side.other();
        !any(way, |x| self.is_attacked(x, by))
    }

    // Whether all squares that king and rook cross or end on in this castling are empty, apart from the two on which
    // they are now. `walk` is the king's way, `ride` the rook's.
    fn is_way_empty(&self, castle: &Castle) -> bool
        requires kings { rank castle.now.king_from ≡ rank castle.now.king_to }
        requires rooks { rank castle.now.rook_from ≡ rank castle.now.rook_to }
        ensures { result ≡ castling_way_is_empty (self.now).men castle.now }
    {
        let walk = self.way(castle.king_from, castle.king_to);
        let ride = self.way(castle.rook_from, castle.rook_to);
        let crossed = walk
            .union(ride)
            .without(SquareSet::single(castle.king_from))
            .without(SquareSet::single(castle.rook_from));
        let met = crossed.intersection(self.sets.occupied());
        met.is_empty()
    }

    // Whether nothing prevents the castling with these squares of king and rook: all squares that the two cross or end
    // on are empty, and no square of the king's way, its start and end included, is attacked.
    fn castles(&self, castle: &Castle) -> bool
        requires kings { rank castle.now.king_from ≡ rank castle.now.king_to }
        requires rooks { rank castle.now.rook_from ≡ rank castle.now.rook_to }
        ensures { result ≡ (castling_way_is_empty (self.now).men castle.now
            && castling_way_is_safe (self.now).men (self.now).side castle.now) }
    {
        if !self.is_way_empty(castle) {
            return false;
        }
        let walk = self.way(castle.king_from, castle.king_to);
        self.is_safe_way(walk)
    }

    // Whether the move `m`, which is the castling with the squares `castle`, is legal. In normal chess it is if nothing
    // prevents it (`castles`). In Chess960 the king must also be safe once the rook has left its square: with king on
    // c1, rook on b1 and an enemy rook on a1, the rook that goes to d1 no longer protects its king.
    #[tactic(auto, using(crate::proofs::CastlingBySets::castle_pattern, crate::proofs::CastlingBySets::not_castling, crate::proofs::CastlingSafely::castles_safely))]
    pub(crate) fn castles_legally(&self, m: &Move, castle: &Castle) -> bool
        requires castle { castle_of self.now m.now ≡ Some castle.now }
        requires none { m.now.promotion ≡ None }
        ensures { result ≡ is_legal self.now m.now }
    {
        // The prover wants these facts: the position is sound, and the number of the end is below 64.
        let _sound = self.setup();
        let _end = m.to.number();
        if !self.castles(castle) {
            return false;
        }
        match self.setup.variant {
            Variant::Normal => true,
            Variant::Fischerandom => self.is_safe_castled(m, castle),
        }
    }

    // Whether the castling `m`, which nothing else prevents, leaves the king safe, and so is legal; `castle` are its
    // squares, from which follows what it changes on the board. (`is_safe_after` would look for these squares again.)
    #[tactic(auto, using(crate::proofs::CastlingBySets::castle_steps))]
    fn is_safe_castled(&self, m: &Move, castle: &Castle) -> bool
        requires castle { castle_of self.now m.now ≡ Some castle.now }
        requires none { m.now.promotion ≡ None }
        requires pattern { IsTrue (is_pseudo_legal self.now m.now) }
        ensures { result ≡ is_legal self.now m.now }
    {
        let side = self.setup.side;
        let steps = Steps {
            from: m.from,
            second_from: Some(castle.rook_from),
            second_to: Some(castle.rook_to),
            second: Some(Man {
                colour: side,
                kind: Kind::Rook,
            }),
            to: castle.king_to,
            mover: Some(Man {
                colour: side,
                kind: Kind::King,
            }),
        };
        self.is_safe_by(&steps)
    }
}
