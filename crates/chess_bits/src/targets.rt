//! The squares to which pieces go, even if their king is then attacked. Castling is among these moves only where it is
//! legal.

ghost use Rattle.std.specs.Prelude.{◌≡◌, ◌<◌, ℕ, ◌&&◌, ◌||◌, not, true, false, Some, None};
ghost use Rattle.chess_base.specs.Attacks.{could_capture};
ghost use Rattle.chess_base.specs.Men.{man_at, is_of, is_man, same_kind};
ghost use Rattle.chess_base.specs.MoveList.{move_of};
ghost use Rattle.chess_base.specs.Moves.{is_legal, pawn_advances, pawn_captures};
ghost use Rattle.chess_base.specs.declared.man.Kind.TheVariants.{King, Pawn};
ghost use Rattle.chess_base.specs.Castling.{right_of, castle_of};
ghost use Rattle.chess_base.specs.laws.Castles.{named_square};
ghost use Rattle.chess_bits.specs.ties.Goes.{goes, castles_onto, legal_or, man_goes};
ghost use Rattle.chess_moves.specs.Sets.{contains};

use crate::bits::Bits;
use crate::king::set_of;
use crate::pawns::ahead;
use crate::reaching::reached_from;
use crate::squares::single_if;
use crate::table::Shape;
use chess_base::rules::{Castle, castle_from, is_man, is_of, pawn_rank, right_of};
use chess_base::{CastlingSide, Kind, Move, Square, Variant};
use chess_moves::SquareSet;

// Whether the kind is a king.
pub(crate) fn is_king(kind: Kind) -> bool
    ensures { result ≡ same_kind King kind }
{
    kind == Kind::King
}

// Whether the kind is a pawn.
pub(crate) fn is_pawn(kind: Kind) -> bool
    ensures { result ≡ same_kind Pawn kind }
{
    kind == Kind::Pawn
}

// The end square of the move that is this castling: in normal chess the square where the king ends, in Chess960 the one
// where the rook starts. chess_base's `names_castling` knows it too, but only tests a move's squares. chess_text has a
// function for it, `castling_end`, which also answers where there is no right, and so no `Castle`; neither of the two
// crates uses the other.
fn named_square(variant: Variant, castle: &Castle) -> Square
    ensures { result ≡ named_square variant castle.now }
{
    match variant {
        Variant::Normal => castle.king_to,
        Variant::Fischerandom => castle.rook_from,
    }
}

impl Bits<'_> {
    // The squares that a piece of this kind on `from`, of the side on move, attacks, without the ones that hold its own
    // pieces. For queen, rook, bishop and knight these are the end squares of its pseudo-legal moves, for the king all
    // but castling.
    #[inline(always)]
    pub(crate) fn targets_by_attack(&self, kind: Kind, from: Square) -> SquareSet
        ensures { (k : ℕ) → k < 64
            → contains result k ≡ (could_capture (self.now).men (self.now).side kind from k
            && not (is_of (self.now).side (man_at (self.now).men k))) }
    {
        let side = self.setup.side;
        let reached = reached_from(self.tables, self.sets.occupied(), side, kind, from);
        reached.without(self.sets.all(side))
    }

    // The end square of the move that castles to this side with the king on `king`, as a set; the empty set if that
    // move is not legal. The right to it is there, with the rook on `rook`. Most positions of a game have no such
    // right, so only the test for the right (`legal_castling_end`) is inlined, and this is not.
    #[inline(never)]
    fn legal_castling_end_with_rook(
        &self,
        king: Square,
        castling_side: CastlingSide,
        rook: Square,
    ) -> SquareSet
        requires { right_of (self.now).rights (self.now).side castling_side ≡ Some rook }
        ensures { (k : ℕ) → k < 64 → contains result k ≡ castles_onto self.now castling_side king k }
    {
        let side = self.setup.side;
        if !is_man(side, Kind::King, self.setup.men[king.index()]) {
            return SquareSet::empty();
        }
        let castle = castle_from(side, castling_side, king, rook);
        let to = named_square(self.setup.variant, &castle);
        let m = Move {
            from: king,
            to,
            promotion: None,
        };
        single_if(self.castles_legally(&m, &castle), to)
    }

    // The end square of the move that castles to this side with the king on `king`, as a set; the empty set if that
    // move is not legal, such as without the right to it.
    #[inline(always)]
    fn legal_castling_end(&self, king: Square, castling_side: CastlingSide) -> SquareSet
        ensures { (k : ℕ) → k < 64 → contains result k ≡ castles_onto self.now castling_side king k }
    {
        let Some(rook) = right_of(self.setup.rights, self.setup.side, castling_side) else {
            return SquareSet::empty();
        };
        self.legal_castling_end_with_rook(king, castling_side, rook)
    }

    // The end squares of the legal castlings of the king on `king`, none, one or two: in normal chess where the king
    // arrives (White's c1 and g1), in Chess960 where its rook is (such as a1 and h1). `legal_or .. false`: the move
    // is castling, and legal.
    pub(crate) fn castling_ends(&self, king: Square) -> SquareSet
        ensures { (k : ℕ) → k < 64
            → contains result k
            ≡ legal_or self.now (move_of king k None) (castle_of self.now (move_of king k None)) false }
    {
        let far = self.legal_castling_end(king, CastlingSide::QueenSide);
        far.union(self.legal_castling_end(king, CastlingSide::KingSide))
    }

    // The end squares of the pseudo-legal moves of the king or officer on `from`, which is of the side on move. (A
    // pawn's are `pawn_targets`.) Whether the king is safe after such a move is asked later. Castling is the exception:
    // it is here only if it is legal, since its own test covers all squares that the king crosses.
    fn man_targets(&self, from: Square) -> SquareSet
        requires { is_of (self.now).side (man_at (self.now).men from) ≡ true }
        ensures { (k : ℕ) → k < 64 → contains result k ≡ man_goes self.now from k }
    {
        let Some(man) = self.setup.men[from.index()] else {
            return SquareSet::empty();
        };
        if is_king(man.kind) {
            return self
                .castling_ends(from)
                .union(self.targets_by_attack(Kind::King, from));
        }
        self.targets_by_attack(man.kind, from)
    }

    // The squares to which the pawn on `from`, of the side on move, may go straight ahead: the next one if it is empty,
    // and from the pawns' home rank also the second if both are empty.
    fn advances(&self, from: Square) -> SquareSet
        requires { is_man (self.now).side Pawn (man_at (self.now).men from) ≡ true }
        ensures { (k : ℕ) → k < 64 → contains result k ≡ pawn_advances self.now (move_of from k None) }
    {
        let side = self.setup.side;
        let occupied = self.sets.occupied();
        let next = ahead(side, SquareSet::single(from));
        let met = next.intersection(occupied);
        if !met.is_empty() {
            return SquareSet::empty();
        }
        if from.rank() != pawn_rank(side) {
            return next;
        }
        let second = ahead(side, next).without(occupied);
        next.union(second)
    }

    // The squares on which the pawn on `from`, of the side on move, may capture. Of the squares that it attacks, these
    // are the ones with an enemy piece and the en passant target.
    fn captures(&self, from: Square) -> SquareSet
        requires { is_man (self.now).side Pawn (man_at (self.now).men from) ≡ true }
        ensures { (k : ℕ) → k < 64 → contains result k ≡ pawn_captures self.now (move_of from k None) }
    {
        let side = self.setup.side;
        let reached = self.tables.at(Shape::Pawn(side), from);
        let taken = self.sets.all(side.other());
        let aims = taken.union(set_of(self.setup.target));
        reached.intersection(aims)
    }

    // The end squares of the pseudo-legal moves of the pawn on `from`, which is of the side on move: straight ahead and
    // by captures, with a promotion or without.
    pub(crate) fn pawn_targets(&self, from: Square) -> SquareSet
        requires { is_man (self.now).side Pawn (man_at (self.now).men from) ≡ true }
        ensures { (k : ℕ) → k < 64
            → contains result k ≡ (pawn_advances self.now (move_of from k None)
            || pawn_captures self.now (move_of from k None)) }
    {
        let advances = self.advances(from);
        let captures = self.captures(from);
        advances.union(captures)
    }

    // The end squares of the piece on `from`: of all its legal moves, and perhaps of pseudo-legal ones that would leave
    // its king attacked. None if no piece of the side on move is there.
    #[tactic(auto, using(crate::proofs::TargetsOf::none_begin, crate::proofs::TargetsOf::pawn_sound, crate::proofs::TargetsOf::pawn_complete, crate::proofs::TargetsOf::man_set_sound, crate::proofs::TargetsOf::man_set_complete))]
    pub(crate) fn targets(&self, from: Square) -> SquareSet
        ensures sound { (k : ℕ) → k < 64 → contains result k ≡ true → goes self.now from k ≡ true }
        ensures complete { (m : Move) → is_legal self.now m ≡ true → m.from ≡ from → contains result m.to ≡ true }
    {
        // The prover wants this fact: the start's number is below 64.
        let _start = from.number();
        let man = self.setup.men[from.index()];
        if !is_of(self.setup.side, man) {
            return SquareSet::empty();
        }
        if is_man(self.setup.side, Kind::Pawn, man) {
            return self.pawn_targets(from);
        }
        self.man_targets(from)
    }
}
