//! Pawns as whole sets: where they step and capture, from where they reach a square, and how many moves they have.

ghost use Rattle.std.specs.Prelude.{◌≡◌, ◌+◌, ◌-◌, ◌≤◌, ◌<◌, ◌==◌, ◌&&◌, ◌||◌, not, ℕ, true, false, None, length};
ghost use Rattle.std.specs.List.{flat_map};
ghost use Rattle.chess_base.specs.Men.{forward, is_man, is_of, man_at, other};
ghost use Rattle.chess_base.specs.MoveList.{move_of};
ghost use Rattle.chess_base.specs.Moves.{pawn_advances, pawn_captures};
ghost use Rattle.chess_base.specs.Squares.{file, is_at};
ghost use Rattle.chess_base.specs.declared.man.Kind.TheVariants.{Pawn};
ghost use Rattle.chess_bits.specs.declared.table.Shape.TheVariants.{Pawn as PawnAttack};
ghost use Rattle.chess_bits.specs.ties.Goes.{AreFree, GoesFreely, IsAhead, IsFree, goes_specially};
ghost use Rattle.chess_bits.specs.ties.Shapes.{in_shape};
ghost use Rattle.chess_moves.specs.shared.MovesBySquares.{moves_from};
ghost use Rattle.chess_moves.specs.Sets.{contains, members};

use crate::bits::Bits;
use crate::king::set_of;
use crate::table::Shape;
use chess_base::rules::pawn_rank;
use chess_base::{Colour, Kind, Square};
use chess_moves::{Board, SquareSet};

// The set moved one rank, the way that pawns of this colour go: up for White (all bits by 8), down for Black. Squares
// beyond the board's edge drop out: for White, {e4, h8} gives {e5}.
#[inline(always)]
pub(crate) fn ahead(colour: Colour, squares: SquareSet) -> SquareSet
    ensures { IsAhead colour squares result }
{
    match colour {
        Colour::White => squares.raised(8),
        Colour::Black => squares.lowered(8),
    }
}

// The set moved one rank against the way that pawns of this colour go. The result has the squares from which one step
// ahead reaches a square of the set: for White, {e4} gives {e3}. About rank 1 the contract says nothing (`8 ≤ k`),
// since no pawn is there.
#[inline(always)]
fn behind(colour: Colour, squares: SquareSet) -> SquareSet
    ensures { (k : ℕ) → k < 64 → 8 ≤ k → contains result k ≡ contains squares (forward colour k) }
{
    ahead(colour.other(), squares)
}

// The squares from which a pawn of this colour attacks a square of the set towards the a-file: for White and {d5} it is
// e4. The set is moved one file right and one rank back. By that a square of the h-file comes onto the a-file (for
// White h5 onto a5), so the a-file is taken out. The contract says nothing of pawns on rank 1, or of White's on rank 8:
// there are none.
#[inline(always)]
fn attacking_left(colour: Colour, squares: SquareSet) -> SquareSet
    ensures { (k : ℕ) → k < 64 → 8 ≤ k → forward colour k < 64
        → contains result k ≡ (not (file k == 0) && contains squares (forward colour k - 1)) }
{
    let starts = behind(colour, squares.raised(1));
    starts.without(SquareSet::of_file(0))
}

// The squares from which a pawn of this colour attacks a square of the set towards the h-file: for White and {d5} it is
// c4. The set is moved one file left and one rank back. By that a square of the a-file comes onto the h-file (for White
// a5 onto h3), so the h-file is taken out.
#[inline(always)]
fn attacking_right(colour: Colour, squares: SquareSet) -> SquareSet
    ensures { (k : ℕ) → k < 64 → 8 ≤ k
        → contains result k ≡ (not (file k == 7) && contains squares (forward colour k + 1)) }
{
    let starts = behind(colour, squares.lowered(1));
    starts.without(SquareSet::of_file(7))
}

impl Bits<'_> {
    // The squares from which a pawn of the side on move could go straight ahead to `to`, by one step or two; none if
    // `to` is occupied. For White and e4 these are e3, and also e2 if e3 is empty. Whether pawns are on these squares
    // is not asked here; `pawns_to` asks that.
    #[inline(always)]
    fn advance_starts(&self, to: Square) -> SquareSet
        ensures { (k : ℕ) → k < 64 → is_man (self.now).side Pawn (man_at (self.now).men k) ≡ true
            → contains result k ≡ pawn_advances self.now (move_of k to None) }
    {
        // The prover wants this fact: the number of the end is below 64.
        let _end = to.number();
        let side = self.setup.side;
        let occupied = self.sets.occupied();
        if occupied.contains(to) {
            return SquareSet::empty();
        }
        let once = behind(side, SquareSet::single(to));
        let crossed = once.without(occupied);
        let twice = behind(side, crossed);
        let home = SquareSet::of_rank(pawn_rank(side));
        once.union(twice.intersection(home))
    }

    // The squares from which a pawn of the side on move could capture on `to`; none if `to` neither holds an enemy
    // piece nor is the en passant target. An enemy pawn on `to` would attack just these squares: for White and d5, c4
    // and e4. Whether pawns are on them is not asked here; `pawns_to` asks that.
    #[inline(always)]
    fn capture_starts(&self, to: Square) -> SquareSet
        ensures { (k : ℕ) → k < 64
            → contains result k ≡ ((is_of (other (self.now).side) (man_at (self.now).men to)
            || is_at (self.now).target to) && in_shape (PawnAttack (other (self.now).side)) to k) }
    {
        // The prover wants this fact: the number of the end is below 64.
        let _end = to.number();
        let theirs = self.setup.side.other();
        let aims = self.sets.all(theirs).union(set_of(self.setup.target));
        if !aims.contains(to) {
            return SquareSet::empty();
        }
        self.tables.at(Shape::Pawn(theirs), to)
    }

    // The squares of the pawns of the side on move that can go to `to`, straight ahead or by a capture (en passant
    // too), even if that leaves their king attacked. `legal_pawn_starts` and `origins` begin with them, for the texts
    // of pawns' moves, promotions too, and for the test whether a pawn may take en passant. With a test of each pawn of
    // the file, and of each that attacks `to`, texts such as exd5 were 12 % slower to read.
    #[inline(always)]
    pub(crate) fn pawns_to(&self, to: Square) -> SquareSet
        ensures { (k : ℕ) → k < 64 → contains result k ≡ (is_man (self.now).side Pawn (man_at (self.now).men k)
            && (pawn_advances self.now (move_of k to None) || pawn_captures self.now (move_of k to None))) }
    {
        let own = self.men_of(self.setup.side, Kind::Pawn);
        let starts = self.advance_starts(to).union(self.capture_starts(to));
        own.intersection(starts)
    }

    // The squares on which a pawn of the side on move may have a special move: a promotion or en passant. They are its
    // last rank but one (White's seventh, where black pawns start), and the squares from which it attacks the en
    // passant target. An enemy pawn on the target would attack just these: for the target e6 these are d5 and f5.
    #[tactic(auto, using(crate::proofs::PawnsCounted::aims_back))]
    fn special_squares(&self) -> SquareSet
        ensures { (k : ℕ) → k < 64 → contains result k ≡ goes_specially self.now k }
    {
        let theirs = self.setup.side.other();
        let last_but_one = SquareSet::of_rank(pawn_rank(theirs));
        match self.setup.target {
            None => last_but_one,
            Some(target) => self
                .tables
                .at(Shape::Pawn(theirs), target)
                .union(last_but_one),
        }
    }

    // Takes the pawns that may promote or take en passant out of `free`, pieces whose king is safe wherever they go.
    // Then each square to which a remaining piece goes gives it exactly one legal move, so moves can be listed and
    // counted without a test.
    #[inline(always)]
    pub(crate) fn without_special_pawns(&self, free: SquareSet) -> SquareSet
        requires { (k : ℕ) → k < 64 → contains free k ≡ true → IsFree self.now k }
        ensures squares { (k : ℕ) → k < 64
            → contains result k ≡ (contains free k
            && not (is_man (self.now).side Pawn (man_at (self.now).men k) && goes_specially self.now k)) }
        ensures freely { (k : ℕ) → k < 64 → contains result k ≡ true → GoesFreely self.now k }
    {
        let pawns = self.men_of(self.setup.side, Kind::Pawn);
        let special = pawns.intersection(self.special_squares());
        free.without(special)
    }

    // Counts the legal moves of these pawns of the side on move. Their king is safe wherever they go, and none may
    // promote or take en passant, so each step, double step and capture counts once. The whole set is moved each of
    // these ways at once: eight pawns take as long as one, where `pawn_targets` would be called for each (the gain was
    // not measured apart). The squares `blocked` have a piece right ahead; moved back one more rank, they are the
    // squares with a piece two steps ahead.
    #[tactic(auto, using(chess_moves::proofs::shared::Members::length_members))]
    pub(crate) fn count_ordinary_pawns(&self, pawns: SquareSet) -> usize
        requires free { AreFree self.now Pawn pawns }
        requires ordinary { (k : ℕ) → k < 64 → contains pawns k ≡ true → goes_specially self.now k ≡ false }
        ensures { result ≡ length (flat_map (λ a. moves_from self.now a) (members pawns)) }
    {
        // The prover wants these facts: the position is sound, and the king is on one square only.
        let _sound = self.setup();
        let side = self.setup.side;
        let _king = self.king(side);
        let blocked = behind(side, self.sets.occupied());
        let once = pawns.without(blocked);
        let home = SquareSet::of_rank(pawn_rank(side));
        let twice = once.intersection(home).without(behind(side, blocked));
        let theirs = self.sets.all(side.other());
        let left = pawns.intersection(attacking_left(side, theirs));
        let right = pawns.intersection(attacking_right(side, theirs));
        once.len() + twice.len() + left.len() + right.len()
    }
}
