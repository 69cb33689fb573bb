//! The pieces of one colour as sets of squares, and what they attack.

ghost use Rattle.std.specs.Prelude.{◌≡◌, ℕ, ◌<◌, ◌&&◌, ◌||◌, Option, Some, None, true, false, length, slice_set, slice_index};
ghost use Rattle.chess_base.specs.declared.man.Colour.{Colour as Side};
ghost use Rattle.chess_base.specs.declared.man.Kind.TheVariants.{Queen};
ghost use Rattle.chess_base.specs.declared.man.Man.{Man as Piece};
ghost use Rattle.chess_base.specs.Men.{Men, man_at, is_of, other};
ghost use Rattle.chess_base.specs.shared.Parts.{kind_number};
ghost use Rattle.chess_base.specs.Attacks.{attacks, is_attacked};
ghost use Rattle.chess_moves.specs.Sets.{contains};
ghost use Rattle.chess_bits.specs.ties.Occupancy.{IsOccupied, IsLater};
ghost use Rattle.chess_bits.specs.ties.KindSets.{AreKindsAt, IsAll, IsKinds};

use crate::sliding::{met_on_diagonals, met_on_lines};
use crate::table::Shape;
use crate::tables::AttackTables;
use chess_base::{Colour, Kind, Square};
use chess_moves::SquareSet;

/// The pieces of one colour as sets of squares: `all` for all of them, and in `sets` one set for each kind, at the
/// kind's index (king 0 to pawn 5). In contracts, `IsKinds` says that `sets` are right for colour c's pieces on the
/// board `men`, and `IsAll` that `all` is.
#[derive(Clone, Copy)]
pub struct Kinds {
    sets: [SquareSet; 6],
    pub all: SquareSet,
}

// The index of a kind's set: king 0 to pawn 5. Among the Zobrist keys, kinds have other indices (chess_moves'
// `kind_index`).
fn number(kind: Kind) -> usize
    ensures value { result ≡ kind_number kind }
    ensures in_range { result < 6 }
{
    match kind {
        Kind::King => 0,
        Kind::Queen => 1,
        Kind::Rook => 2,
        Kind::Bishop => 3,
        Kind::Knight => 4,
        Kind::Pawn => 5,
    }
}

impl Kinds {
    /// The sets of a colour that has no pieces: all of them empty. The contract says it for a board with no pieces at
    /// all, from which a board is set up.
    #[tactic(auto, using(crate::proofs::Standing::no_kinds))]
    pub fn empty() -> Kinds
        ensures kinds { (c : Side) → (men : Men) → ((k : ℕ) → k < 64 → man_at men k ≡ None)
            → IsKinds result.sets c men }
        ensures none { (k : ℕ) → contains result.all k ≡ false }
    {
        let none = SquareSet::empty();
        Kinds {
            sets: [none, none, none, none, none, none],
            all: none,
        }
    }

    /// Adds a piece of this kind on `square`, which is empty: to the set of its kind, and to the set of all.
    pub fn put(&mut self, kind: Kind, square: Square)
        ensures kinds { (men : Men) → (c : Side) → length men ≡ 64 → man_at men square ≡ None
            → IsKinds self.old.sets c men
            → IsKinds self.new.sets c (slice_set men square (Some (record { colour = c; kind = kind }))) }
        ensures all { (men : Men) → (c : Side) → (o : Option Piece) → length men ≡ 64 → is_of c o ≡ true
            → IsAll self.old.all c men → IsAll self.new.all c (slice_set men square o) }
        ensures in_range { square < 64 }
    {
        let at = number(kind);
        let here = SquareSet::single(square);
        self.sets[at] = self.sets[at].union(here);
        self.all = self.all.union(here);
    }

    /// Removes a piece of this kind from `square`: from the set of its kind, and from the set of all.
    pub fn lift(&mut self, kind: Kind, square: Square)
        ensures kinds { (men : Men) → (c : Side) → length men ≡ 64
            → man_at men square ≡ Some (record { colour = c; kind = kind }) → IsKinds self.old.sets c men
            → IsKinds self.new.sets c (slice_set men square None) }
        ensures all { (men : Men) → (c : Side) → length men ≡ 64
            → IsAll self.old.all c men → IsAll self.new.all c (slice_set men square None) }
        ensures in_range { square < 64 }
    {
        let at = number(kind);
        let here = SquareSet::single(square);
        self.sets[at] = self.sets[at].without(here);
        self.all = self.all.without(here);
    }

    /// Moves a piece of this kind from one square to another, which is empty: in the set of its kind, and in the set of
    /// all. `lift` and then `put` would give the same sets, but write each of them twice. It is part of the fast way to
    /// make a move: `shift` of placing.rt says what that gained.
    #[inline(always)]
    pub fn shift(&mut self, kind: Kind, from: Square, to: Square)
        ensures kinds { (men : Men) → (c : Side) → length men ≡ 64
            → man_at men from ≡ Some (record { colour = c; kind = kind }) → man_at men to ≡ None
            → IsKinds self.old.sets c men
            → IsKinds self.new.sets c
            (slice_set (slice_set men from None) to (Some (record { colour = c; kind = kind }))) }
        ensures all { (men : Men) → (c : Side) → (o : Option Piece) → length men ≡ 64 → is_of c o ≡ true
            → IsAll self.old.all c men → IsAll self.new.all c (slice_set (slice_set men from None) to o) }
        ensures starts_in_range { from < 64 }
        ensures ends_in_range { to < 64 }
    {
        let at = number(kind);
        let left = SquareSet::single(from);
        let entered = SquareSet::single(to);
        let rest = self.sets[at].without(left);
        self.sets[at] = rest.union(entered);
        let others = self.all.without(left);
        self.all = others.union(entered);
    }

    /// The squares of the pieces of this kind, of the colour that these sets are of.
    pub fn of(&self, kind: Kind) -> SquareSet
        ensures { result ≡ slice_index self.now.sets (kind_number kind) }
    {
        self.sets[number(kind)]
    }

    /// The squares of the pieces of this kind and of the queens: with `Rook` all pieces that attack along ranks and
    /// files, with `Bishop` all that attack along diagonals.
    #[inline(always)]
    pub fn with_queens(&self, kind: Kind) -> SquareSet
        ensures { (k : ℕ) → contains result k ≡ (contains (slice_index self.now.sets (kind_number kind)) k
            || contains (slice_index self.now.sets (kind_number Queen)) k) }
    {
        self.of(kind).union(self.of(Kind::Queen))
    }

    /// The squares from which this colour's pieces, which are in these sets, attack `square`; `occupied` are the
    /// occupied squares of the board. It looks from `square` outwards: a knight attacks `square` if it is a knight's
    /// move away, and a pawn does if a pawn of the other colour on `square` would attack it. The contract says it of
    /// each square where the sets are right (`AreKindsAt`), since `attacks_outside` asks with the sets of the board
    /// before a move.
    #[inline(always)]
    pub fn attackers(
        &self,
        tables: &AttackTables,
        colour: Colour,
        square: Square,
        occupied: SquareSet,
    ) -> SquareSet
        ensures { (men : Men) → IsOccupied occupied men → (k : ℕ) → k < 64 → AreKindsAt self.now.sets colour men k
            → contains result k ≡ (is_of colour (man_at men k) && attacks men k square) }
    {
        let straight = self.with_queens(Kind::Rook);
        let aslant = self.with_queens(Kind::Bishop);
        let lines = met_on_lines(tables, square, occupied, straight);
        let diagonals = met_on_diagonals(tables, square, occupied, aslant);
        let kings = tables
            .at(Shape::King, square)
            .intersection(self.of(Kind::King));
        let knights = tables
            .at(Shape::Knight, square)
            .intersection(self.of(Kind::Knight));
        let pawns = tables
            .at(Shape::Pawn(colour.other()), square)
            .intersection(self.of(Kind::Pawn));
        lines
            .union(diagonals)
            .union(kings.union(knights))
            .union(pawns)
    }

    /// Whether one of this colour's pieces, which are in these sets, attacks `square`; `occupied` are the occupied
    /// squares of the board.
    #[tactic(auto, unfolding(chess_base::specs::Attacks::is_attacked))]
    pub fn attacks(
        &self,
        tables: &AttackTables,
        colour: Colour,
        square: Square,
        occupied: SquareSet,
    ) -> bool
        ensures { (men : Men) → IsKinds self.now.sets colour men → IsOccupied occupied men
            → result ≡ is_attacked men square colour }
    {
        !self.attackers(tables, colour, square, occupied).is_empty()
    }

    /// Whether one of this colour's pieces attacks `square` after a move of the other colour; the pieces in these sets
    /// are those before the move. `occupied` are the squares occupied after it, and `changed` the squares whose content
    /// it changes: a piece of this colour there was captured, so it doesn't count. So a king's safety is judged without
    /// making the move. (`IsLater`: the pieces `later` are those after such a move.)
    #[inline(always)]
    #[tactic(auto, unfolding(chess_base::specs::Attacks::is_attacked))]
    pub fn attacks_outside(
        &self,
        tables: &AttackTables,
        colour: Colour,
        square: Square,
        occupied: SquareSet,
        changed: SquareSet,
    ) -> bool
        ensures { (men : Men) → (later : Men) → (filled : ℕ) → IsKinds self.now.sets colour men
            → IsLater changed filled colour men later → IsOccupied occupied later
            → result ≡ is_attacked later square colour }
    {
        let attackers = self.attackers(tables, colour, square, occupied);
        !attackers.without(changed).is_empty()
    }
}
