//! The pieces of both colours as sets of squares, kept along with the list of pieces by square.

ghost use Rattle.std.specs.Prelude.{◌≡◌, ℕ, ◌<◌, length, slice_set, Some, None};
ghost use Rattle.chess_base.specs.Men.{Men, man_at, is_of};
ghost use Rattle.chess_bits.specs.ties.BoardSets.{IsSets};
ghost use Rattle.chess_bits.specs.ties.KindSets.{IsKinds};
ghost use Rattle.chess_bits.specs.ties.Occupancy.{IsOccupied};
ghost use Rattle.chess_moves.specs.Sets.{contains};

use crate::keys::KeyTable;
use crate::kinds::Kinds;
use chess_base::{Colour, Man, Square};
use chess_moves::{SquareSet, man_key};

/// The pieces of both colours as sets of squares; and `men_hash`, their part of the position's hash: the exclusive or
/// of one Zobrist key for each piece on its square. In contracts `IsSets sets men` says that these are the sets and the
/// hash of the pieces in the list `men`; `slice_set men square x` is that list with x on the square.
#[derive(Clone, Copy)]
pub struct Sets {
    pub white: Kinds,
    pub black: Kinds,
    pub men_hash: u64,
}

impl Sets {
    /// The sets of an empty board, whose hash is 0.
    #[tactic(auto, using(crate::proofs::Standing::no_sets))]
    pub fn empty() -> Sets
        ensures { (men : Men) → ((k : ℕ) → k < 64 → man_at men k ≡ None) → IsSets result men }
    {
        Sets {
            white: Kinds::empty(),
            black: Kinds::empty(),
            men_hash: 0,
        }
    }

    /// The sets of this colour's pieces: one for each kind, and one of all.
    pub fn of(&self, colour: Colour) -> &Kinds
        ensures { (men : Men) → IsSets self.now men → IsKinds result.now.sets colour men }
    {
        match colour {
            Colour::White => &self.white,
            Colour::Black => &self.black,
        }
    }

    /// The squares of all pieces of this colour.
    pub fn all(&self, colour: Colour) -> SquareSet
        ensures { (men : Men) → IsSets self.now men → (k : ℕ) → k < 64
            → contains result k ≡ is_of colour (man_at men k) }
    {
        match colour {
            Colour::White => self.white.all,
            Colour::Black => self.black.all,
        }
    }

    /// The squares that are not empty: those of the pieces of both colours.
    #[tactic(auto, using(crate::proofs::Standing::occupied_by))]
    pub fn occupied(&self) -> SquareSet
        ensures { (men : Men) → IsSets self.now men → IsOccupied result men }
    {
        self.white.all.union(self.black.all)
    }

    // Removes the piece `man` from `square`: from its colour's sets, and its key from the hash `men_hash`. `keys` are
    // the Zobrist keys.
    #[inline(always)]
    fn lift(&mut self, keys: &KeyTable, square: Square, man: Man)
        ensures { (men : Men) → length men ≡ 64 → man_at men square ≡ Some man → IsSets self.old men
            → IsSets self.new (slice_set men square None) }
    {
        self.men_hash ^= man_key(keys, man, square);
        match man.colour {
            Colour::White => self.white.lift(man.kind, square),
            Colour::Black => self.black.lift(man.kind, square),
        }
    }

    // Adds the piece `man` on `square`, which is empty: to its colour's sets, and its Zobrist key (one of `keys`) to
    // the hash `men_hash`.
    #[inline(always)]
    fn put(&mut self, keys: &KeyTable, square: Square, man: Man)
        ensures { (men : Men) → length men ≡ 64 → man_at men square ≡ None → IsSets self.old men
            → IsSets self.new (slice_set men square (Some man)) }
    {
        self.men_hash ^= man_key(keys, man, square);
        match man.colour {
            Colour::White => self.white.put(man.kind, square),
            Colour::Black => self.black.put(man.kind, square),
        }
    }

    /// Moves the piece `man` from one square to another, which is empty: a captured piece has been cleared away before.
    /// `keys` are the Zobrist keys, with which the hash `men_hash` is kept up to date.
    #[inline(always)]
    pub fn shift(&mut self, keys: &KeyTable, man: Man, from: Square, to: Square)
        ensures { (men : Men) → length men ≡ 64 → man_at men from ≡ Some man → man_at men to ≡ None
            → IsSets self.old men → IsSets self.new (slice_set (slice_set men from None) to (Some man)) }
    {
        // The old key is taken out before the sets change, and the new one is put in after that, once for each colour.
        // With both in one place, the compiler made a branch on the piece's kind.
        self.men_hash ^= man_key(keys, man, from);
        match man.colour {
            Colour::White => {
                self.white.shift(man.kind, from, to);
                self.men_hash ^= man_key(keys, man, to);
            }
            Colour::Black => {
                self.black.shift(man.kind, from, to);
                self.men_hash ^= man_key(keys, man, to);
            }
        }
    }

    /// Empties `square`. Its content is `old`, a piece or nothing (`None`). `keys` are the Zobrist keys, with which the
    /// hash `men_hash` is kept up to date.
    #[inline(always)]
    pub fn clear(&mut self, keys: &KeyTable, square: Square, old: Option<Man>)
        ensures { (men : Men) → length men ≡ 64 → man_at men square ≡ old → IsSets self.old men
            → IsSets self.new (slice_set men square None) }
    {
        if let Some(man) = old {
            self.lift(keys, square, man);
        }
    }

    /// Puts `new`, a piece or nothing (`None`), on `square`, which is empty. `keys` are the Zobrist keys, with which
    /// the hash `men_hash` is kept up to date.
    #[inline(always)]
    pub fn fill(&mut self, keys: &KeyTable, square: Square, new: Option<Man>)
        ensures { (men : Men) → length men ≡ 64 → man_at men square ≡ None → IsSets self.old men
            → IsSets self.new (slice_set men square new) }
    {
        if let Some(man) = new {
            self.put(keys, square, man);
        }
    }

    /// Replaces `old`, the content of `square`, by `new`; each is a piece or nothing (`None`). `keys` are the Zobrist
    /// keys, with which the hash `men_hash` is kept up to date.
    #[inline(always)]
    pub fn write(&mut self, keys: &KeyTable, square: Square, old: Option<Man>, new: Option<Man>)
        ensures { (men : Men) → length men ≡ 64 → man_at men square ≡ old → IsSets self.old men
            → IsSets self.new (slice_set men square new) }
    {
        // The prover wants this fact: the square's number is below 64.
        let _bound = square.number();
        self.clear(keys, square, old);
        self.fill(keys, square, new);
    }
}
