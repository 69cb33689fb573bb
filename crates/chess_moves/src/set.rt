//! Sets of squares.

ghost use Rattle.std.specs.Prelude.{◌≡◌, ℕ, ◌<◌, ◌+◌, ◌-◌, ◌&&◌, ◌||◌, not, ◌==◌, nat_le, true, false, MatchOption, [], ◌∷◌, length};
ghost use Rattle.chess_base.specs.Squares.{file, rank, some_square};
ghost use Rattle.chess_moves.specs.Sets.{contains, IsNearest, members};

use chess_base::Square;
use std::marker::Model;

// The squares of the a-file, as bits.
const FILE_A: u64 = 0x0101_0101_0101_0101;

// The squares of rank 1, as bits.
const RANK_1: u64 = 0xFF;

/// A set of squares: a bitboard. In contracts it is the number in which the bit of each of its squares is 1, a1's the
/// lowest.
///
/// ```
/// for square in board.men_of(Colour::White, Kind::Knight) | board.men_of(Colour::White, Kind::Bishop) {
///     println!(rt; "a minor piece on {square}")?;
/// }
/// ```
#[derive(Clone, Copy, PartialEq, Eq)]
pub struct SquareSet {
    word: u64,
}

impl Model for SquareSet {
    ghost use Rattle.std.specs.Prelude.{ℕ};

    ghost Value = { ℕ };

    ghost view = { λ s. s.word };

    ghost inverse = { λ w. record { word = w } };
}

impl SquareSet {
    /// The set without any square.
    #[tactic(auto, using(crate::proofs::shared::Members::has_zero))]
    pub const fn empty() -> Self
        ensures { (k : ℕ) → contains result k ≡ false }
    {
        SquareSet { word: 0 }
    }

    /// The set of all 64 squares.
    #[tactic(auto, using(crate::proofs::SetBits::has_all))]
    pub const fn full() -> Self
        ensures { (k : ℕ) → k < 64 → contains result k ≡ true }
    {
        SquareSet { word: u64::MAX }
    }

    /// The set that has this square alone.
    #[tactic(auto, using(crate::proofs::SetBits::has_single))]
    pub fn single(square: Square) -> Self
        ensures value { (k : ℕ) → contains result k ≡ (k == square) }
        ensures in_range { square < 64 }
    {
        SquareSet {
            word: 1 << square.number(),
        }
    }

    /// The eight squares of a file, 0 for a to 7 for h.
    #[tactic(auto, using(crate::proofs::Shifted::on_file))]
    pub fn of_file(number: u8) -> Self
        requires { number < 8 }
        ensures { (k : ℕ) → k < 64 → contains result k ≡ (file k == number) }
    {
        SquareSet { word: FILE_A }.raised(number)
    }

    /// The eight squares of a rank, 0 for rank 1 to 7 for rank 8.
    #[tactic(auto, using(crate::proofs::Shifted::on_rank))]
    pub fn of_rank(number: u8) -> Self
        requires { number < 8 }
        ensures { (k : ℕ) → k < 64 → contains result k ≡ (rank k == number) }
    {
        SquareSet { word: RANK_1 }.raised(8 * number)
    }

    /// Whether the square is in the set.
    #[tactic(auto, using(crate::proofs::SetBits::has_shr))]
    pub fn contains(self, square: Square) -> bool
        ensures { result ≡ contains self square }
    {
        (self.word >> square.number()) & 1 == 1
    }

    /// Whether no square is in the set.
    #[tactic(auto, using(crate::proofs::SetBits::empty_is))]
    pub fn is_empty(self) -> bool
        ensures zero { result ≡ (self == 0) }
        ensures none { result ≡ not (some_square (λ k. contains self k)) }
    {
        self.word == 0
    }

    /// How many squares are in the set.
    #[tactic(auto, using(crate::proofs::Counting::members_counted))]
    pub fn len(self) -> usize
        ensures { result ≡ length (members self) }
    {
        self.word.count_ones() as usize
    }

    /// The squares that are in either set.
    #[tactic(auto, using(crate::proofs::SetBits::has_or))]
    pub fn union(self, other: Self) -> Self
        ensures { (k : ℕ) → contains result k ≡ (contains self k || contains other k) }
    {
        SquareSet {
            word: self.word | other.word,
        }
    }

    /// The squares that are in both sets.
    #[tactic(auto, using(crate::proofs::SetBits::has_and))]
    pub fn intersection(self, other: Self) -> Self
        ensures { (k : ℕ) → contains result k ≡ (contains self k && contains other k) }
    {
        SquareSet {
            word: self.word & other.word,
        }
    }

    /// The squares of this set that are not in the other.
    #[tactic(auto, using(crate::proofs::SetBits::has_minus))]
    pub fn without(self, other: Self) -> Self
        ensures { (k : ℕ) → k < 64 → contains result k ≡ (contains self k && not (contains other k)) }
    {
        SquareSet {
            word: self.word & !other.word,
        }
    }

    /// The set with `by` subtracted from each square's number: 8 moves all squares one rank down. Squares that would
    /// fall below 0 drop out.
    #[tactic(auto, using(crate::proofs::Shifted::has_lowered))]
    pub fn lowered(self, by: u8) -> Self
        requires { by < 64 }
        ensures { (k : ℕ) → contains result k ≡ contains self (k + by) }
    {
        SquareSet {
            word: self.word >> by,
        }
    }

    /// The set with `by` added to each square's number: 8 moves all squares one rank up. Squares that would go above 63
    /// drop out.
    #[tactic(auto, using(crate::proofs::Shifted::has_raised))]
    pub fn raised(self, by: u8) -> Self
        requires { by < 64 }
        ensures { (k : ℕ) → k < 64 → contains result k ≡ (nat_le by k && contains self (k - by)) }
    {
        SquareSet {
            word: self.word << by,
        }
    }

    /// The lowest square of a set that is not empty.
    #[tactic(auto, using(crate::proofs::SetBits::first_of))]
    pub fn first(self) -> Square
        requires { 0 < self }
        ensures nearest { IsNearest true self result }
        ensures in_range { result < 64 }
    {
        Square::new(self.word.trailing_zeros() as u8)
    }

    /// The highest square of a set that is not empty.
    #[tactic(auto, using(crate::proofs::SetBits::last_of))]
    pub fn last(self) -> Square
        requires { 0 < self }
        ensures nearest { IsNearest false self result }
        ensures in_range { result < 64 }
    {
        Square::new((63 - self.word.leading_zeros()) as u8)
    }

    /// Takes the lowest square out of the set and returns it; `None` if the set is empty.
    #[tactic(auto, using(crate::proofs::shared::Members::members_none, crate::proofs::shared::Members::members_first))]
    pub fn take_first(&mut self) -> Option<Square>
        ensures { MatchOption result ((members self.old ≡ []) × (self.new ≡ self.old))
            (λ s. members self.old ≡ s ∷ members self.new) }
    {
        let set = *self;
        if set.is_empty() {
            return None;
        }
        let first = set.first();
        *self = set.without(SquareSet::single(first));
        Some(first)
    }
}
