//! The squares of a set one by one, and its operators.

ghost use Rattle.std.specs.Prelude.{◌≡◌, ℕ, ◌&&◌, ◌||◌, ⊤, length};
ghost use Rattle.std.specs.Iterator.{YieldsFirst, item_count};
ghost use Rattle.std.specs.Iterator.SizeHint.{IsExactHint};
ghost use Rattle.chess_moves.specs.Sets.{contains, members};

use crate::set::SquareSet;
use chess_base::Square;
use std::alloc::AllocError;
use std::fmt;
use std::iter::FusedIterator;
use std::marker::Model;
use std::ops::{BitAnd, BitOr};

/// The squares of a set from the lowest to the highest, as a loop over the set gives them. In contracts it is the list
/// of those that are left.
// The loops of chess_bits, chess_text and chess_game don't use it: they call `SquareSet::take_first`. So the set that
// is left is a variable, and invariants can say which squares are in it, where the iterator is known only as a list.
#[derive(Drop)]
pub struct Squares {
    left: SquareSet,
}

impl Model for Squares {
    ghost use Rattle.std.specs.Prelude.{ℕ, List};
    ghost use Rattle.chess_moves.specs.Sets.{members};

    ghost Value = { List ℕ };

    ghost view = { λ it. members it.left };
}

impl Clone for Squares {
    ghost is_clone = { λ it copy. copy ≡ it };

    ghost is_infallible = { λ _. ⊤ };

    // A copy, with the same squares left.
    fn clone(&self) -> Result<Self, AllocError> {
        Ok(Squares { left: self.left })
    }
}

impl Iterator for Squares {
    type Item = Square;

    ghost next_gives = { YieldsFirst (λ left. left) };

    ghost remaining = { item_count (λ left. left) };

    // The lowest of the squares that are left; `None` if none is.
    fn next(&mut self) -> Option<Square> {
        self.left.take_first()
    }

    // How many squares are left, as lower and as upper bound.
    fn size_hint(&self) -> (usize, Option<usize>)
        ensures exact { IsExactHint result (length self.now) }
    {
        (self.left.len(), Some(self.left.len()))
    }
}

impl ExactSizeIterator for Squares {
    // How many squares are left.
    fn len(&self) -> usize {
        self.left.len()
    }
}

impl FusedIterator for Squares {}

impl fmt::Debug for Squares {
    // Writes the squares that are left.
    fn fmt<W: fmt::Write>(&self, f: &mut fmt::Formatter<W>) -> fmt::Result {
        f.debug_list().entries(self.left).finish()
    }
}

impl IntoIterator for SquareSet {
    type Item = Square;

    type IntoIter = Squares;

    ghost into_iter_gives = { λ set it. it ≡ members set };

    // The squares of the set, rising.
    fn into_iter(self) -> Squares {
        Squares { left: self }
    }
}

impl BitOr for SquareSet {
    type Output = SquareSet;

    ghost bitor_gives = { λ a b r. (k : ℕ) → contains r k ≡ (contains a k || contains b k) };

    // The squares that are in either set.
    fn bitor(self, other: SquareSet) -> SquareSet {
        self.union(other)
    }
}

impl BitAnd for SquareSet {
    type Output = SquareSet;

    ghost bitand_gives = { λ a b r. (k : ℕ) → contains r k ≡ (contains a k && contains b k) };

    // The squares that are in both sets.
    fn bitand(self, other: SquareSet) -> SquareSet {
        self.intersection(other)
    }
}

impl fmt::Debug for SquareSet {
    // Writes the squares of the set, rising.
    fn fmt<W: fmt::Write>(&self, f: &mut fmt::Formatter<W>) -> fmt::Result {
        f.debug_set().entries(*self).finish()
    }
}
