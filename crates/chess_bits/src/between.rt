//! The squares between two squares of one line (rank, file or diagonal), in a table that is made from the rays.

ghost use Rattle.std.specs.Prelude.{◌≡◌, ℕ, ◌<◌, ◌≤◌, ◌+◌, ◌*◌, ◌&&◌, true, false, length, slice_index};
ghost use Rattle.chess_base.specs.Squares.{is_between};
ghost use Rattle.chess_moves.specs.Sets.{contains};
ghost use Rattle.chess_base.specs.declared.line.Line.{Line as LineKind};
ghost use Rattle.chess_base.specs.shared.Lines.{same_line};
ghost use Rattle.chess_bits.specs.ties.Rays.{is_on_ray};

use crate::table::Shape;
use crate::tables::Tables;
use chess_base::Square;
use chess_base::rules::Line;
use chess_moves::SquareSet;
use std::alloc::{AllocError, Global};

/// The squares strictly between each two squares of one line (rank, file or diagonal): for c1 and f4 these are d2 and
/// e3. The set for the squares with the numbers a and b is at index 64 a + b. `Kinds::attackers` looks it up for each
/// queen, rook or bishop that would attack the square in question on an empty board. When it was computed from the rays
/// each time, the workload boards took 11 % longer.
#[derive(Drop)]
pub struct BetweenTable {
    sets: Vec<SquareSet>,
    ghost long: { length sets.items ≡ 4096 },
    ghost of_pairs: { (l : LineKind) → (a b k : ℕ) → a < 64 → b < 64 → same_line l a b ≡ true → k < 64
        → contains (slice_index sets.items (64 * a + b)) k ≡ is_between a b k },
}

// The squares strictly between `low` and `high` (the one with the greater number), if both are on one line of this
// kind, say on one rank; otherwise none. Each of them is on two rays: from `low` to greater numbers, and from `high` to
// smaller ones.
#[inline(always)]
#[tactic(auto, unfolding(crate::specs::ties::Shapes::in_shape))]
fn inside(tables: &Tables, line: Line, low: Square, high: Square) -> SquareSet
    ensures { (k : ℕ) → k < 64 → contains result k ≡ (is_on_ray line true low k && is_on_ray line false high k) }
{
    let above = tables.table(Shape::Ray(line, true)).at(low);
    let below = tables.table(Shape::Ray(line, false)).at(high);
    above.intersection(below)
}

// The squares strictly between `low` and `high`, two squares of one line, where the number of `high` is the greater one
// (or they are equal). The kind of the line need not be known: two squares have at most one line in common, so at most
// one of the four sets below is not empty.
#[inline(always)]
#[tactic(auto, using(crate::proofs::BetweenSquares::on_some_line))]
fn rising_between(tables: &Tables, low: Square, high: Square) -> SquareSet
    requires { low ≤ high }
    ensures { (l : LineKind) → same_line l low high ≡ true → (k : ℕ) → k < 64
        → contains result k ≡ is_between low high k }
{
    let ranks = inside(tables, Line::Rank, low, high);
    let files = inside(tables, Line::File, low, high);
    let diagonals = inside(tables, Line::Diagonal, low, high);
    let antidiagonals = inside(tables, Line::Antidiagonal, low, high);
    ranks.union(files).union(diagonals.union(antidiagonals))
}

// The squares strictly between two squares of one line, in either order, computed from the rays. The result is an entry
// of the table.
fn between_by_rays(tables: &Tables, a: Square, b: Square) -> SquareSet
    ensures { (l : LineKind) → same_line l a b ≡ true → (k : ℕ) → k < 64 → contains result k ≡ is_between a b k }
{
    if a.number() < b.number() {
        return rising_between(tables, a, b);
    }
    rising_between(tables, b, a)
}

impl BetweenTable {
    /// Computes the table from the rays, which are in `tables`; its memory comes from `alloc`. The loop's `number` is
    /// the index of an entry, 64 a + b.
    ///
    /// # Errors
    /// If there is no memory for it.
    pub(crate) fn open(alloc: Global, tables: &Tables) -> Result<Self, AllocError> {
        let mut sets = vec![in alloc; SquareSet::empty(); 4096]?;
        for number in 0..4096_usize {
            let a = Square::new((number / 64) as u8);
            let b = Square::new((number % 64) as u8);
            sets[number] = between_by_rays(tables, a, b);
        }
        Ok(BetweenTable { sets })
    }

    /// The squares strictly between two squares of one line, looked up. About two squares of no common line it promises
    /// nothing.
    #[inline(always)]
    pub(crate) fn at(&self, a: Square, b: Square) -> SquareSet
        ensures { (l : LineKind) → same_line l a b ≡ true → (k : ℕ) → k < 64 → contains result k ≡ is_between a b k }
    {
        self.sets[64 * a.index() + b.index()]
    }
}
