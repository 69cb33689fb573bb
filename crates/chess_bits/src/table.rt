//! Tables of sets of squares, with one set for each square: the squares that a piece there attacks on an empty board,
//! or a ray from there.

ghost use Rattle.std.specs.Prelude.{◌≡◌, ℕ, ◌<◌};
ghost use Rattle.chess_moves.specs.Sets.{contains};
ghost use Rattle.chess_bits.specs.ties.Shapes.{in_shape};

use crate::ray::is_on_ray;
use chess_base::rules::Line;
use chess_base::{Colour, Square};
use chess_moves::SquareSet;
use std::marker::Model;

/// Which table of sets of squares is meant: the squares that a piece attacks on an empty board (rooks: `Lines`,
/// bishops: `Diagonals`), or the squares of a ray. The `bool` of a ray is true for the squares with greater numbers
/// than its start, false for the ones with smaller numbers.
#[derive(Clone, Copy, PartialEq, Eq)]
pub enum Shape {
    King,
    Knight,
    Pawn(Colour),
    /// The other squares of a square's rank and file.
    Lines,
    /// The other squares of a square's diagonals.
    Diagonals,
    Ray(Line, bool),
}

// Whether square b belongs to the shape from square a: for `Knight`, whether a knight on a attacks b; for `Lines`,
// whether b is another square of a's rank or file. The tables are computed from this test. chess_base's `could_capture`
// tests kings, knights and pawns in the same way, but is private there, and asks for the pieces of a board.
#[tactic(auto, unfolding(crate::specs::ties::Shapes::in_shape))]
fn in_shape(shape: Shape, a: Square, b: Square) -> bool
    ensures { result ≡ in_shape shape a b }
{
    let files = a.file().abs_diff(b.file());
    let ranks = a.rank().abs_diff(b.rank());
    match shape {
        Shape::King => a != b && files <= 1 && ranks <= 1,
        Shape::Knight => files == 1 && ranks == 2 || files == 2 && ranks == 1,
        Shape::Pawn(Colour::White) => files == 1 && b.rank() == a.rank() + 1,
        Shape::Pawn(Colour::Black) => files == 1 && a.rank() == b.rank() + 1,
        Shape::Lines => b != a && (b.file() == a.file() || b.rank() == a.rank()),
        Shape::Diagonals => b != a && b.file().abs_diff(a.file()) == b.rank().abs_diff(a.rank()),
        Shape::Ray(line, up) => is_on_ray(line, up, a, b),
    }
}

// The squares that belong to the shape from square a: for `Knight`, the ones that a knight on a attacks. This computes
// one entry of a table. `filter` of all squares would give the same, but with a call of its test for each.
fn squares_of(shape: Shape, a: Square) -> SquareSet
    ensures { (k : ℕ) → k < 64 → contains result k ≡ in_shape shape a k }
{
    let mut set = SquareSet::empty();
    for number in 0..64 {
        let b = Square::new(number);
        if in_shape(shape, a, b) {
            set = set.union(SquareSet::single(b));
        }
    }
    set
}

/// A table of one shape: for each square, the set of squares that belong to the shape from there. In contracts its
/// value is that shape.
#[derive(Drop)]
pub struct Table {
    shape: Shape,
    sets: [SquareSet; 64],
}

impl Model for Table {
    ghost use Rattle.std.specs.Prelude.{◌≡◌, ℕ, ◌<◌, slice_index};
    ghost use Rattle.chess_bits.specs.declared.table.Shape.{Shape};

    ghost Value = { Shape };

    ghost use Rattle.chess_moves.specs.Sets.{contains};
    ghost use Rattle.chess_bits.specs.ties.Shapes.{in_shape};

    ghost view = { λ t. t.shape };

    ghost invariant = { λ t. (a k : ℕ) → a < 64 → k < 64 → contains (slice_index t.sets a) k ≡ in_shape t.shape a k };
}

impl Table {
    /// Computes the table of this shape: for each square, the squares that belong to the shape from there.
    pub fn new(shape: Shape) -> Self
        ensures { result ≡ shape }
    {
        let mut sets = [SquareSet::empty(); 64];
        for number in 0..64 {
            let a = Square::new(number);
            sets[a.index()] = squares_of(shape, a);
        }
        Table { shape, sets }
    }

    /// The squares that belong to the table's shape from `square`, looked up: for `Knight`, the ones that a knight
    /// there attacks.
    pub fn at(&self, square: Square) -> SquareSet
        ensures { (k : ℕ) → k < 64 → contains result k ≡ in_shape self.now square k }
    {
        self.sets[square.index()]
    }
}
