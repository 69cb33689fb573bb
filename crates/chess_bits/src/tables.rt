//! All tables together; and sweeps, the squares of a ray up to its first occupied square, which is included.

ghost use Rattle.std.specs.Prelude.{◌≡◌, ℕ, ◌<◌, ◌&&◌, true, false};
ghost use Rattle.chess_moves.specs.Sets.{contains, is_beyond};
ghost use Rattle.chess_bits.specs.ties.Shapes.{in_shape};
ghost use Rattle.chess_base.specs.shared.Lines.{same_line};
ghost use Rattle.chess_bits.specs.ties.Rays.{is_on_ray, is_open};
ghost use Rattle.chess_base.specs.declared.line.Line.{Line as LineKind};
ghost use Rattle.chess_bits.specs.declared.table.Shape.TheVariants.{King, Knight, Pawn, Lines, Diagonals, Ray};
ghost use Rattle.chess_base.specs.declared.line.Line.TheVariants.{Rank, File, Diagonal, Antidiagonal};
ghost use Rattle.chess_base.specs.declared.man.Colour.TheVariants.{White, Black};
ghost use Rattle.chess_base.specs.Squares.{is_between};

use crate::between::BetweenTable;
use crate::keys::KeyTable;
use crate::table::{Shape, Table};
use chess_base::rules::Line;
use chess_base::{Colour, Square};
use chess_moves::SquareSet;
use std::alloc::{AllocError, Global};

// One table for each shape, and the Zobrist keys of position hashes. The ghost fields state which table has which
// shape.
#[derive(Drop)]
pub(crate) struct Tables {
    king: Table,
    knight: Table,
    white_pawn: Table,
    black_pawn: Table,
    lines: Table,
    diagonals: Table,
    rank_up: Table,
    rank_down: Table,
    file_up: Table,
    file_down: Table,
    diagonal_up: Table,
    diagonal_down: Table,
    antidiagonal_up: Table,
    antidiagonal_down: Table,
    keys: KeyTable,
    ghost of_king: { king ≡ King },
    ghost of_knight: { knight ≡ Knight },
    ghost of_white_pawn: { white_pawn ≡ Pawn White },
    ghost of_black_pawn: { black_pawn ≡ Pawn Black },
    ghost of_lines: { lines ≡ Lines },
    ghost of_diagonals: { diagonals ≡ Diagonals },
    ghost of_rank_up: { rank_up ≡ Ray Rank true },
    ghost of_rank_down: { rank_down ≡ Ray Rank false },
    ghost of_file_up: { file_up ≡ Ray File true },
    ghost of_file_down: { file_down ≡ Ray File false },
    ghost of_diagonal_up: { diagonal_up ≡ Ray Diagonal true },
    ghost of_diagonal_down: { diagonal_down ≡ Ray Diagonal false },
    ghost of_antidiagonal_up: { antidiagonal_up ≡ Ray Antidiagonal true },
    ghost of_antidiagonal_down: { antidiagonal_down ≡ Ray Antidiagonal false },
}

impl Tables {
    // The table of this shape, with an entry for each square: for `Knight`, the squares that a knight there attacks;
    // for a ray, its squares from there to the edge, the start left out.
    pub(crate) fn table(&self, shape: Shape) -> &Table
        ensures { result.now ≡ shape }
    {
        match shape {
            Shape::King => &self.king,
            Shape::Knight => &self.knight,
            Shape::Pawn(Colour::White) => &self.white_pawn,
            Shape::Pawn(Colour::Black) => &self.black_pawn,
            Shape::Lines => &self.lines,
            Shape::Diagonals => &self.diagonals,
            Shape::Ray(Line::Rank, true) => &self.rank_up,
            Shape::Ray(Line::Rank, false) => &self.rank_down,
            Shape::Ray(Line::File, true) => &self.file_up,
            Shape::Ray(Line::File, false) => &self.file_down,
            Shape::Ray(Line::Diagonal, true) => &self.diagonal_up,
            Shape::Ray(Line::Diagonal, false) => &self.diagonal_down,
            Shape::Ray(Line::Antidiagonal, true) => &self.antidiagonal_up,
            Shape::Ray(Line::Antidiagonal, false) => &self.antidiagonal_down,
        }
    }
}

/// The tables of attacks on an empty board and of rays (fourteen times 64 sets of squares) and the keys of position
/// hashes, in a box; and the squares between each two squares (4,096 sets), in a vector. They never change, and are
/// lent to the boards that look them up.
#[derive(Drop)]
pub struct AttackTables {
    tables: Box<Tables>,
    between: BetweenTable,
}

// The first of the squares that a ray meets: the lowest if the ray goes `up`, otherwise the highest. For the empty set
// it is the board's last square in that direction, h8 or a1, from which no ray continues. That last square is always
// added to the set, so no branch is needed: it changes the result only for the empty set.
#[inline(always)]
fn nearest(squares: SquareSet, up: bool) -> Square
    ensures in_range { result < 64 }
    ensures nearer { (k : ℕ) → is_beyond up k result ≡ true → contains squares k ≡ false }
    ensures beyond { contains squares result ≡ false → (k : ℕ) → k < 64 → is_beyond up result k ≡ false }
{
    if up {
        squares.union(SquareSet::single(Square::new(63))).first()
    } else {
        squares.union(SquareSet::single(Square::new(0))).last()
    }
}

impl AttackTables {
    /// Computes the tables, in memory that `alloc` gives.
    ///
    /// # Errors
    /// If there is no memory for them.
    pub fn open(alloc: Global) -> Result<Self, AllocError> {
        let tables = Tables {
            king: Table::new(Shape::King),
            knight: Table::new(Shape::Knight),
            white_pawn: Table::new(Shape::Pawn(Colour::White)),
            black_pawn: Table::new(Shape::Pawn(Colour::Black)),
            lines: Table::new(Shape::Lines),
            diagonals: Table::new(Shape::Diagonals),
            rank_up: Table::new(Shape::Ray(Line::Rank, true)),
            rank_down: Table::new(Shape::Ray(Line::Rank, false)),
            file_up: Table::new(Shape::Ray(Line::File, true)),
            file_down: Table::new(Shape::Ray(Line::File, false)),
            diagonal_up: Table::new(Shape::Ray(Line::Diagonal, true)),
            diagonal_down: Table::new(Shape::Ray(Line::Diagonal, false)),
            antidiagonal_up: Table::new(Shape::Ray(Line::Antidiagonal, true)),
            antidiagonal_down: Table::new(Shape::Ray(Line::Antidiagonal, false)),
            keys: KeyTable::new(),
        };
        let tables = Box::new(alloc, tables)?;
        let between = BetweenTable::open(alloc, &tables)?;
        Ok(AttackTables { tables, between })
    }

    // The Zobrist keys, of which position hashes are made.
    #[inline(always)]
    pub(crate) fn keys(&self) -> &KeyTable {
        &self.tables.keys
    }

    // The squares strictly between two squares of one rank, file or diagonal: from c1 and f4 these are d2 and e3. About
    // two squares of no common line it promises nothing.
    #[inline(always)]
    pub(crate) fn between(&self, a: Square, b: Square) -> SquareSet
        ensures { (l : LineKind) → same_line l a b ≡ true → (k : ℕ) → k < 64 → contains result k ≡ is_between a b k }
    {
        self.between.at(a, b)
    }

    // The squares that belong to this shape from `square`, looked up: for `Knight`, the ones that a knight there
    // attacks.
    pub(crate) fn at(&self, shape: Shape, square: Square) -> SquareSet
        ensures { (k : ℕ) → k < 64 → contains result k ≡ in_shape shape square k }
    {
        self.tables.table(shape).at(square)
    }

    /// The squares seen from `from` in one direction: along its line of this kind, with rising numbers if `up`, up to
    /// the first occupied square, which is included, or to the board's edge. They are the whole ray without the ray
    /// that continues from the first occupied square. If no square is occupied, `nearest` gives a corner from which no
    /// ray continues, so no branch is needed.
    #[inline(always)]
    #[tactic(auto, unfolding(crate::specs::ties::Shapes::in_shape))]
    pub(crate) fn sweep(&self, line: Line, up: bool, from: Square, occupied: SquareSet) -> SquareSet
        ensures { (k : ℕ) → k < 64 → contains result k ≡ (is_on_ray line up from k && is_open occupied from k) }
    {
        let ray = self.tables.table(Shape::Ray(line, up));
        let all = ray.at(from);
        let blockers = all.intersection(occupied);
        all.without(ray.at(nearest(blockers, up)))
    }
}
