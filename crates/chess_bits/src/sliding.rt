//! How far a rook or a bishop sees along its lines; and which pieces of a set see a square along its lines.
//!
//! Rooks' and bishops' lines have a function each, so that the compiler knows the tables of each call. With the kind of
//! the lines as an argument, each call would choose the table by a branch, or would have to be inlined, with its loop,
//! wherever attackers are looked for.

ghost use Rattle.std.specs.Prelude.{◌≡◌, ℕ, ◌<◌, ◌&&◌, ◌||◌, not, true, ◌==◌};
ghost use Rattle.chess_base.specs.Squares.{share_rank_or_file, share_diagonal};
ghost use Rattle.chess_base.specs.shared.Lines.{same_line};
ghost use Rattle.chess_moves.specs.Sets.{contains};
ghost use Rattle.chess_bits.specs.ties.Rays.{is_open};

use crate::squares::filter;
use crate::table::Shape;
use crate::tables::AttackTables;
use chess_base::Square;
use chess_base::rules::Line;
use chess_moves::SquareSet;

// The squares that are seen from `square` along its line of this kind: in both directions up to the first occupied
// square, which is included.
#[inline(always)]
#[tactic(auto, using(crate::proofs::Attackers::both_rays))]
fn along(tables: &AttackTables, line: Line, square: Square, occupied: SquareSet) -> SquareSet
    ensures { (k : ℕ) → k < 64
        → contains result k ≡ (not (k == square) && same_line line k square && is_open occupied square k) }
{
    let rising = tables.sweep(line, true, square, occupied);
    let falling = tables.sweep(line, false, square, occupied);
    rising.union(falling)
}

// The squares that a rook on `square` attacks. Each direction ends with the first occupied square, which is included
// whatever is on it.
#[tactic(auto, using(crate::proofs::Attackers::on_lines))]
pub(crate) fn along_lines(tables: &AttackTables, square: Square, occupied: SquareSet) -> SquareSet
    ensures { (k : ℕ) → k < 64
        → contains result k ≡ (not (k == square) && share_rank_or_file k square && is_open occupied square k) }
{
    let rank = along(tables, Line::Rank, square, occupied);
    rank.union(along(tables, Line::File, square, occupied))
}

// The squares that a bishop on `square` attacks. Each direction ends with the first occupied square, which is included
// whatever is on it.
#[tactic(auto, using(crate::proofs::Attackers::on_diagonals))]
pub(crate) fn along_diagonals(
    tables: &AttackTables,
    square: Square,
    occupied: SquareSet,
) -> SquareSet
    ensures { (k : ℕ) → k < 64
        → contains result k ≡ (not (k == square) && share_diagonal k square && is_open occupied square k) }
{
    let diagonal = along(tables, Line::Diagonal, square, occupied);
    diagonal.union(along(tables, Line::Antidiagonal, square, occupied))
}

// Whether no occupied square is strictly between a and b, two squares of one rank, file or diagonal.
#[inline(always)]
fn is_open(tables: &AttackTables, a: Square, b: Square, occupied: SquareSet) -> bool
    requires { (share_rank_or_file b a || share_diagonal b a) ≡ true }
    ensures { result ≡ is_open occupied a b }
{
    // The prover wants these facts: the numbers of both squares are below 64.
    let _a = a.number();
    let _b = b.number();
    let between = tables.between(a, b);
    between.intersection(occupied).is_empty()
}

// The squares of the set `men` with no occupied square between them and `square`. The callers give only squares on
// ranks and files of `square`, or only squares on its diagonals.
#[inline(always)]
fn seen_from(
    tables: &AttackTables,
    square: Square,
    occupied: SquareSet,
    men: SquareSet,
) -> SquareSet
    requires { (k : ℕ) → k < 64 → contains men k ≡ true
        → (share_rank_or_file k square || share_diagonal k square) ≡ true }
    ensures { (k : ℕ) → k < 64 → contains result k ≡ (contains men k && is_open occupied square k) }
{
    filter(men, |man| is_open(tables, square, man, occupied))
}

// The squares of the set `men` from which a rook would attack `square`: the ones on its rank or file with no occupied
// square between. Each of them is looked at by itself: in most positions there are few, and never more than 14. With
// four sweeps from `square` instead, the workload boards took 7 % longer.
#[tactic(auto, unfolding(crate::specs::ties::Shapes::in_shape))]
pub(crate) fn met_on_lines(
    tables: &AttackTables,
    square: Square,
    occupied: SquareSet,
    men: SquareSet,
) -> SquareSet
    ensures { (k : ℕ) → k < 64
        → contains result k ≡ ((not (k == square) && share_rank_or_file k square && is_open occupied square k)
        && contains men k) }
{
    let near = tables.at(Shape::Lines, square).intersection(men);
    seen_from(tables, square, occupied, near)
}

// The squares of the set `men` from which a bishop would attack `square`: the ones on its diagonals with no occupied
// square between. Each of them is looked at by itself, as in `met_on_lines`: in most positions there are few, and never
// more than 13.
#[tactic(auto, unfolding(crate::specs::ties::Shapes::in_shape))]
pub(crate) fn met_on_diagonals(
    tables: &AttackTables,
    square: Square,
    occupied: SquareSet,
    men: SquareSet,
) -> SquareSet
    ensures { (k : ℕ) → k < 64
        → contains result k
        ≡ ((not (k == square) && share_diagonal k square && is_open occupied square k) && contains men k) }
{
    let near = tables.at(Shape::Diagonals, square).intersection(men);
    seen_from(tables, square, occupied, near)
}
