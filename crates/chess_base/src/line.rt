//! The lines of the board, and whether the squares between two squares of a line are empty.

ghost use Rattle.std.specs.Prelude.{◌≡◌, ℕ, true, ◌<◌, ◌≤◌, ◌||◌, IsTrue};
ghost use Rattle.chess_base.specs.Squares.{share_rank_or_file, share_diagonal};
ghost use Rattle.chess_base.specs.Attacks.{is_clear};
ghost use Rattle.chess_base.specs.shared.Lines.{same_line};
ghost use Rattle.chess_base.specs.ties.Lines.{step_of};

use crate::man::Man;
use crate::square::Square;

/// The four kinds of lines on the board. A diagonal goes up to the right, as a1 to h8, an antidiagonal up to the left,
/// as h1 to a8.
#[derive(Clone, Copy, Debug, PartialEq, Eq)]
pub enum Line {
    Rank,
    File,
    Diagonal,
    Antidiagonal,
}

// How much the number rises from a square of such a line to the next one: by 8 on a file, as from a1 (0) to a2 (8).
pub(crate) fn step_of(line: Line) -> u8
    ensures value { result ≡ step_of line }
    ensures in_range { result ≤ 9 }
{
    match line {
        Line::Rank => 1,
        Line::File => 8,
        Line::Diagonal => 9,
        Line::Antidiagonal => 7,
    }
}

// The kind of the line on which both squares are.
pub(crate) fn shared_line(a: Square, b: Square) -> Line
    requires { IsTrue (share_rank_or_file a b || share_diagonal a b) }
    ensures { IsTrue (same_line result a b) }
{
    if a.rank() == b.rank() {
        Line::Rank
    } else if a.file() == b.file() {
        Line::File
    } else if a.rank() + b.file() == b.rank() + a.file() {
        Line::Diagonal
    } else {
        Line::Antidiagonal
    }
}

// The number of the line's last square upwards from `a`, which may be `a` itself: from `c3` that is `c8` (58) on its
// file, `h8` (63) on its diagonal.
pub(crate) fn last_above(line: Line, a: Square) -> u8
    ensures in_range { result < 64 }
    ensures not_below { a ≤ result }
    ensures on_line { IsTrue (same_line line a result) }
    ensures last { (k : ℕ) → k < 64 → same_line line a k ≡ true → k ≤ result }
{
    match line {
        Line::Rank => a.number() + (7 - a.file()),
        Line::File => a.number() + 8 * (7 - a.rank()),
        Line::Diagonal => a.number() + 9 * (7 - a.file()).min(7 - a.rank()),
        Line::Antidiagonal => a.number() + 7 * a.file().min(7 - a.rank()),
    }
}

// The number of the line's last square downwards from `a`, which may be `a` itself: from `c3` that is `c1` (2) on its
// file, `a1` (0) on its diagonal.
pub(crate) fn last_below(line: Line, a: Square) -> u8
    ensures not_above { result ≤ a }
    ensures on_line { IsTrue (same_line line a result) }
    ensures last { (k : ℕ) → k < 64 → same_line line a k ≡ true → result ≤ k }
{
    match line {
        Line::Rank => a.number() - a.file(),
        Line::File => a.number() - 8 * a.rank(),
        Line::Diagonal => a.number() - 9 * a.file().min(a.rank()),
        Line::Antidiagonal => a.number() - 7 * (7 - a.file()).min(a.rank()),
    }
}

// Whether each square strictly between `low` and `high` is empty; both are on one line of this kind, `low` with the
// smaller number.
pub(crate) fn is_clear_above(men: &[Option<Man>; 64], line: Line, low: Square, high: Square) -> bool
    requires rising { low < high }
    requires on_line { IsTrue (same_line line low high) }
    ensures { result ≡ is_clear men.now low high }
{
    let step = step_of(line);
    let end = high.number();
    let mut number = low.number() + step;
    while number < end {
        if men[number as usize].is_some() {
            return false;
        }
        number += step;
    }
    true
}
