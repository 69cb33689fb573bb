//! The rays of the board: the squares of a line through a square, above that square in number or below it.

ghost use Rattle.std.specs.Prelude.{◌≡◌};
ghost use Rattle.chess_base.specs.shared.Lines.{line_number};
ghost use Rattle.chess_bits.specs.ties.Rays.{is_on_ray};

use chess_base::Square;
use chess_base::rules::Line;

// The number of the line of this kind through a square: its rank or its file (0 to 7), its diagonal or its antidiagonal
// (0 to 14). Two squares are on one line of this kind exactly if their numbers are equal: a1 and h8 are both on
// diagonal 7. chess_base's `shared_line`, private there, answers another question: of which kind the line through two
// squares is.
fn line_number(line: Line, square: Square) -> u8
    ensures { result ≡ line_number line square }
{
    match line {
        Line::Rank => square.rank(),
        Line::File => square.file(),
        Line::Diagonal => square.rank() + 7 - square.file(),
        Line::Antidiagonal => square.rank() + square.file(),
    }
}

/// Whether square x is on the ray from square a along its line of this kind: towards greater numbers if `up`, otherwise
/// towards smaller ones (a1 is 0, b1 is 1, h8 is 63). From d4 up the rank these are e4 to h4, and up the file d5 to d8.
/// The tables of rays are computed from this test.
pub(crate) fn is_on_ray(line: Line, up: bool, a: Square, x: Square) -> bool
    ensures { result ≡ is_on_ray line up a x }
{
    line_number(line, a) == line_number(line, x)
        && if up {
            a.number() < x.number()
        } else {
            x.number() < a.number()
        }
}
