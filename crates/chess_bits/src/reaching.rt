//! The squares that a piece attacks, and the pieces of a set that attack a square.

ghost use Rattle.std.specs.Prelude.{◌≡◌, ℕ, ◌<◌, ◌&&◌, ◌||◌, false};
ghost use Rattle.chess_base.specs.Attacks.{could_capture};
ghost use Rattle.chess_base.specs.Men.{Men, same_kind};
ghost use Rattle.chess_base.specs.declared.man.Colour.{Colour as Side};
ghost use Rattle.chess_base.specs.declared.man.Kind.TheVariants.{King, Pawn};
ghost use Rattle.chess_bits.specs.ties.Occupancy.{IsOccupied};
ghost use Rattle.chess_moves.specs.Sets.{contains};

use crate::sliding::{along_diagonals, along_lines, met_on_diagonals, met_on_lines};
use crate::table::Shape;
use crate::tables::AttackTables;
use chess_base::{Colour, Kind, Square};
use chess_moves::SquareSet;

/// The squares that a piece of this colour and kind attacks from `from`, whatever is on them (own pieces too).
/// `occupied` are the occupied squares of the board, which end a queen's, rook's or bishop's lines. The colour matters
/// only for pawns.
#[inline(always)]
#[tactic(auto, using(crate::proofs::Reached::king_from, crate::proofs::Reached::queen_from, crate::proofs::Reached::rook_from, crate::proofs::Reached::bishop_from, crate::proofs::Reached::knight_from, crate::proofs::Reached::pawn_from))]
pub fn reached_from(
    tables: &AttackTables,
    occupied: SquareSet,
    colour: Colour,
    kind: Kind,
    from: Square,
) -> SquareSet
    ensures { (men : Men) → IsOccupied occupied men → (k : ℕ) → k < 64
        → contains result k ≡ could_capture men colour kind from k }
{
    match kind {
        Kind::King => tables.at(Shape::King, from),
        Kind::Queen => along_lines(tables, from, occupied).union(along_diagonals(
            tables, from, occupied,
        )),
        Kind::Rook => along_lines(tables, from, occupied),
        Kind::Bishop => along_diagonals(tables, from, occupied),
        Kind::Knight => tables.at(Shape::Knight, from),
        Kind::Pawn => tables.at(Shape::Pawn(colour), from),
    }
}

/// The squares of the set `men` from which a piece of this kind (queen, rook, bishop or knight) would attack `square`.
/// A caller gives the squares of its own pieces of that kind, to find which of them can go to `square`, as for the SAN
/// move Nf3. `occupied` are the occupied squares of the board. Squares of `men` on lines of `square` are looked at one
/// by one: where they are few, that costs less than the sweeps of `reached_from`.
#[inline(always)]
#[tactic(auto, using(crate::proofs::Reached::queen_met, crate::proofs::Reached::rook_from, crate::proofs::Reached::bishop_from, crate::proofs::Reached::knight_from))]
pub fn reached_among(
    tables: &AttackTables,
    occupied: SquareSet,
    kind: Kind,
    square: Square,
    men: SquareSet,
) -> SquareSet
    requires { (same_kind King kind || same_kind Pawn kind) ≡ false }
    ensures { (board : Men) (c : Side) → IsOccupied occupied board → (k : ℕ) → k < 64
        → contains result k ≡ (could_capture board c kind square k && contains men k) }
{
    match kind {
        Kind::Queen => {
            let straight = met_on_lines(tables, square, occupied, men);
            straight.union(met_on_diagonals(tables, square, occupied, men))
        }
        Kind::Rook => met_on_lines(tables, square, occupied, men),
        Kind::Bishop => met_on_diagonals(tables, square, occupied, men),
        Kind::Knight => tables.at(Shape::Knight, square).intersection(men),
        // No caller asks for these.
        Kind::King | Kind::Pawn => unreachable!(),
    }
}
