//! The trait of boards, and the type of lists of moves.

ghost use Rattle.std.specs.Prelude.{◌≡◌, ◌<◌, IsTrue, nat_lt, length};
ghost use Rattle.std.specs.List.{All};
ghost use Rattle.chess_base.specs.Attacks.{is_in_check};
ghost use Rattle.chess_base.specs.Before.{before, saved_of};
ghost use Rattle.chess_base.specs.MoveList.{moves};
ghost use Rattle.chess_base.specs.Men.{is_man, man_at};
ghost use Rattle.chess_base.specs.Moves.{after, is_legal};
ghost use Rattle.chess_base.specs.Sound.{IsSound};
ghost use Rattle.chess_moves.specs.Made.{WasMade, IsMade};
ghost use Rattle.chess_moves.specs.Sets.{HasLegalStarts, HasOrigins, contains};

use crate::set::SquareSet;
use arrayvec::ArrayVec;
use chess_base::{Colour, Kind, Move, Position, Saved, Setup, Square};

/// A list of moves. It has room for all legal moves of a position: at most 16 pieces move, and each has at most 56
/// moves.
pub type MoveList = ArrayVec<Move, 896>;

/// A board: one position at a time, always sound, that goes forward by making a move and back by taking it back.
pub trait Board {
    ghost use Rattle.std.specs.Prelude.{ℕ};
    ghost use Rattle.chess_base.specs.declared.man.Colour.{Colour};
    ghost use Rattle.chess_base.specs.declared.man.Rights.{Rights};
    ghost use Rattle.chess_base.specs.declared.setup.Setup.{Setup};
    ghost use Rattle.chess_base.specs.Men.{Men};

    /// The position that the board is at.
    ghost position: { Self → Setup };

    /// How the board hashes positions: its own choice, but fixed by the pieces, the side on move and the castling
    /// rights alone. So positions that are the same (Laws of Chess 2023, article 9.2.3) have equal hashes; different
    /// ones may, too.
    ghost word_of: { Men → Colour → Rights → ℕ };

    /// Sets the board to the position `to`.
    fn set(&mut self, to: &Position)
        ensures position { position self.new ≡ to.now }
        ensures sound { IsSound (position self.new) };

    /// The position that the board is at.
    fn position(&self) -> Position
        ensures value { result ≡ position self.now }
        ensures sound { IsSound (position self.now) };

    /// The position that the board is at, lent as a `Setup` without a copy.
    fn setup(&self) -> &Setup
        ensures value { result.now ≡ position self.now }
        ensures sound { IsSound (position self.now) };

    /// All legal moves, each once, rising by start square and then end square; promotions in the
    /// order queen, rook, bishop, knight.
    fn legal_moves(&self) -> MoveList
        ensures moves { result.items ≡ moves (position self.now) }
        ensures legal { All (λ m. IsTrue (is_legal (position self.now) m)) result.items };

    /// How many legal moves there are.
    fn legal_move_count(&self) -> usize
        ensures { result ≡ length (moves (position self.now)) };

    /// Whether there is a legal move. Both boards (`Plain`, and `Bits` of chess_bits) stop at the first piece that has
    /// one, `Bits` also at a set of pawns that has one; no clause says so.
    fn has_legal_move(&self) -> bool
        ensures { result ≡ nat_lt 0 (length (moves (position self.now))) };

    /// Whether a move is legal.
    fn is_legal(&self, m: &Move) -> bool
        ensures { result ≡ is_legal (position self.now) m.now };

    /// A set that has at least the start squares of all legal moves of pieces of this kind to `to`; it may have other
    /// squares too.
    fn origins(&self, kind: Kind, to: Square) -> SquareSet
        ensures { HasOrigins (position self.now) kind to result };

    /// The squares of this colour's pieces of this kind.
    fn men_of(&self, colour: Colour, kind: Kind) -> SquareSet
        ensures { (k : ℕ) → k < 64 → contains result k ≡ is_man colour kind (man_at (position self.now).men k) };

    /// The squares from which a piece of this kind, of the side on move, may legally move to `to` without a promotion.
    fn legal_starts(&self, kind: Kind, to: Square) -> SquareSet
        ensures { HasLegalStarts (position self.now) kind to result };

    /// Whether the side on move is in check (Laws of Chess 2023, article 3.9.1).
    fn in_check(&self) -> bool
        ensures { result ≡ is_in_check (position self.now).men (position self.now).side };

    /// The position's hash, as the board computes it (`word_of`) from pieces, side on move and castling rights, without
    /// the en passant target; on both boards it is a Zobrist hash. Two positions whose hashes differ are not the same.
    fn word(&self) -> u64
        ensures { result ≡ word_of (position self.now).men (position self.now).side (position self.now).rights };

    /// Makes a legal move, and returns what `take_back` needs to take it back.
    fn make(&mut self, m: Move) -> Saved
        requires { IsTrue (is_legal (position self.old) m) }
        ensures position { position self.new ≡ after (position self.old) m }
        ensures saved { result ≡ saved_of (position self.old) m }
        ensures made { WasMade (position self.old) m result (position self.new) }
        ensures sound { IsSound (position self.new) };

    /// Takes back the move that was made last, `m`, by what `make` returned for it.
    fn take_back(&mut self, m: Move, saved: Saved)
        requires { IsMade (position self.old) m saved }
        ensures back { (p : Setup) → WasMade p m saved (position self.old) → position self.new ≡ p }
        ensures position { position self.new ≡ before (position self.old) m saved }
        ensures sound { IsSound (position self.new) };
}

/// A law of every board: a legal move that is made and then taken back leaves the very same position. It returns the
/// position in between.
pub fn make_then_take_back<B: Board>(board: &mut B, m: Move) -> Position
    requires { IsTrue (is_legal (B.position board.old) m) }
    ensures between { result ≡ after (B.position board.old) m }
    ensures back { B.position board.new ≡ B.position board.old }
{
    // The prover wants two variables here: each of the two calls is given a move.
    let again = m;
    let saved = board.make(m);
    let between = board.position();
    board.take_back(again, saved);
    between
}
