//! The board `Bits`, which keeps sets of squares (bitboards) along with the piece of each square.

ghost use Rattle.std.specs.Prelude.{◌≡◌, ℕ, ◌<◌, ◌==◌};
ghost use Rattle.chess_base.specs.Attacks.{is_attacked};
ghost use Rattle.chess_base.specs.Initial.{initial_setup};
ghost use Rattle.chess_base.specs.Men.{man_at, is_man};
ghost use Rattle.chess_base.specs.declared.man.Kind.TheVariants.{King};

use crate::placing::{make_move, move_back};
use crate::reaching::reached_among;
use crate::sets::Sets;
use crate::tables::AttackTables;
use crate::targets::{is_king, is_pawn};
use chess_base::{Colour, Kind, Move, Position, Saved, Setup, Square};
use chess_moves::{Board, MoveList, SquareSet, hash_with};
use std::marker::Model;

/// A board that keeps bitboards along with the piece of each square: for each colour and kind, the set of the squares
/// with such a piece. It borrows the tables of attacks, so any number of boards can share them. In contracts it is the
/// `Setup` of its position. The position is always sound, and the sets are always those of its pieces (`invariant`).
#[derive(Drop)]
pub struct Bits<'t> {
    pub(crate) setup: Setup,
    pub(crate) sets: Sets,
    pub(crate) tables: &'t AttackTables,
}

impl<'t> Model for Bits<'t> {
    ghost use Rattle.chess_base.specs.declared.setup.Setup.{Setup};

    ghost Value = { Setup };

    ghost use Rattle.chess_base.specs.Sound.{IsSound};
    ghost use Rattle.chess_bits.specs.ties.BoardSets.{IsSets};

    ghost view = { λ b. b.setup };

    ghost invariant = { λ b. IsSound b.setup × IsSets b.sets b.setup.men };
}

impl<'t> Bits<'t> {
    /// A board at the initial position, which looks attacks up in `tables`.
    pub fn new(tables: &'t AttackTables) -> Self
        ensures { result ≡ initial_setup }
    {
        let position = Position::initial();
        let setup = *position.setup();
        let sets = Sets::standing(tables.keys(), &setup.men);
        Bits {
            setup,
            sets,
            tables,
        }
    }

    /// Another board, at the initial position, which looks attacks up in the same tables.
    pub fn another(&self) -> Self
        ensures { result ≡ initial_setup }
    {
        Bits::new(self.tables)
    }

    // The square of this colour's king. The position is sound, so there is exactly one.
    pub(crate) fn king(&self, colour: Colour) -> Square
        ensures alone { (k : ℕ) → k < 64 → is_man colour King (man_at self.now.men k) ≡ (k == result) }
        ensures in_range { result < 64 }
    {
        let men = self.sets.of(colour);
        let kings = men.of(Kind::King);
        kings.first()
    }

    // Whether some piece of colour `by` attacks the square, given the pieces on the board.
    pub(crate) fn is_attacked(&self, square: Square, by: Colour) -> bool
        ensures { result ≡ is_attacked self.now.men square by }
    {
        let occupied = self.sets.occupied();
        self.sets.of(by).attacks(self.tables, by, square, occupied)
    }
}

impl Board for Bits<'_> {
    ghost use Rattle.chess_moves.specs.PositionHash.{position_hash};

    ghost position = { λ b. b };

    ghost word_of = { position_hash };

    // Sets the board to the position `to`, and makes the sets anew from its pieces.
    fn set(&mut self, to: &Position) {
        let setup = to.setup();
        self.sets = Sets::standing(self.tables.keys(), &setup.men);
        self.setup = *setup;
    }

    // The position that the board is at.
    fn position(&self) -> Position {
        Position::from_sound(self.setup)
    }

    // The position that the board is at, lent as a `Setup` without a copy.
    fn setup(&self) -> &Setup {
        &self.setup
    }

    // All legal moves, each once, in rising order of start square and then end square (a1 first, h8 last); promotions
    // in the order queen, rook, bishop, knight.
    fn legal_moves(&self) -> MoveList {
        let mut list = MoveList::new();
        self.add_moves(&mut list);
        list
    }

    // How many legal moves there are.
    fn legal_move_count(&self) -> usize {
        self.count()
    }

    // Whether there is a legal move.
    fn has_legal_move(&self) -> bool {
        self.has_move()
    }

    // Whether a move is legal.
    fn is_legal(&self, m: &Move) -> bool {
        self.is_legal_by_kind(m)
    }

    // A set with at least the start square of each legal move to `to` by a piece of this kind, of the side on move. It
    // is asked for texts of castling and promotions (for most others `legal_starts` is). The moves from these squares
    // are then tested one by one, so there may be more: for a king always its square, for another kind each piece that
    // reaches `to`, even if pinned.
    fn origins(&self, kind: Kind, to: Square) -> SquareSet {
        let side = self.setup.side;
        let men = self.sets.of(side);
        let own = men.of(kind);
        if is_king(kind) {
            return own;
        }
        if is_pawn(kind) {
            return self.pawns_to(to);
        }
        reached_among(self.tables, self.sets.occupied(), kind, to, own)
    }

    // The squares of this colour's pieces of this kind.
    #[inline(always)]
    fn men_of(&self, colour: Colour, kind: Kind) -> SquareSet {
        self.sets.of(colour).of(kind)
    }

    // The squares from which a piece of this kind, of the side on move, may legally move to `to` without a promotion.
    // Unlike `origins`, it names no other square. SAN needs it: for Nd2, whether one knight can go there or two. So
    // does the comparison of positions: for the en passant target, whether a pawn can legally capture there.
    #[inline(always)]
    fn legal_starts(&self, kind: Kind, to: Square) -> SquareSet {
        self.starts_of(kind, to)
    }

    // Whether the side on move is in check.
    #[tactic(auto, using(crate::proofs::AfterSets::check_is))]
    fn in_check(&self) -> bool {
        let side = self.setup.side;
        let king = self.king(side);
        self.is_attacked(king, side.other())
    }

    // The position's Zobrist hash: `men_hash`, the pieces' part, which each move keeps up to date, combined with the
    // keys of the side on move and of the castling rights.
    #[inline(always)]
    fn word(&self) -> u64 {
        hash_with(self.tables.keys(), self.sets.men_hash, &self.setup)
    }

    // Makes a legal move on this board, in place, and returns what `take_back` needs to take it back.
    #[inline(always)]
    fn make(&mut self, m: Move) -> Saved {
        let keys = self.tables.keys();
        make_move(&mut self.setup, &mut self.sets, keys, &m)
    }

    // Takes back the move that was made last, `m`, with what `make` returned for it.
    fn take_back(&mut self, m: Move, saved: Saved) {
        let keys = self.tables.keys();
        move_back(&mut self.setup, &mut self.sets, keys, &m, &saved);
    }
}
