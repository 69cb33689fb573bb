//! Positions whose pieces are packed into sets of squares: seven numbers in place of 64 squares.

ghost use Rattle.std.specs.Prelude.{◌≡◌, ℕ, ◌<◌, ◌&&◌, ◌||◌, not, length};
ghost use Rattle.chess_base.specs.Men.{is_man, man_at};
ghost use Rattle.chess_base.specs.Sound.{IsSound};
ghost use Rattle.chess_base.specs.declared.man.Colour.TheVariants.{White};
ghost use Rattle.chess_moves.specs.Sets.{contains};
ghost use Rattle.chess_game.specs.Ends.{is_kind};
ghost use Rattle.chess_game.specs.Same.{same_man, same_men};
ghost use Rattle.chess_game.specs.ties.Packed.{ArePacked, colour_in, men_in, put_at};
ghost use Rattle.chess_game.specs.ties.PlayedMoves.{saved_with};

use chess_base::{Colour, Kind, Man, Position, Rights, Saved, Setup, Square, Variant};
use chess_moves::{Board, SquareSet};
use std::marker::Model;

// The pieces as seven sets of squares: White's pieces, and for each kind the pieces of both colours.
#[derive(Clone, Copy)]
pub(crate) struct PackedMen {
    white: SquareSet,
    kings: SquareSet,
    queens: SquareSet,
    rooks: SquareSet,
    bishops: SquareSet,
    knights: SquareSet,
    pawns: SquareSet,
}

// The squares of the board's pieces of this kind, of both colours, if `white` has those of White's.
#[tactic(auto, using(crate::proofs::SomeKind::of_colours))]
#[inline(always)]
fn with_black<B: Board>(board: &B, kind: Kind, white: SquareSet) -> SquareSet
    requires { (k : ℕ) → k < 64 → contains white k ≡ is_man White kind (man_at (B.position board.now).men k) }
    ensures { (k : ℕ) → k < 64 → contains result k ≡ is_kind kind (man_at (B.position board.now).men k) }
{
    white.union(board.men_of(Colour::Black, kind))
}

// The squares of the board's pieces of this kind, of both colours.
#[inline(always)]
pub(crate) fn squares_of<B: Board>(board: &B, kind: Kind) -> SquareSet
    ensures { (k : ℕ) → k < 64 → contains result k ≡ is_kind kind (man_at (B.position board.now).men k) }
{
    with_black(board, kind, board.men_of(Colour::White, kind))
}

// The squares that are in exactly one of the two sets.
fn difference(these: SquareSet, those: SquareSet) -> SquareSet
    ensures { (k : ℕ) → k < 64
        → contains result k ≡ ((contains these k && not (contains those k))
        || (contains those k && not (contains these k))) }
{
    these.without(those).union(those.without(these))
}

impl PackedMen {
    // The pieces of the board's position, as sets of squares. The board is asked only once for each kind of White's
    // pieces, since a plain board goes over its 64 squares each time.
    #[tactic(auto, using(crate::proofs::AsSets::white_kinds))]
    #[inline(always)]
    fn of<B: Board>(board: &B) -> Self
        ensures { ArePacked result (B.position board.now).men }
    {
        let kings = board.men_of(Colour::White, Kind::King);
        let queens = board.men_of(Colour::White, Kind::Queen);
        let rooks = board.men_of(Colour::White, Kind::Rook);
        let bishops = board.men_of(Colour::White, Kind::Bishop);
        let knights = board.men_of(Colour::White, Kind::Knight);
        let pawns = board.men_of(Colour::White, Kind::Pawn);
        let white = kings
            .union(queens)
            .union(rooks)
            .union(bishops)
            .union(knights)
            .union(pawns);
        PackedMen {
            white,
            kings: with_black(board, Kind::King, kings),
            queens: with_black(board, Kind::Queen, queens),
            rooks: with_black(board, Kind::Rook, rooks),
            bishops: with_black(board, Kind::Bishop, bishops),
            knights: with_black(board, Kind::Knight, knights),
            pawns: with_black(board, Kind::Pawn, pawns),
        }
    }

    // The colour of the piece on this square; Black also if the square is empty.
    fn colour_at(&self, square: Square) -> Colour
        ensures { result ≡ colour_in self.now square }
    {
        if self.white.contains(square) {
            Colour::White
        } else {
            Colour::Black
        }
    }

    // Puts a piece of this kind on each square of the set, in the colour that `colour_at` gives for that square.
    // Inlined, like `unpacked`, so that the compiler can drop it where a caller of `Game::start` uses no piece.
    #[inline(always)]
    fn put_kind(&self, men: &mut [Option<Man>; 64], set: SquareSet, kind: Kind)
        ensures length { length men.new ≡ 64 }
        ensures each { (k : ℕ) → k < 64 → man_at men.new k ≡ put_at self.now set kind k (man_at men.old k) }
    {
        let mut left = set;
        // At most 64 turns, as many as a set can need: seeing this limit, the compiler can drop the loop if no piece
        // is used.
        for _turn in 0..64u8 {
            let Some(square) = left.take_first() else {
                return;
            };
            let colour = self.colour_at(square);
            men[square.index()] = Some(Man { colour, kind });
        }
    }

    // The pieces on all 64 squares, from a1 to h8.
    #[inline(always)]
    fn unpacked(&self) -> [Option<Man>; 64]
        ensures { result ≡ men_in self.now }
    {
        let mut men = [None; 64];
        self.put_kind(&mut men, self.pawns, Kind::Pawn);
        self.put_kind(&mut men, self.knights, Kind::Knight);
        self.put_kind(&mut men, self.bishops, Kind::Bishop);
        self.put_kind(&mut men, self.rooks, Kind::Rook);
        self.put_kind(&mut men, self.queens, Kind::Queen);
        self.put_kind(&mut men, self.kings, Kind::King);
        men
    }

    // The squares whose content (a piece's kind and colour, or none) differs from that in `other`.
    #[tactic(auto, using(crate::proofs::AsSets::differ_at))]
    fn differing(&self, other: &PackedMen) -> SquareSet
        requires this { ArePacked self.now (men_in self.now) }
        requires other { ArePacked other.now (men_in other.now) }
        ensures { (k : ℕ) → k < 64
            → contains result k ≡ not (same_man (man_at (men_in self.now) k) (man_at (men_in other.now) k)) }
    {
        let white = difference(self.white, other.white);
        let kings = difference(self.kings, other.kings);
        let queens = difference(self.queens, other.queens);
        let rooks = difference(self.rooks, other.rooks);
        let bishops = difference(self.bishops, other.bishops);
        let knights = difference(self.knights, other.knights);
        let pawns = difference(self.pawns, other.pawns);
        white
            .union(kings)
            .union(queens)
            .union(rooks)
            .union(bishops)
            .union(knights)
            .union(pawns)
    }
}

/// A position, always sound, its pieces packed into sets of squares. In contracts it is its `Setup`.
#[derive(Drop)]
pub(crate) struct PackedPosition {
    men: PackedMen,
    variant: Variant,
    side: Colour,
    rights: Rights,
    target: Option<Square>,
    halfmove: u32,
    fullmove: u32,
}

impl Model for PackedPosition {
    ghost use Rattle.std.specs.Prelude.{◌≡◌};
    ghost use Rattle.chess_base.specs.declared.setup.Setup.{Setup};

    ghost Value = { Setup };

    ghost use Rattle.chess_base.specs.Sound.{IsSound};
    ghost use Rattle.chess_game.specs.ties.Packed.{ArePacked, men_in};

    ghost view = { λ p. record {
      variant = p.variant;
      men = men_in p.men;
      side = p.side;
      rights = p.rights;
      target = p.target;
      halfmove = p.halfmove;
      fullmove = p.fullmove;
    } };

    ghost invariant = { λ p. ArePacked p.men (men_in p.men) × IsSound (record {
      variant = p.variant;
      men = men_in p.men;
      side = p.side;
      rights = p.rights;
      target = p.target;
      halfmove = p.halfmove;
      fullmove = p.fullmove;
    }) };
}

impl PackedPosition {
    /// The position of the board, packed.
    #[tactic(auto, using(crate::proofs::AsSets::men_back, crate::proofs::AsSets::packed_back))]
    #[inline(always)]
    pub(crate) fn of<B: Board>(board: &B) -> Self
        ensures { result ≡ B.position board.now }
    {
        let men = PackedMen::of(board);
        let setup = board.setup();
        PackedPosition {
            men,
            variant: setup.variant,
            side: setup.side,
            rights: setup.rights,
            target: setup.target,
            halfmove: setup.halfmove,
            fullmove: setup.fullmove,
        }
    }

    /// The position with its pieces by squares again.
    #[inline(always)]
    pub(crate) fn unpacked(&self) -> Position
        ensures { result ≡ self.now }
    {
        Position::from_sound(Setup {
            variant: self.variant,
            men: self.men.unpacked(),
            side: self.side,
            rights: self.rights,
            target: self.target,
            halfmove: self.halfmove,
            fullmove: self.fullmove,
        })
    }

    /// The variant.
    pub(crate) fn variant(&self) -> Variant
        ensures { result ≡ self.now.variant }
    {
        self.variant
    }

    /// The colour on move.
    pub(crate) fn side(&self) -> Colour
        ensures { result ≡ self.now.side }
    {
        self.side
    }

    /// The castling rights.
    pub(crate) fn rights(&self) -> &Rights
        ensures { result.now ≡ self.now.rights }
    {
        &self.rights
    }

    /// The halfmove clock.
    pub(crate) fn halfmove(&self) -> u32
        ensures value { result ≡ self.now.halfmove }
        ensures sound { IsSound self.now }
    {
        self.halfmove
    }

    /// What has to be saved of this position to take a move of it back; the move captured this piece, or none.
    pub(crate) fn saved(&self, captured: Option<Man>) -> Saved
        ensures { result ≡ saved_with self.now captured }
    {
        Saved {
            captured,
            rights: self.rights,
            target: self.target,
            halfmove: self.halfmove,
            fullmove: self.fullmove,
        }
    }

    /// Whether each square has the same content, a piece's kind and colour or none, as in the other position.
    #[tactic(auto, using(crate::proofs::AsSets::same_where_none))]
    pub(crate) fn same_men(&self, other: &PackedPosition) -> bool
        ensures { result ≡ same_men self.now.men other.now.men }
    {
        self.men.differing(&other.men).is_empty()
    }
}
