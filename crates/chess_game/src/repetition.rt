//! When positions are the same. `Hashed::on` and what it calls are inlined for the loop in which chess_pgn plays the
//! moves of a game.

ghost use Rattle.std.specs.Prelude.{◌≡◌, cond, true, false, Some};
ghost use Rattle.std.specs.List.{list_any};
ghost use Rattle.chess_base.specs.MoveList.{moves};
ghost use Rattle.chess_base.specs.Moves.{is_en_passant};
ghost use Rattle.chess_game.specs.Same.{same_square, same_colour_rights, same_rights, legal_en_passant_square, is_same_position};
ghost use Rattle.chess_game.specs.ties.PlayedMoves.{IsKnown, HasHash, ShareHashing};

use crate::packed::PackedPosition;
use chess_base::{ColourRights, Kind, Rights, Square};
use chess_moves::Board;

// A position, packed, with its hash, and its en passant target if a legal move captures on it; both are computed once.
#[derive(Drop)]
pub(crate) struct Hashed {
    pub(crate) position: PackedPosition,
    pub(crate) legal_en_passant_square: Option<Square>,
    pub(crate) hash: u64,
}

impl Hashed {
    // The board's present position, packed, with its hash and its legal en passant square (see
    // `legal_en_passant_square`). It is packed last: so no packed position has to be kept during the search for
    // captures en passant (which is made only if there is a target).
    #[inline(always)]
    pub(crate) fn on<B: Board>(board: &B) -> Self
        ensures position { result.position ≡ B.position board.now }
        ensures known { IsKnown result }
        ensures hash { HasHash B.word_of result }
    {
        let legal_en_passant_square = legal_en_passant_square(board);
        let hash = board.word();
        Hashed {
            position: PackedPosition::of(board),
            legal_en_passant_square,
            hash,
        }
    }

    // Whether the hashes of the two positions differ; if they do, the positions are not the same. If the hashes are
    // equal, the positions may still differ.
    fn hash_differs(&self, other: &Hashed) -> bool
        requires { ShareHashing self.now other.now }
        ensures { result ≡ true → is_same_position self.now.position other.now.position ≡ false }
    {
        // The prover wants this fact of both: a position is sound, so it has an element for each of the 64 squares.
        let _this = self.position.halfmove();
        let _that = other.position.halfmove();
        self.hash != other.hash
    }

    // Whether the two positions are the same (Laws of Chess 2023, article 9.2.3): the same side on move, pieces,
    // castling rights, and legal en passant square. Clock and move number make no difference.
    #[tactic(auto, unfolding(crate::specs::Same::is_same_position))]
    pub(crate) fn is_same(&self, other: &Hashed) -> bool
        requires this { IsKnown self.now }
        requires other { IsKnown other.now }
        requires hashes { ShareHashing self.now other.now }
        ensures { result ≡ is_same_position self.now.position other.now.position }
    {
        // Most positions differ in their hashes, so pieces and rights are seldom looked at.
        if self.hash_differs(other) {
            return false;
        }
        let (this, that) = (&self.position, &other.position);
        this.side() == that.side()
            && this.same_men(that)
            && same_rights(this.rights(), that.rights())
            && same_square(self.legal_en_passant_square, other.legal_en_passant_square)
    }

    // `is_same` as a number to add up: 1 if the two positions are the same (Laws of Chess 2023, article 9.2.3),
    // otherwise 0.
    pub(crate) fn times_same(&self, other: &Hashed) -> u32
        requires this { IsKnown self.now }
        requires other { IsKnown other.now }
        requires hashes { ShareHashing self.now other.now }
        ensures { result ≡ cond (is_same_position self.now.position other.now.position) 1 0 }
    {
        if self.is_same(other) { 1 } else { 0 }
    }
}

// The en passant target, if some legal move captures on it; otherwise none. After `1. e4` the target is e3, but no pawn
// captures there, so this is none.
#[inline(always)]
#[tactic(auto, unfolding(crate::specs::Same::legal_en_passant_square))]
fn legal_en_passant_square<B: Board>(board: &B) -> Option<Square>
    ensures { result ≡ legal_en_passant_square (B.position board.now) }
{
    let target = board.setup().target?;
    if is_captured_on(board, target) {
        Some(target)
    } else {
        None
    }
}

// Whether some legal move captures en passant on `target`, the position's en passant target: that is, whether a pawn of
// the side on move may legally go there, as it can do so only by such a capture. Few positions have a target, so this
// is not inlined.
#[inline(never)]
fn is_captured_on<B: Board>(board: &B, target: Square) -> bool
    requires { (B.position board.now).target ≡ Some target }
    ensures { result ≡ list_any (λ m. is_en_passant (B.position board.now) m) (moves (B.position board.now)) }
{
    // The prover wants this fact: the position is sound, so its target is a square that a double advance crossed.
    let _sound = board.setup();
    !board.legal_starts(Kind::Pawn, target).is_empty()
}

// Whether two optional squares are equal, the same square or both none. It is `==` with a contract that names the
// definition `same_square`.
fn same_square(this: Option<Square>, that: Option<Square>) -> bool
    ensures { result ≡ same_square this that }
{
    match (this, that) {
        (None, None) => true,
        (Some(s), Some(t)) => s == t,
        _ => false,
    }
}

// Whether the castling rights of one colour are equal in two positions.
fn same_colour_rights(this: &ColourRights, that: &ColourRights) -> bool
    ensures { result ≡ same_colour_rights this.now that.now }
{
    same_square(this.king_side, that.king_side) && same_square(this.queen_side, that.queen_side)
}

// Whether the castling rights of both colours are equal in two positions.
#[tactic(auto, unfolding(crate::specs::Same::same_rights))]
fn same_rights(this: &Rights, that: &Rights) -> bool
    ensures { result ≡ same_rights this.now that.now }
{
    same_colour_rights(&this.white, &that.white) && same_colour_rights(&this.black, &that.black)
}
