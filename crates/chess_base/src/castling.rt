//! Castling: with which rook, between which squares, and when.

ghost use Rattle.std.specs.Prelude.{◌≡◌, ◌<◌, IfSome, Option};
ghost use Rattle.chess_base.specs.Castling.{home_square, king_home_file, rook_file, castled_king_file, castled_rook_file, right_of, king_square, is_to_side, are_placed_for_castling, right_is_sound, is_castling_to, castling, castle_from, castle_of, mover_end, castling_rook_to, is_on_way, castling_needs_empty, castling_way_is_empty, castling_way_is_safe, castles};
ghost use Rattle.chess_base.specs.shared.Parts.{is_on_side_of_king};
ghost use Rattle.chess_base.specs.shared.Splits.{names_castling, rook_from, rook_to};
ghost use Rattle.chess_base.specs.Before.{mover_to, castle_by};

use crate::attack::{is_attacked, is_between, is_man};
use crate::legality::first_rank;
use crate::man::{CastlingSide, Colour, Kind, Man, Move, Rights, Variant};
use crate::setup::Setup;
use crate::square::Square;

/// The squares of a castling (Laws of Chess 2023, article 3.8.2): where its king and its rook start, and where they
/// end. In Chess960 a piece may end where it or the other one started.
#[derive(Clone, Copy, Debug, PartialEq, Eq)]
pub struct Castle {
    pub king_from: Square,
    pub king_to: Square,
    pub rook_from: Square,
    pub rook_to: Square,
}

/// The square on this file (0 for a) of this colour's first rank: for White and 4 that is `e1`.
pub fn home_square(colour: Colour, file: u8) -> Square
    requires { file < 8 }
    ensures { result ≡ home_square colour file }
{
    Square::new(8 * first_rank(colour) + file)
}

// The file on which both kings begin, the e-file (Laws of Chess 2023, article 2.3).
pub(crate) fn king_home_file() -> u8
    ensures value { result ≡ king_home_file }
    ensures in_range { result < 8 }
{
    4
}

/// The file (0 for a) on which the rook for castling to that side starts in normal chess (Laws of Chess 2023, article
/// 2.3).
pub fn rook_file(castling_side: CastlingSide) -> u8
    ensures value { result ≡ rook_file castling_side }
    ensures in_range { result < 8 }
{
    match castling_side {
        CastlingSide::KingSide => 7,
        CastlingSide::QueenSide => 0,
    }
}

/// The file (0 for a) to which castling to that side takes the king (Laws of Chess 2023, article 3.8.2).
pub fn castled_king_file(castling_side: CastlingSide) -> u8
    ensures value { result ≡ castled_king_file castling_side }
    ensures in_range { result < 8 }
{
    match castling_side {
        CastlingSide::KingSide => 6,
        CastlingSide::QueenSide => 2,
    }
}

/// The file (0 for a) to which castling to that side takes the rook (Laws of Chess 2023, article 3.8.2).
pub fn castled_rook_file(castling_side: CastlingSide) -> u8
    ensures value { result ≡ castled_rook_file castling_side }
    ensures in_range { result < 8 }
{
    match castling_side {
        CastlingSide::KingSide => 5,
        CastlingSide::QueenSide => 3,
    }
}

/// The castling right of this colour on that side: the square of the rook with which it may castle there, or none.
pub fn right_of(rights: Rights, colour: Colour, castling_side: CastlingSide) -> Option<Square>
    ensures { result ≡ right_of rights colour castling_side }
{
    match (colour, castling_side) {
        (Colour::White, CastlingSide::KingSide) => rights.white.king_side,
        (Colour::White, CastlingSide::QueenSide) => rights.white.queen_side,
        (Colour::Black, CastlingSide::KingSide) => rights.black.king_side,
        (Colour::Black, CastlingSide::QueenSide) => rights.black.queen_side,
    }
}

// The index of this colour's king in the list of pieces, which is the number of its square: of several kings the first;
// none if it has no king. It is apart from `king_square` for the prover, which wants the search alone.
#[tactic(auto, unfolding(crate::specs::Castling::king_square))]
fn king_index(men: &[Option<Man>; 64], colour: Colour) -> Option<usize>
    ensures value { result ≡ king_square men.now colour }
    ensures in_board { IfSome result (λ place. place < 64) }
{
    men.iter().position(|man| is_man(colour, Kind::King, *man))
}

/// The square of the king of this colour: `e1` for White in the initial position. Of several kings it is the first from
/// a1 on; none where the colour has no king.
pub fn king_square(men: &[Option<Man>; 64], colour: Colour) -> Option<Square>
    ensures { result ≡ king_square men.now colour }
{
    match king_index(men, colour) {
        None => None,
        Some(place) => Some(Square::new(place as u8)),
    }
}

// For squares k and s on one rank, whether s lies on that side of k: towards file h (king side) or file a (queen side).
// chess_fen's `is_towards` is another test: there a king may be missing, and each square is on one side.
fn is_to_side(castling_side: CastlingSide, k: Square, s: Square) -> bool
    ensures { result ≡ is_to_side castling_side k s }
{
    match castling_side {
        CastlingSide::KingSide => k.number() < s.number(),
        CastlingSide::QueenSide => s.number() < k.number(),
    }
}

// Whether the king's square and s are on the colour's first rank, and s lies on that side of the king; false if there
// is no king.
fn is_on_side_of_king(
    colour: Colour,
    castling_side: CastlingSide,
    king: Option<Square>,
    s: Square,
) -> bool
    ensures { result ≡ is_on_side_of_king colour castling_side king s }
{
    match king {
        None => false,
        Some(k) => {
            k.rank() == first_rank(colour)
                && s.rank() == first_rank(colour)
                && is_to_side(castling_side, k, s)
        }
    }
}

// Whether this colour's king, and its rook on square `rook`, are where castling to this side begins: in normal chess
// both on their initial squares, in Chess960 both on the first rank, the rook on that side of the king.
fn are_placed_for_castling(
    variant: Variant,
    men: &[Option<Man>; 64],
    colour: Colour,
    castling_side: CastlingSide,
    rook: Square,
) -> bool
    ensures { result ≡ are_placed_for_castling variant men.now colour castling_side rook }
{
    match variant {
        Variant::Normal => {
            rook == home_square(colour, rook_file(castling_side))
                && is_man(
                    colour,
                    Kind::King,
                    men[home_square(colour, king_home_file()).index()],
                )
                && is_man(colour, Kind::Rook, men[rook.index()])
        }
        Variant::Fischerandom => {
            let man = men[rook.index()];
            is_on_side_of_king(colour, castling_side, king_square(men, colour), rook)
                && is_man(colour, Kind::Rook, man)
        }
    }
}

// Whether the king and the rook of that castling right are where castling begins; true if the right isn't there.
#[tactic(auto, unfolding(crate::specs::Castling::right_is_sound))]
pub(crate) fn right_is_sound(setup: &Setup, colour: Colour, castling_side: CastlingSide) -> bool
    ensures { result ≡ right_is_sound setup.now colour castling_side }
{
    match right_of(setup.rights, colour, castling_side) {
        None => true,
        Some(rook) => {
            are_placed_for_castling(setup.variant, &setup.men, colour, castling_side, rook)
        }
    }
}

// Whether the castling right is there (`right`, its rook's square), and the move's squares are those of castling with
// it: in normal chess the king's start and end square (`e1g1`), in Chess960 the king's and the rook's square (`e1h1`).
// Which piece moves is not asked: so in Chess960 any start square on the rook's rank will do.
pub(crate) fn names_castling(
    variant: Variant,
    colour: Colour,
    m: &Move,
    castling_side: CastlingSide,
    right: Option<Square>,
) -> bool
    ensures { result ≡ names_castling variant colour m.now castling_side right }
{
    let Some(rook) = right else {
        return false;
    };
    match variant {
        Variant::Normal => {
            m.from == home_square(colour, king_home_file())
                && m.to == home_square(colour, castled_king_file(castling_side))
        }
        Variant::Fischerandom => m.from.rank() == rook.rank() && m.to == rook,
    }
}

// Whether the move is castling to this side: the side on move has the right, its king moves, and the move's squares are
// those of this castling (`names_castling`). Whether anything prevents the castling is asked by `castles`.
#[tactic(auto, unfolding(crate::specs::Castling::is_castling_to))]
fn is_castling_to(setup: &Setup, m: &Move, castling_side: CastlingSide) -> bool
    ensures { result ≡ is_castling_to setup.now m.now castling_side }
{
    is_man(setup.side, Kind::King, setup.men[m.from.index()])
        && names_castling(
            setup.variant,
            setup.side,
            m,
            castling_side,
            right_of(setup.rights, setup.side, castling_side),
        )
}

/// The side to which the move castles, by its squares and the right: king's side for `e1g1`. Whether anything prevents
/// it is not asked. None if it is not castling (Laws of Chess 2023, article 3.8.2).
#[tactic(auto, unfolding(crate::specs::Castling::castling))]
pub fn castling(setup: &Setup, m: &Move) -> Option<CastlingSide>
    ensures { result ≡ castling setup.now m.now }
{
    if is_castling_to(setup, m, CastlingSide::KingSide) {
        Some(CastlingSide::KingSide)
    } else if is_castling_to(setup, m, CastlingSide::QueenSide) {
        Some(CastlingSide::QueenSide)
    } else {
        None
    }
}

/// Where the king and the rook start and end when this colour castles to this side with the king on `king` and the rook
/// on `rook`: for White's king side, from `e1` and `h1`, they end on `g1` and `f1`. Whether king and rook are there is
/// not asked.
pub fn castle_from(
    colour: Colour,
    castling_side: CastlingSide,
    king: Square,
    rook: Square,
) -> Castle
    ensures { result ≡ castle_from colour castling_side king rook }
{
    Castle {
        king_from: king,
        king_to: home_square(colour, castled_king_file(castling_side)),
        rook_from: rook,
        rook_to: home_square(colour, castled_rook_file(castling_side)),
    }
}

// The four squares of this colour's castling to the side `castling`: the king starts on the move's start square, the
// rook on the square of its right. None if no side is given, or the colour has no right on that side.
pub(crate) fn castle_by(
    colour: Colour,
    rights: Rights,
    m: &Move,
    castling: Option<CastlingSide>,
) -> Option<Castle>
    ensures { result ≡ castle_by colour rights m.now castling }
{
    let castling_side = castling?;
    let rook = right_of(rights, colour, castling_side)?;
    Some(castle_from(colour, castling_side, m.from, rook))
}

/// The four squares of the castling that the move is by its squares and the right: for `e1g1` the king's `e1` and `g1`,
/// the rook's `h1` and `f1`. None if it is not castling. Whether the castling is legal is not asked: there may be
/// pieces or attacks on its way.
#[tactic(auto, unfolding(crate::specs::Castling::castle_of))]
pub fn castle_of(setup: &Setup, m: &Move) -> Option<Castle>
    ensures { result ≡ castle_of setup.now m.now }
{
    castle_by(setup.side, setup.rights, m, castling(setup, m))
}

// The square on which the moving piece ends: the move's end square, or the king's end square if the move is castling
// (`castle`).
pub(crate) fn mover_to(m: &Move, castle: Option<Castle>) -> Square
    ensures { result ≡ mover_to m.now castle }
{
    match castle {
        None => m.to,
        Some(castle) => castle.king_to,
    }
}

// The castling rook's square before the castling; none if there is no castling.
pub(crate) fn rook_from(castle: Option<Castle>) -> Option<Square>
    ensures { result ≡ rook_from castle }
{
    match castle {
        None => None,
        Some(castle) => Some(castle.rook_from),
    }
}

// The castling rook's square after the castling; none if there is no castling.
pub(crate) fn rook_to(castle: Option<Castle>) -> Option<Square>
    ensures { result ≡ rook_to castle }
{
    match castle {
        None => None,
        Some(castle) => Some(castle.rook_to),
    }
}

/// The square on which the moving piece ends. It is the move's end square, but for castling in Chess960, where `e1h1`
/// takes the king to `g1`.
#[tactic(auto, unfolding(crate::specs::Castling::mover_end))]
pub fn mover_end(setup: &Setup, m: &Move) -> Square
    ensures { result ≡ mover_end setup.now m.now }
{
    mover_to(m, castle_of(setup, m))
}

/// The square on which the castling rook ends, as `f1` for `e1g1`; none if the move is not castling.
#[tactic(auto, unfolding(crate::specs::Castling::castling_rook_to))]
pub fn castling_rook_to(setup: &Setup, m: &Move) -> Option<Square>
    ensures { result ≡ castling_rook_to setup.now m.now }
{
    rook_to(castle_of(setup, m))
}

// Whether x is a or b, or lies strictly between them.
fn is_on_way(a: Square, b: Square, x: Square) -> bool
    ensures { result ≡ is_on_way a b x }
{
    x == a || x == b || is_between(a, b, x)
}

// Whether by this castling king or rook crosses x or ends there, and neither of the two starts there: x must then be
// empty. For White's castling on the king's side in normal chess these are f1 and g1.
#[tactic(auto, unfolding(crate::specs::Castling::castling_needs_empty))]
fn castling_needs_empty(castle: &Castle, x: Square) -> bool
    ensures { result ≡ castling_needs_empty castle.now x }
{
    (is_on_way(castle.king_from, castle.king_to, x)
        || is_on_way(castle.rook_from, castle.rook_to, x))
        && x != castle.king_from
        && x != castle.rook_from
}

// Whether each square that king or rook crosses or ends on is empty (Laws of Chess 2023, article 3.8.2.2.2). The two
// squares where they start are left out, by `castling_needs_empty`: in Chess960 one piece may cross or end on the
// other's.
#[tactic(auto, unfolding(crate::specs::Castling::castling_way_is_empty))]
fn castling_way_is_empty(men: &[Option<Man>; 64], castle: &Castle) -> bool
    ensures { result ≡ castling_way_is_empty men.now castle.now }
{
    for number in 0..64 {
        let x = Square::new(number);
        if castling_needs_empty(castle, x) && men[x.index()].is_some() {
            return false;
        }
    }
    true
}

// Whether no square that the king of this colour starts on, crosses or ends on is attacked (Laws of Chess 2023, article
// 3.8.2.2.1).
#[tactic(auto, unfolding(crate::specs::Castling::castling_way_is_safe))]
fn castling_way_is_safe(men: &[Option<Man>; 64], colour: Colour, castle: &Castle) -> bool
    ensures { result ≡ castling_way_is_safe men.now colour castle.now }
{
    for number in 0..64 {
        let x = Square::new(number);
        if is_on_way(castle.king_from, castle.king_to, x) && is_attacked(men, x, colour.other()) {
            return false;
        }
    }
    true
}

// Whether nothing prevents `castle`, the castling that move `m` is: its way is empty, no square of the king's way is
// attacked, and the move names no promotion. A check that the rook uncovers in Chess960 is left to `is_legal`.
#[tactic(auto, unfolding(crate::specs::Castling::castles))]
pub(crate) fn castles(setup: &Setup, m: &Move, castle: &Castle) -> bool
    ensures { result ≡ castles setup.now m.now castle.now }
{
    m.promotion.is_none()
        && castling_way_is_empty(&setup.men, castle)
        && castling_way_is_safe(&setup.men, setup.side, castle)
}
