//! What a text can say of a move.

ghost use Rattle.std.specs.Prelude.{◌≡◌, ◌==◌};
ghost use Rattle.chess_text.specs.Moves.{described};
ghost use Rattle.chess_text.specs.ties.Forms.{captures};
ghost use Rattle.chess_text.specs.shared.Fitting.{admits, names, names_kind, promotes_so, has_equals, is_by_squares, is_by_letter, is_straight, is_by_file, parts_fit, is_form};

use crate::parts::{Parts, Promotion};
use chess_base::rules::{castling, is_en_passant, is_of};
use chess_base::{CastlingSide, Kind, Move, Setup, Square};

/// A move as far as a text can describe it: the kind of its piece, both squares and the promotion, whether it captures,
/// and to which side it castles.
#[derive(Clone, Copy, Debug, PartialEq, Eq)]
pub struct Described {
    pub man: Kind,
    pub from: Square,
    pub to: Square,
    pub promotion: Option<Kind>,
    pub captures: bool,
    pub castles: Option<CastlingSide>,
}

// Whether the move captures an enemy piece, en passant too. `captured_square` of chess_base, private there, also says
// where that piece is, and is only for sound positions.
#[tactic(auto, using(chess_base::proofs::shared::Captures::captures_is))]
pub(crate) fn captures(setup: &Setup, m: &Move) -> bool
    ensures { result ≡ captures setup.now m.now }
{
    is_of(setup.side.other(), setup.men[m.to.index()]) || is_en_passant(setup, m)
}

// What a text can say of the move: its piece, squares and promotion, whether it captures, to which side it castles;
// `None` if no piece is on its start square.
#[tactic(auto, unfolding(crate::specs::Moves::described))]
pub(crate) fn describe(setup: &Setup, m: &Move) -> Option<Described>
    ensures { result ≡ described setup.now m.now }
{
    let man = setup.men[m.from.index()]?;
    Some(Described {
        man: man.kind,
        from: m.from,
        to: m.to,
        promotion: m.promotion,
        captures: captures(setup, m),
        castles: castling(setup, m),
    })
}

// Whether a text that may name a file or rank (`named`; `None` if it names none) allows `number`: it names just that
// one, or none.
pub(crate) fn admits(named: Option<u8>, number: u8) -> bool
    ensures { result ≡ admits named number }
{
    match named {
        None => true,
        Some(named) => named == number,
    }
}

// Whether a text names a file or rank (`named`), and it is `number`.
pub(crate) fn names(named: Option<u8>, number: u8) -> bool
    ensures { result ≡ names named number }
{
    match named {
        None => false,
        Some(named) => named == number,
    }
}

// Whether a text names a kind of piece by its letter, and it is `kind`.
fn names_kind(letter: Option<Kind>, kind: Kind) -> bool
    ensures { result ≡ names_kind letter kind }
{
    match letter {
        None => false,
        Some(named) => named == kind,
    }
}

// Whether the promotion that a text names (`named`) is the move's (`promotion`): both to the same kind, or both none.
fn promotes_so(named: Option<Promotion>, promotion: Option<Kind>) -> bool
    ensures { result ≡ promotes_so named promotion }
{
    match (named, promotion) {
        (None, None) => true,
        (Some(named), Some(kind)) => named.kind == kind,
        _ => false,
    }
}

// Whether a text names a promotion (`named`), and writes it with `=`.
fn has_equals(named: Option<Promotion>) -> bool
    ensures { result ≡ has_equals named }
{
    match named {
        None => false,
        Some(named) => named.equals,
    }
}

// Whether the parts denote the move by its two squares and its promotion, as `e2e4` or `e7e8q`: any piece's move,
// castling too.
#[tactic(auto, unfolding(crate::specs::shared::Fitting::is_by_squares))]
fn is_by_squares(parts: &Parts, d: &Described) -> bool
    ensures { result ≡ is_by_squares parts.now d.now }
{
    parts.letter.is_none()
        && names(parts.file, d.from.file())
        && names(parts.rank, d.from.rank())
        && !parts.takes
        && parts.end.to == d.to
        && !has_equals(parts.end.promotion)
        && promotes_so(parts.end.promotion, d.promotion)
}

// Whether the parts denote the move, no pawn's and not castling, by its piece's letter and its end square, as `Nf3` or
// `Nbxd2`. A file or rank that they name is the start square's; with `x` it is a capture.
#[tactic(auto, unfolding(crate::specs::shared::Fitting::is_by_letter))]
fn is_by_letter(parts: &Parts, d: &Described) -> bool
    ensures { result ≡ is_by_letter parts.now d.now }
{
    names_kind(parts.letter, d.man)
        && d.castles.is_none()
        && admits(parts.file, d.from.file())
        && admits(parts.rank, d.from.rank())
        && (!parts.takes || d.captures)
        && parts.end.to == d.to
        && parts.end.promotion.is_none()
}

// Whether the parts denote the move by its end square and promotion alone, as `e4` or `e8=Q`: a pawn's move straight
// ahead.
#[tactic(auto, unfolding(crate::specs::shared::Fitting::is_straight))]
fn is_straight(parts: &Parts, d: &Described) -> bool
    ensures { result ≡ is_straight parts.now d.now }
{
    parts.letter.is_none()
        && parts.file.is_none()
        && parts.rank.is_none()
        && !parts.takes
        && d.man == Kind::Pawn
        && d.from.file() == d.to.file()
        && parts.end.to == d.to
        && promotes_so(parts.end.promotion, d.promotion)
}

// Whether the parts denote the move, a pawn's, by its start file, end square and promotion, as `exd5` or `exd8=Q`. A
// rank that they name is the start square's; with `x` it is a capture.
#[tactic(auto, unfolding(crate::specs::shared::Fitting::is_by_file))]
fn is_by_file(parts: &Parts, d: &Described) -> bool
    ensures { result ≡ is_by_file parts.now d.now }
{
    parts.letter.is_none()
        && names(parts.file, d.from.file())
        && admits(parts.rank, d.from.rank())
        && d.man == Kind::Pawn
        && (!parts.takes || d.captures)
        && parts.end.to == d.to
        && promotes_so(parts.end.promotion, d.promotion)
}

// Whether the parts of a text denote the move: by its two squares, by its piece's letter, or as a pawn's, by its end
// square alone or from its start file.
#[tactic(auto, unfolding(crate::specs::shared::Fitting::parts_fit))]
pub(crate) fn parts_fit(parts: &Parts, d: &Described) -> bool
    ensures { result ≡ parts_fit parts.now d.now }
{
    is_by_squares(parts, d)
        || is_by_letter(parts, d)
        || is_straight(parts, d)
        || is_by_file(parts, d)
}

// Whether the parts can be those of a move's text: a letter and no promotion (`Nf3`), or no letter and either a start
// file (`exd5`, `e2e4`) or neither start rank nor `x` (`e4`, `e8=Q`). The parts of `xd5` can't.
#[tactic(auto, unfolding(crate::specs::shared::Fitting::is_form))]
pub(crate) fn is_form(parts: &Parts) -> bool
    ensures { result ≡ is_form parts.now }
{
    if parts.letter.is_some() {
        parts.end.promotion.is_none()
    } else {
        parts.file.is_some() || parts.rank.is_none() && !parts.takes
    }
}
