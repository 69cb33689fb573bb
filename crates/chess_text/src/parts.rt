//! The parts of a move's text.

ghost use Rattle.std.specs.Prelude.{◌≡◌};
ghost use Rattle.chess_text.specs.Parts.{is_mark, unmarked};
ghost use Rattle.chess_text.specs.shared.Reader.{kind_from, lettered_kinds, promotion_to, promotion_by, promotion_at, end_at, takes_at, rank_at, file_at, parts_at};

use chess_base::{Colour, Kind, Man, Square};

/// What a text names as the promotion: the kind, whether `=` comes before its letter, and whether the letter is small.
#[derive(Clone, Copy, Debug, PartialEq, Eq)]
pub struct Promotion {
    pub kind: Kind,
    pub equals: bool,
    pub small: bool,
}

/// The last part of a move's text: the end square, and the promotion if one is named, as `e8=Q`.
#[derive(Clone, Copy, Debug, PartialEq, Eq)]
pub struct End {
    pub to: Square,
    pub promotion: Option<Promotion>,
}

/// The parts of a move's text, `[letter][file][rank][x]square[[=]promotion]`: of `Nbxd2` the letter of a knight, the
/// file b, `x` and the end square `d2`.
#[derive(Clone, Copy, Debug, PartialEq, Eq)]
pub struct Parts {
    /// The kind of piece that the letter names. `None` if there is no letter: for a pawn (`exd5`), which has none, and
    /// for any piece in coordinates (`g1f3`).
    pub letter: Option<Kind>,
    /// The file of the start square, 0 for a, if it is written.
    pub file: Option<u8>,
    /// The rank of the start square, 0 for rank 1, if it is written.
    pub rank: Option<u8>,
    /// Whether `x` is written.
    pub takes: bool,
    /// The end square, and the promotion if one is written.
    pub end: End,
}

// Whether a byte is one of the marks `+`, `#`, `!` and `?`. Inlined with `without_mark` of usual.rt.
#[inline(always)]
pub(crate) fn is_mark(byte: u8) -> bool
    ensures { result ≡ is_mark byte }
{
    byte == b'+' || byte == b'#' || byte == b'!' || byte == b'?'
}

// The text without the run of marks at its end: `Qh4` for `Qh4#`.
#[tactic(auto, unfolding(crate::specs::Parts::unmarked))]
pub(crate) fn unmarked(text: &[u8]) -> &[u8]
    ensures { result.now ≡ unmarked text.now }
{
    let mut end = text.len();
    while end > 0 && is_mark(text[end - 1]) {
        end -= 1;
    }
    &text[..end]
}

// The kind of piece that a move's text names by this letter; `None` for a pawn's, which no text has, and for any other
// byte. Inlined for usual.rt.
#[tactic(auto, using(crate::proofs::TextLetters::lettered))]
#[inline(always)]
pub(crate) fn lettered_kind(byte: u8) -> Option<Kind>
    ensures { result ≡ kind_from lettered_kinds byte }
{
    match Kind::from_letter(byte) {
        Some(Kind::Pawn) => None,
        kind => kind,
    }
}

// The promotion whose letter is the one that this piece has in FEN, so a small one for Black's; `equals` says whether
// `=` was before it. `None` for a king or a pawn, which no pawn becomes.
fn promotion_to(equals: bool, man: Man) -> Option<Promotion>
    ensures { result ≡ promotion_to equals man }
{
    if man.kind == Kind::King || man.kind == Kind::Pawn {
        return None;
    }
    Some(Promotion {
        kind: man.kind,
        equals,
        small: man.colour == Colour::Black,
    })
}

// The promotion to the piece with that letter, capital or small (`Q` or `q`); `equals` says whether `=` was before it.
// `None` if a pawn can't become such a piece, or if no piece has that letter.
#[tactic(auto, using(crate::proofs::PromotionLetters::no_promotion, crate::proofs::PromotionLetters::promotion_found))]
fn promotion_by(equals: bool, letter: u8) -> Option<Promotion>
    ensures { result ≡ promotion_by equals letter }
{
    let man = Man::from_letter(letter)?;
    promotion_to(equals, man)
}

// The promotion that the text after the end square denotes (`Q`, `q`, `=Q` or `=q`): `Some(None)` if that text is
// empty, `None` if it is neither empty nor just a promotion.
fn read_promotion(text: &[u8]) -> Option<Option<Promotion>>
    ensures { result ≡ promotion_at text.now }
{
    match text {
        [] => Some(None),
        [letter] => promotion_by(false, *letter).map(Some),
        [b'=', letter] => promotion_by(true, *letter).map(Some),
        _ => None,
    }
}

// The end square and promotion that a text denotes, if it has just these, as `e4` or `e8=Q`; otherwise `None`.
fn read_end(text: &[u8]) -> Option<End>
    ensures { result ≡ end_at text.now }
{
    let [file, rank, rest @ ..] = text else {
        return None;
    };
    let to = Square::from_letters(*file, *rank)?;
    let promotion = read_promotion(rest)?;
    Some(End { to, promotion })
}

// Whether a text of the form `[x]end`, as `xd5` or `e8=Q`, begins with `x`, and its end square and promotion; `None`
// for any other text.
fn read_takes(text: &[u8]) -> Option<(bool, End)>
    ensures { result ≡ takes_at text.now }
{
    match text {
        [b'x', rest @ ..] => Some((true, read_end(rest)?)),
        _ => Some((false, read_end(text)?)),
    }
}

// The parts of a text of the form `[rank][x]end`, as `1xf3` or `f3`: the start rank if it is named, whether `x` is
// there, and the end square with its promotion; `None` for any other text.
fn read_rank(text: &[u8]) -> Option<(Option<u8>, bool, End)>
    ensures { result ≡ rank_at text.now }
{
    match text {
        [rank @ b'1'..=b'8', rest @ ..] => {
            let (takes, end) = read_takes(rest)?;
            Some((Some(*rank - b'1'), takes, end))
        }
        _ => {
            let (takes, end) = read_takes(text)?;
            Some((None, takes, end))
        }
    }
}

// The parts of the text after the piece's letter, which is given. Its first file letter belongs to the end square if
// the text can be read so (`e4`), otherwise it is the start file (`exd5`).
fn read_file(letter: Option<Kind>, text: &[u8]) -> Option<Parts>
    ensures { result ≡ file_at letter text.now }
{
    if let Some((rank, takes, end)) = read_rank(text) {
        return Some(Parts {
            letter,
            file: None,
            rank,
            takes,
            end,
        });
    }
    match text {
        [file @ b'a'..=b'h', rest @ ..] => {
            let (rank, takes, end) = read_rank(rest)?;
            Some(Parts {
                letter,
                file: Some(*file - b'a'),
                rank,
                takes,
                end,
            })
        }
        _ => None,
    }
}

// The parts (letter, start file, start rank, `x`, end square, promotion) of a move's text without marks; `None` if it
// isn't made of such parts.
pub(crate) fn read_parts(text: &[u8]) -> Option<Parts>
    ensures { result ≡ parts_at text.now }
{
    let [first, rest @ ..] = text else {
        return None;
    };
    match lettered_kind(*first) {
        None => read_file(None, text),
        letter => read_file(letter, rest),
    }
}
