//! The letters of castling rights.

ghost use Rattle.std.specs.Prelude.{◌≡◌, ◌<◌, [], None, codes};
ghost use Rattle.std.specs.List.{list_all};
ghost use Rattle.chess_fen.specs.Texts.{occurs, may_name_right, first_letter, names_file};
ghost use Rattle.chess_fen.specs.RightNames.{side_letter, right_letter, is_towards};
ghost use Rattle.chess_fen.specs.ties.Loops.{edge_file};
ghost use Rattle.chess_fen.specs.ties.Reader.{times, names_once, are_right_letters, right_named, nowhere, outer_rook, named_square, one_or_nowhere, right_after_letters, right_by_letters};
ghost use Rattle.chess_base.specs.Castling.{home_square, king_square, rook_file, rights_by};
ghost use Rattle.chess_base.specs.declared.man.CastlingSide.TheVariants.{KingSide, QueenSide};
ghost use Rattle.chess_base.specs.declared.man.Variant.TheVariants.{Normal, Fischerandom};

use chess_base::rules::{home_square, is_man, king_square, rook_file};
use chess_base::{CastlingSide, Colour, ColourRights, Kind, Man, Rights, Square, Variant};

// How often a letter occurs in a text.
fn times(text: &[u8], letter: u8) -> usize
    ensures { result ≡ times letter text.now }
{
    text.iter().filter(|byte| **byte == letter).count()
}

// Whether a letter is `K`, `Q`, `k` or `q`, which name a right by its side.
fn names_side(letter: u8) -> bool
    ensures { result ≡ occurs letter (codes "KQkq") }
{
    b"KQkq".as_slice().contains(&letter)
}

// Whether a letter is that of a file for a colour's rooks: `A` to `H` for White, `a` to `h` for Black.
fn names_file(colour: Colour, letter: u8) -> bool
    ensures { result ≡ names_file colour letter }
{
    first_letter(colour) <= letter && letter < first_letter(colour) + 8
}

// Whether a letter may name a castling right: `K`, `Q`, `k` or `q`, or in Chess960 that of a file.
#[tactic(auto, unfolding(crate::specs::Texts::may_name_right))]
fn may_name_right(variant: Variant, letter: u8) -> bool
    ensures { result ≡ may_name_right variant letter }
{
    match variant {
        Variant::Normal => names_side(letter),
        Variant::Fischerandom => {
            names_side(letter)
                || names_file(Colour::White, letter)
                || names_file(Colour::Black, letter)
        }
    }
}

// Whether a byte of a castling field's text may name a right, and occurs once in the text.
fn names_once(variant: Variant, text: &[u8], byte: u8) -> bool
    ensures { result ≡ names_once variant text.now byte }
{
    may_name_right(variant, byte) && times(text, byte) == 1
}

// Whether each byte of a text may name a right and occurs once in it.
fn each_names_once(variant: Variant, text: &[u8]) -> bool
    ensures { result ≡ list_all (names_once variant text.now) text.now }
{
    text.iter().all(|byte| names_once(variant, text, *byte))
}

// Whether a text is one to four letters that may name rights, none twice.
pub(crate) fn are_right_letters(variant: Variant, text: &[u8]) -> bool
    ensures { result ≡ are_right_letters variant text.now }
{
    !text.is_empty() && text.len() <= 4 && each_names_once(variant, text)
}

// The letter for a colour's castling right on that side: `K`, `Q`, `k` or `q`.
fn side_letter(colour: Colour, castling_side: CastlingSide) -> u8
    ensures { result ≡ side_letter colour castling_side }
{
    match (colour, castling_side) {
        (Colour::White, CastlingSide::KingSide) => b'K',
        (Colour::White, CastlingSide::QueenSide) => b'Q',
        (Colour::Black, CastlingSide::KingSide) => b'k',
        (Colour::Black, CastlingSide::QueenSide) => b'q',
    }
}

// The letter of file a for a colour's rooks in Chess960: `A` for White, `a` for Black.
fn first_letter(colour: Colour) -> u8
    ensures value { result ≡ first_letter colour }
    ensures in_range { result < 98 }
{
    match colour {
        Colour::White => b'A',
        Colour::Black => b'a',
    }
}

// The letter that is written for the castling right of a colour on a side, with the rook on the square `rook`: in
// normal chess `K`, `Q`, `k` or `q`, in Chess960 that of the rook's file, as `H` for White's rook on `h1`.
pub(crate) fn right_letter(
    variant: Variant,
    colour: Colour,
    castling_side: CastlingSide,
    rook: Square,
) -> u8
    ensures { result ≡ right_letter variant colour castling_side rook }
{
    match variant {
        Variant::Normal => side_letter(colour, castling_side),
        Variant::Fischerandom => first_letter(colour) + rook.file(),
    }
}

// Normal chess: a colour's castling right on a side, as its rook's square: the corner on that side, if the right's
// letter is in the castling field `letters`; otherwise `None`.
fn right_named(letters: &[u8], colour: Colour, castling_side: CastlingSide) -> Option<Square>
    ensures { result ≡ right_named letters.now (side_letter colour castling_side)
        (home_square colour (rook_file castling_side)) }
{
    if letters.contains(&side_letter(colour, castling_side)) {
        Some(home_square(colour, rook_file(castling_side)))
    } else {
        None
    }
}

// The next file in a search of all files from the edge on that side inwards, with `left` files left after it: with 7
// left the h-file on the king's side, the a-file on the queen's.
fn edge_file(castling_side: CastlingSide, left: u8) -> u8
    requires { left < 8 }
    ensures value { result ≡ edge_file castling_side left }
    ensures in_range { result < 8 }
{
    match castling_side {
        CastlingSide::KingSide => left,
        CastlingSide::QueenSide => 7 - left,
    }
}

// A square off the first ranks (a4), given as the rook's square of a right that is named wrongly. A right with its rook
// there is unsound, so the text is refused.
fn nowhere() -> Square
    ensures { result ≡ nowhere }
{
    Square::new(24)
}

// The square of the colour's rook on its first rank that is nearest to the edge on that side, even if it is not on that
// side of the king; `nowhere` if there is no rook.
fn outer_rook(men: &[Option<Man>; 64], colour: Colour, castling_side: CastlingSide) -> Square
    ensures { result ≡ outer_rook men.now colour castling_side }
{
    for left in (0..8).rev() {
        let square = home_square(colour, edge_file(castling_side, left));
        if is_man(colour, Kind::Rook, men[square.index()]) {
            return square;
        }
    }
    nowhere()
}

// Whether square `s`, which is on the king's rank, is on that side of him: for the queen's side, whether it is nearer
// to the a-file than he is; for the king's side, whether it is not. Without a king each square is on the king's side.
fn is_towards(castling_side: CastlingSide, king: Option<Square>, s: Square) -> bool
    ensures { result ≡ is_towards castling_side king s }
{
    let is_left = match king {
        None => false,
        Some(k) => s.number() < k.number(),
    };
    match castling_side {
        CastlingSide::KingSide => !is_left,
        CastlingSide::QueenSide => is_left,
    }
}

// Chess960: the rook's square by which this letter names the colour's right on that side; `None` if it names another
// right. `K`, `Q`, `k` and `q` name the outermost rook, the letter of a file names the square on that file of the first
// rank, if it is on that side of the king, who is on the square `king`.
fn named_square(
    men: &[Option<Man>; 64],
    king: &Option<Square>,
    colour: Colour,
    castling_side: CastlingSide,
    letter: u8,
) -> Option<Square>
    requires { king.now ≡ king_square men.now colour }
    ensures { result ≡ named_square men.now colour castling_side letter }
{
    if letter == side_letter(colour, castling_side) {
        return Some(outer_rook(men, colour, castling_side));
    }
    if !names_file(colour, letter) {
        return None;
    }
    let square = home_square(colour, letter - first_letter(colour));
    if is_towards(castling_side, *king, square) {
        Some(square)
    } else {
        None
    }
}

// Chess960: the rook's square of a castling right, from what the letters so far name (`first`) and what the next letter
// names (`second`). If both name the right, it is `nowhere`, so that the text is refused.
fn one_or_nowhere(first: Option<Square>, second: Option<Square>) -> Option<Square>
    ensures { result ≡ one_or_nowhere first second }
{
    match (first, second) {
        (None, second) => second,
        (first, None) => first,
        (Some(_), Some(_)) => Some(nowhere()),
    }
}

// Chess960: the castling right on that side of the colour, whose king is on the square `king`, that the letters of a
// castling field name, as the square of its rook; `None` if they don't name it.
fn right_of_letters(
    men: &[Option<Man>; 64],
    king: &Option<Square>,
    letters: &[u8],
    colour: Colour,
    castling_side: CastlingSide,
) -> Option<Square>
    requires { king.now ≡ king_square men.now colour }
    ensures { result ≡ right_after_letters men.now colour castling_side None letters.now }
{
    let mut found = None;
    for &letter in letters {
        let named = named_square(men, king, colour, castling_side, letter);
        found = one_or_nowhere(found, named);
    }
    found
}

// Normal chess: the castling rights of a colour that the letters of a castling field name.
fn normal_rights(letters: &[u8], colour: Colour) -> ColourRights
    ensures king_side { result.king_side ≡ right_by_letters Normal [] letters.now colour KingSide }
    ensures queen_side { result.queen_side ≡ right_by_letters Normal [] letters.now colour QueenSide }
{
    ColourRights {
        king_side: right_named(letters, colour, CastlingSide::KingSide),
        queen_side: right_named(letters, colour, CastlingSide::QueenSide),
    }
}

// Chess960: the castling rights of a colour that the letters of a castling field name. Its king is looked for once,
// since up to 64 squares are asked.
fn chess960_rights(men: &[Option<Man>; 64], letters: &[u8], colour: Colour) -> ColourRights
    ensures king_side { result.king_side ≡ right_by_letters Fischerandom men.now letters.now colour KingSide }
    ensures queen_side { result.queen_side ≡ right_by_letters Fischerandom men.now letters.now colour QueenSide }
{
    let king = &king_square(men, colour);
    ColourRights {
        king_side: right_of_letters(men, king, letters, colour, CastlingSide::KingSide),
        queen_side: right_of_letters(men, king, letters, colour, CastlingSide::QueenSide),
    }
}

// The four castling rights that the letters of a castling field name in a position with these pieces.
pub(crate) fn rights_by_letters(variant: Variant, men: &[Option<Man>; 64], letters: &[u8]) -> Rights
    ensures { result ≡ rights_by (right_by_letters variant men.now letters.now) }
{
    match variant {
        Variant::Normal => Rights {
            white: normal_rights(letters, Colour::White),
            black: normal_rights(letters, Colour::Black),
        },
        Variant::Fischerandom => Rights {
            white: chess960_rights(men, letters, Colour::White),
            black: chess960_rights(men, letters, Colour::Black),
        },
    }
}
