//! The letters of pieces, written and read: capital in SAN, capital or small in FEN.
//!
//! All functions are inlined: each is a choice of one of a few bytes, made for each piece of a FEN and each word of a
//! game. What that gains was not measured apart.

ghost use Rattle.std.specs.Prelude.{◌≡◌, ◌<◌};
ghost use Rattle.chess_base.specs.declared.man.Colour.TheVariants.{Black};
ghost use Rattle.chess_base.specs.Letters.{white_letter, letter_by, letter, kind_with_letter, kind_with_small_letter, man_with_letter};

use crate::man::{Colour, Kind, Man};

impl Kind {
    /// The kind's capital letter (PGN standard of 1994, section 8.2.3.2): `N` for a knight. SAN leaves out a pawn's,
    /// `P`; FEN has it.
    ///
    /// ```
    /// text.push(Kind::Knight.letter());
    /// ```
    #[inline(always)]
    pub fn letter(self) -> u8
        ensures value { result ≡ white_letter self }
        ensures ascii { result < 96 }
    {
        match self {
            Kind::Pawn => b'P',
            Kind::Knight => b'N',
            Kind::Bishop => b'B',
            Kind::Rook => b'R',
            Kind::Queen => b'Q',
            Kind::King => b'K',
        }
    }

    /// The kind's small letter, as in the promotion of `e7e8q`: `q` for a queen.
    ///
    /// ```
    /// text.push(Kind::Queen.small_letter());
    /// ```
    #[inline(always)]
    pub fn small_letter(self) -> u8
        ensures value { result ≡ letter_by Black self }
        ensures ascii { result < 128 }
    {
        self.letter() + (b'a' - b'A')
    }

    /// The kind of piece with this capital letter; `None` for any other byte.
    ///
    /// ```
    /// let kind = Kind::from_letter(b'N').ok_or("no letter of a piece")?;
    /// ```
    #[inline(always)]
    pub fn from_letter(byte: u8) -> Option<Self>
        ensures { result ≡ kind_with_letter byte }
    {
        match byte {
            b'P' => Some(Kind::Pawn),
            b'N' => Some(Kind::Knight),
            b'B' => Some(Kind::Bishop),
            b'R' => Some(Kind::Rook),
            b'Q' => Some(Kind::Queen),
            b'K' => Some(Kind::King),
            _ => None,
        }
    }

    /// The kind of piece with this small letter; `None` for any other byte.
    ///
    /// ```
    /// let promotion = Kind::from_small_letter(b'q').ok_or("no letter of a piece")?;
    /// ```
    #[inline(always)]
    pub fn from_small_letter(byte: u8) -> Option<Self>
        ensures { result ≡ kind_with_small_letter byte }
    {
        Kind::from_letter(byte.checked_sub(b'a' - b'A')?)
    }
}

impl Man {
    /// The piece's letter in FEN (PGN standard of 1994, section 16.1.3.1): `N` for a white knight, `n` for a black one.
    ///
    /// ```
    /// let knight = Man { colour: Colour::Black, kind: Kind::Knight };
    /// text.push(knight.letter());
    /// ```
    #[inline(always)]
    pub fn letter(self) -> u8
        ensures value { result ≡ letter self }
        ensures ascii { result < 128 }
    {
        match self.colour {
            Colour::White => self.kind.letter(),
            Colour::Black => self.kind.small_letter(),
        }
    }

    /// The piece with this letter in FEN; `None` for any other byte.
    ///
    /// ```
    /// let black_knight = Man::from_letter(b'n').ok_or("no letter of a piece")?;
    /// ```
    #[inline(always)]
    pub fn from_letter(byte: u8) -> Option<Self>
        ensures { result ≡ man_with_letter byte }
    {
        if let Some(kind) = Kind::from_letter(byte) {
            return Some(Man {
                colour: Colour::White,
                kind,
            });
        }
        let kind = Kind::from_small_letter(byte)?;
        Some(Man {
            colour: Colour::Black,
            kind,
        })
    }
}
