//! Colours, pieces, castling rights and moves.

ghost use Rattle.std.specs.Prelude.{◌≡◌, None, Some};
ghost use Rattle.chess_base.specs.Coordinates.{coordinate};
ghost use Rattle.chess_base.specs.Letters.{colour_word, kind_word};
ghost use Rattle.chess_base.specs.Men.{other, is_of, is_man, same_kind, same_colour};

use crate::square::Square;
use std::fmt;

/// The two players and their pieces (Laws of Chess 2023, article 1.1).
#[derive(Clone, Copy, Debug, PartialEq, Eq, PartialOrd, Ord, Hash)]
pub enum Colour {
    White,
    Black,
}

impl Colour {
    /// The opponent's colour.
    pub fn other(self) -> Self
        ensures { result ≡ other self }
    {
        match self {
            Colour::White => Colour::Black,
            Colour::Black => Colour::White,
        }
    }
}

/// Whether two colours are the same: `==`, with a contract in the words of the definitions.
pub fn same_colour(colour: Colour, other: Colour) -> bool
    ensures { result ≡ same_colour colour other }
{
    match (colour, other) {
        (Colour::White, Colour::White) => true,
        (Colour::Black, Colour::Black) => true,
        (Colour::White, Colour::Black) => false,
        (Colour::Black, Colour::White) => false,
    }
}

impl fmt::Display for Colour {
    ghost output = { λ c. Some (colour_word c) };

    // Writes `white` or `black`.
    fn fmt<W: fmt::Write>(&self, f: &mut fmt::Formatter<W>) -> fmt::Result {
        f.write_str(match self {
            Colour::White => "white",
            Colour::Black => "black",
        })
    }
}

/// The kinds of piece (Laws of Chess 2023, article 2.2).
#[derive(Clone, Copy, Debug, PartialEq, Eq, PartialOrd, Ord, Hash)]
pub enum Kind {
    King,
    Queen,
    Rook,
    Bishop,
    Knight,
    Pawn,
}

impl fmt::Display for Kind {
    ghost output = { λ k. Some (kind_word k) };

    // Writes the kind as an English word, as `knight`.
    fn fmt<W: fmt::Write>(&self, f: &mut fmt::Formatter<W>) -> fmt::Result {
        f.write_str(match self {
            Kind::King => "king",
            Kind::Queen => "queen",
            Kind::Rook => "rook",
            Kind::Bishop => "bishop",
            Kind::Knight => "knight",
            Kind::Pawn => "pawn",
        })
    }
}

/// Which rules hold for castling: those of normal chess, or of Chess960, which CECP calls fischerandom (Laws of Chess
/// 2023, guideline II).
#[derive(Clone, Copy, Debug, PartialEq, Eq, PartialOrd, Ord, Hash)]
pub enum Variant {
    Normal,
    Fischerandom,
}

/// A piece of one colour and kind, as a white knight.
#[derive(Clone, Copy, Debug, PartialEq, Eq, Hash)]
pub struct Man {
    pub colour: Colour,
    pub kind: Kind,
}

/// The side to which a king castles (Laws of Chess 2023, article 3.8.2): towards the h-file, or towards the a-file.
#[derive(Clone, Copy, Debug, PartialEq, Eq, Hash)]
pub enum CastlingSide {
    KingSide,
    QueenSide,
}

/// A colour's castling rights: on each side of the king, the square of the rook with which it may castle.
#[derive(Clone, Copy, Debug, PartialEq, Eq, Hash)]
pub struct ColourRights {
    pub king_side: Option<Square>,
    pub queen_side: Option<Square>,
}

impl ColourRights {
    /// The castling rights of a colour that has none.
    pub fn none() -> Self
        ensures king_side { result.king_side ≡ None }
        ensures queen_side { result.queen_side ≡ None }
    {
        ColourRights {
            king_side: None,
            queen_side: None,
        }
    }
}

/// The castling rights of both colours (Laws of Chess 2023, article 3.8.2.1). In FEN, White's are `K` and `Q`,
/// Black's `k` and `q`; in Chess960 they are written as the files of their rooks.
#[derive(Clone, Copy, Debug, PartialEq, Eq, Hash)]
pub struct Rights {
    pub white: ColourRights,
    pub black: ColourRights,
}

impl Rights {
    /// The castling rights of a position where neither colour has any.
    ///
    /// ```
    /// let setup = Setup { rights: Rights::none(), ..*position.setup() };
    /// ```
    pub fn none() -> Self
        ensures white_king_side { result.white.king_side ≡ None }
        ensures white_queen_side { result.white.queen_side ≡ None }
        ensures black_king_side { result.black.king_side ≡ None }
        ensures black_queen_side { result.black.queen_side ≡ None }
    {
        Rights {
            white: ColourRights::none(),
            black: ColourRights::none(),
        }
    }
}

/// A move: its start and end squares, and what a pawn becomes on its last rank (Laws of Chess 2023, article 3.7).
/// Castling is named by the king's squares, in Chess960 by the king's and its rook's, en passant by the pawn's. The
/// default, from a1 to a1, is no piece's move: a filler in a list. Moves are ordered as the list of legal moves: by
/// start square, end square and promotion.
///
/// ```
/// let m: Move = "e7e8q".parse()?;
/// println!(rt; "{m}")?;
/// ```
#[derive(Clone, Copy, Debug, Default, PartialEq, Eq, PartialOrd, Ord, Hash)]
pub struct Move {
    pub from: Square,
    pub to: Square,
    pub promotion: Option<Kind>,
}

impl fmt::Display for Move {
    ghost output = { λ m. Some (coordinate m) };

    // Writes the move as its squares and the letter of its promotion: `e2e4`, `e7e8q`.
    fn fmt<W: fmt::Write>(&self, f: &mut fmt::Formatter<W>) -> fmt::Result {
        write!(f, "{}{}", self.from, self.to)?;
        match self.promotion {
            None => Ok(()),
            Some(kind) => f.write_char(kind.small_letter() as char),
        }
    }
}
