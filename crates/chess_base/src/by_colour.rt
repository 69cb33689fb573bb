//! A value for each colour.

ghost use Rattle.std.specs.Prelude.{◌≡◌};
ghost use Rattle.std.specs.Borrow.{sem};
ghost use Rattle.chess_base.specs.ByColour.{of_colour};
ghost use Rattle.chess_base.specs.LentByColour.{LendsOfColour};

use crate::man::Colour;

/// A value for each colour: White's and Black's.
#[derive(Clone, Copy, Debug, PartialEq, Eq, Drop)]
pub struct ByColour<T> {
    pub white: T,
    pub black: T,
}

impl<T> ByColour<T> {
    /// The value of this colour.
    pub fn get(&self, colour: Colour) -> &T
        ensures { result.now ≡ of_colour self.now colour }
    {
        match colour {
            Colour::White => &self.white,
            Colour::Black => &self.black,
        }
    }

    /// The value of this colour, for writing.
    pub fn get_mut(&mut self, colour: Colour) -> &mut T
        ensures* writes_back { sem 𝓛 (LendsOfColour T.row self.entry colour result) }
        ensures value { result.now ≡ of_colour self.old colour }
    {
        match colour {
            Colour::White => &mut self.white,
            Colour::Black => &mut self.black,
        }
    }
}
