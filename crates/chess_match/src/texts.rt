//! The texts that are kept of the last move.

ghost use Rattle.std.specs.Prelude.{◌≡◌, ◌≤◌, length};
ghost use Rattle.chess_match.specs.ties.Texts.{text_in};

use chess_base::Colour;
use chess_text::{CoordinateText, SanText};

/// Both texts of a move, made when it is played: it is sent to the opponent only later, and then the game has gone on.
#[derive(Drop)]
pub(crate) struct MoveTexts {
    pub san: SanText,
    pub squares: CoordinateText,
}

/// The last move: its texts, and who is still to be sent it.
#[derive(Drop)]
pub(crate) struct LastMove {
    pub texts: MoveTexts,
    pub unsent_to: Option<Colour>,
}

impl MoveTexts {
    /// Of the two texts of the move the one in SAN, if `as_san`; otherwise the one by squares (`e2e4`).
    pub(crate) fn text(&self, as_san: bool) -> &[u8]
        ensures text { result.now ≡ text_in self.now as_san }
        ensures short { length result.now ≤ 7 }
    {
        if as_san {
            self.san.as_slice()
        } else {
            self.squares.as_slice()
        }
    }
}
