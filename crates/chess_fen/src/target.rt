//! The en passant target.

ghost use Rattle.std.specs.Prelude.{◌≡◌};
ghost use Rattle.chess_fen.specs.Texts.{target_of};

use chess_base::Square;

// What a FEN's fourth field denotes: by `-` no target (`Some(None)`), by the name of a square on rank 3 or 6 that
// square; `None` for any other text.
pub(crate) fn read_target(text: &[u8]) -> Option<Option<Square>>
    ensures { result ≡ target_of text.now }
{
    match text {
        b"-" => Some(None),
        [file, rank @ (b'3' | b'6')] => Square::from_letters(*file, *rank).map(Some),
        _ => None,
    }
}
