//! The numbers of a FEN's counters.

ghost use Rattle.std.specs.Prelude.{◌≡◌};
ghost use Rattle.text_lines.specs.Words.{short_number};

use text_lines::short_number;

// The number of a FEN's counter, of one to six digits; none for any other text.
pub(crate) fn read_number(text: &[u8]) -> Option<u32>
    ensures { result ≡ short_number 6 text.now }
{
    short_number(text, 6)
}
