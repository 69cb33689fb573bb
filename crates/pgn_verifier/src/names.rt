//! What names a game in the line of its fault: with `--names` its players, event and date.

ghost use Rattle.pgn_verifier.specs.declared.names.TheConstants.{NAMES_LEN};
ghost use Rattle.std.specs.Prelude.{◌≡◌, ◌≤◌, ◌+◌, ◌++◌, length};
ghost use Rattle.arrayvec.specs.ArrayVec.{array_vec_len};
ghost use Rattle.pgn_tokens.specs.Tokens.{tokens_from};
ghost use Rattle.byte_devices.specs.Bytes.{after_byte_order_mark};
ghost use Rattle.pgn_verifier.specs.Reports.{shown_tag};
ghost use Rattle.pgn_verifier.specs.laws.Reported.{names_at};

use crate::shown::shown_beginning;
use arrayvec::ArrayVec;
use byte_devices::append;
use chess_pgn::tag_text;

// Room for the end of a line that names a game: four tags of 40 bytes, and at least 9 bytes more.
const NAMES_LEN: usize = 170;

/// The end of a line that names a game, such as ` | Anand - Carlsen, WCh 2013.11.09`; empty if the line is not to name
/// it.
pub(crate) type NamesText = ArrayVec<u8, NAMES_LEN>;

// Appends the value of the last tag with this name, of the game that is read from the offset `at` of a text on: its
// first 40 bytes, as they are shown; `?` if the game has no such tag.
fn append_tag(names: &mut NamesText, text: &[u8], at: usize, name: &[u8])
    requires at { at ≤ length text.now }
    requires room { array_vec_len names.old + 40 ≤ NAMES_LEN }
    ensures text { names.new.items ≡ names.old.items
        ++ shown_tag (tokens_from text.now (after_byte_order_mark text.now at)) name.now }
    ensures len { array_vec_len names.new ≤ array_vec_len names.old + 40 }
{
    match tag_text(text, at, name) {
        Some(value) => append(names, shown_beginning(value).as_slice()),
        None => append(names, b"?"),
    }
}

/// The end of a line that names the game that is read from the offset `at` of a text on, by its tags: ` | White -
/// Black, Event Date`.
pub(crate) fn game_names(text: &[u8], at: usize) -> NamesText
    requires { at ≤ length text.now }
    ensures { result.items ≡ names_at text.now at }
{
    let mut names = NamesText::new();
    append(&mut names, b" | ");
    append_tag(&mut names, text, at, b"White");
    append(&mut names, b" - ");
    append_tag(&mut names, text, at, b"Black");
    append(&mut names, b", ");
    append_tag(&mut names, text, at, b"Event");
    append(&mut names, b" ");
    append_tag(&mut names, text, at, b"Date");
    names
}
