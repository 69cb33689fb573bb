//! The field of a FEN that is shown for its fault, and the reason.

ghost use Rattle.std.specs.Prelude.{◌≡◌, ◌≤◌, ◌-◌, not, take_while, length, ◌==◌};
ghost use Rattle.byte_devices.specs.Bytes.{byte, space};
ghost use Rattle.pgn_pieces.specs.Pieces.{drop_while};
ghost use Rattle.pgn_verifier.specs.WrongParts.{fen_reason, from_field, field_at, field_number};

use byte_devices::split_while;
use chess_base::FenFault;
use text_lines::short_number;

// The text after the spaces at its front.
fn after_spaces(text: &[u8]) -> &[u8]
    ensures value { result.now ≡ drop_while (λ c. c == space) text.now }
    ensures shorter { length result.now ≤ length text.now }
{
    split_while(text, |byte| byte == b' ').1
}

// The text from its first space on; empty if it has none.
fn from_space(text: &[u8]) -> &[u8]
    ensures value { result.now ≡ drop_while (λ c. not (c == space)) text.now }
    ensures shorter { length result.now ≤ length text.now }
{
    split_while(text, |byte| byte != b' ').1
}

// A FEN from its field with this number on, 0 for the first.
#[tactic(auto, unfolding(crate::specs::WrongParts::from_field))]
fn from_field(number: usize, fen: &[u8]) -> &[u8]
    ensures value { result.now ≡ from_field number fen.now }
    ensures shorter { length result.now ≤ length fen.now }
{
    let mut rest = fen;
    let mut left = number;
    while left > 0 {
        rest = from_space(after_spaces(rest));
        left -= 1;
    }
    after_spaces(rest)
}

// The field of a FEN with this number, 0 for the first; empty if the FEN has no such field.
fn field_at(number: usize, fen: &[u8]) -> &[u8]
    ensures { result.now ≡ field_at number fen.now }
{
    split_while(from_field(number, fen), |byte| byte != b' ').0
}

// The number of the field that is shown for a fault of a FEN, 0 for the first. Of the counters it is the halfmove
// clock, or if that is a number of at most 6 digits, the fullmove number. For a fault of the placement, or of no single
// field, it is the first.
fn field_number(fault: FenFault, fen: &[u8]) -> usize
    ensures { result ≡ field_number fault fen.now }
{
    match fault {
        FenFault::Side => 1,
        FenFault::Castling => 2,
        FenFault::EnPassant => 3,
        FenFault::Counters => {
            if short_number(field_at(4, fen), 6).is_some() {
                5
            } else {
                4
            }
        }
        _ => 0,
    }
}

/// `text` begins with the value of a tag FEN, after its first quote. These are its bytes before the next quote, all if
/// it has none, which are taken as the FEN. A quote after a backslash ends them too, although the value continues.
pub(crate) fn fen_text(text: &[u8]) -> &[u8]
    ensures value { result.now ≡ take_while (λ c. not (c == byte "\"")) text.now }
    ensures shorter { length result.now ≤ length text.now }
{
    split_while(text, |byte| byte != b'"').0
}

/// The field of a FEN that is shown for its fault.
pub(crate) fn wrong_field(fault: FenFault, fen: &[u8]) -> &[u8]
    ensures { result.now ≡ field_at (field_number fault fen.now) fen.now }
{
    field_at(field_number(fault, fen), fen)
}

/// How many bytes a FEN has before the field that is shown for its fault.
pub(crate) fn field_offset(fault: FenFault, fen: &[u8]) -> usize
    ensures value { result ≡ length fen.now - length (from_field (field_number fault fen.now) fen.now) }
    ensures within { result ≤ length fen.now }
{
    fen.len() - from_field(field_number(fault, fen), fen).len()
}

/// The reason for a bad FEN: the name of its fault, and of a bad castling field also how it was read.
pub(crate) fn fen_reason(fault: FenFault) -> &'static [u8]
    ensures value { result.now ≡ fen_reason fault }
    ensures short { length result.now ≤ 77 }
{
    match fault {
        FenFault::Castling => b"castling, as in normal chess unless the tag Variant names Chess960",
        _ => fault.name().as_bytes(),
    }
}
