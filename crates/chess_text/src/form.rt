//! What a text is read as, before any position is looked at.

ghost use Rattle.std.specs.Prelude.{◌≡◌};
ghost use Rattle.chess_text.specs.ties.Forms.{castling_named, form_of, same_side, form_fits, is_denoted};

use crate::described::{Described, describe, is_form, parts_fit};
use crate::parts::{Parts, read_parts, unmarked};
use chess_base::{CastlingSide, Move, Setup};

/// What the text of a move is read as before any position is looked at: castling to a side, or the parts of any other
/// text.
#[derive(Clone, Copy, Debug, PartialEq, Eq)]
pub enum Form {
    Castling(CastlingSide),
    Piece(Parts),
}

// The side to which a text, already without marks, denotes castling, with the letter O or the digit 0; `None` if it
// doesn't.
fn castling_named(text: &[u8]) -> Option<CastlingSide>
    ensures { result ≡ castling_named text.now }
{
    match text {
        b"O-O" | b"0-0" => Some(CastlingSide::KingSide),
        b"O-O-O" | b"0-0-0" => Some(CastlingSide::QueenSide),
        _ => None,
    }
}

// What a text is read as before any position is looked at: castling, or its parts, such as letter and end square;
// `None` if it hasn't the shape of a move.
#[tactic(auto, unfolding(crate::specs::ties::Forms::form_of))]
pub(crate) fn read_form(text: &[u8]) -> Option<Form>
    ensures { result ≡ form_of text.now }
{
    let text = unmarked(text);
    if let Some(castling_side) = castling_named(text) {
        return Some(Form::Castling(castling_side));
    }
    let parts = read_parts(text)?;
    if is_form(&parts) {
        Some(Form::Piece(parts))
    } else {
        None
    }
}

// Whether the text that was read as this form denotes the described move.
fn form_fits(form: &Form, d: &Described) -> bool
    ensures { result ≡ form_fits form.now d.now }
{
    match form {
        Form::Castling(castling_side) => d.castles == Some(*castling_side),
        Form::Piece(parts) => parts_fit(parts, d),
    }
}

// Whether the text that was read as this form denotes the move `m` of the position.
#[tactic(auto, unfolding(crate::specs::ties::Forms::is_denoted))]
pub(crate) fn is_denoted(form: &Form, setup: &Setup, m: &Move) -> bool
    ensures { result ≡ is_denoted form.now setup.now m.now }
{
    match describe(setup, m) {
        None => false,
        Some(d) => form_fits(form, &d),
    }
}
