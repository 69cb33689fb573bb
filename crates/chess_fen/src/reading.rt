//! Reading a FEN.

ghost use Rattle.std.specs.Prelude.{◌≡◌, ℕ, List, ◌∷◌, None, IfOk, IfErr, Err};
ghost use Rattle.chess_base.specs.declared.man.Variant.{Variant};
ghost use Rattle.chess_base.specs.declared.setup.Setup.{Setup};
ghost use Rattle.chess_base.specs.Sound.{IsSound};
ghost use Rattle.chess_base.specs.declared.fen_fault.FenFault.{FenFault};
ghost use Rattle.chess_fen.specs.FenFaults.{IsFault, IsFaultAs};
ghost use Rattle.chess_fen.specs.Texts.{placement_of, fields_of};
ghost use Rattle.chess_fen.specs.Reading.{side_of, fen_reading, fen_reading_as};
ghost use Rattle.chess_fen.specs.ties.Reader.{rights_of, setup_with, setup_in};
ghost use Rattle.chess_fen.specs.Denotation.{DenotesFen, DenotesFenAs};

use crate::castling_rights::{are_right_letters, rights_by_letters};
use crate::fields::{Fields, next_field, read_fields, skip_spaces};
use crate::number::read_number;
use crate::placement::read_placement;
use crate::target::read_target;
use chess_base::{Colour, FenFault, Man, Position, Rights, Setup, Square, Variant};

// The side that a FEN's second field denotes, by `w` or `b`; none for any other text.
fn read_side(text: &[u8]) -> Option<Colour>
    ensures { result ≡ side_of text.now }
{
    match text {
        b"w" => Some(Colour::White),
        b"b" => Some(Colour::Black),
        _ => None,
    }
}

// The castling rights that a FEN's third field denotes in a position with these pieces; `None` if it is neither a dash
// nor letters that may name rights.
fn read_rights(variant: Variant, men: &[Option<Man>; 64], text: &[u8]) -> Option<Rights>
    ensures { result ≡ rights_of variant men.now text.now }
{
    if let b"-" = text {
        return Some(Rights::none());
    }
    if are_right_letters(variant, text) {
        Some(rights_by_letters(variant, men, text))
    } else {
        None
    }
}

// The position with these pieces that a FEN's fields after the first denote, read from left to right, sound or not; or
// the fault of the first of them that denotes nothing. A fullmove number of 0 is read as 1.
fn setup_with(
    variant: Variant,
    men: &[Option<Man>; 64],
    fields: &Fields<'_>,
) -> Result<Setup, FenFault>
    ensures { result ≡ setup_with variant men.now fields.now.side.now fields.now.castling.now fields.now.target.now
        fields.now.halfmove.now fields.now.fullmove.now }
{
    let side = read_side(fields.side).ok_or(FenFault::Side)?;
    let rights = read_rights(variant, men, fields.castling).ok_or(FenFault::Castling)?;
    let target = read_target(fields.target).ok_or(FenFault::EnPassant)?;
    let halfmove = read_number(fields.halfmove).ok_or(FenFault::Counters)?;
    let fullmove = read_number(fields.fullmove).ok_or(FenFault::Counters)?;
    Ok(Setup {
        variant,
        men: *men,
        side,
        rights,
        target,
        halfmove,
        fullmove: fullmove.max(1),
    })
}

// The fault of a text whose first field, if it has one, denotes no pieces: a wrong number of fields, or that field.
// Kept out of line, since few texts need it.
#[inline(never)]
fn no_pieces_fault(text: &[u8]) -> FenFault
    requires { (field : List ℕ) → (fields : List (List ℕ)) → fields_of text.now ≡ field ∷ fields
        → placement_of field ≡ None }
    ensures { (v : Variant) → setup_in v (fields_of text.now) ≡ Err result }
{
    let Some((_, rest)) = next_field(text) else {
        return FenFault::Fields;
    };
    match read_fields(rest) {
        None => FenFault::Fields,
        Some(_) => FenFault::Placement,
    }
}

// The position that a FEN denotes, sound or not; or the fault of the first field that denotes nothing, or of a wrong
// number of fields, which comes first. The pieces are read before the fields are counted, so that the longest field is
// gone over once.
fn read_setup(variant: Variant, text: &[u8]) -> Result<Setup, FenFault>
    ensures { result ≡ setup_in variant (fields_of text.now) }
{
    let mut men = [None; 64];
    let front = skip_spaces(text);
    let Some(rest) = read_placement(front, &mut men) else {
        return Err(no_pieces_fault(front));
    };
    match read_fields(rest) {
        None => Err(FenFault::Fields),
        Some(fields) => setup_with(variant, &men, &fields),
    }
}

// The sound position that a text denotes as a FEN of this variant; or the fault: a wrong number of fields, the first
// field that denotes nothing, or the first condition that fails.
fn denoted_position(variant: Variant, text: &[u8]) -> Result<Position, FenFault>
    ensures value { result ≡ fen_reading_as variant text.now }
    ensures sound { IfOk result IsSound }
{
    match read_setup(variant, text) {
        Ok(setup) => Position::new(setup),
        Err(fault) => Err(fault),
    }
}

/// The position of this variant that a text denotes as FEN (PGN standard of 1994, section 16.1), or the first fault of
/// the text. Only spaces (byte 32) separate the fields; there may be several, and at both ends too. In Chess960 a right
/// is named by the letter of its rook's file, or by `K`, `Q`, `k` or `q` as the outermost rook on that side.
pub fn read_fen_as(variant: Variant, text: &[u8]) -> Result<Position, FenFault>
    ensures value { result ≡ fen_reading_as variant text.now }
    // The text denotes what is read, which is sound.
    ensures found { IfOk result (λ p. DenotesFenAs variant text.now p × IsSound p) }
    // A sound position that the text denotes is read.
    ensures only { (p : Setup) → DenotesFenAs variant text.now p → IsSound p → result ≡ Ok p }
    // The fault that is returned is true of the text (specs/FenFaults).
    ensures fault { IfErr result (IsFaultAs variant text.now) }
    // A fault that is true of the text is the one returned.
    ensures refused { (f : FenFault) → IsFaultAs variant text.now f → result ≡ Err f }
{
    denoted_position(variant, text)
}

/// The position of normal chess that a text denotes as FEN (PGN standard of 1994, section 16.1), or the first fault of
/// the text. Only spaces (byte 32) separate the fields; there may be several, and at both ends too.
pub fn read_fen(text: &[u8]) -> Result<Position, FenFault>
    ensures value { result ≡ fen_reading text.now }
    // The text denotes what is read, which is sound.
    ensures found { IfOk result (λ p. DenotesFen text.now p × IsSound p) }
    // A sound position that the text denotes is read.
    ensures only { (p : Setup) → DenotesFen text.now p → IsSound p → result ≡ Ok p }
    // The fault that is returned is true of the text (specs/FenFaults).
    ensures fault { IfErr result (IsFault text.now) }
    // A fault that is true of the text is the one returned.
    ensures refused { (f : FenFault) → IsFault text.now f → result ≡ Err f }
{
    read_fen_as(Variant::Normal, text)
}
