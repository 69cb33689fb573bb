//! Reading a FEN in a variant, and asserting what comes of it, for the other tests.

use chess_base::{FenFault, Variant};
use chess_fen::{FenText, read_fen, read_fen_as, write_fen};
use std::process::Abort;

/// What is to come of a text: `Same`, what is written of its position is this text; `Written`, it is another one; or
/// the text is refused with this fault.
#[derive(Clone, Copy)]
pub enum Wanted {
    Same,
    Written(&'static [u8]),
    Refused(FenFault),
}

// What comes of a text: its position's variant and what is written of it, or the fault.
fn reading(variant: Variant, text: &[u8]) -> Result<(Variant, FenText), FenFault> {
    let position = match variant {
        Variant::Normal => read_fen(text)?,
        Variant::Fischerandom => read_fen_as(variant, text)?,
    };
    Ok((position.variant(), write_fen(&position)))
}

// Whether that is what was wanted of this text in this variant.
fn is_wanted(
    found: &Result<(Variant, FenText), FenFault>,
    variant: Variant,
    text: &[u8],
    wanted: Wanted,
) -> bool {
    match (found, wanted) {
        (Ok((read, written)), Wanted::Same) => *read == variant && written.as_slice() == text,
        (Ok((read, written)), Wanted::Written(other)) => *read == variant
            && written.as_slice() == other,
        (Err(found), Wanted::Refused(fault)) => *found == fault,
        _ => false,
    }
}

/// Reads a text in this variant, and asserts what comes of it.
pub fn check(rt: &impl Abort, variant: Variant, text: &[u8], wanted: Wanted) {
    let found = reading(variant, text);
    assert!(rt;
        is_wanted(&found, variant, text, wanted),
        "{text:?} is read as {found:?}"
    );
}

/// The same for each row of a table.
pub fn check_all(rt: &impl Abort, variant: Variant, rows: &[(&[u8], Wanted)]) {
    for (text, wanted) in rows {
        check(rt, variant, text, *wanted);
    }
}
