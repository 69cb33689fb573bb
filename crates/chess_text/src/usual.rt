//! The texts of which games in PGN are full: `e4`, `Nf3`, `exd5`, `Nxd5` and `Nbd2`, perhaps with one mark after them.
//! `usual_parts` reads the parts of such a text in one step; `read_form`, which goes part by part, would read the same
//! (`usual_form` in proofs/UsualForms). For all other texts `usual_parts` returns `None`, and `read_any_move` of
//! reading.rt reads them.
//!
//! With all texts read part by part, verifying games took 1.04 times as long (the workload collections; this was faster
//! in 34 of 41 runs). All functions here are inlined for the reason at the head of reading.rt.

ghost use Rattle.std.specs.Prelude.{◌≡◌, true};
ghost use Rattle.chess_text.specs.Parts.{unmarked};
ghost use Rattle.chess_text.specs.ties.Usual.{names_square, parts_to, four_at, usual_at};

use crate::parts::{End, Parts, is_mark, lettered_kind};
use chess_base::{Kind, Square};

// The text without the mark (`+`, `#`, `!` or `?`) at its end, if there is one; usual texts have at most one.
#[tactic(auto, using(crate::proofs::UsualForms::one_mark))]
#[inline(always)]
pub(crate) fn without_mark(text: &[u8]) -> &[u8]
    ensures { unmarked result.now ≡ unmarked text.now }
{
    let [rest @ .., last] = text else {
        return text;
    };
    if is_mark(*last) { rest } else { text }
}

// The parts with this letter, start file and `x`, and the end square with this file's letter and this rank's digit. The
// callers' patterns know that these name a square, so there is no `None` here as from `Square::from_letters`.
#[inline(always)]
fn parts_to(letter: Option<Kind>, file: Option<u8>, takes: bool, to_file: u8, to_rank: u8) -> Parts
    requires { names_square to_file to_rank ≡ true }
    ensures { result ≡ parts_to letter file takes to_file to_rank }
{
    Parts {
        letter,
        file,
        rank: None,
        takes,
        end: End {
            to: Square::new(8 * (to_rank - b'1') + (to_file - b'a')),
            promotion: None,
        },
    }
}

// The parts of a text of four bytes, as `exd5`, `Nxd5` or `Nbd2`, whose last two name a square; `None` for any other.
#[inline(always)]
fn read_four(first: u8, second: u8, to_file: u8, to_rank: u8) -> Option<Parts>
    requires { names_square to_file to_rank ≡ true }
    ensures { result ≡ four_at first second to_file to_rank }
{
    if second == b'x' {
        if matches!(first, b'a'..=b'h') {
            return Some(parts_to(None, Some(first - b'a'), true, to_file, to_rank));
        }
        let kind = lettered_kind(first)?;
        return Some(parts_to(Some(kind), None, true, to_file, to_rank));
    }
    if !matches!(second, b'a'..=b'h') {
        return None;
    }
    let kind = lettered_kind(first)?;
    Some(parts_to(Some(kind), Some(second - b'a'), false, to_file, to_rank))
}

// The parts of a text of a usual shape, without marks: `e4`, `Nf3`, `exd5`, `Nxd5` or `Nbd2`; `None` for any other.
#[inline(always)]
pub(crate) fn usual_parts(text: &[u8]) -> Option<Parts>
    ensures { result ≡ usual_at text.now }
{
    match text {
        [file @ b'a'..=b'h', rank @ b'1'..=b'8'] => Some(parts_to(None, None, false, *file, *rank)),
        [letter, file @ b'a'..=b'h', rank @ b'1'..=b'8'] => {
            let kind = lettered_kind(*letter)?;
            Some(parts_to(Some(kind), None, false, *file, *rank))
        }
        [first, second, file @ b'a'..=b'h', rank @ b'1'..=b'8'] => {
            read_four(*first, *second, *file, *rank)
        }
        _ => None,
    }
}
