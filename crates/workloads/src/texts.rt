//! Texts of games, as collections have them.

use crate::random::Random;
use crate::walk::Texts;
use std::alloc::AllocError;

/// A game to be written: its number in the collection, its moves in SAN and its outcome.
#[derive(Clone, Copy)]
pub struct Record<'a> {
    pub number: usize,
    pub texts: &'a Texts,
    pub outcome: &'a [u8],
    /// Whether one of its moves is written wrong.
    pub has_fault: bool,
}

/// Adds the bytes of `piece` to the text.
///
/// # Errors
/// If memory runs out.
pub fn add(text: &mut Vec<u8>, piece: &[u8]) -> Result<(), AllocError> {
    text.extend_from_slice(piece)
}

/// Adds a number in decimal.
///
/// # Errors
/// If memory runs out.
pub fn add_number(text: &mut Vec<u8>, number: usize) -> Result<(), AllocError> {
    let mut buffer = itoa::Buffer::new();
    text.extend_from_slice(buffer.format(number).as_bytes())
}

/// Adds a tag with its line end.
///
/// # Errors
/// If memory runs out.
pub fn add_tag(text: &mut Vec<u8>, name: &[u8], value: &[u8]) -> Result<(), AllocError> {
    add(text, b"[")?;
    add(text, name)?;
    add(text, b" \"")?;
    add(text, value)?;
    add(text, b"\"]\n")
}

// Adds a tag with its line end; its value is the text `value` and then the number.
fn add_number_tag(
    text: &mut Vec<u8>,
    name: &[u8],
    value: &[u8],
    number: usize,
) -> Result<(), AllocError> {
    add(text, b"[")?;
    add(text, name)?;
    add(text, b" \"")?;
    add(text, value)?;
    add_number(text, number)?;
    add(text, b"\"]\n")
}

// The sites that games name in their tags.
const SITES: [&[u8]; 4] = [
    b"Hall of the club, table 4",
    b"Reykjavik ISL",
    b"https://example.org/game",
    b"?",
];

/// The names of players in tags; a number follows each.
const NAMES: [&[u8]; 6] = [
    b"Anderssen, Adolf ",
    b"Morphy, Paul Charles ",
    b"Polgar, J ",
    b"Engine 14.2 avx2 ",
    b"Zukertort, Johannes Hermann ",
    b"Menchik, Vera ",
];

/// The codes of openings (ECO) in tags.
const OPENINGS: [&[u8]; 5] = [b"A04", b"B33", b"C42", b"D85", b"E97"];

/// Adds the tags of a game, some 250 bytes, without the empty line after them.
///
/// # Errors
/// If memory runs out.
pub fn add_tags(
    text: &mut Vec<u8>,
    number: usize,
    outcome: &[u8],
    random: &mut Random,
) -> Result<(), AllocError> {
    add_number_tag(text, b"Event", b"Match of the towns, part ", number / 64)?;
    add_tag(text, b"Site", random.one_of(&SITES))?;
    add_number_tag(text, b"Date", b"2024.10.", 10 + random.below(20))?;
    add_number_tag(text, b"Round", b"", 1 + random.below(11))?;
    add_number_tag(text, b"White", random.one_of(&NAMES), random.below(4000))?;
    add_number_tag(text, b"Black", random.one_of(&NAMES), random.below(4000))?;
    add_tag(text, b"Result", outcome)?;
    add_number_tag(text, b"WhiteElo", b"", 1600 + random.below(1200))?;
    add_number_tag(text, b"BlackElo", b"", 1600 + random.below(1200))?;
    add_tag(text, b"ECO", random.one_of(&OPENINGS))?;
    add_tag(text, b"TimeControl", b"40/5400+30:1800+30")
}

// Adds the number before the half-move `ply`, counted from 0: `12.` before White's, `12...` before Black's.
fn add_move_number(text: &mut Vec<u8>, ply: usize) -> Result<(), AllocError> {
    add_number(text, ply / 2 + 1)?;
    if ply % 2 == 0 {
        add(text, b".")
    } else {
        add(text, b"...")
    }
}

// Adds a line feed if the line that begins at the offset `start` has more than 72 bytes, otherwise a space; returns the
// offset at which the present line begins. In a plain game a token has at most 7 bytes, so that a line has at most 80.
fn next_token(text: &mut Vec<u8>, start: usize) -> Result<usize, AllocError> {
    if text.len().saturating_sub(start) > 72 {
        add(text, b"\n")?;
        return Ok(text.len());
    }
    add(text, b" ")?;
    Ok(start)
}

// What is written in place of a move where a game has a fault.
const FAULTS: [&[u8]; 5] = [b"Qxh9", b"O-O-O", b"Kd5", b"{", b"e4e5e6"];

// The half-move that is written wrong, counted from 0; if the record has no fault, a number that no half-move has.
fn fault_ply(record: &Record<'_>, random: &mut Random) -> usize {
    if record.has_fault {
        random.below(record.texts.len())
    } else {
        usize::MAX
    }
}

/// Adds a game with its moves and numbers alone, in lines of up to 80 columns.
///
/// # Errors
/// If memory runs out.
pub fn add_plain(
    text: &mut Vec<u8>,
    record: &Record<'_>,
    random: &mut Random,
) -> Result<(), AllocError> {
    add(text, b"\n")?;
    let fault = fault_ply(record, random);
    let mut start = text.len();
    for (ply, san) in record.texts.as_slice().iter().enumerate() {
        if ply % 2 == 0 {
            add_move_number(text, ply)?;
            start = next_token(text, start)?;
        }
        if ply == fault {
            add(text, random.one_of(&FAULTS))?;
        } else {
            add(text, san.as_slice())?;
        }
        start = next_token(text, start)?;
    }
    add(text, record.outcome)?;
    add(text, b"\n\n")
}

// Adds a comment with an evaluation and a clock's time. Their four numbers are made of parts of one random number.
fn add_clock(text: &mut Vec<u8>, random: &mut Random) -> Result<(), AllocError> {
    let bits = random.next() as usize;
    add(text, b"{ [%eval ")?;
    add_number(text, bits % 4)?;
    add(text, b".")?;
    add_number(text, 10 + bits / 4 % 90)?;
    add(text, b"] [%clk 0:0")?;
    add_number(text, bits / 512 % 10)?;
    add(text, b":")?;
    add_number(text, 10 + bits / 8192 % 50)?;
    add(text, b"] }")
}

/// Adds a game with a comment of an evaluation and a clock's time after each half-move, on one line.
///
/// # Errors
/// If memory runs out.
pub fn add_clocks(
    text: &mut Vec<u8>,
    record: &Record<'_>,
    random: &mut Random,
) -> Result<(), AllocError> {
    add(text, b"\n")?;
    let fault = fault_ply(record, random);
    for (ply, san) in record.texts.as_slice().iter().enumerate() {
        add_move_number(text, ply)?;
        add(text, b" ")?;
        if ply == fault {
            add(text, random.one_of(&FAULTS))?;
        } else {
            add(text, san.as_slice())?;
        }
        add(text, b" ")?;
        add_clock(text, random)?;
        add(text, b" ")?;
    }
    add(text, record.outcome)?;
    add(text, b"\n\n")
}

// The comments that an annotator writes after a half-move: in both forms, some with commands in them or over two lines.
const REMARKS: [&[u8]; 5] = [
    b"{Better was the other knight.}",
    b"{An old line, which came into fashion once more\nafter the match of 1972; White has the centre.}",
    b"{!?}",
    b"; to the end of the line\n",
    b"{[%cal Gd2d4,Ge2e4] with the idea of an early f4}",
];

/// The glyphs that an annotator writes after a half-move.
const GLYPHS: [&[u8]; 6] = [b"$1", b"$2", b"$14", b"$146", b"$5", b"$18"];

// Adds a variation that begins at the half-move `ply`, of two to seven moves from the beginning of the record (which
// needn't be legal there), and sometimes another variation inside it.
fn add_variation(
    text: &mut Vec<u8>,
    record: &Record<'_>,
    ply: usize,
    random: &mut Random,
) -> Result<(), AllocError> {
    add(text, b"(")?;
    add_move_number(text, ply)?;
    for (at, san) in record
        .texts
        .as_slice()
        .iter()
        .take(2 + random.below(6))
        .enumerate()
    {
        add(text, b" ")?;
        add(text, san.as_slice())?;
        if at == 2 && random.once_in(3) {
            add(text, b" (")?;
            add_move_number(text, ply)?;
            add(text, b" Nf3 {is quieter} d5)")?;
        }
    }
    add(text, b")")
}

// Adds what an annotator writes after the half-move `ply`: a glyph once in 6 times, a remark once in 9, a variation
// once in 16.
fn add_annotation(
    text: &mut Vec<u8>,
    record: &Record<'_>,
    ply: usize,
    random: &mut Random,
) -> Result<(), AllocError> {
    if random.once_in(6) {
        add(text, b" ")?;
        add(text, random.one_of(&GLYPHS))?;
    }
    if random.once_in(9) {
        add(text, b" ")?;
        add(text, random.one_of(&REMARKS))?;
    }
    if random.once_in(16) {
        add(text, b" ")?;
        add_variation(text, record, ply, random)?;
    }
    Ok(())
}

/// Adds a game with marks, glyphs, comments and variations, in lines.
///
/// # Errors
/// If memory runs out.
pub fn add_annotated(
    text: &mut Vec<u8>,
    record: &Record<'_>,
    random: &mut Random,
) -> Result<(), AllocError> {
    add(text, b"\n")?;
    let fault = fault_ply(record, random);
    let mut start = text.len();
    for (ply, san) in record.texts.as_slice().iter().enumerate() {
        if ply % 2 == 0 {
            add_move_number(text, ply)?;
            start = next_token(text, start)?;
        }
        if ply == fault {
            add(text, random.one_of(&FAULTS))?;
        } else {
            add(text, san.as_slice())?;
        }
        if random.once_in(12) {
            add(text, b"!?")?;
        }
        add_annotation(text, record, ply, random)?;
        start = next_token(text, start)?;
    }
    add(text, record.outcome)?;
    add(text, b"\n\n")
}
