//! Inputs that are awkward: the shortest pieces, what is opened and never closed, long games, many queens.

use crate::boards::ask_walk;
use crate::collections::{CAREFUL, QUIET, verify_text};
use crate::digest::Digest;
use crate::random::Random;
use crate::sessions::answer_lines;
use crate::starts::{QUEENS, start_of};
use crate::texts::{Record, add, add_number, add_plain, add_tag};
use crate::walk::{Style, walk_on};
use chess_base::Position;
use chess_bits::{AttackTables, Bits};
use chess_game::{Game, MOST_MOVES};
use std::alloc::{AllocError, Global};

// What short pieces are made of: a line where moves may be, and a line that begins with `[`, as a tag line does. In all
// but the last text that is a tag line, at which a new piece begins.
const SHORT: [&[u8]; 4] = [
    b"x\n[a\"\n",
    b"x\n[a \"b\"]\n",
    b"1\n[Event \"\n",
    b"*\n[b\n",
];

// Beginnings of games in which a variation, a comment or a tag is opened and never closed.
const UNCLOSED: [&[u8]; 4] = [b"1. e4 (", b"1. d4 {", b"(((((((((", b"1. e4 e5 [x \"y"];

// A text of `count` of the shortest pieces that a collection can be cut into.
fn short_pieces(alloc: Global, count: usize, random: &mut Random) -> Result<Vec<u8>, AllocError> {
    let mut text = Vec::new(alloc);
    for _ in 0..count {
        add(&mut text, random.one_of(&SHORT))?;
    }
    Ok(text)
}

// A text of `count` pieces, in each of which a comment, a variation or a tag is opened and never closed.
fn unclosed_pieces(
    alloc: Global,
    count: usize,
    random: &mut Random,
) -> Result<Vec<u8>, AllocError> {
    let mut text = Vec::new(alloc);
    for number in 0..count {
        add_tag(&mut text, b"Event", b"")?;
        add(&mut text, random.one_of(&UNCLOSED))?;
        add_number(&mut text, number)?;
        add(&mut text, b"\n")?;
    }
    Ok(text)
}

// A text that is one piece: a comment, a variation or a tag is opened and never closed, and `lines` lines follow.
fn long_piece(alloc: Global, lines: usize, random: &mut Random) -> Result<Vec<u8>, AllocError> {
    let mut text = Vec::new(alloc);
    add(&mut text, random.one_of(&UNCLOSED))?;
    for number in 0..lines {
        add_number(&mut text, number)?;
        add(
            &mut text,
            b" and so on, without an end or a move in sight, ",
        )?;
        add(
            &mut text,
            random.one_of(&[b"[a]\n", b"\n", b"\t \n", b"(x) {\n"]),
        )?;
    }
    Ok(text)
}

// Makes `games` very long games, with few captures and moves of pawns, and verifies their text. It then runs a session
// that plays each of them, asks for its PGN, takes all its moves back and asks for the state.
fn long_games(
    alloc: Global,
    games: usize,
    random: &mut Random,
    digest: &mut Digest,
) -> Result<(), AllocError> {
    let tables = AttackTables::open(alloc)?;
    let mut game = Game::open(alloc, Bits::new(&tables), MOST_MOVES)?;
    let mut texts = Vec::new(alloc);
    let mut text = Vec::new(alloc);
    let mut lines = Vec::new(alloc);
    for number in 0..games {
        game.restart(&Position::initial());
        texts.clear();
        walk_on(&mut game, Style::Long, 8_000, random, &mut texts)?;
        let record = Record {
            number,
            texts: &texts,
            outcome: game.outcome().text(),
            has_fault: false,
        };
        add_plain(&mut text, &record, random)?;
        add(&mut lines, b"new\n")?;
        for san in texts.as_slice() {
            add(&mut lines, san.as_slice())?;
            add(&mut lines, b"\n")?;
        }
        add(&mut lines, b"showpgn\n")?;
        for _ in 0..game.ply() {
            add(&mut lines, b"undo\n")?;
        }
        add(&mut lines, b"showstate\n")?;
    }
    verify_text(alloc, CAREFUL, text.as_slice(), digest)?;
    answer_lines(alloc, lines.as_slice(), digest)
}

// Makes `walks` walks from positions with many queens, and asks each sixth position all that a board answers.
fn many_queens(
    alloc: Global,
    walks: usize,
    random: &mut Random,
    digest: &mut Digest,
) -> Result<(), AllocError> {
    let tables = AttackTables::open(alloc)?;
    let mut board = Bits::new(&tables);
    for _ in 0..walks {
        let start = start_of(random.one_of(&QUEENS));
        ask_walk(&mut board, &start, 11, 2, random, digest);
    }
    Ok(())
}

/// Does each of the awkward jobs: verifies short pieces, unclosed pieces, and a piece of many lines, 20,000 of each for
/// each of the `times` (at most 1,000); then plays `times` long games, and makes four times as many walks with queens.
///
/// # Errors
/// If memory runs out.
pub fn ask_awkward(
    alloc: Global,
    times: usize,
    random: &mut Random,
    digest: &mut Digest,
) -> Result<(), AllocError> {
    let count = times.min(1000).saturating_mul(20_000);
    let short = short_pieces(alloc, count, random)?;
    verify_text(alloc, QUIET, short.as_slice(), digest)?;
    let unclosed = unclosed_pieces(alloc, count, random)?;
    verify_text(alloc, CAREFUL, unclosed.as_slice(), digest)?;
    let long = long_piece(alloc, count, random)?;
    verify_text(alloc, QUIET, long.as_slice(), digest)?;
    long_games(alloc, times, random, digest)?;
    many_queens(alloc, times.saturating_mul(4), random, digest)
}
