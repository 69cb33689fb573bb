//! Puzzle files and games of Chess960: each game has the FEN of its start.

use crate::collections::{QUIET, outcome_text, verify_text};
use crate::digest::Digest;
use crate::random::Random;
use crate::starts::fischerandom_start;
use crate::texts::{Record, add, add_number, add_plain, add_tag, add_tags};
use crate::walk::{Style, Texts, walk_on};
use chess_base::{Colour, Position, Variant};
use chess_bits::{AttackTables, Bits};
use chess_fen::write_fen;
use chess_game::{Game, MOST_MOVES};
use std::alloc::{AllocError, Global};

// Adds the tags that name the start of a game: its variant if it is Chess960, and its FEN.
fn add_start(text: &mut Vec<u8>, start: &Position) -> Result<(), AllocError> {
    if start.variant() == Variant::Fischerandom {
        add_tag(text, b"Variant", b"fischerandom")?;
    }
    add_tag(text, b"SetUp", b"1")?;
    add_tag(text, b"FEN", write_fen(start).as_slice())
}

// Adds the move number before the first move of a puzzle, such as `12. ` or `12... `.
fn add_first_number(text: &mut Vec<u8>, start: &Position) -> Result<(), AllocError> {
    add_number(text, start.setup().fullmove as usize)?;
    match start.side() {
        Colour::White => add(text, b". "),
        Colour::Black => add(text, b"... "),
    }
}

// Adds a puzzle: its tags, and none to three moves of the game from which it is taken, from the half-move `ply` on.
fn add_puzzle(
    text: &mut Vec<u8>,
    start: &Position,
    texts: &Texts,
    ply: usize,
    random: &mut Random,
) -> Result<(), AllocError> {
    add_tag(text, b"Event", b"Puzzle of the day")?;
    add_tag(text, b"Site", b"https://example.org/puzzle")?;
    add_tag(text, b"Result", b"*")?;
    add_start(text, start)?;
    add(text, b"\n")?;
    let count = random.below(4);
    if count > 0 {
        add_first_number(text, start)?;
    }
    for san in texts.as_slice().iter().skip(ply).take(count) {
        add(text, san.as_slice())?;
        add(text, b" ")?;
    }
    add(text, b"*\n\n")
}

// Adds a puzzle for each position of the game but the last, and the game itself if it is one of Chess960.
fn add_all(
    text: &mut Vec<u8>,
    game: &Game<Bits<'_>>,
    texts: &Texts,
    number: usize,
    random: &mut Random,
) -> Result<(), AllocError> {
    for ply in 0..game.ply() {
        add_puzzle(text, &game.position_at(ply), texts, ply, random)?;
    }
    if game.start().variant() == Variant::Fischerandom {
        let record = Record {
            number,
            texts,
            outcome: outcome_text(game, random),
            has_fault: random.once_in(1000),
        };
        add_tags(text, number, record.outcome, random)?;
        add_start(text, &game.start())?;
        add_plain(text, &record, random)?;
    }
    Ok(())
}

// Makes the puzzles of `games` games of random moves, every third one of Chess960.
fn make_puzzles(alloc: Global, games: usize, random: &mut Random) -> Result<Vec<u8>, AllocError> {
    let tables = AttackTables::open(alloc)?;
    let mut game = Game::open(alloc, Bits::new(&tables), MOST_MOVES)?;
    let mut texts = Vec::new(alloc);
    let mut text = Vec::new(alloc);
    for number in 0..games {
        if number % 3 == 2 {
            game.restart(&fischerandom_start(random));
        } else {
            game.restart(&Position::initial());
        }
        texts.clear();
        walk_on(
            &mut game,
            Style::Lively,
            60 + random.below(90),
            random,
            &mut texts,
        )?;
        add_all(&mut text, &game, &texts, number, random)?;
    }
    Ok(text)
}

/// Makes a file of puzzles out of `games` games of random moves, with games of Chess960 between them, verifies it, and
/// adds the reports to the digest.
///
/// # Errors
/// If memory runs out.
pub fn verify_puzzles(
    alloc: Global,
    games: usize,
    random: &mut Random,
    digest: &mut Digest,
) -> Result<(), AllocError> {
    let text = make_puzzles(alloc, games, random)?;
    verify_text(alloc, QUIET, text.as_slice(), digest)
}
