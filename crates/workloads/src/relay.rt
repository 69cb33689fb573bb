//! Relaying the moves of one long game between two engines in memory, with no witness.

use crate::matches::{Script, Talk, Ticking, ends, write_script};
use crate::random::Random;
use crate::walk::{Style, walk_on};
use cecp_engine::{Level, LevelFault};
use chess_base::{ByColour, Position};
use chess_bits::Bits;
use chess_game::Game;
use chess_match::{Draws, Patience, Setup, run_match};
use std::alloc::{AllocError, Global};

/// What two engines send in a match of at most `half_moves` half-moves with few captures, which is walked through in
/// `game`.
///
/// # Errors
/// If memory runs out.
pub fn long_script(
    alloc: Global,
    game: &mut Game<Bits<'_>>,
    half_moves: usize,
    random: &mut Random,
) -> Result<Script, AllocError> {
    let mut texts = Vec::new(alloc);
    game.restart(&Position::initial());
    walk_on(game, Style::Long, half_moves, random, &mut texts)?;
    write_script(alloc, game, &texts, Talk::Squares)
}

// Plays the match of a script, with this level of time for both sides, and returns how many half-moves it has.
fn play(alloc: Global, script: &Script, level: Level, game: &mut Game<Bits<'_>>) -> usize {
    let mut white = ends(alloc, script.white.as_slice());
    let mut black = ends(alloc, script.black.as_slice());
    let setup = Setup {
        start: Position::initial(),
        levels: ByColour {
            white: level,
            black: level,
        },
        patience: Patience::ENDLESS,
        draws: Draws::Claimed,
    };
    let mut clock = Ticking { moment: 0 };
    run_match(&mut white, &mut black, &mut clock, &setup, game);
    game.ply()
}

/// Plays the match of a script `times` times, and returns how many half-moves these matches have in all.
///
/// # Errors
/// None: `0 60 0` denotes a level.
pub fn relay(
    alloc: Global,
    times: u32,
    script: &Script,
    game: &mut Game<Bits<'_>>,
) -> Result<u64, LevelFault> {
    let level: Level = "0 60 0".parse()?;
    let mut half_moves: u64 = 0;
    for _ in 0..times {
        let played = play(alloc, script, level, game);
        half_moves = half_moves.saturating_add(played as u64);
    }
    Ok(half_moves)
}
