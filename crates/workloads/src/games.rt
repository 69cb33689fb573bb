//! Reading the games of a text.

use chess_game::Game;
use chess_moves::Board;
use chess_pgn::{PgnFault, read_pgn};

/// How many games were read, and their half-moves.
#[derive(Clone, Copy, Debug, PartialEq, Eq)]
pub struct Tally {
    pub games: u64,
    pub half_moves: u64,
}

/// Reads all games of a PGN text, and counts them and their half-moves.
///
/// # Errors
/// The fault of the first game that can't be read.
pub fn read_games<B: Board>(text: &[u8], game: &mut Game<B>) -> Result<Tally, PgnFault> {
    let mut tally = Tally {
        games: 0,
        half_moves: 0,
    };
    let mut at = 0;
    while let Some(end) = read_pgn(text, at, game)? {
        tally.games = tally.games.saturating_add(1);
        tally.half_moves = tally.half_moves.saturating_add(game.ply() as u64);
        at = end.offset;
    }
    Ok(tally)
}
