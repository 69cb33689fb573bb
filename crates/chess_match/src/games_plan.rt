//! The plan of a match's games.

use crate::draws::Draws;
use crate::patience::Patience;
use cecp_engine::Level;
use chess_base::Position;

/// How the games of a match are played.
#[derive(Clone, Copy)]
pub struct GamesPlan<'a> {
    /// The command of the first engine, which has White in the games 1, 3, 5 and so on.
    pub white: &'a str,
    /// The command of the second engine, which has Black in these games.
    pub black: &'a str,
    /// The time control of the first engine, in all games, also where it has Black.
    pub white_level: Level,
    /// The time control of the second engine, in all games.
    pub black_level: Level,
    /// How long the engines are waited for. Its limit for replies also holds for a write that can't go on, and for the
    /// end of an engine whose input is closed.
    pub patience: Patience,
    /// Whether draws by threefold repetition and by 50 moves must be claimed.
    pub draws: Draws,
    /// The position from which each game starts; its variant is the match's.
    pub start: Position,
    /// How many games are to be played.
    pub games: u16,
    /// The date in each game's tags.
    pub date: &'a str,
    /// Whether what the engines say and are sent is logged.
    pub log: bool,
}
