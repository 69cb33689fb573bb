//! A match between two engines that are started as processes: its games one after another, the PGN of each, the score,
//! and the log.
//!
//! ```
//! let plan = GamesPlan {
//!     white: "sjeng",
//!     black: "phalanx",
//!     white_level: "40 5 0".parse()?,
//!     black_level: "40 5 0".parse()?,
//!     patience: Patience::ENDLESS,
//!     draws: Draws::Claimed,
//!     start: Position::initial(),
//!     games: 2,
//!     date: "????.??.??",
//!     log: true,
//! };
//! let mut output = Counted::writing(Vec::<u8>::new(alloc));
//! let mut log = Log::new(Counted::writing(Vec::<u8>::new(alloc)));
//! play_games(rt, alloc, &plan, &mut output, &mut log)?;
//! ```
#![tactic(auto)]

mod fault;
mod games;
mod host;
mod host_table;
mod log;
mod memory_host;
mod moments;
mod pipes;
mod process_host;
mod score;
mod table;

pub use chess_match::GamesPlan;
pub use fault::GamesFault;
pub use games::{play_games, play_games_at, play_games_with};
pub use host::{Engines, Host};
pub use log::{Log, run_match_logged};
pub use memory_host::{MemoryClock, MemoryEngine, MemoryGame, MemoryHost};
pub use moments::SinceStart;
pub use process_host::ProcessHost;
pub use table::GamesTable;
