//! A game of chess: its start, its current moves and what was declared; how often a position occurred, what may be
//! claimed, and when the game is over.
//!
//! ```
//! let mut game = Game::open(alloc, Plain::new(), 300)?;
//! game.play(m)?;
//! if let Some(verdict) = game.verdict() {
//!     println!(rt; "{verdict}")?;
//! }
//! let m = game.take_back()?;
//! ```
#![tactic(auto)]

mod game;
mod index;
mod iter;
mod laws;
mod packed;
mod repetition;
mod result_text;
mod results;
mod tags;
mod verdicts;

pub use game::{BoardSaysOtherwise, Game, MOST_MOVES, NoMove, PlayRefusal};
pub use iter::{Moves, Positions};
pub use laws::equalities_are_derived;
pub use result_text::ParseOutcomeError;
pub use results::{Comment, Declared, Outcome};
pub use tags::{HowEnded, TagText};
pub use verdicts::{Claims, DrawClaim, Verdict};
