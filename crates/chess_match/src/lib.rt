//! A match between two chess engines by the Chess Engine Communication Protocol, version 2, from the
//! side of its arbiter.
//!
//! The engines are any two inputs and outputs:
//!
//! ```
//! let setup = Setup {
//!     start: Position::initial(),
//!     levels: ByColour {
//!         white: "40 5 0".parse()?,
//!         black: "0 1 1".parse()?,
//!     },
//!     patience: Patience::ENDLESS,
//!     draws: Draws::Claimed,
//! };
//! let mut white = Ends { reader: white_output, writer: white_input };
//! let mut black = Ends { reader: black_output, writer: black_input };
//! let end = run_match(&mut white, &mut black, &mut moments, &setup, &mut game);
//! println!(rt; "{}", end.outcome)?;
//! ```
#![tactic(auto)]

mod block;
mod compose;
mod desk;
mod draws;
mod events;
mod game;
mod games_plan;
mod handshake;
mod match_game;
mod moments;
mod note;
mod patience;
mod phase;
mod reason;
mod run;
mod send;
mod silence;
mod state;
mod table;
mod texts;
mod transitions;
mod turn;
mod witness;

pub use chess_game::DrawClaim;
pub use draws::Draws;
pub use games_plan::GamesPlan;
pub use moments::Moments;
pub use note::Note;
pub use patience::Patience;
pub use phase::Phase;
pub use reason::{MatchFault, Reason};
pub use run::{ENGINE_LINE_LEN, Ends, MatchEnd, Setup, run_match, run_match_at, run_match_watched};
pub use table::MatchTable;
pub use witness::Witness;
