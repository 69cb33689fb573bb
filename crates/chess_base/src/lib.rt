//! Squares, pieces, moves and sound positions, and the rules of chess in plain form.
//!
//! ```
//! let position = Position::initial();
//! let m: Move = "e2e4".parse()?;
//! let is_legal = position.is_legal(m);
//! println!(rt; "{m} is legal: {is_legal}")?;
//! ```
#![tactic(auto)]

mod after;
mod attack;
mod before;
mod by_colour;
mod castling;
mod fen_fault;
mod initial;
mod laws;
mod legality;
mod letters;
mod line;
mod man;
mod parsing;
mod pawns;
mod position;
pub mod rules;
mod setup;
mod sound;
mod square;
mod steps;

pub use by_colour::ByColour;
pub use fen_fault::FenFault;
pub use laws::{orders_are_derived, reserve_never_grows};
pub use man::{CastlingSide, Colour, ColourRights, Kind, Man, Move, Rights, Variant, same_colour};
pub use parsing::{ParseMoveError, ParseSquareError};
pub use position::Position;
pub use setup::{COUNTER_LIMIT, MOST_MOVES, Saved, Setup};
pub use square::{Square, squares_are_named};
