//! A fast board, which keeps sets of squares (bitboards) and looks attacks up in tables.
//!
//! It can be used in place of `Plain`:
//!
//! ```
//! let tables = AttackTables::open(alloc)?;
//! let mut game = Game::open(alloc, Bits::new(&tables), 300)?;
//! ```
#![tactic(auto)]

// What a board answers is put together from small functions. Most are `#[inline(always)]`: left to the compiler, some
// of them became calls, and walks that list, count, make and take back moves (as the workload boards does) took 4 %
// more instructions. A function with a reason of its own for it says so.
//
// A loop over a set calls its `take_first` and not its iterator; `Squares` of chess_moves says why.
//
// Some terms of the comments. A set of squares is a number of 64 bits, a1's the lowest and h8's the highest. An officer
// is a queen, rook, bishop or knight. A piece of the side on move is free if its king is safe wherever it goes, except
// perhaps by a capture en passant: it is not the king and not pinned, and the king is not in check. It is ordinary if
// it is free and no pawn that promotes with its next step or attacks the en passant target: then each square to which
// it goes gives it exactly one legal move.

mod between;
mod bits;
mod castling;
mod counting;
mod keys;
mod kinds;
mod king;
mod legality;
mod listing;
mod pawns;
mod pinning;
mod placing;
mod ray;
mod reaching;
mod sets;
mod sliding;
mod squares;
mod table;
mod tables;
mod targets;

pub use bits::Bits;
pub use tables::AttackTables;
