//! Laws of sessions: that games which chess_pgn reads are accepted, that a move is taken back, that a position that was
//! shown is set again, what some lines are answered, that a refusal changes nothing, that in normal chess the commands
//! do what a table for normal chess only says, and that no answer depends on how reads cut the bytes. Each is the
//! contract of a function that does nothing. They are in a crate of their own so that no program waits for their
//! proofs, and no session for the reader of games.
#![tactic(auto)]

mod game;
mod laws;
mod lines;

pub use game::{shown_fens_are_set, undo_takes_a_move_back};
pub use laws::{
    normal_chess_keeps_its_rows, read_games_are_accepted, reads_change_no_answer,
    refusals_change_nothing,
};
pub use lines::{game_lines_are_answered, other_words_are_unknown, session_lines_are_answered};
