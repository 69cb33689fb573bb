//! Second accounts of the rules of chess, as laws: each is the contract of a function that does nothing. By names of
//! squares, by tables and by whole lines they say again what the definitions of chess_base and chess_game say; some are
//! about the texts of moves and games. They are in a crate of their own so that no other crate waits for their proofs.
#![tactic(auto)]

mod endings;
mod known;
mod mirror;
mod moves;
mod texts;

pub use endings::{
    a_game_ends_where_no_move_is_legal, halfmove_clocks_count_quiet_moves,
    insufficient_material_never_mates, repetitions_and_quiet_moves_end_a_game,
};
pub use known::{
    known_endings_are_judged, known_fens_are_refused, known_lines_lead_to_these_fens,
    known_positions_are_the_same, known_positions_have_so_many_moves,
};
pub use mirror::{
    attacks_are_mirrored, endings_are_mirrored, games_are_mirrored, moves_are_mirrored,
};
pub use moves::{
    castling_ends_on_named_squares, castling_needs_named_squares,
    en_passant_follows_a_double_advance, first_moves_are_these, known_games_end,
    lines_end_at_the_first_piece, pieces_reach_by_tables,
};
pub use texts::{
    known_moves_are_written, known_texts_denote_moves, moves_are_numbered, results_are_worded,
    tags_are_in_order,
};
