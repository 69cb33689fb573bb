use rules_laws::{
    a_game_ends_where_no_move_is_legal, attacks_are_mirrored, castling_ends_on_named_squares,
    castling_needs_named_squares, en_passant_follows_a_double_advance, endings_are_mirrored,
    first_moves_are_these, games_are_mirrored, halfmove_clocks_count_quiet_moves,
    insufficient_material_never_mates, known_endings_are_judged, known_fens_are_refused,
    known_games_end, known_lines_lead_to_these_fens, known_moves_are_written,
    known_positions_are_the_same, known_positions_have_so_many_moves, known_texts_denote_moves,
    lines_end_at_the_first_piece, moves_are_mirrored, moves_are_numbered, pieces_reach_by_tables,
    repetitions_and_quiet_moves_end_a_game, results_are_worded, tags_are_in_order,
};

// Laws of how pieces move, of special moves, and of mirrored games.
#[test]
fn laws_of_moves_are_called() {
    pieces_reach_by_tables();
    lines_end_at_the_first_piece();
    castling_ends_on_named_squares();
    castling_needs_named_squares();
    en_passant_follows_a_double_advance();
    first_moves_are_these();
    known_games_end();
    attacks_are_mirrored();
    endings_are_mirrored();
    games_are_mirrored();
    moves_are_mirrored();
}

// Laws of how games end.
#[test]
fn laws_of_endings_are_called() {
    a_game_ends_where_no_move_is_legal();
    repetitions_and_quiet_moves_end_a_game();
    halfmove_clocks_count_quiet_moves();
    insufficient_material_never_mates();
}

// Laws of positions that are written out.
#[test]
fn laws_of_known_positions_are_called() {
    known_endings_are_judged();
    known_fens_are_refused();
    known_lines_lead_to_these_fens();
    known_positions_are_the_same();
    known_positions_have_so_many_moves();
}

// Laws of moves, results and tags as they are written.
#[test]
fn laws_of_texts_are_called() {
    known_moves_are_written();
    known_texts_denote_moves();
    moves_are_numbered();
    results_are_worded();
    tags_are_in_order();
}
