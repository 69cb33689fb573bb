//! Each law of chess_match_laws can be called, without a condition.

use chess_match_laws::{
    acts_are_in_order, agreed_draws_are_offered, answering_engines_lose_only_by_mate,
    automatic_draws_end_matches, bare_kings_are_worked_out, claims_are_worked_out,
    clocks_do_not_underflow, draw_claims_end_matches, each_is_sent_the_others,
    engine_lines_are_worked_out, engines_have_what_is_needed, failed_blocks_are_last,
    features_are_answered, games_are_lines, games_end_at_verdicts, go_is_sent_once,
    last_line_is_theirs, levels_are_parsed_back, levels_are_worked_out, lines_are_few, losers_lose,
    match_is_the_only_one, moves_are_read, moves_are_sent_once, moves_sent_are_known,
    notes_have_all, offers_are_passed_on, offers_are_worked_out, other_lines_are_ignored,
    pings_are_numbered, prefixes_are_as_asked, reply_times_are_worked_out,
    sent_lines_are_worked_out, setups_are_these_lines, silences_end_matches,
    silences_leave_no_line, time_forfeits_are_shown, times_are_clocks, turns_are_opened_once,
    used_times_are_differences, verdicts_end_matches,
};

#[test]
fn laws_are_called() {
    acts_are_in_order();
    automatic_draws_end_matches();
    agreed_draws_are_offered();
    answering_engines_lose_only_by_mate();
    bare_kings_are_worked_out();
    claims_are_worked_out();
    clocks_do_not_underflow();
    draw_claims_end_matches();
    each_is_sent_the_others();
    engine_lines_are_worked_out();
    engines_have_what_is_needed();
    failed_blocks_are_last();
    features_are_answered();
    games_are_lines();
    games_end_at_verdicts();
    go_is_sent_once();
    last_line_is_theirs();
    levels_are_parsed_back();
    levels_are_worked_out();
    lines_are_few();
    losers_lose();
    match_is_the_only_one();
    moves_are_read();
    moves_are_sent_once();
    moves_sent_are_known();
    notes_have_all();
    offers_are_passed_on();
    offers_are_worked_out();
    other_lines_are_ignored();
    pings_are_numbered();
    prefixes_are_as_asked();
    reply_times_are_worked_out();
    sent_lines_are_worked_out();
    setups_are_these_lines();
    silences_end_matches();
    silences_leave_no_line();
    time_forfeits_are_shown();
    times_are_clocks();
    turns_are_opened_once();
    used_times_are_differences();
    verdicts_end_matches();
}
