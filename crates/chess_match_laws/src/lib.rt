//! Laws of the matches that chess_match plays, and one of the time controls that cecp_engine parses and writes. Each is
//! the contract of a function that does nothing. They are in a crate of their own so that no program waits for their
//! proofs.
#![tactic(auto)]

mod handshakes;
mod laws;
mod levels;
mod lines;
mod worked;

pub use handshakes::{engines_have_what_is_needed, features_are_answered, prefixes_are_as_asked};
pub use laws::{
    acts_are_in_order, agreed_draws_are_offered, answering_engines_lose_only_by_mate,
    automatic_draws_end_matches, clocks_do_not_underflow, each_is_sent_the_others,
    failed_blocks_are_last, games_are_lines, games_end_at_verdicts, go_is_sent_once,
    last_line_is_theirs, lines_are_few, match_is_the_only_one, moves_are_read, moves_are_sent_once,
    moves_sent_are_known, notes_have_all, offers_are_passed_on, pings_are_numbered,
    setups_are_these_lines, silences_end_matches, silences_leave_no_line, time_forfeits_are_shown,
    times_are_clocks, turns_are_opened_once, used_times_are_differences, verdicts_end_matches,
};
pub use levels::levels_are_parsed_back;
pub use lines::{draw_claims_end_matches, other_lines_are_ignored};
pub use worked::{
    bare_kings_are_worked_out, claims_are_worked_out, engine_lines_are_worked_out,
    levels_are_worked_out, losers_lose, offers_are_worked_out, reply_times_are_worked_out,
    sent_lines_are_worked_out,
};
