//! Each law of match_runner_laws, of match_pgn_laws and of arbiter_laws can be called, without a condition.

use arbiter_laws::{
    limits_are_as_stated, options_are_worked_out, plain_arguments_are_followed,
    plain_arguments_are_read, plain_arguments_are_refused, plain_arguments_are_taken,
    plain_arguments_do_what_they_say, plans_are_named, refused_arguments_are_reported,
    statuses_are_stated, stub_lines_are_answered, verify_is_as_asked,
};
use match_pgn_laws::{matches_pass_verify, scores_are_sums};
use match_runner_laws::{
    hosts_fix_matches, levels_stay_with_engines, logs_give_the_game, logs_have_one_reading,
    only_last_games_have_failed_writes, steps_might_come,
};

#[test]
fn laws_of_matches_are_called() {
    hosts_fix_matches();
    levels_stay_with_engines();
    logs_give_the_game();
    logs_have_one_reading();
    matches_pass_verify();
    only_last_games_have_failed_writes();
    scores_are_sums();
    steps_might_come();
}

#[test]
fn laws_of_the_program_are_called() {
    limits_are_as_stated();
    options_are_worked_out();
    plain_arguments_are_followed();
    plain_arguments_are_read();
    plain_arguments_are_refused();
    plain_arguments_are_taken();
    plain_arguments_do_what_they_say();
    plans_are_named();
    refused_arguments_are_reported();
    statuses_are_stated();
    stub_lines_are_answered();
    verify_is_as_asked();
}
