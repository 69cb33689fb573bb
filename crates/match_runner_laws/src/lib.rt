//! Laws of the games of a match, of its hosts and its log, each the contract of a function that does nothing. They are
//! in a crate of their own so that the program's first build doesn't wait for their proofs.
#![tactic(auto)]

mod games;
mod hosts;
mod logs;

pub use games::{levels_stay_with_engines, only_last_games_have_failed_writes};
pub use hosts::{hosts_fix_matches, steps_might_come};
pub use logs::{logs_give_the_game, logs_have_one_reading};
