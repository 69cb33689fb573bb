//! Laws of the program and of its arguments, each the contract of a function that does nothing. They are in a crate of
//! their own so that the program's first build doesn't wait for their proofs.
#![tactic(auto)]

mod arguments;
mod program;

pub use arguments::{
    options_are_worked_out, plain_arguments_are_read, plain_arguments_are_refused,
    plain_arguments_are_taken, plans_are_named, verify_is_as_asked,
};
pub use program::{
    limits_are_as_stated, plain_arguments_are_followed, plain_arguments_do_what_they_say,
    refused_arguments_are_reported, statuses_are_stated, stub_lines_are_answered,
};
