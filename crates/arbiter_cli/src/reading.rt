//! Reading the arguments.

ghost use Rattle.std.specs.Prelude.{◌≡◌, map, option_map};
ghost use Rattle.clap.specs.Words.{found_of, rows_of, subcommand_rows_of};
ghost use Rattle.arbiter_cli.specs.Plans.{IsReading};

use crate::fault::{WordsFault, refusal};
use crate::plan::{Plan, planned};
use crate::request::{Request, request_in};
use arbiter_grammar::parse;
use clap::ArgMatches;
use std::alloc::{AllocError, Global};

// The name of the subcommand among the arguments, with the options given after it; `None` without a subcommand.
fn entered<'m, 'a>(matches: &'m ArgMatches<'a>) -> Option<(&'a str, &'m ArgMatches<'a>)>
    ensures { option_map (λ p. (p.0.now, rows_of (found_of p.1.now))) result
        ≡ subcommand_rows_of matches.now }
{
    matches.subcommand()
}

/// Reads the arguments after the program's name, and returns the plan that they ask for.
///
/// # Errors
/// If `clap` refuses the arguments or asks to show help or the version, if memory runs out, if a level, the FEN or the
/// date of a match is invalid (the first of them), or if `--ignore` of `verify` names a kind that can't be ignored.
pub fn read_words<'a>(alloc: Global, arguments: &'a [&'a str]) -> Result<Plan<'a>, WordsFault>
    ensures { IsReading (map (λ w. w.now) arguments.entry.now) result }
{
    let matches = match parse(alloc, arguments) {
        Ok(matches) => matches,
        Err(error) => return Err(refusal(error)),
    };
    let request = match entered(&matches) {
        None => Request::Session,
        Some((name, found)) => match request_in(alloc, name, found) {
            Ok(request) => request,
            Err(AllocError) => return Err(WordsFault::NoMemory),
        },
    };
    planned(request)
}
