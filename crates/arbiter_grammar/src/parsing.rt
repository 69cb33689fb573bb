//! Parsing the arguments.

ghost use Rattle.std.specs.Prelude.{IfOk, IfSome, map};
ghost use Rattle.clap.specs.Words.{subcommand_rows_of};
ghost use Rattle.arbiter_grammar.specs.Grammar.{IsComplete, IsParsed};

use crate::grammar::arbiter_command;
use clap::{ArgMatches, Error};
use std::alloc::Global;

/// Parses the arguments after the program's name into the subcommand, if one is named, and its options.
///
/// # Errors
/// What `clap` reports: invalid arguments, a text of help or of the version to show, or that it is out of memory.
pub fn parse<'a>(alloc: Global, arguments: &'a [&'a str]) -> Result<ArgMatches<'a>, Error>
    ensures parsed { IsParsed (map (λ a. a.now) arguments.entry.now) result }
    ensures complete { IfOk result (λ found. IfSome (subcommand_rows_of found) IsComplete) }
{
    arbiter_command(alloc)?.try_get_matches_from(arguments)
}
