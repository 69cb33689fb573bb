//! Laws of what the program does with its arguments, of its exit statuses, and of its limits. A caller learns one by
//! calling its function, which does nothing.

ghost use Rattle.std.specs.Prelude.{◌≡◌, [], ◌∷◌, codes};
ghost use Rattle.chess_base.specs.declared.setup.TheConstants.{COUNTER_LIMIT};
ghost use Rattle.chess_game.specs.declared.game.TheConstants.{MOST_MOVES};
ghost use Rattle.chess_cecp.specs.declared.session.TheConstants.{COMMAND_LEN};
ghost use Rattle.chess_match.specs.declared.run.TheConstants.{ENGINE_LINE_LEN};
ghost use Rattle.pgn_pieces.specs.declared.pieces.TheConstants.{PIECE_LEN};
ghost use Rattle.arbiter_laws.specs.Programs.{PlainArgumentsAreFollowed, RefusesArguments, ServesSession, ShowsHelp, VerifiesGames};
ghost use Rattle.arbiter_laws.specs.Statuses.{StatusesAreStated};
ghost use Rattle.arbiter_laws.specs.StubLines.{StubLinesAreAnswered};

use crate::arguments::{
    plain_arguments_are_read, plain_arguments_are_refused, plain_arguments_are_taken,
    plans_are_named, verify_is_as_asked,
};

/// States a law and does nothing: whenever the program runs with plain arguments, it does what they say. Or it reads
/// nothing, writes nothing to its output, starts nothing and has the status 1, as memory ran out, or 2, as a level, the
/// FEN or the date of a match, or a kind after `--ignore`, is invalid. Plain arguments are an empty command line;
/// `session`; `verify` or `match` with options, in any order and each at most once (`match` at least with `--white` and
/// `--black`); or `stub` with what it plays. No value begins with a hyphen.
pub fn plain_arguments_are_followed()
    ensures { PlainArgumentsAreFollowed }
{
    // The prover wants this law of the arguments: what they are read as.
    plain_arguments_are_read();
}

/// States a law and does nothing: whenever the program runs without arguments or with `session` alone, it runs a
/// session; with `verify` alone it verifies games. In neither case does it start an engine. The grammar never refuses
/// such arguments.
pub fn plain_arguments_do_what_they_say()
    ensures none { ServesSession [] }
    ensures session { ServesSession (codes "session" ∷ []) }
    ensures verify { VerifiesGames (codes "verify" ∷ []) }
{
    // The prover wants these laws of the arguments: these are taken, and what they ask for is what is planned.
    plain_arguments_are_taken();
    plans_are_named();
    verify_is_as_asked();
}

/// States a law and does nothing: whenever the program runs with `--help` or `--version`, it writes some text to its
/// output, or fails to. `match` without options lacks its two engines, and is refused with status 2, or 1, as when
/// memory ran out. In each case it reads nothing and starts nothing.
pub fn refused_arguments_are_reported()
    ensures help { ShowsHelp (codes "--help" ∷ []) }
    ensures version { ShowsHelp (codes "--version" ∷ []) }
    ensures bare_match { RefusesArguments (codes "match" ∷ []) }
{
    // The prover wants this law of the arguments: how each of them is refused.
    plain_arguments_are_refused();
}

/// States a law and does nothing: the exit status is 2 for arguments that `clap` refuses, for an invalid level, FEN,
/// date or kind of fault, and for an argument that is no text; it is 1 if memory ran out. That of `verify` is 1 if a
/// fault was reported or something failed, otherwise 0. That of a session, of a stub and of a match is 1 if it failed,
/// otherwise 0.
///
/// It refuses the status 1 for a bad level, and 0 for a match that was not played to its end.
pub fn statuses_are_stated()
    ensures { StatusesAreStated }
{}

/// States a law and does nothing: what a stub answers to some lines, byte by byte, and what it plays with one argument
/// left, with none, and with a move and `offer`.
///
/// It refuses features that are not said to version 1 of the protocol, a stub that plays on after `new`, and an offer
/// that is played as a move.
pub fn stub_lines_are_answered()
    ensures { StubLinesAreAnswered }
{}

/// States a law and does nothing: the limits that definitions name by constants are 20,000 half-moves of a game,
/// 999,999 for a FEN's counters, and, in bytes, 1,024 for a session's line, 8,192 for an engine's line, and 16,777,216
/// for a piece of a PGN collection.
pub fn limits_are_as_stated()
    ensures moves { MOST_MOVES ≡ 20000 }
    ensures counters { COUNTER_LIMIT ≡ 999999 }
    ensures commands { COMMAND_LEN ≡ 1024 }
    ensures engine_lines { ENGINE_LINE_LEN ≡ 8192 }
    ensures pieces { PIECE_LEN ≡ 16777216 }
{}
