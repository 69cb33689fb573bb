//! The program on an input, an output and an error output, with a host.

ghost use Rattle.std.specs.Prelude.{◌≡◌, ◌⊎◌, IfOk, List, Result, Ok, Err, cond, map};
ghost use Rattle.chess_cecp.specs.Held.{opened_session};
ghost use Rattle.pgn_writer.specs.Tags.{default_tags};
ghost use Rattle.chess_cecp.specs.Session.{session_response};
ghost use Rattle.match_runner.specs.Games.{report_of};
ghost use Rattle.match_runner.specs.GamesTable.{HostStep, PlaysGamesWith, StepsPass};
ghost use Rattle.match_runner.specs.Log.{LogSeen};
ghost use Rattle.match_runner.specs.declared.fault.GamesFault.{GamesFault};
ghost use Rattle.pgn_verifier.specs.Collection.{VerifiesCollection};
ghost use Rattle.pgn_verifier.specs.Verify.{Verifies};
ghost use Rattle.byte_devices.specs.Transfers.{Devices, Ran};
ghost use Rattle.chess_arbiter.specs.Program.{RanProgram, Reports, ReportsArguments, Serves, WritesHelp, status_of, verify_status};
ghost use Rattle.stub_engine.specs.Stub.{stub_response, waiting};
ghost use Rattle.chess_game.specs.declared.game.TheConstants.{MOST_MOVES};

use crate::fault::{ProgramFault, report, report_text, reported};
use arbiter_cli::{Plan, WordsFault, read_words};
use byte_devices::{Input, Output, send};
use chess_bits::{AttackTables, Bits};
use chess_cecp::{Session, run_session, serve_lines};
use chess_game::MOST_MOVES;
use clap::Error;
use match_runner::{GamesPlan, Host, Log, play_games_with};
use pgn_verifier::{Verified, VerifyFault, VerifyOptions, verify, verify_collection};
use pgn_writer::Tags;
use std::alloc::{AllocError, Global};
use std::fmt::Display;
use stub_engine::Stub;

// Opens a session at the initial position, of at most 20,000 half-moves, on boards that use these tables of attacks.
fn open_session<'t>(
    alloc: Global,
    tables: &'t AttackTables,
) -> Result<Session<Bits<'t>>, AllocError>
    ensures { IfOk result (λ s. s ≡ opened_session default_tags MOST_MOVES) }
{
    let board = Bits::new(tables);
    let scratch = Bits::new(tables);
    Session::open(alloc, board, scratch, Tags::default(), MOST_MOVES)
}

// The exit status of a command that ended with this outcome: 0, or 1 after a fault, which is written to the error
// output.
fn status_of<E: Output>(outcome: Result<(), ProgramFault>, errors: &mut E) -> u8
    ensures { result ≡ status_of outcome }
{
    match outcome {
        Ok(()) => 0,
        Err(fault) => reported(errors, &fault, 1),
    }
}

// Runs a session on the input and the output; returns a fault if input, output or memory failed.
fn session<R: Input, W: Output>(
    alloc: Global,
    input: &mut R,
    output: &mut W,
) -> Result<(), ProgramFault>
    ensures { (λ (d d' : Devices).
        Serves session_response (opened_session default_tags MOST_MOVES) d d' (status_of result)
        ⊎ ((d' ≡ d) × (status_of result ≡ 1)))
        (record { input = R.seen input.old; output = W.seen output.old })
        (record { input = R.seen input.new; output = W.seen output.new }) }
{
    let tables = AttackTables::open(alloc)?;
    let mut session = open_session(alloc, &tables)?;
    run_session(input, output, &mut session)?;
    Ok(())
}

// Runs a stub, an engine that plays these arguments, on the input and the output; returns a fault if input or output
// failed.
fn stub<R: Input, W: Output>(
    arguments: &[&str],
    input: &mut R,
    output: &mut W,
) -> Result<(), ProgramFault>
    ensures { Serves stub_response (waiting arguments.now)
        (record { input = R.seen input.old; output = W.seen output.old })
        (record { input = R.seen input.new; output = W.seen output.new }) (status_of result) }
{
    let mut stub = Stub::new(arguments);
    serve_lines(input, output, &mut stub)?;
    Ok(())
}

// The exit status after games were verified: 0 if none has a fault, otherwise 1.
fn verified_status(verified: Verified) -> u8
    ensures { result ≡ verify_status (Ok verified) }
{
    match verified {
        Verified::EachGame => 0,
        Verified::FaultReported => 1,
    }
}

// Verifies the input's games: with `--keep-going` piece by piece, also after faults; otherwise as one text up to its
// first fault.
fn verify_as<R: Input, W: Output>(
    alloc: Global,
    keep_going: bool,
    options: VerifyOptions,
    input: &mut R,
    output: &mut W,
) -> Result<Verified, VerifyFault>
    ensures { Ran (cond keep_going VerifiesCollection Verifies options result)
        (record { input = R.seen input.old; output = W.seen output.old })
        (record { input = R.seen input.new; output = W.seen output.new }) }
{
    if keep_going {
        verify_collection(alloc, options, input, output)
    } else {
        verify(alloc, options, input, output)
    }
}

// Verifies the input's games as the options ask, and returns the exit status: 0, or 1 if a game has a fault or
// something failed.
fn verified<R: Input, W: Output, E: Output>(
    alloc: Global,
    keep_going: bool,
    options: VerifyOptions,
    input: &mut R,
    output: &mut W,
    errors: &mut E,
) -> u8
    ensures { (found : Result Verified VerifyFault) × (result ≡ verify_status found)
        × Ran (cond keep_going VerifiesCollection Verifies options found)
        (record { input = R.seen input.old; output = W.seen output.old })
        (record { input = R.seen input.new; output = W.seen output.new }) }
{
    match verify_as(alloc, keep_going, options, input, output) {
        Ok(verified) => verified_status(verified),
        Err(fault) => reported(errors, &fault, 1),
    }
}

// Writes the text `help`, which is the help or the version, to the output; returns a fault if the output or memory
// failed.
fn write_help<W: Output, D: Display>(
    alloc: Global,
    help: &D,
    output: &mut W,
) -> Result<(), ProgramFault>
    ensures { WritesHelp (W.seen output.old) (W.seen output.new) (status_of result) }
{
    let text = format!(in alloc; "{help}")?;
    send(output, text.as_bytes())?;
    Ok(())
}

// Writes `text`, the help or the version, to the output, and returns the exit status: 0, or 1 if the output or memory
// failed.
fn help<W: Output, E: Output, D: Display>(
    alloc: Global,
    text: &D,
    output: &mut W,
    errors: &mut E,
) -> u8
    ensures { WritesHelp (W.seen output.old) (W.seen output.new) result }
{
    status_of(write_help(alloc, text, output), errors)
}

// What the error output says of a file that was named to `verify`.
const VERIFY_READS_INPUT: &str =
    "verify reads standard input: arbiter verify < games.pgn (files by name: verify_all)";

// Whether these arguments name a file to `verify`, as `verify games.pgn` does: it has only options, which begin with a
// hyphen, and the value of `--ignore`.
fn name_a_file(arguments: &[&str]) -> bool {
    match arguments {
        [command, others @ ..] => {
            *command == "verify"
                && arguments.iter().zip(others).any(|(before, word)| *before != "--ignore"
                    && !word.starts_with("-"))
        }
        [] => false,
    }
}

// Writes to the error output why `clap` refuses the arguments: its own text, but one line if they name a file to
// `verify`.
fn report_words<E: Output>(errors: &mut E, arguments: &[&str], error: &Error) {
    if name_a_file(arguments) {
        report(errors, &VERIFY_READS_INPUT);
    } else {
        report_text(errors, error);
    }
}

// Reports why there is no plan for these arguments, and returns the exit status: help and the version go to the output,
// all else to the error output.
fn report_arguments<W: Output, E: Output>(
    alloc: Global,
    arguments: &[&str],
    fault: &WordsFault,
    output: &mut W,
    errors: &mut E,
) -> u8
    ensures { ReportsArguments fault.now (W.seen output.old) (W.seen output.new) result }
{
    match fault {
        WordsFault::Words(error) => {
            if error.use_stderr() {
                report_words(errors, arguments, error);
                return 2;
            }
            help(alloc, error, output, errors)
        }
        WordsFault::NoMemory => reported(errors, fault, 1),
        WordsFault::BadLevel(_)
        | WordsFault::BadFen(_)
        | WordsFault::BadDate
        | WordsFault::BadKind => reported(errors, fault, 2),
    }
}

// Plays the games of a plan with a host: PGN and score go to `output`; the log, if asked for, and lines of engines that
// were killed go to `log`. Returns the exit status: 0, or 1 after a fault, which is reported where the log goes.
fn matched<H: Host, W: Output, E: Output>(
    host: &mut H,
    alloc: Global,
    plan: &GamesPlan<'_>,
    output: &mut W,
    log: &mut Log<E>,
) -> u8
    ensures { (λ (l l' : LogSeen). (steps : List HostStep) × StepsPass (H.to_come host.old) (H.to_come host.new) steps
        × (played : Result (Unit {0}) GamesFault) × (logged : LogSeen) × PlaysGamesWith plan.now played steps
        (record { output = W.seen output.old; log = l }) (record { output = W.seen output.new; log = logged })
        × (result ≡ status_of played) × Reports (report_of played) logged l')
        (record { output = E.seen log.old.output; broken = log.old.broken })
        (record { output = E.seen log.new.output; broken = log.new.broken }) }
{
    match play_games_with(host, alloc, plan, output, log) {
        Ok(()) => 0,
        Err(fault) => {
            log.report(&fault);
            1
        }
    }
}

/// Runs the program on its arguments, read as `arbiter_cli` reads them, and returns its exit status.
///
/// - No arguments, or `session`: a session of at most 20,000 half-moves.
/// - `verify`: the games of the input, one line for each up to the first fault. With `--keep-going` an input of any
///   length, cut into pieces: one begins at the first byte, at a tag line after a line of moves, and at a second Event
///   tag line. After a fault reading continues where its game ends, and totals follow at the end. `--quiet` leaves out
///   games without a fault; with `--strict` a result that contradicts the tag Result or the final position is a fault
///   too, and a variant that is not known, unless `--ignore` names the kind; with `--ignore after-end` neither fivefold
///   repetition nor 75 moves end a game; with `--variations` a fault in a variation is one, too; with `--spans` each
///   line says where its game is; with `--names` the line of a fault ends with the game's players, event and date; with
///   `--explain` a second line explains each fault.
/// - `match` with `--white`, `--black` and perhaps `--games`, `--level`, `--white-level`, `--black-level`, `--fen`,
///   `--variant`, `--draws`, `--date`, `--log`, `--flag` and `--reply-timeout`: games between two engines that the host
///   starts, the text of each game, and then the score. The input is left untouched.
/// - `stub`, and arguments to play: an engine that plays these on the input and the output.
/// - Help or the version, if `clap` asks for it: a text on the output. The input is left untouched.
///
/// The status is 0 if the session or the stub ended by its own command or the input's end, no game verified has a
/// fault, all games of the match were played, or help was shown; 1 if the input, the output or memory failed, the
/// input was too long, a game verified has a fault, or an engine could not be started or failed in a game; 2 for all
/// other arguments.
///
/// The host starts the engines of a match: [`ProcessHost`](crate::ProcessHost) as processes. The program starts nothing
/// by itself, as it is given no runtime.
///
/// The contract says what was read and written, which steps passed at the host (none but in a match), and the status.
/// After a match the error output has just the logs of its games if `--log` was given, a line for each engine that was
/// killed, and `arbiter: FAULT` after a fault. If a write to it fails, it has a beginning of these, and then nothing
/// more but `arbiter: FAULT`. What else is written to the error output only tests show: `arbiter: FAULT` if anything
/// but a match failed; what `clap` says of invalid arguments, but one line if a file is named to `verify`; and nothing
/// if a game verified has a fault.
pub fn run_program<'a, H: Host, R: Input, W: Output, E: Output>(
    host: &mut H,
    alloc: Global,
    arguments: &'a [&'a str],
    input: &mut R,
    output: &mut W,
    errors: &mut Log<E>,
) -> u8
    ensures { (steps : List HostStep) × StepsPass (H.to_come host.old) (H.to_come host.new) steps
        × RanProgram (map (λ w. w.now) arguments.entry.now)
        (record {
          devices = record { input = R.seen input.old; output = W.seen output.old };
          errors = record { output = E.seen errors.old.output; broken = errors.old.broken };
        })
        (record {
          devices = record { input = R.seen input.new; output = W.seen output.new };
          errors = record { output = E.seen errors.new.output; broken = errors.new.broken };
        })
        steps result }
{
    let plan = match read_words(alloc, arguments) {
        Ok(plan) => plan,
        Err(fault) => {
            return report_arguments(alloc, arguments, &fault, output, &mut errors.output);
        }
    };
    match plan {
        Plan::Session => status_of(session(alloc, input, output), &mut errors.output),
        Plan::Verify {
            keep_going,
            options,
        } => verified(
            alloc,
            keep_going,
            options,
            input,
            output,
            &mut errors.output,
        ),
        Plan::Stub(arguments) => status_of(
            stub(arguments.as_slice(), input, output),
            &mut errors.output,
        ),
        Plan::Match(plan) => matched(host, alloc, &plan, output, errors),
    }
}
