//! The games of a match, one after another.

ghost use Rattle.std.specs.Prelude.{◌≡◌, ◌≤◌, List};
ghost use Rattle.byte_devices.specs.Devices.{Sends};
ghost use Rattle.chess_match.specs.Reasons.{comment_of};
ghost use Rattle.chess_match.specs.declared.reason.Reason.TheVariants.{Faulted};
ghost use Rattle.match_runner.specs.Games.{PlaysGames, engine_command, engine_level, first_side, player_name, setup_of, tags_of};
ghost use Rattle.match_runner.specs.GamesTable.{HostStep, PlaysBy, PlaysGamesAt, PlaysGamesWith, StepsPass, at_host};
ghost use Rattle.match_runner.specs.ties.Playing.{HasPlayed, PlayedGame, logged_side, score_text};
ghost use Rattle.match_runner.specs.Log.{log_seen};
ghost use Rattle.chess_game.specs.declared.game.TheConstants.{MOST_MOVES};

use crate::fault::GamesFault;
use crate::host::Host;
use crate::host_table::{HostTable, Seat};
use crate::log::Log;
use crate::process_host::ProcessHost;
use crate::score::Score;
use crate::table::GamesTable;
use byte_devices::{Output, WriteFault, send};
use cecp_engine::Level;
use chess_base::{ByColour, Colour, same_colour};
use chess_bits::{AttackTables, Bits};
use chess_game::{Game, MOST_MOVES, TagText};
use chess_match::{GamesPlan, MatchEnd, MatchFault, Reason, Setup};
use itoa::Buffer;
use pgn_writer::Tags;
use std::alloc::Global;
use std::os::fd::AsRawFd;
use std::process::{OpenProcess, Processes};
use std::rt::Clock;

// How a fault of the engine of this side is reported, such as `White has no ping`.
fn fault_text(side: Colour, fault: MatchFault) -> &'static str
    ensures { result.now ≡ comment_of (Faulted side fault) }
{
    match str::from_utf8(Reason::Faulted(side, fault).comment()) {
        Ok(text) => text,
        // All its bytes are ASCII.
        Err(_) => unreachable!(),
    }
}

// The side that the engine of `--white` has in the game of this number: White in odd games, Black in even ones.
fn first_side(number: u32) -> Colour
    ensures { result ≡ first_side number }
{
    if number % 2 == 1 {
        Colour::White
    } else {
        Colour::Black
    }
}

// The command of the engine that has this side in the game of this number.
fn command_of<'a>(plan: &GamesPlan<'a>, number: u32, side: Colour) -> &'a str
    ensures { result.now ≡ engine_command plan.now number side }
{
    if same_colour(side, first_side(number)) {
        plan.white
    } else {
        plan.black
    }
}

// The time control of the engine that has this side in the game of this number.
fn level_of(plan: &GamesPlan<'_>, number: u32, side: Colour) -> Level
    ensures { result ≡ engine_level plan.now number side }
{
    if same_colour(side, first_side(number)) {
        plan.white_level
    } else {
        plan.black_level
    }
}

// What the game of this number begins from: the plan's start, patience and draws, and the time control of each side.
fn setup_of(plan: &GamesPlan<'_>, number: u32) -> Setup
    ensures { result ≡ setup_of plan.now number }
{
    Setup {
        start: plan.start,
        levels: ByColour {
            white: level_of(plan, number, Colour::White),
            black: level_of(plan, number, Colour::Black),
        },
        patience: plan.patience,
        draws: plan.draws,
    }
}

// An engine's name in the tags: the one that it gave itself (`name`), or its command if that is empty.
fn name_of(name: &TagText, command: &str) -> TagText
    ensures { result ≡ player_name name.now command.now }
{
    let given = name.as_bytes();
    if given.is_empty() {
        TagText::cut(command.as_bytes())
    } else {
        TagText::cut(given)
    }
}

// The PGN tags of the game of this number, which ended as `end` says.
fn tags_of(plan: &GamesPlan<'_>, number: u32, end: &MatchEnd) -> Tags
    ensures { result ≡ tags_of plan.now number end.now }
{
    let mut buffer = Buffer::new();
    Tags {
        event: TagText::cut(b"CECP match"),
        site: TagText::cut(b"?"),
        date: TagText::cut(plan.date.as_bytes()),
        round: TagText::cut(buffer.format(number).as_bytes()),
        white: name_of(&end.white_name, command_of(plan, number, Colour::White)),
        black: name_of(&end.black_name, command_of(plan, number, Colour::Black)),
        ended: end.ended,
    }
}

// The side that the engine of `--white` has in the game of this number, if the plan asks for a log; otherwise `None`.
fn logged_side(plan: &GamesPlan<'_>, number: u32) -> Option<Colour>
    ensures { result ≡ logged_side plan.now number }
{
    if plan.log {
        Some(first_side(number))
    } else {
        None
    }
}

// Writes the line `score first 1 second 0 ..` of the match so far to the output, and flushes.
fn write_score<W: Output>(score: Score, output: &mut W) -> Result<(), WriteFault>
    ensures { Sends (W.seen output.old) (W.seen output.new) result (score_text score) }
{
    send(output, score.line().as_slice())
}

// Starts the plan's two engines, plays the game of this number between them, logs it if the plan asks for that, writes
// and flushes its PGN, and waits for the engines' ends. For each engine that had to be killed a line is logged.
fn play_game<'a, T: GamesTable, W: Output, E: Output>(
    table: &mut T,
    plan: &GamesPlan<'a>,
    number: u32,
    output: &mut W,
    log: &mut Log<E>,
) -> Result<MatchEnd, GamesFault<'a>>
    requires limit { (T.game table.old).limit ≡ MOST_MOVES }
    ensures limit { (T.game table.new).limit ≡ MOST_MOVES }
    ensures played { PlayedGame plan.now number (T.coming table.old) (T.coming table.new)
        (T.to_come table.old) (T.to_come table.new)
        (W.seen output.old) (W.seen output.new)
        (log_seen (E.seen log.old.output) log.old.broken) (log_seen (E.seen log.new.output) log.new.broken)
        result }
{
    let setup = setup_of(plan, number);
    let limit = plan.patience.reply;
    let mut engines = table.start(
        command_of(plan, number, Colour::White),
        command_of(plan, number, Colour::Black),
        limit,
    )?;
    let end = table.play(&mut engines, &setup, logged_side(plan, number), log);
    let tags = tags_of(plan, number, &end);
    let written = table.write_game(&tags, output);
    let killed = table.finish(engines, limit);
    log.note_killed(number, killed);
    match written {
        Ok(()) => Ok(end),
        Err(_) => Err(GamesFault::WriteFailed),
    }
}

// The score of the games that were played; and, if an engine had a fault, the number of the last game, the engine's
// side and the fault.
#[derive(Clone, Copy)]
struct GamesPlayed {
    score: Score,
    fault: Option<(u32, Colour, MatchFault)>,
}

// How many games the plan asks for.
fn game_count(plan: &GamesPlan<'_>) -> u32
    ensures value { result ≡ plan.now.games }
    ensures few { result ≤ 65535 }
{
    u32::from(plan.games)
}

// Plays the plan's games one after another, up to and with the first in which an engine has a fault; writes and logs
// each. Returns the score, and that fault.
fn play_each<'a, T: GamesTable, W: Output, E: Output>(
    table: &mut T,
    plan: &GamesPlan<'a>,
    output: &mut W,
    log: &mut Log<E>,
) -> Result<GamesPlayed, GamesFault<'a>>
    requires { (T.game table.old).limit ≡ MOST_MOVES }
    ensures { HasPlayed plan.now (T.coming table.old) (T.to_come table.old) (T.to_come table.new)
        (W.seen output.old) (W.seen output.new)
        (log_seen (E.seen log.old.output) log.old.broken) (log_seen (E.seen log.new.output) log.new.broken)
        result }
{
    let mut score = Score::new();
    let mut number: u32 = 0;
    while number < game_count(plan) {
        number += 1;
        let end = play_game(table, plan, number, output, log)?;
        score = score.after(first_side(number), end.outcome);
        if let Some((side, fault)) = end.fault {
            return Ok(GamesPlayed {
                score,
                fault: Some((number, side, fault)),
            });
        }
    }
    Ok(GamesPlayed { score, fault: None })
}

/// Plays the games of a match as [`play_games`] does, at a table, whose game has room for 20,000 half-moves.
///
/// The contract says which steps passed at the table, in their order. For each game two engines are started, the plan's
/// with their sides; it is played; its PGN is written and flushed; and then the engines are waited for. No engine is
/// started after a game with a fault. The games in the output, in the log and in the score are just those that were
/// played at the table.
///
/// # Errors
/// If an engine can't be started, memory runs out, the output fails, or an engine fails in a game, which is then the
/// last.
pub fn play_games_at<'a, T: GamesTable, W: Output, E: Output>(
    table: &mut T,
    plan: &GamesPlan<'a>,
    output: &mut W,
    log: &mut Log<E>,
) -> Result<(), GamesFault<'a>>
    requires { (T.game table.old).limit ≡ MOST_MOVES }
    ensures plays { PlaysGamesAt plan.now result (T.coming table.old) (T.to_come table.old) (T.to_come table.new)
        (record { output = W.seen output.old; log = log_seen (E.seen log.old.output) log.old.broken })
        (record { output = W.seen output.new; log = log_seen (E.seen log.new.output) log.new.broken }) }
{
    let played = play_each(table, plan, output, log)?;
    write_score(played.score, output)?;
    match played.fault {
        None => Ok(()),
        Some((number, side, fault)) => Err(GamesFault::Game(number, fault_text(side, fault))),
    }
}

// Plays the games of a match with a host, by the clock, in the game and on the board of `seat`.
fn play_games_by<'a, 't, H: Host, W: Output, E: Output>(
    host: &mut H,
    seat: Seat<'t, H::Clock>,
    plan: &GamesPlan<'a>,
    output: &mut W,
    log: &mut Log<E>,
) -> Result<(), GamesFault<'a>>
    requires { seat.game.limit ≡ MOST_MOVES }
    ensures { PlaysBy plan.now result (H.Clock.coming seat.entry.clock)
        (λ at_table. StepsPass (H.to_come host.old) (H.to_come host.new) (at_host at_table))
        (record { output = W.seen output.old; log = log_seen (E.seen log.old.output) log.old.broken })
        (record { output = W.seen output.new; log = log_seen (E.seen log.new.output) log.new.broken }) }
{
    let Seat {
        mut clock,
        mut game,
        mut scratch,
    } = seat;
    let mut table = HostTable {
        host,
        clock: &mut clock,
        game: &mut game,
        scratch: &mut scratch,
    };
    play_games_at(&mut table, plan, output, log)
}

/// Plays the games of a match with a host, with colours changed after each, and writes each game's PGN and then the
/// score; if the plan asks for a log, each game is logged.
///
/// The contract says which steps passed at the host, in their order. The clock is opened; for each game two engines are
/// started by the plan's commands, each with its side, and their ends are waited for when the game was written. Nothing
/// else is started. The games in the output, in the log and in the score are just those that these engines played by
/// this clock. [`play_games_at`], which this calls, also says when each game is written.
///
/// # Errors
/// If an engine can't be started, memory runs out, the output fails, or an engine fails in a game, which is then the
/// last.
pub fn play_games_with<'a, H: Host, W: Output, E: Output>(
    host: &mut H,
    alloc: Global,
    plan: &GamesPlan<'a>,
    output: &mut W,
    log: &mut Log<E>,
) -> Result<(), GamesFault<'a>>
    ensures plays { (steps : List HostStep) × StepsPass (H.to_come host.old) (H.to_come host.new) steps
        × PlaysGamesWith plan.now result steps
        (record { output = W.seen output.old; log = log_seen (E.seen log.old.output) log.old.broken })
        (record { output = W.seen output.new; log = log_seen (E.seen log.new.output) log.new.broken }) }
{
    let tables = AttackTables::open(alloc)?;
    let game = Game::open(alloc, Bits::new(&tables), MOST_MOVES)?;
    let seat = Seat {
        clock: host.open_clock(),
        game,
        scratch: Bits::new(&tables),
    };
    play_games_by(host, seat, plan, output, log)
}

/// Plays the games of a match between processes of this runtime, as [`play_games_with`] does with a
/// [`ProcessHost`].
///
/// The contract sees only the output and the log, as nothing is known of processes.
///
/// # Errors
/// As [`play_games_with`].
pub fn play_games<'a, P: Processes + Clock, W: Output, E: Output>(
    rt: &P,
    alloc: Global,
    plan: &GamesPlan<'a>,
    output: &mut W,
    log: &mut Log<E>,
) -> Result<(), GamesFault<'a>>
where
    <P::Started as OpenProcess>::Stdout: AsRawFd,
    <P::Started as OpenProcess>::Stdin: AsRawFd,
    ensures { PlaysGames plan.now result (W.seen output.old) (W.seen output.new)
        (log_seen (E.seen log.old.output) log.old.broken) (log_seen (E.seen log.new.output) log.new.broken) }
{
    play_games_with(&mut ProcessHost::new(rt, alloc), alloc, plan, output, log)
}
