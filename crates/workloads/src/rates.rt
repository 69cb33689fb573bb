//! Jobs that time themselves: each prints what it counted, and on standard error how many it counted a second.

use crate::games::read_games;
use crate::lines::count_lines;
use crate::matches::Script;
use crate::random::Random;
use crate::relay::{long_script, relay};
use chess_base::Position;
use chess_bits::{AttackTables, Bits};
use chess_game::{Game, MOST_MOVES};
use chess_moves::Board;
use std::io::{self, ErrorKind};
use std::process::ExitCode;
use std::time::{Duration, Instant};

// How many things a second there are, if `count` of them take the time `spent`; less than a millisecond counts as one.
fn a_second(count: u64, spent: Duration) -> u64 {
    let millis = u64::try_from(spent.as_millis()).unwrap_or(u64::MAX).max(1);
    count.saturating_mul(1000) / millis
}

/// Counts the lines of `depth` legal moves from a position (perft), and prints their number, and on standard error how
/// many a second.
///
/// # Errors
/// If memory runs out, or a write or the clock fails.
pub fn time_lines(rt: &HostRuntime, depth: u8, start: &Position) -> io::Result<ExitCode> {
    let tables = AttackTables::open(rt.alloc())?;
    let mut board = Bits::new(&tables);
    board.set(start);
    let begun = Instant::now(rt)?;
    let count = count_lines(&mut board, depth);
    let rate = a_second(count, begun.elapsed(rt)?);
    println!(rt; "lines {count}")?;
    eprintln!(rt; "{rate} lines a second")?;
    Ok(ExitCode::SUCCESS)
}

// Reads all games of a PGN text into `game`, one after another, and prints how many games and half-moves there are, and
// on standard error how many half-moves a second; or the offset of a fault.
fn time_reading(rt: &HostRuntime, text: &[u8], game: &mut Game<Bits<'_>>) -> io::Result<ExitCode> {
    let begun = Instant::now(rt)?;
    match read_games(text, game) {
        Ok(tally) => {
            let rate = a_second(tally.half_moves, begun.elapsed(rt)?);
            println!(rt; "games {} half-moves {}", tally.games, tally.half_moves)?;
            eprintln!(rt; "{rate} half-moves a second")?;
            Ok(ExitCode::SUCCESS)
        }
        Err(fault) => {
            eprintln!(rt; "a fault at byte {}", fault.offset)?;
            Ok(ExitCode::FAILURE)
        }
    }
}

/// Reads all games of a PGN text, and prints how many games and half-moves there are, and on standard error how many
/// half-moves a second. If a game has a fault, it prints only the fault's offset, on standard error, and returns status
/// 1.
///
/// # Errors
/// If memory runs out, or a write or the clock fails.
pub fn time_games(rt: &HostRuntime, text: &[u8]) -> io::Result<ExitCode> {
    let tables = AttackTables::open(rt.alloc())?;
    let mut game = Game::open(rt.alloc(), Bits::new(&tables), MOST_MOVES)?;
    time_reading(rt, text, &mut game)
}

// At most how many half-moves the game of `relay` has; it has fewer only if it is over before.
const LONG: usize = 500;

// Plays the match of this script so many times, and prints how many half-moves that were, and on standard error how
// many a second.
fn time_matches(
    rt: &HostRuntime,
    times: u32,
    script: &Script,
    game: &mut Game<Bits<'_>>,
) -> io::Result<ExitCode> {
    let begun = Instant::now(rt)?;
    let half_moves = relay(rt.alloc(), times, script, game).map_err(|_| io::Error::from(
        ErrorKind::InvalidInput,
    ))?;
    let rate = a_second(half_moves, begun.elapsed(rt)?);
    println!(rt; "relay {times} half-moves {half_moves}")?;
    eprintln!(rt; "{rate} half-moves a second")?;
    Ok(ExitCode::SUCCESS)
}

/// Plays one long game so many times between two engines in memory, and prints how many half-moves that were, and on
/// standard error how many a second.
///
/// # Errors
/// If memory runs out, or a write or the clock fails.
pub fn time_relay(rt: &HostRuntime, times: u32, seed: u32) -> io::Result<ExitCode> {
    let tables = AttackTables::open(rt.alloc())?;
    let mut game = Game::open(rt.alloc(), Bits::new(&tables), MOST_MOVES)?;
    let script = long_script(rt.alloc(), &mut game, LONG, &mut Random::new(seed))?;
    time_matches(rt, times, &script, &mut game)
}
