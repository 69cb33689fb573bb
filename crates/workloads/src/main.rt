//! Runs the jobs that users of the arbiter wait for, on inputs that it makes from a number, and prints a digest of all
//! results: `workloads JOB SIZE SEED`, with JOB one of `collections`, `puzzles`, `boards`, `matches`, `sessions` and
//! `awkward`. The file bench/workloads.txt has the sizes that are timed.
//!
//! Three further jobs time themselves: they print counts, and on standard error how many a second. `workloads lines
//! DEPTH [FEN]` counts the lines of legal moves from a position, `workloads games FILE` the games and half-moves of a
//! PGN file, and `workloads relay SIZE SEED` the half-moves of so many matches between two engines in memory, all of
//! one game of 500 half-moves. With no arguments the program does a little of each job.
#![tactic(auto)]

mod awkward;
mod boards;
mod collections;
mod digest;
mod games;
mod lines;
mod matches;
mod puzzles;
mod random;
mod rates;
mod relay;
mod sessions;
mod starts;
mod texts;
mod walk;

use awkward::ask_awkward;
use boards::ask_boards;
use chess_fen::read_fen;
use collections::verify_collections;
use digest::Digest;
use matches::play_matches;
use perft_positions::KIWIPETE;
use puzzles::verify_puzzles;
use random::Random;
use rates::{time_games, time_lines, time_relay};
use sessions::ask_session;
use std::alloc::{AllocError, Global};
use std::process::ExitCode;
use std::{env, fs, io};

// How the program is called.
const USAGE: &str =
    "usage: workloads\n       workloads JOB SIZE SEED, with JOB one of collections, puzzles, boards, matches, sessions, awkward, relay\n       workloads lines DEPTH [FEN], with DEPTH from 0 to 255; no FEN is the initial position\n       workloads games FILE";

// The jobs whose results are digested; those that time themselves are called by other names.
const JOBS: [&str; 6] = [
    "collections",
    "puzzles",
    "boards",
    "matches",
    "sessions",
    "awkward",
];

// The initial position.
const INITIAL: &[u8] = b"rnbqkbnr/pppppppp/8/8/8/8/PPPPPPPP/RNBQKBNR w KQkq - 0 1";

// Two short games, with a tag and a variation.
const TWO_GAMES: &[u8] = b"1. e4 e5 1-0 [Event \"x\"] 1. f3 (1. d4) e5 2. g4 *";

// The arguments after the program's name.
fn words_of(rt: &HostRuntime) -> io::Result<Vec<String>> {
    let mut words = Vec::new(rt.alloc());
    for word in env::args(rt)?.skip(1) {
        words.push(word)?;
    }
    Ok(words)
}

// Does the job of this name and size on random input from this seed, and returns the digest of its results; `None` if
// there is no such job.
fn digest_of(alloc: Global, job: &str, size: u32, seed: u32) -> Result<Option<u64>, AllocError> {
    let mut random = Random::new(seed);
    let mut digest = Digest::new();
    let size = size as usize;
    match job {
        "collections" => verify_collections(alloc, size, &mut random, &mut digest)?,
        "puzzles" => verify_puzzles(alloc, size, &mut random, &mut digest)?,
        "boards" => ask_boards(alloc, size, &mut random, &mut digest)?,
        "matches" => play_matches(alloc, size, &mut random, &mut digest)?,
        "sessions" => ask_session(alloc, size, &mut random, &mut digest)?,
        "awkward" => ask_awkward(alloc, size, &mut random, &mut digest)?,
        _ => return Ok(None),
    }
    Ok(Some(digest.value()))
}

// Does a job, and prints the digest of its results; prints how the program is called if there is no such job.
fn do_job(rt: &HostRuntime, job: &str, size: u32, seed: u32) -> io::Result<ExitCode> {
    match digest_of(rt.alloc(), job, size, seed)? {
        Some(digest) => {
            println!(rt; "{job} {digest}")?;
            Ok(ExitCode::SUCCESS)
        }
        None => misused(rt),
    }
}

// Counts the lines of `depth` legal moves from the position of a FEN; prints how the program is called if the depth is
// no number or the FEN can't be read.
fn do_lines(rt: &HostRuntime, depth: &str, fen: &[u8]) -> io::Result<ExitCode> {
    match (depth.parse(), read_fen(fen)) {
        (Ok(depth), Ok(start)) => time_lines(rt, depth, &start),
        _ => misused(rt),
    }
}

// Does each job in its smallest size.
fn do_each(rt: &HostRuntime) -> io::Result<ExitCode> {
    for job in &JOBS {
        do_job(rt, job, 1, 1)?;
    }
    do_lines(rt, "4", KIWIPETE)?;
    time_games(rt, TWO_GAMES)?;
    time_relay(rt, 1, 1)
}

// Prints on standard error how the program is called, and returns status 2.
fn misused(rt: &HostRuntime) -> io::Result<ExitCode> {
    eprintln!(rt; "{USAGE}")?;
    Ok(ExitCode::from(2))
}

// Does what the arguments ask for, or prints how the program is called.
fn run(rt: &HostRuntime) -> io::Result<ExitCode> {
    let words = words_of(rt)?;
    match words.as_slice() {
        [] => do_each(rt),
        [job, path] if job.as_str() == "games" => {
            let text = fs::read(rt, path.as_str())?;
            time_games(rt, text.as_slice())
        }
        [job, depth] if job.as_str() == "lines" => do_lines(rt, depth.as_str(), INITIAL),
        [job, depth, fen] if job.as_str() == "lines" => {
            do_lines(rt, depth.as_str(), fen.as_bytes())
        }
        [job, size, seed] => match (size.parse(), seed.parse()) {
            (Ok(size), Ok(seed)) if job.as_str() == "relay" => time_relay(rt, size, seed),
            (Ok(size), Ok(seed)) => do_job(rt, job.as_str(), size, seed),
            _ => misused(rt),
        },
        _ => misused(rt),
    }
}

// Does what the arguments ask for.
fn main(rt: HostRuntime) -> io::Result<ExitCode> {
    run(&rt)
}
