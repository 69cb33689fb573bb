//! The examples of the crates that play, serve and verify. The comment above each names the crate whose lib.rt begins
//! with it, and says what it does.

use anyhow::Result;
use arbiter_cli::{Plan, read_words};
use byte_devices::{Counted, Input, Output};
use cecp_engine::{Clocks, EngineLine, Features, Level, next_item, read_engine_line};
use chess_arbiter::{ProcessHost, run_program};
use chess_base::{ByColour, Colour, Position};
use chess_cecp::{End, Session, run_session, serve_lines};
use chess_game::Game;
use chess_match::{Draws, Ends, Moments, Patience, Setup, run_match};
use chess_moves::Plain;
use chess_pgn::Tags;
use match_runner::{GamesPlan, Log, SinceStart, play_games};
use pgn_verifier::{LENIENT, Verified, VerifyOptions, verify};
use std::alloc::Global;
use stub_engine::Stub;

// cecp_engine: reads a line of features item by item. Returns whether it has `ping=1`, and the milliseconds on White's
// clock at the beginning.
fn features_and_clock() -> Result<(bool, u64)> {
    let mut features = Features::new();
    if let EngineLine::Features(text) = read_engine_line(b"feature ping=1 done=1") {
        let mut rest = text;
        for _ in 0..text.len() {
            let Some((item, tail)) = next_item(rest) else {
                break;
            };
            features = features.with_item(&item);
            rest = tail;
        }
    }
    let level: Level = "40 5 0".parse()?;
    let levels = ByColour {
        white: level,
        black: level,
    };
    let left = Clocks::new(levels).remaining(Colour::White);
    Ok((features.ping, left))
}

// chess_match: plays a match between two engines that are given as readers and writers.
fn match_between<R: Input + Drop, W: Output + Drop, M: Moments + Drop>(
    rt: &HostRuntime,
    white_output: R,
    white_input: W,
    black_output: R,
    black_input: W,
    mut moments: M,
) -> Result<()> {
    let mut game = Game::open(rt.alloc(), Plain::new(), 300)?;
    let setup = Setup {
        start: Position::initial(),
        levels: ByColour {
            white: "40 5 0".parse()?,
            black: "0 1 1".parse()?,
        },
        patience: Patience::ENDLESS,
        draws: Draws::Claimed,
    };
    let mut white = Ends {
        reader: white_output,
        writer: white_input,
    };
    let mut black = Ends {
        reader: black_output,
        writer: black_input,
    };
    let end = run_match(&mut white, &mut black, &mut moments, &setup, &mut game);
    println!(rt; "{}", end.outcome)?;
    Ok(())
}

// match_runner: plays two games between two engines that it starts as processes.
fn match_of_processes(rt: &HostRuntime, alloc: Global) -> Result<()> {
    let plan = GamesPlan {
        white: "sjeng",
        black: "phalanx",
        white_level: "40 5 0".parse()?,
        black_level: "40 5 0".parse()?,
        patience: Patience::ENDLESS,
        draws: Draws::Claimed,
        start: Position::initial(),
        games: 2,
        date: "????.??.??",
        log: true,
    };
    let mut output = Counted::writing(Vec::<u8>::new(alloc));
    let mut log = Log::new(Counted::writing(Vec::<u8>::new(alloc)));
    play_games(rt, alloc, &plan, &mut output, &mut log)?;
    Ok(())
}

// chess_cecp: runs a session, which answers an interface, up to its end.
fn session<R: Input + Drop, W: Output + Drop>(
    alloc: Global,
    mut input: R,
    mut output: W,
) -> Result<End> {
    let mut session = Session::open(alloc, Plain::new(), Plain::new(), Tags::default(), 1000)?;
    let end = run_session(&mut input, &mut output, &mut session)?;
    Ok(end)
}

// stub_engine: runs an engine that plays these arguments in turn.
fn stub<R: Input + Drop, W: Output + Drop>(mut input: R, mut output: W) -> Result<End> {
    let arguments = ["e2e4", "offer", "resign"];
    let mut stub = Stub::new(&arguments);
    let end = serve_lines(&mut input, &mut output, &mut stub)?;
    Ok(end)
}

// pgn_verifier: verifies a text of PGN.
fn verified(rt: &HostRuntime, alloc: Global) -> Result<()> {
    let mut input = Counted::reading(b"1. e4 *".as_slice());
    let mut output = Counted::writing(Vec::<u8>::new(alloc));
    let options = VerifyOptions {
        quiet: false,
        strict: LENIENT,
        spans: false,
        names: false,
        explain: false,
    };
    match verify(alloc, options, &mut input, &mut output)? {
        Verified::EachGame => println!(rt; "each game was read")?,
        Verified::FaultReported => println!(rt; "a game has a fault")?,
    }
    Ok(())
}

// arbiter_cli: reads the arguments of a command line.
fn arguments(rt: &HostRuntime, alloc: Global) -> Result<()> {
    let arguments = ["verify", "--quiet"];
    if let Ok(Plan::Verify { options, .. }) = read_words(alloc, &arguments) {
        println!(rt; "quiet: {}, names: {}", options.quiet, options.names)?;
    }
    Ok(())
}

// chess_arbiter: runs the whole program with these arguments, and returns its status.
fn program(rt: &HostRuntime, alloc: Global) -> u8 {
    let mut input = Counted::reading(b"1. e4 *".as_slice());
    let mut output = Counted::writing(Vec::<u8>::new(alloc));
    let mut errors = Log::new(Counted::writing(Vec::<u8>::new(alloc)));
    let mut host = ProcessHost::new(rt, alloc);
    let status = run_program(
        &mut host,
        alloc,
        &["verify"],
        &mut input,
        &mut output,
        &mut errors,
    );
    status
}

// Runs each example above once, but for the match of two processes.
pub(crate) fn run(rt: &HostRuntime) -> Result<()> {
    let alloc = rt.alloc();
    let (ping, left) = features_and_clock()?;
    println!(rt; "ping {ping}, {left} milliseconds")?;
    let black_input = Counted::writing(Vec::<u8>::new(alloc));
    match_between(
        rt,
        Counted::reading(b"".as_slice()),
        Counted::writing(Vec::<u8>::new(alloc)),
        Counted::reading(b"".as_slice()),
        black_input,
        SinceStart::new(rt),
    )?;
    let output = Counted::writing(Vec::<u8>::new(alloc));
    let end = session(alloc, Counted::reading(b"e4\nquit\n".as_slice()), output)?;
    println!(rt; "{end:?}")?;
    let output = Counted::writing(Vec::<u8>::new(alloc));
    let end = stub(Counted::reading(b"protover 2\n".as_slice()), output)?;
    println!(rt; "{end:?}")?;
    verified(rt, alloc)?;
    arguments(rt, alloc)?;
    println!(rt; "status {}", program(rt, alloc))?;
    // Whether these engines are there depends on the machine, so this one is only proved.
    if false {
        match_of_processes(rt, alloc)?;
    }
    Ok(())
}
