//! The examples in the documentation of chess_game's items.

use chess_base::{Move, Square};
use chess_fen::Fen;
use chess_game::{Comment, Declared, Game, Outcome, ParseOutcomeError};
use chess_moves::{Board, Plain};
use std::alloc::Global;
use std::fmt::Debug;
use std::process::Abort;
use std::test::Fail;

// Asserts that two values are equal. One function for all types, since an assertion for each costs much to prove.
fn is_equal<T: PartialEq + Debug>(rt: &impl Abort, found: &T, wanted: &T) {
    assert_eq!(rt; *found, *wanted);
}

// Plays the move from one square to the other, both given by their numbers.
fn play<B: Board>(game: &mut Game<B>, from: u8, to: u8) -> Result<(), Fail> {
    game.play(Move {
        from: Square::new(from % 64),
        to: Square::new(to % 64),
        promotion: None,
    })?;
    Ok(())
}

// The game's moves, each after a space.
fn shown_moves<B: Board>(alloc: Global, game: &Game<B>) -> Result<String, Fail> {
    let mut text = String::new(alloc);
    for m in game.moves() {
        write!(text, " {m}")?;
    }
    Ok(text)
}

// The FENs of the game's positions from the start on, each in a line.
fn shown_positions<B: Board>(alloc: Global, game: &Game<B>) -> Result<String, Fail> {
    let mut text = String::new(alloc);
    for position in game.positions() {
        writeln!(text, "{}", Fen::from(&position))?;
    }
    Ok(text)
}

// The same from the current position back to the start.
fn shown_backwards<B: Board>(alloc: Global, game: &Game<B>) -> Result<String, Fail> {
    let mut text = String::new(alloc);
    for position in game.positions().rev() {
        writeln!(text, "{}", Fen::from(&position))?;
    }
    Ok(text)
}

// The positions of the game 1. e4 e5, forward and backwards.
const POSITIONS: &str = "rnbqkbnr/pppppppp/8/8/8/8/PPPPPPPP/RNBQKBNR w KQkq - 0 1
rnbqkbnr/pppppppp/8/8/4P3/8/PPPP1PPP/RNBQKBNR b KQkq e3 0 1
rnbqkbnr/pppp1ppp/8/4p3/4P3/8/PPPP1PPP/RNBQKBNR w KQkq e6 0 2
";

const BACKWARDS: &str = "rnbqkbnr/pppp1ppp/8/4p3/4P3/8/PPPP1PPP/RNBQKBNR w KQkq e6 0 2
rnbqkbnr/pppppppp/8/8/4P3/8/PPPP1PPP/RNBQKBNR b KQkq e3 0 1
rnbqkbnr/pppppppp/8/8/8/8/PPPPPPPP/RNBQKBNR w KQkq - 0 1
";

// The moves and positions of 1. e4 e5, forward and backwards, and how many they are.
#[test]
fn moves_and_positions_of_a_game(rt: HostRuntime) -> Result<(), Fail> {
    let mut game = Game::open(rt.alloc(), Plain::new(), 300)?;
    play(&mut game, 12, 28)?;
    play(&mut game, 52, 36)?;
    is_equal(
        &rt,
        &shown_moves(rt.alloc(), &game)?.as_str(),
        &" e2e4 e7e5",
    );
    is_equal(&rt, &game.moves().len(), &2);
    is_equal(
        &rt,
        &shown_positions(rt.alloc(), &game)?.as_str(),
        &POSITIONS,
    );
    is_equal(
        &rt,
        &shown_backwards(rt.alloc(), &game)?.as_str(),
        &BACKWARDS,
    );
    is_equal(&rt, &game.positions().len(), &3);
    Ok(())
}

// How the outcome of this text is shown.
fn shown_outcome(alloc: Global, text: &str) -> Result<String, Fail> {
    let outcome: Outcome = text.parse()?;
    Ok(format!(in alloc; "{outcome}")?)
}

// How a comment is shown.
fn shown_comment(alloc: Global) -> Result<String, Fail> {
    let comment = Comment::cut(b"White resigns");
    Ok(format!(in alloc; "{comment}")?)
}

// How a declared result is shown: its outcome, and its comment in braces.
fn shown_declared(alloc: Global) -> Result<String, Fail> {
    let declared = Declared {
        outcome: Outcome::BlackWins,
        comment: Comment::cut(b"White resigns"),
    };
    Ok(format!(in alloc; "{declared}")?)
}

// An outcome is parsed and shown by its text, another text is none; comments and declared results are shown too.
#[test]
fn results_are_parsed_and_shown(rt: HostRuntime) -> Result<(), Fail> {
    is_equal(
        &rt,
        &shown_outcome(rt.alloc(), "1/2-1/2")?.as_str(),
        &"1/2-1/2",
    );
    is_equal(&rt, &"1-1".parse::<Outcome>(), &Err(ParseOutcomeError));
    is_equal(&rt, &shown_comment(rt.alloc())?.as_str(), &"White resigns");
    is_equal(
        &rt,
        &shown_declared(rt.alloc())?.as_str(),
        &"0-1 {White resigns}",
    );
    Ok(())
}

// The debug text of a comment.
fn debugged_comment(alloc: Global) -> Result<String, Fail> {
    let comment = Comment::cut(b"White resigns");
    Ok(format!(in alloc; "{comment:?}")?)
}

// The debug texts of a game's moves and of its positions, once the first of each was taken.
fn debugged_rest<B: Board>(alloc: Global, game: &Game<B>) -> Result<String, Fail> {
    let mut moves = game.moves();
    let _first = moves.next();
    let mut positions = game.positions();
    let _start = positions.next();
    Ok(format!(in alloc; "{moves:?} {positions:?}")?)
}

// These texts for 1. e4 e5: the second move, and two positions.
const REST: &str =
    "[Move { from: Square { number: 52 }, to: Square { number: 36 }, promotion: None }] \
    Positions { left: 2 }";

// Compares the debug texts of a comment, and of the moves and positions that are left.
#[test]
fn comments_moves_and_positions_are_debugged(rt: HostRuntime) -> Result<(), Fail> {
    is_equal(
        &rt,
        &debugged_comment(rt.alloc())?.as_str(),
        &"\"White resigns\"",
    );
    let mut game = Game::open(rt.alloc(), Plain::new(), 300)?;
    play(&mut game, 12, 28)?;
    play(&mut game, 52, 36)?;
    is_equal(&rt, &debugged_rest(rt.alloc(), &game)?.as_str(), &REST);
    Ok(())
}

// The debug text of a game after 1. e4 in which White resigned, without the start before it.
const AFTER_THE_START: &str =
    "moves: [Move { from: Square { number: 12 }, to: Square { number: 28 }, \
    promotion: None }], declared: Some(Declared { outcome: BlackWins, comment: \"White resigns\" }), limit: 300 }";

// The debug text of a game.
fn debugged_game<B: Board>(alloc: Global, game: &Game<B>) -> Result<String, Fail> {
    Ok(format!(in alloc; "{game:?}")?)
}

// What it should be: the game's start, and then that text.
fn wanted_game<B: Board>(alloc: Global, game: &Game<B>) -> Result<String, Fail> {
    Ok(format!(in alloc; "Game {{ start: {:?}, {AFTER_THE_START}", game.start())?)
}

// Plays 1. e4, lets White resign, and compares the debug text.
#[test]
fn a_game_is_debugged(rt: HostRuntime) -> Result<(), Fail> {
    let mut game = Game::open(rt.alloc(), Plain::new(), 300)?;
    play(&mut game, 12, 28)?;
    game.declare(Outcome::BlackWins, Comment::cut(b"White resigns"))?;
    is_equal(
        &rt,
        &debugged_game(rt.alloc(), &game)?.as_str(),
        &wanted_game(rt.alloc(), &game)?.as_str(),
    );
    Ok(())
}
