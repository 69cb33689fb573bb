//! The examples of the crates about positions, boards, games, and their texts. The comment above each names the crate
//! whose lib.rt begins with it, and says what it does.

use anyhow::Result;
use byte_devices::{Counted, Output};
use chess_base::{Move, Position};
use chess_bits::{AttackTables, Bits};
use chess_fen::{Fen, read_fen, write_fen};
use chess_game::{Game, TagText};
use chess_moves::{Board, Plain};
use chess_pgn::read_pgn;
use chess_text::{Reading, read_move};
use pgn_writer::{Tags, write_pgn};
use std::alloc::Global;

// chess_base: whether 1. e4 is legal at the initial position.
fn is_legal(rt: &HostRuntime) -> Result<()> {
    let position = Position::initial();
    let m: Move = "e2e4".parse()?;
    let is_legal = position.is_legal(m);
    println!(rt; "{m} is legal: {is_legal}")?;
    Ok(())
}

// chess_fen: reads a FEN, and writes it again.
fn fen(rt: &HostRuntime) -> Result<()> {
    let position = read_fen(b"4k3/8/8/8/8/8/4P3/4K3 w - - 0 1")?;
    let text = write_fen(&position);
    println!(rt; "{} bytes", text.len())?;
    Ok(())
}

// chess_fen, the second one: the same with a FEN as a value of its own, which can be shown.
fn fen_as_text(rt: &HostRuntime) -> Result<()> {
    let fen: Fen = "4k3/8/8/8/8/8/4P3/4K3 w - - 0 1".parse()?;
    println!(rt; "{fen}")?;
    Ok(())
}

// chess_moves: makes and takes back each legal move of a position.
fn each_move(position: Position) {
    let mut board = Plain::new();
    board.set(&position);
    let moves = board.legal_moves();
    for m in moves.as_slice() {
        if board.is_legal(m) {
            let saved = board.make(*m);
            // The position after the move.
            board.take_back(*m, saved);
        }
    }
}

// chess_bits: how many legal moves a new game has, on a board of bit sets.
fn bits(alloc: Global) -> Result<usize> {
    let tables = AttackTables::open(alloc)?;
    let mut game = Game::open(alloc, Bits::new(&tables), 300)?;
    Ok(game.board().legal_move_count())
}

// chess_game: plays a move, writes the verdict if the game is over, and takes the move back.
fn game(rt: &HostRuntime, alloc: Global, m: Move) -> Result<Move> {
    let mut game = Game::open(alloc, Plain::new(), 300)?;
    game.play(m)?;
    if let Some(verdict) = game.verdict() {
        println!(rt; "{verdict}")?;
    }
    let m = game.take_back()?;
    Ok(m)
}

// chess_text: plays the move that a text denotes, or says why it denotes none.
fn read_text(rt: &HostRuntime, game: &mut Game<Plain>) -> Result<()> {
    match read_move(game.board(), b"Nf3") {
        Reading::Move(m) => game.play(m)?,
        Reading::Ambiguous => println!(rt; "of several moves")?,
        Reading::NoSuch => println!(rt; "of no legal move")?,
        Reading::NotAMove => println!(rt; "of no move at all")?,
    }
    Ok(())
}

// pgn_writer: writes a game as PGN, with a name for White.
fn written<W: Output + Drop>(game: Game<Plain>, mut output: W) -> Result<()> {
    let mut scratch = Plain::new();
    let tags = Tags {
        white: TagText::cut(b"Morphy, Paul"),
        ..Tags::default()
    };
    write_pgn(&game, &mut scratch, &tags, b"", &mut output)?;
    Ok(())
}

// chess_pgn: reads a game of PGN and writes it anew; it returns where the game ends.
fn written_anew<W: Output + Drop>(alloc: Global, text: &[u8], mut output: W) -> Result<usize> {
    let mut game = Game::open(alloc, Plain::new(), 300)?;
    let mut scratch = Plain::new();
    let mut offset = 0;
    if let Some(end) = read_pgn(text, 0, &mut game)? {
        offset = end.offset;
    }
    write_pgn(&game, &mut scratch, &Tags::default(), b"", &mut output)?;
    Ok(offset)
}

// Runs each example above once.
pub(crate) fn run(rt: &HostRuntime) -> Result<()> {
    let alloc = rt.alloc();
    is_legal(rt)?;
    fen(rt)?;
    fen_as_text(rt)?;
    each_move(Position::initial());
    println!(rt; "{} moves", bits(alloc)?)?;
    let mut played = Game::open(alloc, Plain::new(), 300)?;
    read_text(rt, &mut played)?;
    if let Ok(m) = played.take_back() {
        println!(rt; "{}", game(rt, alloc, m)?)?;
    }
    written(played, Counted::writing(Vec::<u8>::new(alloc)))?;
    let output = Counted::writing(Vec::<u8>::new(alloc));
    println!(rt; "to byte {}", written_anew(alloc, b"1. e4 *", output)?)?;
    Ok(())
}
