//! An example of the crates at work: the scholar's mate, read move by move, with its verdict and its FEN.
#![tactic(auto)]

use chess_fen::write_fen;
use chess_game::Game;
use chess_moves::{Board, Plain};
use chess_text::{Reading, read_move};
use std::io;

// The texts that are read in turn. Of those that denote no legal move the reading is shown, and the game goes on.
const MOVES: [&str; 8] = ["e4", "e5", "Qh5", "Ke6", "Nc6", "Bc4", "Nf6", "Qxf7"];

// Plays these moves from the initial position, and writes after each how many replies there are; then the verdict, the
// outcome and the FEN.
fn play(rt: &HostRuntime) -> io::Result<()> {
    let mut game = Game::open(rt.alloc(), Plain::new(), 100)?;
    for text in &MOVES {
        match read_move(game.board(), text.as_bytes()) {
            Reading::Move(m) => {
                let played = game.play(m);
                let replies = game.board().legal_move_count();
                println!(rt; "{text}: {played:?}, {replies} replies")?;
            }
            reading => println!(rt; "{text}: {reading:?}")?,
        }
    }
    println!(rt; "{:?}, {:?}", game.verdict(), game.outcome())?;
    let fen = write_fen(&game.position());
    println!(rt; "{}", std::str::from_utf8(fen.as_slice()).unwrap_or("?"))
}

// Plays the game, and writes to standard output.
fn main(rt: HostRuntime) -> io::Result<()> {
    play(&rt)
}
