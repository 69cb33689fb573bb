//! Copies from standard input to standard output the pieces of a PGN collection of which each game can be read and
//! played. A piece is mostly one game with its tags.
#![tactic(auto)]

use anyhow::Result;
use byte_devices::{Counted, Input, Output, put};
use chess_bits::{AttackTables, Bits};
use chess_game::{Game, MOST_MOVES};
use chess_pgn::read_pgn;
use pgn_pieces::PgnPieces;
use std::alloc::Global;

// Whether each game of a text can be read and played; `game` is the room in which they are played.
fn are_good(text: &[u8], game: &mut Game<Bits<'_>>) -> bool {
    let mut at = 0;
    for _ in 0..=text.len() {
        // `read_pgn` requires an offset in the text. Each game's end is one, but the loop forgets it.
        if at > text.len() {
            return false;
        }
        match read_pgn(text, at, game) {
            Ok(Some(end)) => at = end.offset,
            Ok(None) => return true,
            Err(_) => return false,
        }
    }
    false
}

// Copies the pieces of the input of which each game is good to the output.
fn copy_good<R: Input, W: Output>(alloc: Global, input: &mut R, output: &mut W) -> Result<()> {
    let tables = AttackTables::open(alloc)?;
    let mut game = Game::open(alloc, Bits::new(&tables), MOST_MOVES)?;
    let mut pieces = PgnPieces::open(alloc)?;
    for _ in 0..u64::MAX {
        if !pieces.next(input)? {
            break;
        }
        if let Some(text) = pieces.text() {
            if are_good(text, &mut game) {
                put(output, text)?;
            }
        }
    }
    output.flush()?;
    Ok(())
}

// Copies the good pieces of standard input to standard output.
fn main(rt: HostRuntime) -> Result<()> {
    let mut input = Counted::reading(rt.stdin());
    let mut output = Counted::writing(rt.stdout());
    copy_good(rt.alloc(), &mut input, &mut output)
}
