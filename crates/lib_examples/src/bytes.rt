//! The examples of the crates that know no chess. The comment above each names the crate whose lib.rt begins with it,
//! and says what it does.

use anyhow::Result;
use byte_devices::{Counted, Input, Output, PieceReader, put};
use pgn_pieces::PgnPieces;
use pgn_tokens::game_tags;
use std::alloc::Global;
use text_lines::{Lines, split_word};

// byte_devices: copies what one read gives to an output, and returns how many bytes these are.
fn copied(alloc: Global) -> Result<usize> {
    let mut input = Counted::reading(PieceReader::new(b"new\n", 3, 0));
    let mut output = Counted::writing(Vec::<u8>::new(alloc));
    let mut piece = [0; 16];
    let count = input.read(&mut piece)?;
    put(&mut output, &piece[..count])?;
    Ok(count)
}

// text_lines: writes, for each line of an input, the lengths of its first word and of the rest.
fn words<R: Input + Drop>(rt: &HostRuntime, mut input: R) -> Result<()> {
    let mut lines: Lines<1024> = Lines::new();
    for _ in 0..u64::MAX {
        let Some(line) = lines.next(&mut input)? else {
            break;
        };
        let (word, argument) = split_word(line.text());
        println!(rt; "{} and {} bytes", word.len(), argument.len())?;
    }
    Ok(())
}

// pgn_tokens: puts the name of each tag of a game on an output, one a line.
fn tag_names<W: Output + Drop>(text: &[u8], mut output: W) -> Result<()> {
    for tag in game_tags(text, 0) {
        put(&mut output, tag.name)?;
        put(&mut output, b"\n")?;
    }
    Ok(())
}

// pgn_pieces: writes, for each piece of a collection, where it begins, and its length unless it is too long.
fn pieces<R: Input + Drop>(rt: &HostRuntime, alloc: Global, mut input: R) -> Result<()> {
    let mut pieces = PgnPieces::open(alloc)?;
    for _ in 0..u64::MAX {
        if !pieces.next(&mut input)? {
            break;
        }
        match pieces.text() {
            Some(text) => println!(rt; "{} bytes from byte {} on", text.len(), pieces.offset())?,
            None => println!(rt; "too long, from byte {} on", pieces.offset())?,
        }
    }
    Ok(())
}

// Runs each example above once.
pub(crate) fn run(rt: &HostRuntime) -> Result<()> {
    let alloc = rt.alloc();
    println!(rt; "{} bytes", copied(alloc)?)?;
    words(rt, Counted::reading(b"ping 7\nquit".as_slice()))?;
    let output = Counted::writing(Vec::<u8>::new(alloc));
    tag_names(b"[Event \"a\"] *", output)?;
    let text = b"[Event \"a\"]\n\n1. e4 *\n\n[Event \"b\"]\n\n1. d4 *\n";
    pieces(rt, alloc, Counted::reading(text.as_slice()))
}
