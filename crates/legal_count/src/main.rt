//! Writes for each FEN on standard input, one per line, how many legal moves the position has and their SANs, in the
//! order of the list; for any other line its number and the FEN's fault.
#![tactic(auto)]

use chess_bits::{AttackTables, Bits};
use chess_fen::read_fen;
use chess_moves::Board;
use chess_text::san;
use std::alloc::Global;
use std::io::{self, BufRead, BufReader, BufWriter, Write};

// Writes a line with the number of legal moves at the board's position, and the SAN of each.
fn write_moves<B: Board, W: Write>(board: &mut B, output: &mut W) -> io::Result<()> {
    let moves = board.legal_moves();
    write!(output, "{}", moves.len())?;
    for m in moves.as_slice() {
        // `san` requires a legal move. Each move of the list is one, but the loop forgets it.
        if board.is_legal(m) {
            output.write_all(b" ")?;
            output.write_all(san(board, *m).as_slice())?;
        }
    }
    writeln!(output)
}

// Writes a line for each line of the input: the legal moves of a FEN's position, or the line's number and its fault.
fn answer<R: BufRead + Drop, W: Write>(alloc: Global, input: R, output: &mut W) -> io::Result<()> {
    let tables = AttackTables::open(alloc)?;
    let mut board = Bits::new(&tables);
    for (index, line) in input.lines(alloc).enumerate() {
        match read_fen(line?.as_bytes()) {
            Ok(position) => {
                board.set(&position);
                write_moves(&mut board, output)?;
            }
            Err(fault) => writeln!(output, "line {}: {}", index + 1, fault.name())?,
        }
    }
    output.flush()
}

// Answers standard input on standard output.
fn main(rt: HostRuntime) -> io::Result<()> {
    let input = BufReader::new(rt.alloc(), rt.reader())?;
    let mut output = BufWriter::new(rt.alloc(), io::writer(&rt))?;
    answer(rt.alloc(), input, &mut output)
}
