//! Runs each session of the rows in several ways, over inputs that are cut and devices that fail, on both boards. The
//! row says what is to be written; where something fails, it is a beginning of that.

ghost use Rattle.std.specs.Prelude.{◌≤◌};

use crate::running::{Outcome, came_to, ended_line, front, is_equal, run, run_gated};
use crate::transcript::Transcript;
use byte_devices::{PieceReader, PieceWriter};
use chess_bits::{AttackTables, Bits};
use chess_cecp::{Fault, Session};
use chess_moves::{Board, Plain};
use pgn_writer::Tags;
use std::alloc::Global;
use std::process::Abort;
use std::test::Fail;

/// How the session of a row is run.
#[derive(Clone, Copy)]
pub enum Way {
    /// Read and written in pieces of 1, 2, 3, 7 and 1,024 bytes.
    Pieces,
    /// Cut after each byte.
    Cut,
    /// With a read that fails after each byte, and after the last.
    FailingReads,
    /// By a writer that takes one byte at a time, and of which each call fails in turn, write or flush.
    FailingWrites,
    /// By a writer that takes nothing.
    FullWriter,
    /// With a line that is given once the answer before it was flushed.
    Gated,
    /// Whole; the row has a beginning of what is written.
    Begun,
}

impl Way {
    /// Whether the rows with lines of 1,024 bytes and more can be run so. A gated reader gives each line by one read,
    /// so it can't give these.
    pub fn takes_long_lines(self) -> bool {
        !matches!(self, Way::Gated)
    }
}

/// Runs the session of each row in this way on both boards. `limit` is the most half-moves that its games have.
pub fn check(
    rt: &impl Abort,
    alloc: Global,
    way: Way,
    rows: &[&[u8]],
    limit: u32,
) -> Result<(), Fail>
    requires some { 1 ≤ limit }
    requires few { limit ≤ 20000 }
{
    let mut plain = Session::open(alloc, Plain::new(), Plain::new(), Tags::default(), limit)?;
    check_rows(rt, alloc, way, &mut plain, rows)?;
    check_on_bits(rt, alloc, way, rows, limit)
}

// The same on bit sets alone.
fn check_on_bits(
    rt: &impl Abort,
    alloc: Global,
    way: Way,
    rows: &[&[u8]],
    limit: u32,
) -> Result<(), Fail>
    requires some { 1 ≤ limit }
    requires few { limit ≤ 20000 }
{
    let tables = AttackTables::open(alloc)?;
    let board = Bits::new(&tables);
    let scratch = Bits::new(&tables);
    let mut bits = Session::open(alloc, board, scratch, Tags::default(), limit)?;
    check_rows(rt, alloc, way, &mut bits, rows)
}

// Reads each row as a transcript, and runs it in this session.
fn check_rows<B: Board>(
    rt: &impl Abort,
    alloc: Global,
    way: Way,
    session: &mut Session<B>,
    rows: &[&[u8]],
) -> Result<(), Fail> {
    for text in rows {
        let row = Transcript::read(alloc, text)?;
        check_row(rt, alloc, way, session, &row)?;
    }
    Ok(())
}

// Runs one transcript in this way.
fn check_row<B: Board>(
    rt: &impl Abort,
    alloc: Global,
    way: Way,
    session: &mut Session<B>,
    row: &Transcript,
) -> Result<(), Fail> {
    match way {
        Way::Pieces => in_pieces(rt, alloc, session, row),
        Way::Cut => cut_after_each_byte(rt, alloc, session, row)?,
        Way::FailingReads => failing_reads(rt, alloc, session, row),
        Way::FailingWrites => failing_writes(rt, alloc, session, row),
        Way::FullWriter => full_writer(rt, alloc, session, row),
        Way::Gated => gated(rt, alloc, session, row),
        Way::Begun => begun(rt, alloc, session, row),
    }
    Ok(())
}

// Runs a session on this input over healthy devices, in pieces of up to 1,024 bytes.
fn run_whole<B: Board>(alloc: Global, session: &mut Session<B>, input: &[u8]) -> Outcome {
    run(
        alloc,
        session,
        PieceReader::new(input, 1024, 0),
        PieceWriter::new(alloc, 1024, 0),
    )
}

// The answers are the same, however many bytes each read gives and each write takes.
fn in_pieces<B: Board>(rt: &impl Abort, alloc: Global, session: &mut Session<B>, row: &Transcript) {
    for cut in [1, 2, 3, 7, 1024] {
        in_pieces_of(rt, alloc, session, row, cut);
    }
}

// The same with at most `cut` bytes at a time.
fn in_pieces_of<B: Board>(
    rt: &impl Abort,
    alloc: Global,
    session: &mut Session<B>,
    row: &Transcript,
    cut: usize,
) {
    let reader = PieceReader::new(row.input.as_slice(), cut.max(1), 0);
    let outcome = run(alloc, session, reader, PieceWriter::new(alloc, cut, 0));
    let end = Ok(row.end_at(row.input.len()));
    came_to(rt, &outcome, end, row.answers.as_slice());
}

// Lets the input end after each number of bytes.
fn cut_after_each_byte<B: Board>(
    rt: &impl Abort,
    alloc: Global,
    session: &mut Session<B>,
    row: &Transcript,
) -> Result<(), Fail> {
    for read in 0..row.input.len() {
        cut_after(rt, alloc, session, row, read)?;
    }
    Ok(())
}

// Lets the input end after `read` bytes. The whole lines are answered as ever, and what is left is answered like a line
// with these bytes that ends with byte 10: the same is written as for the input with that byte added.
fn cut_after<B: Board>(
    rt: &impl Abort,
    alloc: Global,
    session: &mut Session<B>,
    row: &Transcript,
    read: usize,
) -> Result<(), Fail> {
    let input = front(row.input.as_slice(), read);
    let outcome = run_whole(alloc, session, input);
    let line = ended_line(alloc, input)?;
    let ended = run_whole(alloc, session, line.as_slice());
    came_to(rt, &outcome, Ok(row.end_at(read)), ended.written.as_slice());
    begins_as_the_row(rt, ended.written.as_slice(), row, read);
    Ok(())
}

// Asserts that `written`, which came of the first `read` bytes and a byte 10, begins with the row's answers to the
// lines that are whole by then. Where these bytes end after a whole line, or where the row goes on with byte 10, that
// is one more line of the row, and all of `written` is in the row too.
fn begins_as_the_row(rt: &impl Abort, written: &[u8], row: &Transcript, read: usize) {
    let begun = row.at_byte(read);
    let answers = row.answers.as_slice();
    is_equal(
        rt,
        &front(written, begun.written),
        &front(answers, begun.written),
    );
    if begun.read == read || row.input.get(read) == Some(&b'\n') {
        let next = row.at_byte(read.saturating_add(1));
        is_equal(rt, &written, &front(answers, next.written));
    }
}

// Lets the read after each number of bytes fail, and the read at the input's end.
fn failing_reads<B: Board>(
    rt: &impl Abort,
    alloc: Global,
    session: &mut Session<B>,
    row: &Transcript,
) {
    let input = row.input.as_slice();
    for read in 0..input.len() {
        let reader = PieceReader::new(input, 1, (read as u64).saturating_add(1));
        failing_read(rt, alloc, session, row, reader, read);
    }
    let at_end = (input.len() as u64).saturating_add(1);
    failing_read(
        rt,
        alloc,
        session,
        row,
        PieceReader::new(input, 1, at_end),
        input.len(),
    );
}

// Runs the row with this reader, which fails after `read` bytes: the lines that were whole by then were answered, and
// the fault is reported.
fn failing_read<B: Board>(
    rt: &impl Abort,
    alloc: Global,
    session: &mut Session<B>,
    row: &Transcript,
    reader: PieceReader<'_>,
    read: usize,
) {
    let outcome = run(alloc, session, reader, PieceWriter::new(alloc, 1024, 0));
    let answers = front(row.answers.as_slice(), row.at_byte(read).written);
    came_to(rt, &outcome, row.fault_at(read), answers);
}

// Lets each call of the writer fail in turn; it makes one for each byte of an answer, and one to flush it. At last the
// call after all of these would fail, which isn't made.
fn failing_writes<B: Board>(
    rt: &impl Abort,
    alloc: Global,
    session: &mut Session<B>,
    row: &Transcript,
) {
    let calls = row.at_byte(row.input.len()).calls;
    for call in 0..calls {
        failing_write(rt, alloc, session, row, call);
    }
    let end = row.end_at(row.input.len());
    let reader = PieceReader::new(row.input.as_slice(), 1024, 0);
    let outcome = run(
        alloc,
        session,
        reader,
        PieceWriter::new(alloc, 1, (calls as u64).saturating_add(1)),
    );
    came_to(rt, &outcome, Ok(end), row.answers.as_slice());
    is_equal(rt, &outcome.calls, &(calls as u64));
}

// Lets the call numbered `call` fail, counted from 0. What was taken by then are the answers to the lines before, and
// of this line's answer a byte for each call since.
fn failing_write<B: Board>(
    rt: &impl Abort,
    alloc: Global,
    session: &mut Session<B>,
    row: &Transcript,
    call: usize,
) {
    let reader = PieceReader::new(row.input.as_slice(), 1024, 0);
    let writer = PieceWriter::new(alloc, 1, (call as u64).saturating_add(1));
    let outcome = run(alloc, session, reader, writer);
    let line = row.at_call(call);
    let taken = line.written.saturating_add(call.saturating_sub(line.calls));
    came_to(
        rt,
        &outcome,
        Err(Fault::Write),
        front(row.answers.as_slice(), taken),
    );
}

// With a writer that takes no byte the first answer fails; nothing is written. A row without answers ends as ever.
fn full_writer<B: Board>(
    rt: &impl Abort,
    alloc: Global,
    session: &mut Session<B>,
    row: &Transcript,
) {
    let reader = PieceReader::new(row.input.as_slice(), 1024, 0);
    let outcome = run(alloc, session, reader, PieceWriter::new(alloc, 0, 0));
    let end = if row.answers.is_empty() {
        Ok(row.end_at(row.input.len()))
    } else {
        Err(Fault::Write)
    };
    came_to(rt, &outcome, end, b"");
}

// Runs the row behind a gate that opens where an answer is flushed: no read came too early (which the outcome has as
// its `calls`).
fn gated<B: Board>(rt: &impl Abort, alloc: Global, session: &mut Session<B>, row: &Transcript) {
    let outcome = run_gated(alloc, session, row.input.as_slice());
    came_to(
        rt,
        &outcome,
        Ok(row.end_at(row.input.len())),
        row.answers.as_slice(),
    );
    is_equal(rt, &outcome.calls, &0);
}

// The row has only a beginning of what is written.
fn begun<B: Board>(rt: &impl Abort, alloc: Global, session: &mut Session<B>, row: &Transcript) {
    let outcome = run_whole(alloc, session, row.input.as_slice());
    let answers = row.answers.as_slice();
    is_equal(
        rt,
        &front(outcome.written.as_slice(), answers.len()),
        &answers,
    );
}
