//! Runs of a session over devices of tests, and comparisons of what came of them. These functions have no clauses, so
//! the big contract of `run_session` stays in here and costs the tests nothing.

use byte_devices::{Counted, GatedReader, GatedWriter, PieceReader, PieceWriter};
use chess_cecp::{End, Fault, Session, run_session};
use chess_moves::Board;
use std::alloc::{AllocError, Global};
use std::cell::Cell;
use std::fmt::Debug;
use std::io::{Read, Write};
use std::process::Abort;

/// Asserts that two values are equal. One function for all types, since an assertion for each costs much to prove.
pub fn is_equal<T: PartialEq + Debug>(rt: &impl Abort, found: &T, wanted: &T) {
    assert_eq!(rt; *found, *wanted);
}

/// Runs a session from where it is, up to its end or a fault.
pub fn run_on<R: Read, W: Write, B: Board>(
    session: &mut Session<B>,
    reader: &mut Counted<R>,
    writer: &mut Counted<W>,
) -> Result<End, Fault> {
    run_session(reader, writer, session)
}

// Brings a session to where the command `new` leaves it, so that one session serves many rows.
fn begin_anew<B: Board>(alloc: Global, session: &mut Session<B>) {
    let mut reader = Counted::reading(PieceReader::new(b"new\n", 4, 0));
    let mut writer = Counted::writing(PieceWriter::new(alloc, 0, 0));
    let _end = run_on(session, &mut reader, &mut writer);
}

/// What came of a run: how it ended, what was written, and how many calls the writer had (of a gated run: how many
/// reads came too early).
#[derive(Drop)]
pub struct Outcome {
    pub end: Result<End, Fault>,
    pub written: Vec<u8>,
    pub calls: u64,
}

/// Runs a session from where `new` leaves it over these devices.
pub fn run<B: Board>(
    alloc: Global,
    session: &mut Session<B>,
    reader: PieceReader<'_>,
    writer: PieceWriter,
) -> Outcome {
    begin_anew(alloc, session);
    let mut reader = Counted::reading(reader);
    let mut writer = Counted::writing(writer);
    let end = run_on(session, &mut reader, &mut writer);
    let PieceWriter { bytes, calls, .. } = writer.into_writer();
    Outcome {
        end,
        written: bytes,
        calls,
    }
}

/// The same behind a gate: the input gives a line at a time, and the next one only once the answer to it was flushed.
/// The `calls` of the outcome are the reads that came too early.
pub fn run_gated<B: Board>(alloc: Global, session: &mut Session<B>, input: &[u8]) -> Outcome {
    begin_anew(alloc, session);
    let gate = Cell::new(true);
    let mut reader = Counted::reading(GatedReader::new(input, &gate));
    let mut writer = Counted::writing(GatedWriter::new(alloc, &gate));
    let end = run_on(session, &mut reader, &mut writer);
    let early = reader.reader().early;
    let GatedWriter { bytes, .. } = writer.into_writer();
    Outcome {
        end,
        written: bytes,
        calls: early,
    }
}

/// Asserts that a run ended so, and that this was written.
pub fn came_to(rt: &impl Abort, found: &Outcome, end: Result<End, Fault>, written: &[u8]) {
    is_equal(rt, &(found.end, found.written.as_slice()), &(end, written));
}

/// The first `len` bytes of a text, or all of it where it is shorter.
pub fn front(text: &[u8], len: usize) -> &[u8] {
    &text[..len.min(text.len())]
}

/// A text with byte 10 after it.
pub fn ended_line(alloc: Global, text: &[u8]) -> Result<Vec<u8>, AllocError> {
    let mut line = text.to_vec(alloc)?;
    line.push(b'\n')?;
    Ok(line)
}
