//! A reader and a writer over memory that share a gate, for tests that a program flushes its answer before it reads
//! more. Contracts don't mention whether the gate is open.

ghost use Rattle.std.specs.Prelude.{◌≡◌, [], ◌<◌, ◌≤◌, ◌==◌, ◌+◌, length, min, position, IsOk, IfOk, OnErr, IfSome, is_err, vec_len, vec_capacity, if◌then◌else◌};
ghost use Rattle.std.specs.Io.{ReadsAtMost, WritesAtMost};
ghost use Rattle.std.specs.Io.KnownBytes.{ReadConsumes, WriteAppends, Keeps};
ghost use Rattle.byte_devices.specs.Devices.{saturating_increment, first_line_len};

use crate::counted::count_up;
use std::alloc::Global;
use std::cell::Cell;
use std::io::{Error, ErrorKind, Read, Result, Write};

/// A reader for tests that a program flushes its answer to a line before it reads the next one. Each read gives one
/// line and shuts the gate, a write shuts it too, and a flush of the `GatedWriter` opens it. Where the gate is shut, a
/// read fails and is counted in `early`: it came before the answer to the last line was flushed.
#[derive(Drop)]
pub struct GatedReader<'a> {
    /// The bytes that are still to be given.
    pub rest: &'a [u8],
    /// How many reads failed because the gate was shut.
    pub early: u64,
    /// Whether the gate is open.
    pub open: &'a Cell<bool>,
}

impl<'a> GatedReader<'a> {
    /// A reader of `bytes`, which shares the gate `open` with a `GatedWriter`. The caller sets `open` to true at first,
    /// otherwise the first read fails.
    pub fn new(bytes: &'a [u8], open: &'a Cell<bool>) -> Self
        ensures bytes { result.rest.now ≡ bytes.now }
        ensures early { result.early ≡ 0 }
    {
        GatedReader {
            rest: bytes,
            early: 0,
            open,
        }
    }
}

// The offset of the text's first line feed (byte 10), if there is one. Only tests read here, so `len_before`, which is
// for long texts, is not needed.
fn line_end(text: &[u8]) -> Option<usize>
    ensures value { result ≡ position (λ b. b == 10) text.now }
    ensures in_range { IfSome result (λ at. at < length text.now) }
{
    text.iter().position(|byte| *byte == b'\n')
}

// The length of the first line, its line feed (byte 10) included; of the whole text, if it has none.
fn line_len(text: &[u8]) -> usize
    ensures value { result ≡ first_line_len text.now }
    ensures in_range { result ≤ length text.now }
    ensures some { 0 < length text.now → 0 < result }
{
    match line_end(text) {
        Some(at) => at + 1,
        None => text.len(),
    }
}

impl Read for GatedReader<'_> {
    ghost use Rattle.std.specs.Prelude.{Some};

    ghost remaining = { λ r. Some r.rest.now };

    // Gives one line, or as much of it as `buf` holds, and shuts the gate. If the gate was shut already, it fails, and
    // `early` counts one more.
    fn read(&mut self, buf: &mut [u8]) -> Result<usize>
        ensures bound { ReadsAtMost result buf.new }
        ensures bytes { ReadConsumes (Some self.old.rest.now) (Some self.new.rest.now) result buf.new }
        ensures line { IfOk result (λ n. n ≡ min (first_line_len self.old.rest.now) (length buf.old)) }
        ensures early { self.new.early
            ≡ (if is_err result then saturating_increment self.old.early else self.old.early) }
    {
        if !self.open.replace(false) {
            self.early = count_up(self.early);
            return Err(Error::from(ErrorKind::Other));
        }
        let count = line_len(self.rest).min(buf.len());
        let (piece, rest) = self.rest.split_at(count);
        buf[..count].copy_from_slice(piece);
        self.rest = rest;
        Ok(count)
    }
}

/// A writer into memory that takes each piece whole. A write shuts the gate, and a flush opens it.
#[derive(Drop)]
pub struct GatedWriter<'a> {
    /// The bytes that it took.
    pub bytes: Vec<u8>,
    /// Whether the gate is open.
    pub open: &'a Cell<bool>,
}

impl<'a> GatedWriter<'a> {
    /// An empty writer, which shares the gate `open` with a `GatedReader`.
    pub fn new(alloc: Global, open: &'a Cell<bool>) -> Self
        ensures { result.bytes.items ≡ [] }
    {
        GatedWriter {
            bytes: Vec::new(alloc),
            open,
        }
    }
}

impl Write for GatedWriter<'_> {
    ghost use Rattle.std.specs.Prelude.{Some};

    ghost contents = { λ w. Some w.bytes.items };

    // Takes all of `buf` and shuts the gate; it fails only where memory runs out.
    fn write(&mut self, buf: &[u8]) -> Result<usize>
        ensures bound { WritesAtMost result buf.now }
        ensures bytes { WriteAppends (Some self.old.bytes.items) (Some self.new.bytes.items) result buf.now }
        ensures whole { IfOk result (λ n. n ≡ length buf.now) }
        // It fails only where more memory was needed.
        ensures only { OnErr result (vec_capacity self.old.bytes < vec_len self.old.bytes + length buf.now) }
    {
        self.open.set(false);
        self.bytes.extend_from_slice(buf)?;
        Ok(buf.len())
    }

    // Opens the gate, so that the `GatedReader` gives its next line. It never fails.
    fn flush(&mut self) -> Result<()>
        ensures bytes { Keeps (Some self.old.bytes.items) (Some self.new.bytes.items) }
        ensures never_fails { IsOk result }
    {
        self.open.set(true);
        Ok(())
    }
}
