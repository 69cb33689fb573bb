//! A reader and a writer over memory, for tests: each call gives or takes at most `cut` bytes, and one call may be
//! chosen to fail.

ghost use Rattle.std.specs.Prelude.{◌≡◌, [], ◌<◌, ◌+◌, ◌⊎◌, ◌↔◌, min, length, IsErr, IfOk, IfErr, OnErr, vec_len, vec_capacity};
ghost use Rattle.std.specs.Io.{ReadsAtMost, WritesAtMost};
ghost use Rattle.std.specs.Io.KnownBytes.{ReadConsumes, WriteAppends, Keeps};
ghost use Rattle.byte_devices.specs.Devices.{saturating_increment};

use crate::counted::count_up;
use std::alloc::Global;
use std::io::{Error, ErrorKind, Read, Result, Write};

/// A reader over memory, for tests. Each call gives at most `cut` bytes; the call numbered `fails_at` (the first is 1)
/// fails and gives none, and 0 means that no call fails.
#[derive(Drop)]
pub struct PieceReader<'a> {
    /// The bytes that are still to be given.
    pub rest: &'a [u8],
    /// The most bytes of a piece.
    pub cut: usize,
    /// The number of the call that fails, 0 for none.
    pub fails_at: u64,
    /// How many calls there were.
    pub calls: u64,
    ghost cut_some: { 0 < cut },
}

impl<'a> PieceReader<'a> {
    /// A reader of `bytes` that was not called yet, with `cut` and `fails_at` as in `PieceReader`.
    pub fn new(bytes: &'a [u8], cut: usize, fails_at: u64) -> Self
        requires { 0 < cut }
        ensures bytes { result.rest.now ≡ bytes.now }
        ensures cut { result.cut ≡ cut }
        ensures fails { result.fails_at ≡ fails_at }
        ensures calls { result.calls ≡ 0 }
    {
        PieceReader {
            rest: bytes,
            cut,
            fails_at,
            calls: 0,
        }
    }
}

impl Read for PieceReader<'_> {
    ghost use Rattle.std.specs.Prelude.{Some};

    ghost remaining = { λ r. Some r.rest.now };

    // Gives at most `cut` bytes, or fails if this is the call numbered `fails_at`.
    fn read(&mut self, buf: &mut [u8]) -> Result<usize>
        ensures bound { ReadsAtMost result buf.new }
        ensures bytes { ReadConsumes (Some self.old.rest.now) (Some self.new.rest.now) result buf.new }
        ensures calls { self.new.calls ≡ saturating_increment self.old.calls }
        ensures fails { IsErr result ↔ (self.new.calls ≡ self.old.fails_at) }
        ensures len { IfOk result (λ n. n ≡ min self.old.cut (min (length buf.old) (length self.old.rest.now))) }
        ensures cut { self.new.cut ≡ self.old.cut }
        ensures fails_at { self.new.fails_at ≡ self.old.fails_at }
    {
        self.calls = count_up(self.calls);
        if self.calls == self.fails_at {
            return Err(Error::from(ErrorKind::Other));
        }
        let count = self.cut.min(buf.len()).min(self.rest.len());
        let (piece, rest) = self.rest.split_at(count);
        buf[..count].copy_from_slice(piece);
        self.rest = rest;
        Ok(count)
    }
}

/// A writer into memory, for tests. Each write takes at most `cut` bytes; the call numbered `fails_at` (the first is 1;
/// writes and flushes are counted together) fails and takes none, and 0 means that no call fails.
#[derive(Drop)]
pub struct PieceWriter {
    /// The bytes that it took.
    pub bytes: Vec<u8>,
    /// The most bytes that it takes at a time.
    pub cut: usize,
    /// The number of the call that fails, 0 for none.
    pub fails_at: u64,
    /// How many calls there were.
    pub calls: u64,
}

impl PieceWriter {
    /// An empty writer that was not called yet, with `cut` and `fails_at` as in `PieceWriter`.
    pub fn new(alloc: Global, cut: usize, fails_at: u64) -> Self
        ensures bytes { result.bytes.items ≡ [] }
        ensures cut { result.cut ≡ cut }
        ensures fails { result.fails_at ≡ fails_at }
        ensures calls { result.calls ≡ 0 }
    {
        PieceWriter {
            bytes: Vec::new(alloc),
            cut,
            fails_at,
            calls: 0,
        }
    }
}

impl Write for PieceWriter {
    ghost use Rattle.std.specs.Prelude.{Some};

    ghost contents = { λ w. Some w.bytes.items };

    // Takes at most `cut` bytes, or fails if this is the call numbered `fails_at`.
    fn write(&mut self, buf: &[u8]) -> Result<usize>
        ensures bound { WritesAtMost result buf.now }
        ensures bytes { WriteAppends (Some self.old.bytes.items) (Some self.new.bytes.items) result buf.now }
        ensures calls { self.new.calls ≡ saturating_increment self.old.calls }
        ensures fails { self.new.calls ≡ self.old.fails_at → IsErr result }
        // Any other call fails only if `bytes` has no capacity left for what it takes.
        ensures only { OnErr result
            ((self.new.calls ≡ self.old.fails_at)
            ⊎ (vec_capacity self.old.bytes < vec_len self.old.bytes + min self.old.cut (length buf.now))) }
        ensures len { IfOk result (λ n. n ≡ min self.old.cut (length buf.now)) }
        ensures cut { self.new.cut ≡ self.old.cut }
        ensures fails_at { self.new.fails_at ≡ self.old.fails_at }
    {
        self.calls = count_up(self.calls);
        if self.calls == self.fails_at {
            return Err(Error::from(ErrorKind::Other));
        }
        let count = self.cut.min(buf.len());
        self.bytes.extend_from_slice(&buf[..count])?;
        Ok(count)
    }

    // Does nothing but count the call, and fails if it is the one numbered `fails_at`.
    fn flush(&mut self) -> Result<()>
        ensures bytes { Keeps (Some self.old.bytes.items) (Some self.new.bytes.items) }
        ensures calls { self.new.calls ≡ saturating_increment self.old.calls }
        ensures fails { IsErr result ↔ (self.new.calls ≡ self.old.fails_at) }
        ensures cut { self.new.cut ≡ self.old.cut }
        ensures fails_at { self.new.fails_at ≡ self.old.fails_at }
    {
        self.calls = count_up(self.calls);
        if self.calls == self.fails_at {
            return Err(Error::from(ErrorKind::Other));
        }
        Ok(())
    }
}
