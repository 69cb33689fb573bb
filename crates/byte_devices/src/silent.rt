//! An input that is silent for a while, for tests of what a caller does meanwhile.

ghost use Rattle.std.specs.Prelude.{◌≡◌, ◌<◌, ◌≤◌, ◌-◌, ◌^◌, ◌==◌, ◌&&◌, length, not, nat_lt, if◌then◌else◌, IfOk, OnErr};
ghost use Rattle.byte_devices.specs.Devices.{ReadStep, WaitStep};

use crate::counted::Counted;
use crate::traits::{Input, ReadFault};
use std::io::Read;

/// An input for tests: it gives `bytes` bytes, then `silences` waits find nothing, and then it goes on. Reads don't
/// wait: one that is called during the silence gives the bytes after it.
#[derive(Drop)]
pub struct SilentAfter<R> {
    /// The input that gives the bytes.
    pub input: Counted<R>,
    /// How many bytes are still to be given before the silence.
    pub bytes: usize,
    /// How many waits find nothing, once these bytes were given.
    pub silences: u64,
}

impl<R: Read> SilentAfter<R> {
    /// An input that reads from `reader`, with `bytes` and `silences` as in `SilentAfter`.
    pub fn new(reader: R, bytes: usize, silences: u64) -> Self
        ensures input { ⟦<Counted<R> as Input>⟧.seen result.input
            ≡ record {
              known_bytes = R.remaining reader;
              failure_count = 0;
              end_count = 0;
              last_len = 0;
              pieces_left = 2 ^ 64 - 1;
              silence_count = 0;
            } }
        ensures bytes { result.bytes ≡ bytes }
        ensures silences { result.silences ≡ silences }
    {
        SilentAfter {
            input: Counted::reading(reader),
            bytes,
            silences,
        }
    }
}

impl<R: Read> Input for SilentAfter<R> {
    ghost seen = { λ s. ⟦<Counted<R> as Input>⟧.seen s.input };

    // Reads once from `input`; before the silence it asks for no byte that comes after it.
    fn read(&mut self, buf: &mut [u8]) -> Result<usize, ReadFault>
        requires { 0 < length buf.old }
        ensures step { ReadStep (⟦<Counted<R> as Input>⟧.seen self.old.input)
            (⟦<Counted<R> as Input>⟧.seen self.new.input) result buf.new }
        ensures place { 0 < self.old.bytes → IfOk result (λ n. n ≤ self.old.bytes) }
        ensures bytes { IfOk result (λ n. self.new.bytes ≡ self.old.bytes - n) }
        ensures same { OnErr result (self.new.bytes ≡ self.old.bytes) }
        ensures silences { self.new.silences ≡ self.old.silences }
    {
        if self.bytes == 0 {
            return self.input.read(buf);
        }
        let len = self.bytes.min(buf.len());
        let count = self.input.read(&mut buf[..len])?;
        self.bytes -= count;
        Ok(count)
    }

    // Returns false, as nothing came, if `bytes` is 0, `silences` is not, and one more silence can be counted;
    // `silences` is then one less. Otherwise returns true. It takes no time.
    fn wait(&mut self, _until: u64) -> bool
        ensures step { WaitStep (⟦<Counted<R> as Input>⟧.seen self.old.input)
            (⟦<Counted<R> as Input>⟧.seen self.new.input) result }
        ensures silent { result ≡ not (self.old.bytes == 0 && nat_lt 0 self.old.silences
            && nat_lt 0 (⟦<Counted<R> as Input>⟧.seen self.old.input).pieces_left) }
        ensures bytes { self.new.bytes ≡ self.old.bytes }
        ensures silences { self.new.silences ≡ (if result then self.old.silences else self.old.silences - 1) }
    {
        if self.bytes > 0 || self.silences == 0 {
            return true;
        }
        if !self.input.fall_silent() {
            return true;
        }
        self.silences -= 1;
        false
    }
}
