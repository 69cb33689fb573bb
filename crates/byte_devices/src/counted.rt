//! `Counted`, which makes an `Input` of any reader of std and an `Output` of any writer.

ghost use Rattle.std.specs.Prelude.{◌≡◌, ◌==◌, ◌-◌, ◌^◌, ◌<◌, [], false, not, nat_lt};
ghost use Rattle.byte_devices.specs.Devices.{saturating_increment, WaitStep, TookThenFailed};
ghost use Rattle.byte_devices.specs.ties.Counting.{no_counts, one_failure_more, passed_on, counts_after_read, write_passed_on, counts_after_write, counts_after_flush};

use crate::traits::{Input, Output, ReadFault, WriteFault};
use std::io::{self, Read, Write};

// What is counted of a device's calls, in the order of the fields: calls that failed; reads that reported the end of
// the input; how many bytes the last successful read gave; pieces, which are the reads that succeeded (also at the end)
// and the waits in which nothing came; these waits alone; the bytes written since the last successful flush.
#[derive(Drop)]
pub(crate) struct Counts {
    failures: u64,
    ends: u64,
    last: usize,
    pieces: u64,
    silences: u64,
    unflushed: u64,
}

// Counting a device's answers.
impl Counts {
    // The counts before the first call: all 0.
    fn new() -> Self
        ensures { result ≡ no_counts }
    {
        Counts {
            failures: 0,
            ends: 0,
            last: 0,
            pieces: 0,
            silences: 0,
            unflushed: 0,
        }
    }

    // Whether 2^64 - 1 pieces were counted (reads that succeeded, also with `Ok(0)`, and waits in which nothing came),
    // so that no more can be counted. Every later read is then a failure.
    fn is_spent(&self) -> bool
        ensures value { result ≡ (self.now.pieces == 2 ^ 64 - 1) }
        ensures room { result ≡ false → self.now.pieces < 2 ^ 64 - 1 }
    {
        self.pieces == u64::MAX
    }

    // Counts one failed call.
    fn fail(&mut self)
        ensures { self.new ≡ one_failure_more self.old }
    {
        self.failures = count_up(self.failures);
    }

    // Counts a read by what the device returned, and returns that, with `ReadFault` for any error: `Ok(0)` reports the
    // end of the input, `Err` is a failure.
    fn end_read(&mut self, answered: io::Result<usize>) -> Result<usize, ReadFault>
        requires { self.old.pieces < 2 ^ 64 - 1 }
        ensures answer { result ≡ passed_on (record {}) answered }
        ensures counts { self.new ≡ counts_after_read self.old answered }
    {
        match answered {
            Ok(count) => {
                self.pieces += 1;
                self.last = count;
                if count == 0 {
                    self.ends = count_up(self.ends);
                }
                Ok(count)
            }
            Err(_) => {
                self.fail();
                Err(ReadFault)
            }
        }
    }

    // Counts a write of `len` bytes by what the device returned, and returns that. `Ok(0)` for a text that isn't empty
    // is a failure, as `Err` is; both become `WriteFault`.
    fn end_write(&mut self, len: usize, answered: io::Result<usize>) -> Result<usize, WriteFault>
        ensures answer { result ≡ write_passed_on (record {}) len answered }
        ensures counts { self.new ≡ counts_after_write self.old result }
    {
        match answered {
            Ok(0) if len > 0 => {
                self.fail();
                Err(WriteFault)
            }
            Ok(count) => {
                self.unflushed = self.unflushed.saturating_add(count as u64);
                Ok(count)
            }
            Err(_) => {
                self.fail();
                Err(WriteFault)
            }
        }
    }

    // Counts a flush by what the device returned: after a success 0 bytes are unflushed, `Err` becomes `WriteFault`.
    fn end_flush(&mut self, answered: io::Result<()>) -> Result<(), WriteFault>
        ensures answer { result ≡ passed_on (record {}) answered }
        ensures counts { self.new ≡ counts_after_flush self.old result }
    {
        match answered {
            Ok(()) => {
                self.unflushed = 0;
                Ok(())
            }
            Err(_) => {
                self.fail();
                Err(WriteFault)
            }
        }
    }
}

/// Makes an `Input` of any reader of std, and an `Output` of any writer, and counts the calls. Each call makes one call
/// of the device, with the same bytes. Each `Err` is a failure, and so is a write of some bytes that takes none. A
/// count that has reached 2^64 - 1 stays there; after 2^64 - 1 pieces (reads that succeeded, and waits in which nothing
/// came) each read is a failure, without a call of the device.
#[derive(Drop)]
pub struct Counted<D> {
    device: D,
    counts: Counts,
}

impl<D> Counted<D> {
    // Wraps a device, with all counts 0.
    fn new(device: D) -> Self
        ensures { result ≡ record { device = device; counts = no_counts } }
    {
        Counted {
            device,
            counts: Counts::new(),
        }
    }
}

impl<R: Read> Counted<R> {
    /// An `Input` that reads from `reader`. Nothing is buffered: each piece is one call of the reader's `read`.
    pub fn reading(reader: R) -> Self
        ensures { ⟦<Counted<R> as Input>⟧.seen result
            ≡ record {
              known_bytes = R.remaining reader;
              failure_count = 0;
              end_count = 0;
              last_len = 0;
              pieces_left = 2 ^ 64 - 1;
              silence_count = 0;
            } }
    {
        Counted::new(reader)
    }

    /// The reader that was passed to `reading`.
    pub fn reader(&self) -> &R
        ensures { R.remaining result.now ≡ (⟦<Counted<R> as Input>⟧.seen self.now).known_bytes }
    {
        &self.device
    }

    /// Counts a wait in which nothing came, as a silence and as one of the 2^64 - 1 pieces. It is for an input that
    /// wraps this one and does the waiting. Returns whether the wait was counted: not if no piece is left.
    pub fn fall_silent(&mut self) -> bool
        ensures step { WaitStep (⟦<Counted<R> as Input>⟧.seen self.old) (⟦<Counted<R> as Input>⟧.seen self.new)
            (not result) }
        ensures counted { result ≡ nat_lt 0 (⟦<Counted<R> as Input>⟧.seen self.old).pieces_left }
        ensures device { self.new.device ≡ self.old.device }
    {
        if self.counts.is_spent() {
            return false;
        }
        self.counts.pieces += 1;
        self.counts.silences = count_up(self.counts.silences);
        true
    }
}

impl<W: Write> Counted<W> {
    /// An `Output` that writes to `writer`. Nothing is buffered: each write is one call of the writer's `write`.
    pub fn writing(writer: W) -> Self
        ensures { ⟦<Counted<W> as Output>⟧.seen result
            ≡ record { known_bytes = W.contents writer; failure_count = 0; unflushed = 0 } }
    {
        Counted::new(writer)
    }

    /// The writer that was passed to `writing`.
    pub fn writer(&self) -> &W
        ensures { W.contents result.now ≡ (⟦<Counted<W> as Output>⟧.seen self.now).known_bytes }
    {
        &self.device
    }

    /// Counts a failed call without calling the writer, as for a write that could not go on, and returns the fault.
    pub fn fail_write(&mut self) -> WriteFault
        ensures step { TookThenFailed (⟦<Counted<W> as Output>⟧.seen self.old) (⟦<Counted<W> as Output>⟧.seen self.new)
            [] }
        ensures device { self.new.device ≡ self.old.device }
    {
        self.counts.fail();
        WriteFault
    }

    /// Gives back the writer that was passed to `writing`, and drops the counts.
    pub fn into_writer(self) -> W
        ensures { W.contents result ≡ (⟦<Counted<W> as Output>⟧.seen self).known_bytes }
    {
        let Counted { device, counts: _ } = self;
        device
    }
}

// `count + 1`, but at most `u64::MAX`: a counter that has reached it stays there.
#[tactic(auto, unfolding(crate::specs::Devices::saturating_increment))]
pub(crate) fn count_up(count: u64) -> u64
    ensures { result ≡ saturating_increment count }
{
    count.saturating_add(1)
}

impl<R: Read> Input for Counted<R> {
    ghost use Rattle.std.specs.Prelude.{◌-◌, ◌^◌};

    ghost seen = { λ c. record {
      known_bytes = R.remaining c.device;
      failure_count = c.counts.failures;
      end_count = c.counts.ends;
      last_len = c.counts.last;
      pieces_left = 2 ^ 64 - 1 - c.counts.pieces;
      silence_count = c.counts.silences;
    } };

    // One `read` of the reader, counted. After 2^64 - 1 pieces it fails without a call of the reader.
    fn read(&mut self, buf: &mut [u8]) -> Result<usize, ReadFault> {
        if self.counts.is_spent() {
            self.counts.fail();
            return Err(ReadFault);
        }
        let answered = self.device.read(buf);
        self.counts.end_read(answered)
    }
}

impl<W: Write> Output for Counted<W> {
    ghost seen = { λ c. record {
      known_bytes = W.contents c.device;
      failure_count = c.counts.failures;
      unflushed = c.counts.unflushed;
    } };

    // One `write` of the wrapped writer, counted. An error, or 0 bytes taken of a text that isn't empty, gives
    // `WriteFault`.
    fn write(&mut self, buf: &[u8]) -> Result<usize, WriteFault> {
        let answered = self.device.write(buf);
        self.counts.end_write(buf.len(), answered)
    }

    // One `flush` of the wrapped writer, counted. An error gives `WriteFault`.
    fn flush(&mut self) -> Result<(), WriteFault> {
        let answered = self.device.flush();
        self.counts.end_flush(answered)
    }
}
