//! The pipes of an engine's process, with limits to waiting for them.

ghost use Rattle.std.specs.Prelude.{◌≡◌, ◌≤◌, ◌-◌, ◌^◌, length, take};

use crate::moments::SinceStart;
use byte_devices::{Counted, Input, Output, ReadFault, WriteFault};
use chess_match::Moments;
use libc::net;
use libc::types::pollfd;
use std::io::{Read, Write};
use std::os::fd::AsRawFd;
use std::rt::Clock;

// How often a wait is begun at most, since a signal may end it.
const MOST_RESTARTS: u32 = 16;

// Waits, at most `millis` milliseconds, until `end` is ready for what `events` asks (to be read, `POLLIN`, or written,
// `POLLOUT`), and returns whether it is. After a signal the whole wait begins anew. What the system can't wait for
// counts as ready.
fn is_ready<S: AsRawFd>(end: &S, events: i16, millis: u64) -> bool {
    let mut fds = [pollfd {
        fd: end.as_raw_fd(),
        events,
        revents: 0,
    }];
    for _ in 0..MOST_RESTARTS {
        let count = net::poll(&mut fds, i32::try_from(millis).unwrap_or(i32::MAX));
        if count >= 0 {
            return count > 0;
        }
    }
    true
}

// How many looks in a row may begin after the moment until which an output is waited for, and still find a piece of it.
// 64 reads of 1,024 bytes (`Lines`) are the 65,536 bytes of a Linux pipe: so what had come by that moment is given, but
// an output that never ends a line doesn't go on for ever.
const MOST_LATE: u32 = 64;

/// An engine's output, with the clock by which it is waited for.
#[derive(Drop)]
pub struct EngineOutput<'t, T, S> {
    /// A copy of the command by which the engine was started.
    pub(crate) command: String,
    pipe: Counted<S>,
    clock: SinceStart<'t, T>,
    /// How many looks in a row began after the moment until which they were to wait, at most `MOST_LATE`.
    late: u32,
}

impl<'t, T: Clock, S: Read> EngineOutput<'t, T, S> {
    /// The output that this end of a pipe gives, waited for by this clock; `command` is the engine's.
    pub fn new(command: String, end: S, clock: SinceStart<'t, T>) -> Self
        ensures command { result.command ≡ command }
        ensures seen { ⟦<Counted<S> as Input>⟧.seen result.pipe
            ≡ record {
              known_bytes = S.remaining end;
              failure_count = 0;
              end_count = 0;
              last_len = 0;
              pieces_left = 2 ^ 64 - 1;
              silence_count = 0;
            } }
    {
        EngineOutput {
            command,
            pipe: Counted::reading(end),
            clock,
            late: 0,
        }
    }
}

impl<T: Clock, S: Read + AsRawFd> EngineOutput<'_, T, S> {
    // Whether a read would return at once, at the latest when the clock shows `until`: the system is asked to wait so
    // long. If the clock already shows more, nothing is waited for, and only `MOST_LATE` pieces in a row are found.
    fn comes_by(&mut self, until: u64) -> bool
        ensures pipe { self.new.pipe ≡ self.old.pipe }
    {
        let now = self.clock.now();
        if now <= until {
            self.late = 0;
        } else if self.late >= MOST_LATE {
            return false;
        } else {
            self.late += 1;
        }
        is_ready(self.pipe.reader(), net::POLLIN, until.saturating_sub(now))
    }
}

impl<T: Clock, S: Read + AsRawFd> Input for EngineOutput<'_, T, S> {
    ghost seen = { λ o. ⟦<Counted<S> as Input>⟧.seen o.pipe };

    // Reads the pipe once.
    fn read(&mut self, buf: &mut [u8]) -> Result<usize, ReadFault> {
        self.pipe.read(buf)
    }

    // Waits until the pipe can be read, at most until the clock shows `until`, and returns whether it can; if not, this
    // is counted as a silence (but a pipe of which no more reads could be counted always counts as ready).
    fn wait(&mut self, until: u64) -> bool {
        if self.comes_by(until) {
            return true;
        }
        !self.pipe.fall_silent()
    }
}

// The most bytes that a pipe which is ready takes at once without waiting (Linux's PIPE_BUF).
const PIPE_LEN: usize = 4096;

/// An engine's input. With a limit, a write that can't go on for so many milliseconds fails.
#[derive(Drop)]
pub struct EngineInput<S> {
    /// A copy of the command by which the engine was started.
    pub(crate) command: String,
    pipe: Counted<S>,
    limit: Option<u64>,
}

impl<S: Write> EngineInput<S> {
    /// The input that this end of a pipe takes; a write waits for at most `limit` milliseconds, without it as long as
    /// it takes. `command` is the engine's.
    pub fn new(command: String, end: S, limit: Option<u64>) -> Self
        ensures command { result.command ≡ command }
        ensures seen { ⟦<Counted<S> as Output>⟧.seen result.pipe
            ≡ record { known_bytes = S.contents end; failure_count = 0; unflushed = 0 } }
    {
        EngineInput {
            command,
            pipe: Counted::writing(end),
            limit,
        }
    }
}

// The first `most` of these bytes, or all if there are fewer.
fn first_bytes(bytes: &[u8], most: usize) -> &[u8]
    ensures { result.now ≡ take most bytes.now }
{
    &bytes[..bytes.len().min(most)]
}

impl<S: Write + AsRawFd> Output for EngineInput<S> {
    ghost seen = { λ i. ⟦<Counted<S> as Output>⟧.seen i.pipe };

    // Writes to the pipe once. With a limit the pipe is waited for first, and gets at most so many bytes as it takes at
    // once (`PIPE_LEN`); the write fails if the pipe takes none within the limit.
    fn write(&mut self, buf: &[u8]) -> Result<usize, WriteFault> {
        let Some(millis) = self.limit else {
            return self.pipe.write(buf);
        };
        if is_ready(self.pipe.writer(), net::POLLOUT, millis) {
            return self.pipe.write(first_bytes(buf, PIPE_LEN));
        }
        Err(self.pipe.fail_write())
    }

    // Flushes the pipe.
    fn flush(&mut self) -> Result<(), WriteFault> {
        self.pipe.flush()
    }
}
