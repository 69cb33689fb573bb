//! Readers that make their bytes as they are read, for tests of long inputs.

ghost use Rattle.std.specs.Prelude.{◌≤◌, length};

use crate::runs::Outcome;
use byte_devices::Counted;
use chess_arbiter::{Log, ProcessHost, run_program};
use std::io::{self, Read};

/// An input of spaces without an end.
#[derive(Drop)]
pub struct Spaces;

impl Read for Spaces {
    ghost use Rattle.std.specs.Prelude.{None};

    ghost remaining = { λ b. None };

    fn read(&mut self, buf: &mut [u8]) -> io::Result<usize> {
        buf.fill(b' ');
        Ok(buf.len())
    }
}

/// A text in three parts: `front`, then `inner` bytes `a`, then `back`. No read gives bytes of two parts.
#[derive(Drop)]
pub struct Parts {
    pub front: &'static [u8],
    pub inner: usize,
    pub back: &'static [u8],
}

// Puts as much of a text's front into the front of `buf` as has room there, takes it off the text, and gives its
// length.
fn give(text: &mut &'static [u8], buf: &mut [u8]) -> usize
    ensures { result ≤ length buf.old }
{
    let count = text.len().min(buf.len());
    let (piece, rest) = text.split_at(count);
    buf[..count].copy_from_slice(piece);
    *text = rest;
    count
}

impl Read for Parts {
    ghost use Rattle.std.specs.Prelude.{None};

    ghost remaining = { λ b. None };

    fn read(&mut self, buf: &mut [u8]) -> io::Result<usize> {
        if !self.front.is_empty() {
            return Ok(give(&mut self.front, buf));
        }
        let count = self.inner.min(buf.len());
        if count == 0 {
            return Ok(give(&mut self.back, buf));
        }
        buf[..count].fill(b'a');
        self.inner -= count;
        Ok(count)
    }
}

/// Runs the program on what a reader gives, with all that it writes in memory.
pub fn run_on<R: Read + Drop>(rt: &HostRuntime, arguments: &[&str], reader: R) -> Outcome {
    let mut input = Counted::reading(reader);
    let mut output = Counted::writing(Vec::<u8>::new(rt.alloc()));
    let mut errors = Log::new(Counted::writing(Vec::<u8>::new(rt.alloc())));
    let status = run_program(
        &mut ProcessHost::new(rt, rt.alloc()),
        rt.alloc(),
        arguments,
        &mut input,
        &mut output,
        &mut errors,
    );
    Outcome {
        output: output.into_writer(),
        errors: errors.into_output().into_writer(),
        status,
    }
}
