//! Runs of the program over memory, and assertions of what comes of them, for the other tests.

use byte_devices::{Counted, PieceReader, PieceWriter};
use chess_arbiter::{Log, ProcessHost, run_program};
use std::fmt::Debug;
use std::process::Abort;
use std::test::Fail;

/// Asserts that two values are equal. One function for all types, since an assertion for each costs much to prove.
pub fn is_equal<T: PartialEq + Debug>(rt: &impl Abort, found: &T, wanted: &T) {
    assert_eq!(rt; *found, *wanted);
}

/// How the devices of a run are cut, and at which call they fail (0: at none).
#[derive(Clone, Copy)]
pub struct Devices {
    /// The most bytes of a piece that is read.
    pub piece: usize,
    /// The call of the input that fails.
    pub read_fails: u64,
    /// The most bytes that one write takes.
    pub taken: usize,
    /// The call of the output that fails.
    pub write_fails: u64,
    /// The call of the error output that fails.
    pub errors_fail: u64,
}

/// Devices of which nothing fails, with pieces of up to 1,024 bytes.
pub const SOUND: Devices = Devices {
    piece: 1024,
    read_fails: 0,
    taken: 1024,
    write_fails: 0,
    errors_fail: 0,
};

/// What a run is to write, and its status.
#[derive(Clone, Copy)]
pub struct Wanted<'a> {
    pub output: &'a [u8],
    pub errors: &'a [u8],
    pub status: u8,
}

impl<'a> Wanted<'a> {
    /// This output and status, with nothing on the error output.
    pub fn without_errors(output: &'a [u8], status: u8) -> Self {
        Wanted {
            output,
            errors: b"",
            status,
        }
    }
}

/// What a run wrote, and its status.
#[derive(Drop)]
pub struct Outcome {
    pub output: Vec<u8>,
    pub errors: Vec<u8>,
    pub status: u8,
}

/// Runs the program on an input over such devices. (The big contract of `run_program` stays in here: tests compare
/// values.)
pub fn run(rt: &HostRuntime, arguments: &[&str], input: &[u8], devices: Devices) -> Outcome {
    let mut reader = Counted::reading(PieceReader::new(
        input,
        devices.piece.max(1),
        devices.read_fails,
    ));
    let mut output = Counted::writing(PieceWriter::new(
        rt.alloc(),
        devices.taken,
        devices.write_fails,
    ));
    let mut errors = Log::new(Counted::writing(PieceWriter::new(
        rt.alloc(),
        1024,
        devices.errors_fail,
    )));
    let status = run_program(
        &mut ProcessHost::new(rt, rt.alloc()),
        rt.alloc(),
        arguments,
        &mut reader,
        &mut output,
        &mut errors,
    );
    Outcome {
        output: output.into_writer().bytes,
        errors: errors.into_output().into_writer().bytes,
        status,
    }
}

impl Outcome {
    /// Asserts that it is what was wanted.
    pub fn check(&self, rt: &impl Abort, wanted: Wanted<'_>) {
        is_equal(rt, &self.output.as_slice(), &wanted.output);
        is_equal(rt, &self.errors.as_slice(), &wanted.errors);
        is_equal(rt, &self.status, &wanted.status);
    }
}

/// Runs the program over memory, and asserts its output and status, with nothing on the error output.
pub fn check_output(
    rt: &impl Abort,
    host: &HostRuntime,
    arguments: &[&str],
    input: &[u8],
    devices: Devices,
    output: &[u8],
    status: u8,
) {
    run(host, arguments, input, devices).check(rt, Wanted::without_errors(output, status));
}

/// A run of the program over memory: its arguments and its input; which call of the input and which of the output fails
/// (0: none); and what it is to write on the output and the error output, and its status.
pub struct ProgramRun {
    pub arguments: &'static [&'static str],
    pub input: &'static [u8],
    pub fails: (u64, u64),
    pub output: &'static [u8],
    pub errors: &'static [u8],
    pub status: u8,
}

impl ProgramRun {
    /// Runs the program, and asserts what comes of it.
    pub fn check(&self, rt: &impl Abort, host: &HostRuntime) {
        let devices = Devices {
            read_fails: self.fails.0,
            write_fails: self.fails.1,
            ..SOUND
        };
        let wanted = Wanted {
            output: self.output,
            errors: self.errors,
            status: self.status,
        };
        run(host, self.arguments, self.input, devices).check(rt, wanted);
    }
}

/// Asserts that a text is `wanted`, so that a failure shows both as texts.
pub fn is_text(rt: &impl Abort, text: &[u8], wanted: &str) -> Result<(), Fail> {
    is_equal(rt, &std::str::from_utf8(text)?, &wanted);
    Ok(())
}

/// Runs the program with each of several lengths of what a read gives and a write takes, and asserts what comes of it
/// each time.
pub fn check_in_all_pieces(
    rt: &impl Abort,
    host: &HostRuntime,
    arguments: &[&str],
    input: &[u8],
    wanted: Wanted<'_>,
) {
    for piece in [1, 2, 3, 1024] {
        for taken in [1, 2, 1024] {
            let devices = Devices {
                piece,
                taken,
                ..SOUND
            };
            run(host, arguments, input, devices).check(rt, wanted);
        }
    }
}
