//! Devices of tests and counted devices: what each call gives, takes or fails at, and how often the device is called.

ghost use Rattle.std.specs.Prelude.{◌<◌, ◌≤◌, IfOk};

use byte_devices::{
    Counted, GatedReader, GatedWriter, Input, Output, PieceReader, PieceWriter, ReadFault,
    SilentAfter, WriteFault, len_before, len_before_any, put, put_parts,
};
use std::cell::Cell;
use std::fmt::Debug;
use std::io::{self, Read, Write};
use std::process::Abort;

// What the inputs of most tests below give: 9 bytes in two lines.
const TEXT: &[u8] = b"new\ne2e4\n";

// Asserts that two values are equal. One function for all types, since an assertion for each costs much to prove.
fn is_equal<T: PartialEq + Debug>(rt: &impl Abort, found: &T, wanted: &T) {
    assert_eq!(rt; *found, *wanted);
}

// Makes one read of at most 16 bytes, and asserts that it gives this piece or fails.
fn gives<R: Input>(rt: &impl Abort, input: &mut R, piece: Result<&[u8], ReadFault>) {
    let mut buffer = [0; 16];
    let given = match input.read(&mut buffer) {
        Ok(count) => Ok(&buffer[..count]),
        Err(fault) => Err(fault),
    };
    is_equal(rt, &given, &piece);
}

// Puts a text on an output, and asserts what `put` answers.
fn puts<W: Output>(rt: &impl Abort, output: &mut W, text: &[u8], wanted: Result<(), WriteFault>) {
    assert_eq!(rt; put(output, text), wanted, "put {text:?}");
}

// Flushes an output, and asserts what the flush answers.
fn is_flushed<W: Output>(rt: &impl Abort, output: &mut W, wanted: Result<(), WriteFault>) {
    is_equal(rt, &output.flush(), &wanted);
}

// Asserts that the bytes that a writer took are these.
fn is_taken(rt: &impl Abort, bytes: &[u8], wanted: &[u8]) {
    is_equal(rt, &bytes, &wanted);
}

// A slice gives its text by one read, and after that nothing, however often it is read.
#[test]
fn healthy_input_never_fails(rt: HostRuntime) {
    let mut input = Counted::reading(TEXT);
    gives(&rt, &mut input, Ok(TEXT));
    gives(&rt, &mut input, Ok(b""));
    gives(&rt, &mut input, Ok(b""));
}

// A vector takes all that is put, in one part or in several; empty texts and flushes change nothing.
#[test]
fn healthy_output_never_fails(rt: HostRuntime) {
    let mut output = Counted::writing(Vec::new(rt.alloc()));
    puts(&rt, &mut output, TEXT, Ok(()));
    puts(&rt, &mut output, b"", Ok(()));
    is_equal(&rt, &output.write(b""), &Ok(0));
    is_flushed(&rt, &mut output, Ok(()));
    is_taken(&rt, output.writer().as_slice(), TEXT);
    let parts = [b"pong ".as_slice(), b"7", b"", b"\n"];
    is_equal(&rt, &put_parts(&mut output, &parts), &Ok(()));
    is_taken(&rt, output.into_writer().as_slice(), b"new\ne2e4\npong 7\n");
}

// A `PieceReader` gives at most `cut` bytes at a time, and at its end none.
#[test]
fn pieces_are_cut_as_set(rt: HostRuntime) {
    for cut in 1..4 {
        let mut input = Counted::reading(PieceReader::new(TEXT, cut, 0));
        for piece in TEXT.chunks(cut) {
            gives(&rt, &mut input, Ok(piece));
        }
        gives(&rt, &mut input, Ok(b""));
    }
}

// Of both devices only the call with the chosen number, the second, fails; the next call goes on where the one before
// ended.
#[test]
fn one_call_fails_and_the_next_goes_on(rt: HostRuntime) {
    let mut input = Counted::reading(PieceReader::new(TEXT, 4, 2));
    gives(&rt, &mut input, Ok(b"new\n"));
    gives(&rt, &mut input, Err(ReadFault));
    gives(&rt, &mut input, Ok(b"e2e4"));
    let mut output = Counted::writing(PieceWriter::new(rt.alloc(), 16, 2));
    puts(&rt, &mut output, b"new\n", Ok(()));
    is_flushed(&rt, &mut output, Err(WriteFault));
    is_flushed(&rt, &mut output, Ok(()));
    puts(&rt, &mut output, b"e2e4", Ok(()));
    is_taken(&rt, output.writer().bytes.as_slice(), b"new\ne2e4");
}

// The parts that `put_parts` writes below: 7 bytes in all.
const PARTS: [&[u8]; 3] = [b"pong ", b"7", b"\n"];

// How many bytes a writer takes at a time, which of its calls fails (0: none), whether all of PARTS are put, and what
// was taken of them.
const BREAKS: [(usize, u64, bool, &[u8]); 6] = [
    (16, 0, true, b"pong 7\n"),
    (1, 0, true, b"pong 7\n"),
    (0, 0, false, b""),
    (16, 1, false, b""),
    (2, 3, false, b"pong"),
    (16, 3, false, b"pong 7"),
];

// Puts the parts on the writer of each row, and compares the answer and what was taken.
#[test]
fn parts_break_off_where_a_write_fails(rt: HostRuntime) {
    for (cut, fails_at, is_put, taken) in &BREAKS {
        let mut output = Counted::writing(PieceWriter::new(rt.alloc(), *cut, *fails_at));
        let answer = put_parts(&mut output, &PARTS);
        assert_eq!(rt; answer.is_ok(), *is_put, "cut {cut}, fails at {fails_at}");
        is_taken(&rt, output.writer().bytes.as_slice(), taken);
    }
}

// A device, reader and writer in one, that counts its calls and the bytes that each asked for or offered. It answers
// every call alike: with this many bytes, as far as they have room, or with a failure for `None`.
#[derive(Drop)]
struct Asked {
    calls: u64,
    bytes: u64,
    answer: Option<usize>,
}

impl Asked {
    // A device that was not called yet and gives this answer.
    fn answering(answer: Option<usize>) -> Self {
        Asked {
            calls: 0,
            bytes: 0,
            answer,
        }
    }

    // How many calls there were, and how many bytes they asked for or offered in all.
    fn asked(&self) -> [u64; 2] {
        [self.calls, self.bytes]
    }

    // Counts a call for `len` bytes, and answers it.
    fn ask(&mut self, len: usize) -> io::Result<usize>
        ensures { IfOk result (λ n. n ≤ len) }
    {
        self.calls = self.calls.saturating_add(1);
        self.bytes = self.bytes.saturating_add(len as u64);
        match self.answer {
            Some(count) => Ok(count.min(len)),
            None => Err(io::Error::from(io::ErrorKind::Other)),
        }
    }
}

impl Read for Asked {
    ghost use Rattle.std.specs.Prelude.{None};

    ghost remaining = { λ a. None };

    fn read(&mut self, buf: &mut [u8]) -> io::Result<usize> {
        self.ask(buf.len())
    }
}

impl Write for Asked {
    ghost use Rattle.std.specs.Prelude.{None};

    ghost contents = { λ a. None };

    fn write(&mut self, buf: &[u8]) -> io::Result<usize> {
        self.ask(buf.len())
    }

    fn flush(&mut self) -> io::Result<()> {
        match self.ask(0) {
            Ok(_) => Ok(()),
            Err(error) => Err(error),
        }
    }
}

// The bytes that each call below reads into, or writes.
const PIECE: [u8; 9000] = [0; 9000];

// Reads from such a device 1,499 times. Each read answers `wanted`, and is one call for all 9,000 bytes.
fn reads(rt: &impl Abort, answer: Option<usize>, wanted: Result<usize, ReadFault>) {
    let mut buffer = PIECE;
    let mut input = Counted::reading(Asked::answering(answer));
    for calls in 1..1500 {
        is_equal(rt, &input.read(&mut buffer), &wanted);
        is_equal(rt, &input.reader().asked(), &[calls, calls * 9000]);
    }
}

// A read is one call of the device with the whole buffer, whatever that answers.
#[test]
fn a_read_is_one_read_of_the_device(rt: HostRuntime) {
    reads(&rt, Some(9000), Ok(9000));
    reads(&rt, Some(1), Ok(1));
    reads(&rt, Some(0), Ok(0));
    reads(&rt, None, Err(ReadFault));
}

// Writes to such a device 1,499 times. Each write answers `wanted`, and is one call with all 9,000 bytes.
fn writes(rt: &impl Abort, answer: Option<usize>, wanted: Result<usize, WriteFault>) {
    let mut output = Counted::writing(Asked::answering(answer));
    for calls in 1..1500 {
        is_equal(rt, &output.write(&PIECE), &wanted);
        is_equal(rt, &output.writer().asked(), &[calls, calls * 9000]);
    }
}

// A write is one call of the device with all bytes, whatever that answers. To take none of them is a failure.
#[test]
fn a_write_is_one_write_of_the_device(rt: HostRuntime) {
    writes(&rt, Some(9000), Ok(9000));
    writes(&rt, Some(1), Ok(1));
    writes(&rt, Some(0), Err(WriteFault));
    writes(&rt, None, Err(WriteFault));
}

// Flushes such a device 1,499 times. Each flush answers `wanted`, and is one call.
fn flushes(rt: &impl Abort, answer: Option<usize>, wanted: Result<(), WriteFault>) {
    let mut output = Counted::writing(Asked::answering(answer));
    for calls in 1..1500 {
        is_equal(rt, &output.flush(), &wanted);
        is_equal(rt, &output.writer().calls, &calls);
    }
}

// A flush is one call of the device, and fails where that does.
#[test]
fn a_flush_is_one_flush_of_the_device(rt: HostRuntime) {
    flushes(&rt, Some(1), Ok(()));
    flushes(&rt, None, Err(WriteFault));
}

// Asserts that `len` bytes come before the first `}`, and before the first of three bytes of which it is one.
fn is_found(rt: &impl Abort, bytes: &[u8], len: usize) {
    is_equal(rt, &len_before(bytes, b'}'), &len);
    is_equal(rt, &len_before_any(bytes, b'"', b'}', b'\n'), &len);
}

// Bytes are searched by blocks: a `}` is found at each place in the first blocks and among the bytes left over, and
// where there is none all bytes are counted.
#[test]
fn a_byte_is_found_at_each_place(rt: HostRuntime) {
    for len in 0..80 {
        let mut bytes = [b'x'; 80];
        is_found(&rt, &bytes[..len], len);
        bytes[len] = b'}';
        is_found(&rt, &bytes, len);
    }
}

// A call of the gated devices and what it answers: a read gives a line, or fails since the gate is shut; a write takes
// these bytes; a flush succeeds.
enum Step {
    Gives(&'static [u8]),
    IsEarly,
    Takes(&'static [u8]),
    Flushes,
}

// The gate lets one line through for each flush: a read fails after a line until an answer is written and flushed.
const STEPS: [Step; 12] = [
    Step::Gives(b"new\n"),
    Step::IsEarly,
    Step::Takes(b"pong 1\n"),
    Step::IsEarly,
    Step::Flushes,
    Step::Gives(b"e2e4\n"),
    Step::IsEarly,
    Step::Flushes,
    Step::Takes(b"x"),
    Step::IsEarly,
    Step::Flushes,
    Step::Gives(b"ping 1\n"),
];

// Takes the steps in order. At the end four reads have been counted as too early.
#[test]
fn gate_opens_at_each_flush_for_one_line(rt: HostRuntime) {
    let open = Cell::new(true);
    let mut input = Counted::reading(GatedReader::new(b"new\ne2e4\nping 1\nquit\n", &open));
    let mut output = Counted::writing(GatedWriter::new(rt.alloc(), &open));
    for step in &STEPS {
        match step {
            Step::Gives(line) => gives(&rt, &mut input, Ok(line)),
            Step::IsEarly => gives(&rt, &mut input, Err(ReadFault)),
            Step::Takes(bytes) => puts(&rt, &mut output, bytes, Ok(())),
            Step::Flushes => is_flushed(&rt, &mut output, Ok(())),
        }
    }
    is_equal(&rt, &input.reader().early, &4);
    is_taken(&rt, output.writer().bytes.as_slice(), b"pong 1\nx");
}

// Waits for a piece, and asserts whether one is there.
fn waits<R: Input>(rt: &impl Abort, input: &mut R, wanted: bool) {
    is_equal(rt, &input.wait(0), &wanted);
}

// Waits for each piece of a text and reads it, `cut` bytes at a time. No wait finds nothing.
fn gives_text<R: Input>(rt: &impl Abort, input: &mut R, text: &[u8], cut: usize)
    requires { 0 < cut }
{
    for piece in text.chunks(cut) {
        waits(rt, input, true);
        gives(rt, input, Ok(piece));
    }
}

// An input gives the first `at` bytes of TEXT, then `silences` waits find nothing, and then it gives the others and its
// end.
fn falls_silent(rt: &impl Abort, at: usize, silences: u64, cut: usize)
    requires { 0 < cut }
{
    let (before, after) = TEXT.split_at(at.min(TEXT.len()));
    let mut input = SilentAfter::new(PieceReader::new(TEXT, cut, 0), before.len(), silences);
    gives_text(rt, &mut input, before, cut);
    for _ in 0..silences {
        waits(rt, &mut input, false);
    }
    gives_text(rt, &mut input, after, cut);
    waits(rt, &mut input, true);
    gives(rt, &mut input, Ok(b""));
}

// Lets an input fall silent after each number of bytes, read byte by byte and in one piece.
#[test]
fn an_input_falls_silent_at_each_place(rt: HostRuntime) {
    for at in 0..10 {
        falls_silent(&rt, at, 1, 1);
        falls_silent(&rt, at, 3, 1);
        falls_silent(&rt, at, 1, 64);
        falls_silent(&rt, at, 3, 64);
    }
}

// During a silence only waits find nothing: a read gives the next piece all the same.
#[test]
fn a_read_does_not_wait_for_the_silence_to_end(rt: HostRuntime) {
    let mut input = SilentAfter::new(PieceReader::new(TEXT, 64, 0), 4, 2);
    gives(&rt, &mut input, Ok(b"new\n"));
    waits(&rt, &mut input, false);
    gives(&rt, &mut input, Ok(b"e2e4\n"));
    waits(&rt, &mut input, false);
    waits(&rt, &mut input, true);
    gives(&rt, &mut input, Ok(b""));
}

// A plain reader of std has no clock, so each wait answers at once that a read may be made, also at its end.
#[test]
fn a_reader_without_a_clock_is_not_waited_for(rt: HostRuntime) {
    let mut input = Counted::reading(TEXT);
    gives_text(&rt, &mut input, TEXT, 16);
    waits(&rt, &mut input, true);
    gives(&rt, &mut input, Ok(b""));
    waits(&rt, &mut input, true);
}

// `fall_silent` and `fail_write` only count a silence or a failed write: the device isn't called.
#[test]
fn counting_asks_nothing_of_the_device(rt: HostRuntime) {
    let mut input = Counted::reading(Asked::answering(Some(1)));
    is_equal(&rt, &input.fall_silent(), &true);
    is_equal(&rt, &input.reader().asked(), &[0, 0]);
    let mut output = Counted::writing(Asked::answering(Some(1)));
    is_equal(&rt, &output.fail_write(), &WriteFault);
    is_equal(&rt, &output.writer().asked(), &[0, 0]);
}
