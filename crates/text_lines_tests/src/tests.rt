//! Lines of at most 64 bytes, read from inputs that are cut, fail or fall silent.

use byte_devices::{Counted, Input, PieceReader, ReadFault, SilentAfter};
use std::fmt::Debug;
use std::process::Abort;
use std::test::Fail;
use text_lines::{Line, Lines, lines_are_pieces};

// Asserts that two values are equal. One function for all types, since an assertion for each costs much to prove.
fn is_equal<T: PartialEq + Debug>(rt: &impl Abort, found: &T, wanted: &T) {
    assert_eq!(rt; *found, *wanted);
}

// An input of which each read gives at most `cut` bytes, and the read numbered `fails_at` fails (0: none).
fn pieces(input: &[u8], cut: usize, fails_at: u64) -> Counted<PieceReader<'_>> {
    Counted::reading(PieceReader::new(input, cut.max(1), fails_at))
}

// Asserts that the next line has this text, and whether byte 10 ended it. `name` is the error if there is no line.
fn next_is(
    rt: &impl Abort,
    lines: &mut Lines<64>,
    reader: &mut Counted<PieceReader<'_>>,
    name: &'static str,
    text: &[u8],
    is_ended: bool,
) -> Result<(), Fail> {
    let Ok(Some(line)) = lines.next(reader) else {
        return Err(Fail::from(name));
    };
    is_equal(rt, &line.text(), &text);
    assert!(rt; line.is_ended() == is_ended && !line.is_too_long());
    Ok(())
}

// The second read fails in the middle of a line. The next call reads the line on, with the bytes from before the
// failure.
#[test]
fn what_was_read_stays_after_a_fault(rt: HostRuntime) -> Result<(), Fail> {
    lines_are_pieces();
    let mut reader = pieces(b" ab \r\ncd", 3, 2);
    let mut lines: Lines<64> = Lines::new();
    assert!(rt; lines.next(&mut reader).is_err());
    next_is(&rt, &mut lines, &mut reader, "a line", b"ab", true)?;
    next_is(&rt, &mut lines, &mut reader, "a last line", b"cd", false)?;
    assert!(rt; matches!(&lines.next(&mut reader), Ok(None)));
    Ok(())
}

// Reads the next line over the one before. Asserts the answer, and that `line` is then ended, has this text, and is too
// long or not.
fn read_over(
    rt: &impl Abort,
    lines: &mut Lines<64>,
    reader: &mut Counted<PieceReader<'_>>,
    line: &mut Line<64>,
    answer: Result<bool, ReadFault>,
    text: &[u8],
    is_too_long: bool,
) {
    is_equal(rt, &lines.read_line(reader, line), &answer);
    is_equal(rt, &line.text(), &text);
    assert!(rt; line.is_ended() && line.is_too_long() == is_too_long);
}

// A line of 70 bytes, which is too long and of which the first 64 are kept, and two shorter ones.
const LONG_THEN_SHORT: &[u8] =
    b"xxxxxxxxxxxxxxxxxxxxxxxxxxxxxxxxxxxxxxxxxxxxxxxxxxxxxxxxxxxxxxxxxxxxxx\n usermove e4 \r\ncd\n";

// A read that fails, and the input's end, leave the line as it was.
#[test]
fn a_line_is_read_over_the_one_before(rt: HostRuntime) {
    let mut reader = pieces(LONG_THEN_SHORT, 7, 13);
    let mut lines: Lines<64> = Lines::new();
    let mut line = Line::new();
    let long = &LONG_THEN_SHORT[..64];
    read_over(
        &rt,
        &mut lines,
        &mut reader,
        &mut line,
        Ok(true),
        long,
        true,
    );
    read_over(
        &rt,
        &mut lines,
        &mut reader,
        &mut line,
        Err(ReadFault),
        long,
        true,
    );
    read_over(
        &rt,
        &mut lines,
        &mut reader,
        &mut line,
        Ok(true),
        b"usermove e4",
        false,
    );
    read_over(
        &rt,
        &mut lines,
        &mut reader,
        &mut line,
        Ok(true),
        b"cd",
        false,
    );
    read_over(
        &rt,
        &mut lines,
        &mut reader,
        &mut line,
        Ok(false),
        b"cd",
        false,
    );
}

// A text of three lines, of which the input's end ends the last one.
const TEXT: &[u8] = b"new\nab\ncd";

// The texts of its lines.
const TEXTS: [&[u8]; 3] = [b"new", b"ab", b"cd"];

// How many lines end among these bytes.
fn ended_lines(bytes: &[u8]) -> usize {
    bytes.iter().filter(|byte| **byte == b'\n').count()
}

// Waits for the next line over the one before, and asserts the answer (`None`: nothing came) and the line's text then.
fn wait_over<R: Input>(
    rt: &impl Abort,
    lines: &mut Lines<64>,
    reader: &mut R,
    line: &mut Line<64>,
    answer: Result<Option<bool>, ReadFault>,
    text: &[u8],
) {
    is_equal(rt, &lines.read_line_until(reader, 0, line), &answer);
    is_equal(rt, &line.text(), &text);
}

// Waits for lines, and asserts that each comes at once and has its text.
fn wait_for_each<R: Input>(
    rt: &impl Abort,
    lines: &mut Lines<64>,
    reader: &mut R,
    line: &mut Line<64>,
    texts: &[&[u8]],
) {
    for text in texts {
        wait_over(rt, lines, reader, line, Ok(Some(true)), text);
    }
}

// Asserts that so many waits find no whole line, and leave the line as it was, with this text.
fn wait_in_vain<R: Input>(
    rt: &impl Abort,
    lines: &mut Lines<64>,
    reader: &mut R,
    line: &mut Line<64>,
    silences: u64,
    text: &[u8],
) {
    for _ in 0..silences {
        wait_over(rt, lines, reader, line, Ok(None), text);
    }
}

// The input gives the first `at` bytes of TEXT and then falls silent. The lines that have ended come, then so many
// waits find none, and then the others come.
fn lines_around_a_silence(rt: &impl Abort, at: usize, silences: u64, cut: usize) {
    let given = &TEXT[..at.min(TEXT.len())];
    let (before, after) = TEXTS.split_at(ended_lines(given).min(2));
    let mut reader = SilentAfter::new(PieceReader::new(TEXT, cut.max(1), 0), given.len(), silences);
    let mut lines: Lines<64> = Lines::new();
    let mut line = Line::new();
    wait_for_each(rt, &mut lines, &mut reader, &mut line, before);
    let last = match before.last() {
        Some(text) => *text,
        None => b"",
    };
    wait_in_vain(rt, &mut lines, &mut reader, &mut line, silences, last);
    wait_for_each(rt, &mut lines, &mut reader, &mut line, after);
    wait_over(
        rt,
        &mut lines,
        &mut reader,
        &mut line,
        Ok(Some(false)),
        b"cd",
    );
}

// Lets the input fall silent after each number of bytes, read byte by byte and in one piece.
#[test]
fn lines_are_read_around_a_silence_at_each_place(rt: HostRuntime) {
    for at in 0..10 {
        lines_around_a_silence(&rt, at, 1, 1);
        lines_around_a_silence(&rt, at, 3, 1);
        lines_around_a_silence(&rt, at, 1, 64);
        lines_around_a_silence(&rt, at, 3, 64);
    }
}

// The first byte of the second line comes, then nothing, then a read fails: the line is read on after that.
#[test]
fn what_was_read_stays_after_a_silence_and_a_fault(rt: HostRuntime) {
    let mut reader = SilentAfter::new(PieceReader::new(TEXT, 4, 3), 5, 1);
    let mut lines: Lines<64> = Lines::new();
    let mut line = Line::new();
    wait_for_each(&rt, &mut lines, &mut reader, &mut line, &TEXTS[..1]);
    wait_in_vain(&rt, &mut lines, &mut reader, &mut line, 1, b"new");
    wait_over(
        &rt,
        &mut lines,
        &mut reader,
        &mut line,
        Err(ReadFault),
        b"new",
    );
    wait_for_each(&rt, &mut lines, &mut reader, &mut line, &TEXTS[1..]);
    wait_over(
        &rt,
        &mut lines,
        &mut reader,
        &mut line,
        Ok(Some(false)),
        b"cd",
    );
}

// An input that stays silent: each of 1,000 waits finds no line and returns.
#[test]
fn a_long_silence_is_not_waited_out(rt: HostRuntime) {
    let mut reader = SilentAfter::new(PieceReader::new(TEXT, 64, 0), 6, u64::MAX);
    let mut lines: Lines<64> = Lines::new();
    let mut line = Line::new();
    wait_for_each(&rt, &mut lines, &mut reader, &mut line, &TEXTS[..1]);
    wait_in_vain(&rt, &mut lines, &mut reader, &mut line, 1000, b"new");
}

// A plain reader of std has no clock, so each wait gives the next line, up to the input's end.
#[test]
fn lines_of_a_reader_without_a_clock_are_not_waited_for(rt: HostRuntime) {
    let mut reader = pieces(TEXT, 1, 0);
    let mut lines: Lines<64> = Lines::new();
    let mut line = Line::new();
    wait_for_each(&rt, &mut lines, &mut reader, &mut line, &TEXTS);
    wait_over(
        &rt,
        &mut lines,
        &mut reader,
        &mut line,
        Ok(Some(false)),
        b"cd",
    );
}
