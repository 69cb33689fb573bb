//! The pieces of collections: where they begin and end, however their bytes are read; pieces that are too long; and
//! memory.

ghost use Rattle.std.specs.Prelude.{◌<◌};

use byte_devices::{Counted, Input, PieceReader};
use pgn_pieces::{PIECE_LEN, PgnPieces, PieceFault};
use std::fmt::Debug;
use std::fs;
use std::io::{self, Read};
use std::process::Abort;
use std::test::Fail;

// Asserts that two values are equal. One function for all types, since an assertion for each costs much to prove.
fn is_equal<T: PartialEq + Debug>(rt: &impl Abort, found: &T, wanted: &T) {
    assert_eq!(rt; *found, *wanted);
}

// Asks for the next piece, and asserts where it begins and which bytes it has (`None`: it is too long).
fn gives<R: Input>(
    rt: &impl Abort,
    pieces: &mut PgnPieces,
    input: &mut R,
    offset: usize,
    wanted: Option<&[u8]>,
) {
    assert_eq!(rt; pieces.next(input), Ok(true), "a piece at {offset}");
    is_equal(rt, &pieces.offset(), &offset);
    assert!(rt; pieces.text() == wanted, "the piece at {offset}");
}

// Asserts that there are no more pieces, since the input has ended or a read failed.
fn ends<R: Input>(
    rt: &impl Abort,
    pieces: &mut PgnPieces,
    input: &mut R,
    answer: Result<bool, PieceFault>,
) {
    is_equal(rt, &pieces.next(input), &answer);
}

// Cuts a text, of which a read gives at most `cut` bytes, and asserts the lengths of its pieces.
fn check_cut(
    rt: &impl Abort,
    host: &HostRuntime,
    text: &'static [u8],
    cut: usize,
    lens: &[usize],
) -> Result<(), Fail>
    requires { 0 < cut }
{
    let mut input = Counted::reading(PieceReader::new(text, cut, 0));
    let mut pieces = PgnPieces::open(host.alloc())?;
    let mut rest = text;
    for len in lens {
        let offset = text.len().saturating_sub(rest.len());
        let (piece, others) = rest.split_at_checked(*len).ok_or("a length")?;
        gives(rt, &mut pieces, &mut input, offset, Some(piece));
        rest = others;
    }
    assert!(rt; rest.is_empty(), "bytes after the last piece");
    ends(rt, &mut pieces, &mut input, Ok(false));
    Ok(())
}

// Texts, and the lengths of their pieces.
const CUTS: [(&[u8], &[usize]); 37] = [
    (b"", &[]),
    (b"1. e4 *", &[7]),
    (b"[Event \"a\"]\n1. e4 *\n\n[Event \"b\"]\n*", &[21, 13]),
    (b"\n[Event \"a\"]\n", &[13]),
    (b"a\n[Event \n[Event \"", &[10, 8]),
    (b"x [Event \"a\"]\r[Event \"b\"]\n", &[14, 12]),
    (b"[Event \"a\"]\r\r1. e4 *\r\r[Event \"b\"]\r*\r", &[22, 14]),
    (b"*\r\r\n[Event \"a\"]\r\r\n", &[4, 14]),
    (
        b"1. e4 *\r[Event \"a\"]\n\r*\n\r[Event \"b\"]",
        &[8, 16, 11],
    ),
    (
        b"*\n [Event \"a\"]\n[Events \"b\"]\n[event \"c\"]\n[Event",
        &[2, 44],
    ),
    (
        b"\t [Event \"a\"]\n\t1. e4 *\n \t[Site \"b\"]\n  *\n",
        &[23, 17],
    ),
    (
        b"*\n\xef\xbb\xbf [a \"b\"]\n \xef\xbb\xbf[a \"b\"]\n",
        &[2, 24],
    ),
    (b"1. e4 {x\r\n[Event \"a\"]\r\n*\r\n", &[10, 16]),
    (
        b"[Site \"a\"]\n[Event \"b\"]\n\n*\n\n[Site \"c\"]\n[Event \"d\"]\n*\n",
        &[27, 25],
    ),
    (
        b"[Event \"a\"]\n[Site \"b\"]\n[Event \"c\"]\n\n*\n",
        &[23, 15],
    ),
    (b"[Site \"a\"]\n; x\n% y\n \t\r\n[Round \"1\"]\n*\n", &[37]),
    (b"*\n[%clk 1]\n[a 1]\n[] \"\n[\"\n", &[25]),
    (b"*\n\xef\xbb\xbf[Event \"a\"]\n*\n\xef\xbb\xbf\n", &[2, 21]),
    (
        b"[Event \"a\"] 1. e4 *\n[Event \"b\"] *\n[Site \"c\"] *\n",
        &[20, 14, 13],
    ),
    // Moves after a line's tags, and what is none.
    (b"[Result \"1-0\"] e4 {\n[Result \"1-0\"] e5 *\n", &[20, 20]),
    (b"[Event \"a\"] {c}\n[Site \"b\"] ; x\n*\n", &[33]),
    (b"[a \"b\"] [c \"d\"] e4 *\n[e \"f\"]\n", &[21, 8]),
    (b"[a \"b\"][c\"d\"]\t[e \"\"] *\n[e \"f\"]\n", &[23, 8]),
    (b"[a \"\\\"b\"] e4 *\n[c \"d\"]\n", &[15, 8]),
    (b"[a \"b\" ] {x} e4 *\n[c \"d\"]\n", &[18, 8]),
    (b"[a \"b\"] !? $1 .\n[c \"d\"]\n", &[24]),
    (b"[a \"b\"] !? $1 (x) .\n[c \"d\"]\n", &[20, 8]),
    (b"[a \"b\"] ! $1 . [c \"d\"] e4\n[e \"f\"]\n", &[26, 8]),
    (b"[a \"b\"] {x\n[c \"d\"]\n", &[19]),
    // A byte that begins no token, and tags that aren't closed on their lines.
    (b"[a \"b\"] <x>\n[c \"d\"]\n", &[12, 8]),
    (b"[a \"b\n[c \"d\"]\n", &[6, 8]),
    (b"[a \"b\" \r[c \"d\"]\n", &[8, 8]),
    (b"[a \"b\"] [c\n[d \"e\"]\n", &[11, 8]),
    (b"*\n[A_1 \t\"x\"]\n\xef\xbb\xbf; y\n[b\"", &[2, 21]),
    // Only as a line's first byte `%` is PGN's escape.
    (b"[a \"b\"]\n\xef\xbb\xbf% y\n[c \"d\"]\n", &[15, 8]),
    (b" % y\n[a \"b\"]\n", &[5, 8]),
    (
        b"\xef\xbb\xbf*\n\xef\xbb[a \"b\"]\n\xef\xbb\xbf\xef\xbb\xbf[a \"b\"]\n",
        &[29],
    ),
];

// Cuts each text, read by 1 to 49 bytes at a time.
#[test]
fn pieces_begin_at_tags(rt: HostRuntime) -> Result<(), Fail> {
    for (text, lens) in &CUTS {
        for cut in 1..50 {
            check_cut(&rt, &rt, text, cut, lens)?;
        }
    }
    Ok(())
}

// A collection of two pieces.
const COLLECTION: &[u8] = b"[Event \"a\"]\n*\n[Event \"b\"]\n*";

// The second read fails. The first piece is given if the first read had the `"` of the next tag, byte 22, and else
// none.
#[test]
fn failed_reads_end_the_pieces(rt: HostRuntime) -> Result<(), Fail> {
    let mut input = Counted::reading(PieceReader::new(COLLECTION, 22, 2));
    let mut pieces = PgnPieces::open(rt.alloc())?;
    gives(&rt, &mut pieces, &mut input, 0, Some(b"[Event \"a\"]\n*\n"));
    ends(&rt, &mut pieces, &mut input, Err(PieceFault::ReadFailed));
    let mut short = Counted::reading(PieceReader::new(COLLECTION, 21, 2));
    let mut none = PgnPieces::open(rt.alloc())?;
    ends(&rt, &mut none, &mut short, Err(PieceFault::ReadFailed));
    Ok(())
}

// Reads a piece of `len` bytes before one of 8. It has a text only if it is not too long (`is_short`).
fn check_long(rt: &impl Abort, host: &HostRuntime, len: usize, is_short: bool) -> Result<(), Fail> {
    let mut text = vec![in host.alloc(); b'x'; len.saturating_sub(1)]?;
    text.push(b'\n')?;
    text.extend_from_slice(b"[Event \"")?;
    let mut input = Counted::reading(text.as_slice());
    let mut pieces = PgnPieces::open(host.alloc())?;
    is_equal(rt, &pieces.next(&mut input), &Ok(true));
    assert_eq!(rt; pieces.text().is_some(), is_short, "a piece of {len} bytes");
    gives(rt, &mut pieces, &mut input, len, Some(b"[Event \""));
    ends(rt, &mut pieces, &mut input, Ok(false));
    Ok(())
}

// Finds a piece after a line of `len` bytes. It has `behind` bytes after its `[Event "`.
fn check_line(rt: &impl Abort, host: &HostRuntime, len: usize, behind: usize) -> Result<(), Fail> {
    let mut text = vec![in host.alloc(); b'x'; len.saturating_sub(1)]?;
    text.extend_from_slice(b"\n[Event \"")?;
    let last = vec![in host.alloc(); b'y'; behind]?;
    text.extend_from_slice(last.as_slice())?;
    let mut input = Counted::reading(text.as_slice());
    let mut pieces = PgnPieces::open(host.alloc())?;
    is_equal(rt, &pieces.next(&mut input), &Ok(true));
    is_equal(rt, &pieces.next(&mut input), &Ok(true));
    is_equal(rt, &pieces.offset(), &len);
    ends(rt, &mut pieces, &mut input, Ok(false));
    Ok(())
}

// The end of a line is searched by blocks of bytes: it is found at each place in them, and near the text's last byte.
#[test]
fn lines_end_at_any_offset(rt: HostRuntime) -> Result<(), Fail> {
    for len in 2..132 {
        for behind in [0, 8, 47, 55, 56, 120] {
            check_line(&rt, &rt, len, behind)?;
        }
    }
    Ok(())
}

// Only the first 256 bytes of a line decide whether it is a tag's. After moves, a tag whose name has `len` bytes begins
// a piece, or doesn't.
fn check_name(rt: &impl Abort, host: &HostRuntime, len: usize, begins: bool) -> Result<(), Fail> {
    let mut text = vec![in host.alloc(); b'a'; len]?;
    text.insert(0, b'[')?;
    text.insert(0, b'\n')?;
    text.insert(0, b'*')?;
    text.push(b'"')?;
    let mut input = Counted::reading(text.as_slice());
    let mut pieces = PgnPieces::open(host.alloc())?;
    is_equal(rt, &pieces.next(&mut input), &Ok(true));
    assert_eq!(rt;
        pieces.text() == Some(b"*\n".as_slice()),
        begins,
        "a name of {len} bytes"
    );
    Ok(())
}

// With the `[` and the `"` that are 256 bytes.
#[test]
fn names_have_at_most_254_bytes(rt: HostRuntime) -> Result<(), Fail> {
    check_name(&rt, &rt, 254, true)?;
    check_name(&rt, &rt, 255, false)
}

// A tag line of `len` bytes isn't closed. It ends its piece before the next tag line only if its end is among the first
// 256 bytes: a longer one isn't known to be unclosed.
fn check_unclosed(
    rt: &impl Abort,
    host: &HostRuntime,
    len: usize,
    ends_there: bool,
) -> Result<(), Fail> {
    let mut text = Vec::new(host.alloc());
    text.extend_from_slice(b"[a \"")?;
    for _ in 5..len {
        text.push(b'x')?;
    }
    text.extend_from_slice(b"\n[b \"c\"]\n")?;
    let mut input = Counted::reading(text.as_slice());
    let mut pieces = PgnPieces::open(host.alloc())?;
    is_equal(rt, &pieces.next(&mut input), &Ok(true));
    assert_eq!(rt;
        pieces.end() == len,
        ends_there,
        "a tag line of {len} bytes"
    );
    Ok(())
}

// Lines of 255 and 256 bytes, and longer ones.
#[test]
fn tags_are_unclosed_on_lines_of_at_most_256_bytes(rt: HostRuntime) -> Result<(), Fail> {
    check_unclosed(&rt, &rt, 255, true)?;
    check_unclosed(&rt, &rt, 256, true)?;
    check_unclosed(&rt, &rt, 257, false)?;
    check_unclosed(&rt, &rt, 400, false)
}

// Blanks before a tag count among the 256 bytes. After moves, a tag after `len` blanks begins a piece, or doesn't.
fn check_blanks(rt: &impl Abort, host: &HostRuntime, len: usize, begins: bool) -> Result<(), Fail> {
    let mut text = vec![in host.alloc(); b' '; len]?;
    text.insert(0, b'\n')?;
    text.insert(0, b'*')?;
    text.extend_from_slice(b"[a \"")?;
    let mut input = Counted::reading(text.as_slice());
    let mut pieces = PgnPieces::open(host.alloc())?;
    is_equal(rt, &pieces.next(&mut input), &Ok(true));
    assert_eq!(rt;
        pieces.text() == Some(b"*\n".as_slice()),
        begins,
        "{len} blanks"
    );
    Ok(())
}

// With the `[a "` after them that are 256 bytes.
#[test]
fn tags_come_after_at_most_252_blanks(rt: HostRuntime) -> Result<(), Fail> {
    check_blanks(&rt, &rt, 252, true)?;
    check_blanks(&rt, &rt, 253, false)?;
    check_blanks(&rt, &rt, 256, false)?;
    check_blanks(&rt, &rt, 300, false)
}

// A piece of more than 16,777,216 bytes has no text; the next piece is given as ever.
#[test]
fn long_pieces_have_no_text(rt: HostRuntime) -> Result<(), Fail> {
    is_equal(&rt, &PIECE_LEN, &16_777_216);
    check_long(&rt, &rt, PIECE_LEN, true)?;
    check_long(&rt, &rt, 16_777_217, false)
}

// Asks for the next piece, and asserts that it begins where the one before ends, its first bytes, and how many lines
// end in it.
fn begins<R: Input>(
    rt: &impl Abort,
    pieces: &mut PgnPieces,
    input: &mut R,
    beginning: &[u8],
    line_ends: usize,
) {
    let before = pieces.end();
    is_equal(rt, &pieces.next(input), &Ok(true));
    is_equal(rt, &pieces.offset(), &before);
    is_equal(rt, &pieces.beginning(), &beginning);
    is_equal(rt, &pieces.line_ends(), &line_ends);
}

// Cuts a text, of which a read gives at most `cut` bytes, and asserts this of each piece.
fn check_beginnings(
    rt: &impl Abort,
    host: &HostRuntime,
    text: &'static [u8],
    cut: usize,
    wanted: &[(&[u8], usize)],
) -> Result<(), Fail>
    requires { 0 < cut }
{
    let mut input = Counted::reading(PieceReader::new(text, cut, 0));
    let mut pieces = PgnPieces::open(host.alloc())?;
    is_equal(rt, &pieces.beginning(), &b"".as_slice());
    is_equal(rt, &pieces.line_ends(), &0);
    for (beginning, line_ends) in wanted {
        begins(rt, &mut pieces, &mut input, beginning, *line_ends);
    }
    ends(rt, &mut pieces, &mut input, Ok(false));
    Ok(())
}

// Texts, and for each piece its first 40 bytes, or all that it has, and how many lines end in it.
const BEGINNINGS: [(&[u8], &[(&[u8], usize)]); 9] = [
    (b"*", &[(b"*", 0)]),
    (b"\n", &[(b"\n", 1)]),
    (
        b"[Event \"a\"]\n\n1. e4 *\n\n[Event \"b\"]\r\n\r[Site \"c\"]",
        &[
            (b"[Event \"a\"]\n\n1. e4 *\n\n", 4),
            (b"[Event \"b\"]\r\n\r[Site \"c\"]", 1),
        ],
    ),
    // 39, 40 and 41 bytes.
    (
        b"123456789 123456789 123456789 123456789",
        &[(b"123456789 123456789 123456789 123456789", 0)],
    ),
    (
        b"123456789 123456789 123456789 123456789\n",
        &[(b"123456789 123456789 123456789 123456789\n", 1)],
    ),
    (
        b"123456789 123456789 123456789 123456789 \n",
        &[(b"123456789 123456789 123456789 123456789 ", 1)],
    ),
    // Lines that end among the first 40 bytes, and after them.
    (
        b"\n\n3456789 123456789 123456789 12345678\n\n2\n\n[Site \"x\"]\n*",
        &[
            (b"\n\n3456789 123456789 123456789 12345678\n\n", 6),
            (b"[Site \"x\"]\n*", 1),
        ],
    ),
    (
        b"*\n[Event \"a\"]\n[Event \"b\"]\n*\n[Site \"c\"]",
        &[
            (b"*\n", 1),
            (b"[Event \"a\"]\n", 1),
            (b"[Event \"b\"]\n*\n", 2),
            (b"[Site \"c\"]", 0),
        ],
    ),
    (b"", &[]),
];

// Cuts each text, read by 1 to 49 bytes at a time.
#[test]
fn pieces_have_beginnings_and_line_ends(rt: HostRuntime) -> Result<(), Fail> {
    for (text, wanted) in &BEGINNINGS {
        for cut in 1..50 {
            check_beginnings(&rt, &rt, text, cut, wanted)?;
        }
    }
    Ok(())
}

// Of a piece that is too long the first 40 bytes are known, and the number of its lines, wherever they end in it; the
// same of the next piece.
#[test]
fn long_pieces_have_beginnings_and_line_ends(rt: HostRuntime) -> Result<(), Fail> {
    let mut text = vec![in rt.alloc(); b'x'; 17_000_000]?;
    for at in [
        1, 39, 40, 65_535, 65_536, 16_777_215, 16_777_216, 16_777_217, 16_842_752, 16_999_999,
    ] {
        let byte = text.get_mut(at).ok_or("an offset")?;
        *byte = b'\n';
    }
    text.extend_from_slice(b"[Event \"a\"]\n*")?;
    let mut input = Counted::reading(text.as_slice());
    let mut pieces = PgnPieces::open(rt.alloc())?;
    let beginning = b"x\nxxxxxxxxxxxxxxxxxxxxxxxxxxxxxxxxxxxxx\n".as_slice();
    begins(&rt, &mut pieces, &mut input, beginning, 10);
    is_equal(&rt, &pieces.text().is_some(), &false);
    begins(&rt, &mut pieces, &mut input, b"[Event \"a\"]\n*", 1);
    ends(&rt, &mut pieces, &mut input, Ok(false));
    Ok(())
}

// After the last piece there is none, however often one is asked for: the third read reports the input's end, and a
// fourth, which would fail, is not made.
#[test]
fn after_the_last_piece_there_is_none(rt: HostRuntime) -> Result<(), Fail> {
    let mut input = Counted::reading(PieceReader::new(COLLECTION, 22, 4));
    let mut pieces = PgnPieces::open(rt.alloc())?;
    gives(&rt, &mut pieces, &mut input, 0, Some(b"[Event \"a\"]\n*\n"));
    gives(&rt, &mut pieces, &mut input, 14, Some(b"[Event \"b\"]\n*"));
    for _ in 0..3 {
        ends(&rt, &mut pieces, &mut input, Ok(false));
    }
    Ok(())
}

// An input of `left` reads, each of which gives a whole piece that fills the buffer.
#[derive(Drop)]
struct Sections {
    left: usize,
}

impl Read for Sections {
    ghost use Rattle.std.specs.Prelude.{None};

    ghost remaining = { λ b. None };

    fn read(&mut self, buf: &mut [u8]) -> io::Result<usize> {
        if self.left == 0 {
            return Ok(0);
        }
        self.left -= 1;
        buf.fill(b'x');
        if let Some(front) = buf.get_mut(..12) {
            front.copy_from_slice(b"[Event \"a\"]\n");
        }
        if let Some(last) = buf.last_mut() {
            *last = b'\n';
        }
        Ok(buf.len())
    }
}

// How many pages of memory this process has.
fn pages(host: &HostRuntime) -> Result<usize, Fail> {
    let text = fs::read_to_string(host, "/proc/self/statm")?;
    let count = text.split(' ').next().ok_or("a number")?;
    Ok(count.parse::<usize>()?)
}

// What is held doesn't grow with what is read: after 64 MiB in pieces of 64 KiB the process has not 4,096 pages (16
// MiB) more.
#[test]
fn pieces_are_let_go(rt: HostRuntime) -> Result<(), Fail> {
    let before = pages(&rt)?;
    let mut input = Counted::reading(Sections { left: 1024 });
    let mut pieces = PgnPieces::open(rt.alloc())?;
    for _ in 0..1023 {
        is_equal(&rt, &pieces.next(&mut input), &Ok(true));
    }
    is_equal(&rt, &pieces.offset(), &66_977_792);
    let after = pages(&rt)?;
    assert!(rt;
        after < before.saturating_add(4096),
        "{before} pages, then {after}"
    );
    is_equal(&rt, &pieces.next(&mut input), &Ok(true));
    ends(&rt, &mut pieces, &mut input, Ok(false));
    Ok(())
}
