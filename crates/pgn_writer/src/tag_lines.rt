//! Writing tags.

ghost use Rattle.std.specs.Prelude.{◌≡◌, ◌+◌, ◌*◌, ◌≤◌, ◌++◌, length};
ghost use Rattle.arrayvec.specs.ArrayVec.{array_vec_len};
ghost use Rattle.pgn_writer.specs.ties.Kept.{KeepsLine};
ghost use Rattle.pgn_writer.specs.ties.Waiting.{Adds};
ghost use Rattle.pgn_writer.specs.Written.{escaped, tag_line, ended};
ghost use Rattle.pgn_writer.specs.ties.TagLines.{tag_lines_of};

use crate::line_writer::LineWriter;
use crate::tags::TagPair;
use arrayvec::ArrayVec;
use byte_devices::{Output, WriteFault, append};

// The line of a tag, such as `[Event "a"]`. It has at most 225 bytes: a name of 20, a text of 100 with a backslash
// before each byte, and two brackets, two quotes and a space.
type TagLine = ArrayVec<u8, 256>;

// Appends a tag's text to the line, with a backslash before each quote and each backslash: `a"b` as `a\"b`. At worst
// each byte becomes two, so the line must have room for these.
fn write_escaped(line: &mut TagLine, text: &[u8])
    requires { array_vec_len line.old + 2 * length text.now ≤ 256 }
    ensures text { line.new.items ≡ line.old.items ++ escaped text.now }
    ensures len { array_vec_len line.new ≤ array_vec_len line.old + 2 * length text.now }
{
    for byte in text {
        if *byte == b'"' || *byte == b'\\' {
            line.push(b'\\');
        }
        line.push(*byte);
    }
}

// The line of a tag with this name and text, such as `[Event "a"]`, without its `\n`. In the text, quotes and
// backslashes get a backslash before them.
fn tag_line(name: &[u8], text: &[u8]) -> TagLine
    requires name { length name.now ≤ 20 }
    requires text { length text.now ≤ 100 }
    ensures { result.items ≡ tag_line name.now text.now }
{
    let mut line = TagLine::new();
    line.push(b'[');
    append(&mut line, name);
    append(&mut line, b" \"");
    write_escaped(&mut line, text);
    append(&mut line, b"\"]");
    line
}

/// Writes each of these tags on a line of its own, such as `[Event "a"]`, after the prefix that each line has.
///
/// # Errors
/// If the writer fails; a beginning of the text was written then.
pub(crate) fn put_tags<W: Output>(
    lines: &mut LineWriter<'_, '_, W>,
    tags: &[TagPair<'_>],
) -> Result<(), WriteFault>
    ensures added { Adds (W.seen lines.old.writer.now) (W.seen lines.new.writer.now) lines.old.waiting
        lines.new.waiting result (ended lines.old.prefix.now (tag_lines_of tags.now)) }
    ensures kept { KeepsLine lines.old lines.new }
{
    for tag in tags {
        let line = tag_line(tag.name, tag.text);
        lines.put_line(line.as_slice())?;
    }
    Ok(())
}
