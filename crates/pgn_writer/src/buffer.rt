//! Text that waits before it is written, so that a writer is called once for many lines.

ghost use Rattle.pgn_writer.specs.declared.buffer.TheConstants.{BUFFER_LEN};
ghost use Rattle.std.specs.Prelude.{◌≡◌, ◌+◌, ◌≤◌, ◌<◌, [], length, OnOk};
ghost use Rattle.byte_devices.specs.Devices.{Puts, joined};
ghost use Rattle.pgn_writer.specs.ties.Waiting.{Adds};

use arrayvec::ArrayVec;
use byte_devices::{Output, WriteFault, put};
use std::marker::Model;

// The most bytes that the buffer holds.
const BUFFER_LEN: usize = 4096;

/// Text that is collected before it is written, at most 4,096 bytes. In contracts it is the list of its bytes.
///
/// The last argument of `Adds` is the text that is added. The bytes that the writer took, and after them those left in
/// the buffer, are the bytes that were in the buffer, and after them this text. If the writer failed, it took a
/// beginning of these bytes.
#[derive(Drop)]
pub(crate) struct TextBuffer {
    text: ArrayVec<u8, 4096>,
}

impl Model for TextBuffer {
    ghost use Rattle.std.specs.Prelude.{ℕ, List};

    ghost Value = { List ℕ };

    ghost view = { λ b. b.text.items };
}

impl TextBuffer {
    /// An empty buffer.
    pub(crate) fn new() -> Self
        ensures { result ≡ [] }
    {
        TextBuffer {
            text: ArrayVec::new(),
        }
    }

    // Makes room for `len` more bytes: if they don't fit, the buffer's bytes are written and the buffer is emptied.
    // More than `BUFFER_LEN` bytes never fit, so for these the buffer is empty afterwards, unless the writer failed
    // (`none`). No text is added, so the text in `added` is empty.
    fn make_room<W: Output>(&mut self, writer: &mut W, len: usize) -> Result<(), WriteFault>
        ensures added { Adds (W.seen writer.old) (W.seen writer.new) self.old self.new result [] }
        ensures room { OnOk result (len ≤ BUFFER_LEN → length self.new + len ≤ BUFFER_LEN) }
        ensures none { OnOk result (BUFFER_LEN < len → self.new ≡ []) }
    {
        if len > BUFFER_LEN - self.text.len() {
            put(writer, self.text.as_slice())?;
            self.text.clear();
        }
        Ok(())
    }

    /// Adds a text to the buffer. If the text doesn't fit, the buffer's bytes are written first. A text of more than
    /// 4,096 bytes is then written too, and the buffer is left empty.
    ///
    /// # Errors
    /// If the writer fails; it then took a beginning of the buffer's bytes and the text after them.
    pub(crate) fn add<W: Output>(&mut self, writer: &mut W, text: &[u8]) -> Result<(), WriteFault>
        ensures { Adds (W.seen writer.old) (W.seen writer.new) self.old self.new result text.now }
    {
        self.make_room(writer, text.len())?;
        if text.len() > BUFFER_LEN {
            return put(writer, text);
        }
        self.text.try_extend_from_slice(text).unwrap();
        Ok(())
    }

    /// Adds texts to the buffer, one after the other: a line's prefix, its text and its `\n`, for example.
    ///
    /// # Errors
    /// If the writer fails; it then took a beginning of the buffer's bytes and the texts after them.
    pub(crate) fn add_parts<W: Output>(
        &mut self,
        writer: &mut W,
        parts: &[&[u8]],
    ) -> Result<(), WriteFault>
        ensures { Adds (W.seen writer.old) (W.seen writer.new) self.old self.new result (joined parts.now) }
    {
        for part in parts {
            self.add(writer, part)?;
        }
        Ok(())
    }

    /// Writes the buffer's bytes, after the last text was added. The buffer keeps its bytes, so it must not be used
    /// again.
    ///
    /// # Errors
    /// If the writer fails; it then took a beginning of the buffer's bytes.
    pub(crate) fn finish<W: Output>(&self, writer: &mut W) -> Result<(), WriteFault>
        ensures { Puts (W.seen writer.old) (W.seen writer.new) result self.now }
    {
        put(writer, self.text.as_slice())
    }
}
