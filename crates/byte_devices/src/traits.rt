//! The traits of inputs (read in pieces) and of outputs, with contracts, and functions that write whole texts.

ghost use Rattle.std.specs.Prelude.{◌<◌, length};
ghost use Rattle.byte_devices.specs.Devices.{InputState, OutputState, ReadStep, WaitStep, WriteStep, FlushStep, Puts, Sends, joined};

/// The error of a read that failed. It consumed no byte of the input.
#[derive(Clone, Copy, Debug, PartialEq, Eq, thiserror::Error)]
#[error("a read failed")]
pub struct ReadFault;

/// The error of a write or a flush that failed. Bytes that earlier calls took stay written.
#[derive(Clone, Copy, Debug, PartialEq, Eq, thiserror::Error)]
#[error("a write or a flush failed")]
pub struct WriteFault;

/// A source of bytes, read in pieces. Its contract counts the calls that failed and the ends that were reported.
pub trait Input {
    /// What contracts see of it: the bytes still to come where they are known, and the counts.
    ghost seen: { Self → InputState };

    /// Reads up to `buf.len()` bytes into the front of `buf`, and returns how many; 0 means the end of the input.
    fn read(&mut self, buf: &mut [u8]) -> Result<usize, ReadFault>
        requires { 0 < length buf.old }
        ensures { ReadStep (seen self.old) (seen self.new) result buf.new };

    /// Waits until a read would return at once, but not beyond the moment `until`, in milliseconds by the input's own
    /// clock. Returns whether a read would: with bytes, the end of the input, or a failure. An input that has no clock
    /// returns true at once, and then a read may take as long as it likes.
    fn wait(&mut self, _until: u64) -> bool
        ensures { WaitStep (seen self.old) (seen self.new) result }
    {
        true
    }
}

/// A sink of bytes. Its contract counts the calls that failed, and the bytes that are not flushed.
pub trait Output {
    /// What contracts see of it: the bytes that it took where they are known, and the counts.
    ghost seen: { Self → OutputState };

    /// Writes some bytes from the front of `buf`, at least one if there is one, and returns how many.
    fn write(&mut self, buf: &[u8]) -> Result<usize, WriteFault>
        ensures { WriteStep (seen self.old) (seen self.new) result buf.now };

    /// Passes on all that was written so far, so that a reader at the other end gets it.
    fn flush(&mut self) -> Result<(), WriteFault>
        ensures { FlushStep (seen self.old) (seen self.new) result };
}

/// Writes all of `text`, by as many writes as it takes, without a flush. If a write fails, only a prefix of the text
/// was written.
pub fn put<W: Output>(writer: &mut W, text: &[u8]) -> Result<(), WriteFault>
    ensures { Puts (W.seen writer.old) (W.seen writer.new) result text.now }
{
    let mut at = 0;
    while at < text.len() {
        at += writer.write(&text[at..])?;
    }
    Ok(())
}

/// Writes all of a text, and flushes. If the write or the flush fails, only a prefix of the text may have been written.
pub fn send<W: Output>(writer: &mut W, text: &[u8]) -> Result<(), WriteFault>
    ensures { Sends (W.seen writer.old) (W.seen writer.new) result text.now }
{
    put(writer, text)?;
    writer.flush()
}

/// Writes the texts of `parts` one after the other, without a flush. If a write fails, only a prefix of them all was
/// written.
pub fn put_parts<W: Output>(writer: &mut W, parts: &[&[u8]]) -> Result<(), WriteFault>
    ensures { Puts (W.seen writer.old) (W.seen writer.new) result (joined parts.now) }
{
    for part in parts {
        put(writer, part)?;
    }
    Ok(())
}
