//! Lines from a reader, answered on a writer by a session, or by anything else that answers lines.

ghost use Rattle.std.specs.Prelude.{◌≡◌, IfOk, if◌then◌else◌};
ghost use Rattle.byte_devices.specs.Devices.{Sends};
ghost use Rattle.byte_devices.specs.Transfers.{Ran};
ghost use Rattle.chess_cecp.specs.Served.{Served};
ghost use Rattle.chess_cecp.specs.Session.{session_response};
ghost use Rattle.chess_cecp.specs.declared.run.Fault.TheVariants.{Read, Write};

use crate::session::{COMMAND_LEN, Go, Session};
use byte_devices::{Input, Output, ReadFault, WriteFault};
use chess_moves::Board;
use text_lines::{Line, Lines};

/// How a run ended.
#[derive(Clone, Copy, Debug, PartialEq, Eq)]
pub enum End {
    /// A line ended it, such as the command `quit` of a session.
    Quit,
    /// The input ended.
    InputEnded,
}

/// Why a run broke off: a call of the named device failed.
#[derive(Clone, Copy, Debug, PartialEq, Eq, thiserror::Error)]
pub enum Fault {
    #[error("a read failed")]
    Read,
    #[error("a write or a flush failed")]
    Write,
}

impl From<ReadFault> for Fault {
    ghost from_gives = { λ _ fault. fault ≡ Read };

    // The fault that `?` returns for a read that failed: `Read`.
    fn from(_fault: ReadFault) -> Fault {
        Fault::Read
    }
}

impl From<WriteFault> for Fault {
    ghost from_gives = { λ _ fault. fault ≡ Write };

    // The fault that `?` returns for a write or a flush that failed: `Write`.
    fn from(_fault: WriteFault) -> Fault {
        Fault::Write
    }
}

/// What answers lines one after another, such as a session.
pub trait LineServer {
    ghost use Rattle.text_lines.specs.Lines.{LineSeen};
    ghost use Rattle.chess_cecp.specs.Serving.{Response};

    /// How it responds to a line: the text that it writes, its state then, and whether it ends.
    ghost respond: { Self → LineSeen → Response Self };

    /// Answers a line: the server's state changes, the answer is written, and the writer is flushed. Returns whether
    /// the server continues.
    ///
    /// # Errors
    /// If a write or the flush fails. The change is kept; of the answer nothing, a beginning or all was written.
    fn answer_line<W: Output>(
        &mut self,
        line: &Line<COMMAND_LEN>,
        writer: &mut W,
    ) -> Result<Go, WriteFault>
        ensures next { self.new ≡ (respond self.old line.now).state }
        ensures written { Sends (W.seen writer.old) (W.seen writer.new) result (respond self.old line.now).text }
        ensures go { IfOk result (λ go. go ≡ (if (respond self.old line.now).ends then Go.Quit else Go.On)) };
}

impl<B: Board> LineServer for Session<B> {
    ghost respond = { session_response };

    // Answers a line of a session: changes the game, writes the answer, and flushes the writer. Returns whether the
    // session continues.
    fn answer_line<W: Output>(
        &mut self,
        line: &Line<COMMAND_LEN>,
        writer: &mut W,
    ) -> Result<Go, WriteFault> {
        self.answer(line, writer)
    }
}

/// Answers the lines of a stream one after another, up to the first line that ends the server, or to the input's end; a
/// last line that no `\n` ends is answered, too. The next line is read only after the answer to the previous one was
/// written and flushed.
///
/// # Errors
/// If a call of the reader or of the writer fails. After a failed read all whole lines were answered; after a failed
/// write or flush the change by the line then answered is kept, and of its answer nothing, a beginning or all was
/// written.
pub fn serve_lines<R: Input, W: Output, S: LineServer>(
    reader: &mut R,
    writer: &mut W,
    server: &mut S,
) -> Result<End, Fault>
    ensures { Ran (Served S.respond server.old server.new result)
        (record { input = R.seen reader.old; output = W.seen writer.old })
        (record { input = R.seen reader.new; output = W.seen writer.new }) }
{
    let mut lines: Lines<COMMAND_LEN> = Lines::new();
    let mut line = Line::new();
    loop {
        if !lines.read_line(reader, &mut line)? {
            return Ok(End::InputEnded);
        }
        match server.answer_line(&line, writer)? {
            Go::On => {}
            Go::Quit => return Ok(End::Quit),
        }
        if !line.is_ended() {
            return Ok(End::InputEnded);
        }
    }
}

/// Answers the lines of a stream one after another, up to the first `quit` or to the input's end. The next line is
/// read only after the answer to the previous one was written and flushed.
///
/// # Errors
/// As for [`serve_lines`].
pub fn run_session<R: Input, W: Output, B: Board>(
    reader: &mut R,
    writer: &mut W,
    session: &mut Session<B>,
) -> Result<End, Fault>
    ensures { Ran (Served session_response session.old session.new result)
        (record { input = R.seen reader.old; output = W.seen writer.old })
        (record { input = R.seen reader.new; output = W.seen writer.new }) }
{
    serve_lines(reader, writer, session)
}
