//! Reads a session as it looks in a terminal, and says for each point in its input or output what was done by then.

use chess_cecp::{End, Fault};
use std::alloc::{AllocError, Global};

/// The place where a line begins: how many bytes were read before it, how many were written, and how many calls a
/// writer had by then that takes one byte at a time.
#[derive(Clone, Copy)]
pub struct Turn {
    pub read: usize,
    pub written: usize,
    pub calls: usize,
}

// The place before the first line.
const START: Turn = Turn {
    read: 0,
    written: 0,
    calls: 0,
};

/// A session: what is read, what is written, and the place where each line begins, and at last where the input ends.
#[derive(Drop)]
pub struct Transcript {
    pub input: Vec<u8>,
    pub answers: Vec<u8>,
    turns: Vec<Turn>,
    quit: Option<Quit>,
}

// The line `quit`: where it begins in the input, and how many lines are before it, which are all that are answered.
#[derive(Clone, Copy)]
struct Quit {
    read: usize,
    lines: usize,
}

impl Transcript {
    /// Reads the session of a text: what is after `> ` is a line of the input, and other lines are written.
    pub fn read(alloc: Global, text: &[u8]) -> Result<Self, AllocError> {
        let mut transcript = Transcript {
            input: Vec::new(alloc),
            answers: Vec::new(alloc),
            turns: Vec::new(alloc),
            quit: None,
        };
        for line in text.split_inclusive(|byte| *byte == b'\n') {
            transcript.add(line)?;
        }
        transcript.begin_line()?;
        Ok(transcript)
    }

    // Adds a line of the text: to the answers, or without its `> ` to the input.
    fn add(&mut self, line: &[u8]) -> Result<(), AllocError> {
        let Some(line) = line.strip_prefix(b"> ") else {
            return add_text(&mut self.answers, line);
        };
        self.begin_line()?;
        if line.starts_with(b"quit") {
            self.quit = Some(Quit {
                read: self.input.len(),
                lines: self.turns.len(),
            });
        }
        add_text(&mut self.input, line)
    }

    // How many of the lines so far are answered: all, or those before `quit`.
    fn answered(&self) -> usize {
        match self.quit {
            Some(quit) => quit.lines,
            None => self.turns.len(),
        }
    }

    // Notes the place where the next line begins. Each answer before it took a call for each byte, and each line that
    // is answered a flush.
    fn begin_line(&mut self) -> Result<(), AllocError> {
        let begun = Turn {
            read: self.input.len(),
            written: self.answers.len(),
            calls: self.answers.len().saturating_add(self.answered()),
        };
        self.turns.push(begun)?;
        Ok(())
    }

    /// The place of the line that is being read after `read` bytes: all lines before it are whole.
    pub fn at_byte(&self, read: usize) -> Turn {
        let mut found = START;
        for turn in self.turns.as_slice() {
            if turn.read <= read {
                found = *turn;
            }
        }
        found
    }

    /// The place of the line in whose answer the writer's call of this number comes, counted from 0.
    pub fn at_call(&self, calls: usize) -> Turn {
        let mut found = START;
        for turn in self.turns.as_slice() {
            if turn.calls <= calls {
                found = *turn;
            }
        }
        found
    }

    /// How a session ends whose input ends after `read` bytes: by `quit` if these four bytes are among them, since a
    /// last line needs no byte 10.
    pub fn end_at(&self, read: usize) -> End {
        match self.quit {
            Some(quit) if quit.read.saturating_add(4) <= read => End::Quit,
            _ => End::InputEnded,
        }
    }

    /// How a session ends of which a read fails after `read` bytes: by `quit` if its line is whole by then, else with
    /// the fault.
    pub fn fault_at(&self, read: usize) -> Result<End, Fault> {
        match self.quit {
            Some(quit) if quit.read < self.at_byte(read).read => Ok(End::Quit),
            _ => Err(Fault::Read),
        }
    }
}

// Adds a text, in which `@` stands for 64 letters `z`.
fn add_text(texts: &mut Vec<u8>, text: &[u8]) -> Result<(), AllocError> {
    for byte in text {
        if *byte == b'@' {
            texts.extend_from_slice(&[b'z'; 64])?;
        } else {
            texts.push(*byte)?;
        }
    }
    Ok(())
}
