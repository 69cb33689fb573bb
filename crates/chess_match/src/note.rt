//! The notes that a witness of a match is given.

use chess_base::Colour;

/// One note that a witness of a match, such as the log, is given: an event, or the bytes that an engine is sent. `side`
/// is that of the engine, and `moment` what the clock then showed.
#[derive(Clone, Copy, Debug)]
pub enum Note<'a> {
    /// The engine sent a line with this text; `None`: the line was too long.
    Line {
        side: Colour,
        text: Option<&'a [u8]>,
        moment: u64,
    },
    /// The lines which open this side's turn were sent.
    Opened {
        side: Colour,
        moment: u64,
    },
    /// A look for a line of the engine found that none had come.
    Silent {
        side: Colour,
        moment: u64,
    },
    /// The engine closed its output, which ended the match.
    OutputEnds {
        side: Colour,
    },
    /// Reading from the engine failed, which ended the match.
    FailsToRead {
        side: Colour,
    },
    /// Writing to the engine failed, which ended the match.
    FailsToWrite {
        side: Colour,
    },
    /// The engine is now sent these bytes.
    Gives {
        side: Colour,
        text: &'a [u8],
    },
}
