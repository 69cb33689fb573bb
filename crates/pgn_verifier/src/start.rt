//! Where a text begins, and how far it is read.

/// Where a text begins in the input: at the beginning of a line.
#[derive(Clone, Copy)]
pub(crate) struct TextStart {
    /// The offset of its first byte, counted from the input's first byte.
    pub offset: usize,
    /// The number of the line, counted from 1. It is known only if faults are explained.
    pub line: usize,
    /// Whether reading goes on after a game with a fault, if the end of that game is found.
    pub goes_on: bool,
}
