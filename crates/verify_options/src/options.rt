//! How games are verified.

/// Which faults are looked for in a game, besides those that keep it from being read. All but `draws_of_2014` are
/// looked for only if it is read to its termination marker.
#[derive(Clone, Copy, Debug, PartialEq, Eq)]
pub struct Strictness {
    /// A move after a draw by fivefold repetition or by 75 moves, which end a game since the Laws of Chess of 2014. If
    /// this is false, neither ends a game.
    pub draws_of_2014: bool,
    /// A fault in one of its variations: each move in them is to be legal, too.
    pub variations: bool,
    /// A tag `Variant` that names a variant that is not known.
    pub variant: bool,
    /// A tag `Result` with another text than the termination marker.
    pub result: bool,
    /// A verdict of the board with another outcome than the termination marker.
    pub board: bool,
}

/// Nothing is looked for but a move after the end of the game, also after a draw by fivefold repetition or by 75 moves.
pub const LENIENT: Strictness = Strictness {
    draws_of_2014: true,
    variations: false,
    variant: false,
    result: false,
    board: false,
};

/// What [`LENIENT`] looks for, an unknown variant, and a termination marker that differs from the tag `Result` or from
/// the board's verdict.
pub const STRICT_FAULTS: Strictness = Strictness {
    draws_of_2014: true,
    variations: false,
    variant: true,
    result: true,
    board: true,
};

/// How games are verified.
#[derive(Clone, Copy, Debug, PartialEq, Eq)]
pub struct VerifyOptions {
    /// Leaves out the lines of games without a fault.
    pub quiet: bool,
    /// Which faults are looked for in a game, besides those that keep it from being read.
    pub strict: Strictness,
    /// Ends each line with the span of its game: the offset of its first byte, and that of the byte after its last. A
    /// game with a fault goes to where the next one is read, or to the end of its text.
    pub spans: bool,
    /// Ends the line of each fault with its game's players, event and date, as its tags have them: ` | ` and then
    /// `White - Black, Event Date`.
    pub names: bool,
    /// Adds after each fault a line that explains it: the fault's line and column, the text there, and for some kinds
    /// of fault the position and the reason.
    pub explain: bool,
}
