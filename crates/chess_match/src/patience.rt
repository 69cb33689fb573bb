//! How long a match waits for its engines.

/// How long a match waits for its engines. A match that waits only so long for a line reads it by
/// [`crate::MatchTable::read_line_until`], which needs inputs that can be waited for.
#[derive(Clone, Copy, Debug, PartialEq, Eq)]
pub struct Patience {
    /// Whether the flag of the side to move falls as soon as it has used more time than it had left, whether it sends a
    /// line or not. Otherwise its time is judged only when its next line comes.
    pub flag: bool,
    /// For how many milliseconds a line is waited for that an engine owes and that is no move: the next `feature` line
    /// of its handshake, `pong 1` and the `pong` after a move. If it is still owed after more, the match ends; but a
    /// line that a look finds counts, however late it came. `None`: it is waited for as long as it takes.
    pub reply: Option<u64>,
}

impl Patience {
    /// A match waits as long as it takes.
    pub const ENDLESS: Patience = Patience {
        flag: false,
        reply: None,
    };
}
