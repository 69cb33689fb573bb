//! Draws that may be claimed.

/// Whether a draw that the player on move may claim, by threefold repetition or 50 moves (Laws of Chess 2023, articles
/// 9.2.2 and 9.3.2), must be claimed.
#[derive(Clone, Copy, Debug, PartialEq, Eq)]
pub enum Draws {
    /// An engine must claim it.
    Claimed,
    /// The game ends with the position that allows the claim, as if both sides made it.
    Automatic,
}
