//! Laws of the definitions, each the contract of a function that does nothing. Code of other crates calls these; the
//! others are in chess_pgn_laws.

ghost use Rattle.chess_pgn.specs.laws.Offsets.{FaultsHaveOffsets, HalfMovesHaveBytes};
ghost use Rattle.chess_pgn.specs.laws.Unreadable.{UnreadableGamesHaveNoEnd};

/// States a law and does nothing: a fault's offset is not before the offset where reading began, and at most the text's
/// length. It may be the length, as when a result is missing at the text's end.
pub fn faults_have_offsets()
    ensures { FaultsHaveOffsets }
{}

/// States a law and does nothing: a game that is read without a fault has no more half-moves than its text has bytes,
/// from the offset where reading begins to the end of its outcome.
pub fn half_moves_have_bytes()
    ensures { HalfMovesHaveBytes }
{}

/// States a law and does nothing: if a game is read with a fault at what can't be read as a token, it has no end
/// (`game_end` of its tokens is `None`), so none need be looked for. Such a fault is a bad tag, a comment or a
/// variation that isn't closed, or a bad token that begins with no byte of a word.
pub fn unreadable_games_have_no_end()
    ensures { UnreadableGamesHaveNoEnd }
{}
