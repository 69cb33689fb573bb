//! Laws of lines, FENs and positions that chess players and programmers know, by computation. A caller learns one by
//! calling its function, which does nothing. That a law refuses a definition means: with this definition the law
//! can't be proved.

ghost use Rattle.rules_laws.specs.KnownCounts.{CastlingIsKnown, EndingsAreJudged, MovesAreAsMany};
ghost use Rattle.rules_laws.specs.KnownPositions.{FensAreRefused, LinesLeadToFens, PositionsAreTheSame, TheSameHaveTheSamePieces};

/// A law: the contract says it, and the function does nothing. Eight known lines from the initial position are legal,
/// and lead to positions with the FENs that are named (three are examples of the PGN standard of 1994, section 16.1.4).
///
/// It refuses definitions with one of these mistakes: in these lines a right to castle is lost without a reason, an en
/// passant target is missing, the move number rises after White's move, or castling or a promotion leaves wrong pieces.
pub fn known_lines_lead_to_these_fens()
    ensures { LinesLeadToFens }
{}

/// A law: the contract says it, and the function does nothing. Known FENs of normal chess and Chess960 are refused,
/// each for the first of its faults, and similar ones are accepted: some for each condition of a sound position, and
/// some for each field. Fields are separated by spaces, not by a tab. Where the counters are left out they are 0 and 1.
/// Some accepted FENs also have the FEN with which their position is written, such as one with `HA` for `KQ` in
/// Chess960.
pub fn known_fens_are_refused()
    ensures { FensAreRefused }
{}

/// A law: the contract says it, and the function does nothing. Of known positions that look alike some are the same for
/// repetition, and others differ in the side on move, in rights to castle, or in a capture en passant (FIDE Laws of
/// Chess 2023, article 9.2.3). Any two that are the same have the same piece, or none, on each square.
pub fn known_positions_are_the_same()
    ensures known { PositionsAreTheSame }
    ensures pieces { TheSameHaveTheSamePieces }
{}

/// A law: the contract says it, and the function does nothing. Six known positions, three of them of Chess960, have as
/// many legal moves as is said; for the first two these are published counts (chessprogramming.org, Perft Results).
/// `castling` says of other positions of Chess960 whether the king may castle.
///
/// It refuses definitions with one of these mistakes: a pawn that captures straight ahead, goes past a piece or
/// promotes to a queen alone, a king of Chess960 that can't castle because its own rook is in its way or because it
/// doesn't move, and one that castles though its rook uncovers an attack.
pub fn known_positions_have_so_many_moves()
    ensures count { MovesAreAsMany }
    ensures castling { CastlingIsKnown }
{}

/// A law: the contract says it, and the function does nothing. Ten small positions are mate, stalemate, or drawn for
/// insufficient material or by the 75-move rule, as is named; one, a half-move short of 75 moves, has no verdict.
///
/// It refuses definitions with one of these mistakes: a game continues with king and bishop against king, or if all
/// bishops are on squares of one colour; or the 75-move rule comes before insufficient material.
pub fn known_endings_are_judged()
    ensures { EndingsAreJudged }
{}
