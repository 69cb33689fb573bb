//! Laws of how pieces move. A caller learns one by calling its function, which does nothing. That a law refuses a
//! definition means: with this definition the law can't be proved.

ghost use Rattle.rules_laws.specs.Castled.{FischerandomCastlingEnds, FischerandomRightsAreAtHome, NormalCastlingEnds, NormalCastlingIsLegal};
ghost use Rattle.rules_laws.specs.EnPassant.{EnPassantFollowsDoubleAdvance};
ghost use Rattle.rules_laws.specs.FirstMoves.{FirstMovesAreThese};
ghost use Rattle.rules_laws.specs.KnownGames.{KnownGamesEnd};
ghost use Rattle.rules_laws.specs.Reach.{TablesHold};
ghost use Rattle.rules_laws.specs.Sliders.{DiagramsHold};

/// A law: the contract says it, and the function does nothing. From each square, whatever the other pieces are, a
/// knight and a king attack just the squares that plain tables list by name, and so does a pawn of each colour from a2
/// to h7 (FIDE Laws of Chess 2023, articles 3.6, 3.7.3 and 3.8.1).
///
/// It refuses definitions with one of these mistakes: any other reach, such as two squares each way for a knight, or
/// straight ahead for a pawn.
pub fn pieces_reach_by_tables()
    ensures { TablesHold }
{}

/// A law: the contract says it, and the function does nothing. On a board with pieces in their way, a rook, a bishop
/// and a queen of either colour on d4 attack just the squares that diagrams mark (FIDE Laws of Chess 2023, articles 3.2
/// to 3.5).
///
/// It refuses definitions with one of these mistakes: a piece that jumps, that goes past the first piece in its way, or
/// that stops before it.
pub fn lines_end_at_the_first_piece()
    ensures { DiagramsHold }
{}

/// A law: the contract says it, and the function does nothing. In a sound position, castling takes the king to the
/// g-file or the c-file of its first rank and the rook to the f-file or the d-file, in normal chess and in Chess960; no
/// other piece moves (FIDE Laws of Chess 2023, article 3.8.2 and Guidelines II). The squares are named, as `e1` and
/// `g1`.
///
/// It refuses definitions with one of these mistakes: a rook that stays, or that ends on the c-file, and a king that
/// ends on the b-file.
pub fn castling_ends_on_named_squares()
    ensures normal { NormalCastlingEnds }
    ensures fischerandom { FischerandomCastlingEnds }
{}

/// A law: the contract says it, and the function does nothing. In normal chess castling is legal exactly if the side on
/// move has the right to it, the squares between king and rook are empty, and none of the three squares on which the
/// king starts, goes or ends is attacked (FIDE Laws of Chess 2023, article 3.8.2). The squares are named. In Chess960 a
/// right needs the king and the rook on their first rank, from a1 to h1 or from a8 to h8 (Guidelines II).
///
/// It refuses definitions with one of these mistakes: castling out of check or through it, a rule that b1 must not be
/// attacked, or that c1 may be, and a right of Chess960 with the king or the rook on another rank.
pub fn castling_needs_named_squares()
    ensures normal { NormalCastlingIsLegal }
    ensures fischerandom { FischerandomRightsAreAtHome }
{}

/// A law: the contract says it, and the function does nothing. Of two legal moves from a sound position, the second
/// captures en passant only if the first was a pawn's double advance over the square to which the second goes; and it
/// captures that pawn (FIDE Laws of Chess 2023, article 3.7.3.1).
///
/// It refuses definitions with one of these mistakes: an en passant target that stays for a second move, a target after
/// a single advance, and the capture of another pawn.
pub fn en_passant_follows_a_double_advance()
    ensures { EnPassantFollowsDoubleAdvance }
{}

/// A law: the contract says it, and the function does nothing. The initial position has 20 legal moves, which are named
/// (FIDE Laws of Chess 2023, articles 2.3 and 3).
///
/// It refuses definitions with one of these mistakes: a bishop, rook or queen that jumps, and a pawn that goes three
/// squares, or only one.
pub fn first_moves_are_these()
    ensures { FirstMovesAreThese }
{}

/// A law: the contract says it, and the function does nothing. The scholar's mate and the fool's mate are legal games,
/// which White and Black win by mate (FIDE Laws of Chess 2023, articles 3 and 5.1.1).
///
/// It refuses definitions with one of these mistakes: mate is won by the mated side, and moves are legal (such as one
/// that leaves the king in check) by which that side could escape from one of these two mates.
pub fn known_games_end()
    ensures { KnownGamesEnd }
{}
