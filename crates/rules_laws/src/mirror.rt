//! Laws of positions in the mirror: with colours exchanged and ranks counted from the other side. A caller learns one
//! by calling its function, which does nothing. That a law refuses a definition means: with this definition the law
//! can't be proved.

ghost use Rattle.rules_laws.specs.Mirror.{MirrorAttacksAlike, MirrorEndsAlike, MirrorGamesAlike, MirrorIsAsLegal, MirrorMovesAlike};

/// A law: the contract says it, and the function does nothing. In the mirror the ways between squares are clear, pieces
/// attack, colours attack squares, and kings are in check just as on the board, with squares mirrored and colours
/// exchanged: the rules are the same for both colours (FIDE Laws of Chess 2023, articles 3.1 to 3.9).
///
/// It refuses definitions by which one colour attacks otherwise than the other, such as black pawns that attack up the
/// board.
pub fn attacks_are_mirrored()
    ensures { MirrorAttacksAlike }
{}

/// A law: the contract says it, and the function does nothing. A move is legal in a sound position exactly if the
/// mirrored move is legal in the mirrored position, and then both lead to mirrored positions. Only the fullmove number
/// differs: it rises after Black's moves.
///
/// It refuses definitions by which one colour moves otherwise than the other, such as castling squares, a promotion
/// rank or a double advance that are wrong for one colour alone.
pub fn moves_are_mirrored()
    ensures legal { MirrorIsAsLegal }
    ensures after { MirrorMovesAlike }
{}

/// A law: the contract says it, and the function does nothing. A sound position and its mirror are both mate or neither
/// is, and likewise for stalemate and for insufficient material (FIDE Laws of Chess 2023, article 5).
pub fn endings_are_mirrored()
    ensures { MirrorEndsAlike }
{}

/// A law: the contract says it, and the function does nothing. A game from a sound start and the same game in the
/// mirror have mirrored verdicts and the same draws to claim (FIDE Laws of Chess 2023, articles 5 and 9).
pub fn games_are_mirrored()
    ensures { MirrorGamesAlike }
{}
