//! Laws of how a game ends. A caller learns one by calling its function, which does nothing. That a law refuses a
//! definition means: with this definition the law can't be proved.

ghost use Rattle.rules_laws.specs.Endings.{ClocksCountQuietMoves, CountersStop, CountingEnds, InsufficientNeverMates, NoMoveEnds};

/// A law: the contract says it, and the function does nothing. A game ends by mate exactly if the side on move is in
/// check and no move is legal, and by stalemate exactly if it is not in check and no move is legal (FIDE Laws of Chess
/// 2023, articles 5.1.1 and 5.2.1).
///
/// It refuses definitions with one of these mistakes: a win by stalemate, a win of the side that is mated, and mate or
/// stalemate where some move is legal.
pub fn a_game_ends_where_no_move_is_legal()
    ensures { NoMoveEnds }
{}

/// A law: the contract says it, and the function does nothing. A game ends at the latest when its present position is
/// there for the fifth time, or when the last 150 half-moves were neither captures nor pawn moves; a draw can be
/// claimed at the third time, and after 100 such half-moves (FIDE Laws of Chess 2023, articles 9.2, 9.3 and 9.6). If
/// both ends come at once, the verdict is not the 75-move rule. All this is stated by the game's positions and moves,
/// not by its repetition count or clock; only half-moves before the start are taken from the start's halfmove clock.
///
/// It refuses definitions with one of these mistakes: a game ends at the fourth time or only at the sixth, after 149
/// half-moves or only after 151; the clock isn't reset by some capture or pawn move; or the 75-move rule comes before
/// fivefold repetition.
pub fn repetitions_and_quiet_moves_end_a_game()
    ensures { CountingEnds }
{}

/// A law: the contract says it, and the function does nothing. From a sound position of insufficient material no legal
/// moves lead to mate (FIDE Laws of Chess 2023, article 5.2.2).
///
/// It refuses definitions by which two knights, bishops on squares of both colours, or a pawn are insufficient
/// material.
pub fn insufficient_material_never_mates()
    ensures { InsufficientNeverMates }
{}

/// A law: the contract says it, and the function does nothing. The halfmove clock counts the half-moves since the last
/// capture or pawn move, as FEN has it: it is at least n exactly if the last n half-moves were neither. Where the game
/// has fewer half-moves, those before its start are counted by the start's clock. The fullmove number counts Black's
/// moves. Both counters stay at 999,999.
///
/// It refuses definitions with one of these mistakes: a clock that isn't reset by some capture or pawn move, a clock
/// that counts full moves, and counters with another limit or without one.
pub fn halfmove_clocks_count_quiet_moves()
    ensures quiet { ClocksCountQuietMoves }
    ensures limits { CountersStop }
{}
