//! Laws of the lines that a session is sent. A caller learns one by calling its function, which does nothing. What a
//! law refuses are wrong definitions: with one of them it can't be proved.

ghost use Rattle.chess_cecp_laws.specs.GameLines.{BareMovesAreMoves, ClaimsAreShown, FaultsAreNamed, GameLinesAreAnswered, ResultsAreRead};
ghost use Rattle.chess_cecp_laws.specs.SessionLines.{LinesAreCut, OtherWordsAreUnknown, SessionLinesAreAnswered};

/// A law: the contract says it, and the function does nothing. A line whose first word is none of 37 known words, and
/// which has no move's shape, is answered as an unknown command.
///
/// It refuses that one more command is accepted and ignored, such as `memory`, and that a command's name may be in
/// capital letters.
pub fn other_words_are_unknown()
    ensures { OtherWordsAreUnknown }
{}

/// A law: the contract says it, and the function does nothing. Every session answers some lines, such as one for each
/// ignored command, by the same texts. And the bytes of an input are cut into lines: without `\r`, spaces and tabs at
/// their ends; a line is too long only if it has more bytes than the limit, and then its first 64 bytes are kept. Both
/// are examples.
///
/// It refuses that one of the ignored commands is unknown, another list of features, a `ping` whose number may have
/// more than nine digits, or only fewer, and a `variant fischerandom` that begins another game.
pub fn session_lines_are_answered()
    ensures answers { SessionLinesAreAnswered }
    ensures lines { LinesAreCut }
{}

/// A law: the contract says it, and the function does nothing. Some lines are answered depending on a session's game: a
/// move while the game is on, moves and `claim` after the end, a move beyond the limit, `undo` and `remove` of up to
/// three half-moves, `variant normal`, `claim`, `result`, and `setboard` of two FENs that are refused and of a
/// stalemate's. So are commands that show a game that has just begun, one of a single half-move, or which draws can be
/// claimed. A bare move, such as `e4`, is answered as `usermove e4` is. The law also says which results `result`
/// declares, in examples, and how `setboard` names each fault of a FEN.
///
/// It refuses a result that is accepted against the board's verdict, a move beyond the limit of half-moves, a mate or a
/// stalemate that is not answered, an `undo` that keeps a declared result, a brace that stays in a comment, and a move
/// that needs `usermove`.
pub fn game_lines_are_answered()
    ensures answers { GameLinesAreAnswered }
    ensures bare { BareMovesAreMoves }
    ensures claims { ClaimsAreShown }
    ensures results { ResultsAreRead }
    ensures faults { FaultsAreNamed }
{}
