//! Laws of a session's game. A caller learns one by calling its function, which does nothing. What a law refuses are
//! wrong definitions: with one of them it can't be proved.

ghost use Rattle.chess_cecp_laws.specs.SetBoard.{SetboardTakesShownFens};
ghost use Rattle.chess_cecp_laws.specs.Undo.{UndoTakesAMoveBack};

use chess_fen_laws::written_is_denoted;

/// A law: the contract says it, and the function does nothing. `undo` after a move that a session accepted has no
/// answer, and leaves the session as it was before the move.
///
/// It refuses an `undo` that takes back two half-moves or none, and a move that is accepted after a declared result.
pub fn undo_takes_a_move_back()
    ensures { UndoTakesAMoveBack }
{}

/// A law: `setboard` of the FEN that `showfen` wrote begins a game at the position that was shown, in the same session
/// or in another one of the same variant.
///
/// It refuses a FEN of another position, such as the start's, and a `setboard` that keeps the moves.
pub fn shown_fens_are_set()
    ensures { SetboardTakesShownFens }
{
    // The prover needs this law: a FEN that was written is read back.
    written_is_denoted();
}
