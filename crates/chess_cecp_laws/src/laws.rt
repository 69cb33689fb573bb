//! Laws of sessions and of servers of lines: that a refusal changes nothing, that in normal chess the commands do what
//! a table for normal chess only says, that no answer depends on how reads cut the bytes, and that games which
//! chess_pgn reads are accepted. A caller learns one by calling its function, which does nothing.

ghost use Rattle.std.specs.Prelude.{◌≡◌, ℕ, true, List, Ok};
ghost use Rattle.byte_devices.specs.Transfers.{Devices, FromInput, InputGave, Ran};
ghost use Rattle.chess_base.specs.declared.man.Variant.TheVariants.{Normal};
ghost use Rattle.chess_cecp.specs.declared.command.Command.{Command};
ghost use Rattle.chess_cecp.specs.declared.run.End.{End};
ghost use Rattle.chess_cecp.specs.Held.{SessionSeen};
ghost use Rattle.chess_cecp.specs.Served.{Served};
ghost use Rattle.chess_cecp.specs.Session.{row, session_response, IsRefusal};
ghost use Rattle.chess_cecp_laws.specs.Accepted.{ReadGamesAreAccepted};
ghost use Rattle.chess_cecp_laws.specs.KnownInput.{AnswersInput, AreFirstLines};
ghost use Rattle.chess_cecp_laws.specs.Normal.{normal_row_of, has_normal_row};
ghost use Rattle.chess_game.specs.Game.{State};
ghost use Rattle.pgn_writer.specs.declared.tags.Tags.{Tags};
ghost use Rattle.text_lines.specs.Lines.{LineSeen};

use chess_cecp::LineServer;

/// States a law and does nothing: a line that is refused (`Error ..`, `Illegal move ..`, `tellusererror ..`) leaves the
/// session as it was: start, moves and declared result.
pub fn refusals_change_nothing()
    ensures { (session : SessionSeen) (line : LineSeen) → IsRefusal (session_response session line).text
        → (session_response session line).state ≡ session }
{}

/// States a law and does nothing: in a game of normal chess each command except `variant` and `protover` does what the
/// table of commands for normal chess only (specs/Normal) says.
pub fn normal_chess_keeps_its_rows()
    ensures { (tags : Tags) (limit : ℕ) (s : State) (text argument : List ℕ) (command : Command)
        → s.start.variant ≡ Normal → has_normal_row command ≡ true
        → row tags limit s text argument command ≡ normal_row_of tags limit s text argument command }
{}

/// States a law and does nothing: the way in which reads cut an input's bytes into pieces changes no answer. If the
/// bytes that the input will give are known, the lines that are read are the first lines of these bytes. A server of
/// lines (a session, the stub, or any other `LineServer`) that ends without a fault answers the lines of these bytes,
/// up to the first with which it ends, such as `quit`.
pub fn reads_change_no_answer<S: LineServer>()
    ensures lines { (d d2 : Devices) (i : FromInput) → InputGave d.input d2.input i → AreFirstLines d i }
    ensures answers { (s s2 : S) (end : End) (d d2 : Devices)
        → Ran (Served S.respond s s2 (Ok end)) d d2 → AnswersInput S.respond s s2 d d2 }
{}

/// States a law and does nothing: a session accepts the moves of each game that `read_pgn` of chess_pgn reads without a
/// fault. If the session is at the game's start, and has the same limit of half-moves, then each move sent by
/// `usermove`, one after another, is played, whichever text denotes it.
pub fn read_games_are_accepted()
    ensures { ReadGamesAreAccepted }
{}
