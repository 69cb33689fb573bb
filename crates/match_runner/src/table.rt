//! The trait of a table, at which the games of a match are played.

ghost use Rattle.std.specs.Prelude.{◌≡◌, ◌∷◌, [], IfErr, IfOk, List, None};
ghost use Rattle.std.specs.Result.{is_err};
ghost use Rattle.byte_devices.specs.Devices.{Sends};
ghost use Rattle.chess_match.specs.Notes.{Note};
ghost use Rattle.chess_match.specs.Played.{PlayedNoting};
ghost use Rattle.pgn_writer.specs.GameText.{pgn};
ghost use Rattle.match_runner.specs.Games.{IsStartFault, LogsGame, none_killed};
ghost use Rattle.match_runner.specs.GamesTable.{AreFresh, AtHost, Finishes, Plays, StepsPass, starting, writing};
ghost use Rattle.match_runner.specs.Log.{log_seen};

use crate::fault::GamesFault;
use crate::log::Log;
use byte_devices::{Output, WriteFault};
use chess_base::{ByColour, Colour};
use chess_match::{MatchEnd, Setup};
use pgn_writer::Tags;

/// Where the games of a match are played: what starts and ends engines, plays their games and writes them. Each call is
/// one step of the match, and contracts see in which order the steps come.
pub trait GamesTable {
    ghost use Rattle.std.specs.Prelude.{List, Option, ℕ};
    ghost use Rattle.byte_devices.specs.Transfers.{Devices};
    ghost use Rattle.chess_base.specs.declared.man.Colour.{Colour};
    ghost use Rattle.chess_game.specs.Game.{Seen};
    ghost use Rattle.match_runner.specs.GamesTable.{GamesStep};

    /// Two running engines. Code that is generic in the table can't drop such a value: it must be given to `finish`.
    type Engines;

    /// What contracts see of the table: which steps may come from now on, in their order.
    ghost to_come: { Self → List GamesStep → Type 0 };

    /// The game that is played, or was played last.
    ghost game: { Self → Seen };

    /// For each n from 0 on, which moment the clock will show after n readings more, where that is known: n is 0 at the
    /// next reading.
    ghost coming: { Self → ℕ → Option ℕ };

    /// The pipes of each of two engines.
    ghost devices: { Self.Engines → Colour → Devices };

    /// Starts two engines by their commands, White's and Black's; or none, if one of them can't be started. Each write
    /// to them may wait for at most `limit` milliseconds, if there is a limit.
    fn start<'a>(
        &mut self,
        white: &'a str,
        black: &'a str,
        limit: Option<u64>,
    ) -> Result<Self::Engines, GamesFault<'a>>
        ensures fails { IfErr result (IsStartFault white.entry.now black.entry.now) }
        ensures fresh { IfOk result (λ e. (S : Colour) → AreFresh (devices e S)) }
        ensures passes { StepsPass (to_come self.old) (to_come self.new)
            (AtHost (starting devices white.entry.now black.entry.now limit result) ∷ []) }
        ensures game { game self.new ≡ game self.old }
        ensures clock { coming self.new ≡ coming self.old };

    /// Plays one game between these engines as `run_match` of chess_match does, and logs it if `first`, the side of the
    /// engine of `--white`, is given.
    fn play<E: Output>(
        &mut self,
        engines: &mut Self::Engines,
        setup: &Setup,
        first: Option<Colour>,
        log: &mut Log<E>,
    ) -> MatchEnd
        ensures played { (notes : List Note)
            × LogsGame first (log_seen (E.seen log.old.output) log.old.broken)
            (log_seen (E.seen log.new.output) log.new.broken) notes
            × PlayedNoting (λ given. given ≡ notes) setup.now result
            (record { engines = devices engines.old; coming = coming self.old; game = game self.old })
            (record { engines = devices engines.new; coming = coming self.new; game = game self.new })
            × StepsPass (to_come self.old) (to_come self.new)
            (Plays (record {
              before = record { engines = devices engines.old; coming = coming self.old; game = game self.old };
              after = record { engines = devices engines.new; coming = coming self.new; game = game self.new };
              end = result;
              notes = notes;
              killed = none_killed;
            }) ∷ []) };

    /// Writes the PGN of the game that was played, and flushes.
    fn write_game<W: Output>(&mut self, tags: &Tags, output: &mut W) -> Result<(), WriteFault>
        ensures sends { Sends (W.seen output.old) (W.seen output.new) result
            (pgn [] tags.now (game self.old).state) }
        ensures passes { StepsPass (to_come self.old) (to_come self.new)
            (writing (is_err result) (pgn [] tags.now (game self.old).state) ∷ []) }
        ensures game { game self.new ≡ game self.old }
        ensures clock { coming self.new ≡ coming self.old };

    /// Closes the inputs of these engines, and waits for their ends; if there is a limit, an engine that has not ended
    /// after so many milliseconds is killed. Returns which were killed.
    fn finish(&mut self, engines: Self::Engines, limit: Option<u64>) -> ByColour<bool>
        ensures passes { StepsPass (to_come self.old) (to_come self.new)
            (AtHost (Finishes (devices engines) limit result) ∷ []) }
        ensures spared { limit ≡ None → result ≡ none_killed }
        ensures game { game self.new ≡ game self.old }
        ensures clock { coming self.new ≡ coming self.old };
}
