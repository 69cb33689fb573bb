//! What a match gets from outside: engines and a clock.

ghost use Rattle.std.specs.Prelude.{◌≡◌, ◌∷◌, [], IfErr, IfOk, None};
ghost use Rattle.chess_match.specs.Run.{engines_of};
ghost use Rattle.match_runner.specs.Games.{IsStartFault, none_killed};
ghost use Rattle.match_runner.specs.GamesTable.{AreFresh, Finishes, OpensClock, StepsPass, starting};

use crate::fault::GamesFault;
use byte_devices::{Input, Output};
use chess_base::ByColour;
use chess_match::{Ends, Moments};

/// The two engines of a game, as a host started them.
#[derive(Drop)]
pub struct Engines<P, R, W> {
    /// What the host needs to wait for their ends.
    pub running: P,
    /// What reads their outputs, and what writes their inputs.
    pub ends: ByColour<Ends<R, W>>,
}

/// What starts the engines of a match, waits for their ends, and has the clock. The engines and the clock may be a
/// system's processes and clock ([`ProcessHost`](crate::ProcessHost)), or, in tests, texts and moments in memory
/// ([`MemoryHost`](crate::MemoryHost)); code that is generic in the host can't ask which. Each call is one step, and
/// contracts see in which order the steps come.
pub trait Host {
    ghost use Rattle.std.specs.Prelude.{List};
    ghost use Rattle.chess_base.specs.declared.man.Colour.{Colour};
    ghost use Rattle.match_runner.specs.GamesTable.{HostStep};

    /// What the host needs to wait for the ends of two engines.
    type Running;

    /// What reads an engine's output.
    type Reader: Input;

    /// What writes an engine's input.
    type Writer: Output;

    /// The clock of a match.
    type Clock: Moments + Drop;

    /// What contracts see of the host: which steps may come from now on, in their order.
    ghost to_come: { Self → List HostStep → Type 0 };

    /// Opens the clock of a match.
    fn open_clock(&mut self) -> Self::Clock
        ensures passes { StepsPass (to_come self.old) (to_come self.new) (OpensClock (Self.Clock.coming result) ∷ []) };

    /// Starts two engines by their commands, White's and Black's; or none, if one of them can't be started. Each write
    /// to them may wait for at most `limit` milliseconds, if there is a limit.
    ///
    /// # Errors
    /// If one of them can't be started, or memory runs out.
    fn start<'a>(
        &mut self,
        white: &'a str,
        black: &'a str,
        limit: Option<u64>,
    ) -> Result<Engines<Self::Running, Self::Reader, Self::Writer>, GamesFault<'a>>
        ensures fails { IfErr result (IsStartFault white.entry.now black.entry.now) }
        ensures fresh { IfOk result (λ e. (S : Colour)
            → AreFresh (engines_of Self.Reader.seen Self.Writer.seen e.ends.white e.ends.black S)) }
        ensures passes { StepsPass (to_come self.old) (to_come self.new)
            (starting (λ e. engines_of Self.Reader.seen Self.Writer.seen e.ends.white e.ends.black)
            white.entry.now black.entry.now limit result ∷ []) };

    /// Closes the inputs of these engines, and waits for their ends; if there is a limit, an engine that has not ended
    /// after so many milliseconds is killed. Returns which were killed.
    fn finish(
        &mut self,
        engines: Engines<Self::Running, Self::Reader, Self::Writer>,
        limit: Option<u64>,
    ) -> ByColour<bool>
        ensures passes { StepsPass (to_come self.old) (to_come self.new)
            (Finishes (engines_of Self.Reader.seen Self.Writer.seen engines.ends.white engines.ends.black)
            limit result ∷ []) }
        ensures spared { limit ≡ None → result ≡ none_killed };
}
