//! A host over memory, of which all is known.

ghost use Rattle.std.specs.Prelude.{◌≡◌, ◌≢◌, ◌<◌, ◌-◌, ◌^◌, ◌∷◌, ◌++◌, [], ℕ, IfErr, IfOk, IfSome, Some, None, count_by, length, option_map};
ghost use Rattle.std.specs.List.{find, slice_get};
ghost use Rattle.std.specs.Str.{bytes_eq};
ghost use Rattle.chess_base.specs.declared.man.Colour.{Colour};
ghost use Rattle.chess_match.specs.Run.{engines_of};
ghost use Rattle.match_runner.specs.Games.{IsStartFault, none_killed};
ghost use Rattle.match_runner.specs.GamesTable.{AreFresh, Finishes, OpensClock, StepsPass, starting};
ghost use Rattle.match_runner.specs.MemoryHost.{IsFaultOfStart, MayCome, fresh_pipes, moment_at, next_text, started_for, text_of_start};

use crate::fault::GamesFault;
use crate::host::{Engines, Host};
use byte_devices::{Counted, Input, Output, SilentAfter};
use chess_base::ByColour;
use chess_match::{Ends, Moments};
use std::alloc::{AllocError, Global};

/// An engine of a [`MemoryHost`].
#[derive(Clone, Copy)]
pub struct MemoryEngine<'t> {
    /// The command by which a match starts it.
    pub command: &'t str,
    /// What it sends in each of the games for which it is started, from the first on. For more games it can't be
    /// started.
    pub outputs: &'t [&'t [u8]],
    /// Whether it runs on when all of its output was read, and each wait for more finds nothing; otherwise its output
    /// ends then. Only matches with `flag` or `reply` in their patience wait; to others its output seems to have ended
    /// in both cases.
    pub falls_silent: bool,
}

/// A game for which a [`MemoryHost`] started two engines.
#[derive(Drop)]
pub struct MemoryGame<'t> {
    /// By which commands they were started.
    pub commands: ByColour<&'t str>,
    /// What they were sent. It is empty as long as they run.
    pub sent: ByColour<Vec<u8>>,
}

/// The clock of a [`MemoryHost`].
#[derive(Drop)]
pub struct MemoryClock<'t> {
    // The moments that it is still to show.
    rest: &'t [u64],
    // The moment that it showed last; 0 at first.
    shown: u64,
}

impl Moments for MemoryClock<'_> {
    ghost use Rattle.match_runner.specs.MemoryHost.{moment_at};

    ghost coming = { λ c. moment_at c.shown c.rest.now };

    // Shows the next moment, or the last one again.
    fn now(&mut self) -> u64 {
        if let [first, after @ ..] = self.rest {
            self.shown = *first;
            self.rest = after;
        }
        self.shown
    }
}

/// A host over memory, for tests: what its engines say and what its clock shows is given, and what the engines were
/// sent can be asked for after the match.
///
/// ```
/// let engines = [
///     MemoryEngine {
///         command: "a",
///         outputs: &[b"feature ping=1 done=1\npong 1\nmove e2e4\npong 2\nresign\n"],
///         falls_silent: false,
///     },
///     MemoryEngine {
///         command: "b",
///         outputs: &[b"feature ping=1 done=1\npong 1\nmove e7e5\npong 2\n"],
///         falls_silent: false,
///     },
/// ];
/// let mut host = MemoryHost::new(alloc, &engines, &[]);
/// play_games_with(&mut host, alloc, plan, &mut output, &mut log)?;
/// for game in host.games() {
///     print!(rt; "{}", str::from_utf8(game.sent.black.as_slice())?)?;
/// }
/// ```
///
/// An engine is started if its command is among those of `engines` and it has an output left; then its pipes give just
/// this output. A start of two engines that can't both be started starts none. No engine has to be killed. An engine
/// doesn't read: its output is there from the beginning, whatever it is sent.
#[derive(Drop)]
pub struct MemoryHost<'t> {
    engines: &'t [MemoryEngine<'t>],
    moments: &'t [u64],
    alloc: Global,
    games: Vec<MemoryGame<'t>>,
}

impl<'t> MemoryHost<'t> {
    /// A host with these engines. Of engines with the same command only the first is ever started. At each of its
    /// readings the clock of a match shows the next of `moments`, in milliseconds, and after the last of them that one
    /// again; without moments it shows 0.
    pub fn new(alloc: Global, engines: &'t [MemoryEngine<'t>], moments: &'t [u64]) -> Self
        ensures engines { result.engines.now ≡ engines.now }
        ensures moments { result.moments.now ≡ moments.now }
        ensures started { started_for result.games.items ≡ [] }
    {
        MemoryHost {
            engines,
            moments,
            alloc,
            games: Vec::new(alloc),
        }
    }

    /// The games for which engines were started, in their order.
    pub fn games(&self) -> &[MemoryGame<'t>]
        ensures { result.now ≡ self.now.games.items }
    {
        self.games.as_slice()
    }

    // For how many games an engine with this command was started as White.
    fn times_as_white(&self, command: &str) -> usize
        ensures value { result
            ≡ count_by (λ g. bytes_eq g.commands.white.now command.now) self.now.games.items }
        ensures few { result < 2 ^ 63 }
    {
        self.games
            .iter()
            .filter(|game| game.commands.white == command)
            .count()
    }

    // For how many games an engine with this command was started as Black.
    fn times_as_black(&self, command: &str) -> usize
        ensures value { result
            ≡ count_by (λ g. bytes_eq g.commands.black.now command.now) self.now.games.items }
        ensures few { result < 2 ^ 63 }
    {
        self.games
            .iter()
            .filter(|game| game.commands.black == command)
            .count()
    }

    // How many engines with this command were started.
    #[tactic(auto, using(crate::proofs::MemorySteps::started_as))]
    fn times_started(&self, command: &str) -> usize
        ensures value { result ≡ count_by (λ c. bytes_eq c command.now) (started_for self.now.games.items) }
        ensures few { result < 2 ^ 64 - 1 }
    {
        self.times_as_white(command) + self.times_as_black(command)
    }

    // The engine with this command, the first of several; `None` if there is none.
    fn engine_of(&self, command: &str) -> Option<&'t MemoryEngine<'t>>
        ensures engine { option_map (λ e. e.now) result
            ≡ find (λ e. bytes_eq e.command.now command.now) self.now.engines.now }
        ensures command { IfSome result (λ e. e.now.command.now ≡ command.now) }
    {
        self.engines.iter().find(|engine| engine.command == command)
    }

    // The start of the engine with this command, if it was started so many times before; `None` if it can't be started.
    fn start_of(&self, command: &str, times: usize) -> Option<Start<'t>>
        ensures text { option_map (λ s. s.text.now) result ≡ text_of_start self.now.engines.now command.now times }
        ensures command { IfSome result (λ s. s.command.now ≡ command.now) }
    {
        let engine = self.engine_of(command)?;
        let text = engine.outputs.get(times)?;
        Some(Start {
            command: engine.command,
            text,
            silences: if engine.falls_silent { u64::MAX } else { 0 },
        })
    }

    // The starts of two engines by their commands, White's and Black's; or the fault that one of them can't be started.
    fn starts_of<'a>(
        &self,
        white: &'a str,
        black: &'a str,
    ) -> Result<ByColour<Start<'t>>, GamesFault<'a>>
        ensures white_text { IfOk result (λ s. next_text self.now.engines.now (started_for self.now.games.items)
            white.entry.now ≡ Some s.white.text.now) }
        ensures black_text { IfOk result (λ s. next_text self.now.engines.now (started_for self.now.games.items
            ++ white.entry.now ∷ []) black.entry.now ≡ Some s.black.text.now) }
        ensures white_command { IfOk result (λ s. s.white.command.now ≡ white.entry.now) }
        ensures black_command { IfOk result (λ s. s.black.command.now ≡ black.entry.now) }
        ensures cause { IfErr result (IsFaultOfStart white.entry.now black.entry.now
            (next_text self.now.engines.now (started_for self.now.games.items) white.entry.now)
            (next_text self.now.engines.now (started_for self.now.games.items ++ white.entry.now ∷ [])
            black.entry.now)) }
    {
        let white_times = self.times_started(white);
        let black_times = self.times_started(black) + usize::from(white == black);
        let Some(white_start) = self.start_of(white, white_times) else {
            return Err(GamesFault::CanNotStart(white));
        };
        let Some(black_start) = self.start_of(black, black_times) else {
            return Err(GamesFault::CanNotStart(black));
        };
        Ok(ByColour {
            white: white_start,
            black: black_start,
        })
    }

    // Notes a game for which engines are started, with room for what they will be sent, and returns its index in
    // `games`.
    fn note_start(&mut self, starts: &ByColour<Start<'t>>) -> Result<usize, AllocError>
        ensures engines { self.new.engines ≡ self.old.engines }
        ensures moments { self.new.moments ≡ self.old.moments }
        ensures noted { IfOk result (λ n. started_for self.new.games.items ≡ started_for self.old.games.items
            ++ starts.now.white.command.now ∷ starts.now.black.command.now ∷ []) }
        ensures same { IfErr result (λ e. self.new.games.items ≡ self.old.games.items) }
        ensures index { IfOk result (λ n. n ≡ length self.old.games.items) }
    {
        let number = self.games.len();
        let game = MemoryGame {
            commands: ByColour {
                white: starts.white.command,
                black: starts.black.command,
            },
            sent: ByColour {
                white: Vec::new(self.alloc),
                black: Vec::new(self.alloc),
            },
        };
        self.games.push(game).map_err(AllocError::from)?;
        Ok(number)
    }

    // Notes what the engines of the game at the index `number` were sent, if there is such a game.
    fn note_sent(&mut self, number: usize, sent: ByColour<Vec<u8>>)
        ensures engines { self.new.engines ≡ self.old.engines }
        ensures moments { self.new.moments ≡ self.old.moments }
        ensures started { started_for self.new.games.items ≡ started_for self.old.games.items }
        ensures noted { IfSome (slice_get self.new.games.items number) (λ g. g.sent ≡ sent) }
        ensures others { (k : ℕ) → k ≢ number
            → slice_get self.new.games.items k ≡ slice_get self.old.games.items k }
    {
        if number < self.games.len() {
            self.games[number].sent = sent;
        }
    }
}

// The start of an engine: its command, what it will say, and how many waits after that will find nothing.
#[derive(Clone, Copy)]
struct Start<'t> {
    command: &'t str,
    text: &'t [u8],
    silences: u64,
}

impl<'t> Start<'t> {
    // The pipes of the engine, from which its text can be read.
    fn ends(self, alloc: Global) -> Ends<SilentAfter<&'t [u8]>, Counted<Vec<u8>>>
        ensures { (record {
          input = ⟦<SilentAfter<&'t [u8]> as Input>⟧.seen result.reader;
          output = ⟦<Counted<Vec<u8>> as Output>⟧.seen result.writer;
        }) ≡ fresh_pipes self.entry.text.now }
    {
        Ends {
            reader: SilentAfter::new(self.text, self.text.len(), self.silences),
            writer: Counted::writing(Vec::new(alloc)),
        }
    }
}

impl<'t> Host for MemoryHost<'t> {
    ghost use Rattle.match_runner.specs.MemoryHost.{MayCome};

    // The index of the game for which the engines were started.
    type Running = usize;

    type Reader = SilentAfter<&'t [u8]>;

    type Writer = Counted<Vec<u8>>;

    type Clock = MemoryClock<'t>;

    ghost to_come = { MayCome };

    // A clock that shows the host's moments from the first on.
    fn open_clock(&mut self) -> MemoryClock<'t> {
        MemoryClock {
            rest: self.moments,
            shown: 0,
        }
    }

    // Starts both engines if the host has an output for both starts, and notes the game; otherwise, or if memory runs
    // out, none. `limit` makes no difference.
    fn start<'a>(
        &mut self,
        white: &'a str,
        black: &'a str,
        limit: Option<u64>,
    ) -> Result<Engines<usize, SilentAfter<&'t [u8]>, Counted<Vec<u8>>>, GamesFault<'a>>
        ensures fails { IfErr result (IsStartFault white.entry.now black.entry.now) }
        ensures fresh { IfOk result (λ e. (S : Colour) → AreFresh (engines_of
            ⟦<SilentAfter<&'t [u8]> as Input>⟧.seen ⟦<Counted<Vec<u8>> as Output>⟧.seen e.ends.white e.ends.black S)) }
        ensures passes { StepsPass (MayCome self.old) (MayCome self.new) (starting (λ e. engines_of
            ⟦<SilentAfter<&'t [u8]> as Input>⟧.seen ⟦<Counted<Vec<u8>> as Output>⟧.seen e.ends.white e.ends.black)
            white.entry.now black.entry.now limit result ∷ []) }
        ensures cause { IfErr result (IsFaultOfStart white.entry.now black.entry.now
            (next_text self.old.engines.now (started_for self.old.games.items) white.entry.now)
            (next_text self.old.engines.now (started_for self.old.games.items ++ white.entry.now ∷ [])
            black.entry.now)) }
        ensures running { IfOk result (λ e. e.running ≡ length self.old.games.items) }
    {
        let starts = self.starts_of(white, black)?;
        let Ok(running) = self.note_start(&starts) else {
            return Err(GamesFault::NoMemory);
        };
        let ByColour { white, black } = starts;
        Ok(Engines {
            running,
            ends: ByColour {
                white: white.ends(self.alloc),
                black: black.ends(self.alloc),
            },
        })
    }

    // Notes what the engines were sent. None has to be killed, so `limit` makes no difference.
    fn finish(
        &mut self,
        engines: Engines<usize, SilentAfter<&'t [u8]>, Counted<Vec<u8>>>,
        limit: Option<u64>,
    ) -> ByColour<bool>
        ensures passes { StepsPass (MayCome self.old) (MayCome self.new) (Finishes (engines_of
            ⟦<SilentAfter<&'t [u8]> as Input>⟧.seen ⟦<Counted<Vec<u8>> as Output>⟧.seen
            engines.entry.ends.white engines.entry.ends.black) limit result ∷ []) }
        ensures spared { limit ≡ None → result ≡ none_killed }
        ensures to_white { IfSome (slice_get self.new.games.items engines.entry.running) (λ g. Some g.sent.white.items
            ≡ (⟦<Counted<Vec<u8>> as Output>⟧.seen engines.entry.ends.white.writer).known_bytes) }
        ensures to_black { IfSome (slice_get self.new.games.items engines.entry.running) (λ g. Some g.sent.black.items
            ≡ (⟦<Counted<Vec<u8>> as Output>⟧.seen engines.entry.ends.black.writer).known_bytes) }
        ensures others { (k : ℕ) → k ≢ engines.entry.running
            → slice_get self.new.games.items k ≡ slice_get self.old.games.items k }
    {
        let Engines { running, ends } = engines;
        let ByColour { white, black } = ends;
        let Ends {
            reader: _,
            writer: white_writer,
        } = white;
        let Ends {
            reader: _,
            writer: black_writer,
        } = black;
        let sent = ByColour {
            white: white_writer.into_writer(),
            black: black_writer.into_writer(),
        };
        self.note_sent(running, sent);
        ByColour {
            white: false,
            black: false,
        }
    }
}
