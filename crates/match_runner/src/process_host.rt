//! Engines that are processes.

ghost use Rattle.std.specs.Prelude.{◌≡◌, ◌≢◌, ◌⊎◌, ◌∷◌, [], IfErr, IfOk, None, false, string_bytes};
ghost use Rattle.std.specs.IoError.{error_kind};
ghost use Rattle.chess_base.specs.declared.man.Colour.{Colour};
ghost use Rattle.chess_match.specs.Run.{engines_of};
ghost use Rattle.match_runner.specs.Games.{IsStartFault, none_killed};
ghost use Rattle.match_runner.specs.GamesTable.{AreFresh, Finishes, StepsPass, anything, starting};
ghost use Rattle.match_runner.specs.ties.Playing.{FailsToStart};

use crate::fault::GamesFault;
use crate::host::{Engines, Host};
use crate::moments::SinceStart;
use crate::pipes::{EngineInput, EngineOutput};
use byte_devices::{Input, Output};
use chess_base::ByColour;
use chess_match::{Ends, Moments};
use std::alloc::Global;
use std::io::{self, ErrorKind};
use std::os::fd::AsRawFd;
use std::process::{Child, Command, OpenProcess, Processes, Stdio};
use std::rt::Clock;
use std::thread;
use std::time::Duration;

/// A process that runs an engine.
#[derive(Drop)]
pub struct Process<P: OpenProcess + Drop> {
    /// A copy of the command by which it was started.
    command: String,
    child: Child<P>,
}

// A running engine, with this process's ends of its pipes.
#[derive(Drop)]
struct Engine<'t, R, P: OpenProcess + Drop> {
    process: Process<P>,
    // What reads its output, and what writes its input.
    ends: Ends<EngineOutput<'t, R, P::Stdout>, EngineInput<P::Stdin>>,
}

// Both engines of a game, with this process's ends of their pipes.
type BothEngines<'t, R, P> = Engines<
    ByColour<Process<P>>,
    EngineOutput<'t, R, <P as OpenProcess>::Stdout>,
    EngineInput<<P as OpenProcess>::Stdin>,
>;

// Puts two running engines, White's and Black's, together as the engines of a game.
fn both_of<'t, R, P: OpenProcess + Drop>(
    white: Engine<'t, R, P>,
    black: Engine<'t, R, P>,
) -> BothEngines<'t, R, P>
    ensures processes { result.running ≡ record { white = white.entry.process; black = black.entry.process } }
    ensures ends { result.ends ≡ record { white = white.entry.ends; black = black.entry.ends } }
{
    let Engine {
        process: white_process,
        ends: white_ends,
    } = white;
    let Engine {
        process: black_process,
        ends: black_ends,
    } = black;
    Engines {
        running: ByColour {
            white: white_process,
            black: black_process,
        },
        ends: ByColour {
            white: white_ends,
            black: black_ends,
        },
    }
}

/// The processes of a system: it starts engines as processes, and its clock is the system's. Nothing is known of what
/// they say or of the moments that the clock shows.
#[derive(Drop)]
pub struct ProcessHost<'t, R> {
    rt: &'t R,
    alloc: Global,
    clock: SinceStart<'t, R>,
}

impl<'t, R: Clock> ProcessHost<'t, R> {
    /// The host of this runtime's processes.
    pub fn new(rt: &'t R, alloc: Global) -> Self {
        ProcessHost {
            rt,
            alloc,
            clock: SinceStart::new(rt),
        }
    }
}

// Why the engine with this command could not be started, by the system's error: out of memory, or anything else.
fn start_fault<'a>(error: &io::Error, text: &'a str) -> GamesFault<'a>
    ensures fails { FailsToStart text.entry.now result }
    ensures memory { error_kind error.now ≡ ErrorKind.OutOfMemory → result ≡ GamesFault.NoMemory }
    ensures others { error_kind error.now ≢ ErrorKind.OutOfMemory → result ≢ GamesFault.NoMemory }
{
    match error.kind() {
        ErrorKind::OutOfMemory => GamesFault::NoMemory,
        _ => GamesFault::CanNotStart(text),
    }
}

// Splits the text of an engine's command at spaces and tabs into the program and its arguments.
fn command_of<'a>(alloc: Global, text: &'a str) -> Result<Command, GamesFault<'a>>
    ensures { IfErr result (FailsToStart text.entry.now) }
{
    let mut parts = text.split([' ', '\t']).filter(|part| !part.is_empty());
    let Some(program) = parts.next() else {
        return Err(GamesFault::CanNotStart(text));
    };
    let mut command = Command::new(alloc, program)?;
    for part in parts {
        if command.arg(part).is_err() {
            return Err(GamesFault::NoMemory);
        }
    }
    Ok(command)
}

// Starts a program by its command, with pipes at its input and output.
fn spawn<'a, R: Processes>(
    rt: &R,
    alloc: Global,
    text: &'a str,
) -> Result<Child<R::Started>, GamesFault<'a>>
    ensures { IfErr result (FailsToStart text.entry.now) }
{
    let mut command = command_of(alloc, text)?;
    command.stdin(Stdio::piped());
    command.stdout(Stdio::piped());
    match command.spawn(rt) {
        Ok(child) => Ok(child),
        Err(error) => Err(start_fault(&error, text)),
    }
}

// A copy of a command's text; the fault `NoMemory` if memory runs out.
fn copy_of<'a>(alloc: Global, text: &'a str) -> Result<String, GamesFault<'a>>
    ensures fails { IfErr result (FailsToStart text.entry.now) }
    ensures text { IfOk result (λ s. string_bytes s ≡ text.entry.now) }
{
    Ok(String::from_str(alloc, text)?)
}

/// Starts an engine by its command, split at spaces and tabs, with pipes at its input and output; its error output is
/// that of this process. A name without a slash is looked for on the path. A write to it waits for at most `limit`
/// milliseconds, if there is a limit.
///
/// # Errors
/// If the command is empty, the system can't start the program, or memory runs out.
fn start<'a, 't, R: Processes + Clock>(
    host: &ProcessHost<'t, R>,
    text: &'a str,
    limit: Option<u64>,
) -> Result<Engine<'t, R, R::Started>, GamesFault<'a>>
where
    <R::Started as OpenProcess>::Stdout: AsRawFd,
    <R::Started as OpenProcess>::Stdin: AsRawFd,
    ensures fails { IfErr result (FailsToStart text.entry.now) }
    ensures command { IfOk result (λ e. (string_bytes e.process.command ≡ text.entry.now)
        × (string_bytes e.ends.reader.command ≡ text.entry.now)
        × (string_bytes e.ends.writer.command ≡ text.entry.now)) }
    ensures fresh { IfOk result (λ e. AreFresh (record {
      input = ⟦<EngineOutput<'t, R, <R::Started as OpenProcess>::Stdout> as Input>⟧.seen e.ends.reader;
      output = ⟦<EngineInput<<R::Started as OpenProcess>::Stdin> as Output>⟧.seen e.ends.writer;
    })) }
{
    let command = copy_of(host.alloc, text)?;
    let of_output = copy_of(host.alloc, text)?;
    let of_input = copy_of(host.alloc, text)?;
    let mut child = spawn(host.rt, host.alloc, text)?;
    match (child.stdin.take(), child.stdout.take()) {
        (Some(input), Some(output)) => Ok(Engine {
            process: Process { command, child },
            ends: Ends {
                reader: EngineOutput::new(of_output, output, host.clock.again()),
                writer: EngineInput::new(of_input, input, limit),
            },
        }),
        // An engine without both pipes can't play. A pipe that it has is closed, so that it ends.
        (input, output) => {
            drop(input);
            drop(output);
            let _ = child.wait();
            Err(GamesFault::CanNotStart(text))
        }
    }
}

// How often an engine is asked whether it has ended, at intervals of a millisecond, before its output is closed.
const GRACE: u32 = 500;

// Waits until this engine, whose input is closed, has ended, at most half a second, so that its last output meets an
// open pipe.
fn give_grace<C: Clock, P: OpenProcess>(rt: &C, child: &mut Child<P>) {
    for _ in 0..GRACE {
        match child.try_wait() {
            Ok(None) => {}
            _ => break,
        }
        thread::sleep(rt, Duration::from_millis(1));
    }
}

// How often an engine is asked at most whether it has ended, at intervals of a millisecond, before it is killed: more
// often than a limit of 999 seconds needs.
const MOST_WAITS: u32 = 2_000_000;

// Waits until this engine has ended, at most until the clock shows `until`. Returns whether it has.
fn ends_by<R: Clock, P: OpenProcess>(
    host: &ProcessHost<'_, R>,
    child: &mut Child<P>,
    until: u64,
) -> bool {
    let mut clock = host.clock.again();
    for _ in 0..MOST_WAITS {
        match child.try_wait() {
            Ok(None) => {}
            _ => return true,
        }
        if clock.now() >= until {
            return false;
        }
        thread::sleep(host.rt, Duration::from_millis(1));
    }
    false
}

// Waits until this engine has ended. If there is a moment `until`, the engine is killed when the clock shows it; one
// that the system doesn't let this process kill is left alone. Returns whether it was killed.
fn end_by<R: Clock, P: OpenProcess>(
    host: &ProcessHost<'_, R>,
    child: &mut Child<P>,
    until: Option<u64>,
) -> bool
    ensures { until ≡ None → result ≡ false }
{
    let is_late = match until {
        None => false,
        Some(until) => !ends_by(host, child, until),
    };
    if is_late && child.kill().is_err() {
        return false;
    }
    let _ = child.wait();
    is_late
}

// Gives an engine whose input is closed half a second to end by itself, closes its output and waits for its end, as
// `end_by` does. Returns whether it was killed.
fn await_end<'t, R: Clock, P: OpenProcess + Drop>(
    host: &ProcessHost<'t, R>,
    mut process: Process<P>,
    reader: EngineOutput<'t, R, P::Stdout>,
    until: Option<u64>,
) -> bool
    ensures { until ≡ None → result ≡ false }
{
    give_grace(host.rt, &mut process.child);
    drop(reader);
    end_by(host, &mut process.child, until)
}

// The moment when so many milliseconds will have passed by the clock of the match, if there is such a limit.
fn moment_after<R: Clock>(host: &ProcessHost<'_, R>, limit: Option<u64>) -> Option<u64>
    ensures { limit ≡ None → result ≡ None }
{
    match limit {
        None => None,
        Some(millis) => Some(host.clock.again().now().saturating_add(millis)),
    }
}

/// Closes an engine's input, gives it half a second to end by itself, closes its output and waits for its end. If there
/// is a limit, the engine is killed so many milliseconds after its input was closed; that is not reported.
fn finish<'t, R: Clock, P: OpenProcess + Drop>(
    host: &ProcessHost<'t, R>,
    engine: Engine<'t, R, P>,
    limit: Option<u64>,
) {
    let Engine { process, ends } = engine;
    let Ends { reader, writer } = ends;
    drop(writer);
    let _ = await_end(host, process, reader, moment_after(host, limit));
}

/// Closes the inputs of both engines, and then waits for the end of each as [`finish`] does. Returns which of them were
/// killed.
fn finish_both<'t, R: Clock, P: OpenProcess + Drop>(
    host: &ProcessHost<'t, R>,
    engines: BothEngines<'t, R, P>,
    limit: Option<u64>,
) -> ByColour<bool>
    ensures { limit ≡ None → result ≡ none_killed }
{
    let Engines { running, ends } = engines;
    let ByColour {
        white: white_process,
        black: black_process,
    } = running;
    let ByColour {
        white: white_ends,
        black: black_ends,
    } = ends;
    let Ends {
        reader: white_reader,
        writer: white_writer,
    } = white_ends;
    let Ends {
        reader: black_reader,
        writer: black_writer,
    } = black_ends;
    drop(white_writer);
    drop(black_writer);
    let until = moment_after(host, limit);
    ByColour {
        white: await_end(host, white_process, white_reader, until),
        black: await_end(host, black_process, black_reader, until),
    }
}

/// Starts both engines of a game; `white` and `black` are their commands. If Black's can't be started, White's is
/// ended. A write to either waits for at most `limit` milliseconds, if there is a limit.
///
/// # Errors
/// As [`start`] does for either.
fn start_both<'a, 't, R: Processes + Clock>(
    host: &ProcessHost<'t, R>,
    white: &'a str,
    black: &'a str,
    limit: Option<u64>,
) -> Result<BothEngines<'t, R, R::Started>, GamesFault<'a>>
where
    <R::Started as OpenProcess>::Stdout: AsRawFd,
    <R::Started as OpenProcess>::Stdin: AsRawFd,
    ensures faults { IfErr result (λ f. FailsToStart white.entry.now f ⊎ FailsToStart black.entry.now f) }
    ensures white_command { IfOk result (λ e. (string_bytes e.running.white.command ≡ white.entry.now)
        × (string_bytes e.ends.white.reader.command ≡ white.entry.now)
        × (string_bytes e.ends.white.writer.command ≡ white.entry.now)) }
    ensures black_command { IfOk result (λ e. (string_bytes e.running.black.command ≡ black.entry.now)
        × (string_bytes e.ends.black.reader.command ≡ black.entry.now)
        × (string_bytes e.ends.black.writer.command ≡ black.entry.now)) }
    ensures fresh { IfOk result (λ e. (S : Colour) → AreFresh (engines_of
        ⟦<EngineOutput<'t, R, <R::Started as OpenProcess>::Stdout> as Input>⟧.seen
        ⟦<EngineInput<<R::Started as OpenProcess>::Stdin> as Output>⟧.seen e.ends.white e.ends.black S)) }
{
    let white_engine = start(host, white, limit)?;
    match start(host, black, limit) {
        Ok(black_engine) => Ok(both_of(white_engine, black_engine)),
        Err(fault) => {
            finish(host, white_engine, limit);
            Err(fault)
        }
    }
}

impl<'t, R: Processes + Clock> Host for ProcessHost<'t, R>
where
    <R::Started as OpenProcess>::Stdout: AsRawFd,
    <R::Started as OpenProcess>::Stdin: AsRawFd,
{
    type Running = ByColour<Process<R::Started>>;

    type Reader = EngineOutput<'t, R, <R::Started as OpenProcess>::Stdout>;

    type Writer = EngineInput<<R::Started as OpenProcess>::Stdin>;

    type Clock = SinceStart<'t, R>;

    ghost use Rattle.match_runner.specs.GamesTable.{anything};

    // Any steps may come: nothing is known of the processes.
    ghost to_come = { λ h. anything };

    // Opens the clock anew. The engines are waited for by it, too.
    fn open_clock(&mut self) -> SinceStart<'t, R> {
        self.clock = SinceStart::new(self.rt);
        self.clock.again()
    }

    // Starts both programs; if Black's can't be started, White's is ended.
    fn start<'a>(
        &mut self,
        white: &'a str,
        black: &'a str,
        limit: Option<u64>,
    ) -> Result<BothEngines<'t, R, R::Started>, GamesFault<'a>>
        ensures fails { IfErr result (IsStartFault white.entry.now black.entry.now) }
        ensures fresh { IfOk result (λ e. (S : Colour) → AreFresh (engines_of
            ⟦<EngineOutput<'t, R, <R::Started as OpenProcess>::Stdout> as Input>⟧.seen
            ⟦<EngineInput<<R::Started as OpenProcess>::Stdin> as Output>⟧.seen e.ends.white e.ends.black S)) }
        ensures passes { StepsPass anything anything (starting (λ e. engines_of
            ⟦<EngineOutput<'t, R, <R::Started as OpenProcess>::Stdout> as Input>⟧.seen
            ⟦<EngineInput<<R::Started as OpenProcess>::Stdin> as Output>⟧.seen e.ends.white e.ends.black)
            white.entry.now black.entry.now limit result ∷ []) }
        ensures white_command { IfOk result (λ e. (string_bytes e.running.white.command ≡ white.entry.now)
            × (string_bytes e.ends.white.reader.command ≡ white.entry.now)
            × (string_bytes e.ends.white.writer.command ≡ white.entry.now)) }
        ensures black_command { IfOk result (λ e. (string_bytes e.running.black.command ≡ black.entry.now)
            × (string_bytes e.ends.black.reader.command ≡ black.entry.now)
            × (string_bytes e.ends.black.writer.command ≡ black.entry.now)) }
    {
        start_both(self, white, black, limit)
    }

    // Closes both inputs and waits for both processes.
    fn finish(
        &mut self,
        engines: BothEngines<'t, R, R::Started>,
        limit: Option<u64>,
    ) -> ByColour<bool>
        ensures passes { StepsPass anything anything (Finishes (engines_of
            ⟦<EngineOutput<'t, R, <R::Started as OpenProcess>::Stdout> as Input>⟧.seen
            ⟦<EngineInput<<R::Started as OpenProcess>::Stdin> as Output>⟧.seen
            engines.entry.ends.white engines.entry.ends.black)
            limit result ∷ []) }
        ensures spared { limit ≡ None → result ≡ none_killed }
    {
        finish_both(self, engines, limit)
    }
}
