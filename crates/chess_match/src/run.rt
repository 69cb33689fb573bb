//! The run of a match: a loop in which the core takes each event, and what it gives is then sent.

ghost use Rattle.std.specs.Prelude.{◌≡◌, List, [], ◌∷◌, ◌++◌, ℕ, length, true, false, None, Ok, Option, is_some, option_map, ◌≤◌, ◌<◌};
ghost use Rattle.arrayvec.specs.ArrayVec.{array_vec_len};
ghost use Rattle.chess_base.specs.ByColour.{of_colour};
ghost use Rattle.chess_base.specs.Men.{other};
ghost use Rattle.chess_base.specs.declared.man.Colour.{Colour};
ghost use Rattle.chess_game.specs.Game.{with_state, outcome_now, verdict_now};
ghost use Rattle.cecp_engine.specs.EngineLines.{Features};
ghost use Rattle.chess_match.specs.laws.Laws.{line_kind};
ghost use Rattle.cecp_engine.specs.Items.{Item};
ghost use Rattle.cecp_engine.specs.Seen.{seen};
ghost use Rattle.chess_match.specs.Acts.{awaits_line, is_over};
ghost use Rattle.chess_match.specs.shared.Parts.{blocks_after};
ghost use Rattle.chess_match.specs.Effects.{Effect, Match, effect};
ghost use Rattle.chess_match.specs.Events.{Event, FailsToWrite, Silent};
ghost use Rattle.chess_match.specs.Lines.{bytes_of};
ghost use Rattle.chess_match.specs.Effects.{answers_to};
ghost use Rattle.chess_match.specs.Notes.{WasNoted};
ghost use Rattle.chess_match.specs.Played.{Played, PlayedNoting, PlayedAt};
ghost use Rattle.chess_match.specs.Reasons.{declared_at};
ghost use Rattle.chess_match.specs.Rules.{Rules};
ghost use Rattle.chess_match.specs.Run.{engines_of, text_read};
ghost use Rattle.chess_match.specs.Table.{LooksFor, Passes, ReadsLine, reading_until};
ghost use Rattle.chess_match.specs.declared.block.TheConstants.{ANSWERS_LEN};
ghost use Rattle.chess_match.specs.declared.reason.Reason.{Reason};
ghost use Rattle.chess_match.specs.declared.run.TheConstants.{ENGINE_LINE_LEN};
ghost use Rattle.chess_match.specs.ties.Awaits.{IsAwaited, until_of};
ghost use Rattle.chess_match.specs.ties.Driving.{Delivered, after_line, after_silence, by_turn, giving, is_line_event, is_of_output, is_silence, line_event, looks_of, steps_of};
ghost use Rattle.chess_match.specs.ties.Reported.{IsReported};
ghost use Rattle.chess_match.specs.ties.Represents.{Goes, Represents, nothing_said, phase_of};
ghost use Rattle.chess_match.specs.ties.Sane.{IsSane, IsWritten};

use crate::block::{Block, Blocks};
use crate::desk::Desk;
use crate::draws::Draws;
use crate::match_game::MatchGame;
use crate::moments::Moments;
use crate::note::Note;
use crate::patience::Patience;
use crate::phase::Phase;
use crate::reason::{MatchFault, Reason, reported_fault, reported_reason};
use crate::send::note_and_send;
use crate::state::{Actions, ENTRY, MatchState};
use crate::table::MatchTable;
use crate::witness::{NoWitness, Witness};
use byte_devices::{Input, Output, ReadFault};
use cecp_engine::{EngineLine, Level, read_engine_line};
use chess_base::{ByColour, Colour, Position};
use chess_game::{Comment, Game, HowEnded, Outcome, TagText};
use chess_moves::Board;
use text_lines::{Line, Lines};

/// The most bytes of an engine's line; a longer one is ignored.
pub const ENGINE_LINE_LEN: usize = 8192;

/// The two ends of an engine: what reads its output, and what writes its input.
#[derive(Drop)]
pub struct Ends<R, W> {
    /// It gives the engine's output.
    pub reader: R,
    /// It takes the engine's input.
    pub writer: W,
}

/// How a match is to be played.
#[derive(Clone, Copy)]
pub struct Setup {
    /// Where the game starts; the variant is that of this position.
    pub start: Position,
    /// The time control of each side.
    pub levels: ByColour<Level>,
    /// How long the engines are waited for.
    pub patience: Patience,
    /// Whether draws must be claimed.
    pub draws: Draws,
}

/// How a match ended.
#[derive(Drop)]
pub struct MatchEnd {
    /// The outcome of the game: `Unfinished` if a fault ended the match, or if an engine sent a move beyond the game's
    /// limit of half-moves. But if the start has a verdict, the outcome is the verdict's, even if a fault ended the
    /// match.
    pub outcome: Outcome,
    /// The comment on the end, as in `result 1-0 {Black resigns}`, without braces.
    pub comment: Comment,
    /// How the match came to its end, for the PGN tag `Termination`.
    pub ended: HowEnded,
    /// The name that White's engine gave itself; empty where it gave none.
    pub white_name: TagText,
    /// The name that Black's engine gave itself; empty where it gave none.
    pub black_name: TagText,
    /// The fault that ended the match, or else a failed write of the last lines (White's before Black's), and whose it
    /// is. A failed write of the last lines leaves the outcome as it is.
    pub fault: Option<(Colour, MatchFault)>,
}

/// Plays one game between two engines by the Chess Engine Communication Protocol, version 2, to its end; the game
/// begins anew from the start.
///
/// In the contract there is a list of acts: blocks that were sent, lines and moments that were read, ends of outputs,
/// and failures. It is a match, in which each act was due when it came: nothing is read while a block is due, and the
/// clock is read after each line and at the end of each turn's opening. The acts agree with both engines' devices and
/// with the clock, and they fix all that was sent, the game and the end. At the end nothing is unflushed, also nothing
/// that was written before the match, except at an engine to which a write or a flush failed.
///
/// The contract sees each device apart. [`run_match_at`], which this calls, has clauses on the order of all calls, and
/// on the moment until which each line is waited for, by `setup.patience`. No clause says that the readers wait by the
/// clock `moments`, or that so much time has passed. The code allocates no memory.
pub fn run_match<R: Input, W: Output, M: Moments, B: Board>(
    white: &mut Ends<R, W>,
    black: &mut Ends<R, W>,
    moments: &mut M,
    setup: &Setup,
    game: &mut Game<B>,
) -> MatchEnd
    ensures ran { Played setup.now result
        (record {
          engines = engines_of R.seen W.seen white.old black.old;
          coming = M.coming moments.old;
          game = game.old;
        })
        (record {
          engines = engines_of R.seen W.seen white.new black.new;
          coming = M.coming moments.new;
          game = game.new;
        }) }

    // The same in single facts.
    ensures start { game.new.state.start ≡ setup.now.start }
    ensures limit { game.new.limit ≡ game.old.limit }
    ensures outcome { outcome_now game.new.state ≡ result.outcome }
{
    run_match_watched(white, black, moments, setup, game, &mut NoWitness)
}

/// Plays one game as [`run_match`] does, while a witness watches.
///
/// The contract says that the witness was given the notes of the acts, and no others: each event, and the bytes of each
/// block, in order. When each note was given, [`run_match_at`] says.
pub fn run_match_watched<R: Input, W: Output, M: Moments, B: Board, L: Witness>(
    white: &mut Ends<R, W>,
    black: &mut Ends<R, W>,
    moments: &mut M,
    setup: &Setup,
    game: &mut Game<B>,
    witness: &mut L,
) -> MatchEnd
    ensures ran { PlayedNoting (λ notes. WasNoted (L.noted witness.old) (L.noted witness.new) notes) setup.now result
        (record {
          engines = engines_of R.seen W.seen white.old black.old;
          coming = M.coming moments.old;
          game = game.old;
        })
        (record {
          engines = engines_of R.seen W.seen white.new black.new;
          coming = M.coming moments.new;
          game = game.new;
        }) }

    // The same in single facts.
    ensures start { game.new.state.start ≡ setup.now.start }
    ensures limit { game.new.limit ≡ game.old.limit }
    ensures outcome { outcome_now game.new.state ≡ result.outcome }
{
    let mut desk = Desk {
        white_reader: &mut white.reader,
        white_writer: &mut white.writer,
        black_reader: &mut black.reader,
        black_writer: &mut black.writer,
        moments,
        witness,
        lines: ByColour {
            white: Lines::new(),
            black: Lines::new(),
        },
    };
    run_match_at(&mut desk, setup, game)
}

/// Plays one game at a table, as [`run_match`] does between two engines.
///
/// The contract says which steps passed at the table, in their order: those of the acts of a match, with their notes.
/// What an engine is sent is noted before it is written, and a line when the clock was read after it, before anything
/// else.
#[tactic(auto, using(crate::proofs::OnTheWay::reported_outcome))]
pub fn run_match_at<T: MatchTable, B: Board>(
    table: &mut T,
    setup: &Setup,
    game: &mut Game<B>,
) -> MatchEnd
    ensures ran { PlayedAt setup.now result (T.passed table.old) (T.passed table.new) game.old game.new }

    // The same in single facts.
    ensures start { game.new.state.start ≡ setup.now.start }
    ensures limit { game.new.limit ≡ game.old.limit }
    ensures outcome { outcome_now game.new.state ≡ result.outcome }
{
    game.restart(&setup.start);
    let mut core = MatchState::new(setup.levels, setup.patience, setup.draws);
    let mut line = Line::new();
    let mut blocks = Blocks::new();
    let mut failed = deliver(table, &mut core, game, ENTRY, &mut blocks, Colour::White);
    'events: loop {
        match awaited_in(core.phase) {
            Awaited::Nothing(reason) => return end_of(core, game, reason, failed),
            Awaited::Moment(side) => {
                let moment = table.moment(side);
                table.note(Note::Opened { side, moment });
                core.open(side, moment);
            }
            Awaited::Line(side) => {
                let given = take_next(table, &mut core, game, side, &mut line, &mut blocks.own);
                failed = deliver(table, &mut core, game, given, &mut blocks, side);
            }
        }
    }
}

/// What a match waits for.
#[derive(Clone, Copy)]
pub(crate) enum Awaited {
    /// A line of that side's engine.
    Line(Colour),
    /// The moment at the end of the opening of that side's turn.
    Moment(Colour),
    /// Nothing: it is over.
    Nothing(Reason),
}

// What a match in this phase waits for: a line of a side's engine, the moment at the end of a turn's opening, or
// nothing.
fn awaited_in(phase: Phase) -> Awaited
    ensures { (opened : ℕ) → IsAwaited (phase_of opened phase) result }
{
    match phase {
        Phase::Handshake(side) => Awaited::Line(side),
        Phase::Setup(side) => Awaited::Line(side),
        Phase::AwaitMove(side) => Awaited::Line(side),
        Phase::AwaitPong(side) => Awaited::Line(side),
        Phase::SendTurn(side) => Awaited::Moment(side),
        Phase::Over(reason) => Awaited::Nothing(reason),
    }
}

// Gives the witness the note that writing to `side` failed, ends the match by that, and sends the other side its last
// lines, put together in its block `waiting`, which must be empty. Returns whether sending these failed too.
fn end_for_other<T: MatchTable, G: MatchGame>(
    table: &mut T,
    core: &mut MatchState,
    game: &G,
    waiting: &mut Block,
    side: Colour,
) -> bool
    requires on { is_over (phase_of core.old.opened core.old.phase) ≡ false }
    requires empty { waiting.old.items ≡ [] }
    ensures ended { (r : Rules) (m : Match) → G.plays game.now r → Represents r core.old (G.played game.now) m
        → Represents r core.new (G.played game.now) (effect r m (FailsToWrite side)).after
        × Passes (T.passed table.old) (T.passed table.new) (steps_of (FailsToWrite side)
        ++ giving result (other side) ((effect r m (FailsToWrite side)).to (other side)))
        × (result ≡ true → 0 < length ((effect r m (FailsToWrite side)).to (other side))) }
    ensures empty { waiting.new.items ≡ [] }
    ensures left { T.left table.new ≡ T.left table.old }
{
    table.note(Note::FailsToWrite { side });
    let given = core.write_fails(side);
    note_and_send(table, core, game, given, waiting, side.other())
}

// Sends each side its last lines, White first: the answers to items that are in its block, and then what `given` says.
// Empties both blocks, and returns to which sides sending failed.
fn send_last<T: MatchTable, G: MatchGame>(
    table: &mut T,
    core: &MatchState,
    game: &G,
    given: Actions,
    white_block: &mut Block,
    black_block: &mut Block,
) -> ByColour<bool>
    requires white_room { array_vec_len white_block.old ≤ ANSWERS_LEN }
    requires black_room { array_vec_len black_block.old ≤ ANSWERS_LEN }
    ensures sent { (r : Rules) (items : Colour → List Item) (e : Effect) → G.plays game.now r
        → Goes r core.now (G.played game.now) given items e
        → white_block.old.items ≡ bytes_of (answers_to (items Colour.White))
        → black_block.old.items ≡ bytes_of (answers_to (items Colour.Black))
        → Passes (T.passed table.old) (T.passed table.new)
        (giving result.white Colour.White (e.to Colour.White) ++ giving result.black Colour.Black (e.to Colour.Black))
        × ((S : Colour) → of_colour result S ≡ true → 0 < length (e.to S)) }
    ensures white_empty { white_block.new.items ≡ [] }
    ensures black_empty { black_block.new.items ≡ [] }
    ensures left { T.left table.new ≡ T.left table.old }
{
    let white_failed = note_and_send(table, core, game, given, white_block, Colour::White);
    let black_failed = note_and_send(table, core, game, given, black_block, Colour::Black);
    ByColour {
        white: white_failed,
        black: black_failed,
    }
}

// A value for each side: `own` for the side `side`, and `others` for the other.
fn in_turn(side: Colour, own: bool, others: bool) -> ByColour<bool>
    ensures { (S : Colour) → of_colour result S ≡ by_turn side own others S }
{
    match side {
        Colour::White => ByColour {
            white: own,
            black: others,
        },
        Colour::Black => ByColour {
            white: others,
            black: own,
        },
    }
}

// Sends both sides their lines of an event: the engine of `side`, which the event is about, first; at the end White
// first. A write that fails ends the match. `blocks.own` already has the answers to the items of the event's line;
// `given` says what else is sent. Returns to which sides a write failed.
fn deliver<T: MatchTable, G: MatchGame>(
    table: &mut T,
    core: &mut MatchState,
    game: &G,
    given: Actions,
    blocks: &mut Blocks,
    side: Colour,
) -> ByColour<bool>
    requires room { array_vec_len blocks.old.own ≤ ANSWERS_LEN }
    requires empty { blocks.old.others.items ≡ [] }
    ensures delivered { (r : Rules) (items : Colour → List Item) (e : Effect) → G.plays game.now r
        → Goes r core.old (G.played game.now) given items e → blocks.old.own.items ≡ bytes_of (answers_to (items side))
        → items (other side) ≡ [] → IsWritten e.after
        → Delivered r (T.passed table.old) (T.passed table.new) core.new (G.played game.now) e.after
        (blocks_after side e) (of_colour result) }
    ensures own_empty { blocks.new.own.items ≡ [] }
    ensures others_empty { blocks.new.others.items ≡ [] }
    ensures left { T.left table.new ≡ T.left table.old }
{
    if core.is_over() {
        return match side {
            Colour::White => send_last(
                table,
                core,
                game,
                given,
                &mut blocks.own,
                &mut blocks.others,
            ),
            Colour::Black => send_last(
                table,
                core,
                game,
                given,
                &mut blocks.others,
                &mut blocks.own,
            ),
        };
    }
    if note_and_send(table, core, game, given, &mut blocks.own, side) {
        let others_failed = end_for_other(table, core, game, &mut blocks.others, side);
        return in_turn(side, true, others_failed);
    }
    let other_side = side.other();
    if note_and_send(table, core, game, given, &mut blocks.others, other_side) {
        let own_failed = end_for_other(table, core, game, &mut blocks.own, other_side);
        return in_turn(side, own_failed, true);
    }
    ByColour {
        white: false,
        black: false,
    }
}

// Whether `\n` ended this line, so that it counts as one. What comes after the last `\n` counts as the end of the
// output.
fn is_parsed(line: &Line<ENGINE_LINE_LEN>) -> bool
    ensures { result ≡ line.now.ended }
{
    line.is_ended()
}

// The text of this line, as a witness is given it; of a line that is too long there is none.
fn text_read(line: &Line<ENGINE_LINE_LEN>) -> Option<&[u8]>
    ensures { option_map (λ t. t.now) result ≡ text_read line.now }
{
    if line.is_too_long() {
        None
    } else {
        Some(line.text())
    }
}

// The kind of this line of an engine, by its first words; a line that is too long is of the kind that is ignored
// (`Other`).
#[tactic(auto, using(crate::proofs::Features::features_short))]
fn said(line: &Line<ENGINE_LINE_LEN>) -> EngineLine<'_>
    ensures said { seen result ≡ line_kind (text_read line.now) }
    ensures short { (text : List ℕ) → seen result ≡ Features text → length text ≤ ENGINE_LINE_LEN }
{
    if line.is_too_long() {
        EngineLine::Other
    } else {
        read_engine_line(line.text())
    }
}

// Takes a line of this side's engine, which is in `line`: the clock is read, the line is noted, and the match goes on
// by it. The answers to its items (`accepted NAME` or `rejected NAME`, in a handshake) go to `block`, which must be
// empty. Returns what else is to be sent.
#[tactic(auto, using(crate::proofs::LineNeeds::counted, crate::proofs::LineNeeds::few, crate::proofs::LineNeeds::undecided))]
fn take_line<T: MatchTable, G: MatchGame>(
    table: &mut T,
    core: &mut MatchState,
    game: &mut G,
    side: Colour,
    line: &Line<ENGINE_LINE_LEN>,
    block: &mut Block,
) -> Actions
    requires sane { (r : Rules) × (m : Match) × (G.plays game.old r) × Represents r core.old (G.played game.old) m
        × IsSane r m × (awaits_line m.phase side ≡ true) }
    requires empty { block.old.items ≡ [] }
    ensures rules { (r : Rules) → G.plays game.old r → G.plays game.new r }
    ensures origin { G.origin game.new ≡ G.origin game.old }
    ensures taken { (moment : ℕ) × (items : Colour → List Item)
        × Passes (T.passed table.old) (T.passed table.new) (after_line side (text_read line.now) moment)
        × (block.new.items ≡ bytes_of (answers_to (items side))) × (items (other side) ≡ [])
        × ((r : Rules) (m : Match) → G.plays game.old r → awaits_line m.phase side ≡ true
        → Represents r core.old (G.played game.old) m
        → Goes r core.new (G.played game.new) result items (effect r m (line_event side line.now moment))) }
    ensures room { array_vec_len block.new ≤ ANSWERS_LEN }
    ensures left { T.left table.new ≡ T.left table.old }
{
    let moment = table.moment(side);
    let text = text_read(line);
    table.note(Note::Line { side, text, moment });
    core.line(game, said(line), moment, block)
}

// Takes note that no line of this side's engine had come: the clock is read, the silence is noted, and the match goes
// on by it. Returns what is to be sent.
fn take_silence<T: MatchTable, G: MatchGame>(
    table: &mut T,
    core: &mut MatchState,
    game: &G,
    side: Colour,
) -> Actions
    ensures taken { (moment : ℕ) × Passes (T.passed table.old) (T.passed table.new) (after_silence side moment)
        × ((r : Rules) (m : Match) → G.plays game.now r → awaits_line m.phase side ≡ true
        → Represents r core.old (G.played game.now) m
        → Goes r core.new (G.played game.now) result nothing_said (effect r m (Silent side moment))) }
    ensures left { T.left table.new ≡ T.left table.old }
{
    let moment = table.moment(side);
    table.note(Note::Silent { side, moment });
    core.silent(game, side, moment)
}

// Reads the next line of this side's engine into `line`, and waits for it until the moment `until` (`None`: as long as
// it takes). Returns `None` if no line had come, otherwise whether there was one: none at the end of the output.
fn read_next<T: MatchTable>(
    table: &mut T,
    side: Colour,
    until: Option<u64>,
    line: &mut Line<ENGINE_LINE_LEN>,
) -> Result<Option<bool>, ReadFault>
    ensures passes { Passes (T.passed table.old) (T.passed table.new)
        (LooksFor side until ∷ reading_until side result line.new ∷ []) }
    ensures less { (text : Option (List ℕ)) → reading_until side result line.new ≡ ReadsLine side text
        → T.left table.new < T.left table.old }
    ensures silent { result ≡ Ok None → (T.left table.new < T.left table.old) × (is_some until ≡ true) }
{
    match until {
        None => Ok(Some(table.read_line(side, line)?)),
        Some(until) => table.read_line_until(side, until, line),
    }
}

// Reads the next line of this side's engine into `line` and takes it, if there is one and `\n` ended it; otherwise
// takes note that no line had come, that the output ended, or that the read failed. The answers to the line's items
// (`accepted NAME` or `rejected NAME`, in a handshake) go to `block`, which must be empty. Returns what else is to be
// sent.
fn take_next<T: MatchTable, G: MatchGame>(
    table: &mut T,
    core: &mut MatchState,
    game: &mut G,
    side: Colour,
    line: &mut Line<ENGINE_LINE_LEN>,
    block: &mut Block,
) -> Actions
    requires sane { (r : Rules) × (m : Match) × (G.plays game.old r) × Represents r core.old (G.played game.old) m
        × IsSane r m × (awaits_line m.phase side ≡ true) }
    requires empty { block.old.items ≡ [] }
    ensures rules { (r : Rules) → G.plays game.old r → G.plays game.new r }
    ensures origin { G.origin game.new ≡ G.origin game.old }
    ensures taken { (e : Event) × (items : Colour → List Item) × (is_of_output side e ≡ true)
        × Passes (T.passed table.old) (T.passed table.new)
        (looks_of (until_of core.old core.old.phase) e ++ steps_of e)
        × (is_line_event e ≡ true → T.left table.new < T.left table.old)
        × (is_silence e ≡ true → (T.left table.new < T.left table.old)
        × (is_some (until_of core.old core.old.phase) ≡ true))
        × (block.new.items ≡ bytes_of (answers_to (items side))) × (items (other side) ≡ [])
        × ((r : Rules) (m : Match) → G.plays game.old r → awaits_line m.phase side ≡ true
        → Represents r core.old (G.played game.old) m
        → Goes r core.new (G.played game.new) result items (effect r m e)) }
    ensures room { array_vec_len block.new ≤ ANSWERS_LEN }
{
    match read_next(table, side, core.until(), line) {
        Err(_) => {
            table.note(Note::FailsToRead { side });
            core.read_fails(side)
        }
        Ok(None) => take_silence(table, core, game, side),
        Ok(Some(false)) => {
            table.note(Note::OutputEnds { side });
            core.output_ends(side)
        }
        Ok(Some(true)) => {
            if is_parsed(line) {
                take_line(table, core, game, side, line, block)
            } else {
                table.note(Note::OutputEnds { side });
                core.output_ends(side)
            }
        }
    }
}

// Declares the outcome and the comment of the reason in the game, unless the board has a verdict.
fn declare<B: Board>(game: &mut Game<B>, reason: Reason)
    requires { game.old.state.declared ≡ None }
    ensures { game.new ≡ with_state game.old
        (record game.old.state { declared = declared_at (verdict_now game.old.state) reason }) }
{
    if game.verdict().is_some() {
        return;
    }
    game.declare_open(reason.outcome(), Comment::cut(reason.comment()));
}

// Returns the report of a match that ended for `reason`, with both engines' names and the fault, if any: the one that
// ended it, otherwise a failed write of the last lines (`failed` says to whom). Also declares the outcome in the game,
// unless the board has a verdict, which is then reported.
#[tactic(auto, using(crate::proofs::Comments::kept_whole))]
fn end_of<B: Board>(
    core: MatchState,
    game: &mut Game<B>,
    reason: Reason,
    failed: ByColour<bool>,
) -> MatchEnd
    requires { game.old.state.declared ≡ None }
    ensures report { IsReported (verdict_now game.old.state) reason failed result }
    ensures white_name { result.white_name ≡ core.players.white.name }
    ensures black_name { result.black_name ≡ core.players.black.name }
    ensures game { game.new
        ≡ with_state game.old (record game.old.state { declared = declared_at (verdict_now game.old.state) reason }) }
{
    let reported = reported_reason(game.verdict(), reason);
    declare(game, reason);
    MatchEnd {
        outcome: reported.outcome(),
        comment: Comment::cut(reported.comment()),
        ended: reported.ended(),
        white_name: core.players.white.name,
        black_name: core.players.black.name,
        fault: reported_fault(reason, failed),
    }
}
