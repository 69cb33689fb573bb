//! The games of a text, one after another: up to the first fault, or also after faults.

ghost use Rattle.std.specs.Prelude.{◌≡◌, ◌≤◌, ◌<◌, ◌+◌, ◌^◌, List, ℕ, length, IfOk};
ghost use Rattle.chess_game.specs.declared.game.TheConstants.{MOST_MOVES};
ghost use Rattle.pgn_verifier.specs.laws.Reported.{placed_of};
ghost use Rattle.pgn_verifier.specs.ties.OnTheWay.{StandsIf, Writes, GrowsBy};

use crate::after_fault::AfterFault;
use crate::explanation::{explained_at, fault_lines};
use crate::judged::judge_game;
use crate::label::{FaultLabel, Label};
use crate::place::Place;
use crate::report::write_game;
use crate::start::TextStart;
use crate::tally::Tally;
use byte_devices::{Output, WriteFault, put};
use chess_bits::{AttackTables, Bits};
use chess_game::{Game, MOST_MOVES};
use std::alloc::{AllocError, Global};
use verify_options::VerifyOptions;

// A new game of at most 20,000 half-moves (`MOST_MOVES`), on a bitboard that uses these tables.
pub(crate) fn open_game<'t>(
    alloc: Global,
    tables: &'t AttackTables,
) -> Result<Game<Bits<'t>>, AllocError>
    ensures { IfOk result (λ g. g.limit ≡ MOST_MOVES) }
{
    Game::open(alloc, Bits::new(tables), MOST_MOVES)
}

// Reads the games of a text into `game`, one after another, up to the first fault, or if reading goes on after faults
// (`start.goes_on`) also those after it. Writes their lines, and returns the counts: `before` with these reports added.
// The text begins at `start` in the input.
pub(crate) fn verify_text<W: Output>(
    options: VerifyOptions,
    start: TextStart,
    text: &[u8],
    game: &mut Game<Bits<'_>>,
    output: &mut W,
    before: Tally,
) -> Result<Tally, WriteFault>
    requires few { start.offset + length text.now ≤ 2 ^ 63 }
    requires few_lines { start.line + length text.now < 2 ^ 64 }
    requires reports { before.games + before.faults + length text.now + 1 < 2 ^ 64 }
    requires half_moves { before.half_moves + length text.now < 2 ^ 64 }
    requires limit { game.old.limit ≡ MOST_MOVES }
    ensures written { (input : List ℕ) → StandsIf options.explain start input text.now
        → Writes options input before (W.seen output.old) (W.seen output.new) result
        (placed_of start.goes_on options.strict start.offset text.now) }
    ensures grown { IfOk result (λ after. GrowsBy (length text.now) before after) }
    ensures limit { game.new.limit ≡ MOST_MOVES }
{
    let mut at = 0;
    let mut tally = before;
    // Lines and columns are counted on from here: from the last fault, at first from the text's beginning.
    let mut place = Place::at_start(start);
    loop {
        let number = tally.next_number();
        match judge_game(options.strict, text, at, game) {
            Ok(None) => return Ok(tally),
            Ok(Some(judged)) => {
                let end = judged.end;
                let label = Label::of_game(options, number, start.offset, text, at, end.offset);
                write_game(options.quiet, output, label, judged.plies, end)?;
                tally = tally.with_game(judged.plies);
                at = end.offset;
            }
            Err(fault) => {
                let after = AfterFault::of_game(start.goes_on, text, at, fault);
                let faulty = FaultLabel::of_game(options, number, start.offset, text, at, after);
                let explained = explained_at(fault, faulty.begin, text);
                place = place.counted_to(options.explain, text, explained);
                let lines = fault_lines(options, &faulty, place, text, fault, game);
                put(output, lines.as_slice())?;
                tally = tally.with_fault();
                let Some(next) = after.next else {
                    return Ok(tally);
                };
                at = next;
            }
        }
    }
}
