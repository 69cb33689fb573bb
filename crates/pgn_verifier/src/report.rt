//! The line of a game, and the line of counts.

ghost use Rattle.pgn_verifier.specs.declared.report.TheConstants.{LINE_LEN};
ghost use Rattle.std.specs.Prelude.{◌≡◌, ◌≤◌, ◌+◌, ◌++◌, [], length, codes, if◌then◌else◌};
ghost use Rattle.std.specs.Option.{option_map_or};
ghost use Rattle.pgn_writer.specs.Terminations.{termination_text};
ghost use Rattle.arrayvec.specs.ArrayVec.{array_vec_len};
ghost use Rattle.byte_devices.specs.Devices.{Puts};
ghost use Rattle.pgn_verifier.specs.Reports.{counts_line};
ghost use Rattle.pgn_verifier.specs.ties.OnTheWay.{game_line, span_written};

use crate::label::{Label, append_span};
use crate::tally::Tally;
use arrayvec::ArrayVec;
use byte_devices::{Output, WriteFault, append, append_number, put};
use chess_pgn::{PgnEnd, Termination};

// The most bytes of a line: four numbers of 20 digits, and 60 more.
const LINE_LEN: usize = 140;

// A line on a game.
type ReportLine = ArrayVec<u8, LINE_LEN>;

// Appends the part of a game's line that names its termination, such as `, time forfeit`; nothing if there is none.
fn append_termination(line: &mut ReportLine, termination: Option<Termination>)
    requires { array_vec_len line.old + 18 ≤ LINE_LEN }
    ensures text { line.new.items ≡ line.old.items
        ++ option_map_or (λ t. codes ", " ++ termination_text t) termination [] }
    ensures len { array_vec_len line.new ≤ array_vec_len line.old + 18 }
{
    if let Some(termination) = termination {
        append(line, b", ");
        append(line, termination.text());
    }
}

// The line of a game without a fault, such as `game 3: 4 half-moves, 0-1`, and its span if the label has one. `plies`
// is how many half-moves the game has.
#[tactic(auto, unfolding(crate::specs::Reports::report_line))]
fn game_line(label: Label, plies: usize, end: PgnEnd) -> ReportLine
    ensures { result.items ≡ game_line label.number plies end.outcome end.termination (span_written label.span) }
{
    let mut line = ReportLine::new();
    append(&mut line, b"game ");
    append_number(&mut line, label.number as u64);
    append(&mut line, b": ");
    append_number(&mut line, plies as u64);
    append(&mut line, b" half-moves, ");
    append(&mut line, end.outcome.text());
    append_termination(&mut line, end.termination);
    append_span(&mut line, label.span);
    line.push(b'\n');
    line
}

// Writes the line of a game without a fault to `output`, unless `quiet` leaves it out.
pub(crate) fn write_game<W: Output>(
    quiet: bool,
    output: &mut W,
    label: Label,
    plies: usize,
    end: PgnEnd,
) -> Result<(), WriteFault>
    ensures { Puts (W.seen output.old) (W.seen output.new) result
        (if quiet then [] else game_line label.number plies end.outcome end.termination (span_written label.span)) }
{
    if quiet {
        return Ok(());
    }
    put(output, game_line(label, plies, end).as_slice())
}

// The last line of a collection, such as `games 2 half-moves 6 faults 1`.
#[tactic(auto, unfolding(crate::specs::Reports::counts_line))]
fn counts_line(tally: Tally) -> ReportLine
    ensures { result.items ≡ counts_line tally }
{
    let mut line = ReportLine::new();
    append(&mut line, b"games ");
    append_number(&mut line, tally.games as u64);
    append(&mut line, b" half-moves ");
    append_number(&mut line, tally.half_moves as u64);
    append(&mut line, b" faults ");
    append_number(&mut line, tally.faults as u64);
    line.push(b'\n');
    line
}

// Writes the line of counts, such as `games 2 half-moves 6 faults 1`.
pub(crate) fn write_counts<W: Output>(output: &mut W, tally: Tally) -> Result<(), WriteFault>
    ensures { Puts (W.seen output.old) (W.seen output.new) result (counts_line tally) }
{
    put(output, counts_line(tally).as_slice())
}
