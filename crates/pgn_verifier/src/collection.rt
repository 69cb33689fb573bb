//! A collection of any length verified: each of its pieces is read as a text of its own.

ghost use Rattle.std.specs.Prelude.{◌≡◌, ◌≤◌, ◌<◌, ◌+◌, ◌*◌, ◌^◌, true, List, ℕ, length, IfOk};
ghost use Rattle.byte_devices.specs.Devices.{Sends};
ghost use Rattle.byte_devices.specs.Transfers.{Ran};
ghost use Rattle.pgn_pieces.specs.Stream.{unread, current};
ghost use Rattle.pgn_verifier.specs.Reports.{counts_line};
ghost use Rattle.pgn_verifier.specs.Collection.{VerifiesCollection};
ghost use Rattle.pgn_verifier.specs.ties.OnTheWay.{WritesCollection, PieceStandsIf, Writes, GrowsBy, reports_seen};
ghost use Rattle.chess_game.specs.declared.game.TheConstants.{MOST_MOVES};

use crate::explanation::too_long_lines;
use crate::fault::VerifyFault;
use crate::games::{open_game, verify_text};
use crate::label::FaultLabel;
use crate::report::write_counts;
use crate::start::TextStart;
use crate::tally::{Tally, Verified};
use byte_devices::{Input, Output, WriteFault, put};
use chess_bits::{AttackTables, Bits};
use chess_game::Game;
use pgn_pieces::{PgnPieces, pieces_are_cut, pieces_are_in_place};
use std::alloc::Global;
use verify_options::VerifyOptions;

// Reads the games of the current piece into `game`, one after another, and writes their lines; returns the counts:
// `before` with these reports added. A piece that is too long is reported as one fault. The piece begins on the line
// `line` of the input.
fn verify_piece<W: Output>(
    options: VerifyOptions,
    line: usize,
    pieces: &PgnPieces,
    game: &mut Game<Bits<'_>>,
    output: &mut W,
    before: Tally,
) -> Result<Tally, WriteFault>
    requires few_lines { line + length pieces.now.part < 2 ^ 64 }
    requires reports { before.games + before.faults + length pieces.now.part + 1 < 2 ^ 64 }
    requires half_moves { before.half_moves + length pieces.now.part < 2 ^ 64 }
    requires limit { game.old.limit ≡ MOST_MOVES }
    ensures written { (input : List ℕ) → PieceStandsIf options.explain line input (current pieces.now)
        → Writes options input before (W.seen output.old) (W.seen output.new) result
        (reports_seen options.strict (current pieces.now)) }
    ensures grown { IfOk result (λ after. GrowsBy (length pieces.now.part) before after) }
    ensures limit { game.new.limit ≡ MOST_MOVES }
{
    let start = TextStart {
        offset: pieces.offset(),
        line,
        goes_on: true,
    };
    match pieces.text() {
        Some(text) => verify_text(options, start, text, game, output, before),
        None => {
            let label = FaultLabel::of_piece(options, before.next_number(), pieces);
            let lines = too_long_lines(options.explain, &label, start, pieces.beginning());
            put(output, lines.as_slice())?;
            Ok(before.with_fault())
        }
    }
}

// The number of the line after the current piece, which begins on the line `line`. If faults aren't explained, lines
// aren't counted, and it is `line`.
fn line_after(explain: bool, line: usize, pieces: &PgnPieces) -> usize
    requires { line + length pieces.now.part < 2 ^ 64 }
    ensures counted { explain ≡ true → result ≡ line + (current pieces.now).line_ends }
    ensures few { result ≤ line + length pieces.now.part }
{
    if explain {
        line + pieces.line_ends()
    } else {
        line
    }
}

// Reads the games of all pieces of the input into `game`, one after another, and writes their lines; returns the counts
// of the reports.
fn verify_pieces<R: Input, W: Output>(
    options: VerifyOptions,
    pieces: &mut PgnPieces,
    game: &mut Game<Bits<'_>>,
    input: &mut R,
    output: &mut W,
) -> Result<Tally, VerifyFault>
    requires opened { pieces.old ≡ unread }
    requires limit { game.old.limit ≡ MOST_MOVES }
    ensures { WritesCollection options (R.seen input.old) (R.seen input.new) (W.seen output.old) (W.seen output.new)
        result }
{
    // The prover wants these laws: the pieces of a text are those that are returned, and where they are.
    pieces_are_cut();
    pieces_are_in_place();
    let mut tally = Tally::none();
    let mut line = 1;
    loop {
        if !pieces.next(input)? {
            return Ok(tally);
        }
        // The prover wants a bound of the offset.
        let _offset = pieces.offset();
        tally = verify_piece(options, line, pieces, game, output, tally)?;
        line = line_after(options.explain, line, pieces);
    }
}

// Writes the line of counts, such as `games 2 half-moves 6 faults 1`, and flushes the output.
fn finish<W: Output>(output: &mut W, tally: Tally) -> Result<(), WriteFault>
    ensures { Sends (W.seen output.old) (W.seen output.new) result (counts_line tally) }
{
    write_counts(output, tally)?;
    output.flush()
}

/// Reads the games of an input of any length and writes a line for each, as `verify` does. The input is cut into
/// pieces, and each is read as a text of its own, also after a fault: the next game is read where the one with the
/// fault ends (`game_end`), or if that isn't found, in the next piece. A piece begins at the input's first byte, at
/// each tag line after a line of moves, and at an Event tag line if the piece so far already has one. A piece with more
/// than 16,777,216 bytes isn't read, but reported as one fault, `too long`, at its first byte. Offsets count from the
/// input's first byte. The last line is `games G half-moves H faults F`: how many games have no fault, how many
/// half-moves these have, and how many faults there are. The lines do not depend on how reads cut the input.
///
/// No clause says when a line is written, nor how much memory is used. The code holds one piece and the bytes of one
/// read, and writes a piece's lines as soon as its end is known.
///
/// # Errors
/// If a read fails, memory runs out, or nearly 2^63 bytes were read: the lines of the pieces whose end was read were
/// written, but not flushed. If a write or the flush fails: a beginning of the lines was written.
pub fn verify_collection<R: Input, W: Output>(
    alloc: Global,
    options: VerifyOptions,
    input: &mut R,
    output: &mut W,
) -> Result<Verified, VerifyFault>
    ensures { Ran (VerifiesCollection options result) (record { input = R.seen input.old; output = W.seen output.old })
        (record { input = R.seen input.new; output = W.seen output.new }) }
{
    let tables = AttackTables::open(alloc)?;
    let mut game = open_game(alloc, &tables)?;
    let mut pieces = PgnPieces::open(alloc)?;
    let tally = verify_pieces(options, &mut pieces, &mut game, input, output)?;
    finish(output, tally)?;
    Ok(tally.verified())
}
