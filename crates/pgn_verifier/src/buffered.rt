//! A text verified as a whole: each game of it is read and its line written; the first fault ends it.

ghost use Rattle.std.specs.Prelude.{◌≡◌, ◌≢◌, ◌≤◌, length, IfOk, IfErr};
ghost use Rattle.byte_devices.specs.Transfers.{Ran};
ghost use Rattle.pgn_verifier.specs.Verify.{Verifies};
ghost use Rattle.pgn_verifier.specs.declared.fault.VerifyFault.TheVariants.{WriteFailed};
ghost use Rattle.pgn_verifier.specs.ties.OnTheWay.{IsAll, IsNotAll, WritesText};
ghost use Rattle.chess_game.specs.declared.game.TheConstants.{MOST_MOVES};
ghost use Rattle.pgn_pieces.specs.declared.pieces.TheConstants.{PIECE_LEN};

use crate::fault::VerifyFault;
use crate::games::{open_game, verify_text};
use crate::start::TextStart;
use crate::tally::{Tally, Verified};
use byte_devices::{Input, Output, WriteFault};
use chess_bits::{AttackTables, Bits};
use chess_game::Game;
use pgn_pieces::PIECE_LEN;
use std::alloc::Global;
use verify_options::VerifyOptions;

// How many bytes a read asks for.
const READ_LEN: usize = 4096;

// Reads the input to its end and returns its bytes; a fault if a read fails, if memory runs out, or if there are more
// than 16,777,216 bytes (`PIECE_LEN`).
fn read_all<R: Input>(alloc: Global, input: &mut R) -> Result<Vec<u8>, VerifyFault>
    ensures all { IfOk result (λ text. IsAll (R.seen input.old) (R.seen input.new) text.items) }
    ensures failed { IfErr result (λ f. IsNotAll (R.seen input.old) (R.seen input.new) f) }
{
    let mut text = Vec::new(alloc);
    let mut piece = [0; READ_LEN];
    loop {
        let count = input.read(&mut piece)?;
        if count == 0 {
            return Ok(text);
        }
        if count > PIECE_LEN - text.len() {
            return Err(VerifyFault::InputTooLong);
        }
        text.extend_from_slice(&piece[..count])?;
    }
}

// Reads the games of a text into `game`, one after another up to the first fault, writes their lines to `output` and
// flushes it; returns whether there was a fault.
fn finish<W: Output>(
    options: VerifyOptions,
    text: &[u8],
    game: &mut Game<Bits<'_>>,
    output: &mut W,
) -> Result<Verified, WriteFault>
    requires few { length text.now ≤ PIECE_LEN }
    requires limit { game.old.limit ≡ MOST_MOVES }
    ensures { WritesText options text.now (W.seen output.old) (W.seen output.new) result }
{
    let start = TextStart {
        offset: 0,
        line: 1,
        goes_on: false,
    };
    let tally = verify_text(options, start, text, game, output, Tally::none())?;
    output.flush()?;
    Ok(tally.verified())
}

/// Reads all games of the input and writes a line for each: `game 1: 4 half-moves, 0-1`, and after that
/// `, time forfeit` or the like if its last tag `Termination` has a known text. The first game with a fault gets the
/// line `game 2: illegal move at byte 39`, and no game after it is read. `options` say which lines are left out,
/// whether lines show spans and names, which faults are looked for at a game's end, and whether a line follows that
/// explains the fault. After `Ok` nothing is unflushed, not even what was written before this call.
///
/// # Errors
/// If a device fails, memory runs out, or the input has more than 16,777,216 bytes. If the output failed, a beginning
/// of the lines was written; otherwise the output is as it was.
pub fn verify<R: Input, W: Output>(
    alloc: Global,
    options: VerifyOptions,
    input: &mut R,
    output: &mut W,
) -> Result<Verified, VerifyFault>
    ensures ran { Ran (Verifies options result) (record { input = R.seen input.old; output = W.seen output.old })
        (record { input = R.seen input.new; output = W.seen output.new }) }
    ensures unwritten { IfErr result (λ fault. fault ≢ WriteFailed → W.seen output.new ≡ W.seen output.old) }
{
    let text = read_all(alloc, input)?;
    let tables = AttackTables::open(alloc)?;
    let mut game = open_game(alloc, &tables)?;
    let verified = finish(options, text.as_slice(), &mut game, output)?;
    Ok(verified)
}
