//! What is reported of a game: its end, or its fault.

ghost use Rattle.std.specs.Prelude.{◌≡◌, ◌≤◌, ◌<◌, ◌+◌, true, false, length, IfOk, IfErr};
ghost use Rattle.std.specs.Option.{IfSome};
ghost use Rattle.chess_game.specs.declared.game.TheConstants.{MOST_MOVES};
ghost use Rattle.chess_pgn.specs.PastDraws.{Stands};
ghost use Rattle.pgn_verifier.specs.laws.Reported.{read_at, judged_of, judged_at};
ghost use Rattle.pgn_verifier.specs.ties.OnTheWay.{end_seen};

use crate::end_faults::{end_fault, end_fault_from};
use crate::game_fault::GameFault;
use chess_bits::Bits;
use chess_game::Game;
use chess_pgn::{PgnEnd, faults_have_offsets, half_moves_have_bytes, read_past_draws, read_pgn};
use verify_options::Strictness;

/// A game that was read to its termination marker, and has no fault.
#[derive(Clone, Copy)]
pub(crate) struct Judged {
    /// How its text ended.
    pub end: PgnEnd,
    /// How many half-moves it has.
    pub plies: usize,
}

// Reads the game of a text from the offset `at` on into `game`, and returns its end or its fault; `None` if no game is
// left. The faults that `strict` names are looked for at the game's end. Fivefold repetition and 75 moves end a game.
fn judge_by_laws(
    strict: Strictness,
    text: &[u8],
    at: usize,
    game: &mut Game<Bits<'_>>,
) -> Result<Option<Judged>, GameFault>
    requires at { at ≤ length text.now }
    requires limit { game.old.limit ≡ MOST_MOVES }
    ensures judged { end_seen result ≡ judged_of strict text.now at (read_at true text.now at) }
    ensures plies { IfOk result (λ o. IfSome o (λ j. j.plies ≡ length (read_at true text.now at).state.moves)) }
    ensures game { game.new.state ≡ (read_at true text.now at).state }
    ensures further { IfOk result (λ o. IfSome o (λ j. at < j.end.offset)) }
    ensures within { IfOk result (λ o. IfSome o (λ j. j.end.offset ≤ length text.now)) }
    ensures few { IfOk result (λ o. IfSome o (λ j. j.plies + at ≤ j.end.offset)) }
    ensures fault { IfErr result (λ fault. fault.offset ≤ length text.now) }
    ensures limit { game.new.limit ≡ MOST_MOVES }
{
    // The prover wants these laws: where faults are, and that a half-move has a byte.
    faults_have_offsets();
    half_moves_have_bytes();
    let Some(end) = read_pgn(text, at, game)? else {
        return Ok(None);
    };
    match end_fault(strict, text, at, game, end) {
        Some(fault) => Err(fault),
        None => {
            let plies = game.ply();
            Ok(Some(Judged { end, plies }))
        }
    }
}

// Does the same as `judge_by_laws`, but fivefold repetition and 75 moves end no game. Afterwards `game` is at the
// position in which reading stopped, but may have another start.
fn judge_past_draws(
    strict: Strictness,
    text: &[u8],
    at: usize,
    game: &mut Game<Bits<'_>>,
) -> Result<Option<Judged>, GameFault>
    requires at { at ≤ length text.now }
    requires limit { game.old.limit ≡ MOST_MOVES }
    requires draws { strict.draws_of_2014 ≡ false }
    ensures judged { end_seen result ≡ judged_of strict text.now at (read_at false text.now at) }
    ensures plies { IfOk result (λ o. IfSome o (λ j. j.plies ≡ length (read_at false text.now at).state.moves)) }
    ensures game { Stands false game.new.state (read_at false text.now at).state }
    ensures further { IfOk result (λ o. IfSome o (λ j. at < j.end.offset)) }
    ensures within { IfOk result (λ o. IfSome o (λ j. j.end.offset ≤ length text.now)) }
    ensures few { IfOk result (λ o. IfSome o (λ j. j.plies + at ≤ j.end.offset)) }
    ensures fault { IfErr result (λ fault. fault.offset ≤ length text.now) }
    ensures limit { game.new.limit ≡ MOST_MOVES }
{
    // The prover wants these laws: where faults are, and that a half-move has a byte.
    faults_have_offsets();
    half_moves_have_bytes();
    match read_past_draws(text, at, game) {
        Ok(None) => Ok(None),
        Ok(Some(read)) => {
            match end_fault_from(strict, text, at, &read.start, game, read.end) {
                Some(fault) => Err(fault),
                None => Ok(Some(Judged {
                    end: read.end,
                    plies: read.plies,
                })),
            }
        }
        Err(fault) => Err(GameFault::from(fault)),
    }
}

/// Reads the game of a text from the offset `at` on, and returns its end or its fault; `None` if no game is left. The
/// faults that `strict` names are looked for, too. What `game` held before is dropped. Afterwards it is at the position
/// in which reading stopped, with the verdict, if any, that ended the game that was read.
pub(crate) fn judge_game(
    strict: Strictness,
    text: &[u8],
    at: usize,
    game: &mut Game<Bits<'_>>,
) -> Result<Option<Judged>, GameFault>
    requires at { at ≤ length text.now }
    requires limit { game.old.limit ≡ MOST_MOVES }
    ensures judged { end_seen result ≡ judged_at strict text.now at }
    ensures plies { IfOk result (λ o. IfSome o
        (λ j. j.plies ≡ length (read_at strict.draws_of_2014 text.now at).state.moves)) }
    ensures game { Stands strict.draws_of_2014 game.new.state (read_at strict.draws_of_2014 text.now at).state }
    ensures further { IfOk result (λ o. IfSome o (λ j. at < j.end.offset)) }
    ensures within { IfOk result (λ o. IfSome o (λ j. j.end.offset ≤ length text.now)) }
    ensures few { IfOk result (λ o. IfSome o (λ j. j.plies + at ≤ j.end.offset)) }
    ensures fault { IfErr result (λ fault. fault.offset ≤ length text.now) }
    ensures limit { game.new.limit ≡ MOST_MOVES }
{
    if strict.draws_of_2014 {
        return judge_by_laws(strict, text, at, game);
    }
    judge_past_draws(strict, text, at, game)
}
