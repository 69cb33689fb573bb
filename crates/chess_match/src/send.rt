//! Notes what an event gives to an engine, and sends it.

ghost use Rattle.std.specs.Prelude.{◌≡◌, ◌≢◌, ◌+◌, ◌≤◌, ◌<◌, ◌++◌, [], List, length, true};
ghost use Rattle.arrayvec.specs.ArrayVec.{array_vec_len};
ghost use Rattle.chess_base.specs.declared.man.Colour.{Colour};
ghost use Rattle.cecp_engine.specs.Items.{Item};
ghost use Rattle.chess_match.specs.declared.block.TheConstants.{ANSWERS_LEN, BLOCK_LEN};
ghost use Rattle.chess_match.specs.Effects.{Effect, Match, answers_to};
ghost use Rattle.chess_match.specs.Lines.{SentLine, bytes_of};
ghost use Rattle.chess_match.specs.Rules.{Rules};
ghost use Rattle.chess_match.specs.Table.{Passes};
ghost use Rattle.chess_match.specs.ties.Driving.{giving};
ghost use Rattle.chess_match.specs.ties.Represents.{Goes, Represents, after_answers};

use crate::block::Block;
use crate::compose::{add_entered, add_offer};
use crate::match_game::MatchGame;
use crate::note::Note;
use crate::state::{Actions, MatchState};
use crate::table::MatchTable;
use chess_base::Colour;

// Appends to the block what this side is sent after the answers to its items, as far as `given` says so: an offer of a
// draw, and the lines of the phase.
#[tactic(auto, using(crate::proofs::Sends::bytes_after))]
fn add_rest<G: MatchGame>(
    block: &mut Block,
    core: &MatchState,
    game: &G,
    given: Actions,
    side: Colour,
)
    requires { array_vec_len block.old + 310 ≤ BLOCK_LEN }
    ensures { (r : Rules) (m : Match) → G.plays game.now r → Represents r core.now (G.played game.now) m
        → block.new.items ≡ block.old.items ++ bytes_of (after_answers r core.now given m side) }
{
    add_offer(block, given, side);
    add_entered(block, core, game, given, side);
}

// Notes that `side` is sent this text, and then sends it; an empty text is neither noted nor sent. Returns whether
// sending failed.
#[tactic(auto, using(crate::proofs::Due::is_some_text))]
fn note_and_put<T: MatchTable>(table: &mut T, text: &[u8], side: Colour) -> bool
    ensures passes { (lines : List SentLine) → bytes_of lines ≡ text.now
        → Passes (T.passed table.old) (T.passed table.new) (giving result side lines) }
    ensures due { result ≡ true → text.now ≢ [] }
    ensures left { T.left table.new ≡ T.left table.old }
{
    if text.is_empty() {
        return false;
    }
    table.note(Note::Gives { side, text });
    table.send(side, text).is_err()
}

/// `block` has the answers (`accepted`, `rejected`) to the items of this side's `feature` line, if the event was one.
/// Appends what else this side is sent (`given` says what), notes it all, sends it with one call of the table, and
/// empties `block`. If there is nothing, nothing is noted or sent, and nothing can fail. Returns whether sending
/// failed.
pub(crate) fn note_and_send<T: MatchTable, G: MatchGame>(
    table: &mut T,
    core: &MatchState,
    game: &G,
    given: Actions,
    block: &mut Block,
    side: Colour,
) -> bool
    requires { array_vec_len block.old ≤ ANSWERS_LEN }
    ensures sends { (r : Rules) (items : Colour → List Item) (e : Effect) → G.plays game.now r
        → Goes r core.now (G.played game.now) given items e → block.old.items ≡ bytes_of (answers_to (items side))
        → Passes (T.passed table.old) (T.passed table.new) (giving result side (e.to side))
        × (result ≡ true → 0 < length (e.to side)) }
    ensures empty { block.new.items ≡ [] }
    ensures left { T.left table.new ≡ T.left table.old }
{
    add_rest(block, core, game, given, side);
    let failed = note_and_put(table, block.as_slice(), side);
    block.clear();
    failed
}
