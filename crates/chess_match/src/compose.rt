//! Puts together the lines that one engine is sent at an event.

ghost use Rattle.chess_match.specs.declared.block.TheConstants.{BLOCK_LEN};
ghost use Rattle.std.specs.Prelude.{◌≡◌, ◌+◌, ◌≤◌, ◌++◌, ◌∷◌, [], List, if◌then◌else◌, codes};
ghost use Rattle.chess_base.specs.Options.{list_if};
ghost use Rattle.arrayvec.specs.ArrayVec.{array_vec_len};
ghost use Rattle.chess_match.specs.Effects.{Match, move_line, opening};
ghost use Rattle.chess_match.specs.Rules.{Rules};
ghost use Rattle.chess_base.specs.declared.man.Move.{Move};
ghost use Rattle.chess_match.specs.Lines.{Says, bytes_of, setup_lines};
ghost use Rattle.chess_match.specs.ties.Delivering.{variant_command, clocks, last_move};
ghost use Rattle.chess_match.specs.Reasons.{is_write_fault_of};
ghost use Rattle.chess_match.specs.ties.Represents.{Represents, is_unsent, last_lines, lines_if_to, phase_lines, player};

use crate::block::{Block, add_end, add_level, add_move, add_ping, add_times};
use crate::match_game::MatchGame;
use crate::phase::Phase;
use crate::reason::{MatchFault, Reason, reported_reason};
use crate::state::{Actions, MatchState};
use byte_devices::append;
use cecp_engine::Features;
use chess_base::{Colour, Variant, same_colour};

impl MatchState {
    // The features that this side's engine has on.
    fn features(&self, side: Colour) -> Features
        ensures { result ≡ (player self.now side).features }
    {
        self.players.get(side).features
    }
}

// Appends the line with the last move, if there is one, in the form that this side's engine asked for: in SAN with
// `san=1`, otherwise by its squares, and after the word `usermove` with `usermove=1`.
#[tactic(auto, using(crate::proofs::Sends::no_last, crate::proofs::Sends::last_kept, crate::proofs::Sends::same_end))]
fn add_last(block: &mut Block, core: &MatchState, side: Colour)
    requires { array_vec_len block.old + 20 ≤ BLOCK_LEN }
    ensures text { (r : Rules) (played : List Move) (m : Match) → Represents r core.now played m
        → block.new.items ≡ block.old.items ++ bytes_of (last_move r m side) }
    ensures len { array_vec_len block.new ≤ array_vec_len block.old + 20 }
{
    match &core.last {
        None => {}
        Some(last) => {
            let features = core.features(side);
            add_move(block, features.usermove, last.texts.text(features.san));
        }
    }
}

// Appends the lines `time` and `otim`, this side's clock and the other's, unless this side's engine has `time=0`.
fn add_clocks(block: &mut Block, core: &MatchState, side: Colour)
    requires { array_vec_len block.old + 60 ≤ BLOCK_LEN }
    ensures text { (r : Rules) (played : List Move) (m : Match) → Represents r core.now played m
        → block.new.items ≡ block.old.items ++ bytes_of (clocks r m side) }
    ensures len { array_vec_len block.new ≤ array_vec_len block.old + 60 }
{
    if core.features(side).time {
        let own = core.clocks.remaining(side) / 10;
        let others = core.clocks.remaining(side.other()) / 10;
        add_times(block, own, others);
    }
}

// Appends the lines that open any turn of the side `mover` but its first: both clocks, and then the last move.
fn add_later_opening(block: &mut Block, core: &MatchState, mover: Colour)
    requires { array_vec_len block.old + 100 ≤ BLOCK_LEN }
    ensures text { (r : Rules) (played : List Move) (m : Match) → Represents r core.now played m
        → block.new.items ≡ block.old.items ++ bytes_of (clocks r m mover ++ last_move r m mover) }
    ensures len { array_vec_len block.new ≤ array_vec_len block.old + 100 }
{
    add_clocks(block, core, mover);
    add_last(block, core, mover);
}

// Appends the lines that open a turn of this side: both clocks, and then the last move. In the side's first turn the
// move, if there is one, comes first, then the clocks, and `go` last.
fn add_opening(block: &mut Block, core: &MatchState, side: Colour)
    requires { array_vec_len block.old + 100 ≤ BLOCK_LEN }
    ensures text { (r : Rules) (played : List Move) (m : Match) → Represents r core.now played m
        → block.new.items ≡ block.old.items ++ bytes_of (opening r m side) }
    ensures len { array_vec_len block.new ≤ array_vec_len block.old + 100 }
{
    if core.clocks.moves(side) > 0 {
        add_later_opening(block, core, side);
    } else {
        add_last(block, core, side);
        add_clocks(block, core, side);
        append(block, b"go\n");
    }
}

// Appends the line `variant fischerandom`, if the variant is Chess960.
#[tactic(auto, unfolding(crate::specs::Lines::bytes_of))]
fn add_variant(block: &mut Block, variant: Variant)
    requires { array_vec_len block.old + 30 ≤ BLOCK_LEN }
    ensures text { block.new.items ≡ block.old.items ++ bytes_of (variant_command variant) }
    ensures len { array_vec_len block.new ≤ array_vec_len block.old + 30 }
{
    match variant {
        Variant::Normal => {}
        Variant::Fischerandom => append(block, b"variant fischerandom\n"),
    }
}

// Appends the lines that set the engine of this side up for the game: `new`, the variant, `level`, `nopost`, `easy`,
// `force`, the start, `ping 1`.
fn add_setup<G: MatchGame>(block: &mut Block, core: &MatchState, game: &G, side: Colour)
    requires { array_vec_len block.old + 300 ≤ BLOCK_LEN }
    ensures text { (r : Rules) (m : Match) → G.plays game.now r → Represents r core.now (G.played game.now) m
        → block.new.items ≡ block.old.items ++ bytes_of (setup_lines r side) }
    ensures len { array_vec_len block.new ≤ array_vec_len block.old + 300 }
{
    append(block, b"new\n");
    add_variant(block, game.variant());
    add_level(block, core.clocks.level(side));
    append(block, b"nopost\neasy\nforce\n");
    game.add_start(block);
    add_ping(block, 1);
}

// Appends the line with the last move, if this side is still to be sent it.
#[tactic(auto, using(crate::proofs::Sends::same_end))]
fn add_unsent(block: &mut Block, core: &MatchState, side: Colour)
    requires { array_vec_len block.old + 20 ≤ BLOCK_LEN }
    ensures text { (r : Rules) (played : List Move) (m : Match) → Represents r core.now played m
        → block.new.items ≡ block.old.items
        ++ bytes_of (list_if (is_unsent core.now.last side) (move_line r m side ∷ [])) }
    ensures len { array_vec_len block.new ≤ array_vec_len block.old + 20 }
{
    match core.unsent_to() {
        None => {}
        Some(unsent_to) => {
            if same_colour(unsent_to, side) {
                add_last(block, core, side);
            }
        }
    }
}

// Appends the lines with which the match ends for this side: the last move, if this side is still to be sent that, and
// the end lines, `result ..` by the reason that is reported and `quit`.
fn add_end_lines(block: &mut Block, core: &MatchState, side: Colour, reason: Reason)
    requires { array_vec_len block.old + 120 ≤ BLOCK_LEN }
    ensures text { (r : Rules) (played : List Move) (m : Match) → Represents r core.now played m
        → block.new.items ≡ block.old.items
        ++ bytes_of (last_lines r m reason (is_unsent core.now.last side) side) }
    ensures len { array_vec_len block.new ≤ array_vec_len block.old + 120 }
{
    add_unsent(block, core, side);
    add_end(block, reason.outcome(), reason.comment());
}

// Whether this reason is that writing to this side failed.
fn is_write_fault_of(reason: Reason, side: Colour) -> bool
    ensures { result ≡ is_write_fault_of reason side }
{
    match reason {
        Reason::Faulted(failed, MatchFault::Write) => same_colour(failed, side),
        _ => false,
    }
}

// Appends the lines that this side is sent when the match enters the phase that it is in; none if a failed write to it
// ended the match.
#[tactic(auto, using(crate::proofs::Sends::same_end))]
fn add_entry<G: MatchGame>(block: &mut Block, core: &MatchState, game: &G, side: Colour)
    requires { array_vec_len block.old + 300 ≤ BLOCK_LEN }
    ensures { (r : Rules) (m : Match) → G.plays game.now r → Represents r core.now (G.played game.now) m
        → block.new.items ≡ block.old.items ++ bytes_of (phase_lines r core.now.last m side core.now.phase) }
{
    match core.phase {
        Phase::Handshake(on) => {
            if same_colour(on, side) {
                append(block, b"xboard\nprotover 2\n");
            }
        }
        Phase::Setup(on) => {
            if same_colour(on, side) {
                add_setup(block, core, game, on);
            }
        }
        Phase::SendTurn(on) => {
            if same_colour(on, side) {
                add_opening(block, core, on);
            }
        }
        Phase::AwaitMove(_) => {}
        Phase::AwaitPong(on) => {
            if same_colour(on, side) {
                add_ping(block, core.clocks.moves(on) + 1);
            }
        }
        Phase::Over(reason) => {
            if is_write_fault_of(reason, side) {
                return;
            }
            add_end_lines(block, core, side, reported_reason(game.verdict(), reason));
        }
    }
}

// Appends the line `draw`, if `given` says that this side is sent an offer of a draw.
#[tactic(auto, unfolding(crate::specs::Lines::bytes_of))]
pub(crate) fn add_offer(block: &mut Block, given: Actions, side: Colour)
    requires { array_vec_len block.old + 10 ≤ BLOCK_LEN }
    ensures text { block.new.items ≡ block.old.items
        ++ bytes_of (lines_if_to given.draw side (Says (codes "draw") ∷ [])) }
    ensures len { array_vec_len block.new ≤ array_vec_len block.old + 10 }
{
    match given.draw {
        None => {}
        Some(offered) => {
            if same_colour(offered, side) {
                append(block, b"draw\n");
            }
        }
    }
}

// Appends the lines that this side is sent when the match enters the phase that it is in, if `given` says that it was
// just entered.
#[tactic(auto, using(crate::proofs::Sends::same_end))]
pub(crate) fn add_entered<G: MatchGame>(
    block: &mut Block,
    core: &MatchState,
    game: &G,
    given: Actions,
    side: Colour,
)
    requires { array_vec_len block.old + 300 ≤ BLOCK_LEN }
    ensures { (r : Rules) (m : Match) → G.plays game.now r → Represents r core.now (G.played game.now) m
        → block.new.items ≡ block.old.items
        ++ bytes_of (if given.entered then phase_lines r core.now.last m side core.now.phase else []) }
{
    if given.entered {
        add_entry(block, core, game, side);
    }
}
