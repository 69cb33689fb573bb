//! What all phases share: how a match ends, enters a phase, opens a turn, or ignores a line.

ghost use Rattle.std.specs.Prelude.{◌≡◌, ◌+◌, ◌<◌, List, false};
ghost use Rattle.chess_base.specs.declared.man.Colour.{Colour};
ghost use Rattle.chess_base.specs.declared.man.Move.{Move};
ghost use Rattle.chess_match.specs.Acts.{is_over};
ghost use Rattle.chess_game.specs.Ends.{claims, draw_claim};
ghost use Rattle.chess_match.specs.Effects.{Match, begins_turn, ends, if_automatic, ignores, is_owed_move, over_by_position};
ghost use Rattle.chess_match.specs.shared.Parts.{enter};
ghost use Rattle.chess_match.specs.Rules.{Rules};
ghost use Rattle.chess_match.specs.ties.Represents.{Represents, Goes, is_unsent, nothing_said, phase_lines, phase_of};
ghost use Rattle.chess_match.specs.ties.Texts.{all_sent};
ghost use Rattle.chess_match.specs.declared.state.TheConstants.{FLOOD_LEN};

use crate::draws::Draws;
use crate::match_game::MatchGame;
use crate::phase::Phase;
use crate::reason::{MatchFault, Reason};
use crate::state::{Actions, ENTRY, FLOOD_LEN, MatchState, NOTHING};
use chess_base::Colour;
use chess_game::DrawClaim;

impl MatchState {
    // Ends the match for this reason, and returns what is to be sent: the lines of the end.
    pub(crate) fn finish(&mut self, reason: Reason) -> Actions
        ensures { (r : Rules) (played : List Move) (m : Match) → is_over m.phase ≡ false
            → Represents r self.old played m → Goes r self.new played result nothing_said (ends r reason m) }
    {
        self.phase = Phase::Over(reason);
        ENTRY
    }

    // The draw that may be claimed now, if draws are automatic; `None` if they must be claimed.
    fn automatic_draw<G: MatchGame>(&self, game: &G) -> Option<DrawClaim>
        ensures { (r : Rules) → G.plays game.now r
            → result ≡ if_automatic self.now.draws (draw_claim (claims r.start (G.played game.now))) }
    {
        match self.draws {
            Draws::Claimed => None,
            Draws::Automatic => game.claim(),
        }
    }

    // Why the match is over by the position on the board: for the board's verdict; otherwise, if draws are automatic,
    // for the draw that may be claimed. `None` if the position ends nothing.
    pub(crate) fn over_by_position<G: MatchGame>(&self, game: &G) -> Option<Reason>
        ensures { (r : Rules) → G.plays game.now r → self.now.draws ≡ r.draws
            → result ≡ over_by_position r (G.played game.now) }
    {
        match game.verdict() {
            Some(verdict) => Some(Reason::Decided(verdict)),
            None => match self.automatic_draw(game) {
                Some(claim) => Some(Reason::Claimed(claim)),
                None => None,
            },
        }
    }

    // Goes on to this phase, in which lines are counted from 0, and returns what is to be sent: the lines of the phase.
    #[tactic(auto, using(crate::proofs::CoreSteps::enter_goes))]
    pub(crate) fn enter(&mut self, phase: Phase) -> Actions
        ensures { (r : Rules) (played : List Move) (m : Match)
            → ((S : Colour) → is_unsent self.old.last S ≡ is_owed_move (phase_of self.old.opened phase) S)
            → Represents r self.old played m
            → Goes r self.new played result nothing_said (record {
              after = enter (phase_of self.old.opened phase) m;
              to = λ S. phase_lines r self.old.last (enter (phase_of self.old.opened phase) m) S phase;
            }) }
    {
        self.phase = phase;
        self.count = 0;
        ENTRY
    }

    // Notes that the last move, if there is one, was sent: nobody is still to be sent it.
    fn note_sent(&mut self)
        ensures { self.new ≡ (record self.old { last = all_sent self.old.last }) }
    {
        if let Some(last) = &mut self.last {
            last.unsent_to = None;
        }
    }

    // Begins this side's turn, and returns what is to be sent: the lines that open it, among them the last move.
    pub(crate) fn open_turn(&mut self, side: Colour) -> Actions
        ensures { (r : Rules) (played : List Move) (m : Match) → Represents r self.old played m
            → Goes r self.new played result nothing_said (begins_turn r side m) }
    {
        self.phase = Phase::SendTurn(side);
        self.count = 0;
        self.note_sent();
        ENTRY
    }

    // Ignores a line of this side, and returns that nothing is sent; but the 10,000th such line in one setup or turn
    // ends the match.
    pub(crate) fn ignore(&mut self, side: Colour) -> Actions
        requires { self.old.count < FLOOD_LEN }
        ensures { (r : Rules) (played : List Move) (m : Match) → is_over m.phase ≡ false
            → Represents r self.old played m → Goes r self.new played result nothing_said (ignores r side m) }
    {
        if self.count + 1 >= FLOOD_LEN {
            return self.finish(Reason::Faulted(side, MatchFault::Flood));
        }
        self.count += 1;
        NOTHING
    }
}
