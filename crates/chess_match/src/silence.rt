//! What a match does when a line doesn't come in time, and how long it waits for one.

ghost use Rattle.std.specs.Prelude.{◌≡◌, ◌+◌, ◌-◌, ◌^◌, List, Some, false, true, min, nat_lt};
ghost use Rattle.std.specs.Option.{option_map_or};
ghost use Rattle.chess_base.specs.declared.man.Move.{Move};
ghost use Rattle.chess_match.specs.Acts.{awaits_line, is_over};
ghost use Rattle.chess_match.specs.Effects.{BeforeMove, Match, awaited_since, effect, reply_row};
ghost use Rattle.chess_match.specs.Events.{Silent};
ghost use Rattle.chess_match.specs.Rules.{Rules};
ghost use Rattle.chess_match.specs.ties.Awaits.{until_of};
ghost use Rattle.chess_match.specs.ties.Represents.{Goes, Represents, nothing_said};

use crate::match_game::MatchGame;
use crate::phase::Phase;
use crate::reason::{MatchFault, Reason};
use crate::state::{Actions, MatchState, NOTHING};
use chess_base::Colour;

// The first moment more than `limit` milliseconds after `from`, but at most the last moment, 2 ^ 64 - 1.
fn first_beyond(from: u64, limit: u64) -> u64
    ensures { result ≡ min (from + limit + 1) (2 ^ 64 - 1) }
{
    from.saturating_add(limit).saturating_add(1)
}

// Whether `waited` milliseconds are more than the limit, if there is one (`None`: never).
fn is_beyond(limit: Option<u64>, waited: u64) -> bool
    ensures { result ≡ option_map_or (λ l. nat_lt l waited) limit false }
{
    match limit {
        None => false,
        Some(limit) => waited > limit,
    }
}

impl MatchState {
    // Lets the time for a reply run from this moment on.
    pub(crate) fn await_since(&mut self, moment: u64)
        ensures stands { (r : Rules) (played : List Move) (m : Match) → Represents r self.old played m
            → Represents r self.new played (awaited_since moment m) }
        ensures value { self.new ≡ (record self.old { since = Some moment }) }
    {
        self.since = Some(moment);
    }

    // The first moment at which the time for a reply is over, if it may take at most `limit` milliseconds. While the
    // time doesn't run (`since` is `None`), it is 0: the next look for a line returns at once, and if it finds none,
    // that silence starts the time (`owe_reply`).
    fn reply_ends(&self, limit: u64) -> u64
        ensures { result ≡ option_map_or (λ since. min (since + limit + 1) (2 ^ 64 - 1)) self.now.since 0 }
    {
        match self.since {
            None => 0,
            Some(since) => first_beyond(since, limit),
        }
    }

    /// Until which moment the next line is waited for, by the clock of the match: the first that is beyond the limit.
    /// `None` if there is no limit.
    pub(crate) fn until(&self) -> Option<u64>
        ensures { result ≡ until_of self.now self.now.phase }
    {
        match self.phase {
            Phase::AwaitMove(side) => {
                if self.patience.flag {
                    Some(first_beyond(self.opened, self.clocks.remaining(side)))
                } else {
                    None
                }
            }
            _ => match self.patience.reply {
                None => None,
                Some(limit) => Some(self.reply_ends(limit)),
            },
        }
    }

    // Takes note that this side had not sent a line that it owes, which is no move, when the clock showed `moment`: if
    // it has owed it for longer than the rules allow, the match ends by this fault. Returns what is to be sent.
    fn owe_reply(&mut self, side: Colour, fault: MatchFault, moment: u64) -> Actions
        ensures { (r : Rules) (played : List Move) (m : Match) → is_over m.phase ≡ false
            → Represents r self.old played m
            → Goes r self.new played result nothing_said (reply_row r side fault moment m) }
    {
        let since = self.since.unwrap_or(moment);
        if is_beyond(self.patience.reply, moment.saturating_sub(since)) {
            return self.finish(Reason::Faulted(side, fault));
        }
        self.await_since(since);
        NOTHING
    }

    // Takes note that this side had not moved when the clock showed `moment`: its flag falls if it has used more time
    // than it had left. Returns what is to be sent.
    fn owe_move<G: MatchGame>(&mut self, game: &G, side: Colour, moment: u64) -> Actions
        ensures { (r : Rules) (m : Match) → G.plays game.now r → m.phase ≡ BeforeMove side self.old.opened
            → Represents r self.old (G.played game.now) m
            → Goes r self.new (G.played game.now) result nothing_said (effect r m (Silent side moment)) }
    {
        if self.is_flagged(side, moment.saturating_sub(self.opened)) {
            return self.fall_flag(game, side);
        }
        NOTHING
    }

    /// Takes note that no line of this side, whose line is awaited, had come when the clock showed `moment`: before its
    /// move its flag may have fallen, otherwise the time for its reply may be over, and then the match ends. Returns
    /// what is to be sent.
    pub(crate) fn silent<G: MatchGame>(&mut self, game: &G, side: Colour, moment: u64) -> Actions
        ensures { (r : Rules) (m : Match) → G.plays game.now r → awaits_line m.phase side ≡ true
            → Represents r self.old (G.played game.now) m
            → Goes r self.new (G.played game.now) result nothing_said (effect r m (Silent side moment)) }
    {
        match self.phase {
            Phase::Handshake(_) => self.owe_reply(side, MatchFault::NoHandshake, moment),
            Phase::AwaitMove(_) => self.owe_move(game, side, moment),
            Phase::Setup(_) | Phase::AwaitPong(_) => {
                self.owe_reply(side, MatchFault::NoAnswer, moment)
            }
            Phase::SendTurn(_) | Phase::Over(_) => NOTHING,
        }
    }
}
