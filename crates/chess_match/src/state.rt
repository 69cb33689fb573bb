//! The core of a match, without devices: its state, and what is kept of each engine.

ghost use Rattle.std.specs.Prelude.{◌≡◌, ◌++◌, ◌∷◌, [], List, false, ◌+◌, ◌*◌, ◌≤◌, length};
ghost use Rattle.std.specs.List.{list_any};
ghost use Rattle.arrayvec.specs.ArrayVec.{array_vec_len};
ghost use Rattle.chess_base.specs.ByColour.{of_colour};
ghost use Rattle.chess_match.specs.declared.block.TheConstants.{ANSWERS_LEN};
ghost use Rattle.cecp_engine.specs.Seen.{item_seen, features_of};
ghost use Rattle.cecp_engine.specs.Items as feature_items;
ghost use Rattle.cecp_engine.specs.Items.{items_of, ends_handshake};
ghost use Rattle.chess_match.specs.ties.Represents.{name_by, Represents};
ghost use Rattle.chess_match.specs.Effects.{beginning, answers_to};
ghost use Rattle.chess_match.specs.Rules.{Rules};
ghost use Rattle.chess_match.specs.Lines.{bytes_of};
ghost use Rattle.chess_match.specs.ties.Texts.{unsent_in};

use crate::block::{Block, add_answer};
use crate::draws::Draws;
use crate::patience::Patience;
use crate::phase::Phase;
use crate::texts::LastMove;
use cecp_engine::{Clocks, Features, Item, Level, next_item};
use chess_base::{ByColour, Colour};
use chess_game::TagText;

/// What is kept of one engine.
#[derive(Drop)]
pub(crate) struct Player {
    pub features: Features,
    /// The name that it gave itself by `myname`; empty if it gave none.
    pub name: TagText,
    /// Its offer of a draw is open.
    pub offers: bool,
}

/// What is sent at an event beside answers to items: the line `draw` to the side in `draw`, if there is one, and, if
/// `entered`, the lines of the phase that the match has entered.
#[derive(Clone, Copy)]
pub(crate) struct Actions {
    pub draw: Option<Colour>,
    pub entered: bool,
}

/// The state of a match, but for the game.
#[derive(Drop)]
pub(crate) struct MatchState {
    pub phase: Phase,
    pub players: ByColour<Player>,
    pub clocks: Clocks,
    /// The last move, if one was made: its texts, and who is still to be sent it.
    pub last: Option<LastMove>,
    /// How many lines the present handshake has had, or how many lines of the present setup or turn were ignored.
    pub count: u32,
    /// The moment at which the turn's opening was sent: the time of its move runs from there.
    pub opened: u64,
    /// The moment from which the time for a reply (any line that is owed, but a move) runs; `None`: it doesn't run yet.
    pub since: Option<u64>,
    /// How long lines are waited for.
    pub patience: Patience,
    /// Whether draws must be claimed.
    pub draws: Draws,
}

/// So many ignored lines in one setup or turn end the match, by the fault `Flood`: so no flood of lines goes on for
/// ever.
pub(crate) const FLOOD_LEN: u32 = 10_000;

/// So many lines in one handshake without `done=1` end the match, by the fault `NoDone`: so no handshake goes on for
/// ever.
pub(crate) const HANDSHAKE_LEN: u32 = 1_000;

/// Nothing is sent.
pub(crate) const NOTHING: Actions = Actions {
    draw: None,
    entered: false,
};

/// The lines of the phase that was just entered are sent.
pub(crate) const ENTRY: Actions = Actions {
    draw: None,
    entered: true,
};

impl Player {
    // What is kept of an engine of which nothing is known yet.
    #[tactic(auto, unfolding(crate::specs::ties::Represents::name_by))]
    fn new() -> Self
        ensures features { result.features ≡ features_of [] }
        ensures name { result.name ≡ name_by [] }
        ensures offers { result.offers ≡ false }
    {
        Player {
            features: Features::new(),
            name: TagText::cut(b""),
            offers: false,
        }
    }

    /// Takes over the items of a `feature` line (`text` is the line without its first word), up to `done=1` or a
    /// malformed one, appends the answers to these items (`accepted NAME` or `rejected NAME`) to `block`, and returns
    /// whether `done=1` was met.
    pub(crate) fn take_items(&mut self, text: &[u8], block: &mut Block) -> bool
        requires { array_vec_len block.old + 4 * length text.now ≤ ANSWERS_LEN }
        ensures features { (items : List feature_items.Item) → self.old.features ≡ features_of items
            → self.new.features ≡ features_of (items ++ items_of text.now) }
        ensures name { (items : List feature_items.Item) → self.old.name ≡ name_by items
            → self.new.name ≡ name_by (items ++ items_of text.now) }
        ensures offers { self.new.offers ≡ self.old.offers }
        ensures done { result ≡ list_any ends_handshake (items_of text.now) }
        ensures answers { block.new.items ≡ block.old.items ++ bytes_of (answers_to (items_of text.now)) }
        ensures len { array_vec_len block.new ≤ array_vec_len block.old + 4 * length text.now }
    {
        let mut rest = text;
        while let Some((item, tail)) = next_item(rest) {
            self.features = self.features.with_item(&item);
            note_name(&mut self.name, &item);
            add_answer(block, item.name);
            if item.ends_handshake() {
                return true;
            }
            rest = tail;
        }
        false
    }
}

impl MatchState {
    /// A match before its first line: White's handshake is awaited.
    pub(crate) fn new(levels: ByColour<Level>, patience: Patience, draws: Draws) -> Self
        ensures phase { result.phase ≡ Phase.Handshake Colour.White }
        ensures stands { (r : Rules) → r.level ≡ of_colour levels → r.patience ≡ patience → r.draws ≡ draws
            → Represents r result [] beginning.after }
    {
        MatchState {
            phase: Phase::Handshake(Colour::White),
            players: ByColour {
                white: Player::new(),
                black: Player::new(),
            },
            clocks: Clocks::new(levels),
            last: None,
            count: 0,
            opened: 0,
            since: None,
            patience,
            draws,
        }
    }

    /// Who is still to be sent the last move; `None` if nobody is.
    pub(crate) fn unsent_to(&self) -> Option<Colour>
        ensures { result ≡ unsent_in self.now.last }
    {
        match &self.last {
            None => None,
            Some(last) => last.unsent_to,
        }
    }
}

// If the item is `myname`, sets `name` to its value, cut so that a PGN tag can hold it; otherwise leaves it.
#[tactic(auto, using(crate::proofs::Names::name_said, crate::proofs::Names::name_kept))]
fn note_name(name: &mut TagText, item: &Item<'_>)
    ensures { (items : List feature_items.Item) → name.old ≡ name_by items
        → name.new ≡ name_by (items ++ item_seen item.now ∷ []) }
{
    if item.name == b"myname".as_slice() {
        *name = TagText::cut(item.value.text());
    }
}
