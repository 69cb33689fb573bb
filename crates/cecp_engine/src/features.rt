//! The features that an engine has on.

ghost use Rattle.std.specs.Prelude.{◌≡◌, ◌++◌, ◌∷◌, [], List};
ghost use Rattle.cecp_engine.specs.Items as feature_items;
ghost use Rattle.cecp_engine.specs.Seen.{features_of, item_seen};

use crate::item::Item;

/// Which features an engine has on, by the items that it sent. One that it sent no item for is off, but `time` and
/// `draw` are on; `fischerandom` is on unless its `variants` leave it out.
#[derive(Clone, Copy, Debug, PartialEq, Eq, Hash)]
pub struct Features {
    pub ping: bool,
    pub setboard: bool,
    pub san: bool,
    pub usermove: bool,
    pub time: bool,
    pub draw: bool,
    pub fischerandom: bool,
}

impl Features {
    /// Which features an engine has on before its first `feature` line.
    #[tactic(auto, unfolding(crate::specs::Seen::features_of, crate::specs::Items::takes, crate::specs::Items::plays_fischerandom))]
    pub fn new() -> Self
        ensures { result ≡ features_of [] }
    {
        Features {
            ping: false,
            setboard: false,
            san: false,
            usermove: false,
            time: true,
            draw: true,
            fischerandom: true,
        }
    }

    /// Which features the engine has on after one more item, such as `ping=1`.
    pub fn with_item(self, item: &Item<'_>) -> Self
        ensures { (items : List feature_items.Item) → self ≡ features_of items
            → result ≡ features_of (items ++ item_seen item.now ∷ []) }
    {
        Features {
            ping: item.says_or(b"ping", self.ping),
            setboard: item.says_or(b"setboard", self.setboard),
            san: item.says_or(b"san", self.san),
            usermove: item.says_or(b"usermove", self.usermove),
            time: item.says_or(b"time", self.time),
            draw: item.says_or(b"draw", self.draw),
            fischerandom: item.names_fischerandom_or(self.fischerandom),
        }
    }
}
