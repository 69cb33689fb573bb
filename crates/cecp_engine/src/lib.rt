//! What an engine says by the Chess Engine Communication Protocol, version 2, and the time that it is given: the kinds
//! of its lines, the items of a `feature` line and the features that they turn on, time controls, and the clocks of a
//! game. It knows nothing of a match.
//!
//! The features that an engine has on after a `feature` line, and the milliseconds that a side has at its start:
//!
//! ```
//! let mut features = Features::new();
//! if let EngineLine::Features(text) = read_engine_line(b"feature ping=1 done=1") {
//!     let mut rest = text;
//!     for _ in 0..text.len() {
//!         let Some((item, tail)) = next_item(rest) else {
//!             break;
//!         };
//!         features = features.with_item(&item);
//!         rest = tail;
//!     }
//! }
//! let level: Level = "40 5 0".parse()?;
//! let levels = ByColour {
//!     white: level,
//!     black: level,
//! };
//! let left = Clocks::new(levels).remaining(Colour::White);
//! ```
//!
//! Then `features.ping` is true, and `left` is 300,000. A handshake ends with the item of which `ends_handshake()` is
//! true, here `done=1`.
#![tactic(auto)]

mod clocks;
mod engine_line;
mod features;
mod item;
mod level;
mod level_fault;
mod level_text;

pub use clocks::Clocks;
pub use engine_line::{EngineLine, read_engine_line};
pub use features::Features;
pub use item::{Item, Value, is_known, next_item};
pub use level::Level;
pub use level_fault::LevelFault;
pub use level_text::LevelText;
