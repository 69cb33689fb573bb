//! A stub: an engine for tests, which plays its arguments in the Chess Engine Communication Protocol: moves, offers and
//! claims of draws, a resignation (`resign`), or an end in the middle of a line (`end`).
//!
//! ```
//! let arguments = ["e2e4", "offer", "resign"];
//! let mut stub = Stub::new(&arguments);
//! let end = serve_lines(&mut input, &mut output, &mut stub)?;
//! ```
#![tactic(auto)]

mod stub;

pub use stub::Stub;
