//! The arguments of the command line: what they ask for.
//!
//! ```
//! let arguments = ["verify", "--quiet"];
//! if let Ok(Plan::Verify { options, .. }) = read_words(alloc, &arguments) {
//!     println!(rt; "quiet: {}, names: {}", options.quiet, options.names)?;
//! }
//! ```
#![tactic(auto)]

mod fault;
mod ignored;
mod plan;
mod reading;
mod request;

pub use fault::WordsFault;
pub use plan::Plan;
pub use reading::read_words;
