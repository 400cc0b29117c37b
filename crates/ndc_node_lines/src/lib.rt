//! A node driven by lines of text: commands and questions as in a script without the cluster's name, frames as they come,
//! and an answer of lines to each. What changed the node is told as units, to be stored; a store with its units is loaded.
#![tactic(auto)]

mod answer;
mod changing;
mod error;
mod kept;
mod learning;
mod network;
mod reading;
mod reply;
mod session;
mod storing;
mod telling;
mod told;
mod units;
mod words;

pub use error::{LoadError, OpenError};
pub use reply::{Code, Reply};
pub use session::Session;
pub use storing::Loaded;
pub use words::may_change;
