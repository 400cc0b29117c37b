//! Version histories: for each failover version on a path of a run, the last event id written with it.
#![tactic(auto)]

mod history;
mod item;
mod rising;

pub use history::{VersionHistory, best_common};
pub use item::{AddError, Item};
