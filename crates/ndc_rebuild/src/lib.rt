//! States of paths of batches: by replay of all their events, or from copies kept on the way.
#![tactic(auto)]

mod checkpoints;
mod replay;

pub use checkpoints::{Checkpoints, INTERVAL};
pub use replay::rebuild;
