//! All clusters with their queues, the links between them, and the open handovers.
#![tactic(auto)]

mod bootstrapping;
mod brought;
mod due;
mod flights;
mod handovers;
mod opening;
mod own;
mod publisher;
pub mod publishers;
mod pulling;
mod records;
mod renewing;
mod replication;
mod resending;
mod settling;
mod taking;
mod trimming;
mod working;

pub use publisher::Publisher;
pub use replication::Replication;
pub use working::{Done, Worked};
