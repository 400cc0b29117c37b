//! The batches of one run, as a tree: each batch hangs below its parent.
#![tactic(auto)]

mod answer;
mod batches;
mod chain;
mod ids;
pub mod laws;
pub mod sorted;
mod tips;
mod tree;

pub use answer::{Inserted, TreeError};
pub use ids::event_in;
pub use tree::Tree;
