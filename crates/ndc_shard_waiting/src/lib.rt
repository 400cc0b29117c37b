//! The messages of one workflow that are put off, and what an arrival frees.
#![tactic(auto)]

mod held;
pub mod laws;
mod links;
mod messages;
mod shelf;
mod shortcuts;
mod waiting;

pub use waiting::{PutOff, Waiting};
