//! Signals that are applied again: which ones, and what is written for them.
#![tactic(auto)]

pub mod laws;
mod order;
mod reapply;
mod stray;

pub use order::strays;
pub use reapply::reapply_events;
pub use stray::Stray;
