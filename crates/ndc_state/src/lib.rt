//! The mutable state of a run: what its events amount to, one event after another.
#![tactic(auto)]

mod held;
pub mod laws;
mod listed;
mod origins;
mod pendings;
mod removed;
mod rule;
mod state;
mod steps;
mod text;
mod tracked;
mod written;

pub use listed::{is_among_rising, rises_with};
pub use origins::origin_of;
pub use pendings::Pending;
pub use rule::{CloseKind, Rule, StateError};
pub use state::State;
pub use steps::Steps;
pub use tracked::Tracked;
