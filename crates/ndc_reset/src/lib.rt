//! Resets: a new run that repeats a history up to a completed decision, and keeps the later signals.
#![tactic(auto)]

pub mod laws;
mod plan;

pub use plan::{ResetError, plan_reset, plan_reset_of};
