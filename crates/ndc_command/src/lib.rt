//! Commands to a workflow: what a caller asks of a cluster, and what each writes.
#![tactic(auto)]

mod command;
mod judge;
pub mod laws;
mod planning;
mod refusal;
mod stage;
mod tip;

pub use command::{Action, Actions, Command};
pub use planning::plan;
pub use refusal::{CommandError, Refusal};
