//! The batches of one run, with the state of its current branch.
#![tactic(auto)]

mod answer;
mod copies;
mod growing;
pub mod laws;
mod run;

pub use answer::{Learned, RunError};
pub use run::Run;
