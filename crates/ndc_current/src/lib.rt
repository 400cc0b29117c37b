//! The current run of a workflow: the greatest tip, and what runs are beside it.
#![tactic(auto)]

mod current;
pub mod laws;

pub use current::{pick, status};
pub use ndc_model_sets::RunStatus;
