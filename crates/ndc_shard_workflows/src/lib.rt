//! All workflows of a cell, found by domain and then by workflow.
#![tactic(auto)]

mod admission;
mod admitting;
mod arrival;
mod carried;
mod cell;
mod domain;
mod domains;
mod due;
mod forgetting;
pub mod laws;
mod learning;
mod listing;
mod next;
mod reading;
mod standing;
mod workflow;
pub mod workflow_laws;
mod workflows;

pub use admission::{Admission, AdmitError, CellTerms, NotAdmitted, NotWritten, SetAside, Terms};
pub use arrival::Arrival;
pub use cell::{message_there, messages_of};
pub use reading::{message_at, messages};
pub use workflow::Workflow;
pub use workflows::Workflows;
