//! One shard of one cluster: the workflows of a cell, and all messages that it has written; what it lacks before each
//! batch that it has put off, and what it serves for such a gap of another cell.
#![tactic(auto)]

mod asking;
mod calls;
mod cell;
mod error;
mod finding;
mod histories;
mod jobs;
pub mod keeping_laws;
mod serving;
mod shard;
mod showing;
mod trying;

pub use error::{ShardError, TryError};
pub use ndc_cluster::Home;
pub use ndc_model_cells::{Arrived, Job, JobReply, Keys, Outcome, ShardJob, Written, shard_of};
pub use ndc_model_sets::{Batches, BranchView, BranchViews, RunStatus, RunView, RunViews, View};
pub use ndc_resend::GapOf;
pub use ndc_shard_workflows::{
    Admission, AdmitError, CellTerms, NotAdmitted, NotWritten, SetAside, Terms,
};
pub use shard::Shard;
pub use showing::Waits;
pub use trying::{Reapplied, Skipped};

/// A cluster whose cells are shards.
pub type ShardCluster = ndc_cluster::Cluster<Shard>;
