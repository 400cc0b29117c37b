//! Cells: one shard of one cluster, as what has arrived there and what it has written; messages between cells; and
//! the jobs that a cell does, with its replies. These are the types that cells, queues and clusters share, the
//! definitions of what each job does, and laws above them: a law is what an empty function ensures.
#![tactic(auto)]

pub mod cell_laws;
mod job;
mod message;
mod place;
mod shard;
pub mod worked_cells;

pub use job::{Arrived, Job, JobReply, Keys, Outcome, ShardJob, Written};
pub use message::Message;
pub use place::Place;
pub use shard::shard_of;
