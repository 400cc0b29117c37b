use crate::message::Message;
use ndc_command::{Command, Refusal};
use ndc_event::{BatchKey, Items, Name};
use ndc_model_sets::Batches;

/// What a cell is asked to do.
#[derive(Debug, Drop)]
pub enum Job {
    /// A command to a workflow.
    Command {
        domain: Name,
        workflow: Name,
        command: Command,
    },
    /// A message arrives.
    Arrive {
        message: Message,
    },
    /// Strays are applied again in each workflow, where the cell may write to it and its current run is open.
    Reapply,
    /// A new run repeats the current one up to an event, counted from 1.
    Reset {
        domain: Name,
        workflow: Name,
        event: u64,
    },
}

/// A job for the cell of a shard, counted from 0.
#[derive(Debug, Drop)]
pub struct ShardJob {
    /// The shard, counted from 0.
    pub shard: u32,
    /// What its cell is to do.
    pub job: Job,
}

/// The keys of what a command or a reset has written: its first batch, and the other one, where there are two.
#[derive(Clone, Copy, Debug, PartialEq, Eq)]
pub struct Written {
    /// The key of the first batch.
    pub key: BatchKey,
    /// That of the other one, where there are two.
    pub second: Option<BatchKey>,
}

/// A list of keys, in order.
pub type Keys = Items<BatchKey>;

/// What comes of the arrival of a message.
#[derive(Debug, Drop)]
pub enum Arrived {
    /// Its batch had arrived before, and nothing changes.
    Known,
    /// An ancestor of its batch has not arrived: the nearest one that has not.
    PutOff { missing: BatchKey },
    /// Batches became learned, those with these keys, in order.
    Learned { keys: Keys },
}

/// What a job's call answered.
#[derive(Debug, Drop)]
pub enum Outcome {
    /// A command or a reset has written.
    Written(Written),
    /// A command or a reset was refused, and nothing changed.
    Refused(Refusal),
    /// A message has arrived.
    Arrived(Arrived),
    /// So many batches were written where strays were applied again.
    Reapplied { count: u64 },
}

/// What a cell replies to a job.
#[derive(Drop)]
pub struct JobReply {
    /// What the job's call answered.
    pub outcome: Outcome,
    /// The batches that the job made learned in its cell, in the order in which indexers are told of them.
    pub learned: Batches,
}
