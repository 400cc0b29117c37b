//! What is told of a block beside its events.
use ndc_event::{BatchKey, RunId};

/// A block without its events.
#[derive(Clone, Copy, Debug)]
pub struct Summary {
    /// The key of its first batch.
    pub first: BatchKey,
    /// The key of its last batch.
    pub last: BatchKey,
    /// How many batches it has.
    pub count: u64,
    /// Its run.
    pub run: RunId,
    /// The batch that the first one goes below.
    pub parent: Option<BatchKey>,
    /// The batch that closed the run before, where that one continued as this run.
    pub carrier: Option<BatchKey>,
}
