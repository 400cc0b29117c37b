use crate::serving::Gap;
use ndc_event::{BatchKey, Name, RunId};

/// A batch that is put off, and what it waits for.
#[derive(Drop)]
pub struct GapOf {
    /// The domain of the workflow.
    pub domain: Name,
    /// The workflow.
    pub workflow: Name,
    /// The run of the batch that is put off.
    pub run: RunId,
    /// The key of the batch that is put off.
    pub key: BatchKey,
    /// What lies between what is learned of its run and its first event.
    pub gap: Gap,
    /// The key of its nearest ancestor that has not arrived.
    pub missing: BatchKey,
}
