ghost use Rattle.std.specs.Prelude.{◌≡◌, ◌≤◌, ◌^◌, All, IfOk, None};
ghost use Rattle.ndc_event.specs.Batch.{fault_of};

use ndc_event::{Batch, BatchKey, Name, OutOfMemory};
use ndc_history::Item;
use ndc_text::read_batch;
use std::alloc::{AllocError, Global};

/// Marks the counters of these tests.
pub(crate) struct Test;

/// The text of the first batch of a run.
const FIRST: &str =
    "{\"domain\":\"alpha\",\"events\":[{\"eventId\":1,\"eventType\":\"WorkflowExecutionStarted\",\"version\":1,\"workflowType\":\"order\"},{\"eventId\":2,\"eventType\":\"DecisionTaskScheduled\",\"version\":1}],\"parent\":null,\"run\":\"00000000-0000-0001-0000-000000000001\",\"task\":1,\"version\":1,\"workflow\":\"w1\"}";

/// The text of one with a signal, after it.
const SECOND: &str =
    "{\"domain\":\"alpha\",\"events\":[{\"eventId\":3,\"eventType\":\"WorkflowExecutionSignaled\",\"input\":\"x\",\"signalName\":\"ping\",\"version\":1}],\"parent\":{\"task\":1,\"version\":1},\"run\":\"00000000-0000-0001-0000-000000000001\",\"task\":2,\"version\":1,\"workflow\":\"w1\"}";

/// The text of another one, of a greater version.
const OTHER: &str =
    "{\"domain\":\"alpha\",\"events\":[{\"eventId\":3,\"eventType\":\"WorkflowExecutionSignaled\",\"input\":\"y\",\"signalName\":\"pong\",\"version\":2}],\"parent\":{\"task\":1,\"version\":1},\"run\":\"00000000-0000-0001-0000-000000000001\",\"task\":2,\"version\":2,\"workflow\":\"w1\"}";

/// The batch of a text, where its ids are small.
pub(crate) fn batch(alloc: Global, text: &str) -> Result<Batch, OutOfMemory>
    ensures faultless { IfOk result (λ batch. fault_of batch ≡ None) }
    ensures ids { IfOk result (λ batch. All (λ event. event.id ≤ 10 ^ 12) batch.events) }
{
    let batch = read_batch(alloc, text.as_bytes()).map_err(|_| AllocError)?;
    let is_small = batch
        .events
        .as_slice()
        .iter()
        .all(|event| event.id <= 1_000_000_000_000);
    if is_small { Ok(batch) } else { Err(AllocError) }
}

/// The batches of a run that forks: the third goes on after the first. They are let go in one place.
pub(crate) struct ForkedRun {
    pub first: Batch,
    pub second: Batch,
    pub other: Batch,
}

impl Drop for ForkedRun {
    fn drop(self) {
        let ForkedRun {
            first: _first,
            second: _second,
            other: _other,
        } = self;
    }
}

/// The batches of a run that forks, without a fault and with small ids.
pub(crate) fn forked(alloc: Global) -> Result<ForkedRun, OutOfMemory>
    ensures faultless { IfOk result (λ forked. (fault_of forked.first ≡ None) × (fault_of forked.second ≡ None) × (fault_of forked.other ≡ None)) }
    ensures ids { IfOk result (λ forked. All (λ event. event.id ≤ 10 ^ 12) forked.first.events × All (λ event. event.id ≤ 10 ^ 12) forked.second.events × All (λ event. event.id ≤ 10 ^ 12) forked.other.events) }
{
    Ok(ForkedRun {
        first: batch(alloc, FIRST)?,
        second: batch(alloc, SECOND)?,
        other: batch(alloc, OTHER)?,
    })
}

/// A name.
pub(crate) fn name(alloc: Global, text: &str) -> Result<Name, OutOfMemory> {
    Name::new(alloc, text.as_bytes()).map_err(|_| AllocError)
}

/// A key.
pub(crate) fn key(version: u64, task: u64) -> BatchKey {
    BatchKey { version, task }
}

/// An item of a version history.
pub(crate) fn item(id: u64, version: u64) -> Item {
    Item { id, version }
}
