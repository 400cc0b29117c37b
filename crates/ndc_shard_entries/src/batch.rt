ghost use Rattle.std.specs.Prelude.{◌≡◌, ◌≤◌, ◌<◌, ◌+◌, ◌^◌, [], ◌∷◌, IfOk, length};
ghost use Rattle.std.specs.Option.{option_copied};
ghost use Rattle.ndc_model_cells.specs.Writing.{batch_below, carried_by, first_batch, goes_on_as, key_behind};
ghost use Rattle.ndc_command.specs.Plan.{beginning};

use crate::events::events_from;
use crate::tip::Tip;
use ndc_event::{Batch, BatchKey, EventKind, Events, Name, OutOfMemory, RunId};
use std::alloc::Global;

/// The key after another.
pub(crate) fn key_behind(key: BatchKey) -> BatchKey
    requires { key.task ≤ 2 ^ 60 }
    ensures { result ≡ key_behind key }
{
    BatchKey {
        version: key.version,
        task: key.task + 1,
    }
}

/// The first batch of a run: it names its carrier, where it is carried.
pub(crate) fn first_batch(
    alloc: Global,
    domain: &Name,
    workflow: &Name,
    key: BatchKey,
    carrier: Option<BatchKey>,
    kinds: Vec<EventKind>,
) -> Result<Batch, OutOfMemory>
    ensures { IfOk result (λ batch.
        batch ≡ first_batch domain.now workflow.now key carrier kinds.items) }
{
    let events = events_from(alloc, 1, key.version, kinds)?;
    Ok(Batch {
        domain: domain.try_copy()?,
        workflow: workflow.try_copy()?,
        run: RunId::of(key),
        key,
        parent: None,
        carrier,
        events: Events::shared(alloc, events)?,
    })
}

/// A batch below a tip.
pub(crate) fn batch_below(
    alloc: Global,
    domain: &Name,
    workflow: &Name,
    key: BatchKey,
    tip: &Tip<'_>,
    kinds: Vec<EventKind>,
) -> Result<Batch, OutOfMemory>
    requires { tip.now.state.now.next + length kinds.items ≤ 2 ^ 64 }
    ensures { IfOk result (λ batch.
        batch ≡ batch_below domain.now workflow.now key tip.now.batch.now tip.now.state.now
        kinds.items) }
{
    let events = events_from(alloc, tip.state.next(), key.version, kinds)?;
    Ok(Batch {
        domain: domain.try_copy()?,
        workflow: workflow.try_copy()?,
        run: tip.batch.run,
        key,
        parent: Some(tip.batch.key),
        carrier: None,
        events: Events::shared(alloc, events)?,
    })
}

/// The batch that a closing batch of these kinds carries: the first of the run that goes on.
pub(crate) fn carried_by(
    alloc: Global,
    domain: &Name,
    workflow: &Name,
    key: BatchKey,
    kinds: &[EventKind],
) -> Result<Option<Batch>, OutOfMemory>
    requires { key.task ≤ 2 ^ 60 }
    ensures { IfOk result (λ second.
        second ≡ carried_by domain.now workflow.now key (goes_on_as kinds.now)) }
{
    match goes_on_as(kinds) {
        None => Ok(None),
        Some(workflow_type) => {
            let kinds = beginning(alloc, workflow_type)?;
            let batch = first_batch(alloc, domain, workflow, key_behind(key), Some(key), kinds)?;
            Ok(Some(batch))
        }
    }
}

/// What a run begins with.
fn beginning(alloc: Global, workflow_type: &Name) -> Result<Vec<EventKind>, OutOfMemory>
    ensures { IfOk result (λ kinds. kinds.items ≡ beginning workflow_type.now) }
{
    let mut kinds = Vec::with_capacity(alloc, 2)?;
    kinds.push(EventKind::WorkflowExecutionStarted {
        workflow_type: workflow_type.try_copy()?,
    })?;
    kinds.push(EventKind::DecisionTaskScheduled)?;
    Ok(kinds)
}

/// The type with which the last of the kinds goes on as a new run, where it does.
fn goes_on_as(kinds: &[EventKind]) -> Option<&Name>
    ensures { option_copied result ≡ goes_on_as kinds.now }
{
    match kinds.last() {
        None => None,
        Some(kind) => continued_type(kind),
    }
}

/// The type with which the kind goes on as a new run, where it does.
fn continued_type(kind: &EventKind) -> Option<&Name>
    ensures { option_copied result ≡ goes_on_as (kind.now ∷ []) }
{
    match kind {
        EventKind::WorkflowExecutionContinuedAsNew { workflow_type, .. } => Some(workflow_type),
        _ => None,
    }
}
