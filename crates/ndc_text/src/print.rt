// From a batch to its text.
ghost use Rattle.std.specs.Prelude.{◌≡◌, IfOk, List, ℕ, map};
ghost use Rattle.serde_json.specs.Data.{Members, Data, string, array, put as with_member};
ghost use Rattle.serde_json.specs.View.{view, members_view, items_of};
ghost use Rattle.serde_json.specs.Written.{has_float};
ghost use Rattle.ndc_event.specs.Key.{run_text};
ghost use Rattle.ndc_text.specs.Text.{num, key_data, origin_data, with_origin, with_attributes, event_data, parent_data, with_carrier, batch_data, batch_text};

use ndc_event::{Batch, BatchKey, Event, EventKind, Name, Origin, OutOfMemory, Rare, RunId};
use serde_json::{Map, Value};
use std::alloc::Global;

type Members = Map<String, Value>;

/// Puts a number under the key.
fn put_number(members: &mut Members, alloc: Global, key: &str, n: u64) -> Result<(), OutOfMemory>
    ensures { IfOk result (λ _. members_view members.new.entries
        ≡ with_member key.now (num n) (members_view members.old.entries)) }
{
    serde_json::put(members, alloc, key, Value::from(n))
}

/// Puts a text under the key.
fn put_text(members: &mut Members, alloc: Global, key: &str, text: &str) -> Result<(), OutOfMemory>
    ensures { IfOk result (λ _. members_view members.new.entries
        ≡ with_member key.now (string text.now) (members_view members.old.entries)) }
{
    let text = Value::try_from_str(alloc, text)?;
    serde_json::put(members, alloc, key, text)
}

/// Puts the text of a run's id under the key.
fn put_run(members: &mut Members, alloc: Global, key: &str, run: RunId) -> Result<(), OutOfMemory>
    ensures { IfOk result (λ _. members_view members.new.entries
        ≡ with_member key.now (string (run_text run)) (members_view members.old.entries)) }
{
    let text = Value::from(run.text(alloc)?);
    serde_json::put(members, alloc, key, text)
}

/// A key of a batch as an object.
fn key_value(alloc: Global, key: BatchKey) -> Result<Value, OutOfMemory>
    ensures { IfOk result (λ v. view v ≡ key_data key) }
{
    let mut members = Map::new(alloc);
    put_number(&mut members, alloc, "version", key.version)?;
    put_number(&mut members, alloc, "task", key.task)?;
    Ok(Value::Object(members))
}

/// An origin as an object.
fn origin_value(alloc: Global, origin: Origin) -> Result<Value, OutOfMemory>
    ensures { IfOk result (λ v. view v ≡ origin_data origin) }
{
    let mut members = Map::new(alloc);
    put_number(&mut members, alloc, "version", origin.version)?;
    put_run(&mut members, alloc, "run", origin.run)?;
    put_number(&mut members, alloc, "event", origin.event)?;
    Ok(Value::Object(members))
}

/// Puts the origin, where there is one.
fn put_origin(
    members: &mut Members,
    alloc: Global,
    origin: &Rare<Origin>,
) -> Result<(), OutOfMemory>
    ensures { IfOk result (λ _. members_view members.new.entries
        ≡ with_origin origin.now (members_view members.old.entries)) }
{
    match origin.as_ref() {
        Some(origin) => {
            let value = origin_value(alloc, *origin)?;
            serde_json::put(members, alloc, "origin", value)
        }
        None => Ok(()),
    }
}

/// Puts one attribute that is a name.
fn put_name(members: &mut Members, alloc: Global, key: &str, name: &Name) -> Result<(), OutOfMemory>
    ensures { IfOk result (λ _. members_view members.new.entries
        ≡ with_member key.now (string name.now) (members_view members.old.entries)) }
{
    put_text(members, alloc, key, name.as_str())
}

/// Puts the attributes of a kind.
#[tactic(auto, unfolding(crate::specs::Text::with_attributes))]
fn put_attributes(members: &mut Members, alloc: Global, kind: &EventKind) -> Result<(), OutOfMemory>
    ensures { IfOk result (λ _. members_view members.new.entries
        ≡ with_attributes kind.now (members_view members.old.entries)) }
{
    match kind {
        EventKind::WorkflowExecutionStarted { workflow_type } => {
            put_name(members, alloc, "workflowType", workflow_type)
        }
        EventKind::WorkflowExecutionSignaled {
            signal_name,
            input,
            origin,
        } => {
            put_origin(members, alloc, origin)?;
            put_name(members, alloc, "input", input)?;
            put_name(members, alloc, "signalName", signal_name)
        }
        EventKind::WorkflowExecutionCancelRequested => Ok(()),
        EventKind::WorkflowExecutionCompleted { result } => {
            put_name(members, alloc, "result", result)
        }
        EventKind::WorkflowExecutionFailed { reason } => {
            put_name(members, alloc, "reason", reason)
        }
        EventKind::WorkflowExecutionCanceled => Ok(()),
        EventKind::WorkflowExecutionTerminated { reason } => {
            put_name(members, alloc, "reason", reason)
        }
        EventKind::WorkflowExecutionContinuedAsNew {
            new_execution_run_id,
            workflow_type,
        } => {
            put_name(members, alloc, "workflowType", workflow_type)?;
            put_run(members, alloc, "newExecutionRunId", *new_execution_run_id)
        }
        EventKind::DecisionTaskScheduled => Ok(()),
        EventKind::DecisionTaskStarted => Ok(()),
        EventKind::DecisionTaskCompleted => Ok(()),
        EventKind::DecisionTaskFailed { cause } => { put_name(members, alloc, "cause", cause) }
        EventKind::DecisionTaskTimedOut => Ok(()),
        EventKind::ActivityTaskScheduled {
            activity_id,
            activity_type,
        } => {
            put_name(members, alloc, "activityType", activity_type)?;
            put_name(members, alloc, "activityId", activity_id)
        }
        EventKind::ActivityTaskStarted { activity_id } => {
            put_name(members, alloc, "activityId", activity_id)
        }
        EventKind::ActivityTaskCompleted {
            activity_id,
            result,
        } => {
            put_name(members, alloc, "result", result)?;
            put_name(members, alloc, "activityId", activity_id)
        }
        EventKind::ActivityTaskFailed {
            activity_id,
            reason,
        } => {
            put_name(members, alloc, "reason", reason)?;
            put_name(members, alloc, "activityId", activity_id)
        }
        EventKind::ActivityTaskTimedOut { activity_id } => {
            put_name(members, alloc, "activityId", activity_id)
        }
        EventKind::TimerStarted { timer_id } => { put_name(members, alloc, "timerId", timer_id) }
        EventKind::TimerFired { timer_id } => { put_name(members, alloc, "timerId", timer_id) }
        EventKind::TimerCanceled { timer_id } => { put_name(members, alloc, "timerId", timer_id) }
        EventKind::StartChildWorkflowExecutionInitiated {
            workflow_id,
            workflow_type,
        } => {
            put_name(members, alloc, "workflowType", workflow_type)?;
            put_name(members, alloc, "workflowId", workflow_id)
        }
        EventKind::ChildWorkflowExecutionStarted { workflow_id } => {
            put_name(members, alloc, "workflowId", workflow_id)
        }
        EventKind::ChildWorkflowExecutionCompleted {
            workflow_id,
            result,
        } => {
            put_name(members, alloc, "result", result)?;
            put_name(members, alloc, "workflowId", workflow_id)
        }
        EventKind::ChildWorkflowExecutionFailed {
            workflow_id,
            reason,
        } => {
            put_name(members, alloc, "reason", reason)?;
            put_name(members, alloc, "workflowId", workflow_id)
        }
        EventKind::MarkerRecorded { marker_name } => {
            put_name(members, alloc, "markerName", marker_name)
        }
    }
}

/// An event as an object.
fn event_value(alloc: Global, event: &Event) -> Result<Value, OutOfMemory>
    ensures { IfOk result (λ v. view v ≡ event_data event.now) }
{
    let mut members = Map::new(alloc);
    put_number(&mut members, alloc, "version", event.version)?;
    put_text(&mut members, alloc, "eventType", event.kind.name())?;
    put_number(&mut members, alloc, "eventId", event.id)?;
    put_attributes(&mut members, alloc, &event.kind)?;
    Ok(Value::Object(members))
}

/// The events as an array.
fn events_value(alloc: Global, events: &[Event]) -> Result<Value, OutOfMemory>
    ensures { IfOk result (λ v. view v ≡ array (items_of (map event_data events.now))) }
{
    let mut list = Vec::with_capacity(alloc, events.len())?;
    for event in events {
        list.push(event_value(alloc, event)?)?;
    }
    Ok(Value::Array(list))
}

/// The parent's key as an object, or null.
fn parent_value(alloc: Global, parent: Option<BatchKey>) -> Result<Value, OutOfMemory>
    ensures { IfOk result (λ v. view v ≡ parent_data parent) }
{
    match parent {
        Some(key) => key_value(alloc, key),
        None => Ok(Value::Null),
    }
}

/// Puts the carrier's key, where there is one.
fn put_carrier(
    members: &mut Members,
    alloc: Global,
    carrier: Option<BatchKey>,
) -> Result<(), OutOfMemory>
    ensures { IfOk result (λ _. members_view members.new.entries
        ≡ with_carrier carrier (members_view members.old.entries)) }
{
    match carrier {
        Some(key) => {
            let value = key_value(alloc, key)?;
            serde_json::put(members, alloc, "carrier", value)
        }
        None => Ok(()),
    }
}

/// A batch as an object.
fn batch_value(alloc: Global, batch: &Batch) -> Result<Value, OutOfMemory>
    ensures { IfOk result (λ v. view v ≡ batch_data batch.now) }
{
    let mut members = Map::new(alloc);
    put_name(&mut members, alloc, "workflow", &batch.workflow)?;
    put_number(&mut members, alloc, "version", batch.key.version)?;
    put_number(&mut members, alloc, "task", batch.key.task)?;
    put_run(&mut members, alloc, "run", batch.run)?;
    let parent = parent_value(alloc, batch.parent)?;
    serde_json::put(&mut members, alloc, "parent", parent)?;
    let events = events_value(alloc, batch.events.as_slice())?;
    serde_json::put(&mut members, alloc, "events", events)?;
    put_name(&mut members, alloc, "domain", &batch.domain)?;
    put_carrier(&mut members, alloc, batch.carrier)?;
    Ok(Value::Object(members))
}

/// The text of a batch: one JSON object without spaces and without a line end, the keys of each object
/// ascending. The key `carrier` stands there exactly where the batch has a carrier.
#[tactic(auto, unfolding(crate::specs::Text::batch_text), using(crate::proofs::Floats::batch_floats))]
pub fn print_batch(alloc: Global, batch: &Batch) -> Result<Vec<u8>, OutOfMemory>
    ensures { IfOk result (λ bytes. bytes.items ≡ batch_text batch.now) }
{
    batch_value(alloc, batch)?.to_vec(alloc)
}
