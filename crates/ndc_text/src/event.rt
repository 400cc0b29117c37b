// From an object of JSON to an event.
ghost use Rattle.std.specs.Prelude.{◌≡◌, option_map};
ghost use Rattle.serde_json.specs.View.{view};
ghost use Rattle.ndc_event.specs.Outcome.{Gives};
ghost use Rattle.ndc_text.specs.Walk.{key_at, key_from, origin_at, origin_from, kind_at, tag_at, event_of, event_at};
ghost use Rattle.ndc_text.specs.declared.error.TextError.TheVariants.{Memory};

use crate::error::TextError;
use crate::member::{
    id_in, name_at, number_at, object_in, optional_at, run_in, run_text_at, shaped, text_at,
    texts_at, version_in,
};
use crate::tag::{KindTag, tag_of};
use ndc_event::{BatchKey, Event, EventKind, Origin, Rare};
use serde_json::Value;
use std::alloc::Global;

/// The keys that each event has.
const EVENT_KEYS: &[&str] = &["eventId", "eventType", "version"];

/// A carrier or a parent.
#[tactic(auto, unfolding(crate::specs::Walk::key_at))]
pub fn key_at(value: &Value) -> Result<BatchKey, TextError>
    ensures { Gives Memory (λ key. key) result (key_at (view value.now)) }
{
    shaped(value, &["task", "version"], &[], &[])?;
    let task = number_at(value, "task")?;
    let version = number_at(value, "version")?;
    let task = id_in(task)?;
    let version = version_in(version)?;
    Ok(BatchKey { version, task })
}

/// One, where it is there.
pub fn key_from(value: Option<&Value>) -> Result<Option<BatchKey>, TextError>
    ensures { Gives Memory (λ key.
        key) result (key_from (option_map (λ v. view v.now) value.entry)) }
{
    match value {
        Some(value) => Ok(Some(key_at(value)?)),
        None => Ok(None),
    }
}

/// An origin.
#[tactic(auto, unfolding(crate::specs::Walk::origin_at))]
fn origin_at(value: &Value) -> Result<Origin, TextError>
    ensures { Gives Memory (λ origin. origin) result (origin_at (view value.now)) }
{
    shaped(value, &["event", "run", "version"], &[], &[])?;
    let event = number_at(value, "event")?;
    let run = text_at(value, "run")?;
    let version = number_at(value, "version")?;
    let event = id_in(event)?;
    let run = run_in(run)?;
    let version = version_in(version)?;
    Ok(Origin {
        run,
        event,
        version,
    })
}

/// One, where it is there.
fn origin_from(value: Option<&Value>) -> Result<Option<Origin>, TextError>
    ensures { Gives Memory (λ origin. origin) result
        (origin_from (option_map (λ v. view v.now) value.entry)) }
{
    match value {
        Some(value) => Ok(Some(origin_at(value)?)),
        None => Ok(None),
    }
}

/// The attributes of a kind: their ranges, and then the origin as an object of its own.
#[tactic(auto, unfolding(crate::specs::Walk::kind_at))]
fn kind_at(
    alloc: Global,
    tag: KindTag,
    origin: Option<&Value>,
    value: &Value,
) -> Result<EventKind, TextError>
    ensures { Gives Memory (λ kind. kind) result
        (kind_at tag (option_map (λ v. view v.now) origin.entry) (view value.now)) }
{
    match tag {
        KindTag::WorkflowExecutionStarted => {
            let workflow_type = name_at(alloc, value, "workflowType")?;
            Ok(EventKind::WorkflowExecutionStarted { workflow_type })
        }
        KindTag::WorkflowExecutionSignaled => {
            let signal_name = name_at(alloc, value, "signalName")?;
            let input = name_at(alloc, value, "input")?;
            let origin = Rare::of(alloc, origin_from(origin)?)?;
            Ok(EventKind::WorkflowExecutionSignaled {
                signal_name,
                input,
                origin,
            })
        }
        KindTag::WorkflowExecutionCancelRequested => Ok(
            EventKind::WorkflowExecutionCancelRequested,
        ),
        KindTag::WorkflowExecutionCompleted => {
            let result = name_at(alloc, value, "result")?;
            Ok(EventKind::WorkflowExecutionCompleted { result })
        }
        KindTag::WorkflowExecutionFailed => {
            let reason = name_at(alloc, value, "reason")?;
            Ok(EventKind::WorkflowExecutionFailed { reason })
        }
        KindTag::WorkflowExecutionCanceled => Ok(EventKind::WorkflowExecutionCanceled),
        KindTag::WorkflowExecutionTerminated => {
            let reason = name_at(alloc, value, "reason")?;
            Ok(EventKind::WorkflowExecutionTerminated { reason })
        }
        KindTag::WorkflowExecutionContinuedAsNew => {
            let new_execution_run_id = run_text_at(value, "newExecutionRunId")?;
            let workflow_type = name_at(alloc, value, "workflowType")?;
            Ok(EventKind::WorkflowExecutionContinuedAsNew {
                new_execution_run_id,
                workflow_type,
            })
        }
        KindTag::DecisionTaskScheduled => Ok(EventKind::DecisionTaskScheduled),
        KindTag::DecisionTaskStarted => Ok(EventKind::DecisionTaskStarted),
        KindTag::DecisionTaskCompleted => Ok(EventKind::DecisionTaskCompleted),
        KindTag::DecisionTaskFailed => {
            let cause = name_at(alloc, value, "cause")?;
            Ok(EventKind::DecisionTaskFailed { cause })
        }
        KindTag::DecisionTaskTimedOut => Ok(EventKind::DecisionTaskTimedOut),
        KindTag::ActivityTaskScheduled => {
            let activity_id = name_at(alloc, value, "activityId")?;
            let activity_type = name_at(alloc, value, "activityType")?;
            Ok(EventKind::ActivityTaskScheduled {
                activity_id,
                activity_type,
            })
        }
        KindTag::ActivityTaskStarted => {
            let activity_id = name_at(alloc, value, "activityId")?;
            Ok(EventKind::ActivityTaskStarted { activity_id })
        }
        KindTag::ActivityTaskCompleted => {
            let activity_id = name_at(alloc, value, "activityId")?;
            let result = name_at(alloc, value, "result")?;
            Ok(EventKind::ActivityTaskCompleted {
                activity_id,
                result,
            })
        }
        KindTag::ActivityTaskFailed => {
            let activity_id = name_at(alloc, value, "activityId")?;
            let reason = name_at(alloc, value, "reason")?;
            Ok(EventKind::ActivityTaskFailed {
                activity_id,
                reason,
            })
        }
        KindTag::ActivityTaskTimedOut => {
            let activity_id = name_at(alloc, value, "activityId")?;
            Ok(EventKind::ActivityTaskTimedOut { activity_id })
        }
        KindTag::TimerStarted => {
            let timer_id = name_at(alloc, value, "timerId")?;
            Ok(EventKind::TimerStarted { timer_id })
        }
        KindTag::TimerFired => {
            let timer_id = name_at(alloc, value, "timerId")?;
            Ok(EventKind::TimerFired { timer_id })
        }
        KindTag::TimerCanceled => {
            let timer_id = name_at(alloc, value, "timerId")?;
            Ok(EventKind::TimerCanceled { timer_id })
        }
        KindTag::StartChildWorkflowExecutionInitiated => {
            let workflow_id = name_at(alloc, value, "workflowId")?;
            let workflow_type = name_at(alloc, value, "workflowType")?;
            Ok(EventKind::StartChildWorkflowExecutionInitiated {
                workflow_id,
                workflow_type,
            })
        }
        KindTag::ChildWorkflowExecutionStarted => {
            let workflow_id = name_at(alloc, value, "workflowId")?;
            Ok(EventKind::ChildWorkflowExecutionStarted { workflow_id })
        }
        KindTag::ChildWorkflowExecutionCompleted => {
            let workflow_id = name_at(alloc, value, "workflowId")?;
            let result = name_at(alloc, value, "result")?;
            Ok(EventKind::ChildWorkflowExecutionCompleted {
                workflow_id,
                result,
            })
        }
        KindTag::ChildWorkflowExecutionFailed => {
            let workflow_id = name_at(alloc, value, "workflowId")?;
            let reason = name_at(alloc, value, "reason")?;
            Ok(EventKind::ChildWorkflowExecutionFailed {
                workflow_id,
                reason,
            })
        }
        KindTag::MarkerRecorded => {
            let marker_name = name_at(alloc, value, "markerName")?;
            Ok(EventKind::MarkerRecorded { marker_name })
        }
    }
}

/// The kind of an event: it is tested before all else in the object.
fn tag_at(value: &Value) -> Result<KindTag, TextError>
    ensures { Gives Memory (λ tag. tag) result (tag_at (view value.now)) }
{
    object_in(value)?;
    let Some(member) = value.get("eventType") else {
        return Err(TextError::MissingKey);
    };
    let Some(text) = member.as_str() else {
        return Err(TextError::WrongKind);
    };
    match tag_of(text) {
        Some(tag) => Ok(tag),
        None => Err(TextError::Range),
    }
}

/// An event whose kind is known.
#[tactic(auto, unfolding(crate::specs::Walk::event_of))]
fn event_of(alloc: Global, tag: KindTag, value: &Value) -> Result<Event, TextError>
    ensures { Gives Memory (λ event. event) result (event_of tag (view value.now)) }
{
    shaped(value, EVENT_KEYS, tag.attribute_keys(), tag.optional_keys())?;
    let id = number_at(value, "eventId")?;
    let version = number_at(value, "version")?;
    texts_at(value, tag.attribute_keys())?;
    let origin = optional_at(value, "origin")?;
    let id = id_in(id)?;
    let version = version_in(version)?;
    let kind = kind_at(alloc, tag, origin, value)?;
    Ok(Event { id, version, kind })
}

/// An event.
pub fn event_at(alloc: Global, value: &Value) -> Result<Event, TextError>
    ensures { Gives Memory (λ event. event) result (event_at (view value.now)) }
{
    let tag = tag_at(value)?;
    event_of(alloc, tag, value)
}
