//! The names that events carry.
ghost use Rattle.std.specs.Prelude.{◌≡◌, [], unwrap_or};
ghost use Rattle.std.specs.Option.{option_copied};
ghost use Rattle.ndc_event.specs.Attributes.{first_name as first_of, second_name as second_of};
ghost use Rattle.ndc_explain_sides.specs.Subjects.{id_of};

use crate::subject::sort_of;
use ndc_event::{EventKind, Name};

/// The first attribute of a kind that is a name.
#[tactic(auto, unfolding(ndc_event::specs::Attributes::first_name))]
fn first_of(kind: &EventKind) -> Option<&Name>
    ensures { option_copied result ≡ first_of kind.now }
{
    match kind {
        EventKind::WorkflowExecutionStarted { workflow_type } => Some(workflow_type),
        EventKind::WorkflowExecutionSignaled { signal_name, .. } => Some(signal_name),
        EventKind::WorkflowExecutionCompleted { result } => Some(result),
        EventKind::WorkflowExecutionFailed { reason } => Some(reason),
        EventKind::WorkflowExecutionTerminated { reason } => Some(reason),
        EventKind::WorkflowExecutionContinuedAsNew { workflow_type, .. } => Some(workflow_type),
        EventKind::DecisionTaskFailed { cause } => Some(cause),
        EventKind::ActivityTaskScheduled { activity_id, .. } => Some(activity_id),
        EventKind::ActivityTaskStarted { activity_id } => Some(activity_id),
        EventKind::ActivityTaskCompleted { activity_id, .. } => Some(activity_id),
        EventKind::ActivityTaskFailed { activity_id, .. } => Some(activity_id),
        EventKind::ActivityTaskTimedOut { activity_id } => Some(activity_id),
        EventKind::TimerStarted { timer_id } => Some(timer_id),
        EventKind::TimerFired { timer_id } => Some(timer_id),
        EventKind::TimerCanceled { timer_id } => Some(timer_id),
        EventKind::StartChildWorkflowExecutionInitiated { workflow_id, .. } => Some(workflow_id),
        EventKind::ChildWorkflowExecutionStarted { workflow_id } => Some(workflow_id),
        EventKind::ChildWorkflowExecutionCompleted { workflow_id, .. } => Some(workflow_id),
        EventKind::ChildWorkflowExecutionFailed { workflow_id, .. } => Some(workflow_id),
        EventKind::MarkerRecorded { marker_name } => Some(marker_name),
        EventKind::WorkflowExecutionCancelRequested
        | EventKind::WorkflowExecutionCanceled
        | EventKind::DecisionTaskScheduled
        | EventKind::DecisionTaskStarted
        | EventKind::DecisionTaskCompleted
        | EventKind::DecisionTaskTimedOut => None,
    }
}

/// The second attribute of a kind that is a name.
#[tactic(auto, unfolding(ndc_event::specs::Attributes::second_name))]
fn second_of(kind: &EventKind) -> Option<&Name>
    ensures { option_copied result ≡ second_of kind.now }
{
    match kind {
        EventKind::WorkflowExecutionSignaled { input, .. } => Some(input),
        EventKind::ActivityTaskScheduled { activity_type, .. } => Some(activity_type),
        EventKind::ActivityTaskCompleted { result, .. } => Some(result),
        EventKind::ActivityTaskFailed { reason, .. } => Some(reason),
        EventKind::StartChildWorkflowExecutionInitiated { workflow_type, .. } => Some(
            workflow_type,
        ),
        EventKind::ChildWorkflowExecutionCompleted { result, .. } => Some(result),
        EventKind::ChildWorkflowExecutionFailed { reason, .. } => Some(reason),
        EventKind::WorkflowExecutionStarted { .. }
        | EventKind::WorkflowExecutionCancelRequested
        | EventKind::WorkflowExecutionCompleted { .. }
        | EventKind::WorkflowExecutionFailed { .. }
        | EventKind::WorkflowExecutionCanceled
        | EventKind::WorkflowExecutionTerminated { .. }
        | EventKind::WorkflowExecutionContinuedAsNew { .. }
        | EventKind::DecisionTaskScheduled
        | EventKind::DecisionTaskStarted
        | EventKind::DecisionTaskCompleted
        | EventKind::DecisionTaskFailed { .. }
        | EventKind::DecisionTaskTimedOut
        | EventKind::ActivityTaskStarted { .. }
        | EventKind::ActivityTaskTimedOut { .. }
        | EventKind::TimerStarted { .. }
        | EventKind::TimerFired { .. }
        | EventKind::TimerCanceled { .. }
        | EventKind::ChildWorkflowExecutionStarted { .. }
        | EventKind::MarkerRecorded { .. } => None,
    }
}

/// The bytes of a name; empty where there is none.
fn bytes_of(name: Option<&Name>) -> &[u8]
    ensures { result.now ≡ unwrap_or (option_copied name.entry) [] }
{
    match name {
        None => &[],
        Some(name) => name.as_bytes(),
    }
}

/// The first attribute of a kind that is a name: an id where it has one; empty where it has no name.
pub fn first_name(kind: &EventKind) -> &[u8]
    ensures { result.now ≡ unwrap_or (first_of kind.now) [] }
{
    bytes_of(first_of(kind))
}

/// The second attribute of a kind that is a name: a type, an input, a result or a reason; empty where it has none.
pub fn second_name(kind: &EventKind) -> &[u8]
    ensures { result.now ≡ unwrap_or (second_of kind.now) [] }
{
    bytes_of(second_of(kind))
}

/// The id of what an event of this kind is about; empty where it has none.
pub(crate) fn id_of(kind: &EventKind) -> &[u8]
    ensures { result.now ≡ id_of kind.now }
{
    if sort_of(kind).has_id() {
        first_name(kind)
    } else {
        &[]
    }
}
