// Whether the numbers of a batch are in range.
ghost use Rattle.std.specs.Prelude.{◌≡◌};
ghost use Rattle.std.specs.List.{list_all};
ghost use Rattle.std.specs.Option.{option_copied};
ghost use Rattle.ndc_event.specs.Name.{is_name};
ghost use Rattle.ndc_text.specs.Ranges.{is_id, is_run, is_version};
ghost use Rattle.ndc_admission.specs.Numbers.{event_fits, is_in_range, key_fits, kind_fits, option_key_fits, origin_fits};

use ndc_event::{Batch, BatchKey, Event, EventKind, Name, Origin, RunId};

/// The greatest event id, and the greatest task of a batch's text.
const MAX_ID: u64 = 1_000_000_000_000;

/// The greatest version.
const MAX_VERSION: u64 = 10_000_000_000_000;

/// Whether the numbers of a batch are in the ranges of a batch's text: event ids and tasks 1 to 10^12, versions at
/// most 10^13, and each run's id such a version above 64 bits with such a task. So it is for its own key and run, its
/// parent, its carrier, each event, each origin of a copied signal, and each run that an event goes on as.
#[tactic(auto, unfolding(crate::specs::Numbers::is_in_range))]
pub fn is_in_range(batch: &Batch) -> bool
    ensures { result ≡ is_in_range batch.now }
{
    is_name(&batch.domain)
        && is_name(&batch.workflow)
        && is_run(batch.run)
        && key_fits(batch.key)
        && option_key_fits(batch.parent)
        && option_key_fits(batch.carrier)
        && events_fit(batch.events.as_slice())
}

/// Whether the bytes of a name are a name: those of every `Name` are, so there is nothing to look at.
fn is_name(name: &Name) -> bool
    ensures { result ≡ is_name name.now }
{
    let _bytes = name.as_bytes();
    true
}

/// Whether the number may be an event's id or a task.
fn is_id(number: u64) -> bool
    ensures { result ≡ is_id number }
{
    1 <= number && number <= MAX_ID
}

/// Whether the number may be a version.
fn is_version(number: u64) -> bool
    ensures { result ≡ is_version number }
{
    number <= MAX_VERSION
}

/// Whether a run's id is a version above 64 bits with a task.
fn is_run(run: RunId) -> bool
    ensures { result ≡ is_run run.value }
{
    let version = run.value / (1 << 64);
    let task = run.value % (1 << 64);
    version <= u128::from(MAX_VERSION) && 1 <= task && task <= u128::from(MAX_ID)
}

/// Whether the numbers of a key are in range.
fn key_fits(key: BatchKey) -> bool
    ensures { result ≡ key_fits key }
{
    is_id(key.task) && is_version(key.version)
}

/// Whether those of a key are, where there is one.
fn option_key_fits(key: Option<BatchKey>) -> bool
    ensures { result ≡ option_key_fits key }
{
    match key {
        None => true,
        Some(key) => key_fits(key),
    }
}

/// Whether the numbers of an origin are in range, where there is one.
fn origin_fits(origin: Option<&Origin>) -> bool
    ensures { result ≡ origin_fits (option_copied origin.entry) }
{
    match origin {
        None => true,
        Some(origin) => is_id(origin.event) && is_run(origin.run) && is_version(origin.version),
    }
}

/// Whether the numbers in the attributes of a kind are in range.
#[tactic(auto, unfolding(crate::specs::Numbers::kind_fits))]
fn kind_fits(kind: &EventKind) -> bool
    ensures { result ≡ kind_fits kind.now }
{
    match kind {
        EventKind::WorkflowExecutionStarted { workflow_type } => is_name(workflow_type),
        EventKind::WorkflowExecutionSignaled {
            signal_name,
            input,
            origin,
        } => is_name(signal_name) && is_name(input) && origin_fits(origin.as_ref()),
        EventKind::WorkflowExecutionCancelRequested => true,
        EventKind::WorkflowExecutionCompleted { result: outcome } => is_name(outcome),
        EventKind::WorkflowExecutionFailed { reason } => is_name(reason),
        EventKind::WorkflowExecutionCanceled => true,
        EventKind::WorkflowExecutionTerminated { reason } => is_name(reason),
        EventKind::WorkflowExecutionContinuedAsNew {
            new_execution_run_id,
            workflow_type,
        } => is_run(*new_execution_run_id) && is_name(workflow_type),
        EventKind::DecisionTaskScheduled => true,
        EventKind::DecisionTaskStarted => true,
        EventKind::DecisionTaskCompleted => true,
        EventKind::DecisionTaskFailed { cause } => is_name(cause),
        EventKind::DecisionTaskTimedOut => true,
        EventKind::ActivityTaskScheduled {
            activity_id,
            activity_type,
        } => is_name(activity_id) && is_name(activity_type),
        EventKind::ActivityTaskStarted { activity_id } => is_name(activity_id),
        EventKind::ActivityTaskCompleted {
            activity_id,
            result: outcome,
        } => is_name(activity_id) && is_name(outcome),
        EventKind::ActivityTaskFailed {
            activity_id,
            reason,
        } => is_name(activity_id) && is_name(reason),
        EventKind::ActivityTaskTimedOut { activity_id } => is_name(activity_id),
        EventKind::TimerStarted { timer_id } => is_name(timer_id),
        EventKind::TimerFired { timer_id } => is_name(timer_id),
        EventKind::TimerCanceled { timer_id } => is_name(timer_id),
        EventKind::StartChildWorkflowExecutionInitiated {
            workflow_id,
            workflow_type,
        } => is_name(workflow_id) && is_name(workflow_type),
        EventKind::ChildWorkflowExecutionStarted { workflow_id } => is_name(workflow_id),
        EventKind::ChildWorkflowExecutionCompleted {
            workflow_id,
            result: outcome,
        } => is_name(workflow_id) && is_name(outcome),
        EventKind::ChildWorkflowExecutionFailed {
            workflow_id,
            reason,
        } => is_name(workflow_id) && is_name(reason),
        EventKind::MarkerRecorded { marker_name } => is_name(marker_name),
    }
}

/// Whether the numbers of an event are in range.
fn event_fits(event: &Event) -> bool
    ensures { result ≡ event_fits event.now }
{
    is_id(event.id) && is_version(event.version) && kind_fits(&event.kind)
}

/// Whether those of each event are.
fn events_fit(events: &[Event]) -> bool
    ensures { result ≡ list_all event_fits events.now }
{
    events.iter().all(|event| event_fits(event))
}
