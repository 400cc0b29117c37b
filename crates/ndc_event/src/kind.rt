ghost use Rattle.std.specs.Prelude.{◌≡◌, ◌↔◌, IsTrue};
ghost use Rattle.std.specs.Option.{option_copied};

use crate::OutOfMemory;
use crate::key::{Origin, RunId};
use crate::name::Name;
use crate::rare::Rare;

/// What happened in an event, with its attributes.
#[derive(Clone, Debug, Drop)]
pub enum EventKind {
    /// A run of this type began.
    WorkflowExecutionStarted {
        workflow_type: Name,
    },
    /// A copy names the origin that it repeats; an original has none.
    WorkflowExecutionSignaled {
        signal_name: Name,
        input: Name,
        origin: Rare<Origin>,
    },
    /// It was asked to cancel the run, which goes on until it is closed.
    WorkflowExecutionCancelRequested,
    /// The run closed with this result.
    WorkflowExecutionCompleted {
        result: Name,
    },
    /// The run closed with this reason.
    WorkflowExecutionFailed {
        reason: Name,
    },
    /// The run closed as canceled.
    WorkflowExecutionCanceled,
    /// The run was closed from outside, with this reason.
    WorkflowExecutionTerminated {
        reason: Name,
    },
    /// The run closed, and goes on as this new run, of this type.
    WorkflowExecutionContinuedAsNew {
        new_execution_run_id: RunId,
        workflow_type: Name,
    },
    /// A decision is wanted.
    DecisionTaskScheduled,
    /// A worker began to decide.
    DecisionTaskStarted,
    /// It was decided; the events of the actions come after it.
    DecisionTaskCompleted,
    /// The decision failed, with this cause.
    DecisionTaskFailed {
        cause: Name,
    },
    /// It was not decided in time.
    DecisionTaskTimedOut,
    /// An activity of this id and type is to be done.
    ActivityTaskScheduled {
        activity_id: Name,
        activity_type: Name,
    },
    /// A worker began the activity.
    ActivityTaskStarted {
        activity_id: Name,
    },
    /// The activity was done, with this result.
    ActivityTaskCompleted {
        activity_id: Name,
        result: Name,
    },
    /// The activity failed, with this reason.
    ActivityTaskFailed {
        activity_id: Name,
        reason: Name,
    },
    /// The activity was not done in time.
    ActivityTaskTimedOut {
        activity_id: Name,
    },
    /// A timer of this id was set.
    TimerStarted {
        timer_id: Name,
    },
    /// The timer ran out.
    TimerFired {
        timer_id: Name,
    },
    /// The timer was taken back.
    TimerCanceled {
        timer_id: Name,
    },
    /// A child workflow of this id and type is to be started.
    StartChildWorkflowExecutionInitiated {
        workflow_id: Name,
        workflow_type: Name,
    },
    /// The child workflow began.
    ChildWorkflowExecutionStarted {
        workflow_id: Name,
    },
    /// The child workflow closed with this result.
    ChildWorkflowExecutionCompleted {
        workflow_id: Name,
        result: Name,
    },
    /// The child workflow closed with this reason.
    ChildWorkflowExecutionFailed {
        workflow_id: Name,
        reason: Name,
    },
    /// A decision left a marker of this name.
    MarkerRecorded {
        marker_name: Name,
    },
}

impl EventKind {
    ghost use Rattle.std.specs.Prelude.{◌≡◌, ◌↔◌, IfOk, IsTrue};
    ghost use Rattle.std.specs.Option.{option_copied};
    ghost use Rattle.ndc_event.specs.Attributes.{first_name, second_name, next_run, copied_origin};
    ghost use Rattle.ndc_event.specs.Kind.{kind_name, kind_number};

    /// The kind's name, as histories and batch texts print it.
    #[tactic(auto, unfolding(crate::specs::Kind::kind_name))]
    pub fn name(&self) -> &'static str
        ensures { result.now ≡ kind_name self.now }
    {
        match self {
            EventKind::WorkflowExecutionStarted { .. } => "WorkflowExecutionStarted",
            EventKind::WorkflowExecutionSignaled { .. } => "WorkflowExecutionSignaled",
            EventKind::WorkflowExecutionCancelRequested => "WorkflowExecutionCancelRequested",
            EventKind::WorkflowExecutionCompleted { .. } => "WorkflowExecutionCompleted",
            EventKind::WorkflowExecutionFailed { .. } => "WorkflowExecutionFailed",
            EventKind::WorkflowExecutionCanceled => "WorkflowExecutionCanceled",
            EventKind::WorkflowExecutionTerminated { .. } => "WorkflowExecutionTerminated",
            EventKind::WorkflowExecutionContinuedAsNew { .. } => "WorkflowExecutionContinuedAsNew",
            EventKind::DecisionTaskScheduled => "DecisionTaskScheduled",
            EventKind::DecisionTaskStarted => "DecisionTaskStarted",
            EventKind::DecisionTaskCompleted => "DecisionTaskCompleted",
            EventKind::DecisionTaskFailed { .. } => "DecisionTaskFailed",
            EventKind::DecisionTaskTimedOut => "DecisionTaskTimedOut",
            EventKind::ActivityTaskScheduled { .. } => "ActivityTaskScheduled",
            EventKind::ActivityTaskStarted { .. } => "ActivityTaskStarted",
            EventKind::ActivityTaskCompleted { .. } => "ActivityTaskCompleted",
            EventKind::ActivityTaskFailed { .. } => "ActivityTaskFailed",
            EventKind::ActivityTaskTimedOut { .. } => "ActivityTaskTimedOut",
            EventKind::TimerStarted { .. } => "TimerStarted",
            EventKind::TimerFired { .. } => "TimerFired",
            EventKind::TimerCanceled { .. } => "TimerCanceled",
            EventKind::StartChildWorkflowExecutionInitiated { .. } =>
                "StartChildWorkflowExecutionInitiated",
            EventKind::ChildWorkflowExecutionStarted { .. } => "ChildWorkflowExecutionStarted",
            EventKind::ChildWorkflowExecutionCompleted { .. } => "ChildWorkflowExecutionCompleted",
            EventKind::ChildWorkflowExecutionFailed { .. } => "ChildWorkflowExecutionFailed",
            EventKind::MarkerRecorded { .. } => "MarkerRecorded",
        }
    }

    /// The same kind with the same attributes.
    pub fn try_copy(&self) -> Result<EventKind, OutOfMemory>
        ensures { IfOk result (λ copy. copy ≡ self.now) }
    {
        self.clone()
    }

    /// The place of the kind among all kinds.
    #[tactic(auto, unfolding(crate::specs::Kind::kind_number))]
    fn number(&self) -> u8
        ensures { result ≡ kind_number self.now }
    {
        match self {
            EventKind::WorkflowExecutionStarted { .. } => 0,
            EventKind::WorkflowExecutionSignaled { .. } => 1,
            EventKind::WorkflowExecutionCancelRequested => 2,
            EventKind::WorkflowExecutionCompleted { .. } => 3,
            EventKind::WorkflowExecutionFailed { .. } => 4,
            EventKind::WorkflowExecutionCanceled => 5,
            EventKind::WorkflowExecutionTerminated { .. } => 6,
            EventKind::WorkflowExecutionContinuedAsNew { .. } => 7,
            EventKind::DecisionTaskScheduled => 8,
            EventKind::DecisionTaskStarted => 9,
            EventKind::DecisionTaskCompleted => 10,
            EventKind::DecisionTaskFailed { .. } => 11,
            EventKind::DecisionTaskTimedOut => 12,
            EventKind::ActivityTaskScheduled { .. } => 13,
            EventKind::ActivityTaskStarted { .. } => 14,
            EventKind::ActivityTaskCompleted { .. } => 15,
            EventKind::ActivityTaskFailed { .. } => 16,
            EventKind::ActivityTaskTimedOut { .. } => 17,
            EventKind::TimerStarted { .. } => 18,
            EventKind::TimerFired { .. } => 19,
            EventKind::TimerCanceled { .. } => 20,
            EventKind::StartChildWorkflowExecutionInitiated { .. } => 21,
            EventKind::ChildWorkflowExecutionStarted { .. } => 22,
            EventKind::ChildWorkflowExecutionCompleted { .. } => 23,
            EventKind::ChildWorkflowExecutionFailed { .. } => 24,
            EventKind::MarkerRecorded { .. } => 25,
        }
    }

    /// The first attribute that is a name.
    #[tactic(auto, unfolding(crate::specs::Attributes::first_name))]
    fn first_name(&self) -> Option<&Name>
        ensures { option_copied result ≡ first_name self.now }
    {
        match self {
            EventKind::WorkflowExecutionStarted { workflow_type } => Some(workflow_type),
            EventKind::WorkflowExecutionSignaled { signal_name, .. } => Some(signal_name),
            EventKind::WorkflowExecutionCompleted { result } => Some(result),
            EventKind::WorkflowExecutionFailed { reason } => Some(reason),
            EventKind::WorkflowExecutionTerminated { reason } => Some(reason),
            EventKind::WorkflowExecutionContinuedAsNew { workflow_type, .. } => Some(workflow_type),
            EventKind::DecisionTaskFailed { cause } => Some(cause),
            EventKind::ActivityTaskScheduled { activity_id, .. } => Some(activity_id),
            EventKind::ActivityTaskStarted { activity_id } => Some(activity_id),
            EventKind::ActivityTaskCompleted { activity_id, .. } => Some(activity_id),
            EventKind::ActivityTaskFailed { activity_id, .. } => Some(activity_id),
            EventKind::ActivityTaskTimedOut { activity_id } => Some(activity_id),
            EventKind::TimerStarted { timer_id } => Some(timer_id),
            EventKind::TimerFired { timer_id } => Some(timer_id),
            EventKind::TimerCanceled { timer_id } => Some(timer_id),
            EventKind::StartChildWorkflowExecutionInitiated { workflow_id, .. } => Some(
                workflow_id,
            ),
            EventKind::ChildWorkflowExecutionStarted { workflow_id } => Some(workflow_id),
            EventKind::ChildWorkflowExecutionCompleted { workflow_id, .. } => Some(workflow_id),
            EventKind::ChildWorkflowExecutionFailed { workflow_id, .. } => Some(workflow_id),
            EventKind::MarkerRecorded { marker_name } => Some(marker_name),
            EventKind::WorkflowExecutionCancelRequested
            | EventKind::WorkflowExecutionCanceled
            | EventKind::DecisionTaskScheduled
            | EventKind::DecisionTaskStarted
            | EventKind::DecisionTaskCompleted
            | EventKind::DecisionTaskTimedOut => None,
        }
    }

    /// The second attribute that is a name.
    #[tactic(auto, unfolding(crate::specs::Attributes::second_name))]
    fn second_name(&self) -> Option<&Name>
        ensures { option_copied result ≡ second_name self.now }
    {
        match self {
            EventKind::WorkflowExecutionSignaled { input, .. } => Some(input),
            EventKind::ActivityTaskScheduled { activity_type, .. } => Some(activity_type),
            EventKind::ActivityTaskCompleted { result, .. } => Some(result),
            EventKind::ActivityTaskFailed { reason, .. } => Some(reason),
            EventKind::StartChildWorkflowExecutionInitiated { workflow_type, .. } => Some(
                workflow_type,
            ),
            EventKind::ChildWorkflowExecutionCompleted { result, .. } => Some(result),
            EventKind::ChildWorkflowExecutionFailed { reason, .. } => Some(reason),
            EventKind::WorkflowExecutionStarted { .. }
            | EventKind::WorkflowExecutionCancelRequested
            | EventKind::WorkflowExecutionCompleted { .. }
            | EventKind::WorkflowExecutionFailed { .. }
            | EventKind::WorkflowExecutionCanceled
            | EventKind::WorkflowExecutionTerminated { .. }
            | EventKind::WorkflowExecutionContinuedAsNew { .. }
            | EventKind::DecisionTaskScheduled
            | EventKind::DecisionTaskStarted
            | EventKind::DecisionTaskCompleted
            | EventKind::DecisionTaskFailed { .. }
            | EventKind::DecisionTaskTimedOut
            | EventKind::ActivityTaskStarted { .. }
            | EventKind::ActivityTaskTimedOut { .. }
            | EventKind::TimerStarted { .. }
            | EventKind::TimerFired { .. }
            | EventKind::TimerCanceled { .. }
            | EventKind::ChildWorkflowExecutionStarted { .. }
            | EventKind::MarkerRecorded { .. } => None,
        }
    }

    /// The run that a closing event goes on as.
    #[tactic(auto, unfolding(crate::specs::Attributes::next_run))]
    fn next_run(&self) -> Option<RunId>
        ensures { result ≡ next_run self.now }
    {
        match self {
            EventKind::WorkflowExecutionContinuedAsNew {
                new_execution_run_id,
                ..
            } => Some(*new_execution_run_id),
            EventKind::WorkflowExecutionStarted { .. }
            | EventKind::WorkflowExecutionSignaled { .. }
            | EventKind::WorkflowExecutionCancelRequested
            | EventKind::WorkflowExecutionCompleted { .. }
            | EventKind::WorkflowExecutionFailed { .. }
            | EventKind::WorkflowExecutionCanceled
            | EventKind::WorkflowExecutionTerminated { .. }
            | EventKind::DecisionTaskScheduled
            | EventKind::DecisionTaskStarted
            | EventKind::DecisionTaskCompleted
            | EventKind::DecisionTaskFailed { .. }
            | EventKind::DecisionTaskTimedOut
            | EventKind::ActivityTaskScheduled { .. }
            | EventKind::ActivityTaskStarted { .. }
            | EventKind::ActivityTaskCompleted { .. }
            | EventKind::ActivityTaskFailed { .. }
            | EventKind::ActivityTaskTimedOut { .. }
            | EventKind::TimerStarted { .. }
            | EventKind::TimerFired { .. }
            | EventKind::TimerCanceled { .. }
            | EventKind::StartChildWorkflowExecutionInitiated { .. }
            | EventKind::ChildWorkflowExecutionStarted { .. }
            | EventKind::ChildWorkflowExecutionCompleted { .. }
            | EventKind::ChildWorkflowExecutionFailed { .. }
            | EventKind::MarkerRecorded { .. } => None,
        }
    }

    /// The origin that a copied signal names.
    #[tactic(auto, unfolding(crate::specs::Attributes::copied_origin))]
    fn copied_origin(&self) -> Option<Origin>
        ensures { result ≡ copied_origin self.now }
    {
        match self {
            EventKind::WorkflowExecutionSignaled { origin, .. } => origin.as_ref().copied(),
            EventKind::WorkflowExecutionStarted { .. }
            | EventKind::WorkflowExecutionCancelRequested
            | EventKind::WorkflowExecutionCompleted { .. }
            | EventKind::WorkflowExecutionFailed { .. }
            | EventKind::WorkflowExecutionCanceled
            | EventKind::WorkflowExecutionTerminated { .. }
            | EventKind::WorkflowExecutionContinuedAsNew { .. }
            | EventKind::DecisionTaskScheduled
            | EventKind::DecisionTaskStarted
            | EventKind::DecisionTaskCompleted
            | EventKind::DecisionTaskFailed { .. }
            | EventKind::DecisionTaskTimedOut
            | EventKind::ActivityTaskScheduled { .. }
            | EventKind::ActivityTaskStarted { .. }
            | EventKind::ActivityTaskCompleted { .. }
            | EventKind::ActivityTaskFailed { .. }
            | EventKind::ActivityTaskTimedOut { .. }
            | EventKind::TimerStarted { .. }
            | EventKind::TimerFired { .. }
            | EventKind::TimerCanceled { .. }
            | EventKind::StartChildWorkflowExecutionInitiated { .. }
            | EventKind::ChildWorkflowExecutionStarted { .. }
            | EventKind::ChildWorkflowExecutionCompleted { .. }
            | EventKind::ChildWorkflowExecutionFailed { .. }
            | EventKind::MarkerRecorded { .. } => None,
        }
    }

    /// Whether this is the same kind with the same attributes.
    pub fn is_same(&self, other: &EventKind) -> bool
        ensures { IsTrue result ↔ (self.now ≡ other.now) }
    {
        if self.number() != other.number() {
            return false;
        }
        if !is_same_name(self.first_name(), other.first_name()) {
            return false;
        }
        if !is_same_name(self.second_name(), other.second_name()) {
            return false;
        }
        if !is_same_run(self.next_run(), other.next_run()) {
            return false;
        }
        is_same_origin(self.copied_origin(), other.copied_origin())
    }
}

/// Whether two names are the same, or both are none.
fn is_same_name(one: Option<&Name>, two: Option<&Name>) -> bool
    ensures { IsTrue result ↔ (option_copied one.entry ≡ option_copied two.entry) }
{
    match (one, two) {
        (None, None) => true,
        (Some(one), Some(two)) => one == two,
        (None, Some(_)) | (Some(_), None) => false,
    }
}

/// Whether two run ids are the same, or both are none.
fn is_same_run(one: Option<RunId>, two: Option<RunId>) -> bool
    ensures { IsTrue result ↔ (one ≡ two) }
{
    one == two
}

/// Whether two origins are the same, or both are none.
fn is_same_origin(one: Option<Origin>, two: Option<Origin>) -> bool
    ensures { IsTrue result ↔ (one ≡ two) }
{
    one == two
}
