//! What events are about.
ghost use Rattle.std.specs.Prelude.{◌≡◌};
ghost use Rattle.ndc_explain_sides.specs.Subjects.{has_id, is_decision, is_signal, sort_of, sort_word};

use ndc_event::EventKind;

/// What sort of thing an event is about.
#[derive(Clone, Copy, Debug, PartialEq, Eq)]
pub enum Sort {
    /// That a run began.
    Start,
    /// A signal to a run.
    Signal,
    /// That it was asked to cancel a run.
    CancelRequest,
    /// How a run closed.
    Close,
    /// A decision.
    Decision,
    /// An activity, by its id.
    Activity,
    /// A timer, by its id.
    Timer,
    /// A child workflow, by its id.
    Child,
    /// A marker, by its name.
    Marker,
}

/// What sort of thing an event of this kind is about.
#[tactic(auto, unfolding(crate::specs::Subjects::sort_of))]
pub fn sort_of(kind: &EventKind) -> Sort
    ensures { result ≡ sort_of kind.now }
{
    match kind {
        EventKind::WorkflowExecutionStarted { .. } => Sort::Start,
        EventKind::WorkflowExecutionSignaled { .. } => Sort::Signal,
        EventKind::WorkflowExecutionCancelRequested => Sort::CancelRequest,
        EventKind::WorkflowExecutionCompleted { .. }
        | EventKind::WorkflowExecutionFailed { .. }
        | EventKind::WorkflowExecutionCanceled
        | EventKind::WorkflowExecutionTerminated { .. }
        | EventKind::WorkflowExecutionContinuedAsNew { .. } => Sort::Close,
        EventKind::DecisionTaskScheduled
        | EventKind::DecisionTaskStarted
        | EventKind::DecisionTaskCompleted
        | EventKind::DecisionTaskFailed { .. }
        | EventKind::DecisionTaskTimedOut => Sort::Decision,
        EventKind::ActivityTaskScheduled { .. }
        | EventKind::ActivityTaskStarted { .. }
        | EventKind::ActivityTaskCompleted { .. }
        | EventKind::ActivityTaskFailed { .. }
        | EventKind::ActivityTaskTimedOut { .. } => Sort::Activity,
        EventKind::TimerStarted { .. }
        | EventKind::TimerFired { .. }
        | EventKind::TimerCanceled { .. } => Sort::Timer,
        EventKind::StartChildWorkflowExecutionInitiated { .. }
        | EventKind::ChildWorkflowExecutionStarted { .. }
        | EventKind::ChildWorkflowExecutionCompleted { .. }
        | EventKind::ChildWorkflowExecutionFailed { .. } => Sort::Child,
        EventKind::MarkerRecorded { .. } => Sort::Marker,
    }
}

impl Sort {
    ghost use Rattle.std.specs.Prelude.{◌≡◌};
    ghost use Rattle.ndc_explain_sides.specs.Subjects.{has_id, is_decision, is_signal, sort_word};

    /// Whether things of this sort are told apart by the first name of their events.
    pub(crate) fn has_id(self) -> bool
        ensures { result ≡ has_id self }
    {
        match self {
            Sort::Signal | Sort::Activity | Sort::Timer | Sort::Child | Sort::Marker => true,
            Sort::Start | Sort::CancelRequest | Sort::Close | Sort::Decision => false,
        }
    }

    /// Whether it is a signal.
    pub fn is_signal(self) -> bool
        ensures { result ≡ is_signal self }
    {
        match self {
            Sort::Signal => true,
            _ => false,
        }
    }

    /// Whether it is a decision.
    pub fn is_decision(self) -> bool
        ensures { result ≡ is_decision self }
    {
        match self {
            Sort::Decision => true,
            _ => false,
        }
    }

    /// How the sort is called.
    pub(crate) fn word(self) -> &'static str
        ensures { result.now ≡ sort_word self }
    {
        match self {
            Sort::Start => "start",
            Sort::Signal => "signal",
            Sort::CancelRequest => "cancel request",
            Sort::Close => "close",
            Sort::Decision => "decision",
            Sort::Activity => "activity",
            Sort::Timer => "timer",
            Sort::Child => "child",
            Sort::Marker => "marker",
        }
    }
}
