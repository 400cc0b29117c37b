// The kinds of events by name, and the attributes that each has.
ghost use Rattle.std.specs.Prelude.{◌≡◌, map};
ghost use Rattle.ndc_text.specs.Table.{workflow_tag, decision_tag, activity_tag, timer_tag, child_tag, tag_of, attribute_keys, optional_keys};

/// A kind of event, without its attributes.
#[derive(Clone, Copy, Debug, PartialEq, Eq)]
pub enum KindTag {
    WorkflowExecutionStarted,
    WorkflowExecutionSignaled,
    WorkflowExecutionCancelRequested,
    WorkflowExecutionCompleted,
    WorkflowExecutionFailed,
    WorkflowExecutionCanceled,
    WorkflowExecutionTerminated,
    WorkflowExecutionContinuedAsNew,
    DecisionTaskScheduled,
    DecisionTaskStarted,
    DecisionTaskCompleted,
    DecisionTaskFailed,
    DecisionTaskTimedOut,
    ActivityTaskScheduled,
    ActivityTaskStarted,
    ActivityTaskCompleted,
    ActivityTaskFailed,
    ActivityTaskTimedOut,
    TimerStarted,
    TimerFired,
    TimerCanceled,
    StartChildWorkflowExecutionInitiated,
    ChildWorkflowExecutionStarted,
    ChildWorkflowExecutionCompleted,
    ChildWorkflowExecutionFailed,
    MarkerRecorded,
}

/// The kind of this name, of the workflow kinds.
#[tactic(auto, unfolding(crate::specs::Table::workflow_tag))]
fn workflow_tag(text: &str) -> Option<KindTag>
    ensures { result ≡ workflow_tag text.now }
{
    if text == "WorkflowExecutionStarted" {
        Some(KindTag::WorkflowExecutionStarted)
    } else if text == "WorkflowExecutionSignaled" {
        Some(KindTag::WorkflowExecutionSignaled)
    } else if text == "WorkflowExecutionCancelRequested" {
        Some(KindTag::WorkflowExecutionCancelRequested)
    } else if text == "WorkflowExecutionCompleted" {
        Some(KindTag::WorkflowExecutionCompleted)
    } else if text == "WorkflowExecutionFailed" {
        Some(KindTag::WorkflowExecutionFailed)
    } else if text == "WorkflowExecutionCanceled" {
        Some(KindTag::WorkflowExecutionCanceled)
    } else if text == "WorkflowExecutionTerminated" {
        Some(KindTag::WorkflowExecutionTerminated)
    } else if text == "WorkflowExecutionContinuedAsNew" {
        Some(KindTag::WorkflowExecutionContinuedAsNew)
    } else {
        None
    }
}

/// The kind of this name, of the decision kinds.
#[tactic(auto, unfolding(crate::specs::Table::decision_tag))]
fn decision_tag(text: &str) -> Option<KindTag>
    ensures { result ≡ decision_tag text.now }
{
    if text == "DecisionTaskScheduled" {
        Some(KindTag::DecisionTaskScheduled)
    } else if text == "DecisionTaskStarted" {
        Some(KindTag::DecisionTaskStarted)
    } else if text == "DecisionTaskCompleted" {
        Some(KindTag::DecisionTaskCompleted)
    } else if text == "DecisionTaskFailed" {
        Some(KindTag::DecisionTaskFailed)
    } else if text == "DecisionTaskTimedOut" {
        Some(KindTag::DecisionTaskTimedOut)
    } else {
        None
    }
}

/// The kind of this name, of the activity kinds.
#[tactic(auto, unfolding(crate::specs::Table::activity_tag))]
fn activity_tag(text: &str) -> Option<KindTag>
    ensures { result ≡ activity_tag text.now }
{
    if text == "ActivityTaskScheduled" {
        Some(KindTag::ActivityTaskScheduled)
    } else if text == "ActivityTaskStarted" {
        Some(KindTag::ActivityTaskStarted)
    } else if text == "ActivityTaskCompleted" {
        Some(KindTag::ActivityTaskCompleted)
    } else if text == "ActivityTaskFailed" {
        Some(KindTag::ActivityTaskFailed)
    } else if text == "ActivityTaskTimedOut" {
        Some(KindTag::ActivityTaskTimedOut)
    } else {
        None
    }
}

/// The kind of this name, of the timer kinds.
#[tactic(auto, unfolding(crate::specs::Table::timer_tag))]
fn timer_tag(text: &str) -> Option<KindTag>
    ensures { result ≡ timer_tag text.now }
{
    if text == "TimerStarted" {
        Some(KindTag::TimerStarted)
    } else if text == "TimerFired" {
        Some(KindTag::TimerFired)
    } else if text == "TimerCanceled" {
        Some(KindTag::TimerCanceled)
    } else {
        None
    }
}

/// The kind of this name, of the child kinds.
#[tactic(auto, unfolding(crate::specs::Table::child_tag))]
fn child_tag(text: &str) -> Option<KindTag>
    ensures { result ≡ child_tag text.now }
{
    if text == "StartChildWorkflowExecutionInitiated" {
        Some(KindTag::StartChildWorkflowExecutionInitiated)
    } else if text == "ChildWorkflowExecutionStarted" {
        Some(KindTag::ChildWorkflowExecutionStarted)
    } else if text == "ChildWorkflowExecutionCompleted" {
        Some(KindTag::ChildWorkflowExecutionCompleted)
    } else if text == "ChildWorkflowExecutionFailed" {
        Some(KindTag::ChildWorkflowExecutionFailed)
    } else if text == "MarkerRecorded" {
        Some(KindTag::MarkerRecorded)
    } else {
        None
    }
}

/// The kind of this name.
pub fn tag_of(text: &str) -> Option<KindTag>
    ensures { result ≡ tag_of text.now }
{
    workflow_tag(text)
        .or_else(|| decision_tag(text))
        .or_else(|| activity_tag(text))
        .or_else(|| timer_tag(text))
        .or_else(|| child_tag(text))
}

impl KindTag {
    ghost use Rattle.std.specs.Prelude.{◌≡◌, map};
    ghost use Rattle.ndc_text.specs.Table.{attribute_keys, optional_keys};

    /// The keys of its attributes that are always there, each with a text.
    #[tactic(auto, unfolding(crate::specs::Table::attribute_keys))]
    pub fn attribute_keys(self) -> &'static [&'static str]
        ensures { map (λ k. k.now) result.now ≡ attribute_keys self }
    {
        match self {
            KindTag::WorkflowExecutionStarted => &["workflowType"],
            KindTag::WorkflowExecutionSignaled => &["signalName", "input"],
            KindTag::WorkflowExecutionCancelRequested => &[],
            KindTag::WorkflowExecutionCompleted => &["result"],
            KindTag::WorkflowExecutionFailed => &["reason"],
            KindTag::WorkflowExecutionCanceled => &[],
            KindTag::WorkflowExecutionTerminated => &["reason"],
            KindTag::WorkflowExecutionContinuedAsNew => &["newExecutionRunId", "workflowType"],
            KindTag::DecisionTaskScheduled => &[],
            KindTag::DecisionTaskStarted => &[],
            KindTag::DecisionTaskCompleted => &[],
            KindTag::DecisionTaskFailed => &["cause"],
            KindTag::DecisionTaskTimedOut => &[],
            KindTag::ActivityTaskScheduled => &["activityId", "activityType"],
            KindTag::ActivityTaskStarted => &["activityId"],
            KindTag::ActivityTaskCompleted => &["activityId", "result"],
            KindTag::ActivityTaskFailed => &["activityId", "reason"],
            KindTag::ActivityTaskTimedOut => &["activityId"],
            KindTag::TimerStarted => &["timerId"],
            KindTag::TimerFired => &["timerId"],
            KindTag::TimerCanceled => &["timerId"],
            KindTag::StartChildWorkflowExecutionInitiated => &["workflowId", "workflowType"],
            KindTag::ChildWorkflowExecutionStarted => &["workflowId"],
            KindTag::ChildWorkflowExecutionCompleted => &["workflowId", "result"],
            KindTag::ChildWorkflowExecutionFailed => &["workflowId", "reason"],
            KindTag::MarkerRecorded => &["markerName"],
        }
    }

    /// The keys of its attributes that may be missing.
    pub fn optional_keys(self) -> &'static [&'static str]
        ensures { map (λ k. k.now) result.now ≡ optional_keys self }
    {
        match self {
            KindTag::WorkflowExecutionSignaled => &["origin"],
            _ => &[],
        }
    }
}
