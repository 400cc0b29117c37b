ghost use Rattle.std.specs.Prelude.{◌≡◌};
ghost use Rattle.ndc_state.specs.Pendings.{is_waiting, is_started};
ghost use Rattle.ndc_state.specs.Table.{needs, is_start, row_at, decision_started};

use crate::origins::{Origins, origin_of};
use crate::pendings::{Pending, Pendings};
use crate::rule::{CloseKind, Rule, StateError};
use crate::steps::Steps;
use ndc_event::{Event, EventKind, OutOfMemory, RunId};
use std::alloc::Global;
use std::marker::Model;

/// What of a state is copied at once.
#[derive(Clone, Copy, Debug)]
pub(crate) struct Outline {
    pub(crate) run: RunId,
    pub(crate) next: u64,
    pub(crate) version: u64,
    pub(crate) running: bool,
    pub(crate) close: Option<CloseKind>,
    pub(crate) decision: Option<Pending>,
    pub(crate) cancel: bool,
}

/// A state that can go back to how it was at the last mark, as [`State::mark`] lends it. It is seen as both: the
/// state now, and the one at the mark. A mark and the way back take no memory, and time of the events in
/// between alone.
///
/// [`State::mark`]: crate::State::mark
#[derive(Drop)]
pub struct Tracked {
    pub(crate) outline: Outline,
    marked: Outline,
    pub(crate) activities: Pendings,
    pub(crate) timers: Pendings,
    pub(crate) children: Pendings,
    pub(crate) origins: Origins,
}

impl Model for Tracked {
    ghost use Rattle.ndc_state.specs.Marked.{Marked};
    ghost use Rattle.ndc_state.specs.Value.{StateValue};

    ghost Value = { Marked StateValue };

    ghost use Rattle.ndc_state.specs.Tracked.{tracked_of};

    ghost view = { tracked_of };
}

/// The rule, where its test fails.
fn needs(test: bool, rule: Rule) -> Option<Rule>
    ensures { result ≡ needs test rule }
{
    if test { None } else { Some(rule) }
}

/// Whether something is pending and not started.
fn is_waiting(pending: Option<Pending>) -> bool
    ensures { result ≡ is_waiting pending }
{
    match pending {
        None => false,
        Some(pending) => pending.started.is_none(),
    }
}

/// Whether something is pending and started.
pub(crate) fn is_started(pending: Option<Pending>) -> bool
    ensures { result ≡ is_started pending }
{
    match pending {
        None => false,
        Some(pending) => pending.started.is_some(),
    }
}

/// The decision, started by the event with this id.
fn decision_started(id: u64, decision: Option<Pending>) -> Option<Pending>
    ensures { result ≡ decision_started id decision }
{
    let pending = decision?;
    Some(Pending {
        scheduled: pending.scheduled,
        started: Some(id),
    })
}

/// Whether the kind is the start of a run.
fn is_start(kind: &EventKind) -> bool
    ensures { result ≡ is_start kind.now }
{
    match kind {
        EventKind::WorkflowExecutionStarted { .. } => true,
        _ => false,
    }
}

/// Whether the kind needs that no decision is pending.
#[tactic(auto, unfolding(crate::specs::Table::row))]
fn is_alone(state: &Tracked, event: &Event) -> bool
    ensures { result ≡ (row_at state.now.current event.now).alone }
{
    match &event.kind {
        EventKind::WorkflowExecutionCompleted { .. } => true,
        EventKind::WorkflowExecutionFailed { .. } => true,
        EventKind::WorkflowExecutionCanceled => true,
        EventKind::WorkflowExecutionContinuedAsNew { .. } => true,
        EventKind::DecisionTaskScheduled => true,
        EventKind::ActivityTaskScheduled { .. } => true,
        EventKind::TimerStarted { .. } => true,
        EventKind::TimerCanceled { .. } => true,
        EventKind::StartChildWorkflowExecutionInitiated { .. } => true,
        EventKind::MarkerRecorded { .. } => true,
        _ => false,
    }
}

impl Tracked {
    ghost use Rattle.std.specs.Prelude.{◌≡◌, ◌≢◌, ◌≤◌, ◌^◌, [], length, All, None, Err, OnOk, OnErr, IfOk, is_ok, if◌then◌else◌};
    ghost use Rattle.ndc_event.specs.Outcome.{Gives};
    ghost use Rattle.ndc_state.specs.declared.rule.StateError.TheVariants.{Memory};
    ghost use Rattle.ndc_state.specs.Counted.{counted};
    ghost use Rattle.ndc_state.specs.Replay.{replay, allowed_count, collected, CountsWithin};
    ghost use Rattle.ndc_state.specs.Value.{new_state};
    ghost use Rattle.ndc_state.specs.Table.{row_at, rule_of, applied, closed};

    /// The state of a run that has seen no event.
    pub(crate) fn new(alloc: Global, run: RunId) -> Tracked
        ensures { result.current ≡ new_state run }
    {
        let outline = Outline {
            run,
            next: 1,
            version: 0,
            running: false,
            close: None,
            decision: None,
            cancel: false,
        };
        Tracked {
            outline,
            marked: outline,
            activities: Pendings::new(alloc),
            timers: Pendings::new(alloc),
            children: Pendings::new(alloc),
            origins: Origins::new(alloc),
        }
    }

    /// Makes the state now the mark. What was taken out since the last one goes.
    pub fn mark(&mut self)
        ensures current { self.new.current ≡ self.old.current }
        ensures marked { self.new.marked ≡ self.old.current }
    {
        self.marked = self.outline;
        self.activities.mark();
        self.timers.mark();
        self.children.mark();
        self.origins.mark();
    }

    /// Goes back to the mark.
    pub fn revert(&mut self)
        ensures current { self.new.current ≡ self.old.marked }
        ensures marked { self.new.marked ≡ self.old.marked }
    {
        self.outline = self.marked;
        self.activities.revert();
        self.timers.revert();
        self.children.revert();
        self.origins.revert();
    }

    /// The rule of the kind's own, where it forbids the event.
    #[tactic(auto, unfolding(crate::specs::Table::row))]
    fn own_rule(&self, event: &Event) -> Option<Rule>
        ensures { result ≡ (row_at self.now.current event.now).own }
    {
        let decision = self.outline.decision;
        match &event.kind {
            EventKind::WorkflowExecutionSignaled { origin, .. } => {
                let origin = origin_of(self.outline.run, event, origin);
                needs(!self.origins.contains(origin), Rule::Origin)
            }
            EventKind::DecisionTaskStarted => needs(is_waiting(decision), Rule::Task),
            EventKind::DecisionTaskCompleted => needs(is_started(decision), Rule::Task),
            EventKind::DecisionTaskFailed { .. } => needs(is_started(decision), Rule::Task),
            EventKind::DecisionTaskTimedOut => needs(is_started(decision), Rule::Task),
            EventKind::ActivityTaskScheduled { activity_id, .. } => {
                needs(self.activities.get(activity_id).is_none(), Rule::Activity)
            }
            EventKind::ActivityTaskStarted { activity_id } => {
                needs(is_waiting(self.activities.get(activity_id)), Rule::Activity)
            }
            EventKind::ActivityTaskCompleted { activity_id, .. } => {
                needs(is_started(self.activities.get(activity_id)), Rule::Activity)
            }
            EventKind::ActivityTaskFailed { activity_id, .. } => {
                needs(is_started(self.activities.get(activity_id)), Rule::Activity)
            }
            EventKind::ActivityTaskTimedOut { activity_id } => {
                needs(self.activities.get(activity_id).is_some(), Rule::Activity)
            }
            EventKind::TimerStarted { timer_id } => {
                needs(self.timers.get(timer_id).is_none(), Rule::Timer)
            }
            EventKind::TimerFired { timer_id } => {
                needs(self.timers.get(timer_id).is_some(), Rule::Timer)
            }
            EventKind::TimerCanceled { timer_id } => {
                needs(self.timers.get(timer_id).is_some(), Rule::Timer)
            }
            EventKind::StartChildWorkflowExecutionInitiated { workflow_id, .. } => {
                needs(self.children.get(workflow_id).is_none(), Rule::Child)
            }
            EventKind::ChildWorkflowExecutionStarted { workflow_id } => {
                needs(is_waiting(self.children.get(workflow_id)), Rule::Child)
            }
            EventKind::ChildWorkflowExecutionCompleted { workflow_id, .. } => {
                needs(is_started(self.children.get(workflow_id)), Rule::Child)
            }
            EventKind::ChildWorkflowExecutionFailed { workflow_id, .. } => {
                needs(is_started(self.children.get(workflow_id)), Rule::Child)
            }
            _ => None,
        }
    }

    /// The first rule that forbids the event, in the order of the tests.
    fn rule_of(&self, event: &Event) -> Option<Rule>
        ensures { result ≡ rule_of self.now.current event.now }
    {
        let starts = is_start(&event.kind);
        let first = event.id == 1;
        if event.id != self.outline.next {
            return Some(Rule::Next);
        }
        if starts != first {
            return Some(Rule::Start);
        }
        if !starts && !self.outline.running {
            return Some(Rule::Running);
        }
        if is_alone(self, event) && self.outline.decision.is_some() {
            return Some(Rule::Decision);
        }
        self.own_rule(event)
    }

    /// Closes the run.
    fn close(&mut self, kind: CloseKind)
        ensures current { self.new.current ≡ closed kind self.old.current }
        ensures marked { self.new.marked ≡ self.old.marked }
    {
        self.outline.running = false;
        self.outline.close = Some(kind);
    }

    /// The effect of an event that no rule forbids, but for the next id and the version.
    #[tactic(auto, unfolding(crate::specs::Table::row))]
    fn change(&mut self, event: &Event) -> Result<(), OutOfMemory>
        requires { (row_at self.old.current event.now).own ≡ None }
        ensures current { OnOk result
            (self.new.current ≡ (row_at self.old.current event.now).effect) }
        ensures marked { self.new.marked ≡ self.old.marked }
        ensures err { OnErr result (self.new ≡ self.old) }
    {
        let id = event.id;
        match &event.kind {
            EventKind::WorkflowExecutionStarted { .. } => {
                self.outline.running = true;
                Ok(())
            }
            EventKind::WorkflowExecutionSignaled { origin, .. } => {
                self.origins
                    .insert(origin_of(self.outline.run, event, origin))?;
                Ok(())
            }
            EventKind::WorkflowExecutionCancelRequested => {
                self.outline.cancel = true;
                Ok(())
            }
            EventKind::WorkflowExecutionCompleted { .. } => {
                self.close(CloseKind::Completed);
                Ok(())
            }
            EventKind::WorkflowExecutionFailed { .. } => {
                self.close(CloseKind::Failed);
                Ok(())
            }
            EventKind::WorkflowExecutionCanceled => {
                self.close(CloseKind::Canceled);
                Ok(())
            }
            EventKind::WorkflowExecutionTerminated { .. } => {
                self.close(CloseKind::Terminated);
                Ok(())
            }
            EventKind::WorkflowExecutionContinuedAsNew { .. } => {
                self.close(CloseKind::Continued);
                Ok(())
            }
            EventKind::DecisionTaskScheduled => {
                self.outline.decision = Some(Pending {
                    scheduled: id,
                    started: None,
                });
                Ok(())
            }
            EventKind::DecisionTaskStarted => {
                self.outline.decision = decision_started(id, self.outline.decision);
                Ok(())
            }
            EventKind::DecisionTaskCompleted => {
                self.outline.decision = None;
                Ok(())
            }
            EventKind::DecisionTaskFailed { .. } => {
                self.outline.decision = None;
                Ok(())
            }
            EventKind::DecisionTaskTimedOut => {
                self.outline.decision = None;
                Ok(())
            }
            EventKind::ActivityTaskScheduled { activity_id, .. } => {
                self.activities.schedule(activity_id.try_copy()?, id)?;
                Ok(())
            }
            EventKind::ActivityTaskStarted { activity_id } => {
                self.activities.start(activity_id, id)?;
                Ok(())
            }
            EventKind::ActivityTaskCompleted { activity_id, .. } => {
                self.activities.remove(activity_id)?;
                Ok(())
            }
            EventKind::ActivityTaskFailed { activity_id, .. } => {
                self.activities.remove(activity_id)?;
                Ok(())
            }
            EventKind::ActivityTaskTimedOut { activity_id } => {
                self.activities.remove(activity_id)?;
                Ok(())
            }
            EventKind::TimerStarted { timer_id } => {
                self.timers.schedule(timer_id.try_copy()?, id)?;
                Ok(())
            }
            EventKind::TimerFired { timer_id } => {
                self.timers.remove(timer_id)?;
                Ok(())
            }
            EventKind::TimerCanceled { timer_id } => {
                self.timers.remove(timer_id)?;
                Ok(())
            }
            EventKind::StartChildWorkflowExecutionInitiated { workflow_id, .. } => {
                self.children.schedule(workflow_id.try_copy()?, id)?;
                Ok(())
            }
            EventKind::ChildWorkflowExecutionStarted { workflow_id } => {
                self.children.start(workflow_id, id)?;
                Ok(())
            }
            EventKind::ChildWorkflowExecutionCompleted { workflow_id, .. } => {
                self.children.remove(workflow_id)?;
                Ok(())
            }
            EventKind::ChildWorkflowExecutionFailed { workflow_id, .. } => {
                self.children.remove(workflow_id)?;
                Ok(())
            }
            EventKind::MarkerRecorded { .. } => Ok(()),
        }
    }

    /// Applies an event and counts one step, or names the first rule that forbids it. It is the one step of
    /// [`Tracked::apply_all`] and of [`State::apply`].
    ///
    /// [`State::apply`]: crate::State::apply
    pub(crate) fn apply<L>(&mut self, event: &Event, steps: &mut Steps<L>) -> Result<(), StateError>
        requires { event.now.id ≤ 10 ^ 12 }
        ensures answer { Gives Memory (λ _. self.new.current) result
            (applied self.old.current event.now) }
        ensures marked { self.new.marked ≡ self.old.marked }
        ensures err { OnErr result (self.new ≡ self.old) }
        ensures steps { steps.new ≡ (if is_ok result then counted steps.old 1 else steps.old) }
    {
        if let Some(rule) = self.rule_of(event) {
            return Err(StateError::Invalid { id: event.id, rule });
        }
        self.change(event)?;
        self.outline.next = event.id + 1;
        self.outline.version = event.version;
        steps.count();
        Ok(())
    }

    /// Applies the events in order, in time of these events and of what is pending at a removal, and the mark
    /// stays. Refused with [`StateError::Invalid`] for the first event that is forbidden; the state is then the
    /// marked one, as for want of memory, and the steps of the events before it stay counted.
    pub fn apply_all<L>(&mut self, events: &[Event], steps: &mut Steps<L>) -> Result<(), StateError>
        requires { All (λ event. event.id ≤ 10 ^ 12) events.now }
        ensures answer { Gives Memory (λ _. self.new.current) result
            (replay self.old.current events.now) }
        ensures marked { self.new.marked ≡ self.old.marked }
        ensures err { OnErr result (self.new.current ≡ self.old.marked) }
        ensures ok_steps { OnOk result (steps.new ≡ counted steps.old (length events.now)) }
        ensures steps { result ≢ Err Memory
            → steps.new ≡ counted steps.old (allowed_count self.old.current events.now) }
        ensures most_steps { CountsWithin steps.old
            (allowed_count self.old.current events.now) steps.new }
    {
        for event in events {
            if let Err(error) = self.apply(event, steps) {
                self.revert();
                return Err(error);
            }
        }
        Ok(())
    }

    /// Applies the events in order, a step each, or goes back to where it was.
    pub(crate) fn step_all<L>(
        &mut self,
        events: &[Event],
        steps: &mut Steps<L>,
    ) -> Result<(), StateError>
        requires { All (λ event. event.id ≤ 10 ^ 12) events.now }
        ensures answer { Gives Memory (λ _. self.new.current) result
            (replay self.old.current events.now) }
        ensures err { OnErr result (self.new.current ≡ self.old.current) }
        ensures ok_steps { OnOk result (steps.new ≡ counted steps.old (length events.now)) }
        ensures steps { result ≢ Err Memory
            → steps.new ≡ counted steps.old (allowed_count self.old.current events.now) }
        ensures most_steps { CountsWithin steps.old
            (allowed_count self.old.current events.now) steps.new }
    {
        self.mark();
        self.apply_all(events, steps)?;
        self.mark();
        Ok(())
    }

    /// Lists the origins of the signals among the events after those listed, or goes back to where it was.
    pub(crate) fn collect(&mut self, events: &[Event]) -> Result<(), OutOfMemory>
        ensures ok { OnOk result
            (self.new.current ≡ record self.old.current {
              origins = collected self.old.current.run self.old.current.origins events.now;
            }) }
        ensures err { OnErr result (self.new.current ≡ self.old.current) }
    {
        self.origins.collect(self.outline.run, events)
    }

    /// The same state, with these origins.
    fn with_origins(&self, origins: Origins) -> Result<Tracked, OutOfMemory>
        ensures { IfOk result (λ copy.
            copy.current ≡ record self.now.current { origins = origins.current }) }
    {
        Ok(Tracked {
            outline: self.outline,
            marked: self.outline,
            activities: self.activities.try_copy()?,
            timers: self.timers.try_copy()?,
            children: self.children.try_copy()?,
            origins,
        })
    }

    /// The same state as it is now.
    pub(crate) fn try_copy(&self) -> Result<Tracked, OutOfMemory>
        ensures { IfOk result (λ copy. copy.current ≡ self.now.current) }
    {
        self.with_origins(self.origins.try_copy()?)
    }

    /// The same state without its origins.
    pub(crate) fn without_origins(&self) -> Result<Tracked, OutOfMemory>
        ensures { IfOk result (λ copy. copy.current ≡ record self.now.current { origins = [] }) }
    {
        self.with_origins(Origins::new(self.allocator()))
    }

    /// What its memory comes from.
    pub(crate) fn allocator(&self) -> Global {
        self.activities.allocator()
    }
}
