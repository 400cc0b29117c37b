ghost use Rattle.std.specs.Prelude.{◌≡◌, ◌++◌, OnOk};
ghost use Rattle.ndc_command.specs.Plan.{beginning};

use crate::command::{Actions, Command};
use crate::judge::push_actions;
use crate::refusal::{CommandError, Refusal};
use crate::stage::{Stage, needs_pending, needs_started, needs_waiting, stage_of};
use ndc_event::{EventKind, Name, OutOfMemory, Rare, RunId};
use ndc_state::State;

/// Where a command writes: below the tip of a run with this state, with this version, and after the failover
/// close where that is due. The methods answer for the state that the failover close leaves, without making it.
#[derive(Clone, Copy)]
pub(crate) struct Tip<'a> {
    pub(crate) state: &'a State,
    pub(crate) version: u64,
    /// The run that a closing one goes on as.
    pub(crate) next_run: RunId,
}

/// Appends what a run begins with.
pub(crate) fn push_beginning(
    workflow_type: &Name,
    kinds: &mut Vec<EventKind>,
) -> Result<(), OutOfMemory>
    ensures { OnOk result (kinds.new.items ≡ kinds.old.items ++ beginning workflow_type.now) }
{
    let kind = EventKind::WorkflowExecutionStarted {
        workflow_type: workflow_type.try_copy()?,
    };
    kinds.push(kind)?;
    kinds.push(EventKind::DecisionTaskScheduled)?;
    Ok(())
}

impl<'a> Tip<'a> {
    ghost use Rattle.std.specs.Prelude.{◌≡◌, ◌++◌, ◌∷◌, [], IsTrue, OnOk};
    ghost use Rattle.ndc_command.specs.declared.command.Command.TheVariants.{Start, Signal, Cancel, Terminate, Decide, Respond, FailDecision, TimeoutDecision, ActivityStart, ActivityDone, ActivityFail, ActivityTimeout, Fire, ChildStart, ChildDone, ChildFail};
    ghost use Rattle.ndc_state.specs.Pendings.{pending_of};
    ghost use Rattle.ndc_state.specs.Written.{wake};
    ghost use Rattle.ndc_command.specs.Stage.{stage_of as stage};
    ghost use Rattle.ndc_command.specs.Tip.{state_at, Adds};

    /// How far the decision is.
    #[tactic(auto, using(crate::proofs::TipLemmas::decision_stage))]
    fn decision(&self) -> Stage
        ensures { result ≡ stage (state_at self.now).decision }
    {
        if self.state.is_failover_close_due(self.version) {
            return Stage::Waiting;
        }
        stage_of(self.state.decision())
    }

    /// How far the activity of this name is.
    #[tactic(auto, using(crate::proofs::TipLemmas::activities_same))]
    fn activity(&self, name: &Name) -> Stage
        ensures { result ≡ stage (pending_of name.now (state_at self.now).activities) }
    {
        stage_of(self.state.activity(name))
    }

    /// How far the timer of this name is.
    #[tactic(auto, using(crate::proofs::TipLemmas::timers_same))]
    fn timer(&self, name: &Name) -> Stage
        ensures { result ≡ stage (pending_of name.now (state_at self.now).timers) }
    {
        stage_of(self.state.timer(name))
    }

    /// How far the child of this name is.
    #[tactic(auto, using(crate::proofs::TipLemmas::children_same))]
    fn child(&self, name: &Name) -> Stage
        ensures { result ≡ stage (pending_of name.now (state_at self.now).children) }
    {
        stage_of(self.state.child(name))
    }

    /// Appends an event that leaves the decision as it is and, where none is pending, the scheduling of one.
    fn push_woken(&self, kind: EventKind, kinds: &mut Vec<EventKind>) -> Result<(), OutOfMemory>
        ensures { OnOk result (kinds.new.items ≡ kinds.old.items ++ kind
            ∷ wake (state_at self.now)) }
    {
        kinds.push(kind)?;
        self.state.push_wake(kinds)?;
        Ok(())
    }

    /// What a start writes.
    #[tactic(auto, unfolding(crate::specs::Plan::written))]
    fn push_start(
        &self,
        workflow_type: &Name,
        kinds: &mut Vec<EventKind>,
    ) -> Result<(), CommandError>
        ensures { Adds self.now (Start workflow_type.now) kinds.old.items kinds.new.items result }
    {
        push_beginning(workflow_type, kinds)?;
        Ok(())
    }

    /// What a signal writes.
    #[tactic(auto, unfolding(crate::specs::Plan::written, ndc_state::specs::Table::row))]
    fn push_signal(
        &self,
        name: &Name,
        input: &Name,
        kinds: &mut Vec<EventKind>,
    ) -> Result<(), CommandError>
        ensures { Adds self.now (Signal name.now input.now) kinds.old.items kinds.new.items result }
    {
        let kind = EventKind::WorkflowExecutionSignaled {
            signal_name: name.try_copy()?,
            input: input.try_copy()?,
            origin: Rare::none(),
        };
        self.push_woken(kind, kinds)?;
        Ok(())
    }

    /// What a request to cancel writes.
    #[tactic(auto, unfolding(crate::specs::Plan::written, ndc_state::specs::Table::row))]
    fn push_cancel(&self, kinds: &mut Vec<EventKind>) -> Result<(), CommandError>
        ensures { Adds self.now Cancel kinds.old.items kinds.new.items result }
    {
        self.push_woken(EventKind::WorkflowExecutionCancelRequested, kinds)?;
        Ok(())
    }

    /// What closing the run from outside writes.
    #[tactic(auto, unfolding(crate::specs::Plan::written, ndc_state::specs::Table::row))]
    fn push_terminate(&self, reason: &Name, kinds: &mut Vec<EventKind>) -> Result<(), CommandError>
        ensures { Adds self.now (Terminate reason.now) kinds.old.items kinds.new.items result }
    {
        let kind = EventKind::WorkflowExecutionTerminated {
            reason: reason.try_copy()?,
        };
        kinds.push(kind)?;
        Ok(())
    }

    /// What starting the decision writes.
    #[tactic(auto, unfolding(crate::specs::Plan::written, ndc_state::specs::Table::row))]
    fn push_decide(&self, kinds: &mut Vec<EventKind>) -> Result<(), CommandError>
        ensures { Adds self.now Decide kinds.old.items kinds.new.items result }
    {
        needs_waiting(
            self.decision(),
            Refusal::NoDecision,
            Refusal::DecisionStarted,
        )?;
        kinds.push(EventKind::DecisionTaskStarted)?;
        Ok(())
    }

    /// What completing the decision with these actions writes.
    #[tactic(auto, unfolding(crate::specs::Plan::written))]
    fn push_respond(
        &self,
        actions: &Actions,
        kinds: &mut Vec<EventKind>,
    ) -> Result<(), CommandError>
        ensures { Adds self.now (Respond actions.now) kinds.old.items kinds.new.items result }
    {
        needs_started(
            self.decision(),
            Refusal::NoDecision,
            Refusal::DecisionNotStarted,
        )?;
        kinds.push(EventKind::DecisionTaskCompleted)?;
        push_actions(self.state, actions.as_slice(), self.next_run, kinds)
    }

    /// What failing the decision writes.
    #[tactic(auto, unfolding(crate::specs::Plan::written, ndc_state::specs::Table::row))]
    fn push_fail_decision(
        &self,
        cause: &Name,
        kinds: &mut Vec<EventKind>,
    ) -> Result<(), CommandError>
        ensures { Adds self.now (FailDecision cause.now) kinds.old.items kinds.new.items result }
    {
        needs_started(
            self.decision(),
            Refusal::NoDecision,
            Refusal::DecisionNotStarted,
        )?;
        let kind = EventKind::DecisionTaskFailed {
            cause: cause.try_copy()?,
        };
        kinds.push(kind)?;
        kinds.push(EventKind::DecisionTaskScheduled)?;
        Ok(())
    }

    /// What timing the decision out writes.
    #[tactic(auto, unfolding(crate::specs::Plan::written, ndc_state::specs::Table::row))]
    fn push_timeout_decision(&self, kinds: &mut Vec<EventKind>) -> Result<(), CommandError>
        ensures { Adds self.now TimeoutDecision kinds.old.items kinds.new.items result }
    {
        needs_started(
            self.decision(),
            Refusal::NoDecision,
            Refusal::DecisionNotStarted,
        )?;
        kinds.push(EventKind::DecisionTaskTimedOut)?;
        kinds.push(EventKind::DecisionTaskScheduled)?;
        Ok(())
    }

    /// What starting an activity writes.
    #[tactic(auto, unfolding(crate::specs::Plan::written, ndc_state::specs::Table::row))]
    fn push_activity_start(&self, id: &Name, kinds: &mut Vec<EventKind>) -> Result<(), CommandError>
        ensures { Adds self.now (ActivityStart id.now) kinds.old.items kinds.new.items result }
    {
        needs_waiting(
            self.activity(id),
            Refusal::NoSuchActivity,
            Refusal::ActivityStarted,
        )?;
        let kind = EventKind::ActivityTaskStarted {
            activity_id: id.try_copy()?,
        };
        kinds.push(kind)?;
        Ok(())
    }

    /// What completing an activity writes.
    #[tactic(auto, unfolding(crate::specs::Plan::written, ndc_state::specs::Table::row))]
    fn push_activity_done(
        &self,
        id: &Name,
        outcome: &Name,
        kinds: &mut Vec<EventKind>,
    ) -> Result<(), CommandError>
        ensures { Adds self.now (ActivityDone id.now outcome.now) kinds.old.items kinds.new.items
            result }
    {
        needs_started(
            self.activity(id),
            Refusal::NoSuchActivity,
            Refusal::ActivityNotStarted,
        )?;
        let kind = EventKind::ActivityTaskCompleted {
            activity_id: id.try_copy()?,
            result: outcome.try_copy()?,
        };
        self.push_woken(kind, kinds)?;
        Ok(())
    }

    /// What failing an activity writes.
    #[tactic(auto, unfolding(crate::specs::Plan::written, ndc_state::specs::Table::row))]
    fn push_activity_fail(
        &self,
        id: &Name,
        reason: &Name,
        kinds: &mut Vec<EventKind>,
    ) -> Result<(), CommandError>
        ensures { Adds self.now (ActivityFail id.now reason.now) kinds.old.items kinds.new.items
            result }
    {
        needs_started(
            self.activity(id),
            Refusal::NoSuchActivity,
            Refusal::ActivityNotStarted,
        )?;
        let kind = EventKind::ActivityTaskFailed {
            activity_id: id.try_copy()?,
            reason: reason.try_copy()?,
        };
        self.push_woken(kind, kinds)?;
        Ok(())
    }

    /// What timing an activity out writes.
    #[tactic(auto, unfolding(crate::specs::Plan::written, ndc_state::specs::Table::row))]
    fn push_activity_timeout(
        &self,
        id: &Name,
        kinds: &mut Vec<EventKind>,
    ) -> Result<(), CommandError>
        ensures { Adds self.now (ActivityTimeout id.now) kinds.old.items kinds.new.items result }
    {
        needs_pending(self.activity(id), Refusal::NoSuchActivity)?;
        let kind = EventKind::ActivityTaskTimedOut {
            activity_id: id.try_copy()?,
        };
        self.push_woken(kind, kinds)?;
        Ok(())
    }

    /// What firing a timer writes.
    #[tactic(auto, unfolding(crate::specs::Plan::written, ndc_state::specs::Table::row))]
    fn push_fire(&self, id: &Name, kinds: &mut Vec<EventKind>) -> Result<(), CommandError>
        ensures { Adds self.now (Fire id.now) kinds.old.items kinds.new.items result }
    {
        needs_pending(self.timer(id), Refusal::NoSuchTimer)?;
        let kind = EventKind::TimerFired {
            timer_id: id.try_copy()?,
        };
        self.push_woken(kind, kinds)?;
        Ok(())
    }

    /// What the start of a child writes.
    #[tactic(auto, unfolding(crate::specs::Plan::written, ndc_state::specs::Table::row))]
    fn push_child_start(&self, id: &Name, kinds: &mut Vec<EventKind>) -> Result<(), CommandError>
        ensures { Adds self.now (ChildStart id.now) kinds.old.items kinds.new.items result }
    {
        needs_waiting(self.child(id), Refusal::NoSuchChild, Refusal::ChildStarted)?;
        let kind = EventKind::ChildWorkflowExecutionStarted {
            workflow_id: id.try_copy()?,
        };
        self.push_woken(kind, kinds)?;
        Ok(())
    }

    /// What the completion of a child writes.
    #[tactic(auto, unfolding(crate::specs::Plan::written, ndc_state::specs::Table::row))]
    fn push_child_done(
        &self,
        id: &Name,
        outcome: &Name,
        kinds: &mut Vec<EventKind>,
    ) -> Result<(), CommandError>
        ensures { Adds self.now (ChildDone id.now outcome.now) kinds.old.items kinds.new.items
            result }
    {
        needs_started(
            self.child(id),
            Refusal::NoSuchChild,
            Refusal::ChildNotStarted,
        )?;
        let kind = EventKind::ChildWorkflowExecutionCompleted {
            workflow_id: id.try_copy()?,
            result: outcome.try_copy()?,
        };
        self.push_woken(kind, kinds)?;
        Ok(())
    }

    /// What the failure of a child writes.
    #[tactic(auto, unfolding(crate::specs::Plan::written, ndc_state::specs::Table::row))]
    fn push_child_fail(
        &self,
        id: &Name,
        reason: &Name,
        kinds: &mut Vec<EventKind>,
    ) -> Result<(), CommandError>
        ensures { Adds self.now (ChildFail id.now reason.now) kinds.old.items kinds.new.items
            result }
    {
        needs_started(
            self.child(id),
            Refusal::NoSuchChild,
            Refusal::ChildNotStarted,
        )?;
        let kind = EventKind::ChildWorkflowExecutionFailed {
            workflow_id: id.try_copy()?,
            reason: reason.try_copy()?,
        };
        self.push_woken(kind, kinds)?;
        Ok(())
    }

    /// What the command writes below the tip, after the failover close where it is due. Refused with the
    /// first of the command's own refusals that holds.
    pub(crate) fn push(
        &self,
        command: &Command,
        kinds: &mut Vec<EventKind>,
    ) -> Result<(), CommandError>
        ensures { Adds self.now command.now kinds.old.items kinds.new.items result }
    {
        match command {
            Command::Start { workflow_type } => self.push_start(workflow_type, kinds),
            Command::Signal { name, input } => self.push_signal(name, input, kinds),
            Command::Cancel => self.push_cancel(kinds),
            Command::Terminate { reason } => self.push_terminate(reason, kinds),
            Command::Decide => self.push_decide(kinds),
            Command::Respond { actions } => self.push_respond(actions, kinds),
            Command::FailDecision { cause } => self.push_fail_decision(cause, kinds),
            Command::TimeoutDecision => self.push_timeout_decision(kinds),
            Command::ActivityStart { id } => self.push_activity_start(id, kinds),
            Command::ActivityDone { id, result } => self.push_activity_done(id, result, kinds),
            Command::ActivityFail { id, reason } => self.push_activity_fail(id, reason, kinds),
            Command::ActivityTimeout { id } => self.push_activity_timeout(id, kinds),
            Command::Fire { id } => self.push_fire(id, kinds),
            Command::ChildStart { id } => self.push_child_start(id, kinds),
            Command::ChildDone { id, result } => self.push_child_done(id, result, kinds),
            Command::ChildFail { id, reason } => self.push_child_fail(id, reason, kinds),
        }
    }
}
