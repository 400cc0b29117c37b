ghost use Rattle.std.specs.Prelude.{◌≡◌, Bool, Some, OnOk, IfOk, unwrap_or, if◌then◌else◌};
ghost use Rattle.std.specs.HashMap.{get};
ghost use Rattle.ndc_event.specs.declared.name.Name.{Name as NameValue};
ghost use Rattle.ndc_event.specs.Outcome.{Gives};
ghost use Rattle.ndc_state.specs.Pendings.{same_name};
ghost use Rattle.ndc_command.specs.declared.refusal.CommandError.TheVariants.{Memory};
ghost use Rattle.ndc_command.specs.Actions.{names_of, action_kind, judged, behind};
ghost use Rattle.ndc_command.specs.Judge.{names_seen, noted, actions_by};

use crate::command::Action;
use crate::refusal::{CommandError, Refusal};
use crate::stage::refuse;
use ndc_event::{EventKind, Name, OutOfMemory, RunId};
use ndc_state::State;
use std::alloc::Global;
use std::collections::HashMap;

/// What is pending while the actions of a response are judged in turn: the state before them, which is not
/// copied, and the names that they have changed since, with whether each is pending now.
pub(crate) struct Judge<'a> {
    pub(crate) state: &'a State,
    pub(crate) running: bool,
    pub(crate) activities: HashMap<Name, bool>,
    pub(crate) timers: HashMap<Name, bool>,
    pub(crate) children: HashMap<Name, bool>,
}

impl<'a> Drop for Judge<'a> {
    fn drop(self) {
        let Judge {
            state: _state,
            running: _running,
            activities: _activities,
            timers: _timers,
            children: _children,
        } = self;
    }
}

/// Whether the name is pending: as it was changed last, or as it was before.
fn is_pending(changes: &HashMap<Name, bool>, name: &Name, before: bool) -> bool
    ensures { result ≡ unwrap_or (get same_name changes.now name.now) before }
{
    match changes.get(name) {
        None => before,
        Some(pending) => *pending,
    }
}

/// Notes whether the name is pending.
fn mark(changes: &mut HashMap<Name, bool>, name: &Name, pending: bool) -> Result<(), OutOfMemory>
    ensures { OnOk result ((other : NameValue) → get same_name changes.new other
        ≡ (if same_name name.now other then Some pending else get same_name changes.old other)) }
{
    changes.insert(name.try_copy()?, pending)?;
    Ok(())
}

/// The event of an action; a closing run goes on as the run given.
#[tactic(auto, unfolding(crate::specs::Actions::action_kind))]
fn kind_of(action: &Action, next_run: RunId) -> Result<EventKind, OutOfMemory>
    ensures { IfOk result (λ kind. kind ≡ action_kind next_run action.now) }
{
    Ok(match action {
        Action::Activity { id, activity_type } => EventKind::ActivityTaskScheduled {
            activity_id: id.try_copy()?,
            activity_type: activity_type.try_copy()?,
        },
        Action::Timer { id } => EventKind::TimerStarted {
            timer_id: id.try_copy()?,
        },
        Action::Untimer { id } => EventKind::TimerCanceled {
            timer_id: id.try_copy()?,
        },
        Action::Child { id, workflow_type } => EventKind::StartChildWorkflowExecutionInitiated {
            workflow_id: id.try_copy()?,
            workflow_type: workflow_type.try_copy()?,
        },
        Action::Marker { name } => EventKind::MarkerRecorded {
            marker_name: name.try_copy()?,
        },
        Action::Complete { result } => EventKind::WorkflowExecutionCompleted {
            result: result.try_copy()?,
        },
        Action::Fail { reason } => EventKind::WorkflowExecutionFailed {
            reason: reason.try_copy()?,
        },
        Action::Canceled => EventKind::WorkflowExecutionCanceled,
        Action::Continue { workflow_type } => EventKind::WorkflowExecutionContinuedAsNew {
            new_execution_run_id: next_run,
            workflow_type: workflow_type.try_copy()?,
        },
    })
}

impl<'a> Judge<'a> {
    ghost use Rattle.std.specs.Prelude.{◌≡◌, OnOk};
    ghost use Rattle.ndc_command.specs.Actions.{Names, names_of, action_refusal, judged};
    ghost use Rattle.ndc_command.specs.Judge.{names_seen, noted};

    /// Nothing has changed since the state.
    fn new(alloc: Global, state: &'a State) -> Judge<'a>
        ensures { names_seen result ≡ names_of state.now }
    {
        Judge {
            state,
            running: state.is_running(),
            activities: HashMap::new(alloc),
            timers: HashMap::new(alloc),
            children: HashMap::new(alloc),
        }
    }

    fn is_activity_pending(&self, name: &Name) -> bool
        ensures { result ≡ (names_seen self.now).activity name.now }
    {
        is_pending(&self.activities, name, self.state.activity(name).is_some())
    }

    fn is_timer_pending(&self, name: &Name) -> bool
        ensures { result ≡ (names_seen self.now).timer name.now }
    {
        is_pending(&self.timers, name, self.state.timer(name).is_some())
    }

    fn is_child_pending(&self, name: &Name) -> bool
        ensures { result ≡ (names_seen self.now).child name.now }
    {
        is_pending(&self.children, name, self.state.child(name).is_some())
    }

    /// The refusal of the action, where its row has one.
    #[tactic(auto, unfolding(crate::specs::Actions::action_refusal))]
    fn refusal_of(&self, action: &Action) -> Result<(), CommandError>
        ensures { result ≡ action_refusal (names_seen self.now) action.now }
    {
        match action {
            Action::Activity { id, .. } => {
                refuse(self.is_activity_pending(id), Refusal::DuplicateActivity)
            }
            Action::Timer { id } => refuse(self.is_timer_pending(id), Refusal::DuplicateTimer),
            Action::Untimer { id } => refuse(!self.is_timer_pending(id), Refusal::NoSuchTimer),
            Action::Child { id, .. } => {
                refuse(self.is_child_pending(id), Refusal::DuplicateChild)
            }
            _ => Ok(()),
        }
    }

    /// The refusal of the action: that of one after one that has closed the run, or its row's.
    fn judge(&self, action: &Action) -> Result<(), CommandError>
        ensures { result ≡ judged (names_seen self.now) action.now }
    {
        refuse(!self.running, Refusal::Closed)?;
        self.refusal_of(action)
    }

    /// Notes what the action changes.
    #[tactic(auto, unfolding(crate::specs::Judge::noted))]
    fn note(&mut self, action: &Action) -> Result<(), OutOfMemory>
        ensures { OnOk result (names_seen self.new ≡ noted action.now (names_seen self.old)) }
    {
        match action {
            Action::Activity { id, .. } => {
                mark(&mut self.activities, id, true)?;
                Ok(())
            }
            Action::Timer { id } => {
                mark(&mut self.timers, id, true)?;
                Ok(())
            }
            Action::Untimer { id } => {
                mark(&mut self.timers, id, false)?;
                Ok(())
            }
            Action::Child { id, .. } => {
                mark(&mut self.children, id, true)?;
                Ok(())
            }
            Action::Marker { .. } => Ok(()),
            Action::Complete { .. } => {
                self.running = false;
                Ok(())
            }
            Action::Fail { .. } => {
                self.running = false;
                Ok(())
            }
            Action::Canceled => {
                self.running = false;
                Ok(())
            }
            Action::Continue { .. } => {
                self.running = false;
                Ok(())
            }
        }
    }
}

/// Appends the events of the actions, each judged after those before it. Refused with the refusal of the
/// first that is forbidden.
#[tactic(auto, using(crate::proofs::JudgeLemmas::actions_step, crate::proofs::JudgeLemmas::actions_refused, crate::proofs::JudgeLemmas::actions_done))]
pub(crate) fn push_actions(
    state: &State,
    actions: &[Action],
    next_run: RunId,
    kinds: &mut Vec<EventKind>,
) -> Result<(), CommandError>
    ensures { Gives Memory (λ _. kinds.new.items) result
        (behind kinds.old.items (actions_by next_run (names_of state.now) actions.now)) }
{
    let mut judge = Judge::new(*kinds.allocator(), state);
    for action in actions {
        judge.judge(action)?;
        kinds.push(kind_of(action, next_run)?)?;
        judge.note(action)?;
    }
    Ok(())
}
