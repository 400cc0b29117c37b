ghost use Rattle.std.specs.Prelude.{◌≡◌, ◌+◌, ◌-◌, IsTrue, IfSome, nat_lt};
ghost use Rattle.ndc_event.specs.Outcome.{Gives};
ghost use Rattle.ndc_command.specs.declared.refusal.CommandError.TheVariants.{Memory};
ghost use Rattle.ndc_command.specs.declared.command.Command.TheVariants.{Start};
ghost use Rattle.ndc_command.specs.Plan.{plan_of, plan_below, plan_in_run, start_of, within};
ghost use Rattle.std.specs.Option.{option_copied};

use crate::command::Command;
use crate::refusal::{CommandError, Refusal};
use crate::stage::refuse;
use crate::tip::{Tip, push_beginning};
use ndc_event::{EventKind, Name, RunId};
use ndc_state::State;
use std::alloc::Global;

/// Whether so many events after one with this id are above the limit.
fn is_above(limit: u64, last: u64, count: usize) -> bool
    ensures { result ≡ nat_lt limit (last + count) }
{
    match limit.checked_sub(last) {
        None => true,
        Some(room) => room < count as u64,
    }
}

/// What a start writes: the first batch of a new run.
#[tactic(auto, unfolding(crate::specs::Plan::start_of, crate::specs::Plan::within))]
fn plan_start(
    alloc: Global,
    state: Option<&State>,
    workflow_type: &Name,
    limit: u64,
) -> Result<Vec<EventKind>, CommandError>
    ensures { Gives Memory (λ kinds.
        kinds.items) result (start_of (option_copied state.entry) workflow_type.now limit) }
{
    let is_running = match state {
        None => false,
        Some(state) => state.is_running(),
    };
    refuse(is_running, Refusal::AlreadyRunning)?;
    let mut kinds = Vec::new(alloc);
    push_beginning(workflow_type, &mut kinds)?;
    refuse(is_above(limit, 0, kinds.len()), Refusal::HistoryFull)?;
    Ok(kinds)
}

/// What a command that is not a start writes below the tip of a run.
#[tactic(auto, unfolding(crate::specs::Plan::plan_below, crate::specs::Plan::within))]
fn plan_below(
    alloc: Global,
    state: &State,
    command: &Command,
    version: u64,
    limit: u64,
    next_run: RunId,
) -> Result<Vec<EventKind>, CommandError>
    ensures { Gives Memory (λ kinds.
        kinds.items) result (plan_below state.now command.now version limit next_run) }
{
    refuse(!state.is_running(), Refusal::Closed)?;
    let mut kinds = Vec::new(alloc);
    state.push_failover_close(alloc, version, &mut kinds)?;
    let tip = Tip {
        state,
        version,
        next_run,
    };
    tip.push(command, &mut kinds)?;
    let last = state.next().saturating_sub(1);
    refuse(is_above(limit, last, kinds.len()), Refusal::HistoryFull)?;
    Ok(kinds)
}

/// What a command that is not a start writes in the current run, where there is one.
fn plan_in_run(
    alloc: Global,
    state: Option<&State>,
    command: &Command,
    version: u64,
    limit: u64,
    next_run: RunId,
) -> Result<Vec<EventKind>, CommandError>
    ensures { Gives Memory (λ kinds.
        kinds.items) result (plan_in_run
        (option_copied state.entry) command.now version limit next_run) }
{
    match state {
        None => Err(CommandError::Refused(Refusal::NoWorkflow)),
        Some(state) => plan_below(alloc, state, command, version, limit, next_run),
    }
}

/// The kinds of the events that a command writes, in order.
///
/// `state` is that of the current run's current branch; none where the workflow has no run. `version` is
/// that of the new batch, which is not below the state's, `limit` is the greatest number of events that a
/// run's history may have, and `next_run` is the run that a closing one goes on as. A start writes in a new
/// run, any other command below the tip of the current one. Where a decision of an older version is started
/// there, the events begin with its failover close, and the command is judged after that. The actions of a
/// response are judged in turn, each after the events before it. Of a response that closes the run and
/// goes on, these are the events of the closing run; those of the new run are what a start writes.
///
/// Refused with the first of these that holds: [`Refusal::NoWorkflow`] where there is no run and the command is
/// no start; [`Refusal::AlreadyRunning`] at a start where the run is open, [`Refusal::Closed`] at any other
/// command where it is closed; the refusal of the command's own, or of the first action that is forbidden, where
/// one after an action that closes the run is [`Refusal::Closed`]; [`Refusal::HistoryFull`] where the run's
/// history would have more events than the limit.
#[tactic(auto, unfolding(crate::specs::Plan::plan_of))]
pub fn plan(
    alloc: Global,
    state: Option<&State>,
    command: &Command,
    version: u64,
    limit: u64,
    next_run: RunId,
) -> Result<Vec<EventKind>, CommandError>
    ensures { Gives Memory (λ kinds.
        kinds.items) result (plan_of
        (option_copied state.entry) command.now version limit next_run) }
{
    match command {
        Command::Start { workflow_type } => plan_start(alloc, state, workflow_type, limit),
        _ => plan_in_run(alloc, state, command, version, limit, next_run),
    }
}
