ghost use Rattle.std.specs.Prelude.{◌≡◌, not, Some, IfOk};
ghost use Rattle.ndc_model_cells.specs.Writing.{as_command_error};
ghost use Rattle.ndc_command.specs.Stage.{needs_started, refuse, stage_of};
ghost use Rattle.ndc_command.specs.declared.refusal.CommandError.TheVariants.{Memory};
ghost use Rattle.ndc_command.specs.declared.refusal.Refusal.TheVariants as refusal;
ghost use Rattle.ndc_event.specs.Outcome.{Gives};
ghost use Rattle.ndc_model.specs.Progress.{pending_activity, started_activity, version_of_event};
ghost use Rattle.ndc_model_sets.specs.Branches.{workflow_tip};
ghost use Rattle.ndc_model_sets.specs.Current.{state_to};
ghost use Rattle.ndc_model_sets.specs.Paths.{events_to};
ghost use Rattle.ndc_model_sets.specs.Sound.{IsSound};
ghost use Rattle.ndc_world_steps.specs.Versions.{told_from, version_in};

use ndc_command::{CommandError, Refusal};
use ndc_event::{Batch, BatchKey, Name, OutOfMemory};
use ndc_history::Item;
use ndc_progress::ActivityRef;
use ndc_shard_runs::Runs;
use ndc_state::{Pending, State};
use std::alloc::Global;

/// The version of the event with this id on a path with this version history, 0 where there is none: that of the first
/// item that reaches it. Ids count from 1.
fn version_in(items: &[Item], id: u64) -> u64
    ensures { result ≡ version_in id items.now }
{
    if id == 0 {
        return 0;
    }
    for item in items {
        if id <= item.id {
            return item.version;
        }
    }
    0
}

/// The version of the event with this id on the path to a batch, 0 where there is none. In time of the versions on it.
fn version_to(alloc: Global, runs: &Runs, key: BatchKey, id: u64) -> Result<u64, OutOfMemory>
    requires { IsSound runs.now }
    ensures { IfOk result (λ version. version ≡ version_of_event id (events_to key runs.now)) }
{
    match runs.history_of(alloc, key)? {
        Some(history) => Ok(version_in(history.items(), id)),
        None => Ok(0),
    }
}

/// The pending activity of this id on the branch of a tip.
pub(crate) fn pending_activity(
    alloc: Global,
    domain: &Name,
    workflow: &Name,
    id: &Name,
    runs: &Runs,
    tip: &Batch,
    state: &State,
) -> Result<ActivityRef, CommandError>
    requires state { state.now ≡ state_to tip.now.run tip.now.key runs.now }
    requires sound { IsSound runs.now }
    ensures { Gives Memory (λ activity. activity) result (pending_activity domain.now workflow.now id.now runs.now tip.now) }
{
    let Some(pending) = state.activity(id) else {
        return Err(CommandError::Refused(Refusal::NoSuchActivity));
    };
    let version = version_to(alloc, runs, tip.key, pending.scheduled)?;
    Ok(ActivityRef {
        domain: domain.try_copy()?,
        workflow: workflow.try_copy()?,
        run: state.run(),
        scheduled: pending.scheduled,
        version,
    })
}

/// Refused where the run is closed.
#[tactic(auto, unfolding(ndc_command::specs::Stage::refuse))]
fn needs_open(state: &State) -> Result<(), CommandError>
    ensures { result ≡ refuse (not state.now.running) refusal.Closed }
{
    if !state.is_running() {
        return Err(CommandError::Refused(Refusal::Closed));
    }
    Ok(())
}

/// Refused where nothing is pending, or it has not started.
#[tactic(auto, unfolding(ndc_command::specs::Stage::needs_started))]
fn needs_started(pending: Option<Pending>) -> Result<(), CommandError>
    ensures { result ≡ needs_started (stage_of pending) refusal.NoSuchActivity refusal.ActivityNotStarted }
{
    let Some(pending) = pending else {
        return Err(CommandError::Refused(Refusal::NoSuchActivity));
    };
    match pending.started {
        Some(_) => Ok(()),
        None => Err(CommandError::Refused(Refusal::ActivityNotStarted)),
    }
}

/// The same activity, where the run is open and it is started.
fn started_below(
    alloc: Global,
    domain: &Name,
    workflow: &Name,
    id: &Name,
    runs: &Runs,
    tip: &Batch,
    state: &State,
) -> Result<ActivityRef, CommandError>
    requires state { state.now ≡ state_to tip.now.run tip.now.key runs.now }
    requires sound { IsSound runs.now }
    ensures { Gives Memory (λ activity. activity) result (started_activity domain.now workflow.now id.now runs.now (Some tip.now)) }
{
    needs_open(state)?;
    needs_started(state.activity(id))?;
    let activity = pending_activity(alloc, domain, workflow, id, runs, tip, state)?;
    Ok(activity)
}

/// The activity of this id that is started on the current branch of the current run.
fn started_activity(
    alloc: Global,
    domain: &Name,
    workflow: &Name,
    id: &Name,
    runs: &Runs,
) -> Result<ActivityRef, CommandError>
    requires { IsSound runs.now }
    ensures { Gives Memory (λ activity. activity) result (started_activity domain.now workflow.now id.now runs.now (workflow_tip runs.now)) }
{
    let Some(tip) = runs.tip() else {
        return Err(CommandError::Refused(Refusal::NoWorkflow));
    };
    let Some(state) = runs.state() else {
        return Err(CommandError::Refused(Refusal::NoWorkflow));
    };
    started_below(alloc, domain, workflow, id, runs, tip, state)
}

/// A refusal to write as that of a command.
fn as_command_error(may: Result<u64, Refusal>) -> Result<u64, CommandError>
    ensures { result ≡ as_command_error may }
{
    match may {
        Ok(version) => Ok(version),
        Err(why) => Err(CommandError::Refused(why)),
    }
}

/// The version with which a cluster may tell of an activity, which is that with which it may write to the workflow, and the
/// activity, where this is learned of its workflow.
pub(crate) fn told_of(
    alloc: Global,
    domain: &Name,
    workflow: &Name,
    id: &Name,
    may: Result<u64, Refusal>,
    runs: &Runs,
) -> Result<(u64, ActivityRef), CommandError>
    requires { IsSound runs.now }
    ensures { Gives Memory (λ told. told) result (told_from may domain.now workflow.now id.now runs.now) }
{
    let version = as_command_error(may)?;
    let activity = started_activity(alloc, domain, workflow, id, runs)?;
    Ok((version, activity))
}
