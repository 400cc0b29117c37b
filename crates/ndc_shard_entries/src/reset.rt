ghost use Rattle.std.specs.Prelude.{◌≡◌, ◌≤◌, ◌+◌, ◌-◌, ◌++◌, ◌^◌, codes, nat_lt, option_to_list, Ok, Err, IfOk, OnOk, map, if◌then◌else◌};
ghost use Rattle.ndc_model_cells.specs.Writing.{closing_entries, greatest_task, is_close_full, reset_below, reset_close, reset_entries, reset_key, reset_refused};
ghost use Rattle.ndc_command.specs.declared.refusal.CommandError.TheVariants.{Memory, Refused};
ghost use Rattle.ndc_command.specs.declared.refusal.Refusal.TheVariants.{HistoryFull};
ghost use Rattle.ndc_event.specs.Outcome.{Gives};
ghost use Rattle.ndc_reset.specs.Reset.{reset_of};
ghost use Rattle.ndc_model_sets.specs.Branches.{workflow_tip};
ghost use Rattle.ndc_model_sets.specs.Paths.{events_to};
ghost use Rattle.ndc_state.specs.Replay.{history_of};

use crate::batch::{batch_below, first_batch, key_behind};
use crate::entry::Entry;
use crate::tip::{Tip, tip_of};
use crate::writing::next_key;
use ndc_command::{CommandError, Refusal};
use ndc_event::{Batch, BatchKey, Event, EventKind, Name, NameError, OutOfMemory, RunId};
use ndc_reset::{ResetError, plan_reset_of};
use ndc_shard_runs::Runs;
use ndc_state::State;
use std::alloc::{AllocError, Global};

/// What a reset at this event of the current branch of the current run writes with this version to a workflow, of which
/// this is learned: where the run is open the batch that closes it, and then the first batch of a new run. In time of
/// the events of the branch. Refused with the first of these that holds: [`Refusal::NoWorkflow`] where there is no run;
/// [`Refusal::NoSuchPoint`] where the branch has no completed decision of this id; [`Refusal::HistoryFull`] where the
/// new run's history or the old one's with what closes it would have more than `limit` events.
/// [`CommandError::Memory`] comes for want of memory alone.
pub fn reset_entries(
    alloc: Global,
    domain: &Name,
    workflow: &Name,
    event: u64,
    limit: u64,
    version: u64,
    runs: &Runs,
) -> Result<Vec<Entry>, CommandError>
    requires { greatest_task runs.now ≤ 10 ^ 12 }
    ensures { Gives Memory (λ entries.
        entries.items) result (reset_below domain.now workflow.now event limit version
        (workflow_tip runs.now) runs.now) }
{
    let Some(tip) = tip_of(runs) else {
        return Err(CommandError::Refused(Refusal::NoWorkflow));
    };
    let history = history_to(alloc, runs, tip.batch.key)?;
    let kinds = new_kinds(alloc, history.as_slice(), tip.batch.run, event, limit)?;
    let key = next_key(version, runs);
    let closing = closing_entry(alloc, domain, workflow, limit, key, &tip)?;
    let key = reset_key(key, tip.state);
    let batch = first_batch(alloc, domain, workflow, key, None, kinds)?;
    let entries = both(alloc, closing, Entry::alone(batch))?;
    Ok(entries)
}

/// The kinds of the new run.
fn new_kinds(
    alloc: Global,
    history: &[&Event],
    run: RunId,
    event: u64,
    limit: u64,
) -> Result<Vec<EventKind>, CommandError>
    ensures { Gives Memory (λ kinds. kinds.items) result (reset_refused
        (reset_of (map (λ e. e.now) history.now) run event limit)) }
{
    match plan_reset_of(alloc, history, run, event, limit) {
        Ok(kinds) => Ok(kinds),
        Err(ResetError::NoSuchPoint) => Err(CommandError::Refused(Refusal::NoSuchPoint)),
        Err(ResetError::HistoryFull) => Err(CommandError::Refused(Refusal::HistoryFull)),
        Err(ResetError::Memory) => Err(CommandError::Memory),
    }
}

/// The batch that closes the run of the tip, where it is open.
fn closing_entry(
    alloc: Global,
    domain: &Name,
    workflow: &Name,
    limit: u64,
    key: BatchKey,
    tip: &Tip<'_>,
) -> Result<Option<Entry>, CommandError>
    ensures { Gives Memory (λ entry. option_to_list entry) result
        (if is_close_full limit tip.now.state.now key.version then Err (Refused HistoryFull) else Ok
        (closing_entries domain.now workflow.now key tip.now.batch.now tip.now.state.now)) }
{
    if !tip.state.is_running() {
        return Ok(None);
    }
    let kinds = closing_kinds(alloc, tip.state, key.version)?;
    if is_above(limit, tip.state.next().saturating_sub(1), kinds.len()) {
        return Err(CommandError::Refused(Refusal::HistoryFull));
    }
    let batch = batch_below(alloc, domain, workflow, key, tip, kinds)?;
    Ok(Some(Entry::alone(batch)))
}

/// The kinds that close an open run before a reset.
fn closing_kinds(alloc: Global, state: &State, version: u64) -> Result<Vec<EventKind>, OutOfMemory>
    ensures { IfOk result (λ kinds. kinds.items ≡ reset_close state.now version) }
{
    let mut kinds = Vec::new(alloc);
    state.push_failover_close(alloc, version, &mut kinds)?;
    kinds.push(EventKind::WorkflowExecutionTerminated {
        reason: reset_reason(alloc)?,
    })?;
    Ok(kinds)
}

/// Why a run is closed before a reset.
fn reset_reason(alloc: Global) -> Result<Name, OutOfMemory>
    ensures { IfOk result (λ name. name ≡ codes "reset") }
{
    match Name::new(alloc, b"reset".as_slice()) {
        Ok(name) => Ok(name),
        Err(NameError::Memory) => Err(AllocError),
        Err(_) => unreachable!(),
    }
}

/// Whether so many events after one with this id are above the limit.
fn is_above(limit: u64, last: u64, count: usize) -> bool
    ensures { result ≡ nat_lt limit (last + count) }
{
    match limit.checked_sub(last) {
        None => true,
        Some(room) => room < count as u64,
    }
}

/// The key of the new run's first batch: after the closing one, where there is one.
fn reset_key(key: BatchKey, state: &State) -> BatchKey
    requires { key.task ≤ 2 ^ 60 }
    ensures { result ≡ reset_key key state.now }
{
    if state.is_running() {
        key_behind(key)
    } else {
        key
    }
}

/// The entry that there may be, and the other one after it.
fn both(alloc: Global, first: Option<Entry>, second: Entry) -> Result<Vec<Entry>, OutOfMemory>
    ensures { IfOk result (λ entries.
        entries.items ≡ option_to_list first ++ option_to_list (Some second)) }
{
    let mut entries = Vec::with_capacity(alloc, 2)?;
    if let Some(first) = first {
        entries.push(first)?;
    }
    entries.push(second)?;
    Ok(entries)
}

/// The events of the path to the batch of this key.
fn history_to(alloc: Global, runs: &Runs, key: BatchKey) -> Result<Vec<&Event>, OutOfMemory>
    ensures { IfOk result (λ events. map (λ e. e.now) events.items ≡ events_to key runs.now) }
{
    match runs.path(alloc, key)? {
        None => Ok(Vec::new(alloc)),
        Some(path) => events_of(alloc, path.as_slice()),
    }
}

/// The events of the batches, in order.
fn events_of<'b>(alloc: Global, batches: &[&'b Batch]) -> Result<Vec<&'b Event>, OutOfMemory>
    ensures { IfOk result (λ events.
        map (λ e. e.now) events.items ≡ history_of (map (λ b. b.now) batches.now)) }
{
    let mut events = Vec::new(alloc);
    for batch in batches {
        let more = batch.events.as_slice();
        events.reserve(more.len())?;
        push_events(&mut events, more)?;
    }
    Ok(events)
}

/// Appends the events.
fn push_events<'b>(events: &mut Vec<&'b Event>, more: &'b [Event]) -> Result<(), OutOfMemory>
    ensures { OnOk result (map (λ e. e.now) events.new.items
        ≡ map (λ e. e.now) events.old.items ++ more.now) }
{
    for event in more {
        events.push(event)?;
    }
    Ok(())
}
