// Paths replayed, and the origins of their signals.
ghost use Rattle.std.specs.Prelude.{◌≡◌, ◌++◌, ◌∷◌, [], true, is_ok, map, Ok, IfOk, OnOk, IfSome};
ghost use Rattle.std.specs.List.{AllByRecursion};
ghost use Rattle.ndc_event.specs.Outcome.{Gives};
ghost use Rattle.ndc_state.specs.Replay.{history_of, replay_of};
ghost use Rattle.ndc_state.specs.declared.rule.StateError.TheVariants.{Memory};
ghost use Rattle.ndc_model_sets.specs.Origins.{origins_in};
ghost use Rattle.ndc_model_sets.specs.Paths.{path_from};
ghost use Rattle.ndc_model_sets.specs.Sets.{Has};
ghost use Rattle.ndc_dump_causes.specs.Causes.{has_origin_twice, has_twice, holds_of_none, is_forbidden, is_ill_formed};
ghost use Rattle.ndc_dump_causes.specs.Given.{AreRead, HasSmallIds};
ghost use Rattle.ndc_dump_causes.specs.Replaying.{AreKept, IsStateAt, IsStateOf, replays_to};
ghost use Rattle.ndc_dump_causes.specs.Trails.{AreKnown};
ghost use Rattle.ndc_dump_causes.specs.declared.error.KeyCause.TheVariants.{NotWellFormed, OriginTwice};

use crate::ancestors::path_from;
use crate::keys::KeySet;
use crate::order::Step;
use indexmap::IndexSet;
use ndc_event::{Batch, BatchKey, Event, EventKind, Origin, OutOfMemory, RunId};
use ndc_state::{State, StateError, Steps, origin_of};
use std::alloc::{AllocError, Global};

/// Marks the steps that are taken here.
struct Reading;

/// The state of a run after all events of a path, or what forbids the first that is forbidden.
pub(crate) fn state_of(alloc: Global, run: RunId, path: &[&Batch]) -> Result<State, StateError>
    requires { AllByRecursion HasSmallIds (map (λ b. b.now) path.now) }
    ensures { Gives Memory (λ state.
        state) result (replay_of run (history_of (map (λ b. b.now) path.now))) }
{
    let mut state = State::new(alloc, run);
    let mut steps: Steps<Reading> = Steps::new();
    for batch in path {
        match state.apply_all(batch.events.as_slice(), &mut steps) {
            Ok(()) => {}
            Err(error) => return Err(error),
        }
    }
    Ok(state)
}

/// Whether the path that ends where this key is wanted replays as one of the run.
pub(crate) fn replays(
    alloc: Global,
    batches: &[Batch],
    run: RunId,
    wanted: Option<BatchKey>,
) -> Result<bool, OutOfMemory>
    requires { AreRead batches.now }
    ensures { IfOk result (λ test.
        test ≡ is_ok (replay_of run (history_of (path_from wanted batches.now)))) }
{
    let path = path_from(alloc, batches, wanted)?;
    match state_of(alloc, run, path.as_slice()) {
        Ok(_) => Ok(true),
        Err(StateError::Memory) => Err(AllocError),
        Err(StateError::Invalid { .. }) => Ok(false),
    }
}

/// Whether the path to a batch does not replay, and the path to its parent does.
pub(crate) fn is_forbidden(
    alloc: Global,
    batches: &[Batch],
    batch: &Batch,
) -> Result<bool, OutOfMemory>
    requires { AreRead batches.now }
    ensures { IfOk result (λ test. test ≡ is_forbidden batches.now batch.now) }
{
    if replays(alloc, batches, batch.run, Some(batch.key))? {
        return Ok(false);
    }
    replays(alloc, batches, batch.run, batch.parent)
}

/// Lists the origin of the event, where it is a signal.
fn push_origin(origins: &mut Vec<Origin>, run: RunId, event: &Event) -> Result<(), OutOfMemory>
    ensures { OnOk result (origins.new.items
        ≡ origins.old.items ++ origins_in run (event.now ∷ [])) }
{
    match &event.kind {
        EventKind::WorkflowExecutionSignaled { origin, .. } => {
            origins.push(origin_of(run, event, origin))?;
            Ok(())
        }
        _ => Ok(()),
    }
}

/// Lists the origins of the signals among the events.
fn push_origins(origins: &mut Vec<Origin>, run: RunId, events: &[Event]) -> Result<(), OutOfMemory>
    ensures { OnOk result (origins.new.items ≡ origins.old.items ++ origins_in run events.now) }
{
    for event in events {
        push_origin(origins, run, event)?;
    }
    Ok(())
}

/// The origins of the signals on a path.
fn origins_of(alloc: Global, run: RunId, path: &[&Batch]) -> Result<Vec<Origin>, OutOfMemory>
    ensures { IfOk result (λ origins.
        origins.items ≡ origins_in run (history_of (map (λ b. b.now) path.now))) }
{
    let mut origins = Vec::new(alloc);
    for batch in path {
        push_origins(&mut origins, run, batch.events.as_slice())?;
    }
    Ok(origins)
}

/// Whether an origin stands twice.
fn has_twice(alloc: Global, origins: &[Origin]) -> Result<bool, OutOfMemory>
    ensures { IfOk result (λ test. test ≡ has_twice origins.now) }
{
    let mut seen: IndexSet<Origin> = IndexSet::new(alloc);
    for origin in origins {
        if seen.contains(origin) {
            return Ok(true);
        }
        seen.insert(*origin)?;
    }
    Ok(false)
}

/// Whether two signals on the path to a batch have one origin.
pub(crate) fn has_origin_twice(
    alloc: Global,
    batches: &[Batch],
    batch: &Batch,
) -> Result<bool, OutOfMemory>
    requires { AreRead batches.now }
    ensures { IfOk result (λ test. test ≡ has_origin_twice batches.now batch.now) }
{
    let path = path_from(alloc, batches, Some(batch.key))?;
    let origins = origins_of(alloc, batch.run, path.as_slice())?;
    has_twice(alloc, origins.as_slice())
}

/// A batch whose path was replayed and below which more are to come, and the state after it but for its origins.
#[derive(Drop)]
pub(crate) struct Kept {
    key: BatchKey,
    state: State,
}

/// The state that is kept for this key, where one is; what is kept for later keys is dropped. It is given away where it
/// is the last time, else copied without its origins.
fn kept_at(
    kept: &mut Vec<Kept>,
    batches: &[Batch],
    key: BatchKey,
    is_last: bool,
) -> Result<Option<State>, OutOfMemory>
    requires { AreKept batches.now kept.old.items }
    ensures kept { OnOk result (AreKept batches.now kept.new.items) }
    ensures state { IfOk result (λ state. IfSome state (λ s. IsStateAt batches.now key s)) }
{
    let place = kept
        .as_slice()
        .partition_point(|one| one.key.is_before(key));
    kept.truncate(place.saturating_add(1));
    let Some(one) = kept.pop() else {
        return Ok(None);
    };
    if one.key != key {
        kept.push(one)?;
        return Ok(None);
    }
    if is_last {
        return Ok(Some(one.state));
    }
    let state = one.state.try_copy_without_origins()?;
    kept.push(one)?;
    Ok(Some(state))
}

/// The state after the parent of a batch, where it is kept, or of no event where the batch has no parent.
fn state_before(
    alloc: Global,
    kept: &mut Vec<Kept>,
    batches: &[Batch],
    batch: &Batch,
    is_last: bool,
) -> Result<Option<State>, OutOfMemory>
    requires has { Has batches.now batch.now }
    requires formed { holds_of_none NotWellFormed (is_ill_formed batches.now) batches.now ≡ Ok tt }
    requires kept { AreKept batches.now kept.old.items }
    ensures kept { OnOk result (AreKept batches.now kept.new.items) }
    ensures state { IfOk result (λ state.
        IfSome state (λ s. IsStateOf s batch.now.run
        (history_of (path_from batch.now.parent batches.now)))) }
{
    match batch.parent {
        None => Ok(Some(State::new(alloc, batch.run))),
        Some(key) => kept_at(kept, batches, key, is_last),
    }
}

/// Replays a batch after its parent, where the state there is kept; answers whether it replays, and then keeps the
/// state where more is to come below it.
fn replay_one(
    alloc: Global,
    kept: &mut Vec<Kept>,
    batches: &[Batch],
    batch: &Batch,
    step: &Step,
) -> Result<bool, OutOfMemory>
    requires read { AreRead batches.now }
    requires formed { holds_of_none NotWellFormed (is_ill_formed batches.now) batches.now ≡ Ok tt }
    requires once { holds_of_none OriginTwice (has_origin_twice batches.now) batches.now ≡ Ok tt }
    requires has { Has batches.now batch.now }
    requires kept { AreKept batches.now kept.old.items }
    ensures kept { OnOk result (AreKept batches.now kept.new.items) }
    ensures replays { IfOk result (λ test. test ≡ true → replays_to batches.now batch.now ≡ true) }
{
    let Some(mut state) = state_before(alloc, kept, batches, batch, step.is_last)? else {
        return Ok(false);
    };
    let mut steps: Steps<Reading> = Steps::new();
    match state.apply_all(batch.events.as_slice(), &mut steps) {
        Ok(()) => {}
        Err(StateError::Memory) => return Err(AllocError),
        Err(StateError::Invalid { .. }) => return Ok(false),
    }
    if step.has_child {
        kept.push(Kept {
            key: batch.key,
            state,
        })?;
    }
    Ok(true)
}

/// Replays the batch of a step, and lists its key where its path replays.
fn replay_step(
    alloc: Global,
    kept: &mut Vec<Kept>,
    keys: &mut KeySet,
    batches: &[Batch],
    step: &Step,
) -> Result<(), OutOfMemory>
    requires read { AreRead batches.now }
    requires formed { holds_of_none NotWellFormed (is_ill_formed batches.now) batches.now ≡ Ok tt }
    requires once { holds_of_none OriginTwice (has_origin_twice batches.now) batches.now ≡ Ok tt }
    requires kept { AreKept batches.now kept.old.items }
    requires known { AreKnown (λ b. replays_to batches.now b ≡ true) batches.now keys.old }
    ensures kept { OnOk result (AreKept batches.now kept.new.items) }
    ensures known { OnOk result
        (AreKnown (λ b. replays_to batches.now b ≡ true) batches.now keys.new) }
{
    if batches.len() <= step.place {
        return Ok(());
    }
    let batch = &batches[step.place];
    if !replay_one(alloc, kept, batches, batch, step)? {
        return Ok(());
    }
    keys.insert(batch.key)?;
    Ok(())
}

/// Keys of batches whose paths replay: of all those of which this is true, where the steps come from
/// [`crate::order::steps_of`]. Each batch is replayed once, and a state is copied, without its origins, where paths part.
pub(crate) fn keys_that_replay(
    alloc: Global,
    batches: &[Batch],
    steps: &[Step],
) -> Result<KeySet, OutOfMemory>
    requires read { AreRead batches.now }
    requires formed { holds_of_none NotWellFormed (is_ill_formed batches.now) batches.now ≡ Ok tt }
    requires once { holds_of_none OriginTwice (has_origin_twice batches.now) batches.now ≡ Ok tt }
    ensures { IfOk result (λ keys.
        AreKnown (λ b. replays_to batches.now b ≡ true) batches.now keys) }
{
    let mut kept = Vec::new(alloc);
    let mut keys = KeySet::new(alloc);
    for step in steps {
        replay_step(alloc, &mut kept, &mut keys, batches, step)?;
    }
    Ok(keys)
}
