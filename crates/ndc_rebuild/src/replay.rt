ghost use Rattle.std.specs.Prelude.{◌≡◌, ◌≢◌, length, map, Err, IfOk, OnOk, OnErr};
ghost use Rattle.ndc_event.specs.Outcome.{Gives};
ghost use Rattle.ndc_state.specs.declared.rule.StateError.TheVariants.{Memory};
ghost use Rattle.ndc_state.specs.Counted.{counted};
ghost use Rattle.ndc_state.specs.Replay.{history_of, replay, replay_of, allowed_count, CountsWithin};
ghost use Rattle.ndc_state.specs.Value.{new_state};
ghost use Rattle.ndc_rebuild.specs.Rebuilt.{HaveSmallIds};

use ndc_event::{Batch, OutOfMemory, RunId};
use ndc_state::{State, StateError, Steps};
use std::alloc::Global;

/// The state of a run after all events of the batches, in order; one step is counted for each event that is
/// applied. Refused with [`StateError::Invalid`] for the first event that is forbidden, with its first rule.
pub fn rebuild<L>(
    alloc: Global,
    run: RunId,
    batches: &[Batch],
    steps: &mut Steps<L>,
) -> Result<State, StateError>
    requires { HaveSmallIds batches.now }
    ensures answer { Gives Memory (λ state. state) result (replay_of run (history_of batches.now)) }
    ensures ok_steps { OnOk result
        (steps.new ≡ counted steps.old (length (history_of batches.now))) }
    ensures most_steps { CountsWithin steps.old
        (allowed_count (new_state run) (history_of batches.now)) steps.new }
{
    let lent = lent(alloc, batches)?;
    rebuild_along(alloc, run, lent.as_slice(), steps)
}

/// Does what [`rebuild`] does, for batches that are lent.
pub(crate) fn rebuild_along<L>(
    alloc: Global,
    run: RunId,
    batches: &[&Batch],
    steps: &mut Steps<L>,
) -> Result<State, StateError>
    requires { HaveSmallIds (map (λ b. b.now) batches.now) }
    ensures answer { Gives Memory (λ state.
        state) result (replay_of run (history_of (map (λ b. b.now) batches.now))) }
    ensures ok_steps { OnOk result
        (steps.new ≡ counted steps.old (length (history_of (map (λ b. b.now) batches.now)))) }
    ensures most_steps { CountsWithin steps.old
        (allowed_count (new_state run) (history_of (map (λ b. b.now) batches.now))) steps.new }
{
    let mut state = State::new(alloc, run);
    match replay_batches(&mut state, batches, steps) {
        Ok(()) => Ok(state),
        Err(error) => Err(error),
    }
}

/// Applies the events of the batches, in order. After an error some of the batches have been applied.
pub(crate) fn replay_batches<L>(
    state: &mut State,
    batches: &[&Batch],
    steps: &mut Steps<L>,
) -> Result<(), StateError>
    requires { HaveSmallIds (map (λ b. b.now) batches.now) }
    ensures answer { Gives Memory (λ _.
        state.new) result (replay state.old (history_of (map (λ b. b.now) batches.now))) }
    ensures ok_steps { OnOk result
        (steps.new ≡ counted steps.old (length (history_of (map (λ b. b.now) batches.now)))) }
    ensures most_steps { CountsWithin steps.old
        (allowed_count state.old (history_of (map (λ b. b.now) batches.now))) steps.new }
{
    for batch in batches {
        match state.apply_all(batch.events.as_slice(), steps) {
            Ok(()) => {}
            Err(error) => return Err(error),
        }
    }
    Ok(())
}

/// The batches, lent one by one.
pub(crate) fn lent(alloc: Global, batches: &[Batch]) -> Result<Vec<&Batch>, OutOfMemory>
    ensures { IfOk result (λ list. map (λ b. b.now) list.items ≡ batches.now) }
{
    batches.iter().collect(alloc)
}
