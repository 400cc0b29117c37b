ghost use Rattle.std.specs.Prelude.{◌≡◌, ◌≢◌, ◌≤◌, ◌^◌, All, length, Ok, Err, None, OnOk, OnErr};
ghost use Rattle.ndc_event.specs.Outcome.{Gives};
ghost use Rattle.ndc_rebuild.specs.Kept.{kept_at, with_kept};
ghost use Rattle.ndc_run.specs.Learning.{of_state_error, or_error};
ghost use Rattle.ndc_run.specs.declared.answer.RunError.TheVariants.{Memory};
ghost use Rattle.ndc_model_sets.specs.Sets.{arrived};
ghost use Rattle.ndc_state.specs.Counted.{counted};
ghost use Rattle.ndc_state.specs.Replay.{replay, CountsWithin};
ghost use Rattle.ndc_tree.specs.Tree.{Joins};

use crate::answer::RunError;
use crate::copies::Copies;
use ndc_event::{Batch, OutOfMemory};
use ndc_state::{State, Steps, Tracked};
use ndc_tree::Tree;

/// Keeps what is to be kept of the state, which is that of the batch's path, and takes the batch in; for want of
/// memory both are as they were.
fn take_in(
    kept: &mut Copies,
    tree: &mut Tree,
    state: &Tracked,
    batch: &Batch,
) -> Result<(), OutOfMemory>
    requires joins { Joins tree.old.run tree.old.batches batch.now }
    requires fresh { kept_at batch.now.key kept.old.states ≡ None }
    ensures tree { OnOk result
        (tree.new ≡ record tree.old { batches = arrived batch.now tree.old.batches }) }
    ensures kept { OnOk result
        (kept.new.states ≡ with_kept batch.now.key
        (length batch.now.events) state.now.current kept.old.states) }
    ensures run { kept.new.run ≡ kept.old.run }
    ensures tree_err { OnErr result (tree.new ≡ tree.old) }
    ensures kept_err { OnErr result (kept.new.states ≡ kept.old.states) }
{
    let events = batch.events.as_slice().len() as u64;
    kept.keep_marked(batch.key, events, state)?;
    match tree.join(batch) {
        Ok(()) => Ok(()),
        Err(error) => {
            kept.forget(batch.key);
            Err(error)
        }
    }
}

/// Applies the batch's events to the state of its parent's path, keeps what is to be kept, and takes the batch in. For
/// want of memory, and where an event is forbidden, all is as it was.
pub(crate) fn grow<L>(
    state: &mut State,
    kept: &mut Copies,
    tree: &mut Tree,
    batch: &Batch,
    steps: &mut Steps<L>,
) -> Result<(), RunError>
    requires ids { All (λ event. event.id ≤ 10 ^ 12) batch.now.events }
    requires joins { Joins tree.old.run tree.old.batches batch.now }
    requires fresh { kept_at batch.now.key kept.old.states ≡ None }
    ensures answer { Gives Memory (λ _.
        state.new) result (or_error of_state_error (replay state.old batch.now.events)) }
    ensures tree { OnOk result
        (tree.new ≡ record tree.old { batches = arrived batch.now tree.old.batches }) }
    ensures kept { OnOk result
        (kept.new.states ≡ with_kept batch.now.key
        (length batch.now.events) state.new kept.old.states) }
    ensures run { kept.new.run ≡ kept.old.run }
    ensures state_err { OnErr result (state.new ≡ state.old) }
    ensures tree_err { OnErr result (tree.new ≡ tree.old) }
    ensures kept_err { OnErr result (kept.new.states ≡ kept.old.states) }
    ensures ok_steps { OnOk result (steps.new ≡ counted steps.old (length batch.now.events)) }
    ensures most_steps { CountsWithin steps.old (length batch.now.events) steps.new }
{
    let tracked = state.mark();
    match tracked.apply_all(batch.events.as_slice(), steps) {
        Ok(()) => {}
        Err(error) => return Err(RunError::from(error)),
    }
    match take_in(kept, tree, tracked, batch) {
        Ok(()) => {
            tracked.mark();
            Ok(())
        }
        Err(_) => {
            tracked.revert();
            Err(RunError::Memory)
        }
    }
}
