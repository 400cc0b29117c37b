// What may be wrong with a batch beside the others of its set.
ghost use Rattle.std.specs.Prelude.{◌≡◌};
ghost use Rattle.std.specs.Option.{option_copied};
ghost use Rattle.ndc_model_sets.specs.Paths.{last_event};
ghost use Rattle.ndc_model_sets.specs.Sets.{Rise};
ghost use Rattle.ndc_dump_causes.specs.Causes.{closes_for, continues, is_continued_by, is_ill_formed, is_unfit_carried, is_unfit_parent, lacks_parent};

use crate::found::{batch_at, named};
use ndc_event::{Batch, Event, EventKind, RunId};
use ndc_model_sets::{first_id, last_id};

/// Whether the parent of a batch is not in the set.
pub(crate) fn lacks_parent(batches: &[Batch], batch: &Batch) -> bool
    requires { Rise batches.now }
    ensures { result ≡ lacks_parent batches.now batch.now }
{
    match batch.parent {
        None => false,
        Some(key) => batch_at(batches, key).is_none(),
    }
}

/// Whether a parent is of another run, or does not end just before the batch begins.
fn is_unfit_parent(batch: &Batch, parent: Option<&Batch>) -> bool
    ensures { result ≡ is_unfit_parent batch.now (option_copied parent.entry) }
{
    match parent {
        None => false,
        Some(parent) => {
            let first = first_id(batch.events.as_slice());
            let last = last_id(parent.events.as_slice());
            !(parent.run == batch.run && first.checked_sub(1) == Some(last))
        }
    }
}

/// Whether a batch does not go on from its parent.
pub(crate) fn is_ill_formed(batches: &[Batch], batch: &Batch) -> bool
    requires { Rise batches.now }
    ensures { result ≡ is_ill_formed batches.now batch.now }
{
    is_unfit_parent(batch, named(batches, batch.parent))
}

/// Whether an event of this kind continues its run as this one.
fn continues(run: RunId, kind: &EventKind) -> bool
    ensures { result ≡ continues run kind.now }
{
    match kind {
        EventKind::WorkflowExecutionContinuedAsNew {
            new_execution_run_id,
            ..
        } => *new_execution_run_id == run,
        _ => false,
    }
}

/// Whether the last of these events continues its run as this one.
fn is_continued_by(run: RunId, events: &[Event]) -> bool
    ensures { result ≡ is_continued_by run (last_event events.now) }
{
    match events.last() {
        None => false,
        Some(event) => continues(run, &event.kind),
    }
}

/// Whether there is a batch and it ends by continuing its run as this one.
pub fn closes_for(run: RunId, batch: Option<&Batch>) -> bool
    ensures { result ≡ closes_for run (option_copied batch.entry) }
{
    match batch {
        None => false,
        Some(batch) => is_continued_by(run, batch.events.as_slice()),
    }
}

/// Whether a batch has a carrier that is not in the set, or does not end by continuing as the batch's run.
pub(crate) fn is_unfit_carried(batches: &[Batch], batch: &Batch) -> bool
    requires { Rise batches.now }
    ensures { result ≡ is_unfit_carried batches.now batch.now }
{
    match batch.carrier {
        None => false,
        Some(key) => !closes_for(batch.run, batch_at(batches, key)),
    }
}
