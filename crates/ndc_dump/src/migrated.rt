// Sets that were written without carriers.
ghost use Rattle.std.specs.Prelude.{◌≡◌, map, IfOk};
ghost use Rattle.ndc_model_sets.specs.Sets.{Rise};
ghost use Rattle.ndc_dump.specs.Migrated.{is_carried, key_before, migrated, standing_for, with_carrier};

use ndc_dump_causes::causes::closes_for;
use ndc_dump_causes::found::batch_at;
use ndc_event::{Batch, BatchKey, OutOfMemory};
use ndc_text::TextForm;
use std::alloc::Global;

/// The key just before, of the same version.
fn key_before(key: BatchKey) -> BatchKey
    ensures { result ≡ key_before key }
{
    BatchKey {
        version: key.version,
        task: key.task.saturating_sub(1),
    }
}

/// Whether a batch begins a run that the batch just before continues as.
fn is_carried(batches: &[Batch], batch: &Batch) -> bool
    requires { Rise batches.now }
    ensures { result ≡ is_carried batches.now batch.now }
{
    batch.parent.is_none() && closes_for(batch.run, batch_at(batches, key_before(batch.key)))
}

/// Which of the batches begin a run that the batch just before continues as.
fn carried(alloc: Global, batches: &[Batch]) -> Result<Vec<bool>, OutOfMemory>
    requires { Rise batches.now }
    ensures { IfOk result (λ marks. marks.items ≡ map (is_carried batches.now) batches.now) }
{
    let mut marks = Vec::with_capacity(alloc, batches.len())?;
    for batch in batches {
        marks.push(is_carried(batches, batch))?;
    }
    Ok(marks)
}

/// Gives the batch its carrier, where it is marked.
fn set_carrier(batch: &mut Batch, mark: bool)
    ensures { batch.new ≡ with_carrier mark batch.old }
{
    if mark {
        batch.carrier = Some(key_before(batch.key));
    }
}

/// Gives the marked batches their carriers.
fn set_carriers(batches: &mut [Batch], marks: &[bool])
    requires { marks.now ≡ map (is_carried batches.old) batches.old }
    ensures { batches.new ≡ migrated batches.old }
{
    for place in 0..batches.len() {
        set_carrier(&mut batches[place], marks[place]);
    }
}

/// The set that batches in this form represent. They get their carriers where they are.
pub(crate) fn standing_for(
    alloc: Global,
    form: TextForm,
    batches: Vec<Batch>,
) -> Result<Vec<Batch>, OutOfMemory>
    requires { Rise batches.items }
    ensures { IfOk result (λ list. list.items ≡ standing_for form batches.items) }
{
    let mut list = batches;
    match form {
        TextForm::One => {
            let marks = carried(alloc, list.as_slice())?;
            set_carriers(list.as_mut_slice(), marks.as_slice());
            Ok(list)
        }
        TextForm::Two => Ok(list),
    }
}
