ghost use Rattle.std.specs.Prelude.{◌≡◌};
ghost use Rattle.std.specs.Option.{option_copied};
ghost use Rattle.ndc_model_cells.specs.Cells.{carries};
ghost use Rattle.ndc_model_cells.specs.Writing.{key_behind};
ghost use Rattle.ndc_shard_workflows.specs.Messages.{first_key, key_if_carried};
ghost use Rattle.ndc_model_sets.specs.Sets.{batch_at};
ghost use Rattle.ndc_model_sets.specs.Sound.{IsSound};

use crate::carried::carries;
use ndc_event::{Batch, BatchKey};
use ndc_shard_runs::Runs;

/// The key of the learned batch that is carried by this one: where what is learned is sound, it is the next key.
/// One look-up.
pub(crate) fn next_carried(runs: &Runs, batch: &Batch) -> Option<BatchKey>
    requires { IsSound runs.now }
    ensures { result ≡ first_key (carries batch.now) runs.now }
{
    key_if_carried(batch, batch_behind(runs, batch.key))
}

/// The learned batch of the key just after this one.
fn batch_behind(runs: &Runs, key: BatchKey) -> Option<&Batch>
    ensures { option_copied result ≡ batch_at (key_behind key) runs.now }
{
    if runs.greatest_task() <= key.task {
        return None;
    }
    runs.get(BatchKey {
        version: key.version,
        task: key.task + 1,
    })
}

/// The key of the other batch, where there is one and it is carried by the first.
fn key_if_carried(batch: &Batch, other: Option<&Batch>) -> Option<BatchKey>
    ensures { result ≡ key_if_carried batch.now (option_copied other.entry) }
{
    match other {
        None => None,
        Some(other) => {
            if carries(batch, other) {
                Some(other.key)
            } else {
                None
            }
        }
    }
}
