// The runs of a set of batches: they are learned one after the other, as a cell learns them.
ghost use Rattle.std.specs.Prelude.{◌≡◌, Ok, IfOk};
ghost use Rattle.ndc_model_sets.specs.Sound.{IsSound};
ghost use Rattle.ndc_model_sets.specs.View.{view_of};
ghost use Rattle.ndc_dump_causes.specs.Causes.{sound_or};
ghost use Rattle.ndc_dump_causes.specs.Given.{AreRead};

use ndc_event::{Batch, OutOfMemory};
use ndc_model_sets::RunView;
use ndc_shard_runs::Runs;
use ndc_state::Steps;
use std::alloc::Global;

/// Marks the steps that are taken here.
struct Showing;

/// A workflow of which these batches are learned.
fn learned(alloc: Global, batches: &[Batch]) -> Result<Runs, OutOfMemory>
    requires read { AreRead batches.now }
    requires sound { IsSound batches.now }
    ensures { IfOk result (λ runs. runs ≡ batches.now) }
{
    let mut runs = Runs::new(alloc);
    let mut steps: Steps<Showing> = Steps::new();
    for batch in batches {
        runs.learn(alloc, batch, &mut steps)?;
    }
    Ok(runs)
}

/// The runs of the view of a set that none of the causes holds of. What was learned for them is dropped.
pub(crate) fn runs_of(alloc: Global, batches: &[Batch]) -> Result<Vec<RunView>, OutOfMemory>
    requires read { AreRead batches.now }
    requires sound { sound_or batches.now ≡ Ok tt }
    ensures { IfOk result (λ list. list.items ≡ (view_of batches.now).runs) }
{
    let runs = learned(alloc, batches)?;
    let mut steps: Steps<Showing> = Steps::new();
    runs.runs_shown(alloc, &mut steps)
}
