ghost use Rattle.std.specs.Prelude.{◌≡◌, ◌≤◌, ◌^◌, IfOk, IfSome, option_to_list};
ghost use Rattle.ndc_model_cells.specs.Writing.{greatest_task, reapplication_below, state_under};
ghost use Rattle.ndc_model_sets.specs.Branches.{workflow_tip};
ghost use Rattle.ndc_model_sets.specs.Current.{strays};

use crate::batch::batch_below;
use crate::entry::Entry;
use crate::tip::tip_of;
use crate::writing::next_key;
use ndc_event::{Name, OutOfMemory};
use ndc_reapply::{Stray, reapply_events};
use ndc_shard_runs::Runs;
use std::alloc::Global;

/// What reapplication writes with this version to a workflow, of which this is learned, with these strays: below the
/// tip of the current branch of the current run a batch with a copy of each stray. Nothing where there is no stray, and
/// nothing where there is no run or the current one is closed.
pub fn reapplication_entry(
    alloc: Global,
    domain: &Name,
    workflow: &Name,
    version: u64,
    list: &[Stray],
    runs: &Runs,
) -> Result<Option<Entry>, OutOfMemory>
    requires strays { list.now ≡ strays runs.now }
    requires tasks { greatest_task runs.now ≤ 10 ^ 12 }
    requires ids { IfSome (state_under (workflow_tip runs.now) runs.now) (λ s. s.next ≤ 10 ^ 12) }
    ensures { IfOk result (λ entry.
        option_to_list entry ≡ reapplication_below domain.now workflow.now version
        (workflow_tip runs.now) runs.now (strays runs.now)) }
{
    if list.is_empty() {
        return Ok(None);
    }
    let Some(tip) = tip_of(runs) else {
        return Ok(None);
    };
    if !tip.state.is_running() {
        return Ok(None);
    }
    let kinds = reapply_events(alloc, tip.state, version, list)?;
    let batch = batch_below(
        alloc,
        domain,
        workflow,
        next_key(version, runs),
        &tip,
        kinds,
    )?;
    Ok(Some(Entry::alone(batch)))
}
