ghost use Rattle.std.specs.Prelude.{◌≡◌, length, map, IfOk};
ghost use Rattle.std.specs.List.{sum_by};
ghost use Rattle.ndc_model_cells.specs.Cells.{learned_of};
ghost use Rattle.ndc_world_queries.specs.Summaries.{branch_count};

use ndc_cluster_reads::Reads;
use ndc_event::{Batch, Name, OutOfMemory};
use ndc_model_sets::RunView;
use ndc_shard_runs::Runs;
use ndc_state::Steps;
use ndc_world_answers::sum;
use std::alloc::Global;

/// Steps of restoring states are counted under this name.
struct Restoring;

/// What a cell has learned of a workflow, in key order.
pub(crate) fn learned_of<'a, C: Reads>(
    alloc: Global,
    cell: &'a C,
    domain: &Name,
    workflow: &Name,
) -> Result<Vec<&'a Batch>, OutOfMemory>
    ensures { IfOk result (λ list. map (λ b. b.now) list.items ≡ learned_of domain.now workflow.now (C.cell cell.now)) }
{
    match cell.runs(domain, workflow) {
        Some(runs) => runs.batches(alloc),
        None => Ok(Vec::new(alloc)),
    }
}

/// How many branches these runs have.
fn branches_in(runs: &[RunView]) -> Result<u64, OutOfMemory>
    ensures { IfOk result (λ count. count ≡ sum_by (λ run. length run.branches) runs.now) }
{
    let mut count = 0;
    for run in runs {
        count = sum(count, run.branches.as_slice().len() as u64)?;
    }
    Ok(count)
}

/// How many branches the runs of a workflow have.
fn branches_of(alloc: Global, runs: &Runs) -> Result<u64, OutOfMemory>
    ensures { IfOk result (λ count. count ≡ branch_count runs.now) }
{
    let mut steps: Steps<Restoring> = Steps::new();
    let shown = runs.runs_shown(alloc, &mut steps)?;
    branches_in(shown.as_slice())
}

/// How many branches the runs of a workflow have, by what a cell has learned of it.
#[tactic(auto, using(crate::proofs::PartLemmas::no_branch))]
pub(crate) fn branch_count<C: Reads>(
    alloc: Global,
    cell: &C,
    domain: &Name,
    workflow: &Name,
) -> Result<u64, OutOfMemory>
    ensures { IfOk result (λ count. count ≡ branch_count (learned_of domain.now workflow.now (C.cell cell.now))) }
{
    match cell.runs(domain, workflow) {
        Some(runs) => branches_of(alloc, runs),
        None => Ok(0),
    }
}
