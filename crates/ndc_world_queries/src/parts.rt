ghost use Rattle.std.specs.Prelude.{◌≡◌, map, IfOk};
ghost use Rattle.ndc_world_queries.specs.Summaries.{added, branch_count, first_learned, one_if_any, part_of, totals_in};

use crate::alike::are_alike;
use crate::found::found_in;
use crate::learned::{branch_count, learned_of};
use ndc_cluster_reads::Reads;
use ndc_event::{Batch, OutOfMemory};
use ndc_world_answers::sum;
use std::alloc::Global;

/// What the clusters of a script come to.
#[derive(Clone, Copy, Debug, PartialEq, Eq)]
pub struct Totals {
    /// How many batches all clusters have written.
    pub batches: u64,
    /// Of how many workflows the first cluster has learned anything.
    pub workflows: u64,
    /// How many branches the runs of these workflows have at the first cluster.
    pub branches: u64,
    /// Whether all clusters hold one table and have learned the same of each workflow.
    pub same: bool,
}

/// Two parts together.
pub(crate) fn added(one: Totals, two: Totals) -> Result<Totals, OutOfMemory>
    ensures { IfOk result (λ both. both ≡ added one two) }
{
    Ok(Totals {
        batches: sum(one.batches, two.batches)?,
        workflows: sum(one.workflows, two.workflows)?,
        branches: sum(one.branches, two.branches)?,
        same: one.same && two.same,
    })
}

/// One, where the first cell has learned anything of the workflow of a batch; and how many branches its runs have there.
fn counts_of<C: Reads>(
    alloc: Global,
    cells: &[&C],
    batch: &Batch,
) -> Result<(u64, u64), OutOfMemory>
    ensures workflows { IfOk result (λ counts. counts.0 ≡ one_if_any (first_learned (map (λ cell. C.cell cell.now) cells.now) batch.now)) }
    ensures branches { IfOk result (λ counts. counts.1 ≡ branch_count (first_learned (map (λ cell. C.cell cell.now) cells.now) batch.now)) }
{
    let Some((first, _others)) = cells.split_first() else {
        return Ok((0, 0));
    };
    let learned = learned_of(alloc, *first, &batch.domain, &batch.workflow)?;
    let branches = branch_count(alloc, *first, &batch.domain, &batch.workflow)?;
    Ok((u64::from(!learned.is_empty()), branches))
}

/// What the workflow of a batch comes to in the cells of its shard, without the batches that were written.
#[tactic(auto, unfolding(crate::specs::Summaries::part_of))]
fn part_of<C: Reads>(alloc: Global, cells: &[&C], batch: &Batch) -> Result<Totals, OutOfMemory>
    ensures { IfOk result (λ part. part ≡ part_of (map (λ cell. C.cell cell.now) cells.now) batch.now) }
{
    let (workflows, branches) = counts_of(alloc, cells, batch)?;
    let same = are_alike(alloc, cells, batch)?;
    Ok(Totals {
        batches: 0,
        workflows,
        branches,
        same,
    })
}

/// What the cells of one shard come to, a cell for each cluster.
#[tactic(auto, unfolding(crate::specs::Summaries::totals_in))]
pub(crate) fn totals_in<C: Reads>(alloc: Global, cells: &[&C]) -> Result<Totals, OutOfMemory>
    ensures { IfOk result (λ whole. whole ≡ totals_in (map (λ cell. C.cell cell.now) cells.now)) }
{
    let found = found_in(alloc, cells)?;
    let mut whole = Totals {
        batches: found.batches,
        workflows: 0,
        branches: 0,
        same: true,
    };
    for batch in found.workflows.as_slice() {
        let part = part_of(alloc, cells, batch)?;
        whole = added(whole, part)?;
    }
    Ok(whole)
}
