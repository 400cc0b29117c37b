ghost use Rattle.std.specs.Prelude.{◌≡◌, map, option_copied, IfOk};
ghost use Rattle.ndc_world_replication.specs.Found.{batches_or_none};
ghost use Rattle.ndc_world_queries.specs.Same.{same_batches};
ghost use Rattle.ndc_world_queries.specs.Summaries.{are_alike, learned_with};

use crate::comparing::are_same;
use ndc_cluster_reads::Reads;
use ndc_event::{Batch, OutOfMemory};
use ndc_shard_runs::Runs;
use std::alloc::Global;

/// What a cell has learned of the workflow of a batch. There is none only where nothing is.
fn learned_with<'a, C: Reads>(cell: &'a C, batch: &Batch) -> Option<&'a Runs>
    ensures { batches_or_none (option_copied result) ≡ learned_with batch.now (C.cell cell.now) }
{
    cell.runs(&batch.domain, &batch.workflow)
}

/// Whether two cells have learned the same of the workflow of a batch.
fn have_learned_the_same<C: Reads>(
    alloc: Global,
    one: &C,
    two: &C,
    batch: &Batch,
) -> Result<bool, OutOfMemory>
    ensures { IfOk result (λ same. same ≡ same_batches (learned_with batch.now (C.cell one.now)) (learned_with batch.now (C.cell two.now))) }
{
    let first = learned_with(one, batch);
    let second = learned_with(two, batch);
    let same = are_same(alloc, first, second)?;
    Ok(same)
}

/// Whether all cells have learned the same of the workflow of a batch.
pub(crate) fn are_alike<C: Reads>(
    alloc: Global,
    cells: &[&C],
    batch: &Batch,
) -> Result<bool, OutOfMemory>
    ensures { IfOk result (λ alike. alike ≡ are_alike (map (learned_with batch.now) (map (λ cell. C.cell cell.now) cells.now))) }
{
    let Some((first, others)) = cells.split_first() else {
        return Ok(true);
    };
    for cell in others {
        if !have_learned_the_same(alloc, *first, *cell, batch)? {
            return Ok(false);
        }
    }
    Ok(true)
}
