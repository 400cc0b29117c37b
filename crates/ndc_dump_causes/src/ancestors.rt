// Paths, from a batch up to the first of its run.
ghost use Rattle.std.specs.Prelude.{◌≡◌, map, IfOk};
ghost use Rattle.ndc_model_sets.specs.Paths.{path_from};
ghost use Rattle.std.specs.List.{AllByRecursion};
ghost use Rattle.ndc_dump_causes.specs.Given.{AreRead, HasSmallIds};

use crate::found::named;
use ndc_event::{Batch, BatchKey, OutOfMemory};
use std::alloc::Global;

/// The batches of the path that ends where this key is wanted, the first of the run first. A look-up for each of them.
pub(crate) fn path_from<'b>(
    alloc: Global,
    batches: &'b [Batch],
    wanted: Option<BatchKey>,
) -> Result<Vec<&'b Batch>, OutOfMemory>
    requires { AreRead batches.now }
    ensures path { IfOk result (λ path.
        map (λ b. b.now) path.items ≡ path_from wanted batches.now) }
    ensures small { IfOk result (λ path. AllByRecursion HasSmallIds (map (λ b. b.now) path.items)) }
{
    let mut path = Vec::new(alloc);
    let mut next = named(batches, wanted);
    while let Some(batch) = next {
        path.push(batch)?;
        next = named(batches, batch.parent);
    }
    path.reverse();
    Ok(path)
}
