// The batches of a set, run by run.
ghost use Rattle.std.specs.Prelude.{◌≡◌, IfOk};
ghost use Rattle.ndc_event.specs.declared.key.RunId.{RunId as Id};
ghost use Rattle.ndc_dump.specs.Groups.{listed};
ghost use Rattle.ndc_shard_runs.specs.RunMap.{part_of};

use indexmap::IndexMap;
use ndc_event::{Batch, OutOfMemory, RunId};
use std::alloc::Global;
use std::marker::Model;

/// The batches of each run, in order. The map finds a run without going over the others.
#[derive(Drop)]
pub(crate) struct RunBatches<'b> {
    lists: IndexMap<RunId, Vec<&'b Batch>>,
}

impl<'b> Model for RunBatches<'b> {
    ghost use Rattle.std.specs.Prelude.{List, map};
    ghost use Rattle.ndc_event.specs.declared.batch.Batch.{Batch as Item};
    ghost use Rattle.ndc_event.specs.declared.key.RunId.{RunId as Id};

    ghost Value = { List (Id × List Item) };

    ghost view = { λ groups.
        map (λ entry. (entry.0, map (λ b. b.now) entry.1.items)) groups.lists.entries };
}

impl<'b> RunBatches<'b> {
    ghost use Rattle.std.specs.Prelude.{◌≡◌, ◌++◌, [], ◌∷◌, map, IfNone, IfSome, OnOk};
    ghost use Rattle.ndc_event.specs.declared.key.RunId.{RunId as Id};
    ghost use Rattle.ndc_dump.specs.Groups.{listed};
    ghost use Rattle.ndc_shard_runs.specs.RunMap.{part_of};

    /// There is no batch.
    fn new(alloc: Global) -> RunBatches<'b>
        ensures { result ≡ [] }
    {
        RunBatches {
            lists: IndexMap::new(alloc),
        }
    }

    /// The batches of the run, where it has any.
    pub(crate) fn get(&self, run: RunId) -> Option<&Vec<&'b Batch>>
        ensures some { IfSome result (λ list.
            map (λ b. b.now) list.now.items ≡ listed run self.now) }
        ensures none { IfNone result (listed run self.now ≡ []) }
    {
        self.lists.get(&run)
    }

    /// Puts the batch after those of its run.
    fn push(&mut self, alloc: Global, batch: &'b Batch) -> Result<(), OutOfMemory>
        ensures { OnOk result ((run : Id)
            → listed run self.new ≡ listed run self.old ++ part_of run (batch.now ∷ [])) }
    {
        let found = self.lists.swap_remove(&batch.run);
        let mut list = found.unwrap_or(Vec::new(alloc));
        list.push(batch)?;
        self.lists.insert(batch.run, list)?;
        Ok(())
    }
}

/// The batches run by run: they are gone over once.
pub(crate) fn grouped(alloc: Global, batches: &[Batch]) -> Result<RunBatches, OutOfMemory>
    ensures { IfOk result (λ groups. (run : Id) → listed run groups ≡ part_of run batches.now) }
{
    let mut groups = RunBatches::new(alloc);
    for batch in batches {
        groups.push(alloc, batch)?;
    }
    Ok(groups)
}
