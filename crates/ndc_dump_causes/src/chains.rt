// Chains of batches of one run and version.
ghost use Rattle.std.specs.Prelude.{◌≡◌, None, IfOk};
ghost use Rattle.ndc_dump_causes.specs.Chains.{first_loose, is_loose};

use indexmap::IndexMap;
use ndc_event::{Batch, BatchKey, OutOfMemory, RunId};
use std::alloc::Global;
use std::marker::Model;

/// Whether a batch comes after one of its version that is not its parent.
fn is_loose(last: Option<BatchKey>, batch: &Batch) -> bool
    ensures { result ≡ is_loose last batch.now }
{
    match last {
        None => false,
        Some(key) => key.version == batch.key.version && batch.parent != Some(key),
    }
}

/// The key of the last batch of each run so far. The map finds a run without going over the others.
#[derive(Drop)]
struct LastKeys {
    keys: IndexMap<RunId, BatchKey>,
}

impl Model for LastKeys {
    ghost use Rattle.std.specs.Prelude.{List};
    ghost use Rattle.ndc_event.specs.declared.key.BatchKey.{BatchKey};
    ghost use Rattle.ndc_event.specs.declared.key.RunId.{RunId};

    ghost Value = { List (RunId × BatchKey) };

    ghost view = { λ last. last.keys.entries };
}

impl LastKeys {
    ghost use Rattle.std.specs.Prelude.{◌≡◌, [], OnOk};
    ghost use Rattle.std.specs.Map.{lookup};
    ghost use Rattle.indexmap.specs.IndexMap.{insert_entry};
    ghost use Rattle.ndc_model_sets.specs.Branches.{same_run};

    /// There is no run.
    fn new(alloc: Global) -> LastKeys
        ensures { result ≡ [] }
    {
        LastKeys {
            keys: IndexMap::new(alloc),
        }
    }

    /// The key of the last batch of the run.
    fn get(&self, run: RunId) -> Option<BatchKey>
        ensures { result ≡ lookup (same_run run) self.now }
    {
        self.keys.get(&run).copied()
    }

    /// Makes the key that of the last batch of the run.
    fn put(&mut self, run: RunId, key: BatchKey) -> Result<(), OutOfMemory>
        ensures { OnOk result (self.new ≡ insert_entry same_run self.old run key) }
    {
        self.keys.insert(run, key)?;
        Ok(())
    }
}

/// The key of the first of the batches, in key order, that comes after one of its run and version that is not its
/// parent: they are gone over once.
pub(crate) fn first_loose(alloc: Global, batches: &[Batch]) -> Result<Option<BatchKey>, OutOfMemory>
    ensures { IfOk result (λ key. key ≡ first_loose (λ run. None) batches.now) }
{
    let mut last = LastKeys::new(alloc);
    for batch in batches {
        if is_loose(last.get(batch.run), batch) {
            return Ok(Some(batch.key));
        }
        last.put(batch.run, batch.key)?;
    }
    Ok(None)
}
