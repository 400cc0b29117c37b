//! Where batches part from what stands.
ghost use Rattle.std.specs.Prelude.{◌≡◌, [], IfOk};
ghost use Rattle.ndc_explain_sides.specs.Partings.{first_parting, standing_parting, with_ends, with_partings};

use indexmap::IndexMap;
use ndc_dump_causes::keys::KeySet;
use ndc_event::{Batch, BatchKey, OutOfMemory, RunId};
use std::alloc::Global;
use std::marker::Model;

/// Where a batch parts from what stands.
#[derive(Clone, Copy, Debug, Drop)]
pub(crate) struct Parting {
    /// The run whose current branch it shares a prefix with; none where it shares no batch with any.
    pub(crate) scope: Option<RunId>,
    /// The last batch that it shares, or else the first batch of its run.
    pub(crate) since: BatchKey,
}

/// A batch that stands is the last one that it shares with what stands.
fn standing_parting(batch: &Batch) -> Parting
    ensures { result ≡ standing_parting batch.now }
{
    Parting {
        scope: Some(batch.run),
        since: batch.key,
    }
}

/// A first batch that does not stand shares nothing.
fn first_parting(batch: &Batch) -> Parting
    ensures { result ≡ first_parting batch.now }
{
    Parting {
        scope: None,
        since: batch.key,
    }
}

/// Where each batch parts.
#[derive(Drop)]
pub(crate) struct Partings {
    known: IndexMap<BatchKey, Parting>,
}

impl Model for Partings {
    ghost use Rattle.std.specs.Prelude.{List};
    ghost use Rattle.ndc_event.specs.declared.key.BatchKey.{BatchKey};
    ghost use Rattle.ndc_explain_sides.specs.declared.parting.Parting.{Parting};

    ghost Value = { List (BatchKey × Parting) };

    ghost view = { λ partings. partings.known.entries };
}

impl Partings {
    ghost use Rattle.std.specs.Prelude.{◌≡◌, [], OnOk};
    ghost use Rattle.std.specs.Option.{option_copied};
    ghost use Rattle.ndc_explain_sides.specs.Partings.{parting_at, parting_of, with_parting, with_partings};

    /// None is known.
    fn new(alloc: Global) -> Partings
        ensures { result ≡ [] }
    {
        Partings {
            known: IndexMap::new(alloc),
        }
    }

    /// Where a parent parts, where there is one and it is known.
    fn at(&self, parent: Option<BatchKey>) -> Option<&Parting>
        ensures { option_copied result ≡ parting_at parent self.now }
    {
        match parent {
            None => None,
            Some(key) => self.known.get(&key),
        }
    }

    /// Where a batch parts, by where its parent does.
    pub(crate) fn of(&self, keys: &KeySet, batch: &Batch) -> Parting
        ensures { result ≡ parting_of keys.now self.now batch.now }
    {
        if keys.contains(batch.key) {
            return standing_parting(batch);
        }
        match self.at(batch.parent) {
            None => first_parting(batch),
            Some(parting) => *parting,
        }
    }

    /// Takes a batch in.
    fn add(&mut self, keys: &KeySet, batch: &Batch) -> Result<(), OutOfMemory>
        ensures { OnOk result (self.new ≡ with_parting keys.now batch.now self.old) }
    {
        let parting = self.of(keys, batch);
        self.known.insert(batch.key, parting)?;
        Ok(())
    }

    /// Takes batches in.
    fn add_all(&mut self, keys: &KeySet, batches: &[Batch]) -> Result<(), OutOfMemory>
        ensures { OnOk result (self.new ≡ with_partings keys.now batches.now self.old) }
    {
        for batch in batches {
            self.add(keys, batch)?;
        }
        Ok(())
    }
}

/// Where each of the batches parts, where those whose keys are listed stand.
pub(crate) fn partings_of(
    alloc: Global,
    keys: &KeySet,
    batches: &[Batch],
) -> Result<Partings, OutOfMemory>
    ensures { IfOk result (λ known. known ≡ with_partings keys.now batches.now []) }
{
    let mut partings = Partings::new(alloc);
    partings.add_all(keys, batches)?;
    Ok(partings)
}

/// The last standing batch of each run.
#[derive(Drop)]
pub(crate) struct Ends {
    known: IndexMap<RunId, BatchKey>,
}

impl Model for Ends {
    ghost use Rattle.std.specs.Prelude.{List};
    ghost use Rattle.ndc_event.specs.declared.key.BatchKey.{BatchKey};
    ghost use Rattle.ndc_event.specs.declared.key.RunId.{RunId};

    ghost Value = { List (RunId × BatchKey) };

    ghost view = { λ ends. ends.known.entries };
}

impl Ends {
    ghost use Rattle.std.specs.Prelude.{◌≡◌, [], OnOk};
    ghost use Rattle.indexmap.specs.IndexMap.{insert_entry};
    ghost use Rattle.ndc_model_sets.specs.Branches.{same_run};
    ghost use Rattle.ndc_explain_sides.specs.Partings.{end_of};

    /// None is known.
    fn new(alloc: Global) -> Ends
        ensures { result ≡ [] }
    {
        Ends {
            known: IndexMap::new(alloc),
        }
    }

    /// The last standing batch of the run of a batch, or that batch.
    pub(crate) fn of(&self, batch: &Batch) -> BatchKey
        ensures { result ≡ end_of self.now batch.now }
    {
        match self.known.get(&batch.run) {
            None => batch.key,
            Some(key) => *key,
        }
    }

    /// The batch is the last one of its run.
    fn add(&mut self, batch: &Batch) -> Result<(), OutOfMemory>
        ensures { OnOk result (self.new
            ≡ insert_entry same_run self.old batch.now.run batch.now.key) }
    {
        self.known.insert(batch.run, batch.key)?;
        Ok(())
    }
}

/// The last of those batches of each run whose keys are listed.
pub(crate) fn ends_of(alloc: Global, keys: &KeySet, batches: &[Batch]) -> Result<Ends, OutOfMemory>
    ensures { IfOk result (λ ends. ends ≡ with_ends keys.now batches.now []) }
{
    let mut ends = Ends::new(alloc);
    for batch in batches {
        if keys.contains(batch.key) {
            ends.add(batch)?;
        }
    }
    Ok(ends)
}
