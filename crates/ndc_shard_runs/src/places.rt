use ndc_event::{BatchKey, OutOfMemory, RunId};
use ndc_tree::Tree;
use std::alloc::Global;
use std::collections::BTreeMap;
use std::marker::Model;

/// The run of each key. Seen as the list of the keys with their runs, ascending.
#[derive(Drop)]
pub(crate) struct Places {
    map: BTreeMap<BatchKey, RunId>,
}

impl Model for Places {
    ghost use Rattle.std.specs.Prelude.{List};
    ghost use Rattle.ndc_event.specs.declared.key.BatchKey.{BatchKey};
    ghost use Rattle.ndc_event.specs.declared.key.RunId.{RunId};

    ghost Value = { List (BatchKey × RunId) };

    ghost view = { λ places. places.map.entries };
}

impl Places {
    ghost use Rattle.std.specs.Prelude.{◌≡◌, [], map, IfOk, OnOk, OnErr};
    ghost use Rattle.std.specs.Option.{option_map};
    ghost use Rattle.ndc_model_sets.specs.Sets.{Rise};
    ghost use Rattle.ndc_shard_runs.specs.Places.{place_at, places_of, with_place, without_place, last_place};

    /// There is no key.
    pub(crate) fn new(alloc: Global) -> Places
        ensures { result ≡ [] }
    {
        Places {
            map: BTreeMap::new(alloc),
        }
    }

    /// The keys of the batches of a run.
    pub(crate) fn of(alloc: Global, tree: &Tree) -> Result<Places, OutOfMemory>
        requires { Rise tree.now.batches }
        ensures { IfOk result (λ places. places ≡ places_of tree.now.batches) }
    {
        let batches = tree.batches(alloc)?;
        let mut places = Places::new(alloc);
        for batch in batches.as_slice() {
            places.put(batch.key, batch.run)?;
        }
        Ok(places)
    }

    /// The run of the key.
    pub(crate) fn get(&self, key: BatchKey) -> Option<RunId>
        ensures { result ≡ place_at key self.now }
    {
        self.map.get(&key).copied()
    }

    /// The keys, ascending.
    pub(crate) fn keys(&self, alloc: Global) -> Result<Vec<BatchKey>, OutOfMemory>
        ensures { IfOk result (λ keys. keys.items ≡ map (λ place. place.0) self.now) }
    {
        self.map.keys().copied().collect(alloc)
    }

    /// The greatest key.
    pub(crate) fn last_key(&self) -> Option<BatchKey>
        ensures { result ≡ option_map (λ place. place.0) (last_place self.now) }
    {
        let (key, _) = self.map.last_key_value()?;
        Some(*key)
    }

    /// Puts the key to its place, with its run.
    pub(crate) fn put(&mut self, key: BatchKey, run: RunId) -> Result<(), OutOfMemory>
        ensures ok { OnOk result (self.new ≡ with_place key run self.old) }
        ensures err { OnErr result (self.new ≡ self.old) }
    {
        self.map.insert(key, run)?;
        Ok(())
    }

    /// Takes the key out, where it is there.
    pub(crate) fn take(&mut self, key: BatchKey)
        ensures { self.new ≡ without_place key self.old }
    {
        self.map.remove(&key);
    }
}
