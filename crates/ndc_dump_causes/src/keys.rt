use indexmap::IndexSet;
use ndc_event::{BatchKey, OutOfMemory};
use std::alloc::Global;
use std::marker::Model;

/// Keys of batches, in any order. The set finds a key without going over the others.
#[derive(Drop)]
pub struct KeySet {
    keys: IndexSet<BatchKey>,
}

impl Model for KeySet {
    ghost use Rattle.std.specs.Prelude.{List};
    ghost use Rattle.ndc_event.specs.declared.key.BatchKey.{BatchKey};

    ghost Value = { List BatchKey };

    ghost view = { λ set. set.keys.keys };
}

impl KeySet {
    ghost use Rattle.std.specs.Prelude.{◌≡◌, [], OnOk};
    ghost use Rattle.ndc_dump_causes.specs.Keys.{is_listed, with_key};

    /// No key.
    pub fn new(alloc: Global) -> KeySet
        ensures { result ≡ [] }
    {
        KeySet {
            keys: IndexSet::new(alloc),
        }
    }

    /// Whether the key is listed.
    pub fn contains(&self, key: BatchKey) -> bool
        ensures { result ≡ is_listed key self.now }
    {
        self.keys.contains(&key)
    }

    /// Lists the key.
    pub fn insert(&mut self, key: BatchKey) -> Result<(), OutOfMemory>
        ensures { OnOk result (self.new ≡ with_key key self.old) }
    {
        self.keys.insert(key)?;
        Ok(())
    }
}
