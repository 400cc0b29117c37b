use ndc_event::{BatchKey, OutOfMemory};
use std::alloc::Global;
use std::collections::BTreeSet;
use std::marker::Model;

/// Keys of batches, each once. Seen as their list, ascending.
#[derive(Drop)]
pub struct KeySet {
    keys: BTreeSet<BatchKey>,
}

impl Model for KeySet {
    ghost use Rattle.std.specs.Prelude.{List};
    ghost use Rattle.ndc_event.specs.declared.key.BatchKey.{BatchKey};

    ghost Value = { List BatchKey };

    ghost view = { λ set. set.keys.keys };
}

impl KeySet {
    ghost use Rattle.std.specs.Prelude.{◌≡◌, [], ◌∷◌, true, OnOk, OnErr, MatchOption, IfSome};
    ghost use Rattle.std.specs.List.{AllByRecursion};
    ghost use Rattle.ndc_event.specs.Key.{key_lt};
    ghost use Rattle.ndc_model_sets.specs.Keys.{is_key_among, with_key};

    /// There is no key. Takes no memory.
    pub fn new(alloc: Global) -> KeySet
        ensures { result ≡ [] }
    {
        KeySet {
            keys: BTreeSet::new(alloc),
        }
    }

    /// Whether the key is one of them. In time of the logarithm of their number; takes no memory.
    pub fn has(&self, key: BatchKey) -> bool
        ensures { result ≡ is_key_among key self.now }
    {
        self.keys.contains(&key)
    }

    /// Puts the key to its place, where it is not there. In time of the logarithm of their number. For want of memory
    /// nothing changes.
    pub fn put(&mut self, key: BatchKey) -> Result<(), OutOfMemory>
        ensures ok { OnOk result (self.new ≡ with_key key self.old) }
        ensures err { OnErr result (self.new ≡ self.old) }
    {
        self.keys.insert(key)?;
        Ok(())
    }

    /// Takes the least key; none exactly where there is none. In time of the logarithm of their number.
    pub fn take_least(&mut self) -> Option<BatchKey>
        ensures taken { MatchOption result (self.old ≡ []) (λ key. self.old ≡ key ∷ self.new) }
        ensures least { IfSome result (λ key.
            AllByRecursion (λ other. key_lt key other ≡ true) self.new) }
    {
        self.keys.pop_first()
    }
}
