use ndc_event::{BatchKey, OutOfMemory};
use std::alloc::Global;
use std::collections::BTreeMap;
use std::marker::Model;

/// For some keys a key further up. Seen as the list of these pairs.
#[derive(Drop)]
pub(crate) struct Shortcuts {
    map: BTreeMap<BatchKey, BatchKey>,
}

impl Model for Shortcuts {
    ghost use Rattle.std.specs.Prelude.{List};
    ghost use Rattle.ndc_event.specs.declared.key.BatchKey.{BatchKey};

    ghost Value = { List (BatchKey × BatchKey) };

    ghost view = { λ shortcuts. shortcuts.map.entries };
}

impl Shortcuts {
    ghost use Rattle.std.specs.Prelude.{◌≡◌, [], Some, None, OnOk, OnErr, if◌then◌else◌};
    ghost use Rattle.ndc_event.specs.Key.{key_eq};
    ghost use Rattle.ndc_event.specs.declared.key.BatchKey.{BatchKey as Key};
    ghost use Rattle.ndc_shard_waiting.specs.Shortcuts.{shortcut_at};

    /// No key has a shortcut.
    pub(crate) fn new(alloc: Global) -> Shortcuts
        ensures { result ≡ [] }
    {
        Shortcuts {
            map: BTreeMap::new(alloc),
        }
    }

    /// The shortcut of the key.
    pub(crate) fn get(&self, key: BatchKey) -> Option<BatchKey>
        ensures { result ≡ shortcut_at key self.now }
    {
        self.map.get(&key).copied()
    }

    /// Gives the key a shortcut in place of the one that it has.
    pub(crate) fn set(&mut self, key: BatchKey, to: BatchKey) -> Result<(), OutOfMemory>
        ensures ok { OnOk result
            ((one : Key) → shortcut_at one self.new
            ≡ (if key_eq key one then Some to else shortcut_at one self.old)) }
        ensures err { OnErr result (self.new ≡ self.old) }
    {
        self.map.insert(key, to)?;
        Ok(())
    }

    /// Takes the key's shortcut out.
    pub(crate) fn forget(&mut self, key: BatchKey)
        ensures { (one : Key) → shortcut_at one self.new
            ≡ (if key_eq key one then None else shortcut_at one self.old) }
    {
        self.map.remove(&key);
    }
}
