ghost use Rattle.std.specs.Prelude.{◌≡◌, IfOk, IfErr};
ghost use Rattle.ndc_event.specs.Sorted.{InOrder};
ghost use Rattle.ndc_tree.specs.Places.{key_before, IsKeyAt, IsKeyGap};

use crate::sorted::put;
use ndc_event::{BatchKey, OutOfMemory};
use std::alloc::Global;
use std::marker::Model;

/// The keys of tips. Seen as their list, ascending.
#[derive(Drop)]
pub(crate) struct Tips {
    keys: Vec<BatchKey>,
}

impl Model for Tips {
    ghost use Rattle.std.specs.Prelude.{List};
    ghost use Rattle.ndc_event.specs.declared.key.BatchKey.{BatchKey};

    ghost Value = { List BatchKey };

    ghost use Rattle.ndc_event.specs.Sorted.{InOrder};
    ghost use Rattle.ndc_tree.specs.Places.{key_before};

    ghost view = { λ tips. tips.keys.items };

    ghost invariant = { λ tips. InOrder key_before tips.keys.items };
}

/// Where the key stands, or where it would go.
fn place_of(keys: &[BatchKey], key: BatchKey) -> Result<usize, usize>
    requires { InOrder key_before keys.now }
    ensures found { IfOk result (IsKeyAt keys.now key) }
    ensures absent { IfErr result (IsKeyGap keys.now key) }
{
    keys.binary_search_by(|other| other.cmp(&key))
}

impl Tips {
    ghost use Rattle.std.specs.Prelude.{◌≡◌, [], IfOk, OnOk, OnErr};
    ghost use Rattle.ndc_model_sets.specs.Keys.{is_key_among, with_key, without_key};
    ghost use Rattle.ndc_tree.specs.Tips.{without_parent};

    /// There is no tip.
    pub(crate) fn new(alloc: Global) -> Tips
        ensures { result ≡ [] }
    {
        Tips {
            keys: Vec::new(alloc),
        }
    }

    /// Whether the key is that of a tip.
    pub(crate) fn has(&self, key: BatchKey) -> bool
        ensures { result ≡ is_key_among key self.now }
    {
        place_of(self.keys.as_slice(), key).is_ok()
    }

    /// Puts the key to its place, where it is not there.
    pub(crate) fn put(&mut self, key: BatchKey) -> Result<(), OutOfMemory>
        ensures ok { OnOk result (self.new ≡ with_key key self.old) }
        ensures err { OnErr result (self.new ≡ self.old) }
    {
        match place_of(self.keys.as_slice(), key) {
            Ok(_) => Ok(()),
            Err(place) => put(&mut self.keys, place, key),
        }
    }

    /// Takes the key out, where it is there.
    pub(crate) fn take(&mut self, key: BatchKey)
        ensures { self.new ≡ without_key key self.old }
    {
        if let Ok(place) = place_of(self.keys.as_slice(), key) {
            self.keys.remove(place);
        }
    }

    /// Takes the parent out, where there is one.
    pub(crate) fn take_parent(&mut self, parent: Option<BatchKey>)
        ensures { self.new ≡ without_parent parent self.old }
    {
        if let Some(key) = parent {
            self.take(key);
        }
    }

    /// The keys, ascending.
    pub(crate) fn to_vec(&self, alloc: Global) -> Result<Vec<BatchKey>, OutOfMemory>
        ensures { IfOk result (λ list. list.items ≡ self.now) }
    {
        self.keys.iter().copied().collect(alloc)
    }
}
