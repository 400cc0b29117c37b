use ndc_event::{BatchKey, OutOfMemory};
use ndc_model_sets::KeySet;
use std::alloc::Global;
use std::collections::BTreeSet;
use std::marker::Model;

/// A batch waits for the batch of an earlier key.
#[derive(Clone, Copy, Debug, PartialEq, Eq, PartialOrd, Ord)]
pub(crate) struct Link {
    earlier: BatchKey,
    own: BatchKey,
}

/// Which batches wait for which key. Seen as the list of links, by earlier key and then by own key.
#[derive(Drop)]
pub(crate) struct Links {
    set: BTreeSet<Link>,
}

impl Model for Links {
    ghost use Rattle.std.specs.Prelude.{List};
    ghost use Rattle.ndc_shard_waiting.specs.declared.links.Link.{Link};

    ghost Value = { List Link };

    ghost view = { λ links. links.set.keys };
}

impl Links {
    ghost use Rattle.std.specs.Prelude.{◌≡◌, ◌||◌, ◌&&◌, not, [], OnOk, OnErr};
    ghost use Rattle.ndc_event.specs.Key.{key_eq};
    ghost use Rattle.ndc_event.specs.declared.key.BatchKey.{BatchKey as Key};
    ghost use Rattle.ndc_model_sets.specs.Keys.{is_key_among};
    ghost use Rattle.ndc_shard_waiting.specs.Linking.{is_linked, is_link, is_link_for};

    /// No batch waits.
    pub(crate) fn new(alloc: Global) -> Links
        ensures { result ≡ [] }
    {
        Links {
            set: BTreeSet::new(alloc),
        }
    }

    /// The batch of the key `own` waits for that of the key `earlier`.
    pub(crate) fn add(&mut self, earlier: BatchKey, own: BatchKey) -> Result<(), OutOfMemory>
        ensures ok { OnOk result ((before one : Key) → is_linked before one self.new
            ≡ (is_link before one earlier own || is_linked before one self.old)) }
        ensures err { OnErr result (self.new ≡ self.old) }
    {
        self.set.insert(Link { earlier, own })?;
        Ok(())
    }

    /// The batch of the key `own` no more waits for that of the key `earlier`.
    pub(crate) fn cut(&mut self, earlier: BatchKey, own: BatchKey)
        ensures { (before one : Key) → is_linked before one self.new
            ≡ (not (is_link before one earlier own) && is_linked before one self.old) }
    {
        self.set.remove(&Link { earlier, own });
    }

    /// The same, where there is an earlier key.
    pub(crate) fn add_for(
        &mut self,
        earlier: Option<BatchKey>,
        own: BatchKey,
    ) -> Result<(), OutOfMemory>
        ensures ok { OnOk result ((before one : Key) → is_linked before one self.new
            ≡ (is_link_for before one earlier own || is_linked before one self.old)) }
        ensures err { OnErr result (self.new ≡ self.old) }
    {
        match earlier {
            Some(key) => self.add(key, own),
            None => Ok(()),
        }
    }

    /// Takes out what `add_for` puts in.
    pub(crate) fn cut_for(&mut self, earlier: Option<BatchKey>, own: BatchKey)
        ensures { (before one : Key) → is_linked before one self.new
            ≡ (not (is_link_for before one earlier own) && is_linked before one self.old) }
    {
        if let Some(key) = earlier {
            self.cut(key, own);
        }
    }

    /// Puts the keys of all batches that wait for this one to the others. In time of the logarithm of the links for
    /// each of them.
    pub(crate) fn wake(&self, earlier: BatchKey, todo: &mut KeySet) -> Result<(), OutOfMemory>
        ensures { OnOk result ((one : Key) → is_key_among one todo.new
            ≡ (is_key_among one todo.old || is_linked earlier one self.now)) }
    {
        let own = BatchKey {
            version: 0,
            task: 0,
        };
        for link in self.set.range(Link { earlier, own }..) {
            if link.earlier != earlier {
                return Ok(());
            }
            todo.put(link.own)?;
        }
        Ok(())
    }
}
