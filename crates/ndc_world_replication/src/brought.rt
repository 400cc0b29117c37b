ghost use Rattle.std.specs.Prelude.{◌≡◌, ◌||◌, [], ◌∷◌, ◌++◌, Some, IfOk, OnOk};
ghost use Rattle.ndc_event.specs.declared.key.BatchKey.{BatchKey as Key};
ghost use Rattle.ndc_model_cells.specs.Arrival.{has_arrived};
ghost use Rattle.ndc_model_cells.specs.Cells.{both};
ghost use Rattle.ndc_model_sets.specs.Keys.{is_key_among};
ghost use Rattle.ndc_model_sets.specs.Learned.{has_key};
ghost use Rattle.ndc_resend.specs.Bringing.{new_of, put_new};
ghost use Rattle.ndc_world_replication.specs.Brought.{AreKeysOf};

use ndc_cluster_reads::Reads;
use ndc_event::{BatchKey, OutOfMemory};
use ndc_model_cells::Message;
use ndc_model_sets::KeySet;
use std::alloc::Global;
use std::collections::BTreeMap;
use std::marker::Model;

/// Messages that were brought, each once by the key of its batch. Seen as their list in key order.
#[derive(Drop)]
struct Brought {
    map: BTreeMap<BatchKey, Message>,
}

impl Model for Brought {
    ghost use Rattle.std.specs.Prelude.{List};
    ghost use Rattle.ndc_model_cells.specs.declared.message.Message.{Message};

    ghost Value = { List Message };

    ghost use Rattle.ndc_world_replication.specs.Brought.{messages_of, StandUnderKeys};

    ghost view = { messages_of };

    ghost invariant = { StandUnderKeys };
}

impl Brought {
    ghost use Rattle.std.specs.Prelude.{◌≡◌, [], IfOk, OnOk};
    ghost use Rattle.ndc_resend.specs.Bringing.{with_brought};

    /// There is no message.
    fn new(alloc: Global) -> Brought
        ensures { result ≡ [] }
    {
        Brought {
            map: BTreeMap::new(alloc),
        }
    }

    /// Puts the message to its place, or to that of the one whose batch has its key.
    fn put(&mut self, message: Message) -> Result<(), OutOfMemory>
        ensures { OnOk result (self.new ≡ with_brought message self.old) }
    {
        self.map.insert(message.batch.key, message)?;
        Ok(())
    }

    /// The messages, in key order.
    fn into_list(self, alloc: Global) -> Result<Vec<Message>, OutOfMemory>
        ensures { IfOk result (λ list. list.items ≡ self) }
    {
        self.map.into_values().collect(alloc)
    }
}

/// Puts a message to its place, where its batch has not arrived in the cell.
fn put_new<C: Reads>(brought: &mut Brought, cell: &C, message: Message) -> Result<(), OutOfMemory>
    ensures { OnOk result (brought.new ≡ put_new (C.cell cell.now) brought.old (message ∷ [])) }
{
    let batch = &message.batch;
    if cell.has_arrived(&batch.domain, &batch.workflow, batch.key) {
        return Ok(());
    }
    brought.put(message)
}

/// Of messages of one workflow those whose batch has not arrived in a cell, in key order, each once.
pub(crate) fn new_of<C: Reads>(
    alloc: Global,
    cell: &C,
    messages: Vec<Message>,
) -> Result<Vec<Message>, OutOfMemory>
    ensures { IfOk result (λ list. list.items ≡ new_of (C.cell cell.now) messages.items) }
{
    let mut brought = Brought::new(alloc);
    for message in messages {
        put_new(&mut brought, cell, message)?;
    }
    brought.into_list(alloc)
}

/// The keys with those of the batches of a message.
fn put_keys(keys: &mut KeySet, message: &Message) -> Result<(), OutOfMemory>
    ensures { OnOk result ((key : Key) → is_key_among key keys.new ≡ (has_key (Some key) (both message.now) || is_key_among key keys.old)) }
{
    keys.put(message.batch.key)?;
    if let Some(second) = message.second.as_ref() {
        keys.put(second.key)?;
    }
    Ok(())
}

/// A message goes last, and its batches' keys to the others.
fn add_one(
    messages: &mut Vec<Message>,
    keys: &mut KeySet,
    message: Message,
) -> Result<(), OutOfMemory>
    ensures messages { OnOk result (messages.new.items ≡ messages.old.items ++ message ∷ []) }
    ensures keys { OnOk result (AreKeysOf messages.old.items keys.old → AreKeysOf messages.new.items keys.new) }
{
    put_keys(keys, &message)?;
    messages.push(message)?;
    Ok(())
}

/// Messages go last, and their batches' keys to the others.
pub(crate) fn add_all(
    messages: &mut Vec<Message>,
    keys: &mut KeySet,
    more: Vec<Message>,
) -> Result<(), OutOfMemory>
    ensures messages { OnOk result (messages.new.items ≡ messages.old.items ++ more.items) }
    ensures keys { OnOk result (AreKeysOf messages.old.items keys.old → AreKeysOf messages.new.items keys.new) }
{
    for message in more {
        add_one(messages, keys, message)?;
    }
    Ok(())
}
