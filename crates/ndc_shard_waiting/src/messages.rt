use ndc_event::{BatchKey, OutOfMemory};
use ndc_model_cells::Message;
use std::alloc::Global;
use std::collections::BTreeMap;
use std::marker::Model;

/// Messages that are found by the key of their batch. Seen as their list in key order.
#[derive(Drop)]
pub(crate) struct Messages {
    map: BTreeMap<BatchKey, Message>,
}

impl Model for Messages {
    ghost use Rattle.std.specs.Prelude.{List};
    ghost use Rattle.ndc_model_cells.specs.declared.message.Message.{Message};

    ghost Value = { List Message };

    ghost use Rattle.ndc_shard_waiting.specs.MessageFields.{messages_of, StandUnderKeys};

    ghost view = { messages_of };

    ghost invariant = { StandUnderKeys };
}

impl Messages {
    ghost use Rattle.std.specs.Prelude.{◌≡◌, ◌==◌, [], None, length, map, OnOk, OnErr, IfOk};
    ghost use Rattle.std.specs.Option.{option_copied};
    ghost use Rattle.ndc_shard_waiting.specs.Waiting.{put_off};
    ghost use Rattle.ndc_shard_waiting.specs.Finding.{message_at, without_message};

    /// There is no message.
    pub(crate) fn new(alloc: Global) -> Messages
        ensures { result ≡ [] }
    {
        Messages {
            map: BTreeMap::new(alloc),
        }
    }

    /// How many messages there are.
    pub(crate) fn len(&self) -> usize
        ensures { result ≡ length self.now }
    {
        self.map.len()
    }

    /// The message whose batch has this key.
    pub(crate) fn get(&self, key: BatchKey) -> Option<&Message>
        ensures { option_copied result ≡ message_at key self.now }
    {
        self.map.get(&key)
    }

    /// Puts the message, whose batch's key is new, to its place.
    pub(crate) fn insert(&mut self, message: Message) -> Result<(), OutOfMemory>
        requires { message_at message.batch.key self.old ≡ None }
        ensures ok { OnOk result (self.new ≡ put_off message self.old) }
        ensures err { OnErr result (self.new ≡ self.old) }
    {
        self.map.insert(message.batch.key, message)?;
        Ok(())
    }

    /// Takes the message whose batch has this key, where there is one.
    pub(crate) fn take(&mut self, key: BatchKey) -> Option<Message>
        ensures taken { result ≡ message_at key self.old }
        ensures rest { self.new ≡ without_message key self.old }
    {
        self.map.remove(&key)
    }

    /// The messages, in key order.
    pub(crate) fn list(&self, alloc: Global) -> Result<Vec<&Message>, OutOfMemory>
        ensures { IfOk result (λ list. map (λ m. m.now) list.items ≡ self.now) }
    {
        self.map.values().collect(alloc)
    }
}
