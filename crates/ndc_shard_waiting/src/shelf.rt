ghost use Rattle.std.specs.Prelude.{◌≡◌, ◌||◌, ◌&&◌, false, None, OnOk, OnErr};
ghost use Rattle.ndc_event.specs.declared.key.BatchKey.{BatchKey as Key};
ghost use Rattle.ndc_model_sets.specs.Sets.{earlier};
ghost use Rattle.ndc_shard_waiting.specs.Finding.{message_at, key_before};
ghost use Rattle.ndc_shard_waiting.specs.Linking.{is_linked, is_link_for};
ghost use Rattle.ndc_shard_waiting.specs.Waiting.{put_off};

use crate::links::Links;
use crate::messages::Messages;
use ndc_event::{Batch, BatchKey, OutOfMemory};
use ndc_model_cells::Message;
use ndc_model_sets::{KeySet, earlier_key};
use std::alloc::Global;
use std::marker::Model;

/// Messages that wait, by the key of their batch and by the earlier key for which they wait. Seen as their list in
/// key order.
pub(crate) struct Shelf {
    messages: Messages,
    links: Links,
}

impl Model for Shelf {
    ghost use Rattle.std.specs.Prelude.{List};
    ghost use Rattle.ndc_model_cells.specs.declared.message.Message.{Message};

    ghost Value = { List Message };

    ghost use Rattle.ndc_shard_waiting.specs.ShelfFields.{IsShelf};

    ghost view = { λ shelf. shelf.messages };

    ghost invariant = { IsShelf };
}

impl Drop for Shelf {
    fn drop(self) {
        let Shelf {
            messages: _messages,
            links: _links,
        } = self;
    }
}

/// The key of the same version one task before, where there is one.
fn key_before(key: BatchKey) -> Option<BatchKey>
    ensures { result ≡ key_before key }
{
    if key.task == 0 {
        return None;
    }
    Some(BatchKey {
        version: key.version,
        task: key.task - 1,
    })
}

/// Puts the message, whose batch's key is new, to its place, and links it from its earlier key; for want of memory
/// both are as they were.
fn put_in(messages: &mut Messages, links: &mut Links, message: Message) -> Result<(), OutOfMemory>
    requires new { message_at message.batch.key messages.old ≡ None }
    requires loose { (before one : Key)
        → (is_link_for before one (earlier message.batch) message.batch.key
        && is_linked before one links.old) ≡ false }
    ensures messages { OnOk result (messages.new ≡ put_off message messages.old) }
    ensures links { OnOk result ((before one : Key) → is_linked before one links.new
        ≡ (is_link_for before one (earlier message.batch) message.batch.key
        || is_linked before one links.old)) }
    ensures messages_err { OnErr result (messages.new ≡ messages.old) }
    ensures links_err { OnErr result ((before one : Key) → is_linked before one links.new
        ≡ is_linked before one links.old) }
{
    let own = message.batch.key;
    let earlier = earlier_key(&message.batch);
    links.add_for(earlier, own)?;
    match messages.insert(message) {
        Ok(()) => Ok(()),
        Err(error) => {
            links.cut_for(earlier, own);
            Err(error)
        }
    }
}

impl Shelf {
    ghost use Rattle.std.specs.Prelude.{◌≡◌, ◌||◌, [], ◌∷◌, true, false, option_to_list, Some, IsSome, length, map, OnOk, OnErr, IfOk, IfSome, IfNone};
    ghost use Rattle.std.specs.List.{AllByRecursion};
    ghost use Rattle.std.specs.Option.{option_copied};
    ghost use Rattle.ndc_model_cells.specs.Cells.{both};
    ghost use Rattle.ndc_event.specs.declared.key.BatchKey.{BatchKey as Key};
    ghost use Rattle.ndc_model_sets.specs.Sets.{batch_at};
    ghost use Rattle.ndc_model_sets.specs.Keys.{is_key_among};
    ghost use Rattle.ndc_model_cells.specs.Messages.{batches_of, waits_for, IsNewTo};
    ghost use Rattle.ndc_shard_waiting.specs.Waiting.{put_off, freed, still_put_off, AreWaiting, CanWait};
    ghost use Rattle.ndc_shard_waiting.specs.Finding.{message_at, message_with, without_message, carried_at, carrier_at, key_before};
    ghost use Rattle.ndc_shard_waiting.specs.Linking.{is_woken};

    /// No message waits.
    pub(crate) fn new(alloc: Global) -> Shelf
        ensures { result ≡ [] }
    {
        Shelf {
            messages: Messages::new(alloc),
            links: Links::new(alloc),
        }
    }

    /// How many messages wait.
    pub(crate) fn len(&self) -> usize
        ensures len { result ≡ length self.now }
        ensures waiting { AreWaiting self.now }
    {
        self.messages.len()
    }

    /// The batch of this key, that of a message or the one that it carries.
    pub(crate) fn get(&self, key: BatchKey) -> Option<&Batch>
        ensures { option_copied result ≡ batch_at key (batches_of self.now) }
    {
        match self.messages.get(key) {
            Some(sent) => Some(&sent.batch),
            None => self.carried(key),
        }
    }

    /// What the message carries whose batch's key comes one task before this one.
    fn carried(&self, key: BatchKey) -> Option<&Batch>
        ensures { option_copied result ≡ carried_at (key_before key) self.now }
    {
        let before = key_before(key)?;
        let sent = self.messages.get(before)?;
        sent.second.as_ref()
    }

    /// The message that has a batch of this key, its own or the one that it carries.
    pub(crate) fn message(&self, key: BatchKey) -> Option<&Message>
        ensures { option_copied result ≡ message_with key self.now }
    {
        match self.messages.get(key) {
            Some(sent) => Some(sent),
            None => self.carrier(key),
        }
    }

    /// The message whose batch's key comes one task before this one, where it carries a batch.
    fn carrier(&self, key: BatchKey) -> Option<&Message>
        ensures { option_copied result ≡ carrier_at (key_before key) self.now }
    {
        let before = key_before(key)?;
        let sent = self.messages.get(before)?;
        if sent.second.as_ref().is_none() {
            return None;
        }
        Some(sent)
    }

    /// Puts a message that waits, and whose keys are new, to its place; for want of memory the shelf is as it was.
    pub(crate) fn put(&mut self, message: Message) -> Result<(), OutOfMemory>
        requires waits { CanWait message }
        requires new { IsNewTo (batches_of self.old) message }
        ensures ok { OnOk result (self.new ≡ put_off message self.old) }
        ensures err { OnErr result (self.new ≡ self.old) }
    {
        put_in(&mut self.messages, &mut self.links, message)
    }

    /// The batches of the messages, in key order.
    pub(crate) fn batches(&self, alloc: Global) -> Result<Vec<&Batch>, OutOfMemory>
        ensures { IfOk result (λ list. map (λ b. b.now) list.items ≡ batches_of self.now) }
    {
        let mut batches = Vec::new(alloc);
        let messages = self.messages.list(alloc)?;
        for sent in messages.as_slice() {
            batches.push(&sent.batch)?;
            if let Some(second) = sent.second.as_ref() {
                batches.push(second)?;
            }
        }
        Ok(batches)
    }

    /// Takes the message whose batch has this key; there is one.
    fn take(&mut self, key: BatchKey) -> Message
        requires { IsSome (message_at key self.old) }
        ensures taken { message_at key self.old ≡ Some result }
        ensures rest { self.new ≡ without_message key self.old }
        ensures waiting { AreWaiting self.new }
    {
        let sent = self.messages.take(key).unwrap();
        self.links.cut_for(earlier_key(&sent.batch), key);
        sent
    }

    /// Puts the keys of all messages that wait for the batch, or for the second one, where there is one, to the others.
    fn wake(
        &self,
        batch: &Batch,
        second: Option<&Batch>,
        todo: &mut KeySet,
    ) -> Result<(), OutOfMemory>
        ensures woken { OnOk result
            ((one : Key) → is_key_among one todo.new
            ≡ (is_key_among one todo.old
            || is_woken (batch.now ∷ option_to_list (option_copied second.entry)) one self.now)) }
        ensures waiting { AreWaiting self.now }
    {
        self.links.wake(batch.key, todo)?;
        if let Some(second) = second {
            self.links.wake(second.key, todo)?;
        }
        Ok(())
    }

    /// The least key of a message that waits for the batch, or for the second one, where there is one. In the logarithm of
    /// the messages for each that waits for them.
    pub(crate) fn first_waiter(
        &self,
        alloc: Global,
        batch: &Batch,
        second: Option<&Batch>,
    ) -> Result<Option<BatchKey>, OutOfMemory>
        ensures some { IfOk result (λ found.
            IfSome found (λ key. is_woken
            (batch.now ∷ option_to_list (option_copied second.entry)) key self.now ≡ true)) }
        ensures none { IfOk result (λ found.
            IfNone found (AllByRecursion (λ sent.
            waits_for (batch.now ∷ option_to_list (option_copied second.entry)) sent
            ≡ false) self.now)) }
    {
        let mut woken = KeySet::new(alloc);
        self.wake(batch, second, &mut woken)?;
        Ok(woken.take_least())
    }

    /// Takes out what waits for the message, directly or not: the message, and after it what it frees, in key order.
    /// For want of memory some of it is lost.
    pub(crate) fn free(
        &mut self,
        alloc: Global,
        message: Message,
    ) -> Result<Vec<Message>, OutOfMemory>
        ensures ok { IfOk result (λ list. list.items ≡ freed message self.old) }
        ensures rest { OnOk result (self.new ≡ still_put_off message self.old) }
        ensures waiting { AreWaiting self.new }
    {
        let mut todo = KeySet::new(alloc);
        self.wake(&message.batch, message.second.as_ref(), &mut todo)?;
        let mut freed = Vec::new(alloc);
        freed.push(message)?;
        while let Some(key) = todo.take_least() {
            let sent = self.take(key);
            self.wake(&sent.batch, sent.second.as_ref(), &mut todo)?;
            freed.push(sent)?;
        }
        Ok(freed)
    }
}
