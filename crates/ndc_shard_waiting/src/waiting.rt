ghost use Rattle.std.specs.Prelude.{◌≡◌, [], IfOk};
ghost use Rattle.ndc_shard_waiting.specs.Waiting.{freed, still_put_off};

use crate::held::Held;
use ndc_event::{Batch, BatchKey, OutOfMemory};
use ndc_model_cells::Message;
use std::alloc::Global;
use std::marker::Model;

/// A batch that is put off, and what it misses.
#[derive(Clone, Copy, Debug, PartialEq, Eq)]
pub struct PutOff {
    /// The key of the batch.
    pub key: BatchKey,
    /// The key of the nearest ancestor that has not arrived.
    pub missing: BatchKey,
}

/// The messages of one workflow that are put off, in a box that is there only while some are: of most workflows none is.
/// Seen as their list in the order of their batches' keys.
pub struct Waiting {
    alloc: Global,
    held: Option<Box<Held>>,
}

impl Model for Waiting {
    ghost use Rattle.std.specs.Prelude.{List};
    ghost use Rattle.ndc_model_cells.specs.declared.message.Message.{Message};

    ghost Value = { List Message };

    ghost use Rattle.ndc_shard_waiting.specs.WaitingFields.{waiting_of};

    ghost view = { waiting_of };
}

impl Drop for Waiting {
    fn drop(self) {
        let Waiting {
            alloc: _alloc,
            held: _held,
        } = self;
    }
}

/// The message alone, which frees nothing where none waits.
#[tactic(auto, unfolding(crate::specs::Waiting::freed, crate::specs::Waiting::still_put_off))]
fn alone(alloc: Global, message: Message) -> Result<Vec<Message>, OutOfMemory>
    ensures freed { IfOk result (λ list. list.items ≡ freed message []) }
    ensures rest { still_put_off message [] ≡ [] }
{
    let mut freed = Vec::new(alloc);
    freed.push(message)?;
    Ok(freed)
}

impl Waiting {
    ghost use Rattle.std.specs.Prelude.{◌≡◌, ◌==◌, [], ◌∷◌, true, false, length, map, is_some, option_to_list, Some, IfOk, IfSome, IfNone, OnOk, OnErr};
    ghost use Rattle.std.specs.List.{AllByRecursion};
    ghost use Rattle.std.specs.Option.{option_copied};
    ghost use Rattle.ndc_model_sets.specs.Learned.{has_key};
    ghost use Rattle.ndc_model_sets.specs.Sets.{batch_at};
    ghost use Rattle.ndc_shard_waiting.specs.Finding.{message_with};
    ghost use Rattle.ndc_model_cells.specs.Messages.{batches_of, waits_for, IsNewTo};
    ghost use Rattle.ndc_shard_waiting.specs.Linking.{is_woken};
    ghost use Rattle.ndc_shard_waiting.specs.Waiting.{put_off, freed, still_put_off, missing_from, all_missing, AreWaiting, CanWait};

    /// No message waits.
    pub fn new(alloc: Global) -> Waiting
        ensures { result ≡ [] }
    {
        Waiting { alloc, held: None }
    }

    /// How many messages wait; their batches are a set, and each has an earlier key.
    pub fn len(&self) -> usize
        ensures len { result ≡ length self.now }
        ensures waiting { AreWaiting self.now }
    {
        match &self.held {
            None => 0,
            Some(held) => held.len(),
        }
    }

    /// Whether no message waits.
    pub fn is_empty(&self) -> bool
        ensures { result ≡ (length self.now == 0) }
    {
        self.len() == 0
    }

    /// The batch of this key, that of a message or the one that it carries. In time of the logarithm of the messages,
    /// without memory.
    pub fn get(&self, key: BatchKey) -> Option<&Batch>
        ensures { option_copied result ≡ batch_at key (batches_of self.now) }
    {
        match &self.held {
            None => None,
            Some(held) => held.get(key),
        }
    }

    /// The message that has a batch of this key, its own or the one that it carries. In time of the logarithm of the
    /// messages, without memory.
    pub fn message(&self, key: BatchKey) -> Option<&Message>
        ensures { option_copied result ≡ message_with key self.now }
    {
        match &self.held {
            None => None,
            Some(held) => held.message(key),
        }
    }

    /// Whether a batch has this key, that of a message or the one that it carries.
    pub fn has(&self, key: BatchKey) -> bool
        ensures { result ≡ has_key (Some key) (batches_of self.now) }
    {
        self.get(key).is_some()
    }

    /// The batches of the messages, those that are carried too, in key order.
    pub fn batches(&self, alloc: Global) -> Result<Vec<&Batch>, OutOfMemory>
        ensures { IfOk result (λ list. map (λ b. b.now) list.items ≡ batches_of self.now) }
    {
        match &self.held {
            None => Ok(Vec::new(alloc)),
            Some(held) => held.batches(alloc),
        }
    }

    /// Puts a message off: it goes to its place. Its batch has an earlier key, which comes before its own, and what it
    /// carries has the next one; neither key is there. In time of the logarithm of the messages. For want of memory
    /// nothing changes.
    pub fn put(&mut self, message: Message) -> Result<(), OutOfMemory>
        requires waits { CanWait message }
        requires new { IsNewTo (batches_of self.old) message }
        ensures ok { OnOk result (self.new ≡ put_off message self.old) }
        ensures err { OnErr result (self.new ≡ self.old) }
    {
        if let Some(held) = &mut self.held {
            return held.put(message);
        }
        let mut held = Held::new(self.alloc);
        held.put(message)?;
        self.held = Some(Box::new(self.alloc, held)?);
        Ok(())
    }

    /// Takes out what waits for the message, which becomes learned, directly or not: the message, and after it what
    /// it frees, in key order; all others stay. In time of the logarithm of the messages for each that is freed. For
    /// want of memory some that would be freed may be lost, and with them the message.
    pub fn free(&mut self, alloc: Global, message: Message) -> Result<Vec<Message>, OutOfMemory>
        requires { IsNewTo (batches_of self.old) message }
        ensures freed { IfOk result (λ list. list.items ≡ freed message self.old) }
        ensures rest { OnOk result (self.new ≡ still_put_off message self.old) }
    {
        let freed = match &mut self.held {
            None => return alone(alloc, message),
            Some(held) => held.free(alloc, message),
        };
        self.let_go();
        freed
    }

    /// The least key of a message that waits for the batch, or for the one that goes right after it, where there is one. In the
    /// logarithm of the messages for each that waits for them; where none waits, no memory is wanted.
    pub fn first_waiter(
        &self,
        alloc: Global,
        batch: &Batch,
        second: Option<&Batch>,
    ) -> Result<Option<BatchKey>, OutOfMemory>
        ensures some { IfOk result (λ found.
            IfSome found (λ key. is_woken
            (batch.now ∷ option_to_list (option_copied second.entry)) key self.now ≡ true)) }
        ensures none { IfOk result (λ found.
            IfNone found (AllByRecursion (λ sent.
            waits_for (batch.now ∷ option_to_list (option_copied second.entry)) sent
            ≡ false) self.now)) }
    {
        match &self.held {
            None => Ok(None),
            Some(held) => held.first_waiter(alloc, batch, second),
        }
    }

    /// The nearest key upwards from this one that is not there: for a batch that is put off what it misses. Each key
    /// on the way is given a shortcut to it, where memory allows, so that over many calls one goes as many steps as
    /// the logarithm of the messages, each a few look-ups; no memory is wanted.
    pub fn missing(&mut self, key: BatchKey) -> BatchKey
        ensures missing { Some result ≡ missing_from (Some key) (batches_of self.old) }
        ensures same { self.new ≡ self.old }
    {
        match &mut self.held {
            None => key,
            Some(held) => held.missing(key),
        }
    }

    /// Of each batch that is put off, those that are carried too, in key order, what it misses. In time of the
    /// batches times the logarithm of them.
    pub fn all_missing(&self, alloc: Global) -> Result<Vec<PutOff>, OutOfMemory>
        ensures { IfOk result (λ list.
            map (λ one. (one.key, Some one.missing)) list.items
            ≡ all_missing (batches_of self.now)) }
    {
        match &self.held {
            None => Ok(Vec::new(alloc)),
            Some(held) => held.all_missing(alloc),
        }
    }

    /// Gives the memory back where no message waits.
    fn let_go(&mut self)
        ensures { self.new ≡ self.old }
    {
        if self.is_empty() {
            self.held = None;
        }
    }
}
