ghost use Rattle.std.specs.Prelude.{◌≡◌, [], ◌∷◌, ◌++◌, Some, None, OnOk, if◌then◌else◌};
ghost use Rattle.ndc_event.specs.Key.{key_eq};
ghost use Rattle.ndc_model_cells.specs.Cells.{both};
ghost use Rattle.ndc_event.specs.declared.key.BatchKey.{BatchKey as Key};
ghost use Rattle.ndc_model_sets.specs.Sets.{batch_at};
ghost use Rattle.ndc_shard_waiting.specs.Shortcuts.{shortcut_at, missed_by};
ghost use Rattle.ndc_model_cells.specs.Messages.{batches_of};

use crate::shelf::Shelf;
use crate::shortcuts::Shortcuts;
use crate::waiting::PutOff;
use ndc_event::{Batch, BatchKey, OutOfMemory};
use ndc_model_cells::Message;
use ndc_model_sets::earlier_key;
use std::alloc::Global;
use std::marker::Model;

/// Messages of one workflow that are put off, with shortcuts to what they miss. Seen as their list in the order of
/// their batches' keys.
pub(crate) struct Held {
    shelf: Shelf,
    shortcuts: Shortcuts,
}

impl Model for Held {
    ghost use Rattle.std.specs.Prelude.{List};
    ghost use Rattle.ndc_model_cells.specs.declared.message.Message.{Message};

    ghost Value = { List Message };

    ghost use Rattle.ndc_shard_waiting.specs.HeldFields.{IsInside};

    ghost view = { λ held. held.shelf };

    ghost invariant = { IsInside };
}

impl Drop for Held {
    fn drop(self) {
        let Held {
            shelf: _shelf,
            shortcuts: _shortcuts,
        } = self;
    }
}

/// Takes out the shortcuts of the message's batches.
fn forget(shortcuts: &mut Shortcuts, sent: &Message)
    ensures { (one to : Key) → shortcut_at one shortcuts.new ≡ Some to
        → (shortcut_at one shortcuts.old ≡ Some to) × (batch_at one (both sent.now) ≡ None) }
{
    shortcuts.forget(sent.batch.key);
    if let Some(second) = sent.second.as_ref() {
        shortcuts.forget(second.key);
    }
}

/// Takes out the shortcuts of the messages' batches.
fn forget_all(shortcuts: &mut Shortcuts, messages: &[Message])
    ensures { (one to : Key) → shortcut_at one shortcuts.new ≡ Some to
        → (shortcut_at one shortcuts.old ≡ Some to)
        × (batch_at one (batches_of messages.now) ≡ None) }
{
    for sent in messages {
        forget(shortcuts, sent);
    }
}

/// What a batch misses, where it is told what those before it miss.
fn missed(ends: &Shortcuts, batch: &Batch) -> BatchKey
    ensures { result ≡ missed_by ends.now batch.now }
{
    match earlier_key(batch) {
        None => batch.key,
        Some(earlier) => match ends.get(earlier) {
            None => earlier,
            Some(end) => end,
        },
    }
}

/// Notes what a batch misses, for those after it too.
fn note(ends: &mut Shortcuts, found: &mut Vec<PutOff>, batch: &Batch) -> Result<(), OutOfMemory>
    ensures ends { OnOk result
        ((one : Key) → shortcut_at one ends.new
        ≡ (if key_eq batch.now.key one then Some
        (missed_by ends.old batch.now) else shortcut_at one ends.old)) }
    ensures found { OnOk result
        (found.new.items ≡ found.old.items
        ++ record { key = batch.now.key; missing = missed_by ends.old batch.now } ∷ []) }
{
    let missing = missed(ends, batch);
    ends.set(batch.key, missing)?;
    found.push(PutOff {
        key: batch.key,
        missing,
    })?;
    Ok(())
}

impl Held {
    ghost use Rattle.std.specs.Prelude.{◌≡◌, [], ◌∷◌, true, false, length, map, is_some, option_to_list, Some, IfOk, IfSome, IfNone, OnOk, OnErr};
    ghost use Rattle.std.specs.List.{AllByRecursion};
    ghost use Rattle.std.specs.Option.{option_copied};
    ghost use Rattle.ndc_model_sets.specs.Sets.{batch_at};
    ghost use Rattle.ndc_shard_waiting.specs.Finding.{message_with};
    ghost use Rattle.ndc_shard_waiting.specs.Shortcuts.{GoesUp, LeadsUp};
    ghost use Rattle.ndc_model_cells.specs.Messages.{batches_of, waits_for, IsNewTo};
    ghost use Rattle.ndc_shard_waiting.specs.Linking.{is_woken};
    ghost use Rattle.ndc_shard_waiting.specs.Waiting.{put_off, freed, still_put_off, missing_from, all_missing, AreWaiting, CanWait};

    /// No message waits.
    pub(crate) fn new(alloc: Global) -> Held
        ensures { result ≡ [] }
    {
        Held {
            shelf: Shelf::new(alloc),
            shortcuts: Shortcuts::new(alloc),
        }
    }

    /// How many messages wait; their batches are a set, and each has an earlier key.
    pub(crate) fn len(&self) -> usize
        ensures len { result ≡ length self.now }
        ensures waiting { AreWaiting self.now }
    {
        self.shelf.len()
    }

    /// The batch of this key, that of a message or the one that it carries. In time of the logarithm of the messages,
    /// without memory.
    pub(crate) fn get(&self, key: BatchKey) -> Option<&Batch>
        ensures { option_copied result ≡ batch_at key (batches_of self.now) }
    {
        self.shelf.get(key)
    }

    /// The message that has a batch of this key, its own or the one that it carries. In time of the logarithm of the
    /// messages, without memory.
    pub(crate) fn message(&self, key: BatchKey) -> Option<&Message>
        ensures { option_copied result ≡ message_with key self.now }
    {
        self.shelf.message(key)
    }

    /// The batches of the messages, those that are carried too, in key order.
    pub(crate) fn batches(&self, alloc: Global) -> Result<Vec<&Batch>, OutOfMemory>
        ensures { IfOk result (λ list. map (λ b. b.now) list.items ≡ batches_of self.now) }
    {
        self.shelf.batches(alloc)
    }

    /// Puts a message off: it goes to its place. Its batch has an earlier key, which comes before its own, and what it
    /// carries has the next one; neither key is there. In time of the logarithm of the messages. For want of memory
    /// nothing changes.
    pub(crate) fn put(&mut self, message: Message) -> Result<(), OutOfMemory>
        requires waits { CanWait message }
        requires new { IsNewTo (batches_of self.old) message }
        ensures ok { OnOk result (self.new ≡ put_off message self.old) }
        ensures err { OnErr result (self.new ≡ self.old) }
    {
        self.shelf.put(message)
    }

    /// Takes out what waits for the message, which becomes learned, directly or not: the message, and after it what
    /// it frees, in key order; all others stay. In time of the logarithm of the messages for each that is freed. For
    /// want of memory some that would be freed may be lost, and with them the message.
    pub(crate) fn free(
        &mut self,
        alloc: Global,
        message: Message,
    ) -> Result<Vec<Message>, OutOfMemory>
        requires { IsNewTo (batches_of self.old) message }
        ensures freed { IfOk result (λ list. list.items ≡ freed message self.old) }
        ensures rest { OnOk result (self.new ≡ still_put_off message self.old) }
    {
        match self.shelf.free(alloc, message) {
            Ok(freed) => {
                forget_all(&mut self.shortcuts, freed.as_slice());
                Ok(freed)
            }
            Err(error) => {
                self.shortcuts = Shortcuts::new(alloc);
                Err(error)
            }
        }
    }

    /// The least key of a message that waits for the batch, or for the one that goes right after it, where there is one. In the
    /// logarithm of the messages for each that waits for them; where none waits, no memory is wanted.
    pub(crate) fn first_waiter(
        &self,
        alloc: Global,
        batch: &Batch,
        second: Option<&Batch>,
    ) -> Result<Option<BatchKey>, OutOfMemory>
        ensures some { IfOk result (λ found.
            IfSome found (λ key. is_woken
            (batch.now ∷ option_to_list (option_copied second.entry)) key self.now ≡ true)) }
        ensures none { IfOk result (λ found.
            IfNone found (AllByRecursion (λ sent.
            waits_for (batch.now ∷ option_to_list (option_copied second.entry)) sent
            ≡ false) self.now)) }
    {
        self.shelf.first_waiter(alloc, batch, second)
    }

    /// The nearest key upwards from this one that is not there: for a batch that is put off what it misses. Each key
    /// on the way is given a shortcut to it, where memory allows, so that over many calls one goes as many steps as
    /// the logarithm of the messages, each a few look-ups; no memory is wanted.
    pub(crate) fn missing(&mut self, key: BatchKey) -> BatchKey
        ensures missing { Some result ≡ missing_from (Some key) (batches_of self.old) }
        ensures same { self.new ≡ self.old }
    {
        let end = self.end_of(key);
        self.shorten(key, end);
        end
    }

    /// Of each batch that is put off, those that are carried too, in key order, what it misses. In time of the
    /// batches times the logarithm of them.
    pub(crate) fn all_missing(&self, alloc: Global) -> Result<Vec<PutOff>, OutOfMemory>
        ensures { IfOk result (λ list.
            map (λ one. (one.key, Some one.missing)) list.items
            ≡ all_missing (batches_of self.now)) }
    {
        let mut ends = Shortcuts::new(alloc);
        let mut found = Vec::new(alloc);
        let batches = self.shelf.batches(alloc)?;
        for batch in batches.as_slice() {
            note(&mut ends, &mut found, batch)?;
        }
        Ok(found)
    }

    /// One step upwards from the key of a batch.
    fn above(&self, key: BatchKey) -> Option<BatchKey>
        ensures goes { GoesUp (batches_of self.now) key result }
        ensures waiting { AreWaiting self.now }
    {
        match self.shortcuts.get(key) {
            Some(to) => Some(to),
            None => earlier_key(self.shelf.get(key)?),
        }
    }

    /// Goes upwards from the key to the first that is not there.
    fn end_of(&self, key: BatchKey) -> BatchKey
        ensures { Some result ≡ missing_from (Some key) (batches_of self.now) }
    {
        let mut at = key;
        while let Some(up) = self.above(at) {
            at = up;
        }
        at
    }

    /// From each key on the way from this one to the end it is one step from then on.
    fn shorten(&mut self, key: BatchKey, end: BatchKey)
        requires { missing_from (Some key) (batches_of self.old) ≡ Some end }
        ensures { self.new ≡ self.old }
    {
        let mut at = key;
        while let Some(up) = self.above(at) {
            if up != end {
                self.lead(at, end);
            }
            at = up;
        }
    }

    /// Gives the key a shortcut, where memory allows.
    fn lead(&mut self, key: BatchKey, to: BatchKey)
        requires { LeadsUp (batches_of self.old) key to }
        ensures { self.new ≡ self.old }
    {
        let _ = self.shortcuts.set(key, to);
    }
}
