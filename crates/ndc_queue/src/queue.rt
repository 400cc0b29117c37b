ghost use Rattle.std.specs.Prelude.{◌≡◌, ◌≤◌, ◌*◌, drop, length, take, IfOk};
ghost use Rattle.std.specs.List.{AllByRecursion};
ghost use Rattle.ndc_queue.specs.Queues.{IsEmptied};

use ndc_event::{Events, OutOfMemory, Rare};
use ndc_history::VersionHistory;
use ndc_model_cells::Message;
use std::alloc::{AllocError, Global};
use std::marker::Model;

/// How many entries a queue may have, with those that were dropped.
pub const MAX_ENTRIES: u64 = 1_000_000_000_000;

/// The messages that a cell has written, in order. The first ones may have been dropped. Seen as how many these are,
/// and the list of the others.
///
/// What is dropped is let go at once. To take it out of `entries` moves all that is kept, so that waits until it is more
/// than half; meanwhile its places stay, each with the names and keys of its batch. Room for as many entries as there were
/// at once stays until the queue is let go.
#[derive(Debug, Drop)]
pub struct Queue {
    /// The kept entries, after dropped ones that have not been taken out yet.
    entries: Vec<Message>,
    /// How many of `entries` are dropped ones: at most half of them. They are emptied.
    idle: usize,
    /// How many entries were dropped in all.
    first: u64,
}

impl Model for Queue {
    ghost use Rattle.std.specs.Prelude.{◌≤◌, ◌+◌, ◌*◌, ◌^◌, drop, length, take};
    ghost use Rattle.std.specs.List.{AllByRecursion};
    ghost use Rattle.ndc_queue.specs.Queues.{IsEmptied, QueueValue};

    ghost Value = { QueueValue };

    ghost view = { λ queue. record {
      first = queue.first;
      kept = drop queue.idle queue.entries.items;
    } };

    ghost invariant = { λ queue. (2 * queue.idle ≤ length queue.entries.items)
        × (queue.first + length (drop queue.idle queue.entries.items) ≤ 10 ^ 12)
        × AllByRecursion IsEmptied (take queue.idle queue.entries.items) };
}

/// Takes the first entries out.
fn take_out(entries: &mut Vec<Message>, count: usize)
    requires { count ≤ length entries.old.items }
    ensures { entries.new.items ≡ drop count entries.old.items }
{
    let left = entries.len() - count;
    entries.rotate_left(count);
    entries.truncate(left);
}

/// Empties the entries at these places: lets go their events, their version histories and what they carry.
fn empty(entries: &mut Vec<Message>, from: usize, to: usize)
    requires from { from ≤ to }
    requires to { to ≤ length entries.old.items }
    ensures emptied { AllByRecursion IsEmptied (take from entries.old.items)
        → AllByRecursion IsEmptied (take to entries.new.items) }
    ensures kept { drop to entries.new.items ≡ drop to entries.old.items }
    ensures len { length entries.new.items ≡ length entries.old.items }
{
    let alloc = *entries.allocator();
    for place in from..to {
        let entry = &mut entries[place];
        entry.batch.events = Events::of(Vec::new(alloc));
        entry.history = VersionHistory::new(alloc);
        entry.second = Rare::none();
    }
}

/// Drops the entries before a place, of which the first ones are idle, and answers how many are idle then: none where they
/// are taken out, since they are more than half, and else all of them.
fn drop_front(entries: &mut Vec<Message>, idle: usize, place: usize) -> usize
    requires idle { idle ≤ place }
    requires place { place ≤ length entries.old.items }
    requires emptied { AllByRecursion IsEmptied (take idle entries.old.items) }
    ensures kept { drop result entries.new.items ≡ drop place entries.old.items }
    ensures most { 2 * result ≤ length entries.new.items }
    ensures emptied { AllByRecursion IsEmptied (take result entries.new.items) }
{
    if entries.len() / 2 < place {
        take_out(entries, place);
        return 0;
    }
    empty(entries, idle, place);
    place
}

/// The first entries, at most so many.
fn front(entries: &[Message], count: u64) -> &[Message]
    ensures { result.now ≡ take count entries.now }
{
    if count < entries.len() as u64 {
        &entries[..count as usize]
    } else {
        entries
    }
}

/// Copies of the entries.
fn copies(alloc: Global, entries: &[Message]) -> Result<Vec<Message>, OutOfMemory>
    ensures { IfOk result (λ list. list.items ≡ entries.now) }
{
    let mut list = Vec::with_capacity(alloc, entries.len())?;
    for entry in entries {
        list.push(entry.try_copy()?)?;
    }
    Ok(list)
}

impl Queue {
    ghost use Rattle.std.specs.Prelude.{◌≡◌, ◌≤◌, ◌^◌, [], Err, IfOk, IsErr, OnErr, OnOk, take};
    ghost use Rattle.ndc_queue.specs.Lists.{kept_from};
    ghost use Rattle.ndc_queue.specs.Queues.{IsFull, new_queue, pushed, queue_len, trimmed};

    /// The queue without an entry. Takes no memory.
    pub fn new(alloc: Global) -> Queue
        ensures { result ≡ new_queue }
    {
        Queue {
            entries: Vec::new(alloc),
            idle: 0,
            first: 0,
        }
    }

    /// The queue of which so many entries were dropped, and none is kept. Takes no memory. They are at most
    /// [`MAX_ENTRIES`].
    pub fn trimmed_to(alloc: Global, first: u64) -> Queue
        requires { first ≤ 10 ^ 12 }
        ensures { result ≡ record { first = first; kept = [] } }
    {
        Queue {
            entries: Vec::new(alloc),
            idle: 0,
            first,
        }
    }

    /// Puts an entry last. Where memory runs out, the queue stays as it was; a full queue, of [`MAX_ENTRIES`] entries,
    /// answers so too.
    pub fn push(&mut self, message: Message) -> Result<(), OutOfMemory>
        ensures pushed { OnOk result (self.new ≡ pushed message self.old) }
        ensures unchanged { OnErr result (self.new ≡ self.old) }
        ensures full { IsFull self.old → IsErr result }
    {
        let kept = (self.entries.len() - self.idle) as u64;
        if MAX_ENTRIES - self.first <= kept {
            return Err(AllocError);
        }
        self.entries.push(message)?;
        Ok(())
    }

    /// Copies of the entries from a level on, at most so many. The level is not below `first` and not above `len`.
    pub fn after(&self, level: u64, count: u64) -> Result<Vec<Message>, OutOfMemory>
        requires least { self.now.first ≤ level }
        requires most { level ≤ queue_len self.now }
        ensures { IfOk result (λ list.
            list.items ≡ take count (kept_from self.now.first level self.now.kept)) }
    {
        let entries = &self.entries.as_slice()[self.idle..];
        let entries = &entries[(level - self.first) as usize..];
        copies(*self.entries.allocator(), front(entries, count))
    }

    /// Drops all entries below a level, which is not above `len`, and lets go what they hold. Takes no memory, and moves an
    /// entry at most as often as entries before it were dropped.
    pub fn trim(&mut self, level: u64)
        requires { level ≤ queue_len self.old }
        ensures { self.new ≡ trimmed level self.old }
    {
        if level <= self.first {
            return;
        }
        let place = self.idle + (level - self.first) as usize;
        self.idle = drop_front(&mut self.entries, self.idle, place);
        self.first = level;
    }

    /// How many entries were dropped. Takes no memory.
    pub fn first(&self) -> u64
        ensures { result ≡ self.now.first }
    {
        self.first
    }

    /// How many entries there are, with those that were dropped. Takes no memory.
    pub fn len(&self) -> u64
        ensures len { result ≡ queue_len self.now }
        ensures most { result ≤ 10 ^ 12 }
    {
        self.first + (self.entries.len() - self.idle) as u64
    }

    /// The entries that are kept, in order. Takes no memory.
    pub fn kept(&self) -> &[Message]
        ensures { result.now ≡ self.now.kept }
    {
        &self.entries.as_slice()[self.idle..]
    }
}
