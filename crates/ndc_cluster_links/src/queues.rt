ghost use Rattle.std.specs.Prelude.{◌≡◌, ◌≤◌, IfSome, OnOk};
ghost use Rattle.ndc_cluster_links.specs.Rest.{IsFrontOf, IsRestOf};
ghost use Rattle.ndc_cluster.specs.Rounds.{IsFresh};
ghost use Rattle.ndc_queue.specs.Queues.{queue_len};

use ndc_cluster::{Cell, Fresh};
use ndc_event::OutOfMemory;
use ndc_queue::Queue;
use std::alloc::Global;
use std::marker::Model;

/// The queues of a source, by shard.
#[derive(Drop)]
pub struct Queues {
    items: Vec<Queue>,
    /// How many entries there are, over all queues, with those that were dropped.
    written: u64,
    /// The shard whose queue was put to last.
    latest: usize,
}

impl Model for Queues {
    ghost use Rattle.std.specs.Prelude.{List};
    ghost use Rattle.ndc_queue.specs.Queues.{QueueValue};

    ghost Value = { List QueueValue };

    ghost view = { λ queues. queues.items.items };

    ghost use Rattle.ndc_cluster_links.specs.QueuesFields.{IsQueuesInside};

    ghost invariant = { IsQueuesInside };
}

/// Puts the messages last that a cell has written from a place on, where this is the end of its queue; else the queue stays as
/// it was. Where memory runs out, some of them are there.
fn push_fresh<C: Cell>(queue: &mut Queue, cell: &C, fresh: Fresh) -> Result<(), OutOfMemory>
    requires front { IsFrontOf queue.old (C.cell cell.now).written }
    requires fresh { IsFresh fresh (C.cell cell.now) }
    ensures front { IsFrontOf queue.new (C.cell cell.now).written }
    ensures first { queue.new.first ≡ queue.old.first }
    ensures grown { queue_len queue.old ≤ queue_len queue.new }
{
    if queue.len() != fresh.from {
        return Ok(());
    }
    for message in fresh.messages {
        queue.push(message)?;
    }
    Ok(())
}

/// Puts the messages last that a cell has written after those of its queue, some of which may be at hand. Where memory
/// runs out, some of them are there.
fn push_all<C: Cell>(queue: &mut Queue, cell: &C, fresh: Option<Fresh>) -> Result<(), OutOfMemory>
    requires front { IsFrontOf queue.old (C.cell cell.now).written }
    requires fresh { IfSome fresh (λ fresh. IsFresh fresh (C.cell cell.now)) }
    ensures rest { OnOk result (IsRestOf queue.new (C.cell cell.now).written) }
    ensures first { queue.new.first ≡ queue.old.first }
    ensures grown { queue_len queue.old ≤ queue_len queue.new }
{
    match fresh {
        Some(fresh) => {
            push_fresh(queue, cell, fresh)?;
            push_written(queue, cell)
        }
        None => push_written(queue, cell),
    }
}

/// Puts the messages last that a cell has written after those of its queue. Where memory runs out, some of them are
/// there.
fn push_written<C: Cell>(queue: &mut Queue, cell: &C) -> Result<(), OutOfMemory>
    requires { IsFrontOf queue.old (C.cell cell.now).written }
    ensures rest { OnOk result (IsRestOf queue.new (C.cell cell.now).written) }
    ensures first { queue.new.first ≡ queue.old.first }
    ensures grown { queue_len queue.old ≤ queue_len queue.new }
{
    while queue.len() < cell.written_len() {
        let message = cell.written_at(queue.len())?;
        queue.push(message)?;
    }
    Ok(())
}

impl Queues {
    ghost use Rattle.std.specs.Prelude.{◌≡◌, ◌<◌, ◌≤◌, ◌-◌, [], length, max, replicate, slice_set, IfOk, IfSome, OnOk};
    ghost use Rattle.std.specs.List.{sum_by};
    ghost use Rattle.ndc_cluster.specs.Rounds.{IsFresh};
    ghost use Rattle.ndc_cluster_links.specs.Rest.{IsFrontOf, IsRestOf, queue_at};
    ghost use Rattle.ndc_queue.specs.Queues.{new_queue, queue_len, trimmed};

    /// Queues without an entry, for so many shards, at most 64.
    pub fn new(alloc: Global, shards: u32) -> Result<Queues, OutOfMemory>
        requires { shards ≤ 64 }
        ensures { IfOk result (λ queues. queues ≡ replicate shards new_queue) }
    {
        let mut items = Vec::new(alloc);
        while items.len() < shards as usize {
            items.push(Queue::new(alloc))?;
        }
        Ok(Queues {
            items,
            written: 0,
            latest: 0,
        })
    }

    /// No queue at all. Takes no memory.
    pub fn none(alloc: Global) -> Queues
        ensures { result ≡ [] }
    {
        Queues {
            items: Vec::new(alloc),
            written: 0,
            latest: 0,
        }
    }

    /// The queues, by shard. Takes no memory.
    pub fn as_slice(&self) -> &[Queue]
        ensures { result.now ≡ self.now }
    {
        self.items.as_slice()
    }

    /// How many queues there are, at most 64. Takes no memory.
    pub fn len(&self) -> usize
        ensures len { result ≡ length self.now }
        ensures few { result ≤ 64 }
    {
        self.items.len()
    }

    /// How many entries there are, over all queues, with those that were dropped. Takes no memory.
    pub fn written(&self) -> u64
        ensures { result ≡ sum_by queue_len self.now }
    {
        self.written
    }

    /// The shard whose queue was put to last, 0 in the beginning. Takes no memory.
    pub(crate) fn latest(&self) -> usize {
        self.latest
    }

    /// Drops all entries of a shard's queue below a level, which is not above its length, and counts those that are
    /// dropped now. Takes no memory.
    pub fn trim(&mut self, shard: usize, level: u64) -> u64
        requires shard { shard < length self.old }
        requires level { level ≤ queue_len (queue_at self.old shard) }
        ensures trimmed { self.new
            ≡ slice_set self.old shard (trimmed level (queue_at self.old shard)) }
        ensures count { result ≡ max (queue_at self.old shard).first level
            - (queue_at self.old shard).first }
    {
        let queue = &mut self.items[shard];
        let first = queue.first();
        queue.trim(level);
        queue.first() - first
    }

    /// Puts the messages last in the queue of a shard that its cell has written after those that are there. Messages
    /// that it has written from a place on may be at hand: they are not made again. Where memory runs out, some of them
    /// are there.
    pub fn extend<C: Cell>(
        &mut self,
        shard: usize,
        cell: &C,
        fresh: Option<Fresh>,
    ) -> Result<(), OutOfMemory>
        requires shard { shard < length self.old }
        requires front { IsFrontOf (queue_at self.old shard) (C.cell cell.now).written }
        requires fresh { IfSome fresh (λ fresh. IsFresh fresh (C.cell cell.now)) }
        ensures rest { OnOk result (IsRestOf (queue_at self.new shard) (C.cell cell.now).written) }
        ensures others { self.new ≡ slice_set self.old shard (queue_at self.new shard) }
        ensures first { (queue_at self.new shard).first ≡ (queue_at self.old shard).first }
    {
        let queue = &mut self.items[shard];
        let before = queue.len();
        let pushed = push_all(queue, cell, fresh);
        let grown = queue.len() - before;
        self.written += grown;
        self.latest = shard;
        pushed
    }
}
