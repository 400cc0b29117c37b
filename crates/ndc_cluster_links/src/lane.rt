ghost use Rattle.std.specs.Prelude.{◌≡◌, ◌≤◌, ◌+◌, ◌-◌, ◌^◌, drop, length, List, IfOk};
ghost use Rattle.std.specs.List.{prefix_len};
ghost use Rattle.ndc_model.specs.Queues.{needs_nothing};
ghost use Rattle.ndc_model_cells.specs.declared.message.Message.{Message as Sent};
ghost use Rattle.ndc_cluster_links.specs.Rest.{IsRestOf};
ghost use Rattle.ndc_queue.specs.Lists.{entries_from};
ghost use Rattle.ndc_queue.specs.Queues.{queue_len};

use crate::addressed::{addressed, keep_addressed, settled_front};
use ndc_cluster::Cell;
use ndc_domain::{ClusterNo, DomainTable};
use ndc_event::OutOfMemory;
use ndc_model_cells::Message;
use ndc_queue::{Flight, FlightError, Levels, NoSuchPlace, Queue};
use std::alloc::Global;
use std::marker::Model;

/// What a reader has of the queue of one source and shard: how far it has read it, how far all of it is done, and the
/// messages that are in flight.
#[derive(Drop)]
pub struct Lane {
    levels: Levels,
    flight: Flight,
}

impl Model for Lane {
    ghost use Rattle.ndc_model.specs.Queues.{Lane as LaneValue};

    ghost Value = { LaneValue };

    ghost view = { λ lane. record { levels = lane.levels; flight = lane.flight } };

    ghost use Rattle.std.specs.Prelude.{◌≤◌, ◌^◌};

    ghost invariant = { λ lane. lane.levels.read ≤ 10 ^ 12 };
}

/// Copies of the kept entries of a queue from a level on: all of them, or at most so many.
fn taken(queue: &Queue, level: u64, count: Option<u64>) -> Result<Vec<Message>, OutOfMemory>
    requires first { queue.now.first ≤ level }
    requires last { level ≤ queue_len queue.now }
    ensures entries { IfOk result (λ taken.
        taken.items ≡ entries_from count (level - queue.now.first) queue.now.kept) }
    ensures most { IfOk result (λ taken. level + length taken.items ≤ 10 ^ 12) }
{
    let len = queue.len();
    queue.after(level, count.unwrap_or(len))
}

/// The kept entries of a queue from a level on.
fn entries_of(queue: &Queue, level: u64) -> &[Message]
    requires first { queue.now.first ≤ level }
    requires last { level ≤ queue_len queue.now }
    ensures entries { result.now ≡ drop (level - queue.now.first) queue.now.kept }
    ensures most { level + length result.now ≤ 10 ^ 12 }
    ensures end { level + length result.now ≡ queue_len queue.now }
{
    let _most = queue.len();
    &queue.kept()[(level - queue.first()) as usize..]
}

/// How many of a queue's entries from a level on there are for which nothing is to be done. Where the level is its end, no
/// entry is looked at.
fn settled_from<C: Cell>(
    table: &DomainTable,
    reader: ClusterNo,
    cell: &C,
    queue: &Queue,
    level: u64,
) -> usize
    requires first { queue.now.first ≤ level }
    requires last { level ≤ queue_len queue.now }
    ensures front { (whole : List Sent) → IsRestOf queue.now whole
        → result ≡ prefix_len (needs_nothing reader table.now (C.cell cell.now))
        (drop level whole) }
    ensures most { level + result ≤ 10 ^ 12 }
    ensures end { level + result ≤ queue_len queue.now }
{
    if level == queue.len() {
        return 0;
    }
    settled_front(table, reader, cell, entries_of(queue, level))
}

impl Lane {
    ghost use Rattle.std.specs.List.{filter};
    ghost use Rattle.std.specs.Prelude.{◌≡◌, ◌≢◌, ◌≤◌, ◌^◌, List, length, drop, Some, None, Err, MatchResult, IsTrue, OnOk, OnErr, IfOk, IfErr};
    ghost use Rattle.ndc_model_cells.specs.declared.message.Message.{Message as Sent};
    ghost use Rattle.ndc_cluster_links.specs.Rest.{IsRestOf};
    ghost use Rattle.ndc_model.specs.Queues.{after_pull, after_renewal, after_rewind, is_addressed, new_lane, put_in_flight};
    ghost use Rattle.ndc_model.specs.Moves.{without_flight};
    ghost use Rattle.ndc_queue.specs.Lists.{after_loss, after_move, after_repeat};
    ghost use Rattle.ndc_queue.specs.Queues.{queue_len};
    ghost use Rattle.ndc_queue.specs.declared.flight.FlightError.TheVariants as error;

    /// The lane before anything was pulled. Takes no memory.
    pub fn new(alloc: Global) -> Lane
        ensures { result ≡ new_lane }
    {
        Lane {
            levels: Levels::new(),
            flight: Flight::new(alloc),
        }
    }

    /// How far the queue was read, and how far all of it is done. Takes no memory.
    pub fn levels(&self) -> &Levels
        ensures { result.now ≡ self.now.levels }
    {
        &self.levels
    }

    /// The messages in flight, in order of place. Takes no memory.
    pub fn flight(&self) -> &[Message]
        ensures { result.now ≡ self.now.flight }
    {
        self.flight.list()
    }

    /// Takes the entries from `read` on, all or at most so many; those that are addressed to the reader go last in
    /// flight, and are counted. What is kept of the queue reaches from `read` or before it to its end, and `read` does
    /// not lie beyond this. Where memory runs out, the lane stays as it was. Where nothing was written after `read`,
    /// this is one comparison.
    pub fn pull(
        &mut self,
        table: &DomainTable,
        reader: ClusterNo,
        count: Option<u64>,
        queue: &Queue,
    ) -> Result<u64, OutOfMemory>
        requires first { queue.now.first ≤ self.old.levels.read }
        requires last { self.old.levels.read ≤ queue_len queue.now }
        ensures pulled { OnOk result ((whole : List Sent) → IsRestOf queue.now whole
            → self.new ≡ after_pull reader table.now count whole self.old) }
        ensures count { IfOk result (λ sent.
            (whole : List Sent) → IsRestOf queue.now whole
            → sent ≡ length (put_in_flight reader table.now count whole self.old)) }
        ensures most { IfOk result (λ sent. sent ≤ 10 ^ 12) }
        ensures done { self.new.levels.done ≡ self.old.levels.done }
        ensures unchanged { OnErr result (self.new ≡ self.old) }
    {
        if self.has_read(queue) {
            return Ok(0);
        }
        self.pull_entries(table, reader, count, queue)
    }

    /// Whether a queue was read up to its end.
    pub(crate) fn has_read(&self, queue: &Queue) -> bool
        ensures { IsTrue result → self.now.levels.read ≡ queue_len queue.now }
    {
        self.levels.read == queue.len()
    }

    /// Whether all entries of a queue are done.
    pub(crate) fn is_done(&self, queue: &Queue) -> bool
        ensures { IsTrue result → self.now.levels.done ≡ queue_len queue.now }
    {
        self.levels.done == queue.len()
    }

    /// The same, wherever `read` lies.
    fn pull_entries(
        &mut self,
        table: &DomainTable,
        reader: ClusterNo,
        count: Option<u64>,
        queue: &Queue,
    ) -> Result<u64, OutOfMemory>
        requires first { queue.now.first ≤ self.old.levels.read }
        requires last { self.old.levels.read ≤ queue_len queue.now }
        ensures pulled { OnOk result ((whole : List Sent) → IsRestOf queue.now whole
            → self.new ≡ after_pull reader table.now count whole self.old) }
        ensures count { IfOk result (λ sent.
            (whole : List Sent) → IsRestOf queue.now whole
            → sent ≡ length (put_in_flight reader table.now count whole self.old)) }
        ensures most { IfOk result (λ sent. sent ≤ 10 ^ 12) }
        ensures done { self.new.levels.done ≡ self.old.levels.done }
        ensures unchanged { OnErr result (self.new ≡ self.old) }
    {
        let mut sent = taken(queue, self.levels.read, count)?;
        let read = self.levels.read + sent.len() as u64;
        keep_addressed(&mut sent, table, reader);
        let added = sent.len() as u64;
        self.flight.put(sent)?;
        self.levels = Levels {
            read,
            done: self.levels.done,
        };
        Ok(added)
    }

    /// Raises `done` over the entries that the reader's cell has learned or that are not addressed to the reader, up to
    /// the first other one, and `read` where it would be below. What is kept of the queue reaches from `done` or before
    /// it to its end. Answers how far `done` is then. Takes no memory.
    pub fn renew<C: Cell>(
        &mut self,
        table: &DomainTable,
        reader: ClusterNo,
        cell: &C,
        queue: &Queue,
    ) -> u64
        requires first { queue.now.first ≤ self.old.levels.done }
        requires last { self.old.levels.done ≤ queue_len queue.now }
        ensures renewed { (whole : List Sent) → IsRestOf queue.now whole
            → self.new ≡ after_renewal reader table.now (C.cell cell.now) whole self.old }
        ensures flight { self.new.flight ≡ self.old.flight }
        ensures done { result ≡ self.new.levels.done }
        ensures most { result ≤ 10 ^ 12 }
        ensures end { result ≤ queue_len queue.now }
    {
        let done = self.levels.done;
        let settled = settled_from(table, reader, cell, queue, done);
        let done = done + settled as u64;
        self.levels.advance(done);
        done
    }

    /// Copies of the entries from `done` on that are addressed to the reader, in order. What is kept of the queue reaches
    /// from `done` or before it to its end.
    pub fn due(
        &self,
        alloc: Global,
        table: &DomainTable,
        reader: ClusterNo,
        queue: &Queue,
    ) -> Result<Vec<Message>, OutOfMemory>
        requires first { queue.now.first ≤ self.now.levels.done }
        requires last { self.now.levels.done ≤ queue_len queue.now }
        ensures { IfOk result (λ list.
            (whole : List Sent) → IsRestOf queue.now whole
            → list.items ≡ filter (is_addressed reader table.now)
            (drop self.now.levels.done whole)) }
    {
        let entries = entries_of(queue, self.levels.done);
        let list = addressed(alloc, table, reader, entries)?;
        Ok(list)
    }

    /// What was read and is not done is to be read again. Takes no memory.
    pub fn rewind(&mut self)
        ensures { self.new ≡ after_rewind self.old }
    {
        self.levels.rewind();
    }

    /// Loses the message at a place in flight. Refused exactly where there is none, and then the lane stays as it was.
    /// Takes no memory.
    pub fn lose(&mut self, place: usize) -> Result<(), NoSuchPlace>
        ensures lost { MatchResult result
            (λ _. after_loss place self.old.flight ≡ Some self.new.flight)
            (λ _. after_loss place self.old.flight ≡ None) }
        ensures levels { self.new.levels ≡ self.old.levels }
        ensures unchanged { OnErr result (self.new ≡ self.old) }
    {
        self.flight.lose(place)
    }

    /// Puts a copy of the message at a place in flight last. Refused with [`FlightError::NoSuchPlace`] exactly where
    /// there is none, [`FlightError::Memory`] where memory runs out. Where it is refused, the lane stays as it was.
    pub fn repeat(&mut self, place: usize) -> Result<(), FlightError>
        ensures repeated { OnOk result (after_repeat place self.old.flight ≡ Some self.new.flight) }
        ensures refused { IfErr result (λ e.
            e ≢ error.Memory → after_repeat place self.old.flight ≡ None) }
        ensures no_place { after_repeat place self.old.flight ≡ None
            → result ≡ Err error.NoSuchPlace }
        ensures levels { self.new.levels ≡ self.old.levels }
        ensures unchanged { OnErr result (self.new ≡ self.old) }
    {
        self.flight.repeat(place)
    }

    /// Takes the message at one place in flight out and puts it back so that it stands at another. Refused exactly
    /// where one of the two is not a place, and then the lane stays as it was. Takes no memory.
    pub fn move_to(&mut self, from: usize, to: usize) -> Result<(), NoSuchPlace>
        ensures moved { MatchResult result
            (λ _. after_move from to self.old.flight ≡ Some self.new.flight)
            (λ _. after_move from to self.old.flight ≡ None) }
        ensures levels { self.new.levels ≡ self.old.levels }
        ensures unchanged { OnErr result (self.new ≡ self.old) }
    {
        self.flight.move_to(from, to)
    }

    /// Gives all messages in flight, in order of place; then none is. Takes no memory.
    pub fn take(&mut self) -> Vec<Message>
        ensures given { result.items ≡ self.old.flight }
        ensures empty { self.new ≡ without_flight self.old }
    {
        self.flight.take()
    }
}
