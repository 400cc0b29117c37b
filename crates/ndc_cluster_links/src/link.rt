ghost use Rattle.std.specs.Prelude.{◌≡◌, ◌≤◌, ℕ, [], None, List, length, map, sum, IsTrue, IfOk, OnOk};
ghost use Rattle.std.specs.List.{AllByRecursion};
ghost use Rattle.ndc_model_cells.specs.Jobs.{cell_for};
ghost use Rattle.ndc_model_cells.specs.declared.message.Message.{Message as Sent};
ghost use Rattle.ndc_cluster_links.specs.Links.{done_of, flights_of};
ghost use Rattle.ndc_cluster_links.specs.Rest.{AreRests, AreWithin};
ghost use Rattle.ndc_model.specs.Moves.{map_from, without_flight};
ghost use Rattle.ndc_model.specs.Queues.{after_pull, after_renewal, after_rewind, put_in_flight};
ghost use Rattle.ndc_model.specs.World.{newly_naming};

use crate::addressed::is_named;
use crate::lane::Lane;
use crate::queues::Queues;
use ndc_cluster::Cell;
use ndc_domain::{ClusterNo, DomainRecord, DomainTable};
use ndc_event::{Name, OutOfMemory};
use ndc_queue::{FlightError, Message, NoSuchPlace, Queue};
use std::alloc::Global;
use std::marker::Model;

/// What a reader has of a source: a lane for each shard, and the domains of which it came to be a member late.
#[derive(Drop)]
pub struct Link {
    reader: ClusterNo,
    source: ClusterNo,
    lanes: Vec<Lane>,
    late: Vec<Name>,
    /// How many entries are done, over all lanes.
    done: u64,
    /// Whether it is known that nothing is in flight, in any lane.
    quiet: bool,
}

impl Model for Link {
    ghost use Rattle.ndc_model.specs.World.{Link as LinkValue};

    ghost Value = { LinkValue };

    ghost view = { λ link. record {
      reader = link.reader;
      source = link.source;
      lanes = link.lanes.items;
      late = link.late.items;
    } };

    ghost use Rattle.ndc_cluster_links.specs.LinkFields.{IsLinkInside};

    ghost invariant = { IsLinkInside };
}

/// Pulls all entries for each shard, and counts what is put in flight. A queue that was read up to its end is passed by.
fn pull_lanes(
    lanes: &mut Vec<Lane>,
    table: &DomainTable,
    reader: ClusterNo,
    queues: &[Queue],
) -> Result<u64, OutOfMemory>
    requires alike { length queues.now ≡ length lanes.old.items }
    requires few { length lanes.old.items ≤ 64 }
    requires within { AreWithin queues.now lanes.old.items }
    ensures pulled { OnOk result ((whole : ℕ → List Sent) → AreRests queues.now whole
        → lanes.new.items ≡ map_from (λ shard lane.
        after_pull reader table.now None (whole shard) lane) 0 lanes.old.items) }
    ensures count { IfOk result (λ sent. (whole : ℕ → List Sent) → AreRests queues.now whole
        → sent ≡ sum (map_from (λ shard lane.
        length (put_in_flight reader table.now None (whole shard) lane)) 0 lanes.old.items)) }
    ensures shards { length lanes.new.items ≡ length lanes.old.items }
    ensures done { done_of lanes.new.items ≡ done_of lanes.old.items }
{
    let mut count = 0;
    for shard in 0..lanes.len() {
        let queue = &queues[shard];
        let lane = &mut lanes[shard];
        if lane.has_read(queue) {
            continue;
        }
        count += lane.pull(table, reader, None, queue)?;
    }
    Ok(count)
}

/// Renews the levels for each shard, and answers how many entries are done then, over all of them.
fn renew_lanes<C: Cell>(
    lanes: &mut Vec<Lane>,
    table: &DomainTable,
    reader: ClusterNo,
    cells: &[C],
    queues: &[Queue],
) -> u64
    requires few { length lanes.old.items ≤ 64 }
    requires cells { length cells.now ≡ length lanes.old.items }
    requires alike { length queues.now ≡ length lanes.old.items }
    requires within { AreWithin queues.now lanes.old.items }
    ensures renewed { (whole : ℕ → List Sent) → AreRests queues.now whole
        → lanes.new.items ≡ map_from (λ shard lane.
        after_renewal reader table.now (cell_for shard (map C.cell cells.now))
        (whole shard) lane) 0 lanes.old.items }
    ensures shards { length lanes.new.items ≡ length lanes.old.items }
    ensures flights { flights_of lanes.new.items ≡ flights_of lanes.old.items }
    ensures done { result ≡ done_of lanes.new.items }
{
    let mut done = 0;
    for shard in 0..lanes.len() {
        let queue = &queues[shard];
        let lane = &mut lanes[shard];
        if lane.is_done(queue) {
            done += queue.len();
            continue;
        }
        done += lane.renew(table, reader, &cells[shard], queue);
    }
    done
}

/// Rewinds for each shard.
fn rewind_lanes(lanes: &mut Vec<Lane>)
    ensures { lanes.new.items ≡ map after_rewind lanes.old.items }
{
    for lane in lanes.iter_mut() {
        lane.rewind();
    }
}

/// Takes out what is in flight for each shard.
fn empty_lanes(lanes: &mut Vec<Lane>)
    ensures { lanes.new.items ≡ map without_flight lanes.old.items }
{
    for lane in lanes.iter_mut() {
        let _messages = lane.take();
    }
}

/// The domains whose record did not name a reader before and comes to name it, in order of name.
fn newly_naming(
    alloc: Global,
    reader: ClusterNo,
    before: &[DomainRecord],
    after: &DomainTable,
) -> Result<Vec<Name>, OutOfMemory>
    ensures { IfOk result (λ names. names.items ≡ newly_naming reader before.now after.now) }
{
    let mut names = Vec::new(alloc);
    for record in before {
        if !record.members.has(reader) && is_named(after, &record.name, reader) {
            names.push(record.name.try_copy()?)?;
        }
    }
    Ok(names)
}

/// Whether nothing is in flight in any of the lanes.
fn are_quiet(lanes: &[Lane]) -> bool
    ensures { IsTrue result → AllByRecursion (λ flight. flight ≡ []) (flights_of lanes.now) }
{
    for lane in lanes {
        if !lane.flight().is_empty() {
            return false;
        }
    }
    true
}

impl Link {
    ghost use Rattle.std.specs.List.{filter};
    ghost use Rattle.std.specs.Prelude.{◌≡◌, ◌≢◌, ◌<◌, ◌≤◌, ◌++◌, ◌∷◌, ℕ, [], List, None, Some, Err, drop, length, map, replicate, slice_get, slice_set, sum, IsTrue, MatchResult, IfOk, IfErr, OnOk, OnErr};
    ghost use Rattle.std.specs.Option.{option_copied};
    ghost use Rattle.ndc_model_cells.specs.Jobs.{cell_for};
    ghost use Rattle.ndc_model_cells.specs.declared.message.Message.{Message as Sent};
    ghost use Rattle.ndc_cluster_links.specs.Links.{flight_in, with_flight_in, with_lane_in};
    ghost use Rattle.ndc_cluster_links.specs.Rest.{AreDoneBut, AreRests, AreWithin, IsRestOf, IsWithin, queue_at};
    ghost use Rattle.ndc_queue.specs.Queues.{queue_len};
    ghost use Rattle.ndc_model.specs.Moves.{link_without_flights, map_from};
    ghost use Rattle.ndc_model.specs.Queues.{after_pull, after_renewal, after_rewind, is_addressed, new_lane, put_in_flight};
    ghost use Rattle.ndc_model.specs.World.{is_link, lane_in, newly_naming};
    ghost use Rattle.ndc_queue.specs.Lists.{after_loss, after_move, after_repeat};
    ghost use Rattle.ndc_queue.specs.declared.flight.FlightError.TheVariants as error;

    /// What a reader has of a source in the beginning, for so many shards, at most 64.
    pub fn new(
        alloc: Global,
        reader: ClusterNo,
        source: ClusterNo,
        shards: u32,
    ) -> Result<Link, OutOfMemory>
        requires { shards ≤ 64 }
        ensures { IfOk result (λ link.
            link ≡ record {
              reader = reader;
              source = source;
              lanes = replicate shards new_lane;
              late = [];
            }) }
    {
        let mut lanes = Vec::new(alloc);
        while lanes.len() < shards as usize {
            lanes.push(Lane::new(alloc))?;
        }
        Ok(Link {
            reader,
            source,
            lanes,
            late: Vec::new(alloc),
            done: 0,
            quiet: true,
        })
    }

    /// Whether it is what this reader has of this source.
    pub fn is(&self, reader: ClusterNo, source: ClusterNo) -> bool
        ensures { result ≡ is_link reader source self.now }
    {
        self.reader.number == reader.number && self.source.number == source.number
    }

    /// The reader.
    pub fn reader(&self) -> ClusterNo
        ensures { result ≡ self.now.reader }
    {
        self.reader
    }

    /// The source.
    pub fn source(&self) -> ClusterNo
        ensures { result ≡ self.now.source }
    {
        self.source
    }

    /// The lanes, by shard. Takes no memory.
    pub fn lanes(&self) -> &[Lane]
        ensures lanes { result.now ≡ self.now.lanes }
        ensures few { length self.now.lanes ≤ 64 }
    {
        self.lanes.as_slice()
    }

    /// Whether all entries of the queues of its source are done, so that nothing is due. What is kept of each queue reaches
    /// from the lane's `done` or before it to its end. Takes no memory. `true` is sure. `false` promises nothing: two numbers
    /// are compared, no lane is looked at, and `is_done_for` tells of one shard.
    pub fn is_done(&self, queues: &Queues) -> bool
        requires alike { length queues.now ≡ length self.now.lanes }
        requires within { AreWithin queues.now self.now.lanes }
        ensures { IsTrue result → (shard : ℕ) → shard < length self.now.lanes
            → (lane_in self.now shard).levels.done ≡ queue_len (queue_at queues.now shard) }
    {
        let written = queues.written();
        if self.done == written {
            return true;
        }
        false
    }

    /// Whether all entries of the queue of a shard are done, so that nothing is due for it. Takes no memory.
    pub fn is_done_for(&self, shard: usize, queue: &Queue) -> bool
        requires { shard < length self.now.lanes }
        ensures { IsTrue result → (lane_in self.now shard).levels.done ≡ queue_len queue.now }
    {
        let lane = &self.lanes[shard];
        lane.levels().done == queue.len()
    }

    /// Whether nothing is in flight for a shard. Takes no memory.
    pub fn is_quiet_for(&self, shard: usize) -> bool
        requires { shard < length self.now.lanes }
        ensures { IsTrue result → flight_in shard self.now ≡ [] }
    {
        let lane = &self.lanes[shard];
        lane.flight().is_empty()
    }

    /// Whether it is known that nothing is in flight, for any shard. Takes no memory. `true` is sure. `false` promises nothing:
    /// no lane is looked at (`look` does that), and `is_quiet_for` tells of one shard.
    pub fn is_quiet(&self) -> bool
        ensures { IsTrue result → link_without_flights self.now ≡ self.now }
    {
        self.quiet
    }

    /// The domains of which the reader came to be a member late, in the order in which it did. Takes no memory.
    pub fn late(&self) -> &[Name]
        ensures { result.now ≡ self.now.late }
    {
        self.late.as_slice()
    }

    /// Takes all entries of each shard's queue from `read` on; those that are addressed to the reader go last in flight,
    /// and are counted. There is a queue for each shard, and what is kept of it reaches from the lane's `done` or before
    /// it to its end. After want of memory some shards were pulled.
    pub fn pull(&mut self, table: &DomainTable, queues: &Queues) -> Result<u64, OutOfMemory>
        requires alike { length queues.now ≡ length self.old.lanes }
        requires within { AreWithin queues.now self.old.lanes }
        ensures pulled { OnOk result ((whole : ℕ → List Sent) → AreRests queues.now whole
            → self.new ≡ record self.old {
              lanes = map_from (λ shard lane.
                  after_pull self.old.reader table.now None (whole shard) lane) 0 self.old.lanes;
            }) }
        ensures count { IfOk result (λ sent. (whole : ℕ → List Sent) → AreRests queues.now whole
            → sent ≡ sum (map_from (λ shard lane.
            length (put_in_flight self.old.reader table.now None (whole shard) lane)) 0
            self.old.lanes)) }
    {
        let queues = queues.as_slice();
        self.quiet = false;
        let count = pull_lanes(&mut self.lanes, table, self.reader, queues)?;
        Ok(count)
    }

    /// The same for one shard, at most so many entries. Where memory runs out, the link stays as it was.
    pub fn pull_some(
        &mut self,
        table: &DomainTable,
        shard: usize,
        count: u64,
        queue: &Queue,
    ) -> Result<u64, OutOfMemory>
        requires shard { shard < length self.old.lanes }
        requires within { IsWithin queue.now (lane_in self.old shard) }
        ensures pulled { OnOk result ((whole : List Sent) → IsRestOf queue.now whole
            → self.new ≡ with_lane_in shard (after_pull self.old.reader table.now (Some count) whole
            (lane_in self.old shard)) self.old) }
        ensures count { IfOk result (λ sent. (whole : List Sent) → IsRestOf queue.now whole
            → sent ≡ length (put_in_flight self.old.reader table.now (Some count) whole
            (lane_in self.old shard))) }
        ensures unchanged { OnErr result (self.new ≡ self.old) }
    {
        let reader = self.reader;
        self.quiet = false;
        let lane = &mut self.lanes[shard];
        let sent = lane.pull(table, reader, Some(count), queue)?;
        Ok(sent)
    }

    /// Copies of the entries of a shard's queue from `done` on that are addressed to the reader, in order.
    pub fn due(
        &self,
        alloc: Global,
        table: &DomainTable,
        shard: usize,
        queue: &Queue,
    ) -> Result<Vec<Message>, OutOfMemory>
        requires shard { shard < length self.now.lanes }
        requires within { IsWithin queue.now (lane_in self.now shard) }
        ensures { IfOk result (λ list. (whole : List Sent) → IsRestOf queue.now whole
            → list.items ≡ filter (is_addressed self.now.reader table.now) (drop
            (lane_in self.now shard).levels.done whole)) }
    {
        let lane = &self.lanes[shard];
        let list = lane.due(alloc, table, self.reader, queue)?;
        Ok(list)
    }

    /// Renews the levels of each shard, by what the reader's cells have learned. There is a cell and a queue for each
    /// shard, and what is kept of the queue reaches from the lane's `done` or before it to its end. Where all entries are
    /// done, none is looked at. Takes no memory.
    pub fn renew<C: Cell>(&mut self, table: &DomainTable, cells: &[C], queues: &Queues)
        requires cells { length cells.now ≡ length self.old.lanes }
        requires alike { length queues.now ≡ length self.old.lanes }
        requires within { AreWithin queues.now self.old.lanes }
        ensures { (whole : ℕ → List Sent) → AreRests queues.now whole
            → self.new ≡ record self.old {
              lanes = map_from (λ shard lane.
                  after_renewal self.old.reader table.now (cell_for shard (map C.cell cells.now))
                  (whole shard) lane) 0 self.old.lanes;
            } }
    {
        if self.done == queues.written() {
            return;
        }
        let latest = queues.latest();
        if self.is_done_but(latest, queues) {
            self.renew_one(latest, table, cells, queues);
            return;
        }
        let queues = queues.as_slice();
        self.done = renew_lanes(&mut self.lanes, table, self.reader, cells, queues);
    }

    /// Whether all entries are done but some of the queue of one shard.
    fn is_done_but(&self, shard: usize, queues: &Queues) -> bool
        requires alike { length queues.now ≡ length self.now.lanes }
        requires within { AreWithin queues.now self.now.lanes }
        ensures shard { IsTrue result → shard < length self.now.lanes }
        ensures others { IsTrue result → AreDoneBut shard queues.now self.now.lanes }
    {
        if self.lanes.len() <= shard {
            return false;
        }
        let left = queues.as_slice()[shard].len() - self.lanes[shard].levels().done;
        queues.written() - self.done == left
    }

    /// Renews the levels of one shard, where all entries are done but some of its queue.
    fn renew_one<C: Cell>(
        &mut self,
        shard: usize,
        table: &DomainTable,
        cells: &[C],
        queues: &Queues,
    )
        requires shard { shard < length self.old.lanes }
        requires cells { length cells.now ≡ length self.old.lanes }
        requires alike { length queues.now ≡ length self.old.lanes }
        requires within { AreWithin queues.now self.old.lanes }
        requires others { AreDoneBut shard queues.now self.old.lanes }
        ensures { (whole : ℕ → List Sent) → AreRests queues.now whole
            → self.new ≡ record self.old {
              lanes = map_from (λ shard lane.
                  after_renewal self.old.reader table.now (cell_for shard (map C.cell cells.now))
                  (whole shard) lane) 0 self.old.lanes;
            } }
    {
        let queue = &queues.as_slice()[shard];
        let lane = &mut self.lanes[shard];
        let done = lane.renew(table, self.reader, &cells[shard], queue);
        self.done = queues.written() - (queue.len() - done);
    }

    /// What was read and is not done is to be read again, for every shard. Takes no memory.
    pub fn rewind(&mut self)
        ensures { self.new ≡ record self.old { lanes = map after_rewind self.old.lanes } }
    {
        rewind_lanes(&mut self.lanes);
    }

    /// Loses the message at a place in flight for a shard. Refused exactly where there is none, and then the link stays as
    /// it was. Takes no memory.
    pub fn lose(&mut self, shard: usize, place: usize) -> Result<(), NoSuchPlace>
        requires { shard < length self.old.lanes }
        ensures lost { MatchResult result
            (λ _. after_loss place (flight_in shard self.old) ≡ Some (flight_in shard self.new))
            (λ _. after_loss place (flight_in shard self.old) ≡ None) }
        ensures rest { self.new ≡ with_flight_in shard (flight_in shard self.new) self.old }
        ensures unchanged { OnErr result (self.new ≡ self.old) }
    {
        self.quiet = false;
        let lane = &mut self.lanes[shard];
        lane.lose(place)
    }

    /// Puts a copy of the message at a place in flight for a shard last. Refused with [`FlightError::NoSuchPlace`] exactly
    /// where there is none, [`FlightError::Memory`] where memory runs out. Where it is refused, the link stays as it was.
    pub fn repeat(&mut self, shard: usize, place: usize) -> Result<(), FlightError>
        requires { shard < length self.old.lanes }
        ensures repeated { OnOk result
            (after_repeat place (flight_in shard self.old) ≡ Some (flight_in shard self.new)) }
        ensures refused { IfErr result (λ e.
            e ≢ error.Memory → after_repeat place (flight_in shard self.old) ≡ None) }
        ensures no_place { after_repeat place (flight_in shard self.old) ≡ None
            → result ≡ Err error.NoSuchPlace }
        ensures rest { self.new ≡ with_flight_in shard (flight_in shard self.new) self.old }
        ensures unchanged { OnErr result (self.new ≡ self.old) }
    {
        self.quiet = false;
        let lane = &mut self.lanes[shard];
        lane.repeat(place)
    }

    /// Takes the message at one place in flight for a shard out and puts it back so that it stands at another. Refused
    /// exactly where one of the two is not a place, and then the link stays as it was. Takes no memory.
    pub fn move_to(&mut self, shard: usize, from: usize, to: usize) -> Result<(), NoSuchPlace>
        requires { shard < length self.old.lanes }
        ensures moved { MatchResult result
            (λ _. after_move from to (flight_in shard self.old) ≡ Some (flight_in shard self.new))
            (λ _. after_move from to (flight_in shard self.old) ≡ None) }
        ensures rest { self.new ≡ with_flight_in shard (flight_in shard self.new) self.old }
        ensures unchanged { OnErr result (self.new ≡ self.old) }
    {
        self.quiet = false;
        let lane = &mut self.lanes[shard];
        lane.move_to(from, to)
    }

    /// Gives all messages in flight for a shard, in order of place; then none is. Takes no memory.
    pub fn take_flight(&mut self, shard: usize) -> Vec<Message>
        requires { shard < length self.old.lanes }
        ensures given { result.items ≡ flight_in shard self.old }
        ensures empty { self.new ≡ with_flight_in shard [] self.old }
    {
        let lane = &mut self.lanes[shard];
        lane.take()
    }

    /// Looks whether anything is in flight, so that it is known where nothing is. Takes no memory.
    pub fn look(&mut self)
        ensures { self.new ≡ self.old }
    {
        if !self.quiet {
            self.quiet = are_quiet(self.lanes.as_slice());
        }
    }

    /// Nothing is in flight, for any shard. Takes no memory.
    pub fn empty(&mut self)
        ensures { self.new ≡ link_without_flights self.old }
    {
        if self.quiet {
            return;
        }
        empty_lanes(&mut self.lanes);
        self.quiet = true;
    }

    /// Domains whose record did not name the reader and comes to name it go last among those of which it is a member
    /// late, in order of name. Where memory runs out, the link stays as it was.
    pub fn note_late(
        &mut self,
        alloc: Global,
        before: &DomainTable,
        after: &DomainTable,
    ) -> Result<(), OutOfMemory>
        ensures noted { OnOk result
            (self.new ≡ record self.old {
              late = self.old.late ++ newly_naming self.old.reader before.now after.now;
            }) }
        ensures unchanged { OnErr result (self.new ≡ self.old) }
    {
        let mut names = newly_naming(alloc, self.reader, before.records(), after)?;
        self.late.append(&mut names)?;
        Ok(())
    }

    /// One domain more goes last among those of which the reader is a member late. Where memory runs out, the link stays as it
    /// was.
    pub fn add_late(&mut self, domain: Name) -> Result<(), OutOfMemory>
        ensures added { OnOk result
            (self.new ≡ record self.old { late = self.old.late ++ domain ∷ [] }) }
        ensures unchanged { OnErr result (self.new ≡ self.old) }
    {
        self.late.push(domain)?;
        Ok(())
    }

    /// The reader is a member late of no domain. Takes no memory.
    pub fn clear_late(&mut self)
        ensures { self.new ≡ record self.old { late = [] } }
    {
        self.late.clear();
    }
}
