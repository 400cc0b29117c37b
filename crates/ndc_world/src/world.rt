ghost use Rattle.std.specs.Prelude.{◌≡◌, ◌<◌, length};
ghost use Rattle.ndc_cluster_links.specs.Rest.{IsRestOf};
ghost use Rattle.ndc_model.specs.World.{cluster_at, queue_at, trimmed_at};

use crate::answer::Answer;
use crate::reporting::no_reports;
use crate::running::{line_count, run_line};
use crate::settled::Settled;
use crate::summary::Summary;
use ndc_cluster::Cluster;
use ndc_cluster_reads::Reads;
use ndc_domain::ClusterNo;
use ndc_event::{Name, OutOfMemory};
use ndc_letters::Letter;
use ndc_model_cells::Message;
use ndc_port::Gate;
use ndc_progress::Reports;
use ndc_queue::{Levels, Queue};
use ndc_script_types::{Header, Line};
use ndc_world_queries::totals;
use ndc_world_replication::Replication;
use ndc_world_replication::publishers::{cluster_of, flight_of, levels_of, link_of, publisher_of};
use ndc_world_steps::moving::{Telling, settlement};
use std::alloc::Global;
use std::marker::Model;
use std::thread::Threads;

/// How many lines a world runs at most.
const MOST_LINES: u64 = 100_000;

/// The queue of a source for a shard, as far as it is kept.
fn kept_queue<C: Reads + Drop>(
    replication: &Replication<C>,
    source: ClusterNo,
    shard: u32,
) -> &Queue
    requires source { source.number < length replication.now.clusters }
    requires shard { shard < length (cluster_at source replication.now).cells }
    ensures first { result.now.first ≡ trimmed_at source replication.now shard }
    ensures rest { IsRestOf result.now (queue_at source shard replication.now) }
{
    let publisher = publisher_of(replication, source);
    &publisher.queues().as_slice()[shard as usize]
}

/// The world of a script that runs: all clusters with the links between them, and the greatest progress report of each
/// activity that each cluster was told or took over. They represent the world that the lines lead to. It counts the
/// lines that were run, their answers and how many of these are refusals. After want of memory in a line or a
/// settlement it is spent: it still counts its lines, and all other calls but `has_room` ask for one that is not.
pub struct World<'a, C: Reads + Drop> {
    header: &'a Header,
    replication: Replication<C>,
    reports: Reports,
    lines: u64,
    answers: u64,
    refused: u64,
    spent: bool,
}

impl<'a, C: Reads + Drop> Model for World<'a, C> {
    ghost use Rattle.std.specs.Prelude.{◌≡◌, false};
    ghost use Rattle.ndc_world.specs.Standing.{IsUnspent, WorldValue};

    ghost Value = { WorldValue };

    ghost view = { λ world. record { spent = world.spent; header = world.header.now; lines = world.lines; answers = world.answers; refused = world.refused; world = world.replication; reports = world.reports } };

    ghost invariant = { λ world. world.spent ≡ false
        → IsUnspent (record { spent = world.spent; header = world.header.now; lines = world.lines; answers = world.answers; refused = world.refused; world = world.replication; reports = world.reports }) };
}

impl<'a, C: Reads + Drop> Drop for World<'a, C> {
    fn drop(self) {
        let World {
            header: _header,
            replication: _replication,
            reports: _reports,
            lines: _lines,
            answers: _answers,
            refused: _refused,
            spent: _spent,
        } = self;
    }
}

impl<'a, C: Reads + Drop> World<'a, C> {
    ghost use Rattle.std.specs.Prelude.{◌≡◌, ◌<◌, ◌+◌, ◌≤◌, ◌↔◌, false, length, true, IfOk, IsTrue, OnOk, OnErr};
    ghost use Rattle.ndc_script_types.specs.WellFormed.{IsCluster, IsWellFormedAct, IsWellFormedHeader};
    ghost use Rattle.ndc_domain.specs.Clusters.{cluster_no, count_of};
    ghost use Rattle.ndc_model.specs.Standing.{StandFor};
    ghost use Rattle.ndc_model.specs.Lines.{lines_of_act};
    ghost use Rattle.ndc_model.specs.World.{cluster_at, flight_at, lane_at, link_at, opening_world, queue_at, trimmed_at};
    ghost use Rattle.ndc_world.specs.Standing.{IsReachedWorld, IsSettledBy, IsSettledWorld, IsStepped, LeavesAllWhereRefused};
    ghost use Rattle.ndc_world.specs.Summary.{summary_of};
    ghost use Rattle.ndc_cluster_links.specs.Rest.{IsRestOf};
    ghost use Rattle.ndc_world_replication.specs.Publishers.{cluster_alone};

    /// The world of a header in the beginning: nothing is registered, written or sent.
    pub fn build(alloc: Global, header: &'a Header) -> Result<World<'a, C>, OutOfMemory>
        requires { IsWellFormedHeader header.now }
        ensures unspent { IfOk result (λ world. world.spent ≡ false) }
        ensures header { IfOk result (λ world. world.header ≡ header.now) }
        ensures lines { IfOk result (λ world. world.lines ≡ 0) }
        ensures answers { IfOk result (λ world. world.answers ≡ 0) }
        ensures refused { IfOk result (λ world. world.refused ≡ 0) }
        ensures stands { IfOk result (λ world. StandFor world.world world.reports (opening_world header.now)) }
    {
        let reports = no_reports(alloc, header)?;
        let replication = Replication::new(alloc, header)?;
        Ok(World {
            header,
            replication,
            reports,
            lines: 0,
            answers: 0,
            refused: 0,
            spent: false,
        })
    }

    /// It represents a world that its lines lead to: one that is as it should be after so many lines, in which what is
    /// promised of clusters holds. Takes no time.
    pub fn is_reached(&self)
        requires { self.now.spent ≡ false }
        ensures { IsReachedWorld self.now }
    {
        // What holds of it is known here: it is not spent.
        let _lines = self.lines;
    }

    /// How many lines were run: each line in a burst counts as one, and so does a settlement. Takes no memory.
    pub fn lines(&self) -> u64
        ensures { result ≡ self.now.lines }
    {
        self.lines
    }

    /// Whether it is spent: memory was wanting in a line or a settlement. Takes no memory.
    pub fn is_spent(&self) -> bool
        ensures { result ≡ self.now.spent }
    {
        self.spent
    }

    /// Whether it may still run a line: it runs at most 100,000, and each line in a burst counts as one. Takes no memory.
    pub fn has_room(&self, line: &Line) -> bool
        ensures { IsTrue result ↔ self.now.lines + length (lines_of_act line.now.number line.now.act) ≤ 100000 }
    {
        let count = line_count(&line.act);
        count <= MOST_LINES && self.lines <= MOST_LINES - count
    }

    /// The cluster at a place of the header, counted from 0: its domain records, and a cell for each shard. Takes no memory.
    pub fn cluster(&self, place: u32) -> &Cluster<C>
        requires unspent { self.now.spent ≡ false }
        requires place { place < count_of self.now.header.clusters }
        ensures cluster { result.now ≡ cluster_alone (cluster_at (cluster_no place) self.now.world) }
        ensures shards { length result.now.cells ≡ self.now.header.shards }
    {
        cluster_of(&self.replication, ClusterNo { number: place })
    }

    /// What is in flight from a source to a reader for a shard, in order of place. Takes no memory.
    pub fn flight(&self, reader: ClusterNo, source: ClusterNo, shard: u32) -> &[Message]
        requires { self.now.spent ≡ false }
        ensures { result.now ≡ flight_at reader source shard self.now.world }
    {
        flight_of(&self.replication, reader, source, shard)
    }

    /// How far a reader has read the queue of a source for a shard, and how far all of it is done. Takes no memory.
    pub fn levels(&self, reader: ClusterNo, source: ClusterNo, shard: u32) -> Levels
        requires { self.now.spent ≡ false }
        ensures { result ≡ (lane_at reader source shard self.now.world).levels }
    {
        levels_of(&self.replication, reader, source, shard)
    }

    /// The domains of which a reader came to be a member late, so that it lacks what a source had before, until it takes it
    /// over by a bootstrap or a settlement. Takes no memory.
    pub fn late(&self, reader: ClusterNo, source: ClusterNo) -> &[Name]
        requires { self.now.spent ≡ false }
        ensures { result.now ≡ (link_at reader source self.now.world).late }
    {
        match link_of(&self.replication, reader, source) {
            Some(link) => link.late(),
            None => &[],
        }
    }

    /// The queue of a source for a shard: all that its cell has written, of which the first entries may be trimmed. Takes no
    /// memory.
    pub fn queue(&self, source: ClusterNo, shard: u32) -> &Queue
        requires unspent { self.now.spent ≡ false }
        requires source { IsCluster self.now.header source }
        requires shard { shard < self.now.header.shards }
        ensures first { result.now.first ≡ trimmed_at source self.now.world shard }
        ensures rest { IsRestOf result.now (queue_at source shard self.now.world) }
    {
        kept_queue(&self.replication, source, shard)
    }

    /// The letters that a cluster has set aside, in the order in which they came. Takes no memory.
    pub fn letters(&self, cluster: ClusterNo) -> &[Letter]
        requires unspent { self.now.spent ≡ false }
        requires cluster { IsCluster self.now.header cluster }
        ensures { result.now ≡ (cluster_at cluster self.now.world).letters }
    {
        publisher_of(&self.replication, cluster).letters().list()
    }

    /// Runs a line of the text, on so many workers at most, through the gate. The lines in a burst run side by side. No
    /// more than 100,000 lines are run. After want of memory the world is spent.
    pub fn step<R: Threads + Sync, G: Gate>(
        &mut self,
        rt: &R,
        alloc: Global,
        gate: &G,
        workers: u32,
        line: &Line,
    ) -> Result<Answer, OutOfMemory>
    where
        C: Send,
        requires unspent { self.old.spent ≡ false }
        requires workers { 0 < workers }
        requires act { IsWellFormedAct self.old.header line.now.act }
        requires lines { self.old.lines + length (lines_of_act line.now.number line.now.act) ≤ 100000 }
        ensures reached { OnOk result (IsReachedWorld self.new) }
        ensures unchanged { OnOk result (LeavesAllWhereRefused self.old line.now self.new) }
        ensures steps { IfOk result (λ answer. IsStepped self.old line.now self.new answer.text answer.seen) }
        ensures spent { OnErr result (self.new.spent ≡ true) }
    {
        self.spent = true;
        let (answer, refused) = run_line(
            &mut self.replication,
            &mut self.reports,
            rt,
            alloc,
            gate,
            workers,
            self.header,
            self.lines,
            line,
        )?;
        let count = line_count(&line.act);
        self.lines += count;
        self.answers += count;
        self.refused += refused;
        self.spent = false;
        Ok(answer)
    }

    /// Settles all clusters, on so many workers at most, through the gate: all that was written arrives everywhere
    /// where it is due. It counts as one line. No more than 100,000 lines are run. After want of memory the world is
    /// spent.
    pub fn settle<R: Threads + Sync, G: Gate>(
        &mut self,
        rt: &R,
        alloc: Global,
        gate: &G,
        workers: u32,
    ) -> Result<Settled, OutOfMemory>
    where
        C: Send,
        requires unspent { self.old.spent ≡ false }
        requires workers { 0 < workers }
        requires lines { self.old.lines < 100000 }
        ensures reached { OnOk result (IsSettledWorld self.new) }
        ensures settled { IfOk result (λ settled. IsSettledBy self.old self.new settled.learned settled.reapplied settled.seen.items) }
        ensures spent { OnErr result (self.new.spent ≡ true) }
    {
        self.spent = true;
        let Telling { tally, seen } = settlement(
            &mut self.replication,
            rt,
            alloc,
            gate,
            workers,
            self.header,
        )?;
        self.lines += 1;
        self.spent = false;
        Ok(Settled {
            learned: tally.learned,
            reapplied: tally.applied,
            seen,
        })
    }

    /// What it comes to, in numbers. In time of all that was written and learned.
    pub fn summary(&self, alloc: Global) -> Result<Summary, OutOfMemory>
        requires { self.now.spent ≡ false }
        ensures { IfOk result (λ summary. summary ≡ summary_of self.now) }
    {
        let clusters = totals(alloc, self.header, &self.replication)?;
        Ok(Summary {
            answers: self.answers,
            refused: self.refused,
            batches: clusters.batches,
            workflows: clusters.workflows,
            branches: clusters.branches,
            same: clusters.same,
        })
    }
}
