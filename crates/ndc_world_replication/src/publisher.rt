ghost use Rattle.std.specs.Prelude.{◌≡◌, ◌<◌, [], ◌∷◌, length, map, IfSome, OnOk};
ghost use Rattle.std.specs.List.{AllByRecursion};
ghost use Rattle.ndc_cluster_links.specs.Rest.{AreFronts, AreRests};
ghost use Rattle.ndc_cluster.specs.Rounds.{AreFresh};
ghost use Rattle.ndc_model_cells.specs.Jobs.{cell_for};
ghost use Rattle.ndc_queue.specs.Queues.{QueueValue};
ghost use Rattle.ndc_world_replication.specs.Publishers.{AreRestsBut};

use ndc_cluster::{Cell, Cluster, Desk, Fresh, Home};
use ndc_cluster_links::Queues;
use ndc_domain::{
    ClusterNo, Clusters, DomainError, DomainTable, FailoverError, JoinError, Members, RetainError,
};
use ndc_event::{Name, OutOfMemory};
use ndc_graceful::{BeginError, Handover};
use ndc_letters::Letters;
use ndc_model_cells::{Job, JobReply, ShardJob};
use ndc_port::Gate;
use ndc_script_types::Header;
use std::alloc::Global;
use std::marker::Model;
use std::thread::Threads;
use std::{mem, slice};

/// A cluster in the world: with the queues of what its cells have written, by shard, and what it set aside.
pub struct Publisher<C: Cell + Drop> {
    cluster: Cluster<C>,
    queues: Queues,
    letters: Letters,
}

impl<C: Cell + Drop> Model for Publisher<C> {
    ghost use Rattle.std.specs.Prelude.{[], map};
    ghost use Rattle.ndc_queue.specs.Queues.{QueueValue};
    ghost use Rattle.ndc_world_replication.specs.Publishers.{AreTied, PublisherValue};

    ghost Value = { PublisherValue };

    ghost view = { λ publisher. record {
      cluster = record { table = publisher.cluster.table; cells = publisher.cluster.cells; letters = publisher.letters; reports = [] };
      trimmed = map (λ (queue : QueueValue). queue.first) publisher.queues;
    } };

    ghost invariant = { λ publisher. AreTied publisher.cluster.cells publisher.queues };
}

impl<C: Cell + Drop> Drop for Publisher<C> {
    fn drop(self) {
        let Publisher {
            cluster: _cluster,
            queues: _queues,
            letters: _letters,
        } = self;
    }
}

/// Where the cells of a cluster of a header stand.
pub(crate) fn home_in(header: &Header, cluster: ClusterNo) -> Home<'_>
    ensures { result ≡ record { clusters = header.now.clusters; me = cluster; limit = header.now.limit } }
{
    Home {
        clusters: &header.clusters,
        me: cluster,
        limit: header.limit,
    }
}

/// Puts what the cells of the shards of jobs have written into the queues of these shards. Where memory runs out, some of it
/// is there.
fn extend_asked<C: Cell>(
    queues: &mut Queues,
    cells: &[C],
    jobs: &[ShardJob],
) -> Result<(), OutOfMemory>
    requires alike { length cells.now ≡ length queues.old }
    requires shards { AllByRecursion (λ asked. asked.shard < length queues.old) jobs.now }
    requires fronts { AreFronts queues.old (λ shard. (cell_for shard (map C.cell cells.now)).written) }
    requires others { AreRestsBut jobs.now queues.old (λ shard. (cell_for shard (map C.cell cells.now)).written) }
    ensures rests { OnOk result (AreRests queues.new (λ shard. (cell_for shard (map C.cell cells.now)).written)) }
    ensures first { OnOk result (map (λ (queue : QueueValue). queue.first) queues.new ≡ map (λ (queue : QueueValue). queue.first) queues.old) }
{
    for asked in jobs {
        let shard = asked.shard as usize;
        queues.extend(shard, &cells[shard], None)?;
    }
    Ok(())
}

/// The same of the cells of all shards, where for each cell what it has written from some place on is at hand.
fn extend_all<C: Cell>(
    queues: &mut Queues,
    cells: &[C],
    fresh: Vec<Fresh>,
) -> Result<(), OutOfMemory>
    requires alike { length cells.now ≡ length queues.old }
    requires fresh { AreFresh fresh.items (map C.cell cells.now) }
    requires fronts { AreFronts queues.old (λ shard. (cell_for shard (map C.cell cells.now)).written) }
    ensures rests { OnOk result (AreRests queues.new (λ shard. (cell_for shard (map C.cell cells.now)).written)) }
    ensures first { OnOk result (map (λ (queue : QueueValue). queue.first) queues.new ≡ map (λ (queue : QueueValue). queue.first) queues.old) }
{
    // There are at most 64 of them, so that they can be counted.
    let _few = queues.len();
    let mut shard = 0;
    for one in fresh {
        queues.extend(shard, &cells[shard], Some(one))?;
        shard += 1;
    }
    Ok(())
}

/// Puts what cells have written in a round into their queues: that which is at hand, or what the cells of the shards of jobs
/// have written. Where memory runs out, some of it is there.
fn extend_queues<C: Cell>(
    queues: &mut Queues,
    cells: &[C],
    jobs: &[ShardJob],
    fresh: Option<Vec<Fresh>>,
) -> Result<(), OutOfMemory>
    requires alike { length cells.now ≡ length queues.old }
    requires shards { AllByRecursion (λ asked. asked.shard < length queues.old) jobs.now }
    requires fronts { AreFronts queues.old (λ shard. (cell_for shard (map C.cell cells.now)).written) }
    requires others { AreRestsBut jobs.now queues.old (λ shard. (cell_for shard (map C.cell cells.now)).written) }
    requires fresh { IfSome fresh (λ fresh. AreFresh fresh.items (map C.cell cells.now)) }
    ensures rests { OnOk result (AreRests queues.new (λ shard. (cell_for shard (map C.cell cells.now)).written)) }
    ensures first { OnOk result (map (λ (queue : QueueValue). queue.first) queues.new ≡ map (λ (queue : QueueValue). queue.first) queues.old) }
{
    match fresh {
        Some(fresh) => extend_all(queues, cells, fresh),
        None => extend_asked(queues, cells, jobs),
    }
}

/// The only one of these replies.
fn only(replies: Vec<JobReply>) -> JobReply
    requires { length replies.items ≡ 1 }
    ensures { result ∷ [] ≡ replies.items }
{
    let mut left = replies;
    let Some(reply) = left.pop() else {
        unreachable!()
    };
    reply
}

impl<C: Cell + Drop> Publisher<C> {
    ghost use Rattle.std.specs.Prelude.{[], ◌∷◌, ◌≡◌, ◌<◌, ◌≤◌, ◌-◌, ◌^◌, All, length, map, max, slice_index_or, slice_set, IfOk, IfSome, OnOk, OnErr};
    ghost use Rattle.std.specs.List.{AllByRecursion};
    ghost use Rattle.ndc_cluster.specs.Homes.{desk_of};
    ghost use Rattle.ndc_model_cells.specs.Jobs.{cell_for, cells_after, replies_to};
    ghost use Rattle.ndc_cluster_links.specs.Rest.{AreRests};
    ghost use Rattle.ndc_queue.specs.Queues.{QueueValue};
    ghost use Rattle.ndc_model_cells.specs.Conditions.{AreAllowed};
    ghost use Rattle.ndc_world_replication.specs.Chosen.{AreChosen};
    ghost use Rattle.ndc_world_replication.specs.Replications.{opening_publisher};
    ghost use Rattle.ndc_world_replication.specs.Publishers.{cluster_alone, with_publisher_cells, with_publisher_table};
    ghost use Rattle.ndc_domain.specs.Clusters.{count_of};
    ghost use Rattle.ndc_domain.specs.Outcome.{Answers};
    ghost use Rattle.ndc_domain.specs.Records.{IsTable, failover_of, join_of, record_of, register_of, retain_of};
    ghost use Rattle.ndc_domain.specs.declared.record.DomainError.TheVariants as register_error;
    ghost use Rattle.ndc_event.specs.Outcome.{Gives};
    ghost use Rattle.ndc_graceful.specs.Begin.{begin_of};
    ghost use Rattle.ndc_graceful.specs.declared.handover.BeginError.TheVariants as begin_error;

    /// A cluster in the beginning, of so many cells, at most 64, in which nothing has happened.
    pub fn new(alloc: Global, home: &Home, shards: u32) -> Result<Publisher<C>, OutOfMemory>
        requires { shards ≤ 64 }
        ensures { IfOk result (λ publisher. publisher ≡ opening_publisher shards) }
    {
        let cluster = Cluster::new(alloc, home, shards)?;
        let queues = Queues::new(alloc, shards)?;
        Ok(Publisher {
            cluster,
            queues,
            letters: Letters::new(alloc),
        })
    }

    /// The cluster alone: its domain records and its cells. Takes no memory.
    pub fn cluster(&self) -> &Cluster<C>
        ensures { result.now ≡ cluster_alone self.now.cluster }
    {
        &self.cluster
    }

    /// Its domain records. Takes no memory.
    pub fn table(&self) -> &DomainTable
        ensures { result.now ≡ self.now.cluster.table }
    {
        self.cluster.records()
    }

    /// Puts other domain records in the place of its own, which are given back. Takes no memory.
    pub(crate) fn replace_table(&mut self, table: DomainTable) -> DomainTable
        ensures given { result ≡ self.old.cluster.table }
        ensures replaced { self.new ≡ with_publisher_table table self.old }
    {
        mem::replace(self.cluster.table(), table)
    }

    /// Registers a domain, as [`DomainTable::register`] does.
    pub(crate) fn register(
        &mut self,
        clusters: &Clusters,
        at: ClusterNo,
        domain: &Name,
        target: ClusterNo,
        days: u32,
        members: Members,
    ) -> Result<u64, DomainError>
        requires { All (λ member. member < count_of clusters.now) members }
        ensures answer { Gives register_error.Memory (λ version. (version, self.new.cluster.table)) result (register_of clusters.now at domain.now target days members self.old.cluster.table) }
        ensures rest { self.new ≡ with_publisher_table self.new.cluster.table self.old }
        ensures unchanged { OnErr result (self.new ≡ self.old) }
        ensures ordered { IsTable self.old.cluster.table }
    {
        let _ordered = self.table().records();
        let table = self.cluster.table();
        table.register(clusters, at, domain, target, days, members)
    }

    /// Replaces the days of a domain, as [`DomainTable::retain`] does. Takes no memory.
    pub(crate) fn retain(
        &mut self,
        at: ClusterNo,
        domain: &Name,
        days: u32,
    ) -> Result<u64, RetainError>
        requires { IfSome (record_of self.old.cluster.table domain.now) (λ old. old.config < 10 ^ 12) }
        ensures answer { Answers (λ config. (config, self.new.cluster.table)) result (retain_of at domain.now days self.old.cluster.table) }
        ensures rest { self.new ≡ with_publisher_table self.new.cluster.table self.old }
        ensures unchanged { OnErr result (self.new ≡ self.old) }
        ensures ordered { IsTable self.old.cluster.table }
    {
        let _ordered = self.table().records();
        let table = self.cluster.table();
        table.retain(at, domain, days)
    }

    /// Fails a domain over to the target, as [`DomainTable::failover`] does. Takes no memory.
    pub(crate) fn fail_over(
        &mut self,
        clusters: &Clusters,
        domain: &Name,
        target: ClusterNo,
    ) -> Result<u64, FailoverError>
        ensures answer { Answers (λ version. (version, self.new.cluster.table)) result (failover_of clusters.now domain.now target self.old.cluster.table) }
        ensures rest { self.new ≡ with_publisher_table self.new.cluster.table self.old }
        ensures unchanged { OnErr result (self.new ≡ self.old) }
        ensures ordered { IsTable self.old.cluster.table }
    {
        let _ordered = self.table().records();
        let table = self.cluster.table();
        table.failover(clusters, domain, target)
    }

    /// Begins a handover of a domain, as [`Handover::begin`] does.
    pub(crate) fn begin_handover(
        &mut self,
        clusters: &Clusters,
        at: ClusterNo,
        domain: &Name,
        target: ClusterNo,
        places: Vec<u64>,
    ) -> Result<Handover, BeginError>
        ensures answer { Gives begin_error.Memory (λ handover. (handover, self.new.cluster.table)) result (begin_of clusters.now at domain.now target places.items self.old.cluster.table) }
        ensures rest { self.new ≡ with_publisher_table self.new.cluster.table self.old }
        ensures unchanged { OnErr result (self.new ≡ self.old) }
        ensures ordered { IsTable self.old.cluster.table }
    {
        let _ordered = self.table().records();
        let table = self.cluster.table();
        Handover::begin(table, clusters, at, domain, target, places)
    }

    /// Adds one member to a domain, as [`DomainTable::join`] does. Takes no memory.
    pub(crate) fn join(
        &mut self,
        at: ClusterNo,
        domain: &Name,
        member: ClusterNo,
    ) -> Result<(), JoinError>
        requires { member.number < 8 }
        ensures answer { Answers (λ _. self.new.cluster.table) result (join_of at domain.now member self.old.cluster.table) }
        ensures rest { self.new ≡ with_publisher_table self.new.cluster.table self.old }
        ensures unchanged { OnErr result (self.new ≡ self.old) }
        ensures ordered { IsTable self.old.cluster.table }
    {
        let _ordered = self.table().records();
        let table = self.cluster.table();
        table.join(at, domain, member)
    }

    /// Its cells, by shard. Takes no memory.
    pub fn cells(&self) -> &[C]
        ensures { map C.cell result.now ≡ self.now.cluster.cells }
    {
        self.cluster.cells()
    }

    /// The queues of what its cells have written, by shard, as far as they are kept. Takes no memory.
    pub fn queues(&self) -> &Queues
        ensures alike { length result.now ≡ length self.now.cluster.cells }
        ensures rests { AreRests result.now (λ shard. (cell_for shard self.now.cluster.cells).written) }
        ensures trimmed { map (λ (queue : QueueValue). queue.first) result.now ≡ self.now.trimmed }
    {
        &self.queues
    }

    /// The letters that were set aside. Takes no memory.
    pub fn letters(&self) -> &Letters
        ensures { result.now ≡ self.now.cluster.letters }
    {
        &self.letters
    }

    /// Puts other letters in the place of its own, which are given back. Takes no memory.
    pub fn replace_letters(&mut self, letters: Letters) -> Letters
        ensures given { result ≡ self.old.cluster.letters }
        ensures replaced { self.new ≡ record self.old { cluster = record self.old.cluster { letters = letters } } }
    {
        mem::replace(&mut self.letters, letters)
    }

    /// Drops all entries of a shard's queue below a level, which is not above its length, and counts those that are
    /// dropped now. Takes no memory.
    pub fn trim(&mut self, shard: usize, level: u64) -> u64
        requires shard { shard < length self.old.cluster.cells }
        requires level { level ≤ length (cell_for shard self.old.cluster.cells).written }
        ensures trimmed { self.new ≡ record self.old { trimmed = slice_set self.old.trimmed shard (max (slice_index_or self.old.trimmed shard 0) level) } }
        ensures count { result ≡ max (slice_index_or self.old.trimmed shard 0) level - slice_index_or self.old.trimmed shard 0 }
    {
        self.queues.trim(shard, level)
    }

    /// A job for each of its shards to apply its strays again, but for those whose cells are idle.
    pub(crate) fn reapply_jobs(
        &self,
        alloc: Global,
        home: &Home,
        shards: u32,
    ) -> Result<Vec<ShardJob>, OutOfMemory>
        requires { length self.now.cluster.cells ≡ shards }
        ensures { IfOk result (λ jobs. AreChosen (desk_of home.now self.now.cluster.table) self.now.cluster.cells shards 0 jobs.items) }
    {
        let desk = Desk::new(home.clusters, home.me, home.limit, self.cluster.records());
        let mut jobs = Vec::new(alloc);
        for shard in 0..shards {
            if self.cluster.shard(shard).is_idle(&desk) {
                continue;
            }
            let job = Job::Reapply;
            jobs.push(ShardJob { shard, job })?;
        }
        Ok(jobs)
    }

    /// Its cells do jobs in a round, as [`Cluster::round`] says, and what was written stands in the queues. After want of
    /// memory it has neither records nor cells.
    pub fn round<R: Threads + Sync, G: Gate>(
        &mut self,
        rt: &R,
        alloc: Global,
        gate: &G,
        workers: u32,
        home: &Home,
        jobs: &[ShardJob],
    ) -> Result<Vec<JobReply>, OutOfMemory>
    where
        C: Send,
        requires workers { 0 < workers }
        requires shards { AllByRecursion (λ asked. asked.shard < length self.old.cluster.cells) jobs.now }
        requires allowed { AreAllowed C.allows (desk_of home.now self.old.cluster.table) jobs.now self.old.cluster.cells }
        ensures cells { OnOk result (self.new ≡ with_publisher_cells (cells_after (desk_of home.now self.old.cluster.table) jobs.now self.old.cluster.cells) self.old) }
        ensures replies { IfOk result (λ replies. replies.items ≡ replies_to (desk_of home.now self.old.cluster.table) jobs.now self.old.cluster.cells) }
    {
        let no_cluster = Cluster::new(alloc, home, 0)?;
        let no_queues = Queues::new(alloc, 0)?;
        let mut cluster = mem::replace(&mut self.cluster, no_cluster);
        let mut queues = mem::replace(&mut self.queues, no_queues);
        let replies = cluster.round(rt, alloc, gate, workers, home, jobs)?;
        let fresh = cluster.take_fresh();
        extend_queues(&mut queues, cluster.cells(), jobs, fresh)?;
        self.cluster = cluster;
        self.queues = queues;
        Ok(replies)
    }

    /// The cell of its shard does one job in a round, as [`Cluster::round`] says; without lists where one worker does it or
    /// the gate holds nobody. What was written stands in the queues. After want of memory it has neither records nor cells.
    pub fn do_one<R: Threads + Sync, G: Gate>(
        &mut self,
        rt: &R,
        alloc: Global,
        gate: &G,
        workers: u32,
        home: &Home,
        asked: &ShardJob,
    ) -> Result<JobReply, OutOfMemory>
    where
        C: Send,
        requires workers { 0 < workers }
        requires shard { asked.now.shard < length self.old.cluster.cells }
        requires allowed { C.allows (desk_of home.now self.old.cluster.table) asked.now.job (cell_for asked.now.shard self.old.cluster.cells) }
        ensures cells { OnOk result (self.new ≡ with_publisher_cells (cells_after (desk_of home.now self.old.cluster.table) (asked.now ∷ []) self.old.cluster.cells) self.old) }
        ensures reply { IfOk result (λ reply. reply ∷ [] ≡ replies_to (desk_of home.now self.old.cluster.table) (asked.now ∷ []) self.old.cluster.cells) }
    {
        if 1 < workers && !gate.is_open() {
            let replies = self.round(rt, alloc, gate, workers, home, slice::from_ref(asked))?;
            return Ok(only(replies));
        }
        gate.enter(0);
        let reply = self.do_alone(alloc, home, asked)?;
        Ok(reply)
    }

    /// The same, without a gate.
    fn do_alone(
        &mut self,
        alloc: Global,
        home: &Home,
        asked: &ShardJob,
    ) -> Result<JobReply, OutOfMemory>
        requires shard { asked.now.shard < length self.old.cluster.cells }
        requires allowed { C.allows (desk_of home.now self.old.cluster.table) asked.now.job (cell_for asked.now.shard self.old.cluster.cells) }
        ensures cells { OnOk result (self.new ≡ with_publisher_cells (cells_after (desk_of home.now self.old.cluster.table) (asked.now ∷ []) self.old.cluster.cells) self.old) }
        ensures reply { IfOk result (λ reply. reply ∷ [] ≡ replies_to (desk_of home.now self.old.cluster.table) (asked.now ∷ []) self.old.cluster.cells) }
    {
        let no_cluster = Cluster::new(alloc, home, 0)?;
        let no_queues = Queues::none(alloc);
        let mut cluster = mem::replace(&mut self.cluster, no_cluster);
        let mut queues = mem::replace(&mut self.queues, no_queues);
        let reply = cluster.do_one(alloc, home, asked)?;
        extend_asked(&mut queues, cluster.cells(), slice::from_ref(asked))?;
        self.cluster = cluster;
        self.queues = queues;
        Ok(reply)
    }
}
