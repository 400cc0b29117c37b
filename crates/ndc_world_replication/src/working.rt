ghost use Rattle.std.specs.Prelude.{◌≡◌, ◌<◌, [], ◌∷◌, ◌++◌, length, map, IfOk, OnOk};
ghost use Rattle.std.specs.List.{AllByRecursion};
ghost use Rattle.ndc_script_types.specs.WellFormed.{IsCluster};
ghost use Rattle.ndc_model_cells.specs.Jobs.{cell_for, cells_after, replies_to};
ghost use Rattle.ndc_model.specs.Fair.{IsShaped};
ghost use Rattle.ndc_model.specs.Moves.{all_reapply, flights_arrived, from_world, jobs_done, reapplied_all, without_flights_to, worked};
ghost use Rattle.ndc_model.specs.World.{cluster_at, home_at, with_cells};
ghost use Rattle.ndc_model.specs.Conditions.{MayDoAll, MayWork, flight_jobs};
ghost use Rattle.ndc_world_replication.specs.Chosen.{AreChosen};
ghost use Rattle.ndc_world_replication.specs.Dones.{notes_in};
ghost use Rattle.ndc_world_replication.specs.Orderly.{IsOrderly};
ghost use Rattle.ndc_model_cells.specs.Conditions.{AreAllowed};

use crate::publisher::home_in;
use crate::replication::Replication;
use crate::taking::take_all;
use ndc_cluster::Cell;
use ndc_domain::ClusterNo;
use ndc_event::OutOfMemory;
use ndc_model_cells::{JobReply, ShardJob};
use ndc_port::Gate;
use ndc_script_types::Header;
use std::alloc::Global;
use std::thread::Threads;

/// Jobs that a cluster has done, with the reply to each.
#[derive(Drop)]
pub struct Done {
    /// The cluster.
    pub cluster: ClusterNo,
    /// The jobs, in order.
    pub jobs: Vec<ShardJob>,
    /// The reply to each of them.
    pub replies: Vec<JobReply>,
    /// How many cells were to apply their strays again, by shard from 0: of these, the ones without a job here are idle and
    /// were passed by.
    pub reapplied: u32,
}

/// The jobs of a cluster that works: those in which messages arrived, and those in which strays were applied again.
#[derive(Drop)]
pub struct Worked {
    /// Jobs in which messages arrived.
    pub arrived: Done,
    /// Jobs in which strays were applied again.
    pub reapplied: Done,
}

impl<C: Cell + Drop> Replication<C> {
    /// The cells of a cluster do jobs side by side, on so many workers at most, through the gate; where there is no
    /// job, no worker enters it. The cells and the replies are those of the jobs done one after the other. The shard of
    /// each job is that of a cell, and each job may be done by the cell that the jobs before it leave. After want of
    /// memory the cluster has no cells.
    pub fn do_jobs<R: Threads + Sync, G: Gate>(
        &mut self,
        rt: &R,
        alloc: Global,
        gate: &G,
        workers: u32,
        header: &Header,
        cluster: ClusterNo,
        jobs: &[ShardJob],
    ) -> Result<Vec<JobReply>, OutOfMemory>
    where
        C: Send,
        requires workers { 0 < workers }
        requires cluster { cluster.number < length self.old.clusters }
        requires shards { AllByRecursion (λ asked. asked.shard < length (cluster_at cluster self.old).cells) jobs.now }
        requires allowed { AreAllowed C.allows (home_at header.now cluster self.old) jobs.now (cluster_at cluster self.old).cells }
        ensures done { OnOk result (self.new ≡ with_cells cluster (cells_after (home_at header.now cluster self.old) jobs.now (cluster_at cluster self.old).cells) self.old) }
        ensures replies { IfOk result (λ replies. replies.items ≡ replies_to (home_at header.now cluster self.old) jobs.now (cluster_at cluster self.old).cells) }
    {
        if jobs.is_empty() {
            return Ok(Vec::new(alloc));
        }
        let publisher = &mut self.publishers[cluster.number as usize];
        let home = home_in(header, cluster);
        publisher.round(rt, alloc, gate, workers, &home, jobs)
    }

    /// A cell of a cluster does one job, through the gate, as [`Replication::do_jobs`] says. After want of memory the
    /// cluster has no cells.
    pub fn do_one<R: Threads + Sync, G: Gate>(
        &mut self,
        rt: &R,
        alloc: Global,
        gate: &G,
        workers: u32,
        header: &Header,
        cluster: ClusterNo,
        asked: &ShardJob,
    ) -> Result<JobReply, OutOfMemory>
    where
        C: Send,
        requires workers { 0 < workers }
        requires cluster { cluster.number < length self.old.clusters }
        requires shard { asked.now.shard < length (cluster_at cluster self.old).cells }
        requires allowed { C.allows (home_at header.now cluster self.old) asked.now.job (cell_for asked.now.shard (cluster_at cluster self.old).cells) }
        ensures done { OnOk result (self.new ≡ with_cells cluster (cells_after (home_at header.now cluster self.old) (asked.now ∷ []) (cluster_at cluster self.old).cells) self.old) }
        ensures reply { IfOk result (λ reply. reply ∷ [] ≡ replies_to (home_at header.now cluster self.old) (asked.now ∷ []) (cluster_at cluster self.old).cells) }
    {
        let publisher = &mut self.publishers[cluster.number as usize];
        let home = home_in(header, cluster);
        publisher.do_one(rt, alloc, gate, workers, &home, asked)
    }

    /// The same, of jobs that are given back with the replies.
    pub(crate) fn do_all<R: Threads + Sync, G: Gate>(
        &mut self,
        rt: &R,
        alloc: Global,
        gate: &G,
        workers: u32,
        header: &Header,
        cluster: ClusterNo,
        jobs: Vec<ShardJob>,
    ) -> Result<Done, OutOfMemory>
    where
        C: Send,
        requires workers { 0 < workers }
        requires cluster { cluster.number < length self.old.clusters }
        requires shards { AllByRecursion (λ asked. asked.shard < length (cluster_at cluster self.old).cells) jobs.items }
        requires allowed { MayDoAll C.allows header.now cluster jobs.items self.old }
        ensures done { OnOk result (self.new ≡ (jobs_done header.now cluster jobs.items (from_world self.old)).world) }
        ensures notes { IfOk result (λ done. notes_in done ≡ (jobs_done header.now cluster jobs.items (from_world self.old)).notes) }
    {
        let asked = jobs.as_slice();
        let replies = self.do_jobs(rt, alloc, gate, workers, header, cluster, asked)?;
        Ok(Done {
            cluster,
            jobs,
            replies,
            reapplied: 0,
        })
    }

    /// Takes all that is in flight to a reader as jobs in which it arrives, by shard, then source, then place; then nothing
    /// is in flight to it.
    fn take_flights(
        &mut self,
        alloc: Global,
        header: &Header,
        reader: ClusterNo,
    ) -> Result<Vec<ShardJob>, OutOfMemory>
        requires shaped { IsShaped header.now self.old }
        ensures taken { OnOk result (self.new ≡ without_flights_to reader self.old) }
        ensures jobs { IfOk result (λ jobs. jobs.items ≡ flight_jobs header.now reader self.old) }
    {
        let links = self.links.as_mut_slice();
        let jobs = take_all(alloc, links, reader, header.shards)?;
        Ok(jobs)
    }

    /// All that is in flight to a reader arrives, by shard, then source, then place; then nothing is in flight to it. Each
    /// message may arrive in the cell that those before it leave. After want of memory the reader may have no cells.
    pub fn arrive<R: Threads + Sync, G: Gate>(
        &mut self,
        rt: &R,
        alloc: Global,
        gate: &G,
        workers: u32,
        header: &Header,
        reader: ClusterNo,
    ) -> Result<Done, OutOfMemory>
    where
        C: Send,
        requires workers { 0 < workers }
        requires reader { IsCluster header.now reader }
        requires shaped { IsShaped header.now self.old }
        requires allowed { MayDoAll C.allows header.now reader (flight_jobs header.now reader self.old) self.old }
        ensures arrived { OnOk result (self.new ≡ (flights_arrived header.now reader self.old).world) }
        ensures notes { IfOk result (λ done. notes_in done ≡ (flights_arrived header.now reader self.old).notes) }
    {
        let jobs = self.take_flights(alloc, header, reader)?;
        let done = self.do_all(rt, alloc, gate, workers, header, reader, jobs)?;
        Ok(done)
    }

    /// A job for each shard of a cluster to apply its strays again, but for those whose cells are idle.
    fn reapply_jobs(
        &self,
        alloc: Global,
        header: &Header,
        cluster: ClusterNo,
    ) -> Result<Vec<ShardJob>, OutOfMemory>
        requires cluster { IsCluster header.now cluster }
        requires shaped { IsShaped header.now self.now }
        ensures { IfOk result (λ jobs. AreChosen (home_at header.now cluster self.now) (cluster_at cluster self.now).cells header.now.shards 0 jobs.items) }
    {
        let publisher = &self.publishers[cluster.number as usize];
        let home = home_in(header, cluster);
        let jobs = publisher.reapply_jobs(alloc, &home, header.shards)?;
        Ok(jobs)
    }

    /// Each cell of a cluster applies its strays again, by shard, where it may. A cell that is idle is not asked. After want of
    /// memory the cluster has no cells.
    pub fn reapply<R: Threads + Sync, G: Gate>(
        &mut self,
        rt: &R,
        alloc: Global,
        gate: &G,
        workers: u32,
        header: &Header,
        cluster: ClusterNo,
    ) -> Result<Done, OutOfMemory>
    where
        C: Send,
        requires workers { 0 < workers }
        requires cluster { IsCluster header.now cluster }
        requires shaped { IsShaped header.now self.old }
        requires allowed { MayDoAll C.allows header.now cluster (all_reapply header.now) self.old }
        ensures reapplied { OnOk result (self.new ≡ (reapplied_all header.now (from_world self.old) cluster).world) }
        ensures notes { IfOk result (λ done. notes_in done ≡ (reapplied_all header.now (from_world self.old) cluster).notes) }
    {
        let jobs = self.reapply_jobs(alloc, header, cluster)?;
        let asked = jobs.as_slice();
        let replies = self.do_jobs(rt, alloc, gate, workers, header, cluster, asked)?;
        Ok(Done {
            cluster,
            jobs,
            replies,
            reapplied: header.shards,
        })
    }

    /// A cluster works: all that is in flight to it arrives, each of its cells applies its strays again, and its levels are
    /// renewed. After want of memory the cluster may have no cells.
    pub fn work<R: Threads + Sync, G: Gate>(
        &mut self,
        rt: &R,
        alloc: Global,
        gate: &G,
        workers: u32,
        header: &Header,
        reader: ClusterNo,
    ) -> Result<Worked, OutOfMemory>
    where
        C: Send,
        requires workers { 0 < workers }
        requires reader { IsCluster header.now reader }
        requires orderly { IsOrderly header.now self.old }
        requires allowed { MayWork C.allows header.now reader self.old }
        ensures worked { OnOk result (self.new ≡ (worked header.now reader self.old).world) }
        ensures notes { IfOk result (λ done. notes_in done.arrived ++ notes_in done.reapplied ≡ (worked header.now reader self.old).notes) }
    {
        let arrived = self.arrive(rt, alloc, gate, workers, header, reader)?;
        let reapplied = self.reapply(rt, alloc, gate, workers, header, reader)?;
        self.renew(header, reader);
        Ok(Worked { arrived, reapplied })
    }
}
