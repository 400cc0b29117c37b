ghost use Rattle.std.specs.Prelude.{◌≡◌, ℕ, ◌<◌, ◌++◌, length, map, IfOk, OnOk};
ghost use Rattle.std.specs.List.{AllByRecursion, flat_map};
ghost use Rattle.ndc_script_types.specs.WellFormed.{IsCluster};
ghost use Rattle.ndc_model.specs.Moves.{arrives, by_link, due, due_arrived, from_world};
ghost use Rattle.ndc_model.specs.Conditions.{MayDoAll, due_jobs};
ghost use Rattle.ndc_world_replication.specs.Dones.{notes_in};
ghost use Rattle.ndc_world_replication.specs.Orderly.{IsOrderly};
ghost use Rattle.ndc_world_replication.specs.Places.{links_at};

use crate::own::own_places;
use crate::replication::Replication;
use crate::taking::add_jobs;
use crate::working::Done;
use ndc_cluster::Cell;
use ndc_domain::ClusterNo;
use ndc_event::OutOfMemory;
use ndc_model_cells::ShardJob;
use ndc_port::Gate;
use ndc_script_types::Header;
use std::alloc::Global;
use std::thread::Threads;

impl<C: Cell + Drop> Replication<C> {
    /// The places of a reader's links over which something may be due: those whose sources have written more than is done.
    fn may_be_due(
        &self,
        alloc: Global,
        header: &Header,
        reader: ClusterNo,
    ) -> Result<Vec<usize>, OutOfMemory>
        requires reader { IsCluster header.now reader }
        requires orderly { IsOrderly header.now self.now }
        ensures places { IfOk result (λ places. AllByRecursion (λ place. place < length self.now.links) places.items) }
        ensures due { IfOk result (λ places. (shard : ℕ) → shard < header.now.shards
            → flat_map (due self.now shard) (links_at places.items self.now.links) ≡ by_link reader (due self.now) self.now.links shard) }
    {
        let mut places = Vec::new(alloc);
        let (first, last) = own_places(header, reader);
        for place in first..last {
            let link = &self.links[place];
            if link.reader().number != reader.number {
                continue;
            }
            let source = &self.publishers[link.source().number as usize];
            if link.is_done(source.queues()) {
                continue;
            }
            places.push(place)?;
        }
        Ok(places)
    }

    /// Adds jobs in which all arrives that is due for a shard over the links at these places, in their order. Of each queue
    /// the entries are looked at that are not done; a queue of which all are done is passed by.
    fn add_due(
        &self,
        alloc: Global,
        jobs: &mut Vec<ShardJob>,
        header: &Header,
        places: &[usize],
        shard: u32,
    ) -> Result<(), OutOfMemory>
        requires shard { shard < header.now.shards }
        requires orderly { IsOrderly header.now self.now }
        requires places { AllByRecursion (λ place. place < length self.now.links) places.now }
        ensures { OnOk result (jobs.new.items ≡ jobs.old.items ++ map (arrives shard) (flat_map (due self.now shard) (links_at places.now self.now.links))) }
    {
        for &place in places {
            let link = &self.links[place];
            let source = &self.publishers[link.source().number as usize];
            let queues = source.queues().as_slice();
            let queue = &queues[shard as usize];
            if link.is_done_for(shard as usize, queue) {
                continue;
            }
            let messages = link.due(alloc, source.table(), shard as usize, queue)?;
            add_jobs(jobs, shard, messages)?;
        }
        Ok(())
    }

    /// Jobs in which all arrives that is due to a reader, by shard, then source, then place. Links over which all is done are
    /// looked at once; where nothing is due, no shard is looked at.
    fn due_jobs(
        &self,
        alloc: Global,
        header: &Header,
        reader: ClusterNo,
    ) -> Result<Vec<ShardJob>, OutOfMemory>
        requires reader { IsCluster header.now reader }
        requires orderly { IsOrderly header.now self.now }
        ensures { IfOk result (λ jobs. jobs.items ≡ due_jobs header.now reader self.now) }
    {
        let mut jobs = Vec::new(alloc);
        let places = self.may_be_due(alloc, header, reader)?;
        let places = places.as_slice();
        if places.is_empty() {
            return Ok(jobs);
        }
        for shard in 0..header.shards {
            self.add_due(alloc, &mut jobs, header, places, shard)?;
        }
        Ok(jobs)
    }

    /// All that is due to a reader arrives, by shard, then source, then place: the entries that are addressed to it and not
    /// done. After want of memory the reader may have no cells.
    pub(crate) fn arrive_due<R: Threads + Sync, G: Gate>(
        &mut self,
        rt: &R,
        alloc: Global,
        gate: &G,
        workers: u32,
        header: &Header,
        reader: ClusterNo,
    ) -> Result<Done, OutOfMemory>
    where
        C: Send,
        requires workers { 0 < workers }
        requires reader { IsCluster header.now reader }
        requires orderly { IsOrderly header.now self.old }
        requires allowed { MayDoAll C.allows header.now reader (due_jobs header.now reader self.old) self.old }
        ensures arrived { OnOk result (self.new ≡ (due_arrived header.now (from_world self.old) reader).world) }
        ensures notes { IfOk result (λ done. notes_in done ≡ (due_arrived header.now (from_world self.old) reader).notes) }
    {
        let jobs = self.due_jobs(alloc, header, reader)?;
        let done = self.do_all(rt, alloc, gate, workers, header, reader, jobs)?;
        Ok(done)
    }
}
