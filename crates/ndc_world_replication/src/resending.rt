ghost use Rattle.std.specs.Prelude.{◌≡◌, ◌<◌, [], ◌++◌, map, IfSome, IfNone, IfOk, OnOk};
ghost use Rattle.std.specs.List.{AllByRecursion, IsAmong, flat_map};
ghost use Rattle.ndc_script_types.specs.WellFormed.{IsCluster};
ghost use Rattle.ndc_model.specs.Again.{cell_by, sent_again_at, sent_again_of, served_by_author};
ghost use Rattle.ndc_model_cells.specs.Cells.{empty_cell, put_off_in};
ghost use Rattle.ndc_model_cells.specs.Places.{place_of};
ghost use Rattle.ndc_domain.specs.Clusters.{writer_of};
ghost use Rattle.ndc_model.specs.Sometime.{IsReachedSometime};
ghost use Rattle.ndc_model.specs.Fair.{IsShaped};
ghost use Rattle.ndc_model.specs.Moves.{arrives, resent, sent_again};
ghost use Rattle.ndc_model.specs.World.{cell_at};
ghost use Rattle.ndc_model.specs.Conditions.{MayDoAll, again_jobs};
ghost use Rattle.ndc_resend.specs.Bringing.{asked_for, asked_from};
ghost use Rattle.ndc_world_replication.specs.Brought.{AreKeysOf};
ghost use Rattle.ndc_world_replication.specs.Dones.{notes_in};

use crate::brought::{add_all, new_of};
use crate::publishers::cell_of;
use crate::replication::Replication;
use crate::taking::add_jobs;
use crate::working::Done;
use ndc_cluster_reads::Reads;
use ndc_domain::ClusterNo;
use ndc_event::OutOfMemory;
use ndc_model_cells::{Message, Place, ShardJob};
use ndc_model_sets::KeySet;
use ndc_port::Gate;
use ndc_resend::GapOf;
use ndc_script_types::Header;
use std::alloc::Global;
use std::thread::Threads;

impl<C: Reads + Drop> Replication<C> {
    /// The cell, for a shard, of the cluster that writes with a version.
    fn author(&self, header: &Header, shard: u32, version: u64) -> Option<&C>
        requires shard { shard < header.now.shards }
        requires shaped { IsShaped header.now self.now }
        ensures found { IfSome result (λ cell. C.cell cell.now ≡ cell_by shard self.now (writer_of header.now.clusters version)) }
        ensures none { IfNone result (cell_by shard self.now (writer_of header.now.clusters version) ≡ empty_cell) }
    {
        let cluster = header.clusters.writer_of(version)?;
        Some(cell_of(self, cluster, shard))
    }

    /// The cell of a reader for a shard.
    fn reader_cell(&self, header: &Header, reader: ClusterNo, shard: u32) -> &C
        requires reader { IsCluster header.now reader }
        requires shard { shard < header.now.shards }
        requires shaped { IsShaped header.now self.now }
        ensures { C.cell result.now ≡ cell_at reader shard self.now }
    {
        cell_of(self, reader, shard)
    }

    /// What the author of a batch that is put off serves for the gap before it.
    fn served_by_author(
        &self,
        alloc: Global,
        header: &Header,
        shard: u32,
        gap: &GapOf,
    ) -> Result<Vec<Message>, OutOfMemory>
        requires shard { shard < header.now.shards }
        requires shaped { IsShaped header.now self.now }
        ensures { IfOk result (λ list. list.items ≡ served_by_author header.now shard self.now gap.now) }
    {
        match self.author(header, shard, gap.key.version) {
            Some(cell) => cell.serve(alloc, gap),
            None => Ok(Vec::new(alloc)),
        }
    }

    /// Asks for a gap, where none of the messages so far has the batch that is missing, and adds what is served.
    fn ask_for(
        &self,
        alloc: Global,
        header: &Header,
        shard: u32,
        messages: &mut Vec<Message>,
        keys: &mut KeySet,
        gap: &GapOf,
    ) -> Result<(), OutOfMemory>
        requires shard { shard < header.now.shards }
        requires shaped { IsShaped header.now self.now }
        requires keys { AreKeysOf messages.old.items keys.old }
        ensures asked { OnOk result (messages.new.items ≡ asked_for (served_by_author header.now shard self.now) messages.old.items gap.now) }
        ensures keys { OnOk result (AreKeysOf messages.new.items keys.new) }
    {
        if keys.has(gap.missing) {
            return Ok(());
        }
        let more = self.served_by_author(alloc, header, shard, gap)?;
        add_all(messages, keys, more)
    }

    /// What asking for gaps of a workflow brings, from the last to the first.
    fn ask_all(
        &self,
        alloc: Global,
        header: &Header,
        shard: u32,
        gaps: Vec<GapOf>,
    ) -> Result<Vec<Message>, OutOfMemory>
        requires shard { shard < header.now.shards }
        requires shaped { IsShaped header.now self.now }
        ensures { IfOk result (λ list. list.items ≡ asked_from (served_by_author header.now shard self.now) [] gaps.items) }
    {
        let mut messages = Vec::new(alloc);
        let mut keys = KeySet::new(alloc);
        let mut left = gaps;
        while let Some(gap) = left.pop() {
            self.ask_for(alloc, header, shard, &mut messages, &mut keys, &gap)?;
        }
        Ok(messages)
    }

    /// What a reader is sent again of a workflow, in order.
    fn sent_of(
        &self,
        alloc: Global,
        header: &Header,
        reader: ClusterNo,
        shard: u32,
        place: &Place,
    ) -> Result<Vec<Message>, OutOfMemory>
        requires reader { IsCluster header.now reader }
        requires shard { shard < header.now.shards }
        requires reached { IsReachedSometime header.now self.now }
        requires behind { IsAmong (map place_of (put_off_in (cell_at reader shard self.now))) place.now }
        ensures { IfOk result (λ list. list.items ≡ sent_again_of header.now reader self.now shard place.now.domain place.now.workflow) }
    {
        let cell = self.reader_cell(header, reader, shard);
        let gaps = cell.gaps_in(alloc, &place.domain, &place.workflow)?;
        let messages = self.ask_all(alloc, header, shard, gaps)?;
        let new = new_of(alloc, cell, messages)?;
        Ok(new)
    }

    /// Adds jobs in which all arrives that a reader is sent again of the workflows of these places, in order.
    fn add_places(
        &self,
        alloc: Global,
        jobs: &mut Vec<ShardJob>,
        header: &Header,
        reader: ClusterNo,
        shard: u32,
        places: &[Place],
    ) -> Result<(), OutOfMemory>
        requires reader { IsCluster header.now reader }
        requires shard { shard < header.now.shards }
        requires reached { IsReachedSometime header.now self.now }
        requires behind { AllByRecursion (IsAmong (map place_of (put_off_in (cell_at reader shard self.now)))) places.now }
        ensures { OnOk result (jobs.new.items ≡ jobs.old.items ++ map (arrives shard) (flat_map (sent_again_at header.now reader self.now shard) places.now)) }
    {
        for place in places {
            let messages = self.sent_of(alloc, header, reader, shard, place)?;
            add_jobs(jobs, shard, messages)?;
        }
        Ok(())
    }

    /// Adds jobs in which all arrives that a reader is sent again for a shard, in order of place.
    fn add_again(
        &self,
        alloc: Global,
        jobs: &mut Vec<ShardJob>,
        header: &Header,
        reader: ClusterNo,
        shard: u32,
    ) -> Result<(), OutOfMemory>
        requires reader { IsCluster header.now reader }
        requires shard { shard < header.now.shards }
        requires reached { IsReachedSometime header.now self.now }
        ensures { OnOk result (jobs.new.items ≡ jobs.old.items ++ map (arrives shard) (sent_again header.now reader self.now shard)) }
    {
        let cell = self.reader_cell(header, reader, shard);
        let behind = cell.behind(alloc)?;
        let places = behind.as_slice();
        self.add_places(alloc, jobs, header, reader, shard, places)?;
        Ok(())
    }

    /// Jobs in which all arrives that a reader is sent again, by shard and then by place.
    fn again_jobs(
        &self,
        alloc: Global,
        header: &Header,
        reader: ClusterNo,
    ) -> Result<Vec<ShardJob>, OutOfMemory>
        requires reader { IsCluster header.now reader }
        requires reached { IsReachedSometime header.now self.now }
        ensures { IfOk result (λ jobs. jobs.items ≡ again_jobs header.now reader self.now) }
    {
        let mut jobs = Vec::new(alloc);
        for shard in 0..header.shards {
            self.add_again(alloc, &mut jobs, header, reader, shard)?;
        }
        Ok(jobs)
    }

    /// A reader is sent again what it misses: the ancestors of all that is put off there, that have not arrived, by shard and
    /// then by place. For each batch that it has put off, from the last to the first of a workflow, it asks the batch's author
    /// for the gap before it, where the missing ancestor was not brought so far; then its levels are renewed. That this brings
    /// just the ancestors that are missing is `ndc_laws_jobs::again_laws::what_is_brought_is_sent_again`. After want of memory the reader may have no cells.
    pub fn resend<R: Threads + Sync, G: Gate>(
        &mut self,
        rt: &R,
        alloc: Global,
        gate: &G,
        workers: u32,
        header: &Header,
        reader: ClusterNo,
    ) -> Result<Done, OutOfMemory>
    where
        C: Send,
        requires workers { 0 < workers }
        requires reader { IsCluster header.now reader }
        requires reached { IsReachedSometime header.now self.old }
        requires allowed { MayDoAll C.allows header.now reader (again_jobs header.now reader self.old) self.old }
        ensures resent { OnOk result (self.new ≡ (resent header.now reader self.old).world) }
        ensures notes { IfOk result (λ done. notes_in done ≡ (resent header.now reader self.old).notes) }
    {
        let jobs = self.again_jobs(alloc, header, reader)?;
        let done = self.do_all(rt, alloc, gate, workers, header, reader, jobs)?;
        self.renew(header, reader);
        Ok(done)
    }
}
