use crate::finding::gaps_at;
use crate::jobs::{do_job, is_idle};
use crate::shard::Shard;
use ndc_cluster::{Cell, Desk, Home};
use ndc_cluster_reads::Reads;
use ndc_command::Refusal;
use ndc_domain::DomainTable;
use ndc_event::{BatchKey, Name, OutOfMemory};
use ndc_model_cells::{Job, JobReply, Message, Place};
use ndc_resend::GapOf;
use ndc_shard_runs::Runs;
use ndc_shard_workflows::messages_of;
use std::alloc::Global;

impl Cell for Shard {
    ghost use Rattle.ndc_model_cells.specs.Allowed.{IsAllowed};

    ghost cell = { λ shard. shard };

    ghost allows = { IsAllowed };

    ghost may = { λ desk asked at given. given };

    fn new(alloc: Global, home: &Home) -> Result<Shard, OutOfMemory> {
        Shard::new(alloc, home)
    }

    fn do_job(&mut self, desk: &Desk, job: &Job) -> Result<JobReply, OutOfMemory> {
        do_job(self, desk, job)
    }

    fn is_idle(&self, desk: &Desk) -> bool {
        is_idle(self, desk)
    }

    fn has_learned(&self, domain: &Name, workflow: &Name, key: BatchKey) -> bool {
        Shard::has_learned(self, domain, workflow, key)
    }

    fn written_len(&self) -> u64 {
        Shard::written_len(self) as u64
    }

    fn written_at(&self, place: u64) -> Result<Message, OutOfMemory> {
        Shard::written_at(self, place as usize)
    }

    fn learned_of(&self, alloc: Global, domains: &[Name]) -> Result<Vec<Message>, OutOfMemory> {
        messages_of(alloc, self.held(), domains)
    }
}

impl Reads for Shard {
    fn runs(&self, domain: &Name, workflow: &Name) -> Option<&Runs> {
        Shard::runs(self, domain, workflow)
    }

    fn may_write(
        &self,
        home: &Home,
        table: &DomainTable,
        domain: &Name,
        workflow: &Name,
    ) -> Result<u64, Refusal> {
        Shard::may_write(self, home, table, domain, workflow)
    }

    fn has_arrived(&self, domain: &Name, workflow: &Name, key: BatchKey) -> bool {
        match self.held().find(domain, workflow) {
            Some(found) => found.has_arrived(key),
            None => false,
        }
    }

    fn behind(&self, alloc: Global) -> Result<Vec<Place>, OutOfMemory> {
        self.held().behind(alloc)
    }

    fn gaps(&self, _alloc: Global) -> Result<Vec<GapOf>, OutOfMemory> {
        Shard::gaps(self)
    }

    fn gaps_in(
        &self,
        alloc: Global,
        domain: &Name,
        workflow: &Name,
    ) -> Result<Vec<GapOf>, OutOfMemory> {
        gaps_at(alloc, self.held(), domain, workflow)
    }

    fn serve(&self, _alloc: Global, asked: &GapOf) -> Result<Vec<Message>, OutOfMemory> {
        Shard::serve(self, asked)
    }

    fn message_at(
        &self,
        _alloc: Global,
        domain: &Name,
        workflow: &Name,
        key: BatchKey,
    ) -> Result<Option<Message>, OutOfMemory> {
        Shard::message(self, domain, workflow, key)
    }
}
