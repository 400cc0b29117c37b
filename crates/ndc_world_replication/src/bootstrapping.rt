ghost use Rattle.std.specs.Prelude.{◌≡◌, ◌<◌, [], find, length, map, IfOk, OnOk};
ghost use Rattle.std.specs.List.{range_with_len};
ghost use Rattle.ndc_script_types.specs.WellFormed.{IsCluster};
ghost use Rattle.ndc_model_cells.specs.Jobs.{cell_for};
ghost use Rattle.ndc_model.specs.Fair.{IsShaped};
ghost use Rattle.ndc_model.specs.Moves.{all_arrive, bootstrapped, from_world};
ghost use Rattle.ndc_model_cells.specs.Domains.{learned_of_domains};
ghost use Rattle.ndc_model.specs.World.{is_link, link_found, with_link};
ghost use Rattle.ndc_model.specs.Conditions.{MayDoAll, late_jobs};
ghost use Rattle.ndc_world_replication.specs.Dones.{notes_in};
ghost use Rattle.ndc_world_replication.specs.Orderly.{IsOrderly};

use crate::pulling::link_place;
use crate::replication::Replication;
use crate::taking::add_jobs;
use crate::working::Done;
use ndc_cluster::Cell;
use ndc_cluster_links::Link;
use ndc_domain::ClusterNo;
use ndc_event::{Name, OutOfMemory};
use ndc_model_cells::ShardJob;
use ndc_port::Gate;
use ndc_script_types::Header;
use std::alloc::Global;
use std::thread::Threads;

/// Jobs in which all arrives that cells have learned of some domains, by shard and then by place. Where there is no domain,
/// no cell is asked.
fn learned_jobs<C: Cell>(
    alloc: Global,
    cells: &[C],
    domains: &[Name],
    shards: u32,
) -> Result<Vec<ShardJob>, OutOfMemory>
    requires { length cells.now ≡ shards }
    ensures { IfOk result (λ jobs. jobs.items ≡ all_arrive (λ shard. learned_of_domains domains.now (cell_for shard (map C.cell cells.now))) (range_with_len 0 shards)) }
{
    let mut jobs = Vec::new(alloc);
    if domains.is_empty() {
        return Ok(jobs);
    }
    for shard in 0..shards {
        let messages = cells[shard as usize].learned_of(alloc, domains)?;
        add_jobs(&mut jobs, shard, messages)?;
    }
    Ok(jobs)
}

/// The domains of which a reader is a member late, as to a source.
fn late_of(links: &[Link], reader: ClusterNo, source: ClusterNo) -> &[Name]
    ensures { result.now ≡ (link_found reader source (find (is_link reader source) links.now)).late }
{
    let Some(place) = link_place(links, reader, source) else {
        return &[];
    };
    links[place].late()
}

impl<C: Cell + Drop> Replication<C> {
    /// Jobs in which all arrives that a source has learned of the domains of which a reader is a member late, by shard and
    /// then by place.
    fn late_jobs(
        &self,
        alloc: Global,
        header: &Header,
        reader: ClusterNo,
        source: ClusterNo,
    ) -> Result<Vec<ShardJob>, OutOfMemory>
        requires source { IsCluster header.now source }
        requires shaped { IsShaped header.now self.now }
        ensures { IfOk result (λ jobs. jobs.items ≡ late_jobs header.now reader source self.now) }
    {
        let cells = self.publishers[source.number as usize].cells();
        let domains = late_of(self.links.as_slice(), reader, source);
        let jobs = learned_jobs(alloc, cells, domains, header.shards)?;
        Ok(jobs)
    }

    /// A reader is a member late of no domain any more, as to a source.
    fn end_late(&mut self, reader: ClusterNo, source: ClusterNo)
        ensures { self.new ≡ with_link reader source (λ link. record link { late = [] }) self.old }
    {
        let Some(at) = link_place(self.links.as_slice(), reader, source) else {
            return;
        };
        let link = &mut self.links[at];
        link.clear_late();
    }

    /// A reader takes from a source what this has learned of the domains of which it is a member late, by shard and then by
    /// place; then it is late of none, as to this source, and its levels are renewed. After want of memory the reader may
    /// have no cells.
    pub fn bootstrap<R: Threads + Sync, G: Gate>(
        &mut self,
        rt: &R,
        alloc: Global,
        gate: &G,
        workers: u32,
        header: &Header,
        reader: ClusterNo,
        source: ClusterNo,
    ) -> Result<Done, OutOfMemory>
    where
        C: Send,
        requires workers { 0 < workers }
        requires reader { IsCluster header.now reader }
        requires source { IsCluster header.now source }
        requires orderly { IsOrderly header.now self.old }
        requires allowed { MayDoAll C.allows header.now reader (late_jobs header.now reader source self.old) self.old }
        ensures bootstrapped { OnOk result (self.new ≡ (bootstrapped header.now reader (from_world self.old) source).world) }
        ensures notes { IfOk result (λ done. notes_in done ≡ (bootstrapped header.now reader (from_world self.old) source).notes) }
    {
        let jobs = self.late_jobs(alloc, header, reader, source)?;
        let done = self.do_all(rt, alloc, gate, workers, header, reader, jobs)?;
        self.end_late(reader, source);
        self.renew(header, reader);
        Ok(done)
    }
}
