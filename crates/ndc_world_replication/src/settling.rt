ghost use Rattle.std.specs.Prelude.{◌≡◌, ◌<◌, false, map, IfOk, IsTrue, OnOk};
ghost use Rattle.std.specs.List.{flat_map, fold};
ghost use Rattle.ndc_script_types.specs.WellFormed.{IsCluster};
ghost use Rattle.ndc_model.specs.Moves.{after_settlement, all_reapply, bootstrapped, due_arrived, link_without_flights, merged_all, reapplied_all, renewed, settled_once, without_flights};
ghost use Rattle.ndc_model.specs.World.{all_clusters, others_of};
ghost use Rattle.ndc_model.specs.Conditions.{EachStep, MayBootstrap, MayDoAll, MaySettle, MaySettleOnce, all_bootstrapped, all_due_arrived, due_jobs, late_jobs, reader_bootstrapped, tables_merged};
ghost use Rattle.ndc_world_replication.specs.Dones.{notes_in, trace_of};
ghost use Rattle.ndc_world_replication.specs.OnTime.{IsOnTime};
ghost use Rattle.ndc_world_replication.specs.Orderly.{IsOrderly};
ghost use Rattle.ndc_world_replication.specs.Publishers.{PublisherValue};
ghost use Rattle.ndc_world_replication.specs.Tables.{HaveAll, HaveOneTable};

use crate::own::own_places;
use crate::publisher::Publisher;
use crate::replication::Replication;
use crate::working::Done;
use ndc_cluster::Cell;
use ndc_cluster_links::Link;
use ndc_domain::{ClusterNo, DomainTable};
use ndc_event::OutOfMemory;
use ndc_port::Gate;
use ndc_script_types::{Header, clusters_below};
use std::alloc::Global;
use std::thread::Threads;

/// The clusters other than this one.
fn others_of(
    alloc: Global,
    header: &Header,
    clusters: &[ClusterNo],
    cluster: ClusterNo,
) -> Result<Vec<ClusterNo>, OutOfMemory>
    requires { clusters.now ≡ all_clusters header.now }
    ensures { IfOk result (λ others. others.items ≡ others_of header.now cluster) }
{
    let mut others = Vec::with_capacity(alloc, clusters.len())?;
    for &other in clusters {
        if cluster.number != other.number {
            others.push(other)?;
        }
    }
    Ok(others)
}

/// Whether a reader is a member late of any domain, as to any source.
fn may_be_late(links: &[Link], reader: ClusterNo) -> bool
    ensures { result ≡ false → IsOnTime reader links.now }
{
    for link in links {
        if link.reader().number == reader.number && !link.late().is_empty() {
            return true;
        }
    }
    false
}

/// Whether each of these clusters holds these domain records.
fn have_all<C: Cell + Drop>(publishers: &[Publisher<C>], records: &DomainTable) -> bool
    ensures { IsTrue result → HaveAll records.now (map (λ (publisher : PublisherValue). publisher.cluster) publishers.now) }
{
    for publisher in publishers {
        if !publisher.table().same(records) {
            return false;
        }
    }
    true
}

/// Whether all of these clusters hold the same domain records.
fn have_one_table<C: Cell + Drop>(publishers: &[Publisher<C>]) -> bool
    ensures { IsTrue result → HaveOneTable (map (λ (publisher : PublisherValue). publisher.cluster) publishers.now) }
{
    if publishers.is_empty() {
        return false;
    }
    let records = publishers[0].table();
    let _ordered = records.records();
    have_all(publishers, records)
}

/// Takes out all that is in flight.
fn empty_all(links: &mut Vec<Link>)
    ensures { links.new.items ≡ map link_without_flights links.old.items }
{
    for link in links.iter_mut() {
        link.empty();
    }
}

impl<C: Cell + Drop> Replication<C> {
    /// A cluster merges the tables of these others, one after the other.
    fn merge_others(
        &mut self,
        alloc: Global,
        header: &Header,
        cluster: ClusterNo,
        others: &[ClusterNo],
    ) -> Result<(), OutOfMemory>
        requires cluster { IsCluster header.now cluster }
        requires others { others.now ≡ others_of header.now cluster }
        requires orderly { IsOrderly header.now self.old }
        ensures merged { OnOk result (self.new ≡ merged_all header.now self.old cluster) }
        ensures orderly { OnOk result (IsOrderly header.now self.new) }
    {
        for &other in others {
            self.merge(alloc, cluster, other)?;
        }
        Ok(())
    }

    /// Each cluster merges the tables of all others, in header order. Where all hold the same records, none is merged.
    fn merge_tables(
        &mut self,
        alloc: Global,
        header: &Header,
        clusters: &[ClusterNo],
    ) -> Result<(), OutOfMemory>
        requires clusters { clusters.now ≡ all_clusters header.now }
        requires orderly { IsOrderly header.now self.old }
        ensures merged { OnOk result (self.new ≡ tables_merged header.now self.old) }
        ensures orderly { OnOk result (IsOrderly header.now self.new) }
    {
        if have_one_table(self.publishers.as_slice()) {
            return Ok(());
        }
        for &cluster in clusters {
            let others = others_of(alloc, header, clusters, cluster)?;
            self.merge_others(alloc, header, cluster, others.as_slice())?;
        }
        Ok(())
    }

    /// Nothing is in flight.
    fn empty_flights(&mut self)
        ensures { self.new ≡ without_flights self.old }
    {
        empty_all(&mut self.links);
    }

    /// The levels of all clusters are renewed.
    fn renew_all(&mut self, header: &Header, clusters: &[ClusterNo])
        requires clusters { clusters.now ≡ all_clusters header.now }
        requires orderly { IsOrderly header.now self.old }
        ensures { self.new ≡ fold renewed self.old (all_clusters header.now) }
    {
        for &cluster in clusters {
            self.renew(header, cluster);
        }
    }

    /// All that is due to each cluster arrives, one cluster after the other.
    fn arrive_all_due<R: Threads + Sync, G: Gate>(
        &mut self,
        rt: &R,
        alloc: Global,
        gate: &G,
        workers: u32,
        header: &Header,
        clusters: &[ClusterNo],
        dones: &mut Vec<Done>,
    ) -> Result<(), OutOfMemory>
    where
        C: Send,
        requires workers { 0 < workers }
        requires clusters { clusters.now ≡ all_clusters header.now }
        requires orderly { IsOrderly header.now self.old }
        requires allowed { EachStep (λ v reader. MayDoAll C.allows header.now reader (due_jobs header.now reader v.world) v.world) (due_arrived header.now) (trace_of self.old dones.old.items) (all_clusters header.now) }
        ensures arrived { OnOk result (trace_of self.new dones.new.items ≡ all_due_arrived header.now (trace_of self.old dones.old.items)) }
        ensures orderly { OnOk result (IsOrderly header.now self.new) }
    {
        for &reader in clusters {
            let done = self.arrive_due(rt, alloc, gate, workers, header, reader)?;
            dones.push(done)?;
        }
        Ok(())
    }

    /// The cells of each cluster apply their strays again, one cluster after the other.
    fn reapply_each<R: Threads + Sync, G: Gate>(
        &mut self,
        rt: &R,
        alloc: Global,
        gate: &G,
        workers: u32,
        header: &Header,
        clusters: &[ClusterNo],
        dones: &mut Vec<Done>,
    ) -> Result<(), OutOfMemory>
    where
        C: Send,
        requires workers { 0 < workers }
        requires clusters { clusters.now ≡ all_clusters header.now }
        requires orderly { IsOrderly header.now self.old }
        requires allowed { EachStep (λ v cluster. MayDoAll C.allows header.now cluster (all_reapply header.now) v.world) (reapplied_all header.now) (trace_of self.old dones.old.items) (all_clusters header.now) }
        ensures reapplied { OnOk result (trace_of self.new dones.new.items ≡ fold (reapplied_all header.now) (trace_of self.old dones.old.items) (all_clusters header.now)) }
        ensures orderly { OnOk result (IsOrderly header.now self.new) }
    {
        for &cluster in clusters {
            let done = self.reapply(rt, alloc, gate, workers, header, cluster)?;
            dones.push(done)?;
        }
        Ok(())
    }
}

impl<C: Cell + Drop> Replication<C> {
    /// A reader takes from each of these sources what it lacks, one after the other. Where it is a member late of no domain,
    /// its levels are renewed once, and no source is looked at.
    fn bootstrap_reader<R: Threads + Sync, G: Gate>(
        &mut self,
        rt: &R,
        alloc: Global,
        gate: &G,
        workers: u32,
        header: &Header,
        reader: ClusterNo,
        sources: &[ClusterNo],
        dones: &mut Vec<Done>,
    ) -> Result<(), OutOfMemory>
    where
        C: Send,
        requires workers { 0 < workers }
        requires reader { IsCluster header.now reader }
        requires sources { sources.now ≡ others_of header.now reader }
        requires orderly { IsOrderly header.now self.old }
        requires allowed { MayBootstrap C.allows header.now (trace_of self.old dones.old.items) reader }
        ensures bootstrapped { OnOk result (trace_of self.new dones.new.items ≡ reader_bootstrapped header.now (trace_of self.old dones.old.items) reader) }
        ensures orderly { OnOk result (IsOrderly header.now self.new) }
    {
        let (first, last) = own_places(header, reader);
        if !may_be_late(&self.links.as_slice()[first..last], reader) {
            if !sources.is_empty() {
                self.renew(header, reader);
            }
            return Ok(());
        }
        for &source in sources {
            let done = self.bootstrap(rt, alloc, gate, workers, header, reader, source)?;
            dones.push(done)?;
        }
        Ok(())
    }

    /// The same of each reader.
    fn bootstrap_all<R: Threads + Sync, G: Gate>(
        &mut self,
        rt: &R,
        alloc: Global,
        gate: &G,
        workers: u32,
        header: &Header,
        clusters: &[ClusterNo],
        dones: &mut Vec<Done>,
    ) -> Result<(), OutOfMemory>
    where
        C: Send,
        requires workers { 0 < workers }
        requires clusters { clusters.now ≡ all_clusters header.now }
        requires orderly { IsOrderly header.now self.old }
        requires allowed { EachStep (MayBootstrap C.allows header.now) (reader_bootstrapped header.now) (trace_of self.old dones.old.items) (all_clusters header.now) }
        ensures bootstrapped { OnOk result (trace_of self.new dones.new.items ≡ all_bootstrapped header.now (trace_of self.old dones.old.items)) }
        ensures orderly { OnOk result (IsOrderly header.now self.new) }
    {
        for &reader in clusters {
            let sources = others_of(alloc, header, clusters, reader)?;
            let sources = sources.as_slice();
            self.bootstrap_reader(rt, alloc, gate, workers, header, reader, sources, dones)?;
        }
        Ok(())
    }

    /// One round of settlement.
    fn settle_once<R: Threads + Sync, G: Gate>(
        &mut self,
        rt: &R,
        alloc: Global,
        gate: &G,
        workers: u32,
        header: &Header,
        clusters: &[ClusterNo],
        dones: &mut Vec<Done>,
    ) -> Result<(), OutOfMemory>
    where
        C: Send,
        requires workers { 0 < workers }
        requires clusters { clusters.now ≡ all_clusters header.now }
        requires orderly { IsOrderly header.now self.old }
        requires allowed { MaySettleOnce C.allows header.now (trace_of self.old dones.old.items) }
        ensures settled { OnOk result (trace_of self.new dones.new.items ≡ settled_once header.now (trace_of self.old dones.old.items)) }
        ensures orderly { OnOk result (IsOrderly header.now self.new) }
    {
        self.merge_tables(alloc, header, clusters)?;
        self.bootstrap_all(rt, alloc, gate, workers, header, clusters, dones)?;
        self.arrive_all_due(rt, alloc, gate, workers, header, clusters, dones)?;
        self.reapply_each(rt, alloc, gate, workers, header, clusters, dones)?;
        Ok(())
    }

    /// Settlement: nothing is in flight any more; then in two rounds the tables become one, members that are late take what
    /// they lack, all that is due arrives, and each cell applies its strays again; at last all levels are renewed. Gives
    /// what was done, in order. After want of memory some clusters may have no cells.
    pub fn settle<R: Threads + Sync, G: Gate>(
        &mut self,
        rt: &R,
        alloc: Global,
        gate: &G,
        workers: u32,
        header: &Header,
    ) -> Result<Vec<Done>, OutOfMemory>
    where
        C: Send,
        requires workers { 0 < workers }
        requires orderly { IsOrderly header.now self.old }
        requires allowed { MaySettle C.allows header.now self.old }
        ensures settled { OnOk result (self.new ≡ (after_settlement header.now self.old).world) }
        ensures notes { IfOk result (λ dones. flat_map notes_in dones.items ≡ (after_settlement header.now self.old).notes) }
    {
        let clusters = clusters_below(alloc, header.clusters.count())?;
        let clusters = clusters.as_slice();
        let mut dones = Vec::new(alloc);
        self.empty_flights();
        self.settle_once(rt, alloc, gate, workers, header, clusters, &mut dones)?;
        self.settle_once(rt, alloc, gate, workers, header, clusters, &mut dones)?;
        self.renew_all(header, clusters);
        Ok(dones)
    }
}
