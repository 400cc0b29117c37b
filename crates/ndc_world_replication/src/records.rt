ghost use Rattle.std.specs.Prelude.{◌≡◌, ◌≢◌, ◌<◌, ◌^◌, All, length, map, IfOk, IfSome, OnErr, OnOk};
ghost use Rattle.ndc_domain.specs.Clusters.{count_of};
ghost use Rattle.ndc_domain.specs.Merge.{merge_count, merged};
ghost use Rattle.ndc_domain.specs.Outcome.{Answers};
ghost use Rattle.ndc_domain.specs.Records.{failover_of, join_of, only_of, record_of, register_of, retain_of};
ghost use Rattle.ndc_domain.specs.declared.record.DomainError.TheVariants as register_error;
ghost use Rattle.ndc_event.specs.Outcome.{Gives};
ghost use Rattle.ndc_graceful.specs.Begin.{begin_of};
ghost use Rattle.ndc_graceful.specs.declared.handover.BeginError.TheVariants as begin_error;
ghost use Rattle.ndc_model.specs.Letters.{with_letters};
ghost use Rattle.ndc_model.specs.World.{cluster_at, with_late, with_table};
ghost use Rattle.ndc_world_replication.specs.Tables.{table_changed, table_left, with_late_domain};

use crate::replication::Replication;
use ndc_cluster::Cell;
use ndc_cluster_links::Link;
use ndc_domain::{
    ClusterNo, DomainError, DomainTable, FailoverError, JoinError, Members, RetainError,
};
use ndc_event::{Name, OutOfMemory};
use ndc_graceful::{BeginError, Handover};
use ndc_letters::Letters;
use ndc_script_types::Header;
use std::alloc::Global;

/// The readers of a source note the domains whose record does not name them and does in another table. After want of memory
/// some have noted them.
fn note_late(
    alloc: Global,
    links: &mut Vec<Link>,
    source: ClusterNo,
    before: &DomainTable,
    after: &DomainTable,
) -> Result<(), OutOfMemory>
    ensures { OnOk result (links.new.items ≡ map (with_late source before.now after.now) links.old.items) }
{
    for place in 0..links.len() {
        let link = &mut links[place];
        if link.source().number == source.number {
            link.note_late(alloc, before, after)?;
        }
    }
    Ok(())
}

/// A member notes as a reader that it comes late to a domain of a source. After want of memory it may not have noted it.
fn add_late(
    links: &mut Vec<Link>,
    source: ClusterNo,
    reader: ClusterNo,
    domain: &Name,
) -> Result<(), OutOfMemory>
    ensures { OnOk result (links.new.items ≡ map (with_late_domain reader source domain.now) links.old.items) }
{
    for place in 0..links.len() {
        let link = &mut links[place];
        if link.is(reader, source) {
            link.add_late(domain.try_copy()?)?;
        }
    }
    Ok(())
}

/// The table of a cluster merges another one, and counts the records that are added or changed; the readers that a domain
/// comes to name note it. Where the other one has nothing that it lacks, no memory is taken.
fn merge_into(
    alloc: Global,
    links: &mut Vec<Link>,
    cluster: ClusterNo,
    ours: &mut DomainTable,
    theirs: &DomainTable,
) -> Result<u64, OutOfMemory>
    ensures table { OnOk result (ours.new ≡ merged ours.old theirs.now) }
    ensures links { OnOk result (links.new.items ≡ map (with_late cluster ours.old (merged ours.old theirs.now)) links.old.items) }
    ensures count { IfOk result (λ count. count ≡ merge_count ours.old theirs.now) }
{
    let _ours = ours.records();
    let _theirs = theirs.records();
    if ours.lacks(theirs) {
        note_late(alloc, links, cluster, ours, theirs)?;
    }
    ours.merge(theirs)
}

impl<C: Cell + Drop> Replication<C> {
    /// Puts other letters in the place of a cluster's, which are given back. Takes no memory.
    pub fn replace_letters(&mut self, cluster: ClusterNo, letters: Letters) -> Letters
        requires { cluster.number < length self.old.clusters }
        ensures given { result ≡ (cluster_at cluster self.old).letters }
        ensures replaced { self.new ≡ with_letters cluster letters self.old }
    {
        let publisher = &mut self.publishers[cluster.number as usize];
        publisher.replace_letters(letters)
    }

    /// Registers a domain at a cluster, as [`DomainTable::register`] does; where it is refused, all stays as it was.
    pub fn register(
        &mut self,
        header: &Header,
        at: ClusterNo,
        domain: &Name,
        target: ClusterNo,
        days: u32,
        members: Members,
    ) -> Result<u64, DomainError>
        requires at { at.number < length self.old.clusters }
        requires members { All (λ member. member < count_of header.now.clusters) members }
        ensures answer { Gives register_error.Memory (λ version. (version, self.new)) result
            (table_changed at self.old (register_of header.now.clusters at domain.now target days members (cluster_at at self.old).table)) }
        ensures unchanged { OnErr result (self.new ≡ self.old) }
    {
        let publisher = &mut self.publishers[at.number as usize];
        publisher.register(&header.clusters, at, domain, target, days, members)
    }

    /// Replaces the days of a domain at a cluster, as [`DomainTable::retain`] does; where it is refused, all stays as it was.
    /// Takes no memory.
    pub fn retain(&mut self, at: ClusterNo, domain: &Name, days: u32) -> Result<u64, RetainError>
        requires at { at.number < length self.old.clusters }
        requires config { IfSome (record_of (cluster_at at self.old).table domain.now) (λ old. old.config < 10 ^ 12) }
        ensures answer { Answers (λ config. (config, self.new)) result (table_changed at self.old (retain_of at domain.now days (cluster_at at self.old).table)) }
        ensures unchanged { OnErr result (self.new ≡ self.old) }
    {
        let publisher = &mut self.publishers[at.number as usize];
        publisher.retain(at, domain, days)
    }

    /// Fails a domain over to the target at a cluster, as [`DomainTable::failover`] does; where it is refused, all stays as it
    /// was. Takes no memory.
    pub fn fail_over(
        &mut self,
        header: &Header,
        at: ClusterNo,
        domain: &Name,
        target: ClusterNo,
    ) -> Result<u64, FailoverError>
        requires { at.number < length self.old.clusters }
        ensures answer { Answers (λ version. (version, self.new)) result (table_changed at self.old (failover_of header.now.clusters domain.now target (cluster_at at self.old).table)) }
        ensures unchanged { OnErr result (self.new ≡ self.old) }
    {
        let publisher = &mut self.publishers[at.number as usize];
        publisher.fail_over(&header.clusters, domain, target)
    }

    /// Begins a handover of a domain at a cluster, as [`Handover::begin`] does; where it is refused, all stays as it was.
    pub fn begin_handover(
        &mut self,
        header: &Header,
        at: ClusterNo,
        domain: &Name,
        target: ClusterNo,
        places: Vec<u64>,
    ) -> Result<Handover, BeginError>
        requires { at.number < length self.old.clusters }
        ensures answer { Gives begin_error.Memory (λ handover. (handover, self.new)) result
            (table_changed at self.old (begin_of header.now.clusters at domain.now target places.items (cluster_at at self.old).table)) }
        ensures unchanged { OnErr result (self.new ≡ self.old) }
    {
        let publisher = &mut self.publishers[at.number as usize];
        publisher.begin_handover(&header.clusters, at, domain, target, places)
    }

    /// Adds one member to a domain at a cluster, as [`DomainTable::join`] does; the member notes as a reader that it comes late.
    /// Where it is refused, all stays as it was. After want of memory the member may not have noted it.
    pub fn join(
        &mut self,
        at: ClusterNo,
        domain: &Name,
        member: ClusterNo,
    ) -> Result<Result<(), JoinError>, OutOfMemory>
        requires at { at.number < length self.old.clusters }
        requires member { member.number < 8 }
        ensures answer { IfOk result (λ joined. Answers (λ _. self.new) joined (table_left at self.old (join_of at domain.now member (cluster_at at self.old).table))) }
        ensures unchanged { IfOk result (λ joined. OnErr joined (self.new ≡ self.old)) }
    {
        let publisher = &mut self.publishers[at.number as usize];
        if let Err(refused) = publisher.join(at, domain, member) {
            return Ok(Err(refused));
        }
        add_late(&mut self.links, at, member, domain)?;
        Ok(Ok(()))
    }

    /// A cluster merges the table of another one, and counts the records that are added or changed; the readers that a domain
    /// comes to name note it. Where the other table has nothing that its own lacks, no memory is taken.
    pub fn merge(
        &mut self,
        alloc: Global,
        to: ClusterNo,
        from: ClusterNo,
    ) -> Result<u64, OutOfMemory>
        requires to { to.number < length self.old.clusters }
        requires from { from.number < length self.old.clusters }
        requires apart { to.number ≢ from.number }
        ensures merged { OnOk result (self.new ≡ with_table to (merged (cluster_at to self.old).table (cluster_at from self.old).table) self.old) }
        ensures count { IfOk result (λ count. count ≡ merge_count (cluster_at to self.old).table (cluster_at from self.old).table) }
    {
        let none = DomainTable::new(alloc);
        let publisher = &mut self.publishers[to.number as usize];
        let mut ours = publisher.replace_table(none);
        let theirs = self.publishers[from.number as usize].table();
        let count = merge_into(alloc, &mut self.links, to, &mut ours, theirs)?;
        let publisher = &mut self.publishers[to.number as usize];
        publisher.replace_table(ours);
        Ok(count)
    }

    /// A cluster merges the record that another one has of a domain, where it has one; the readers that the domain comes to name
    /// note it.
    pub fn merge_record(
        &mut self,
        alloc: Global,
        to: ClusterNo,
        from: ClusterNo,
        domain: &Name,
    ) -> Result<(), OutOfMemory>
        requires to { to.number < length self.old.clusters }
        requires from { from.number < length self.old.clusters }
        ensures { OnOk result (self.new ≡ with_table to (merged (cluster_at to self.old).table (only_of (cluster_at from self.old).table domain.now)) self.old) }
    {
        let only = self.publishers[from.number as usize].table().only(domain)?;
        let none = DomainTable::new(alloc);
        let publisher = &mut self.publishers[to.number as usize];
        let mut ours = publisher.replace_table(none);
        merge_into(alloc, &mut self.links, to, &mut ours, &only)?;
        let publisher = &mut self.publishers[to.number as usize];
        publisher.replace_table(ours);
        Ok(())
    }
}
