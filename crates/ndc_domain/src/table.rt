ghost use Rattle.std.specs.Prelude.{◌≡◌, ◌↔◌, ◌^◌, ◌≤◌, IfOk, IfErr, IsTrue};
ghost use Rattle.ndc_domain.specs.Records.{Rise, failover_version_of};
ghost use Rattle.ndc_domain.specs.Outcome.{Answers};
ghost use Rattle.ndc_domain.specs.Places.{IsAt, IsGap};

use crate::clusters::{ClusterNo, Clusters};
use crate::members::Members;
use crate::merging::{merge_count, merged};
use crate::record::{DomainError, DomainRecord, FailoverError, JoinError, RetainError};
use ndc_event::{Name, OutOfMemory};
use std::alloc::Global;
use std::marker::Model;

/// The records that a cluster has of domains. Seen as their list in order of name, in which each
/// name stands once.
#[derive(Debug, Drop)]
pub struct DomainTable {
    records: Vec<DomainRecord>,
}

impl Model for DomainTable {
    ghost use Rattle.std.specs.Prelude.{List};
    ghost use Rattle.ndc_domain.specs.declared.record.DomainRecord.{DomainRecord};
    ghost use Rattle.ndc_domain.specs.Records.{IsTable};

    ghost Value = { List DomainRecord };

    ghost view = { λ table. table.records.items };

    ghost invariant = { λ table. IsTable table.records.items };
}

/// Where the record of a name stands, or where it would go.
pub(crate) fn place_of(records: &[DomainRecord], name: &Name) -> Result<usize, usize>
    requires { Rise records.now }
    ensures found { IfOk result (IsAt records.now name.now) }
    ensures absent { IfErr result (IsGap records.now name.now) }
{
    records.binary_search_by(|record| record.name.cmp(name))
}

/// The version that a failover to the target gives the record.
fn failover_version(
    clusters: &Clusters,
    target: ClusterNo,
    old: &DomainRecord,
) -> Result<u64, FailoverError>
    requires { old.now.version ≤ 10 ^ 13 }
    ensures version { Answers (λ version.
        version) result (failover_version_of clusters.now target old.now) }
    ensures most { IfOk result (λ version. version ≤ 10 ^ 13) }
{
    if clusters.count() <= target.number {
        return Err(FailoverError::UnknownTarget);
    }
    let Ok(version) = clusters.next_version(old.version, target) else {
        return Err(FailoverError::VersionLimit);
    };
    if !old.members.has(target) {
        return Err(FailoverError::NotMember);
    }
    Ok(version)
}

/// Whether the records are the same, one by one.
fn are_same(ours: &[DomainRecord], theirs: &[DomainRecord]) -> bool
    ensures { IsTrue result ↔ (ours.now ≡ theirs.now) }
{
    if ours.len() != theirs.len() {
        return false;
    }
    for place in 0..ours.len() {
        if !ours[place].is_same(&theirs[place]) {
            return false;
        }
    }
    true
}

impl DomainTable {
    ghost use Rattle.std.specs.Prelude.{false, true, ◌≡◌, ◌≢◌, ◌↔◌, ◌<◌, ◌≤◌, ◌^◌, [], All, IfOk, IfSome, IsTrue, OnErr, OnOk, option_copied};
    ghost use Rattle.ndc_domain.specs.Merge.{merged, merge_count};
    ghost use Rattle.ndc_event.specs.Outcome.{Gives};
    ghost use Rattle.ndc_domain.specs.declared.record.DomainError.TheVariants.{Memory};
    ghost use Rattle.ndc_domain.specs.Clusters.{count_of};
    ghost use Rattle.ndc_domain.specs.Records.{IsTable, put_record, record_of, register_of, retain_of, failover_of, join_of, names_of, only_of};
    ghost use Rattle.ndc_domain.specs.Outcome.{Answers};

    /// A table without a record. Takes no memory.
    pub fn new(alloc: Global) -> DomainTable
        ensures { result ≡ [] }
    {
        DomainTable {
            records: Vec::new(alloc),
        }
    }

    /// The record of this domain; none exactly where there is none. Takes no memory.
    pub fn find(&self, name: &Name) -> Option<&DomainRecord>
        ensures found { option_copied result ≡ record_of self.now name.now }
        ensures table { IsTable self.now }
    {
        match place_of(self.records.as_slice(), name) {
            Ok(place) => Some(&self.records[place]),
            Err(_) => None,
        }
    }

    /// The records, in order of name. Takes no memory.
    pub fn records(&self) -> &[DomainRecord]
        ensures records { result.now ≡ self.now }
        ensures table { IsTable self.now }
    {
        self.records.as_slice()
    }

    /// Whether both tables hold the same records. Takes no memory.
    pub fn same(&self, other: &DomainTable) -> bool
        ensures { IsTrue result ↔ (self.now ≡ other.now) }
    {
        are_same(self.records.as_slice(), other.records.as_slice())
    }

    /// Registers a domain at cluster `at`, with the first version of the target, which it answers,
    /// config version 0 and these days and members. Refused with [`DomainError::NotPrimary`] where
    /// `at` is not cluster 0, then [`DomainError::DomainExists`] where there is a record of the
    /// name, [`DomainError::UnknownTarget`] where the target is not below the count of the
    /// clusters, and [`DomainError::NotMember`] where it is not a member. [`DomainError::Memory`]
    /// where memory runs out. Where it is refused, the table stays as it was. The members given are
    /// below the count of the clusters.
    pub fn register(
        &mut self,
        clusters: &Clusters,
        at: ClusterNo,
        name: &Name,
        target: ClusterNo,
        days: u32,
        members: Members,
    ) -> Result<u64, DomainError>
        requires { All (λ member. member < count_of clusters.now) members }
        ensures answer { Gives Memory (λ version. (version, self.new)) result
            (register_of clusters.now at name.now target days members self.old) }
        ensures unchanged { OnErr result (self.new ≡ self.old) }
    {
        if at.number != 0 {
            return Err(DomainError::NotPrimary);
        }
        let Err(place) = place_of(self.records.as_slice(), name) else {
            return Err(DomainError::DomainExists);
        };
        if clusters.count() <= target.number {
            return Err(DomainError::UnknownTarget);
        }
        if !members.has(target) {
            return Err(DomainError::NotMember);
        }
        let version = clusters.first_version(target);
        let name = name.try_copy()?;
        let record = DomainRecord {
            name,
            version,
            config: 0,
            days,
            members,
        };
        self.records.insert(place, record)?;
        Ok(version)
    }

    /// Puts a record at its place, instead of the one of its name where there is one. Where memory runs out, the table stays
    /// as it was. The record's version is at most 10^13.
    pub fn put(&mut self, new: DomainRecord) -> Result<(), OutOfMemory>
        requires { new.version ≤ 10 ^ 13 }
        ensures put { OnOk result (self.new ≡ put_record new self.old) }
        ensures unchanged { OnErr result (self.new ≡ self.old) }
    {
        // That its members are in order is told by each of their calls.
        new.members.has(ClusterNo { number: 0 });
        match place_of(self.records.as_slice(), &new.name) {
            Ok(place) => {
                self.records[place] = new;
            }
            Err(place) => {
                self.records.insert(place, new)?;
            }
        }
        Ok(())
    }

    /// Replaces the days of a domain at cluster `at`, and answers the record's config version,
    /// which rises by 1. Refused with [`RetainError::NotPrimary`] where `at` is not cluster 0, then
    /// [`RetainError::UnknownDomain`] where there is no record of the name. Where it is refused,
    /// the table stays as it was. Takes no memory. The record's config version, where there is one,
    /// is below 10^12.
    pub fn retain(&mut self, at: ClusterNo, name: &Name, days: u32) -> Result<u64, RetainError>
        requires { IfSome (record_of self.old name.now) (λ old. old.config < 10 ^ 12) }
        ensures answer { Answers (λ config. (config, self.new)) result
            (retain_of at name.now days self.old) }
        ensures unchanged { OnErr result (self.new ≡ self.old) }
    {
        if at.number != 0 {
            return Err(RetainError::NotPrimary);
        }
        let Ok(place) = place_of(self.records.as_slice(), name) else {
            return Err(RetainError::UnknownDomain);
        };
        let record = &mut self.records[place];
        record.config += 1;
        record.days = days;
        Ok(record.config)
    }

    /// Fails a domain over to the target: its version becomes the target's next one, which is
    /// answered. Refused with [`FailoverError::UnknownDomain`] where there is no record of the
    /// name, then [`FailoverError::UnknownTarget`] where the target is not below the count of the
    /// clusters, [`FailoverError::VersionLimit`] where the version would be above 10^13, and
    /// [`FailoverError::NotMember`] where the record does not name the target. Where it is refused,
    /// the table stays as it was. Takes no memory.
    pub fn failover(
        &mut self,
        clusters: &Clusters,
        name: &Name,
        target: ClusterNo,
    ) -> Result<u64, FailoverError>
        ensures answer { Answers (λ version. (version, self.new)) result
            (failover_of clusters.now name.now target self.old) }
        ensures unchanged { OnErr result (self.new ≡ self.old) }
    {
        let Ok(place) = place_of(self.records.as_slice(), name) else {
            return Err(FailoverError::UnknownDomain);
        };
        let version = failover_version(clusters, target, &self.records[place])?;
        let record = &mut self.records[place];
        record.version = version;
        Ok(version)
    }

    /// Adds one member to a domain at cluster `at`, and changes nothing else. Refused with
    /// [`JoinError::NotPrimary`] where `at` is not cluster 0, then [`JoinError::UnknownDomain`]
    /// where there is no record of the name, and [`JoinError::MemberExists`] where the record names
    /// the cluster. Where it is refused, the table stays as it was. Takes no memory. The member's
    /// number is below 8.
    pub fn join(&mut self, at: ClusterNo, name: &Name, member: ClusterNo) -> Result<(), JoinError>
        requires { member.number < 8 }
        ensures answer { Answers (λ _. self.new) result (join_of at name.now member self.old) }
        ensures unchanged { OnErr result (self.new ≡ self.old) }
    {
        if at.number != 0 {
            return Err(JoinError::NotPrimary);
        }
        let Ok(place) = place_of(self.records.as_slice(), name) else {
            return Err(JoinError::UnknownDomain);
        };
        let record = &mut self.records[place];
        if record.members.has(member) {
            return Err(JoinError::MemberExists);
        }
        record.members = record.members.with(member);
        Ok(())
    }

    /// Whether the other table has anything that this one has not: merging it changes this one exactly then. Takes no memory.
    pub fn lacks(&self, other: &DomainTable) -> bool
        ensures nothing { result ≡ false → merged self.now other.now ≡ self.now }
        ensures something { result ≡ true → merged self.now other.now ≢ self.now }
    {
        let count = merge_count(self.records.as_slice(), other.records.as_slice());
        if count == 0 {
            return false;
        }
        true
    }

    /// Takes what the other table has and this one has not, and answers how many records were added
    /// or changed. A missing record is taken whole. Of two records of one domain the greater
    /// failover version and the greater config version with its days are kept, and the members of
    /// both. Where memory runs out, the table stays as it was.
    pub fn merge(&mut self, other: &DomainTable) -> Result<u64, OutOfMemory>
        ensures merged { OnOk result (self.new ≡ merged self.old other.now) }
        ensures count { IfOk result (λ count. count ≡ merge_count self.old other.now) }
        ensures unchanged { OnErr result (self.new ≡ self.old) }
    {
        let count = merge_count(self.records.as_slice(), other.records.as_slice());
        if count == 0 {
            return Ok(0);
        }
        let records = merged(
            *self.records.allocator(),
            self.records.as_slice(),
            other.records.as_slice(),
        )?;
        self.records = records;
        Ok(count)
    }

    /// The names of the domains, ascending.
    pub fn names(&self) -> Result<Vec<Name>, OutOfMemory>
        ensures { IfOk result (λ names. names.items ≡ names_of self.now) }
    {
        let mut names = Vec::with_capacity(*self.records.allocator(), self.records.len())?;
        for record in self.records.as_slice() {
            names.push(record.name.try_copy()?)?;
        }
        Ok(names)
    }

    /// The table with the record of this domain alone; without a record where there is none.
    pub fn only(&self, name: &Name) -> Result<DomainTable, OutOfMemory>
        ensures { IfOk result (λ table. table ≡ only_of self.now name.now) }
    {
        let mut records = Vec::new(*self.records.allocator());
        if let Ok(place) = place_of(self.records.as_slice(), name) {
            records.push(self.records[place].try_copy()?)?;
        }
        Ok(DomainTable { records })
    }

    /// The same table.
    pub fn try_copy(&self) -> Result<DomainTable, OutOfMemory>
        ensures { IfOk result (λ copy. copy ≡ self.now) }
    {
        let mut records = Vec::with_capacity(*self.records.allocator(), self.records.len())?;
        for record in self.records.as_slice() {
            records.push(record.try_copy()?)?;
        }
        Ok(DomainTable { records })
    }
}
