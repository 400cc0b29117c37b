ghost use Rattle.std.specs.Prelude.{◌<◌, All, IfOk};
ghost use Rattle.ndc_domain.specs.Clusters.{count_of};

use crate::error::CallError;
use crate::node::Node;
use crate::records::{MAX_VERSION, put_record};
use ndc_domain::{
    ClusterNo, Clusters, DomainError, DomainTable, FailoverError, JoinError, Members, RetainError,
};
use ndc_event::{Name, OutOfMemory};
use std::alloc::Global;

/// How often the configuration of a domain may change.
const MAX_CONFIG: u64 = 100_000;

/// Those of these members that are clusters, in order.
fn clusters_among(
    alloc: Global,
    clusters: &Clusters,
    members: Members,
) -> Result<Vec<ClusterNo>, OutOfMemory>
    ensures { IfOk result (λ list. All (λ one. one.number < count_of clusters.now) list.items) }
{
    let mut known = Vec::new(alloc);
    for number in 0..clusters.count() {
        let cluster = ClusterNo { number };
        if members.has(cluster) {
            known.push(cluster)?;
        }
    }
    Ok(known)
}

/// Those of these members that are clusters.
fn known_members(
    alloc: Global,
    clusters: &Clusters,
    members: Members,
) -> Result<Members, OutOfMemory>
    ensures { IfOk result (λ known. All (λ member. member < count_of clusters.now) known) }
{
    let list = clusters_among(alloc, clusters, members)?;
    let _count = clusters.count();
    Ok(Members::of(list.as_slice()))
}

impl Node {
    /// Registers a domain, as [`DomainTable::register`] does, at this cluster: the version of its record. Members that are
    /// no clusters are left out.
    pub fn register(
        &mut self,
        domain: &Name,
        target: ClusterNo,
        days: u32,
        members: Members,
    ) -> Result<u64, CallError<DomainError>> {
        self.begin_writing()?;
        let version = self.registered(domain, target, days, members);
        self.end(version)
    }

    /// The domain is registered.
    fn registered(
        &mut self,
        domain: &Name,
        target: ClusterNo,
        days: u32,
        members: Members,
    ) -> Result<u64, CallError<DomainError>> {
        let members = known_members(self.alloc, &self.clusters, members)?;
        let version = match self
            .table
            .register(&self.clusters, self.me, domain, target, days, members)
        {
            Ok(version) => version,
            Err(DomainError::Memory) => return Err(CallError::Memory),
            Err(error) => return Err(CallError::Refused(error)),
        };
        self.records_changed();
        Ok(version)
    }

    /// Changes a domain's retention in days at the primary cluster: the new config version of its record.
    pub fn retain(&mut self, domain: &Name, days: u32) -> Result<u64, CallError<RetainError>> {
        self.begin_writing()?;
        let config = self.retained(domain, days);
        self.end(config)
    }

    /// The retention is changed, where there is room for one more change.
    fn retained(&mut self, domain: &Name, days: u32) -> Result<u64, CallError<RetainError>> {
        if let Some(record) = self.table.find(domain) {
            if MAX_CONFIG <= record.config {
                return Err(CallError::Full);
            }
        }
        match self.table.retain(self.me, domain, days) {
            Ok(config) => {
                self.records_changed();
                Ok(config)
            }
            Err(error) => Err(CallError::Refused(error)),
        }
    }

    /// Makes a cluster a member of a domain at the primary cluster. It is late in the domain then: what was written before
    /// comes to it by bootstrap.
    pub fn join(&mut self, domain: &Name, member: ClusterNo) -> Result<(), CallError<JoinError>> {
        self.begin_writing()?;
        let joined = self.joined(domain, member);
        self.end(joined)
    }

    /// The cluster is a member, and late.
    fn joined(&mut self, domain: &Name, member: ClusterNo) -> Result<(), CallError<JoinError>> {
        if self.clusters.count() <= member.number {
            return Err(CallError::Full);
        }
        let before = self.table.try_copy()?;
        if let Err(error) = self.table.join(self.me, domain, member) {
            return Err(CallError::Refused(error));
        }
        self.note_members(&before)?;
        self.records_changed();
        Ok(())
    }

    /// Makes a cluster the active one of a domain: the new version of its record. Where this node may have used that version
    /// before it lost something, it is the next one of its own that it has not used.
    pub fn failover(
        &mut self,
        domain: &Name,
        target: ClusterNo,
    ) -> Result<u64, CallError<FailoverError>> {
        self.begin_writing()?;
        let version = self.failed_over(domain, target);
        self.end(version)
    }

    /// The cluster is the active one; a handover of the domain ends.
    fn failed_over(
        &mut self,
        domain: &Name,
        target: ClusterNo,
    ) -> Result<u64, CallError<FailoverError>> {
        let version = match self.table.failover(&self.clusters, domain, target) {
            Ok(version) => version,
            Err(error) => return Err(CallError::Refused(error)),
        };
        let version = self.renewed(domain)?.unwrap_or(version);
        self.end_overtaken_handovers();
        self.records_changed();
        Ok(version)
    }

    /// Where this node is the active cluster of a domain with a version that it may have used before, the record gets the next
    /// one of its own that it has not used: which. None where there is none up to the greatest version.
    fn renewed(&mut self, domain: &Name) -> Result<Option<u64>, OutOfMemory> {
        let Some(used) = self.used_here(domain) else {
            return Ok(None);
        };
        if MAX_VERSION <= used || self.clusters.count() <= self.me.number {
            return Ok(None);
        }
        let Ok(version) = self.clusters.next_version(used + 1, self.me) else {
            return Ok(None);
        };
        if let Some(record) = self.table.find(domain) {
            let mut record = record.try_copy()?;
            record.version = version;
            put_record(&mut self.table, record)?;
        }
        Ok(Some(version))
    }

    /// Merges records into those of the node. A node that a record comes to name is late in its domain.
    pub(crate) fn merge_records(&mut self, theirs: &DomainTable) -> Result<bool, OutOfMemory> {
        if !self.table.lacks(theirs) {
            return Ok(false);
        }
        let before = self.table.try_copy()?;
        self.table.merge(theirs)?;
        self.note_members(&before)?;
        self.note_own_membership(&before)?;
        self.end_overtaken_handovers();
        self.records_changed();
        Ok(true)
    }

    /// The other nodes that records have come to name since are late in their domains.
    pub(crate) fn note_members(&mut self, before: &DomainTable) -> Result<(), OutOfMemory> {
        let others = self.others()?;
        for peer in others.as_slice() {
            for old in before.records() {
                let names = match self.table.find(&old.name) {
                    Some(record) => record.members.has(*peer),
                    None => false,
                };
                if names && !old.members.has(*peer) {
                    self.owe(*peer, &old.name)?;
                }
            }
        }
        Ok(())
    }

    /// This node is late, at all others, in the domains in which records have come to name it since: it may have joined them,
    /// or have lost what it had of them.
    fn note_own_membership(&mut self, before: &DomainTable) -> Result<(), OutOfMemory> {
        let mut joined = Vec::new(self.alloc);
        for record in self.table.records() {
            let was_named = match before.find(&record.name) {
                Some(old) => old.members.has(self.me),
                None => false,
            };
            if record.members.has(self.me) && !was_named {
                joined.push(record.name.try_copy()?)?;
            }
        }
        let me = self.me.number as usize;
        for place in 0..self.peers.len() {
            match self.peers.get_mut(place) {
                Some(peer) if place != me => peer.fall_late(joined.as_slice())?,
                _ => {}
            }
        }
        Ok(())
    }

    /// A node is late in a domain.
    pub(crate) fn owe(&mut self, peer: ClusterNo, domain: &Name) -> Result<(), OutOfMemory> {
        match self.peers.get_mut(peer.number as usize) {
            Some(peer) => peer.owe(domain),
            None => Ok(()),
        }
    }

    /// The records are others than those that were told.
    pub(crate) fn records_changed(&mut self) {
        for peer in self.peers.as_mut_slice() {
            peer.same_records = false;
        }
    }
}
