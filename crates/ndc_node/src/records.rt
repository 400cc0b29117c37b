use crate::error::FrameError;
use crate::heard::Heard;
use crate::node::Node;
use ndc_domain::{ClusterNo, Clusters, DomainRecord, DomainTable};
use ndc_event::OutOfMemory;
use ndc_node_frames::{Records, ToldRecord, ToldRecords};
use std::alloc::{AllocError, AllocFailed};
use thiserror::Error;

/// Which rule a record of another node breaks, in the order in which it is tested.
#[derive(Clone, Copy, Debug, PartialEq, Eq, Error)]
pub enum RecordFault {
    #[error("the version of a record is above 10^13")]
    Version,
    #[error("a record was changed too often")]
    Config,
    #[error("a member of a record is no cluster")]
    UnknownMember,
    #[error("no cluster writes with the version of a record")]
    NoWriter,
    #[error("the cluster that writes with the version of a record is no member")]
    WriterNotMember,
}

/// The greatest version of a record, and the greatest number of its changes.
pub(crate) const MAX_VERSION: u64 = 10_000_000_000_000;

const MAX_CONFIG: u64 = 100_000;

/// Whether a record names a number that is no cluster's.
fn has_unknown_member(clusters: &Clusters, record: &DomainRecord) -> bool {
    for number in clusters.count()..8 {
        if record.members.has(ClusterNo { number }) {
            return true;
        }
    }
    false
}

/// The first rule that a record breaks.
pub(crate) fn record_fault(clusters: &Clusters, record: &DomainRecord) -> Option<RecordFault> {
    if MAX_VERSION < record.version {
        return Some(RecordFault::Version);
    }
    if MAX_CONFIG < record.config {
        return Some(RecordFault::Config);
    }
    if has_unknown_member(clusters, record) {
        return Some(RecordFault::UnknownMember);
    }
    match clusters.writer_of(record.version) {
        None => Some(RecordFault::NoWriter),
        Some(writer) if !record.members.has(writer) => Some(RecordFault::WriterNotMember),
        Some(_) => None,
    }
}

/// The first rule that one of the records breaks.
pub(crate) fn records_fault(clusters: &Clusters, told: &[ToldRecord]) -> Option<RecordFault> {
    for one in told {
        if let Some(fault) = record_fault(clusters, &one.record) {
            return Some(fault);
        }
    }
    None
}

/// Puts a record into a table, where its version is in range.
pub(crate) fn put_record(table: &mut DomainTable, record: DomainRecord) -> Result<(), OutOfMemory> {
    if MAX_VERSION < record.version {
        return Ok(());
    }
    table.put(record)
}

impl Node {
    /// Records are heard of a peer: they are merged, and it is kept whether the peer has the same as this node.
    pub(crate) fn hear_records(
        &mut self,
        from: ClusterNo,
        told: Records,
        heard: &mut Heard,
    ) -> Result<(), OutOfMemory> {
        let Records { records } = told;
        let mut theirs = DomainTable::new(self.alloc);
        for one in records.into_vec() {
            let ToldRecord { record } = one;
            put_record(&mut theirs, record)?;
        }
        if self.merge_records(&theirs)? {
            heard.changed = true;
        }
        if self.end_handovers_heard(&theirs) {
            heard.changed = true;
        }
        let is_same = self.table.same(&theirs);
        if let Some(peer) = self.peers.get_mut(from.number as usize) {
            heard.changed = heard.changed || peer.same_records != is_same;
            peer.same_records = is_same;
        }
        Ok(())
    }

    /// The records that this node tells: all, but those of domains of which it has begun a handover that is open.
    pub(crate) fn told_records(&self) -> Result<ToldRecords, OutOfMemory> {
        let mut told = Vec::new(self.alloc);
        for record in self.table.records() {
            if !self.hands_over(&record.name) {
                let record = record.try_copy()?;
                told.push(ToldRecord { record })?;
            }
        }
        Ok(ToldRecords::new(told))
    }
}
