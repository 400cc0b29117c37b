use crate::error::CallError;
use crate::node::Node;
use crate::records::put_record;
use ndc_domain::DomainTable;
use ndc_event::{Name, OutOfMemory};
use ndc_model_cells::Message;
use ndc_node_store::UsedVersion;

/// Whether a node has all that it has given out.
#[derive(Clone, Copy, PartialEq, Eq)]
pub(crate) enum Past {
    /// Nothing tells that it lacks something.
    Whole,
    /// Another node knows more of it than itself. It writes nothing, and waits until all others have polled, so that the
    /// epoch under which it goes on is one that none of them knows.
    Behind,
    /// Its queues have a new epoch, and it asks all others for what it lacks. It writes nothing.
    Recalling,
}

/// The greatest epoch of a queue.
const MAX_EPOCH: u64 = 1_000_000_000_000;

impl Node {
    /// Whether another node may know more of what this one has given out than the node itself: it was loaded or found itself
    /// behind its past, and has not heard of all others since.
    pub(crate) fn may_lack_own(&self) -> bool {
        self.past != Past::Whole || self.is_awaiting()
    }

    /// Whether another node has to poll before this one writes.
    pub(crate) fn is_awaiting(&self) -> bool {
        self.peers.iter().any(|peer| peer.is_awaited)
    }

    /// The node finds itself behind its past: all others are to poll again. Takes no memory.
    pub(crate) fn fall_behind(&mut self) {
        if self.past == Past::Behind {
            return;
        }
        self.past = Past::Behind;
        self.await_all();
    }

    /// All other nodes are to poll before this one writes. Of which domains it has come to have all is not kept in mind any
    /// more, since some of that may be lost: where others hold it late, it asks for them again. Takes no memory.
    pub(crate) fn await_all(&mut self) {
        let me = self.me.number as usize;
        for place in 0..self.peers.len() {
            if place != me {
                if let Some(peer) = self.peers.get_mut(place) {
                    peer.is_awaited = true;
                    peer.has_all.clear();
                }
            }
        }
    }

    /// Where the node is behind its past and all others have polled, its queues get an epoch that none of them has told, and
    /// the recall begins. Takes no memory.
    pub(crate) fn begin_recall_if_due(&mut self) {
        if self.past != Past::Behind || self.is_awaiting() {
            return;
        }
        let epoch = self.newest_epoch();
        if MAX_EPOCH <= epoch {
            return;
        }
        for seat in self.seats.as_mut_slice() {
            seat.begin_epoch(epoch + 1);
        }
        for peer in self.peers.as_mut_slice() {
            peer.begin_recall();
        }
        self.past = Past::Recalling;
    }

    /// The greatest epoch of the node's queues that it has, or was told of.
    fn newest_epoch(&self) -> u64 {
        let mut newest = self.newest;
        for seat in self.seats.as_slice() {
            newest = newest.max(seat.levels.epoch());
        }
        newest
    }

    /// Whether this cluster writes with a version.
    pub(crate) fn is_own(&self, version: u64) -> bool {
        self.clusters.writer_of(version) == Some(self.me)
    }

    /// The greatest version of its own with which the node may have written to a domain before it lost something.
    fn used_version(&self, domain: &Name) -> Option<u64> {
        let used = self.used.iter().find(|one| one.domain == *domain)?;
        Some(used.version)
    }

    /// Whether a batch of this version may be one that the node has written and lost.
    pub(crate) fn may_be_lost(&self, domain: &Name, version: u64) -> bool {
        if self.past == Past::Recalling {
            return true;
        }
        match self.used_version(domain) {
            Some(used) => self.is_own(version) && version <= used,
            None => false,
        }
    }

    /// The greatest version with which the node may have written to a domain before it lost something, where it would not
    /// write with a greater one now.
    pub(crate) fn used_here(&self, domain: &Name) -> Option<u64> {
        let record = self.table.find(domain)?;
        let used = self.used_version(domain)?;
        if self.is_own(record.version) && record.version <= used {
            Some(used)
        } else {
            None
        }
    }

    /// Refused where the node writes to a domain only once it has failed over to itself there.
    pub(crate) fn writes_anew<E>(&self, domain: &Name) -> Result<(), CallError<E>> {
        if self.used_here(domain).is_some() {
            return Err(CallError::NeedsFailover);
        }
        Ok(())
    }

    /// The records of the domains to which the node may write with a version that it has not used before. None where these
    /// are all.
    pub(crate) fn unused_records(&self) -> Result<Option<DomainTable>, OutOfMemory> {
        if self.used.is_empty() {
            return Ok(None);
        }
        let mut table = DomainTable::new(self.alloc);
        for record in self.table.records() {
            if self.used_here(&record.name).is_none() {
                put_record(&mut table, record.try_copy()?)?;
            }
        }
        Ok(Some(table))
    }

    /// Notes for each domain with which versions of its own the node may have written before it lost something.
    pub(crate) fn note_used(&mut self) -> Result<(), OutOfMemory> {
        let names = self.domains_held()?;
        for name in names.as_slice() {
            let greatest = self.greatest_own(name)?;
            if let Some(version) = greatest {
                self.note_used_version(name, version)?;
            }
        }
        Ok(())
    }

    /// Notes a version that may have been used.
    fn note_used_version(&mut self, domain: &Name, version: u64) -> Result<(), OutOfMemory> {
        for used in self.used.as_mut_slice() {
            if used.domain == *domain {
                used.version = used.version.max(version);
                return Ok(());
            }
        }
        let domain = domain.try_copy()?;
        self.used.push(UsedVersion { domain, version })?;
        Ok(())
    }

    /// The greatest version of its own that the node knows of a domain: that of its record, and of all that has arrived.
    fn greatest_own(&self, domain: &Name) -> Result<Option<u64>, OutOfMemory> {
        let mut greatest = None;
        if let Some(record) = self.table.find(domain) {
            if self.is_own(record.version) {
                greatest = Some(record.version);
            }
        }
        for seat in self.seats.as_slice() {
            for message in seat.arrived_of(domain)? {
                greatest = greatest.max(self.greatest_own_of(&message));
            }
        }
        Ok(greatest)
    }

    /// The greatest version of its own on the path to a batch.
    fn greatest_own_of(&self, message: &Message) -> Option<u64> {
        let mut greatest = None;
        for item in message.history.items() {
            if self.is_own(item.version) {
                greatest = greatest.max(Some(item.version));
            }
        }
        greatest
    }

    /// The domains that the node has a record of, or of which something has arrived, in order, each once.
    pub(crate) fn domains_held(&self) -> Result<Vec<Name>, OutOfMemory> {
        let mut names = self.table.names()?;
        for seat in self.seats.as_slice() {
            for (domain, _) in seat.cell.workflows()? {
                names.push(domain)?;
            }
            for message in seat.put_off.as_slice() {
                names.push(message.batch.domain.try_copy()?)?;
            }
        }
        names.sort()?;
        names.dedup();
        Ok(names)
    }
}
