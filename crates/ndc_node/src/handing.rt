use crate::error::{CallError, HandError};
use crate::heard::Heard;
use crate::node::Node;
use crate::peer::has_name;
use crate::records::put_record;
use ndc_domain::{ClusterNo, DomainTable};
use ndc_event::{Name, OutOfMemory};
use ndc_graceful::{BeginError, Handover, Places, ReadyError};
use ndc_node_frames::{Offer, Promised, PromisedList, ToldRecord};
use std::alloc::Global;

/// How many handovers to a node may be open at once.
const MAX_OFFERS: usize = 10_000;

impl Node {
    /// Whether a handover of a domain was begun here and is open.
    pub(crate) fn hands_over(&self, domain: &Name) -> bool {
        self.open.iter().any(|one| one.domain == *domain)
    }

    /// Whether a handover of a domain to this node was told.
    pub(crate) fn is_offered(&self, domain: &Name) -> bool {
        self.offers.iter().any(|one| one.domain == *domain)
    }

    /// Begins to hand a domain over: this node writes nothing more to it, and the version that the target is to have. The
    /// target becomes active by its own `complete`. Refused where a handover of the domain is open, and as
    /// [`Handover::begin`] refuses it.
    pub fn handover(
        &mut self,
        domain: &Name,
        target: ClusterNo,
    ) -> Result<u64, CallError<HandError>> {
        self.begin_writing()?;
        let version = self.handed(domain, target);
        self.end(version)
    }

    /// The handover is begun.
    fn handed(&mut self, domain: &Name, target: ClusterNo) -> Result<u64, CallError<HandError>> {
        if self.hands_over(domain) {
            return Err(CallError::Refused(HandError::StillOpen));
        }
        let places = self.queue_ends()?;
        self.open.reserve(1)?;
        let (me, clusters) = (self.me, &self.clusters);
        match Handover::begin(&mut self.table, clusters, me, domain, target, places) {
            Ok(handover) => {
                let version = handover.new;
                self.open.push_reserved(handover);
                self.records_changed();
                Ok(version)
            }
            Err(BeginError::Memory) => Err(CallError::Memory),
            Err(error) => Err(CallError::Refused(HandError::Begin(error))),
        }
    }

    /// How many entries each queue has, by shard.
    fn queue_ends(&self) -> Result<Vec<u64>, OutOfMemory> {
        let mut ends = Vec::new(self.alloc);
        for seat in self.seats.as_slice() {
            ends.push(seat.queue.len())?;
        }
        Ok(ends)
    }

    /// The handovers end that were begun here of a domain whose record here has come to a greater version, by whatever call.
    pub(crate) fn end_overtaken_handovers(&mut self) {
        let table = &self.table;
        self.open.retain(|one| match table.find(&one.domain) {
            Some(record) => record.version <= one.new,
            None => true,
        });
    }

    /// The handovers end of which another node's records tell the new version: whether there is one.
    pub(crate) fn end_handovers_heard(&mut self, theirs: &DomainTable) -> bool {
        let before = self.open.len();
        self.open.retain(|one| match theirs.find(&one.domain) {
            Some(record) => record.version < one.new,
            None => true,
        });
        self.open.len() < before
    }

    /// What this node tells the target of a handover that it has begun.
    pub(crate) fn offer_of(&self, handover: &Handover) -> Result<Option<Offer>, OutOfMemory> {
        let Some(record) = self.table.find(&handover.domain) else {
            return Ok(None);
        };
        let late = match self.peers.get(handover.to.number as usize) {
            Some(peer) => has_name(peer.owes.as_slice(), &handover.domain),
            None => false,
        };
        Ok(Some(Offer {
            domain: handover.domain.try_copy()?,
            old: handover.old,
            new: handover.new,
            places: self.promised(handover.places.as_slice())?,
            late,
            record: ToldRecord {
                record: record.try_copy()?,
            },
        }))
    }

    /// Places in the queues of the shards, each with the epoch of its queue.
    fn promised(&self, places: &[u64]) -> Result<PromisedList, OutOfMemory> {
        let mut promised = Vec::new(self.alloc);
        for (seat, place) in self.seats.as_slice().iter().zip(places.iter()) {
            promised.push(Promised {
                epoch: seat.levels.epoch(),
                place: *place,
            })?;
        }
        Ok(PromisedList::new(promised))
    }

    /// A handover that was begun here and lost comes back from its target: it is open again, and its record is merged, where
    /// the record of the domain has not come to its version. Its places are told anew once the recall has ended.
    pub(crate) fn open_again(&mut self, from: ClusterNo, offer: &Offer) -> Result<(), OutOfMemory> {
        let has_come = match self.table.find(&offer.domain) {
            Some(record) => offer.new <= record.version,
            None => false,
        };
        if has_come {
            return Ok(());
        }
        let mut theirs = DomainTable::new(self.alloc);
        put_record(&mut theirs, offer.record.record.try_copy()?)?;
        self.merge_records(&theirs)?;
        let handover = Handover {
            domain: offer.domain.try_copy()?,
            from: self.me,
            to: from,
            old: offer.old,
            new: offer.new,
            places: Places::new(self.queue_ends()?),
        };
        self.open.push(handover)?;
        self.records_changed();
        Ok(())
    }

    /// The handovers that are open promise all that the queues have now, under their present epochs.
    pub(crate) fn promise_anew(&mut self) -> Result<(), OutOfMemory> {
        for place in 0..self.open.len() {
            let ends = self.queue_ends()?;
            if let Some(handover) = self.open.get_mut(place) {
                handover.places = Places::new(ends);
            }
        }
        Ok(())
    }

    /// The handovers to this node that a cluster has begun.
    pub(crate) fn offers_of(&self, source: ClusterNo) -> Result<Vec<Offer>, OutOfMemory> {
        let mut offers = Vec::new(self.alloc);
        for offer in self.offers.as_slice() {
            if self.clusters.writer_of(offer.old) == Some(source) {
                offers.push(copy_offer(self.alloc, offer)?)?;
            }
        }
        Ok(offers)
    }

    /// A handover to this node is heard: it is kept until it is completed, where the record has not come to its version. Of
    /// two of one domain the one with the greater version is kept, and then the one of the later epoch.
    pub(crate) fn hear_offer(
        &mut self,
        offer: Offer,
        heard: &mut Heard,
    ) -> Result<(), OutOfMemory> {
        if !self.is_open(&offer) {
            return Ok(());
        }
        self.offers.retain(|one| one.domain != offer.domain);
        heard.changed = true;
        if MAX_OFFERS <= self.offers.len() {
            let table = &self.table;
            self.offers.retain(|one| match table.find(&one.domain) {
                Some(record) => record.version < one.new,
                None => true,
            });
        }
        if MAX_OFFERS <= self.offers.len() {
            heard.is_full = true;
            return Ok(());
        }
        self.offers.push(offer)?;
        Ok(())
    }

    /// Whether a handover is one from this cluster to this node, with the record of its domain and version.
    pub(crate) fn is_offer_to_me(&self, from: ClusterNo, offer: &Offer) -> bool {
        let record = &offer.record.record;
        self.clusters.writer_of(offer.old) == Some(from)
            && self.clusters.writer_of(offer.new) == Some(self.me)
            && record.version == offer.new
            && record.name == offer.domain
    }

    /// Whether a handover is one from this node to this cluster, with the record of its domain and version.
    pub(crate) fn is_offer_of_mine(&self, to: ClusterNo, offer: &Offer) -> bool {
        let record = &offer.record.record;
        self.is_own(offer.old)
            && self.clusters.writer_of(offer.new) == Some(to)
            && record.version == offer.new
            && record.name == offer.domain
    }

    /// Whether the record of the domain has not come to the version of a handover, and no later one of the domain is kept.
    fn is_open(&self, offer: &Offer) -> bool {
        let has_come = match self.table.find(&offer.domain) {
            Some(record) => offer.new <= record.version,
            None => false,
        };
        let kept = self.offers.iter().find(|one| one.domain == offer.domain);
        let is_earlier = match kept {
            Some(kept) => {
                offer.new < kept.new || offer.new == kept.new && epoch_of(offer) < epoch_of(kept)
            }
            None => false,
        };
        !has_come && !is_earlier
    }

    /// Completes a handover that was told to this node: it becomes the active cluster of the domain, with the version that
    /// is answered. Refused with [`HandError::NoHandover`] where none was told, and with [`HandError::Ready`]: its record
    /// has come to the version already; it is late in the domain; it has not learned all that was
    /// written with the old version.
    pub fn complete(&mut self, domain: &Name) -> Result<u64, CallError<HandError>> {
        self.begin_writing()?;
        let version = self.completed(domain);
        self.end(version)
    }

    /// The handover is completed.
    fn completed(&mut self, domain: &Name) -> Result<u64, CallError<HandError>> {
        let Some(place) = self.offers.iter().position(|one| one.domain == *domain) else {
            return Err(CallError::Refused(HandError::NoHandover));
        };
        if let Err(error) = self.is_ready(place) {
            return Err(CallError::Refused(HandError::Ready(error)));
        }
        let mut theirs = DomainTable::new(self.alloc);
        if let Some(offer) = self.offers.get(place) {
            put_record(&mut theirs, offer.record.record.try_copy()?)?;
        }
        self.merge_records(&theirs)?;
        self.offers.retain(|one| one.domain != *domain);
        match self.table.find(domain) {
            Some(record) => Ok(record.version),
            None => Ok(0),
        }
    }

    /// Whether the handover at a place can be completed.
    fn is_ready(&self, place: usize) -> Result<(), ReadyError> {
        let Some(offer) = self.offers.get(place) else {
            return Ok(());
        };
        if let Some(record) = self.table.find(&offer.domain) {
            if offer.new <= record.version {
                return Err(ReadyError::Overtaken {
                    version: record.version,
                });
            }
        }
        let Some(source) = self.clusters.writer_of(offer.old) else {
            return Err(ReadyError::BootstrapDue);
        };
        let Some(peer) = self.peers.get(source.number as usize) else {
            return Err(ReadyError::BootstrapDue);
        };
        let has_all = has_name(peer.has_all.as_slice(), &offer.domain);
        if peer.lack(&offer.domain).is_some() || offer.late && !has_all {
            return Err(ReadyError::BootstrapDue);
        }
        self.has_read(source, offer)
    }

    /// Whether the node is done with each queue of a source up to what a handover promises, under the epoch of the promise: a
    /// source whose queues have another one promises anew.
    fn has_read(&self, source: ClusterNo, offer: &Offer) -> Result<(), ReadyError> {
        let Some(peer) = self.peers.get(source.number as usize) else {
            return Ok(());
        };
        let mut shard: u64 = 0;
        for (promised, lane) in offer.places.as_slice().iter().zip(peer.lanes.iter()) {
            let done = lane.read().done();
            let is_there = lane.read().epoch() == promised.epoch && promised.place <= done;
            if !is_there {
                return Err(ReadyError::NotYet {
                    shard,
                    done,
                    place: promised.place,
                });
            }
            shard = shard.saturating_add(1);
        }
        Ok(())
    }
}

/// The epoch under which a handover promises: that of the first shard's queue, since those of all shards begin together.
fn epoch_of(offer: &Offer) -> u64 {
    match offer.places.as_slice().first() {
        Some(promised) => promised.epoch,
        None => 0,
    }
}

/// The same handover.
pub(crate) fn copy_offer(alloc: Global, offer: &Offer) -> Result<Offer, OutOfMemory> {
    let mut places = Vec::new(alloc);
    places.extend_from_slice(offer.places.as_slice())?;
    Ok(Offer {
        domain: offer.domain.try_copy()?,
        old: offer.old,
        new: offer.new,
        places: PromisedList::new(places),
        late: offer.late,
        record: ToldRecord {
            record: offer.record.record.try_copy()?,
        },
    })
}
