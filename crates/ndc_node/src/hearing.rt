use crate::error::FrameError;
use crate::framing::is_same_header;
use crate::heard::Heard;
use crate::node::Node;
use crate::records::{record_fault, records_fault};
use ndc_domain::{ClusterNo, DomainRecord};
use ndc_event::OutOfMemory;
use ndc_node_frames::{Body, Frame, Offer, ToldRecord, read_frame};

impl Node {
    ghost use Rattle.std.specs.Prelude.{◌≡◌, ◌≢◌, IfErr, OnErr};
    ghost use Rattle.ndc_node.specs.declared.error.FrameError.TheVariants.{Memory};

    /// Hears a frame: what came of it, and what is to be answered to who sent it. Nothing is asked of the bytes. But for want
    /// of memory nothing has changed after an error.
    pub fn hear(&mut self, bytes: &[u8]) -> Result<Heard, FrameError>
        ensures unchanged { IfErr result (λ why. why ≢ Memory → self.new ≡ self.old) }
    {
        let (from, body) = self.read(bytes)?;
        self.begin_hearing()?;
        let heard = self.hear_body(from, body)?;
        self.is_spent = false;
        Ok(heard)
    }

    /// Begins to hear a frame: until it is heard, the node counts as spent.
    fn begin_hearing(&mut self) -> Result<(), FrameError>
        ensures unchanged { OnErr result (self.new ≡ self.old) }
    {
        if self.is_spent {
            return Err(FrameError::Spent);
        }
        self.is_spent = true;
        Ok(())
    }

    /// Reads a frame, and tests that it is for this node, of its network, and speaks of its shards.
    fn read(&self, bytes: &[u8]) -> Result<(ClusterNo, Body), FrameError> {
        if self.is_spent {
            return Err(FrameError::Spent);
        }
        if self.bounds.frame < bytes.len() {
            return Err(FrameError::TooLong);
        }
        let frame = read_frame(self.alloc, bytes)?;
        let from = self.sender(&frame)?;
        self.fits(from, &frame.body)?;
        let Frame { body, .. } = frame;
        Ok((from, body))
    }

    /// Who sends a frame that is for this node, and of its network.
    fn sender(&self, frame: &Frame) -> Result<ClusterNo, FrameError> {
        match self.clusters.find(frame.to.as_bytes()) {
            Some(to) if to.number == self.me.number => {}
            _ => return Err(FrameError::OtherNode),
        }
        let Some(from) = self.clusters.find(frame.from.as_bytes()) else {
            return Err(FrameError::UnknownSender);
        };
        if from.number == self.me.number {
            return Err(FrameError::UnknownSender);
        }
        if !is_same_header(&self.clusters, self.shards, self.limit, &frame.header) {
            return Err(FrameError::OtherHeader);
        }
        Ok(from)
    }

    /// Tests what a frame says of shards, the handover in it, and the records.
    fn fits(&self, from: ClusterNo, body: &Body) -> Result<(), FrameError> {
        match body {
            Body::Poll(poll) => self.has_each_shard(poll.shards.as_slice().len()),
            Body::Entries(piece) if self.shards <= piece.shard => Err(FrameError::Shards),
            Body::Handover(offer) => {
                self.has_each_shard(offer.places.as_slice().len())?;
                if !self.is_offer_to_me(from, offer) {
                    return Err(FrameError::Handover);
                }
                self.has_no_fault(&offer.record.record)
            }
            Body::Records(told) => self.have_no_fault(told.records.as_slice()),
            Body::Recalled(piece) => {
                self.are_mine(from, piece.handovers.as_slice())?;
                self.have_no_fault(piece.records.as_slice())
            }
            _ => Ok(()),
        }
    }

    /// Tests that handovers are ones from this node to another one.
    fn are_mine(&self, to: ClusterNo, offers: &[Offer]) -> Result<(), FrameError> {
        for offer in offers {
            self.has_each_shard(offer.places.as_slice().len())?;
            if !self.is_offer_of_mine(to, offer) {
                return Err(FrameError::Handover);
            }
            self.has_no_fault(&offer.record.record)?;
        }
        Ok(())
    }

    /// Tests that a record breaks no rule.
    fn has_no_fault(&self, record: &DomainRecord) -> Result<(), FrameError> {
        match record_fault(&self.clusters, record) {
            Some(fault) => Err(FrameError::Record(fault)),
            None => Ok(()),
        }
    }

    /// Tests that records break no rule.
    fn have_no_fault(&self, records: &[ToldRecord]) -> Result<(), FrameError> {
        match records_fault(&self.clusters, records) {
            Some(fault) => Err(FrameError::Record(fault)),
            None => Ok(()),
        }
    }

    /// Tests that there is one thing for each shard.
    fn has_each_shard(&self, count: usize) -> Result<(), FrameError> {
        if count == self.shards as usize {
            Ok(())
        } else {
            Err(FrameError::Shards)
        }
    }

    /// Hears what a peer says.
    fn hear_body(&mut self, from: ClusterNo, body: Body) -> Result<Heard, OutOfMemory> {
        let mut heard = Heard::nothing(self.alloc);
        match body {
            Body::Poll(poll) => self.hear_poll(from, poll, &mut heard)?,
            Body::Entries(piece) => self.hear_entries(from, piece, &mut heard)?,
            Body::Records(told) => self.hear_records(from, told, &mut heard)?,
            Body::Handover(offer) => self.hear_offer(offer, &mut heard)?,
            Body::Gap(asked) => self.hear_gap(from, asked, &mut heard)?,
            Body::Served(served) => self.hear_served(from, served, &mut heard)?,
            Body::Bootstrap(piece) => self.hear_bootstrap(from, piece, &mut heard)?,
            Body::Progress(held) => self.hear_reports(from, held, &mut heard)?,
            Body::Recall(recall) => self.hear_recall(from, recall, &mut heard)?,
            Body::Recalled(piece) => self.hear_recalled(from, piece, &mut heard)?,
        }
        Ok(heard)
    }
}
