use crate::node::Node;
use crate::past::Past;
use ndc_domain::ClusterNo;
use ndc_event::{Items, OutOfMemory};
use ndc_node_frames::{AskedGap, Body, Held, Records};
use ndc_resend::GapOf;

/// How many gaps are asked for at once.
const MAX_GAPS: usize = 64;

impl Node {
    /// What this node would say to another one now, as frames: what it polls, what it asks for, its records and reports where
    /// the other was not heard to have the same, and the handovers to it; where it is behind its past, the recall in place of
    /// the handovers. None for itself and for what is no cluster. Nothing changes.
    pub fn ask(&self, to: ClusterNo) -> Result<Vec<Items<u8>>, OutOfMemory> {
        let mut frames = Vec::new(self.alloc);
        if to.number == self.me.number || self.clusters.count() <= to.number {
            return Ok(frames);
        }
        if let Some(poll) = self.poll_of(to)? {
            frames.push(self.frame(to, Body::Poll(poll))?)?;
        }
        self.ask_for_gaps(to, &mut frames)?;
        self.tell_records(to, &mut frames)?;
        self.tell_reports(to, &mut frames)?;
        if self.past == Past::Whole {
            self.tell_handovers(to, &mut frames)?;
        } else {
            self.ask_for_recall(to, &mut frames)?;
        }
        Ok(frames)
    }

    /// Asks for the gaps before what is put off, where the other node is a member of the domain.
    fn ask_for_gaps(&self, to: ClusterNo, frames: &mut Vec<Items<u8>>) -> Result<(), OutOfMemory> {
        let mut left = MAX_GAPS;
        for seat in self.seats.as_slice() {
            for gap in seat.cell.gaps()? {
                if left == 0 {
                    return Ok(());
                }
                if self.names(to, &gap.domain) {
                    frames.push(self.gap_frame(to, gap)?)?;
                    left -= 1;
                }
            }
        }
        Ok(())
    }

    /// The frame that asks for a gap.
    fn gap_frame(&self, to: ClusterNo, gap: GapOf) -> Result<Items<u8>, OutOfMemory> {
        self.frame(to, Body::Gap(AskedGap { gap }))
    }

    /// Tells the records, where the other node was not heard to have the same.
    fn tell_records(&self, to: ClusterNo, frames: &mut Vec<Items<u8>>) -> Result<(), OutOfMemory> {
        let is_same = match self.peers.get(to.number as usize) {
            Some(peer) => peer.same_records,
            None => true,
        };
        if is_same {
            return Ok(());
        }
        let records = self.told_records()?;
        frames.push(self.frame(to, Body::Records(Records { records }))?)?;
        Ok(())
    }

    /// Tells the reports, where the other node was not heard to hold the same.
    fn tell_reports(&self, to: ClusterNo, frames: &mut Vec<Items<u8>>) -> Result<(), OutOfMemory> {
        let is_same = match self.peers.get(to.number as usize) {
            Some(peer) => peer.same_reports,
            None => true,
        };
        if is_same {
            return Ok(());
        }
        let reports = self.told_reports()?;
        frames.push(self.frame(to, Body::Progress(Held { reports }))?)?;
        Ok(())
    }

    /// Tells the handovers to the other node that are open.
    fn tell_handovers(
        &self,
        to: ClusterNo,
        frames: &mut Vec<Items<u8>>,
    ) -> Result<(), OutOfMemory> {
        for handover in self.open.as_slice() {
            if handover.to.number != to.number {
                continue;
            }
            if let Some(offer) = self.offer_of(handover)? {
                frames.push(self.frame(to, Body::Handover(offer))?)?;
            }
        }
        Ok(())
    }
}
