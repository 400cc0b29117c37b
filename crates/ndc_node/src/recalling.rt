use crate::admitting::Came;
use crate::heard::Heard;
use crate::late::{Gathered, Wanted, is_same_place};
use crate::node::Node;
use crate::past::Past;
use crate::polling::copy_place;
use crate::records::put_record;
use ndc_domain::{ClusterNo, DomainTable};
use ndc_event::{Items, Name, OutOfMemory};
use ndc_model_cells::Message;
use ndc_node_frames::{
    Body, Messages, Offers, Place, Recall, Recalled, Spot, Text, ToldRecord, ToldRecords,
};
use ndc_node_messages::{MessageError, read_message};
use std::alloc::AllocError;

/// How far messages of a recall were taken.
#[derive(Drop)]
struct TakenUpTo {
    /// The place of the last one before the first that was not taken.
    spot: Option<Spot>,
    /// Whether each was taken.
    is_all: bool,
}

/// Whether two places are one.
fn is_same_spot(one: Option<&Spot>, two: Option<&Spot>) -> bool {
    match (one, two) {
        (None, None) => true,
        (Some(one), Some(two)) => {
            one.domain == two.domain && is_same_place(Some(&one.place), Some(&two.place))
        }
        _ => false,
    }
}

/// The same place.
pub(crate) fn copy_spot(spot: &Spot) -> Result<Spot, OutOfMemory> {
    Ok(Spot {
        domain: spot.domain.try_copy()?,
        place: copy_place(&spot.place)?,
    })
}

impl Node {
    /// Asks another node for all that it has of this cluster, from where it has come to. It is asked once it follows the new
    /// epoch: then it takes nothing any more that this node gave out under an older one.
    pub(crate) fn ask_for_recall(
        &self,
        to: ClusterNo,
        frames: &mut Vec<Items<u8>>,
    ) -> Result<(), OutOfMemory> {
        let Some(peer) = self.peers.get(to.number as usize) else {
            return Ok(());
        };
        if self.past != Past::Recalling || !peer.follows || peer.is_recalled {
            return Ok(());
        }
        let after = match &peer.spot {
            Some(spot) => Some(copy_spot(spot)?),
            None => None,
        };
        let largest = self.bounds.frame as u64;
        frames.push(self.frame(to, Body::Recall(Recall { largest, after }))?)?;
        Ok(())
    }

    /// A node asks for all that it has written: a piece of what this one has of it is answered, what is put off too; with the
    /// last one its records, and the handovers to it that the other has begun.
    pub(crate) fn hear_recall(
        &mut self,
        from: ClusterNo,
        recall: Recall,
        heard: &mut Heard,
    ) -> Result<(), OutOfMemory> {
        let Recall { largest, after } = recall;
        let gathered = self.gather_own(from, after.as_ref(), largest)?;
        let is_last = gathered.is_all;
        let piece = Recalled {
            after,
            messages: Messages::new(gathered.texts),
            last: is_last,
            records: self.records_if(is_last)?,
            handovers: self.offers_if(is_last, from)?,
        };
        let text = self.fitting(from, Body::Recalled(piece), largest)?;
        heard.answers.push(text)?;
        Ok(())
    }

    /// The records that this node tells, or none.
    fn records_if(&self, is_last: bool) -> Result<ToldRecords, OutOfMemory> {
        if is_last {
            self.told_records()
        } else {
            Ok(ToldRecords::new(Vec::new(self.alloc)))
        }
    }

    /// The handovers to this node that a cluster has begun, or none.
    fn offers_if(&self, is_last: bool, source: ClusterNo) -> Result<Offers, OutOfMemory> {
        if is_last {
            Ok(Offers::new(self.offers_of(source)?))
        } else {
            Ok(Offers::new(Vec::new(self.alloc)))
        }
    }

    /// The messages that have arrived of a cluster after a place, in order of domain, shard, workflow and key, as far as their
    /// texts have room, one at least.
    fn gather_own(
        &self,
        writer: ClusterNo,
        after: Option<&Spot>,
        largest: u64,
    ) -> Result<Gathered, OutOfMemory> {
        let mut gathered = Gathered::nothing(self.alloc);
        let names = self.domains_held()?;
        for domain in names.as_slice() {
            let place = match after {
                Some(spot) if *domain < spot.domain => continue,
                Some(spot) if *domain == spot.domain => Some(&spot.place),
                _ => None,
            };
            self.gather_own_of(&mut gathered, writer, domain, place, largest)?;
        }
        Ok(gathered)
    }

    /// Those of a domain.
    fn gather_own_of(
        &self,
        gathered: &mut Gathered,
        writer: ClusterNo,
        domain: &Name,
        place: Option<&Place>,
        largest: u64,
    ) -> Result<(), OutOfMemory> {
        let mut shard: u32 = 0;
        for seat in self.seats.as_slice() {
            let arrived = seat.arrived_of(domain)?;
            let written = self.written_by(writer, arrived)?;
            let wanted = Wanted {
                shard,
                place,
                unread: &[],
                largest,
            };
            self.gather_of(gathered, &wanted, written)?;
            shard = shard.saturating_add(1);
        }
        Ok(())
    }

    /// Those of the messages that a cluster has written.
    fn written_by(
        &self,
        writer: ClusterNo,
        messages: Vec<Message>,
    ) -> Result<Vec<Message>, OutOfMemory> {
        let mut written = Vec::new(self.alloc);
        for message in messages {
            if self.clusters.writer_of(message.batch.key.version) == Some(writer) {
                written.push(message)?;
            }
        }
        Ok(written)
    }

    /// A piece of what another node has of this cluster is heard: where it joins what came before, its messages are taken, and
    /// after the last one its records and handovers. When all others have sent their last piece, the recall ends. A piece that
    /// was not asked for is passed by.
    pub(crate) fn hear_recalled(
        &mut self,
        from: ClusterNo,
        piece: Recalled,
        heard: &mut Heard,
    ) -> Result<(), OutOfMemory> {
        let Recalled {
            after,
            messages,
            last,
            records,
            handovers,
        } = piece;
        if !self.is_next_recalled(from, after.as_ref()) {
            return Ok(());
        }
        heard.changed = true;
        let taken = self.take_recalled(from, messages.as_slice(), heard)?;
        self.merge_recalled(records.into_vec())?;
        for offer in handovers.as_slice() {
            self.open_again(from, offer)?;
        }
        self.note_recalled(from, last, taken);
        self.end_recall_if_due(heard)
    }

    /// Whether the node asks for what it lacks, and a piece from a place on is the next one of another node.
    fn is_next_recalled(&self, from: ClusterNo, after: Option<&Spot>) -> bool {
        let Some(peer) = self.peers.get(from.number as usize) else {
            return false;
        };
        self.past == Past::Recalling
            && peer.follows
            && !peer.is_recalled
            && is_same_spot(peer.spot.as_ref(), after)
    }

    /// Takes up messages that came for a recall: how far.
    fn take_recalled(
        &mut self,
        from: ClusterNo,
        messages: &[Text],
        heard: &mut Heard,
    ) -> Result<TakenUpTo, OutOfMemory> {
        let mut taken = TakenUpTo {
            spot: None,
            is_all: true,
        };
        for text in messages {
            if !taken.is_all {
                continue;
            }
            match self.take_recalled_text(from, text.as_slice(), heard)? {
                Some(spot) => taken.spot = Some(spot),
                None => taken.is_all = false,
            }
        }
        Ok(taken)
    }

    /// Takes up one: its place. None where it is to be asked for again, or is no message.
    fn take_recalled_text(
        &mut self,
        from: ClusterNo,
        text: &[u8],
        heard: &mut Heard,
    ) -> Result<Option<Spot>, OutOfMemory> {
        let message = match read_message(self.alloc, text) {
            Ok(message) => message,
            Err(MessageError::Memory) => return Err(AllocError),
            Err(_) => return Ok(None),
        };
        let domain = message.batch.domain.try_copy()?;
        let workflow = message.batch.workflow.try_copy()?;
        let key = message.batch.key;
        let shard = self.shard_of(&domain, &workflow);
        if self.take_message(from, None, text, message, heard)? == Came::Later {
            return Ok(None);
        }
        let place = Place {
            shard,
            workflow,
            key,
        };
        Ok(Some(Spot { domain, place }))
    }

    /// Merges the records that came for a recall.
    fn merge_recalled(&mut self, records: Vec<ToldRecord>) -> Result<(), OutOfMemory> {
        let mut theirs = DomainTable::new(self.alloc);
        for one in records {
            let ToldRecord { record } = one;
            put_record(&mut theirs, record)?;
        }
        self.merge_records(&theirs)?;
        self.end_handovers_heard(&theirs);
        Ok(())
    }

    /// It is kept how far another node has come with what it sends for the recall.
    fn note_recalled(&mut self, from: ClusterNo, last: bool, taken: TakenUpTo) {
        let TakenUpTo { spot, is_all } = taken;
        let Some(peer) = self.peers.get_mut(from.number as usize) else {
            return;
        };
        if last && is_all {
            peer.is_recalled = true;
        }
        if spot.is_some() {
            peer.spot = spot;
        }
    }

    /// Ends the recall where all other nodes have sent their last piece: it is noted with which versions the node may have
    /// written before, its open handovers promise anew, and letters are taken up again.
    fn end_recall_if_due(&mut self, heard: &mut Heard) -> Result<(), OutOfMemory> {
        let me = self.me.number as usize;
        for place in 0..self.peers.len() {
            match self.peers.get(place) {
                Some(peer) if place != me && !peer.is_recalled => return Ok(()),
                _ => {}
            }
        }
        self.note_used()?;
        self.promise_anew()?;
        self.past = Past::Whole;
        self.take_letters_again(heard)
    }
}
