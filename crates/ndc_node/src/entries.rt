use crate::admitting::Came;
use crate::heard::Heard;
use crate::lane::Last;
use crate::letter::LetterCause;
use crate::node::Node;
use ndc_domain::ClusterNo;
use ndc_event::{BatchKey, Name, OutOfMemory};
use ndc_node_frames::{Entries, Entry};
use ndc_node_lanes::{HearError, Told};
use ndc_node_messages::{MessageError, read_message};
use std::alloc::AllocError;

/// What of a piece of a queue was taken up.
#[derive(Drop)]
struct Taken {
    /// The entries, each with the batch that it brings.
    told: Vec<Told>,
    /// The place up to which they were taken.
    next: u64,
}

/// What of a piece of a queue a lane is told.
#[derive(Drop)]
struct Kept {
    /// The entries that are not learned.
    told: Vec<Told>,
    /// The place up to which they go.
    next: u64,
    /// The last entry, learned or not.
    last: Option<Last>,
    /// Whether entries were left out, since no more may be held.
    is_full: bool,
}

/// The key that stands for the batch of an entry whose text is that of no message: no message that is admitted has it, since
/// its task is too great.
const NO_KEY: BatchKey = BatchKey {
    version: 0,
    task: 1_000_000_000_000,
};

impl Node {
    /// A piece of a queue is heard of a source. A piece of an older epoch is passed by, and one before which entries were not
    /// told.
    pub(crate) fn hear_entries(
        &mut self,
        from: ClusterNo,
        piece: Entries,
        heard: &mut Heard,
    ) -> Result<(), OutOfMemory> {
        let Entries {
            shard,
            epoch,
            from: first,
            next,
            late,
            entries,
        } = piece;
        heard.changed = true;
        let late = self.known_late(late.as_slice())?;
        if let Some(peer) = self.peers.get_mut(from.number as usize) {
            peer.hold_late(late.as_slice())?;
        }
        if !self.follows(from, shard, epoch) || self.is_hole(from, shard, first) {
            return Ok(());
        }
        let taken = self.take_entries(from, shard, next, entries.into_vec(), heard)?;
        let kept = self.kept_of(from, shard, taken)?;
        heard.is_full = heard.is_full || kept.is_full;
        self.note_told(from, shard, first, kept)
    }

    /// Those of these domains whose records name this node, or which are handed over to it.
    fn known_late(&self, domains: &[Name]) -> Result<Vec<Name>, OutOfMemory> {
        let mut known = Vec::new(self.alloc);
        for domain in domains {
            if self.names(self.me, domain) || self.is_offered(domain) {
                known.push(domain.try_copy()?)?;
            }
        }
        Ok(known)
    }

    /// Whether entries of this epoch may be heard.
    fn follows(&mut self, from: ClusterNo, shard: u32, epoch: u64) -> bool {
        match self.peers.get_mut(from.number as usize) {
            None => false,
            Some(peer) => match peer.lanes.get_mut(shard as usize) {
                None => false,
                Some(lane) => lane.follows(epoch),
            },
        }
    }

    /// Whether entries from a place on leave out some before them that were not told.
    fn is_hole(&self, from: ClusterNo, shard: u32, first: u64) -> bool {
        let (read, _) = self.room_of(from, shard);
        read < first
    }

    /// Takes up the messages of entries in order, up to the first that is to be asked for again.
    fn take_entries(
        &mut self,
        from: ClusterNo,
        shard: u32,
        next: u64,
        entries: Vec<Entry>,
        heard: &mut Heard,
    ) -> Result<Taken, OutOfMemory> {
        let mut taken = Taken {
            told: Vec::new(self.alloc),
            next,
        };
        for entry in entries {
            let place = entry.place;
            match self.take_entry(from, shard, entry, heard)? {
                None => {
                    taken.next = place.min(next);
                    return Ok(taken);
                }
                Some(told) => taken.told.push(told)?,
            }
        }
        Ok(taken)
    }

    /// Takes up the message of an entry. None where it is to be asked for again.
    fn take_entry(
        &mut self,
        from: ClusterNo,
        shard: u32,
        entry: Entry,
        heard: &mut Heard,
    ) -> Result<Option<Told>, OutOfMemory> {
        let text = entry.message.as_slice();
        match read_message(self.alloc, text) {
            Ok(message) => {
                let told = Told {
                    place: entry.place,
                    domain: message.batch.domain.try_copy()?,
                    workflow: message.batch.workflow.try_copy()?,
                    key: message.batch.key,
                };
                let came = self.take_message(from, Some(shard), text, message, heard)?;
                Ok(unless_later(came, told))
            }
            Err(MessageError::Memory) => Err(AllocError),
            Err(error) => {
                let cause = LetterCause::Text(error);
                let came = self.set_aside(from, None, text, cause, heard)?;
                let name = Name::new(self.alloc, b"?");
                match name {
                    Ok(name) => Ok(unless_later(
                        came,
                        Told {
                            place: entry.place,
                            domain: name.try_copy()?,
                            workflow: name,
                            key: NO_KEY,
                        },
                    )),
                    Err(_) => Err(AllocError),
                }
            }
        }
    }

    /// Those of the entries whose batch is not learned, up to the first for which the lane has no room.
    fn kept_of(&self, from: ClusterNo, shard: u32, taken: Taken) -> Result<Kept, OutOfMemory> {
        let Taken { told, next } = taken;
        let (read, mut room) = self.room_of(from, shard);
        let mut kept = Kept {
            told: Vec::new(self.alloc),
            next,
            last: None,
            is_full: false,
        };
        for one in told {
            let last = Last {
                place: one.place,
                key: one.key,
            };
            if kept.is_full {
                continue;
            }
            let is_learned = self.has_learned(&one.domain, &one.workflow, one.key);
            let is_new = read <= one.place && !is_learned;
            if is_new && room == 0 {
                kept.is_full = true;
                kept.next = one.place.min(next);
                continue;
            }
            if is_new {
                room = room.saturating_sub(1);
            }
            if !is_learned {
                kept.told.push(one)?;
            }
            kept.last = Some(last);
        }
        Ok(kept)
    }

    /// How far a lane has read, and how many entries more it may hold.
    fn room_of(&self, from: ClusterNo, shard: u32) -> (u64, usize) {
        let Some(peer) = self.peers.get(from.number as usize) else {
            return (0, 0);
        };
        match peer.lanes.get(shard as usize) {
            Some(lane) => (lane.read().read(), lane.room()),
            None => (0, 0),
        }
    }

    /// The lane of a shard of a source is told of entries. Where they are out of turn, or some before them were not told,
    /// nothing changes: they are asked for again.
    fn note_told(
        &mut self,
        from: ClusterNo,
        shard: u32,
        first: u64,
        kept: Kept,
    ) -> Result<(), OutOfMemory> {
        let Some(peer) = self.peers.get_mut(from.number as usize) else {
            return Ok(());
        };
        let Some(lane) = peer.lanes.get_mut(shard as usize) else {
            return Ok(());
        };
        let Kept {
            told,
            next,
            last,
            ..
        } = kept;
        match lane.hear(first, next, told, last) {
            Err(HearError::Memory) => Err(AllocError),
            _ => Ok(()),
        }
    }

    /// Asks again for all that a source has told and that is not done. Takes no memory.
    pub fn rewind(&mut self, source: ClusterNo) {
        if let Some(peer) = self.peers.get_mut(source.number as usize) {
            for lane in peer.lanes.as_mut_slice() {
                lane.rewind();
            }
        }
    }
}

/// An entry, unless its message is to be asked for again.
fn unless_later(came: Came, told: Told) -> Option<Told> {
    match came {
        Came::Later => None,
        Came::In | Came::Letter => Some(told),
    }
}
