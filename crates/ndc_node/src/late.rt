use crate::admitting::Came;
use crate::heard::Heard;
use crate::node::Node;
use crate::polling::copy_place;
use ndc_domain::ClusterNo;
use ndc_event::{Batch, BatchKey, Items, Name, OutOfMemory};
use ndc_model_cells::Message;
use ndc_node_frames::{Body, Bootstrap, Late, Messages, Place, Poll, Text};
use ndc_node_messages::{MessageError, message_text, read_message};
use std::alloc::{AllocError, Global};

/// Whether a message of a shard stands after a place.
fn is_after(place: Option<&Place>, shard: u32, workflow: &Name, key: BatchKey) -> bool {
    match place {
        None => true,
        Some(place) => {
            if shard != place.shard {
                return place.shard < shard;
            }
            if place.workflow != *workflow {
                return place.workflow < *workflow;
            }
            place.key.is_before(key)
        }
    }
}

/// Whether two places are one.
pub(crate) fn is_same_place(one: Option<&Place>, two: Option<&Place>) -> bool {
    match (one, two) {
        (None, None) => true,
        (Some(one), Some(two)) => {
            one.shard == two.shard && one.key == two.key && one.workflow == two.workflow
        }
        _ => false,
    }
}

/// What is gathered for another node, as far as its frame has room.
#[derive(Drop)]
pub(crate) struct Gathered {
    /// The texts of the messages.
    pub(crate) texts: Vec<Text>,
    /// How many bytes they have.
    bytes: u64,
    /// Whether nothing was left out.
    pub(crate) is_all: bool,
}

/// What another node wants of a shard.
#[derive(Clone, Copy)]
pub(crate) struct Wanted<'a> {
    pub(crate) shard: u32,
    /// The place after which it wants messages.
    pub(crate) place: Option<&'a Place>,
    /// Messages that come to it in another way.
    pub(crate) unread: &'a [Message],
    /// How many bytes the texts may have.
    pub(crate) largest: u64,
}

impl<'a> Wanted<'a> {
    /// Whether the message of a batch is wanted.
    fn has(&self, batch: &Batch) -> bool {
        is_after(self.place, self.shard, &batch.workflow, batch.key)
            && !is_batch_of(self.unread, batch)
    }
}

/// Whether a batch is the own one of one of these messages.
fn is_batch_of(messages: &[Message], batch: &Batch) -> bool {
    for message in messages {
        let one = &message.batch;
        if one.key == batch.key && one.workflow == batch.workflow && one.domain == batch.domain {
            return true;
        }
    }
    false
}

impl Gathered {
    /// Nothing yet. Takes no memory.
    pub(crate) fn nothing(alloc: Global) -> Gathered {
        Gathered {
            texts: Vec::new(alloc),
            bytes: 0,
            is_all: true,
        }
    }
}

impl Node {
    /// The frame with the next piece of a domain for a late reader, which polls so of each shard.
    pub(crate) fn next_bootstrap(
        &self,
        to: ClusterNo,
        late: &Late,
        poll: &Poll,
    ) -> Result<Items<u8>, OutOfMemory> {
        let gathered = self.gather(late, poll)?;
        let from = match &late.place {
            Some(place) => Some(copy_place(place)?),
            None => None,
        };
        let piece = Bootstrap {
            domain: late.domain.try_copy()?,
            from,
            messages: Messages::new(gathered.texts),
            last: gathered.is_all,
        };
        self.fitting(to, Body::Bootstrap(piece), poll.largest)
    }

    /// The messages of a domain after a place, in order of shard, workflow and key, as far as their texts have room, one at
    /// least. What the reader has not read yet of the queues comes to it as entries: so what it has of this node, its levels
    /// tell.
    fn gather(&self, late: &Late, poll: &Poll) -> Result<Gathered, OutOfMemory> {
        let mut gathered = Gathered::nothing(self.alloc);
        let mut shard: u32 = 0;
        for (seat, polled) in self
            .seats
            .as_slice()
            .iter()
            .zip(poll.shards.as_slice().iter())
        {
            let wanted = Wanted {
                shard,
                place: late.place.as_ref(),
                unread: seat.unread_by(polled),
                largest: poll.largest,
            };
            let messages = seat.cell.all_of(&late.domain)?;
            self.gather_of(&mut gathered, &wanted, messages)?;
            shard = shard.saturating_add(1);
        }
        Ok(gathered)
    }

    /// Those of these messages of a shard that are wanted.
    pub(crate) fn gather_of(
        &self,
        gathered: &mut Gathered,
        wanted: &Wanted,
        messages: Vec<Message>,
    ) -> Result<(), OutOfMemory> {
        for message in messages {
            if !gathered.is_all || !wanted.has(&message.batch) {
                continue;
            }
            let text = message_text(self.alloc, &message)?;
            gathered.bytes = gathered.bytes.saturating_add(text.len() as u64);
            if wanted.largest < gathered.bytes && !gathered.texts.is_empty() {
                gathered.is_all = false;
                continue;
            }
            gathered.texts.push(Items::new(text))?;
        }
        Ok(())
    }

    /// A piece of a domain in which this node is late is heard: where it joins what the node has, its place rises over the
    /// messages that are learned, and after the last one the node has all.
    pub(crate) fn hear_bootstrap(
        &mut self,
        from: ClusterNo,
        piece: Bootstrap,
        heard: &mut Heard,
    ) -> Result<(), OutOfMemory> {
        let Bootstrap {
            domain,
            from: place,
            messages,
            last,
        } = piece;
        let joins = self.joins(from, &domain, place.as_ref());
        let came = self.take_all(from, &domain, messages.as_slice(), heard)?;
        if !joins {
            return Ok(());
        }
        let Some(peer) = self.peers.get_mut(from.number as usize) else {
            return Ok(());
        };
        heard.changed = true;
        if last && came.is_all {
            return peer.got_all(&domain);
        }
        if let Some(place) = came.place {
            peer.come_to(&domain, place);
        }
        Ok(())
    }

    /// Whether a piece of a domain from a place on joins what this node has of it.
    fn joins(&self, source: ClusterNo, domain: &Name, place: Option<&Place>) -> bool {
        let Some(peer) = self.peers.get(source.number as usize) else {
            return false;
        };
        match peer.lack(domain) {
            Some(late) => is_same_place(late.place.as_ref(), place),
            None => false,
        }
    }

    /// Takes up messages of a domain: how far they are learned without a hole.
    fn take_all(
        &mut self,
        from: ClusterNo,
        domain: &Name,
        messages: &[Text],
        heard: &mut Heard,
    ) -> Result<CameTo, OutOfMemory> {
        let mut came = CameTo {
            place: None,
            is_all: true,
        };
        for text in messages {
            let place = self.take_one(from, domain, text.as_slice(), heard)?;
            match place {
                Some(place) if came.is_all => {
                    came.place = Some(place);
                }
                _ => {
                    came.is_all = false;
                }
            }
        }
        Ok(came)
    }

    /// Takes up a message of a domain: its place, where it is learned then.
    fn take_one(
        &mut self,
        from: ClusterNo,
        domain: &Name,
        text: &[u8],
        heard: &mut Heard,
    ) -> Result<Option<Place>, OutOfMemory> {
        let message = match read_message(self.alloc, text) {
            Ok(message) => message,
            Err(MessageError::Memory) => return Err(AllocError),
            Err(_) => {
                self.take_text(from, text, heard)?;
                return Ok(None);
            }
        };
        let is_of = message.batch.domain == *domain;
        let workflow = message.batch.workflow.try_copy()?;
        let key = message.batch.key;
        let shard = self.shard_of(domain, &workflow);
        let came = self.take_message(from, None, text, message, heard)?;
        if came != Came::In || !is_of || !self.has_learned(domain, &workflow, key) {
            return Ok(None);
        }
        Ok(Some(Place {
            shard,
            workflow,
            key,
        }))
    }
}

/// How far messages are learned without a hole.
#[derive(Drop)]
struct CameTo {
    /// The place of the last one before the first that is not learned.
    place: Option<Place>,
    /// Whether each is learned.
    is_all: bool,
}
