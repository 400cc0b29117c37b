use crate::heard::Heard;
use crate::node::Node;
use crate::past::Past;
use crate::peer::{drop_name, has_name};
use ndc_domain::ClusterNo;
use ndc_event::{Items, Name, OutOfMemory};
use ndc_node_frames::{
    Body, Domains, Entries, Entry, EntryList, Late, Lates, Place, Poll, Polled, Polls,
};
use ndc_node_lanes::Telling;
use ndc_node_messages::message_text;

impl Node {
    /// What this node polls of a source.
    pub(crate) fn poll_of(&self, source: ClusterNo) -> Result<Option<Poll>, OutOfMemory> {
        let Some(peer) = self.peers.get(source.number as usize) else {
            return Ok(None);
        };
        let mut shards = Vec::new(self.alloc);
        for lane in peer.lanes.as_slice() {
            shards.push(lane.polled())?;
        }
        let mut late = Vec::new(self.alloc);
        for one in peer.lacks.as_slice() {
            late.push(copy_late(one)?)?;
        }
        let mut all = Vec::new(self.alloc);
        for domain in peer.has_all.as_slice() {
            all.push(domain.try_copy()?)?;
        }
        Ok(Some(Poll {
            largest: self.bounds.frame as u64,
            shards: Polls::new(shards),
            late: Lates::new(late),
            all: Domains::new(all),
        }))
    }

    /// A reader polls: its levels are noted, and what is new is told, a piece of each shard and of each domain in which it is
    /// late.
    pub(crate) fn hear_poll(
        &mut self,
        from: ClusterNo,
        poll: Poll,
        heard: &mut Heard,
    ) -> Result<(), OutOfMemory> {
        self.note_levels(from, poll.shards.as_slice(), heard);
        self.note_late_reader(from, &poll, heard)?;
        let mut tells_late = self.knows_other_late(from, &poll);
        let mut shard: u32 = 0;
        for polled in poll.shards.as_slice() {
            if self.has_lost(shard, polled) {
                self.owe_all(from)?;
                heard.changed = true;
            }
            let text = self.next_entries(from, shard, polled, poll.largest, tells_late)?;
            if let Some(text) = text {
                heard.answers.push(text)?;
                tells_late = false;
            }
            shard = shard.saturating_add(1);
        }
        for late in poll.late.as_slice() {
            if self.is_late(from, &late.domain) {
                let text = self.next_bootstrap(from, late, &poll)?;
                heard.answers.push(text)?;
            }
        }
        Ok(())
    }

    /// The levels of a reader are noted. One that this node can't know of tells that the node is behind its past.
    fn note_levels(&mut self, from: ClusterNo, polls: &[Polled], heard: &mut Heard) {
        let reader = self.reader_of(from);
        let mut is_ahead = false;
        let mut follows = true;
        for (seat, polled) in self.seats.as_mut_slice().iter_mut().zip(polls.iter()) {
            let before = seat.level(reader);
            let telling = seat.tell(reader, polled);
            is_ahead = is_ahead || telling == Telling::Ahead;
            follows = follows && seat.levels.epoch() == polled.epoch;
            heard.changed = heard.changed || before != seat.level(reader);
            if seat.levels.epoch() < polled.epoch {
                self.newest = self.newest.max(polled.epoch);
                heard.changed = true;
            }
        }
        if is_ahead && self.past != Past::Behind {
            self.fall_behind();
            heard.changed = true;
        }
        self.note_polled(from, follows, heard);
    }

    /// A reader has polled: it is not awaited any more, and it is kept whether it follows the epochs of this node's queues.
    fn note_polled(&mut self, from: ClusterNo, follows: bool, heard: &mut Heard) {
        let was = self.past;
        if let Some(peer) = self.peers.get_mut(from.number as usize) {
            heard.changed = heard.changed || peer.is_awaited || peer.follows != follows;
            peer.is_awaited = false;
            peer.follows = follows;
        }
        self.begin_recall_if_due();
        heard.changed = heard.changed || was != self.past;
    }

    /// A reader tells in which domains it is late, and of which it has come to have all.
    fn note_late_reader(
        &mut self,
        from: ClusterNo,
        poll: &Poll,
        heard: &mut Heard,
    ) -> Result<(), OutOfMemory> {
        for late in poll.late.as_slice() {
            if self.names(from, &late.domain) && !self.is_late(from, &late.domain) {
                self.owe(from, &late.domain)?;
                heard.changed = true;
            }
        }
        let Some(peer) = self.peers.get_mut(from.number as usize) else {
            return Ok(());
        };
        if peer.largest != poll.largest {
            peer.largest = poll.largest;
            heard.changed = true;
        }
        for domain in poll.all.as_slice() {
            if has_name(peer.owes.as_slice(), domain) {
                drop_name(&mut peer.owes, domain);
                heard.changed = true;
            }
        }
        Ok(())
    }

    /// Whether a reader knows itself late in other domains than this node does.
    fn knows_other_late(&self, reader: ClusterNo, poll: &Poll) -> bool {
        let Some(peer) = self.peers.get(reader.number as usize) else {
            return false;
        };
        let owes = peer.owes.as_slice();
        let all = poll.all.as_slice();
        let unknown = owes.iter().any(|domain| {
            !has_name(all, domain) && !poll.late.as_slice().iter().any(|one| one.domain == *domain)
        });
        unknown || all.iter().any(|domain| !has_name(owes, domain))
    }

    /// Whether the record of a domain names a cluster.
    pub(crate) fn names(&self, cluster: ClusterNo, domain: &Name) -> bool {
        match self.table.find(domain) {
            Some(record) => record.members.has(cluster),
            None => false,
        }
    }

    /// Whether a reader is late in a domain here.
    fn is_late(&self, reader: ClusterNo, domain: &Name) -> bool {
        match self.peers.get(reader.number as usize) {
            Some(peer) => has_name(peer.owes.as_slice(), domain),
            None => false,
        }
    }

    /// The frame with what is new for a reader in a shard. None where nothing is, and the reader knows in which domains it
    /// is late.
    fn next_entries(
        &self,
        to: ClusterNo,
        shard: u32,
        polled: &Polled,
        largest: u64,
        tells_late: bool,
    ) -> Result<Option<Items<u8>>, OutOfMemory> {
        let Some(seat) = self.seats.get(shard as usize) else {
            return Ok(None);
        };
        let epoch = seat.levels.epoch();
        let is_same = polled.epoch == epoch;
        let from = if is_same { polled.read } else { 0 };
        if is_same && seat.queue.len() <= from && !tells_late {
            return Ok(None);
        }
        let piece = self.piece_from(to, shard, epoch, from, largest)?;
        let text = self.fitting(to, Body::Entries(piece), largest)?;
        Ok(Some(text))
    }

    /// Whether a reader has not read entries that were dropped, under whatever epoch: it told to be done with them before, and
    /// has lost what it had.
    fn has_lost(&self, shard: u32, polled: &Polled) -> bool {
        match self.seats.get(shard as usize) {
            Some(seat) => polled.read < seat.queue.first(),
            None => false,
        }
    }

    /// A reader has lost what it had: it is late in all domains that name it.
    fn owe_all(&mut self, reader: ClusterNo) -> Result<(), OutOfMemory> {
        let names = self.table.names()?;
        for name in names.as_slice() {
            if self.names(reader, name) {
                self.owe(reader, name)?;
            }
        }
        Ok(())
    }

    /// The domains in which a reader is late here.
    fn late_names(&self, reader: ClusterNo) -> Result<Vec<Name>, OutOfMemory> {
        let mut names = Vec::new(self.alloc);
        if let Some(peer) = self.peers.get(reader.number as usize) {
            for name in peer.owes.as_slice() {
                names.push(name.try_copy()?)?;
            }
        }
        Ok(names)
    }

    /// The piece of a queue from a place on for a reader: what is addressed to it, as far as the texts have room.
    fn piece_from(
        &self,
        to: ClusterNo,
        shard: u32,
        epoch: u64,
        from: u64,
        largest: u64,
    ) -> Result<Entries, OutOfMemory> {
        let late = self.late_names(to)?;
        let (entries, next) = self.entries_from(to, shard, from, largest)?;
        Ok(Entries {
            shard,
            epoch,
            from,
            next: next.max(from),
            late: Domains::new(late),
            entries: EntryList::new(entries),
        })
    }

    /// The entries of a queue from a place on that are addressed to a reader, as far as their texts have room, one at least;
    /// and the place up to which they go.
    fn entries_from(
        &self,
        to: ClusterNo,
        shard: u32,
        from: u64,
        largest: u64,
    ) -> Result<(Vec<Entry>, u64), OutOfMemory> {
        let mut entries = Vec::new(self.alloc);
        let Some(seat) = self.seats.get(shard as usize) else {
            return Ok((entries, from));
        };
        let mut place = seat.queue.first().max(from);
        let passed = (place - seat.queue.first()) as usize;
        let mut bytes: u64 = 0;
        for message in seat.queue.kept().iter().skip(passed) {
            if self.names(to, &message.batch.domain) {
                let text = message_text(self.alloc, message)?;
                bytes = bytes.saturating_add(text.len() as u64);
                if largest < bytes && !entries.is_empty() {
                    return Ok((entries, place));
                }
                entries.push(Entry {
                    place,
                    message: Items::new(text),
                })?;
            }
            place = place.saturating_add(1);
        }
        Ok((entries, place))
    }
}

/// The same place.
pub(crate) fn copy_place(place: &Place) -> Result<Place, OutOfMemory> {
    Ok(Place {
        shard: place.shard,
        workflow: place.workflow.try_copy()?,
        key: place.key,
    })
}

/// The same domain and place.
pub(crate) fn copy_late(late: &Late) -> Result<Late, OutOfMemory> {
    let place = match &late.place {
        Some(place) => Some(copy_place(place)?),
        None => None,
    };
    Ok(Late {
        domain: late.domain.try_copy()?,
        place,
    })
}
