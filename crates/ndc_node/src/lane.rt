use ndc_event::{BatchKey, Name};
use ndc_node_frames::Polled;
use ndc_node_lanes::{HearError, ReadLane, Told};
use std::alloc::Global;

/// An entry that was told as addressed, by its place and the key of its batch.
#[derive(Clone, Copy)]
pub(crate) struct Last {
    pub(crate) place: u64,
    pub(crate) key: BatchKey,
}

/// What a node keeps of the queue of one shard of a source.
#[derive(Drop)]
pub(crate) struct Lane {
    read: ReadLane,
    last: Option<Last>,
}

impl Lane {
    /// A lane of which nothing was told. Takes no memory.
    pub(crate) fn new(alloc: Global, held: usize) -> Lane {
        Lane {
            read: ReadLane::new(alloc, 0, held),
            last: None,
        }
    }

    /// A lane that has come so far: under this epoch so many entries were told, of which these are not learned. Refused as
    /// [`ReadLane::hear`] refuses them.
    pub(crate) fn again(
        alloc: Global,
        most: usize,
        epoch: u64,
        read: u64,
        held: Vec<Told>,
        last: Option<Last>,
    ) -> Result<Lane, HearError> {
        let mut lane = ReadLane::new(alloc, epoch, most);
        lane.hear(0, read, held)?;
        Ok(Lane { read: lane, last })
    }

    /// The lane, to be read.
    pub(crate) fn read(&self) -> &ReadLane {
        &self.read
    }

    /// What the node polls of it: its levels, with the key of the entry before `done` where it is known.
    pub(crate) fn polled(&self) -> Polled {
        let done = self.read.done();
        let key = match self.last {
            Some(last) if last.place.saturating_add(1) == done => Some(last.key),
            _ => None,
        };
        Polled {
            epoch: self.read.epoch(),
            read: self.read.read(),
            done,
            key,
        }
    }

    /// Whether entries of this epoch may be heard: an older one is passed by, at a newer one the lane begins anew.
    pub(crate) fn follows(&mut self, epoch: u64) -> bool {
        if epoch < self.read.epoch() {
            return false;
        }
        if self.read.epoch() < epoch {
            self.read.begin(epoch);
            self.last = None;
        }
        true
    }

    /// Hears of the entries from one place up to another, of which these are not learned; the last one that was told as
    /// addressed is kept.
    pub(crate) fn hear(
        &mut self,
        from: u64,
        next: u64,
        told: Vec<Told>,
        last: Option<Last>,
    ) -> Result<(), HearError> {
        self.read.hear(from, next, told)?;
        if self.is_later(last) {
            self.last = last;
        }
        Ok(())
    }

    /// Whether an entry comes after the last one that was told.
    fn is_later(&self, entry: Option<Last>) -> bool {
        match (self.last, entry) {
            (_, None) => false,
            (None, Some(_)) => true,
            (Some(last), Some(entry)) => last.place < entry.place,
        }
    }

    /// How many entries more it may hold.
    pub(crate) fn room(&self) -> usize {
        self.read.most().saturating_sub(self.read.held().len())
    }

    /// The last entry that was told as addressed.
    pub(crate) fn last(&self) -> Option<Last> {
        self.last
    }

    /// The batch of this key of a workflow is learned. Takes no memory.
    pub(crate) fn learned(&mut self, domain: &Name, workflow: &Name, key: BatchKey) {
        if !self.read.held().is_empty() {
            self.read.learned(domain, workflow, key);
        }
    }

    /// Asks again for all that is not done. Takes no memory.
    pub(crate) fn rewind(&mut self) {
        self.read.rewind();
    }
}
