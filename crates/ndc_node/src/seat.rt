use ndc_cluster::Home;
use ndc_domain::DomainTable;
use ndc_event::{Batch, BatchKey, Name, OutOfMemory};
use ndc_model_cells::{Message, Written};
use ndc_node_frames::Polled;
use ndc_node_lanes::{Telling, ToldLevels};
use ndc_queue::Queue;
use ndc_shard::{Reapplied, SetAside, Shard};
use ndc_state::Steps;
use std::alloc::Global;
use std::mem;

/// Counts the steps of applying again.
struct Applying;

/// One shard of a node: its cell, the queue of what it has written, and how far readers have told to be done with it.
pub(crate) struct Seat {
    pub(crate) cell: Shard,
    pub(crate) queue: Queue,
    pub(crate) levels: ToldLevels,
    /// The messages that are put off in the cell, in the order in which they came.
    pub(crate) put_off: Vec<Message>,
}

impl Drop for Seat {
    fn drop(self) {
        let Seat {
            cell: _cell,
            queue: _queue,
            levels: _levels,
            put_off: _put_off,
        } = self;
    }
}

impl Seat {
    /// A shard in which nothing has happened, with so many readers.
    pub(crate) fn new(alloc: Global, home: &Home, readers: usize) -> Result<Seat, OutOfMemory> {
        Ok(Seat {
            cell: Shard::new(alloc, home)?,
            queue: Queue::new(alloc),
            levels: ToldLevels::new(alloc, 0, readers)?,
            put_off: Vec::new(alloc),
        })
    }

    /// How many messages are put off.
    pub(crate) fn waiting(&self) -> u64 {
        self.put_off.len() as u64
    }

    /// Lets go of the copies of what is not put off any more: it is learned, or among these, which were set aside.
    pub(crate) fn let_go(&mut self, aside: &[SetAside]) -> Result<(), OutOfMemory> {
        let alloc = *self.put_off.allocator();
        let before = mem::replace(&mut self.put_off, Vec::new(alloc));
        for message in before {
            if !self.has_learned(&message.batch) && !is_among(aside, &message.batch) {
                self.put_off.push(message)?;
            }
        }
        Ok(())
    }

    /// Whether a batch is learned.
    fn has_learned(&self, batch: &Batch) -> bool {
        self.cell
            .has_learned(&batch.domain, &batch.workflow, batch.key)
    }

    /// Drops the message of a batch that is put off, its own or the one that it carries, where one is: whether one was.
    pub(crate) fn forget(
        &mut self,
        domain: &Name,
        workflow: &Name,
        key: BatchKey,
    ) -> Result<bool, OutOfMemory> {
        let dropped = self.cell.forget(domain, workflow, key)?;
        if dropped {
            let alloc = *self.put_off.allocator();
            let before = mem::replace(&mut self.put_off, Vec::new(alloc));
            for message in before {
                if !brings(&message, domain, workflow, key) {
                    self.put_off.push(message)?;
                }
            }
        }
        Ok(dropped)
    }

    /// The messages of a domain that have arrived, learned or put off, in order of workflow and key.
    pub(crate) fn arrived_of(&self, domain: &Name) -> Result<Vec<Message>, OutOfMemory> {
        let mut arrived = self.cell.all_of(domain)?;
        for message in self.put_off.as_slice() {
            if message.batch.domain == *domain {
                let place = place_after(arrived.as_slice(), &message.batch);
                arrived.insert(place.min(arrived.len()), message.try_copy()?)?;
            }
        }
        Ok(arrived)
    }

    /// The entries that are kept of the queue and that a reader has not read, as it polls. Takes no memory.
    pub(crate) fn unread_by(&self, polled: &Polled) -> &[Message] {
        let kept = self.queue.kept();
        if polled.epoch != self.levels.epoch() {
            return kept;
        }
        let read = polled.read.saturating_sub(self.queue.first()) as usize;
        let (_, unread) = kept.split_at(read.min(kept.len()));
        unread
    }

    /// Begins a new epoch of the queue: all readers are where it is trimmed. Takes no memory.
    pub(crate) fn begin_epoch(&mut self, epoch: u64) {
        let first = self.queue.first();
        self.levels.begin(epoch, first);
    }

    /// Puts the message of a batch that was written at the end of the queue.
    pub(crate) fn queue_up(
        &mut self,
        domain: &Name,
        workflow: &Name,
        key: BatchKey,
    ) -> Result<(), OutOfMemory> {
        match self.cell.message(domain, workflow, key)? {
            Some(message) => self.queue.push(message),
            None => Ok(()),
        }
    }

    /// Puts the messages of what one call has written at the end of the queue: of its batch, and of the other one where
    /// that is not carried.
    pub(crate) fn queue_up_both(
        &mut self,
        domain: &Name,
        workflow: &Name,
        written: Written,
    ) -> Result<(), OutOfMemory> {
        self.queue_up(domain, workflow, written.key)?;
        match written.second {
            Some(second) => self.queue_up(domain, workflow, second),
            None => Ok(()),
        }
    }

    /// Applies again what current runs have not seen, and puts the messages of what is written at the end of the queue:
    /// where the batches stand.
    pub(crate) fn apply_again(
        &mut self,
        home: &Home,
        table: &DomainTable,
    ) -> Result<Vec<(Name, Name, BatchKey)>, OutOfMemory> {
        let mut steps: Steps<Applying> = Steps::new();
        let Reapplied { written, .. } = self.cell.try_reapply(home, table, &mut steps)?;
        for (domain, workflow, key) in written.as_slice() {
            self.queue_up(domain, workflow, *key)?;
        }
        Ok(written)
    }

    /// How far a reader has told to be done. Takes no memory.
    pub(crate) fn level(&self, reader: usize) -> u64 {
        if reader < self.levels.readers() {
            self.levels.level(reader)
        } else {
            0
        }
    }

    /// A reader tells how far it is done. [`Telling::Ahead`] also where it tells a later epoch, has read more than there is,
    /// or knows another key before that level than the queue has there.
    pub(crate) fn tell(&mut self, reader: usize, polled: &Polled) -> Telling {
        if self.levels.readers() <= reader {
            return Telling::OtherEpoch;
        }
        let epoch = self.levels.epoch();
        let len = self.queue.len();
        if epoch < polled.epoch || epoch == polled.epoch && len < polled.read {
            return Telling::Ahead;
        }
        if self.is_other(polled) {
            return Telling::Ahead;
        }
        self.levels.tell(reader, polled.epoch, polled.done, len)
    }

    /// Whether the entry before the level that is done has another key than the reader knows.
    fn is_other(&self, polled: &Polled) -> bool {
        let Some(key) = polled.key else {
            return false;
        };
        let first = self.queue.first();
        if polled.epoch != self.levels.epoch() || polled.done <= first {
            return false;
        }
        let place = polled.done - 1 - first;
        match self.queue.kept().get(place as usize) {
            Some(message) => message.batch.key != key,
            None => false,
        }
    }

    /// Drops what all readers are done with: how many entries.
    pub(crate) fn trim(&mut self) -> u64 {
        let len = self.queue.len();
        let least = match self.levels.trim_level() {
            Some(level) => level.min(len),
            None => len,
        };
        let first = self.queue.first();
        self.queue.trim(least);
        least.saturating_sub(first)
    }
}

/// Whether a message brings the batch of this key of a workflow: its own, or the one that it carries.
fn brings(message: &Message, domain: &Name, workflow: &Name, key: BatchKey) -> bool {
    if message.batch.workflow != *workflow || message.batch.domain != *domain {
        return false;
    }
    let is_second = match message.second.as_ref() {
        Some(second) => second.key == key,
        None => false,
    };
    message.batch.key == key || is_second
}

/// Whether the message of a batch is among those that were set aside.
fn is_among(aside: &[SetAside], batch: &Batch) -> bool {
    for one in aside {
        if brings(&one.message, &batch.domain, &batch.workflow, batch.key) {
            return true;
        }
    }
    false
}

/// The place of the first message that comes after a batch, by workflow and key.
fn place_after(messages: &[Message], batch: &Batch) -> usize {
    let mut place: usize = 0;
    for message in messages {
        let is_later = if message.batch.workflow == batch.workflow {
            batch.key.is_before(message.batch.key)
        } else {
            batch.workflow < message.batch.workflow
        };
        if is_later {
            return place;
        }
        place = place.saturating_add(1);
    }
    place
}
