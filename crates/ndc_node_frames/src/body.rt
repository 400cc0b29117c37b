use crate::piece::{MAX_LEVEL, take_items, take_small};
use crate::place::Late;
use ndc_event::{BatchKey, Items, Name, OutOfMemory};
use ndc_node_shapes::framed::{push_list, push_nullable, take_nullable};
use ndc_node_shapes::piece::{
    push_end, push_first, push_next, push_number, take_end, take_first, take_name, take_next,
    take_number,
};
use ndc_node_shapes::{Fault, Framed, Text};
use std::alloc::Global;

/// Names of domains, in order.
pub type Domains = Items<Name>;

/// Texts of messages, in order.
pub type Messages = Items<Text>;

/// What a reader polls of the queue of one shard of its source.
#[derive(Debug, Drop)]
pub struct Polled {
    /// The epoch of the queue that the levels are of.
    pub epoch: u64,
    /// How far the reader has read.
    pub read: u64,
    /// How far the reader is done.
    pub done: u64,
    /// The key of the entry before that level; none where the level is 0, or the reader does not know it.
    pub key: Option<BatchKey>,
}

/// Domains in which a reader is late, in order.
pub type Lates = Items<Late>;

/// What is polled of each shard, in order.
pub type Polls = Items<Polled>;

/// A reader asks its source for what is new, and tells how far it is done.
#[derive(Debug, Drop)]
pub struct Poll {
    /// The greatest frame that the reader takes, in bytes.
    pub largest: u64,
    /// For each shard the reader's levels.
    pub shards: Polls,
    /// The domains in which the reader is late, each with its place.
    pub late: Lates,
    /// The domains of which the reader has come to have all.
    pub all: Domains,
}

/// A message with the place of its batch in the queue.
#[derive(Debug, Drop)]
pub struct Entry {
    /// The place in the queue, counted from 0.
    pub place: u64,
    /// The text of the message.
    pub message: Text,
}

/// Messages with their places, in order.
pub type EntryList = Items<Entry>;

/// A piece of the queue of one shard of a source: what of it is for the reader.
#[derive(Debug, Drop)]
pub struct Entries {
    /// The shard, counted from 0.
    pub shard: u32,
    /// The epoch of the queue.
    pub epoch: u64,
    /// The place from which the piece goes.
    pub from: u64,
    /// The place up to which it goes.
    pub next: u64,
    /// The domains in which the source holds the reader late.
    pub late: Domains,
    /// The messages for the reader, each with its place.
    pub entries: EntryList,
}

/// Messages that a holder serves for a gap.
#[derive(Debug, Drop)]
pub struct Served {
    /// The texts of the messages.
    pub messages: Messages,
}

impl Framed for Polled {
    ghost use Rattle.ndc_node_frames.specs.Parts.{polled_shape, polled_value};

    ghost shape = { polled_shape };

    ghost value = { polled_value };

    fn push(&self, text: &mut Vec<u8>) -> Result<(), OutOfMemory> {
        push_first(text, "done")?;
        push_number(text, self.done)?;
        push_next(text, "epoch")?;
        push_number(text, self.epoch)?;
        push_next(text, "key")?;
        push_nullable(text, self.key.as_ref())?;
        push_next(text, "read")?;
        push_number(text, self.read)?;
        push_end(text)
    }

    fn take(alloc: Global, left: &[u8]) -> Result<(Polled, &[u8]), Fault> {
        let left = take_first(left, "done")?;
        let (done, left) = take_number(left, 0, MAX_LEVEL)?;
        let left = take_next(left, "epoch")?;
        let (epoch, left) = take_number(left, 0, MAX_LEVEL)?;
        let left = take_next(left, "key")?;
        let (key, left) = take_nullable::<BatchKey>(alloc, left)?;
        let left = take_next(left, "read")?;
        let (read, left) = take_number(left, 0, MAX_LEVEL)?;
        let left = take_end(left)?;
        Ok((
            Polled {
                epoch,
                read,
                done,
                key,
            },
            left,
        ))
    }
}

impl Framed for Poll {
    ghost use Rattle.ndc_node_frames.specs.Parts.{poll_shape, poll_value};

    ghost shape = { poll_shape };

    ghost value = { poll_value };

    fn push(&self, text: &mut Vec<u8>) -> Result<(), OutOfMemory> {
        push_first(text, "all")?;
        push_list(text, self.all.as_slice())?;
        push_next(text, "largest")?;
        push_number(text, self.largest)?;
        push_next(text, "late")?;
        push_list(text, self.late.as_slice())?;
        push_next(text, "shards")?;
        push_list(text, self.shards.as_slice())?;
        push_end(text)
    }

    fn take(alloc: Global, left: &[u8]) -> Result<(Poll, &[u8]), Fault> {
        let left = take_first(left, "all")?;
        let (all, left) = take_items::<Name>(alloc, left)?;
        let left = take_next(left, "largest")?;
        let (largest, left) = take_number(left, 0, MAX_LEVEL)?;
        let left = take_next(left, "late")?;
        let (late, left) = take_items::<Late>(alloc, left)?;
        let left = take_next(left, "shards")?;
        let (shards, left) = take_items::<Polled>(alloc, left)?;
        let left = take_end(left)?;
        Ok((
            Poll {
                largest,
                shards,
                late,
                all,
            },
            left,
        ))
    }
}

impl Framed for Entry {
    ghost use Rattle.ndc_node_frames.specs.Parts.{entry_shape, entry_value};

    ghost shape = { entry_shape };

    ghost value = { entry_value };

    fn push(&self, text: &mut Vec<u8>) -> Result<(), OutOfMemory> {
        push_first(text, "message")?;
        self.message.push(text)?;
        push_next(text, "place")?;
        push_number(text, self.place)?;
        push_end(text)
    }

    fn take(alloc: Global, left: &[u8]) -> Result<(Entry, &[u8]), Fault> {
        let left = take_first(left, "message")?;
        let (message, left) = Text::take(alloc, left)?;
        let left = take_next(left, "place")?;
        let (place, left) = take_number(left, 0, MAX_LEVEL)?;
        let left = take_end(left)?;
        Ok((Entry { place, message }, left))
    }
}

impl Framed for Entries {
    ghost use Rattle.ndc_node_frames.specs.Parts.{entries_shape, entries_value};

    ghost shape = { entries_shape };

    ghost value = { entries_value };

    fn push(&self, text: &mut Vec<u8>) -> Result<(), OutOfMemory> {
        push_first(text, "entries")?;
        push_list(text, self.entries.as_slice())?;
        push_next(text, "epoch")?;
        push_number(text, self.epoch)?;
        push_next(text, "from")?;
        push_number(text, self.from)?;
        push_next(text, "late")?;
        push_list(text, self.late.as_slice())?;
        push_next(text, "next")?;
        push_number(text, self.next)?;
        push_next(text, "shard")?;
        push_number(text, u64::from(self.shard))?;
        push_end(text)
    }

    fn take(alloc: Global, left: &[u8]) -> Result<(Entries, &[u8]), Fault> {
        let left = take_first(left, "entries")?;
        let (entries, left) = take_items::<Entry>(alloc, left)?;
        let left = take_next(left, "epoch")?;
        let (epoch, left) = take_number(left, 0, MAX_LEVEL)?;
        let left = take_next(left, "from")?;
        let (from, left) = take_number(left, 0, MAX_LEVEL)?;
        let left = take_next(left, "late")?;
        let (late, left) = take_items::<Name>(alloc, left)?;
        let left = take_next(left, "next")?;
        let (next, left) = take_number(left, 0, MAX_LEVEL)?;
        let left = take_next(left, "shard")?;
        let (shard, left) = take_small(left)?;
        let left = take_end(left)?;
        Ok((
            Entries {
                shard,
                epoch,
                from,
                next,
                late,
                entries,
            },
            left,
        ))
    }
}

impl Framed for Served {
    ghost use Rattle.ndc_node_frames.specs.Parts.{served_shape, served_value};

    ghost shape = { served_shape };

    ghost value = { served_value };

    fn push(&self, text: &mut Vec<u8>) -> Result<(), OutOfMemory> {
        push_first(text, "messages")?;
        push_list(text, self.messages.as_slice())?;
        push_end(text)
    }

    fn take(alloc: Global, left: &[u8]) -> Result<(Served, &[u8]), Fault> {
        let left = take_first(left, "messages")?;
        let (messages, left) = take_items::<Text>(alloc, left)?;
        let left = take_end(left)?;
        Ok((Served { messages }, left))
    }
}
