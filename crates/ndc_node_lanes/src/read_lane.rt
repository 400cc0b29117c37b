ghost use Rattle.std.specs.Prelude.{◌≡◌};
ghost use Rattle.ndc_node_lanes.specs.Lane.{first_place, fresh};

use crate::told::{Told, are_in_turn};
use ndc_event::{BatchKey, Name};
use std::alloc::{AllocError, AllocFailed, Global};
use std::marker::Model;
use thiserror::Error;

/// Why entries were not heard.
#[derive(Clone, Copy, Debug, PartialEq, Eq, Error)]
pub enum HearError {
    /// The entries begin above what was told before: those between were not told.
    #[error("entries before these were not told")]
    Hole,
    /// An entry's place is below the first one told, not above the place of the entry before it, or not below the next.
    #[error("the entries are not in turn")]
    OutOfTurn,
    /// With those that were not told before there would be more held than there may be.
    #[error("there is no room for the entries")]
    Full,
    #[error("out of memory")]
    Memory,
}

impl From<AllocError> for HearError {
    ghost use Rattle.std.specs.Prelude.{◌≡◌};
    ghost use Rattle.ndc_node_lanes.specs.declared.read_lane.HearError.TheVariants.{Memory};

    ghost from_gives = { λ _ e. e ≡ Memory };

    fn from(_error: AllocError) -> HearError {
        HearError::Memory
    }
}

impl<T: Drop> From<AllocFailed<T>> for HearError {
    ghost use Rattle.std.specs.Prelude.{◌≡◌};
    ghost use Rattle.ndc_node_lanes.specs.declared.read_lane.HearError.TheVariants.{Memory};

    ghost from_gives = { λ _ e. e ≡ Memory };

    fn from(_failed: AllocFailed<T>) -> HearError {
        HearError::Memory
    }
}

/// What a reader keeps of one shard of a source: the epoch of the source's queue, how many entries of it were told
/// (`read`), and the entries among them that are addressed to the reader and not learned, which are *held*. All before
/// the first that is held is *done*. Entries are counted from 0.
#[derive(Debug, Drop)]
pub struct ReadLane {
    epoch: u64,
    read: u64,
    held: Vec<Told>,
    most: usize,
}

impl Model for ReadLane {
    ghost use Rattle.ndc_node_lanes.specs.Lane.{IsLane, LaneValue};

    ghost Value = { LaneValue };

    ghost view = { λ lane. record {
      epoch = lane.epoch;
      read = lane.read;
      held = lane.held.items;
      most = lane.most;
    } };

    ghost invariant = { λ lane.
        IsLane (record {
          epoch = lane.epoch;
          read = lane.read;
          held = lane.held.items;
          most = lane.most;
        }) };
}

/// The place of the first entry, or this number where there is none.
fn first_place(otherwise: u64, entries: &[Told]) -> u64
    ensures { result ≡ first_place otherwise entries.now }
{
    match entries.first() {
        None => otherwise,
        Some(entry) => entry.place,
    }
}

impl ReadLane {
    ghost use Rattle.std.specs.Prelude.{◌≡◌, OnErr};
    ghost use Rattle.ndc_event.specs.Outcome.{Gives};
    ghost use Rattle.ndc_node_lanes.specs.Lane.{IsLane, begun, done_of, heard, rewound, with_learned};
    ghost use Rattle.ndc_node_lanes.specs.declared.read_lane.HearError.TheVariants.{Memory};

    /// A lane of which nothing was told, under this epoch, that holds at most so many entries. Takes no memory.
    pub fn new(alloc: Global, epoch: u64, most: usize) -> ReadLane
        ensures { result ≡ begun epoch most }
    {
        ReadLane {
            epoch,
            read: 0,
            held: Vec::new(alloc),
            most,
        }
    }

    /// The source's epoch.
    pub fn epoch(&self) -> u64
        ensures { result ≡ self.now.epoch }
    {
        self.epoch
    }

    /// How many entries were told, from the first one on.
    pub fn read(&self) -> u64
        ensures { result ≡ self.now.read }
    {
        self.read
    }

    /// How many entries are done, from the first one on: each of them is learned, or was not addressed to the reader.
    pub fn done(&self) -> u64
        ensures { result ≡ done_of self.now }
    {
        first_place(self.read, self.held.as_slice())
    }

    /// The entries that are addressed to the reader and not learned, in the order of their places. They are in turn, and
    /// no more than there may be.
    pub fn held(&self) -> &[Told]
        ensures held { result.now ≡ self.now.held }
        ensures lane { IsLane self.now }
    {
        self.held.as_slice()
    }

    /// How many entries may be held.
    pub fn most(&self) -> usize
        ensures { result ≡ self.now.most }
    {
        self.most
    }

    /// Hears of the entries from the place `from` up to `next`, of which these are addressed to the reader. Those at
    /// places that were told before are passed by: what is held of them stays held. The others are held, and `read`
    /// becomes `next` where it was below. Refused with [`HearError::Hole`] where `from` is above `read`, with
    /// [`HearError::OutOfTurn`] where a place is below `from`, not above the one before, or not below `next`, with
    /// [`HearError::Full`] where more would be held than may be, and with [`HearError::Memory`]. Where it is refused,
    /// the lane stays as it was.
    #[tactic(auto, unfolding(crate::specs::Lane::heard))]
    pub fn hear(&mut self, from: u64, next: u64, entries: Vec<Told>) -> Result<(), HearError>
        ensures heard { Gives Memory (λ _. self.new) result
            (heard from next entries.items self.old) }
        ensures unchanged { OnErr result (self.new ≡ self.old) }
    {
        if self.read < from {
            return Err(HearError::Hole);
        }
        if !are_in_turn(from, next, entries.as_slice()) {
            return Err(HearError::OutOfTurn);
        }
        let mut fresh = fresh(self.read, entries);
        if self.most - self.held.len() < fresh.len() {
            return Err(HearError::Full);
        }
        self.held.append(&mut fresh)?;
        self.read = self.read.max(next);
        Ok(())
    }

    /// The batch of this key of a workflow is learned: all entries that bring it are let go. Takes no memory.
    pub fn learned(&mut self, domain: &Name, workflow: &Name, key: BatchKey)
        ensures { self.new ≡ with_learned domain.now workflow.now key self.old }
    {
        self.held
            .retain(|entry| !entry.is_for(domain, workflow, key));
    }

    /// Goes back to what is done: all from there on is to be told again, and nothing is held. Takes no memory.
    pub fn rewind(&mut self)
        ensures { self.new ≡ rewound self.old }
    {
        self.read = self.done();
        self.held.clear();
    }

    /// The source's queue has another epoch: nothing of it was told. Takes no memory.
    pub fn begin(&mut self, epoch: u64)
        ensures { self.new ≡ begun epoch self.old.most }
    {
        self.epoch = epoch;
        self.read = 0;
        self.held.clear();
    }
}

/// The entries that were not told before.
fn fresh(read: u64, entries: Vec<Told>) -> Vec<Told>
    ensures { result.items ≡ fresh read entries.items }
{
    let mut entries = entries;
    entries.retain(|entry| read <= entry.place);
    entries
}
