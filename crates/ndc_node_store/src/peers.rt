use crate::ends::MAX_LEVEL;
use ndc_event::{BatchKey, Items, Name, OutOfMemory};
use ndc_node_frames::{Domains, Late, Lates, Spot};
use ndc_node_shapes::framed::{push_list, push_nullable, take_list, take_nullable};
use ndc_node_shapes::piece::{
    push_end, push_first, push_flag, push_next, push_number, take_end, take_first, take_flag,
    take_name, take_next, take_number,
};
use ndc_node_shapes::{Fault, Framed};
use std::alloc::Global;

/// What a node keeps of another one. The lines of its lanes come after it.
#[derive(Drop)]
pub struct PeerLine {
    /// The domains of which this node has come to have all, until the other no longer says that it is late.
    pub all: Domains,
    /// Whether the other has not polled since this node was loaded, or found itself behind its past.
    pub awaited: bool,
    /// Whether the other was last heard to follow the epochs of this node's queues.
    pub follows: bool,
    /// The greatest frame that the other takes, 0 to 10^12.
    pub largest: u64,
    /// The domains in which this node is late there, each with its place.
    pub late: Lates,
    /// The domains in which the other is late here.
    pub owes: Domains,
    /// Whether the other has sent all that it has for a recall.
    pub recalled: bool,
    /// Whether the other was last heard to have the same records.
    pub records: bool,
    /// Whether the other was last heard to hold the same reports.
    pub reports: bool,
    /// How far the other has come with what it sends for a recall.
    pub spot: Option<Spot>,
}

/// The last entry of a lane that was told as addressed.
#[derive(Clone, Copy)]
pub struct LastTold {
    /// The key of its batch.
    pub key: BatchKey,
    /// Its place in the queue, 0 to 10^12.
    pub place: u64,
}

/// An entry that was told and is not learned.
#[derive(Drop)]
pub struct ToldEntry {
    /// The domain of its batch.
    pub domain: Name,
    /// The key of its batch.
    pub key: BatchKey,
    /// Its place in the queue, 0 to 10^12.
    pub place: u64,
    /// The workflow of its batch.
    pub workflow: Name,
}

/// Entries that were told and are not learned, in order.
pub type ToldEntries = Items<ToldEntry>;

/// What a node keeps of the queue of one shard of another one.
#[derive(Drop)]
pub struct LaneLine {
    /// The queue's epoch, 0 to 10^12.
    pub epoch: u64,
    /// The entries that were told and are not learned.
    pub held: ToldEntries,
    /// The last entry that was told.
    pub last: Option<LastTold>,
    /// How many entries were told, 0 to 10^12.
    pub read: u64,
}

impl Framed for PeerLine {
    ghost use Rattle.ndc_node_store.specs.Lines.{peer_shape, peer_value};

    ghost shape = { peer_shape };

    ghost value = { peer_value };

    fn push(&self, text: &mut Vec<u8>) -> Result<(), OutOfMemory> {
        push_first(text, "all")?;
        push_list(text, self.all.as_slice())?;
        push_next(text, "awaited")?;
        push_flag(text, self.awaited)?;
        push_next(text, "follows")?;
        push_flag(text, self.follows)?;
        push_next(text, "largest")?;
        push_number(text, self.largest)?;
        push_next(text, "late")?;
        push_list(text, self.late.as_slice())?;
        push_next(text, "owes")?;
        push_list(text, self.owes.as_slice())?;
        push_next(text, "recalled")?;
        push_flag(text, self.recalled)?;
        push_next(text, "records")?;
        push_flag(text, self.records)?;
        push_next(text, "reports")?;
        push_flag(text, self.reports)?;
        push_next(text, "spot")?;
        push_nullable(text, self.spot.as_ref())?;
        push_end(text)
    }

    fn take(alloc: Global, left: &[u8]) -> Result<(PeerLine, &[u8]), Fault> {
        let left = take_first(left, "all")?;
        let (all, left) = take_list::<Name>(alloc, left)?;
        let left = take_next(left, "awaited")?;
        let (awaited, left) = take_flag(left)?;
        let left = take_next(left, "follows")?;
        let (follows, left) = take_flag(left)?;
        let left = take_next(left, "largest")?;
        let (largest, left) = take_number(left, 0, MAX_LEVEL)?;
        let left = take_next(left, "late")?;
        let (late, left) = take_list::<Late>(alloc, left)?;
        let left = take_next(left, "owes")?;
        let (owes, left) = take_list::<Name>(alloc, left)?;
        let left = take_next(left, "recalled")?;
        let (recalled, left) = take_flag(left)?;
        let left = take_next(left, "records")?;
        let (records, left) = take_flag(left)?;
        let left = take_next(left, "reports")?;
        let (reports, left) = take_flag(left)?;
        let left = take_next(left, "spot")?;
        let (spot, left) = take_nullable::<Spot>(alloc, left)?;
        let left = take_end(left)?;
        Ok((
            PeerLine {
                all: Domains::new(all),
                awaited,
                follows,
                largest,
                late: Lates::new(late),
                owes: Domains::new(owes),
                recalled,
                records,
                reports,
                spot,
            },
            left,
        ))
    }
}

impl Framed for LastTold {
    ghost use Rattle.ndc_node_store.specs.Lines.{last_shape, last_value};

    ghost shape = { last_shape };

    ghost value = { last_value };

    fn push(&self, text: &mut Vec<u8>) -> Result<(), OutOfMemory> {
        push_first(text, "key")?;
        self.key.push(text)?;
        push_next(text, "place")?;
        push_number(text, self.place)?;
        push_end(text)
    }

    fn take(alloc: Global, left: &[u8]) -> Result<(LastTold, &[u8]), Fault> {
        let left = take_first(left, "key")?;
        let (key, left) = BatchKey::take(alloc, left)?;
        let left = take_next(left, "place")?;
        let (place, left) = take_number(left, 0, MAX_LEVEL)?;
        let left = take_end(left)?;
        Ok((LastTold { key, place }, left))
    }
}

impl Framed for ToldEntry {
    ghost use Rattle.ndc_node_store.specs.Lines.{told_shape, told_value};

    ghost shape = { told_shape };

    ghost value = { told_value };

    fn push(&self, text: &mut Vec<u8>) -> Result<(), OutOfMemory> {
        push_first(text, "domain")?;
        self.domain.push(text)?;
        push_next(text, "key")?;
        self.key.push(text)?;
        push_next(text, "place")?;
        push_number(text, self.place)?;
        push_next(text, "workflow")?;
        self.workflow.push(text)?;
        push_end(text)
    }

    fn take(alloc: Global, left: &[u8]) -> Result<(ToldEntry, &[u8]), Fault> {
        let left = take_first(left, "domain")?;
        let (domain, left) = take_name(alloc, left)?;
        let left = take_next(left, "key")?;
        let (key, left) = BatchKey::take(alloc, left)?;
        let left = take_next(left, "place")?;
        let (place, left) = take_number(left, 0, MAX_LEVEL)?;
        let left = take_next(left, "workflow")?;
        let (workflow, left) = take_name(alloc, left)?;
        let left = take_end(left)?;
        Ok((
            ToldEntry {
                domain,
                key,
                place,
                workflow,
            },
            left,
        ))
    }
}

impl Framed for LaneLine {
    ghost use Rattle.ndc_node_store.specs.Lines.{lane_shape, lane_value};

    ghost shape = { lane_shape };

    ghost value = { lane_value };

    fn push(&self, text: &mut Vec<u8>) -> Result<(), OutOfMemory> {
        push_first(text, "epoch")?;
        push_number(text, self.epoch)?;
        push_next(text, "held")?;
        push_list(text, self.held.as_slice())?;
        push_next(text, "last")?;
        push_nullable(text, self.last.as_ref())?;
        push_next(text, "read")?;
        push_number(text, self.read)?;
        push_end(text)
    }

    fn take(alloc: Global, left: &[u8]) -> Result<(LaneLine, &[u8]), Fault> {
        let left = take_first(left, "epoch")?;
        let (epoch, left) = take_number(left, 0, MAX_LEVEL)?;
        let left = take_next(left, "held")?;
        let (held, left) = take_list::<ToldEntry>(alloc, left)?;
        let left = take_next(left, "last")?;
        let (last, left) = take_nullable::<LastTold>(alloc, left)?;
        let left = take_next(left, "read")?;
        let (read, left) = take_number(left, 0, MAX_LEVEL)?;
        let left = take_end(left)?;
        let held = ToldEntries::new(held);
        Ok((
            LaneLine {
                epoch,
                held,
                last,
                read,
            },
            left,
        ))
    }
}
