use crate::piece::{MAX_LEVEL, take_items};
use crate::record::ToldRecord;
use ndc_event::{Items, Name, OutOfMemory};
use ndc_node_shapes::framed::push_list;
use ndc_node_shapes::piece::{
    MAX_VERSION, push_end, push_first, push_flag, push_next, push_number, take_end, take_first,
    take_flag, take_name, take_next, take_number,
};
use ndc_node_shapes::{Fault, Framed};
use std::alloc::Global;

/// A place in the queue of a shard, in an epoch of it.
#[derive(Clone, Copy, Debug, PartialEq, Eq)]
pub struct Promised {
    /// The epoch of the queue.
    pub epoch: u64,
    /// The place.
    pub place: u64,
}

/// Places for each shard, in order.
pub type PromisedList = Items<Promised>;

/// A handover, as the cluster that was active tells it to the one that is to be.
#[derive(Debug, Drop)]
pub struct Offer {
    /// The domain that is handed over.
    pub domain: Name,
    /// The version of the record before the handover, 0 to 10^13.
    pub old: u64,
    /// The version that the handover has given the record, 0 to 10^13.
    pub new: u64,
    /// For each shard how far the target is to be done with the queue of the cluster that was active.
    pub places: PromisedList,
    /// Whether the cluster that was active holds the target late in the domain.
    pub late: bool,
    /// The record that the handover has made.
    pub record: ToldRecord,
}

/// Handovers, in order.
pub type Offers = Items<Offer>;

impl Framed for Promised {
    ghost use Rattle.ndc_node_frames.specs.Parts.{promised_shape, promised_value};

    ghost shape = { promised_shape };

    ghost value = { promised_value };

    fn push(&self, text: &mut Vec<u8>) -> Result<(), OutOfMemory> {
        push_first(text, "epoch")?;
        push_number(text, self.epoch)?;
        push_next(text, "place")?;
        push_number(text, self.place)?;
        push_end(text)
    }

    fn take(_alloc: Global, left: &[u8]) -> Result<(Promised, &[u8]), Fault> {
        let left = take_first(left, "epoch")?;
        let (epoch, left) = take_number(left, 0, MAX_LEVEL)?;
        let left = take_next(left, "place")?;
        let (place, left) = take_number(left, 0, MAX_LEVEL)?;
        let left = take_end(left)?;
        Ok((Promised { epoch, place }, left))
    }
}

impl Framed for Offer {
    ghost use Rattle.ndc_node_frames.specs.Parts.{offer_shape, offer_value};

    ghost shape = { offer_shape };

    ghost value = { offer_value };

    fn push(&self, text: &mut Vec<u8>) -> Result<(), OutOfMemory> {
        push_first(text, "domain")?;
        self.domain.push(text)?;
        push_next(text, "late")?;
        push_flag(text, self.late)?;
        push_next(text, "new")?;
        push_number(text, self.new)?;
        push_next(text, "old")?;
        push_number(text, self.old)?;
        push_next(text, "places")?;
        push_list(text, self.places.as_slice())?;
        push_next(text, "record")?;
        self.record.push(text)?;
        push_end(text)
    }

    fn take(alloc: Global, left: &[u8]) -> Result<(Offer, &[u8]), Fault> {
        let left = take_first(left, "domain")?;
        let (domain, left) = take_name(alloc, left)?;
        let left = take_next(left, "late")?;
        let (late, left) = take_flag(left)?;
        let left = take_next(left, "new")?;
        let (new, left) = take_number(left, 0, MAX_VERSION)?;
        let left = take_next(left, "old")?;
        let (old, left) = take_number(left, 0, MAX_VERSION)?;
        let left = take_next(left, "places")?;
        let (places, left) = take_items::<Promised>(alloc, left)?;
        let left = take_next(left, "record")?;
        let (record, left) = ToldRecord::take(alloc, left)?;
        let left = take_end(left)?;
        Ok((
            Offer {
                domain,
                old,
                new,
                places,
                late,
                record,
            },
            left,
        ))
    }
}
