use crate::body::Messages;
use crate::handover::{Offer, Offers};
use crate::piece::{MAX_LEVEL, take_items};
use crate::place::Place;
use crate::record::{ToldRecord, ToldRecords};
use ndc_event::{Items, Name, OutOfMemory};
use ndc_node_shapes::framed::{push_list, push_nullable, take_nullable};
use ndc_node_shapes::piece::{
    push_end, push_first, push_flag, push_next, push_number, take_end, take_first, take_flag,
    take_name, take_next, take_number,
};
use ndc_node_shapes::{Fault, Framed, Text};
use std::alloc::Global;

/// Records that are told.
#[derive(Debug, Drop)]
pub struct Records {
    /// The records.
    pub records: ToldRecords,
}

/// A piece of all of a domain, for a reader that is late in it.
#[derive(Debug, Drop)]
pub struct Bootstrap {
    /// The domain.
    pub domain: Name,
    /// The place from which the piece goes; none where it begins with the first batch.
    pub from: Option<Place>,
    /// The texts of the messages, in order.
    pub messages: Messages,
    /// Whether they are the last ones.
    pub last: bool,
}

/// A place in what a node serves of all domains.
#[derive(Debug, Drop)]
pub struct Spot {
    /// The domain.
    pub domain: Name,
    /// The place in it.
    pub place: Place,
}

/// A node asks for all that has versions of its own.
#[derive(Debug, Drop)]
pub struct Recall {
    /// The greatest frame that it takes, in bytes.
    pub largest: u64,
    /// The place up to which it has come; none in the beginning.
    pub after: Option<Spot>,
}

/// A piece of what is sent for a recall.
#[derive(Debug, Drop)]
pub struct Recalled {
    /// The place from which the piece goes; none where it is the first one.
    pub after: Option<Spot>,
    /// The texts of the messages, in order.
    pub messages: Messages,
    /// Whether they are the last ones.
    pub last: bool,
    /// The records of the sender.
    pub records: ToldRecords,
    /// The open handovers that the node that asks has begun.
    pub handovers: Offers,
}

impl Framed for Records {
    ghost use Rattle.ndc_node_frames.specs.Parts.{records_shape, records_value};

    ghost shape = { records_shape };

    ghost value = { records_value };

    fn push(&self, text: &mut Vec<u8>) -> Result<(), OutOfMemory> {
        push_first(text, "records")?;
        push_list(text, self.records.as_slice())?;
        push_end(text)
    }

    fn take(alloc: Global, left: &[u8]) -> Result<(Records, &[u8]), Fault> {
        let left = take_first(left, "records")?;
        let (records, left) = take_items::<ToldRecord>(alloc, left)?;
        let left = take_end(left)?;
        Ok((Records { records }, left))
    }
}

impl Framed for Bootstrap {
    ghost use Rattle.ndc_node_frames.specs.Parts.{bootstrap_shape, bootstrap_value};

    ghost shape = { bootstrap_shape };

    ghost value = { bootstrap_value };

    fn push(&self, text: &mut Vec<u8>) -> Result<(), OutOfMemory> {
        push_first(text, "domain")?;
        self.domain.push(text)?;
        push_next(text, "from")?;
        push_nullable(text, self.from.as_ref())?;
        push_next(text, "last")?;
        push_flag(text, self.last)?;
        push_next(text, "messages")?;
        push_list(text, self.messages.as_slice())?;
        push_end(text)
    }

    fn take(alloc: Global, left: &[u8]) -> Result<(Bootstrap, &[u8]), Fault> {
        let left = take_first(left, "domain")?;
        let (domain, left) = take_name(alloc, left)?;
        let left = take_next(left, "from")?;
        let (from, left) = take_nullable::<Place>(alloc, left)?;
        let left = take_next(left, "last")?;
        let (last, left) = take_flag(left)?;
        let left = take_next(left, "messages")?;
        let (messages, left) = take_items::<Text>(alloc, left)?;
        let left = take_end(left)?;
        Ok((
            Bootstrap {
                domain,
                from,
                messages,
                last,
            },
            left,
        ))
    }
}

impl Framed for Spot {
    ghost use Rattle.ndc_node_frames.specs.Parts.{spot_shape, spot_value};

    ghost shape = { spot_shape };

    ghost value = { spot_value };

    fn push(&self, text: &mut Vec<u8>) -> Result<(), OutOfMemory> {
        push_first(text, "domain")?;
        self.domain.push(text)?;
        push_next(text, "place")?;
        self.place.push(text)?;
        push_end(text)
    }

    fn take(alloc: Global, left: &[u8]) -> Result<(Spot, &[u8]), Fault> {
        let left = take_first(left, "domain")?;
        let (domain, left) = take_name(alloc, left)?;
        let left = take_next(left, "place")?;
        let (place, left) = Place::take(alloc, left)?;
        let left = take_end(left)?;
        Ok((Spot { domain, place }, left))
    }
}

impl Framed for Recall {
    ghost use Rattle.ndc_node_frames.specs.Parts.{recall_shape, recall_value};

    ghost shape = { recall_shape };

    ghost value = { recall_value };

    fn push(&self, text: &mut Vec<u8>) -> Result<(), OutOfMemory> {
        push_first(text, "after")?;
        push_nullable(text, self.after.as_ref())?;
        push_next(text, "largest")?;
        push_number(text, self.largest)?;
        push_end(text)
    }

    fn take(alloc: Global, left: &[u8]) -> Result<(Recall, &[u8]), Fault> {
        let left = take_first(left, "after")?;
        let (after, left) = take_nullable::<Spot>(alloc, left)?;
        let left = take_next(left, "largest")?;
        let (largest, left) = take_number(left, 0, MAX_LEVEL)?;
        let left = take_end(left)?;
        Ok((Recall { largest, after }, left))
    }
}

impl Framed for Recalled {
    ghost use Rattle.ndc_node_frames.specs.Parts.{recalled_shape, recalled_value};

    ghost shape = { recalled_shape };

    ghost value = { recalled_value };

    fn push(&self, text: &mut Vec<u8>) -> Result<(), OutOfMemory> {
        push_first(text, "after")?;
        push_nullable(text, self.after.as_ref())?;
        push_next(text, "handovers")?;
        push_list(text, self.handovers.as_slice())?;
        push_next(text, "last")?;
        push_flag(text, self.last)?;
        push_next(text, "messages")?;
        push_list(text, self.messages.as_slice())?;
        push_next(text, "records")?;
        push_list(text, self.records.as_slice())?;
        push_end(text)
    }

    fn take(alloc: Global, left: &[u8]) -> Result<(Recalled, &[u8]), Fault> {
        let left = take_first(left, "after")?;
        let (after, left) = take_nullable::<Spot>(alloc, left)?;
        let left = take_next(left, "handovers")?;
        let (handovers, left) = take_items::<Offer>(alloc, left)?;
        let left = take_next(left, "last")?;
        let (last, left) = take_flag(left)?;
        let left = take_next(left, "messages")?;
        let (messages, left) = take_items::<Text>(alloc, left)?;
        let left = take_next(left, "records")?;
        let (records, left) = take_items::<ToldRecord>(alloc, left)?;
        let left = take_end(left)?;
        Ok((
            Recalled {
                after,
                messages,
                last,
                records,
                handovers,
            },
            left,
        ))
    }
}
