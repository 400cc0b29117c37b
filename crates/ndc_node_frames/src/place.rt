use crate::piece::{MAX_LEVEL, take_items, take_small};
use ndc_event::{BatchKey, Name, OutOfMemory};
use ndc_node_shapes::framed::{push_list, push_nullable, take_nullable};
use ndc_node_shapes::piece::{
    push_end, push_first, push_next, push_number, take_end, take_first, take_name, take_next,
    take_number,
};
use ndc_node_shapes::{Fault, Framed, Text};
use std::alloc::Global;

/// A place in what a source serves of a domain: all up to this batch of this workflow, by shards, in each by workflows, and
/// there by keys.
#[derive(Debug, Drop)]
pub struct Place {
    /// The shard, counted from 0.
    pub shard: u32,
    /// The workflow.
    pub workflow: Name,
    /// The key of the batch.
    pub key: BatchKey,
}

/// A domain in which a reader is late.
#[derive(Debug, Drop)]
pub struct Late {
    /// The domain.
    pub domain: Name,
    /// The place up to which the reader has all of it; none where it has nothing.
    pub place: Option<Place>,
}

impl Framed for Place {
    ghost use Rattle.ndc_node_frames.specs.Parts.{place_shape, place_value};

    ghost shape = { place_shape };

    ghost value = { place_value };

    fn push(&self, text: &mut Vec<u8>) -> Result<(), OutOfMemory> {
        push_first(text, "key")?;
        self.key.push(text)?;
        push_next(text, "shard")?;
        push_number(text, u64::from(self.shard))?;
        push_next(text, "workflow")?;
        self.workflow.push(text)?;
        push_end(text)
    }

    fn take(alloc: Global, left: &[u8]) -> Result<(Place, &[u8]), Fault> {
        let left = take_first(left, "key")?;
        let (key, left) = BatchKey::take(alloc, left)?;
        let left = take_next(left, "shard")?;
        let (shard, left) = take_small(left)?;
        let left = take_next(left, "workflow")?;
        let (workflow, left) = take_name(alloc, left)?;
        let left = take_end(left)?;
        Ok((
            Place {
                shard,
                workflow,
                key,
            },
            left,
        ))
    }
}

impl Framed for Late {
    ghost use Rattle.ndc_node_frames.specs.Parts.{late_shape, late_value};

    ghost shape = { late_shape };

    ghost value = { late_value };

    fn push(&self, text: &mut Vec<u8>) -> Result<(), OutOfMemory> {
        push_first(text, "domain")?;
        self.domain.push(text)?;
        push_next(text, "place")?;
        push_nullable(text, self.place.as_ref())?;
        push_end(text)
    }

    fn take(alloc: Global, left: &[u8]) -> Result<(Late, &[u8]), Fault> {
        let left = take_first(left, "domain")?;
        let (domain, left) = take_name(alloc, left)?;
        let left = take_next(left, "place")?;
        let (place, left) = take_nullable::<Place>(alloc, left)?;
        let left = take_end(left)?;
        Ok((Late { domain, place }, left))
    }
}
