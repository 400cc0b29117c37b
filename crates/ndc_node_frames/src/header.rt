use crate::piece::{MAX_LEVEL, take_items, take_small};
use ndc_event::{Items, Name, OutOfMemory};
use ndc_node_shapes::framed::{push_list, push_nullable, take_nullable};
use ndc_node_shapes::piece::{
    push_end, push_first, push_next, push_number, take_end, take_first, take_name, take_next,
    take_number,
};
use ndc_node_shapes::{Fault, Framed, Text};
use std::alloc::Global;

/// One cluster of a header.
#[derive(Debug, Drop)]
pub struct Seat {
    /// The cluster's name.
    pub name: Name,
    /// Its initial version, 0 to 10^12.
    pub initial: u64,
}

/// Clusters, in the order of their numbers.
pub type Seats = Items<Seat>;

/// What the nodes of a network have in common.
#[derive(Debug, Drop)]
pub struct Header {
    /// The clusters, in the order of their numbers.
    pub clusters: Seats,
    /// The increment of their failover versions, 0 to 10^12.
    pub increment: u64,
    /// The greatest number of events on a branch that a command may leave, 0 to 10^12.
    pub limit: u64,
    /// Into how many shards each cluster cuts its workflows.
    pub shards: u32,
}

impl Framed for Seat {
    ghost use Rattle.ndc_node_frames.specs.Parts.{seat_shape, seat_value};

    ghost shape = { seat_shape };

    ghost value = { seat_value };

    fn push(&self, text: &mut Vec<u8>) -> Result<(), OutOfMemory> {
        push_first(text, "initial")?;
        push_number(text, self.initial)?;
        push_next(text, "name")?;
        self.name.push(text)?;
        push_end(text)
    }

    fn take(alloc: Global, left: &[u8]) -> Result<(Seat, &[u8]), Fault> {
        let left = take_first(left, "initial")?;
        let (initial, left) = take_number(left, 0, MAX_LEVEL)?;
        let left = take_next(left, "name")?;
        let (name, left) = take_name(alloc, left)?;
        let left = take_end(left)?;
        Ok((Seat { name, initial }, left))
    }
}

impl Framed for Header {
    ghost use Rattle.ndc_node_frames.specs.Parts.{header_shape, header_value};

    ghost shape = { header_shape };

    ghost value = { header_value };

    fn push(&self, text: &mut Vec<u8>) -> Result<(), OutOfMemory> {
        push_first(text, "clusters")?;
        push_list(text, self.clusters.as_slice())?;
        push_next(text, "increment")?;
        push_number(text, self.increment)?;
        push_next(text, "limit")?;
        push_number(text, self.limit)?;
        push_next(text, "shards")?;
        push_number(text, u64::from(self.shards))?;
        push_end(text)
    }

    fn take(alloc: Global, left: &[u8]) -> Result<(Header, &[u8]), Fault> {
        let left = take_first(left, "clusters")?;
        let (clusters, left) = take_items::<Seat>(alloc, left)?;
        let left = take_next(left, "increment")?;
        let (increment, left) = take_number(left, 0, MAX_LEVEL)?;
        let left = take_next(left, "limit")?;
        let (limit, left) = take_number(left, 0, MAX_LEVEL)?;
        let left = take_next(left, "shards")?;
        let (shards, left) = take_small(left)?;
        let left = take_end(left)?;
        Ok((
            Header {
                clusters,
                increment,
                limit,
                shards,
            },
            left,
        ))
    }
}
