use crate::ends::MAX_LEVEL;
use ndc_event::{Items, OutOfMemory};
use ndc_node_shapes::framed::{push_list, take_list};
use ndc_node_shapes::piece::{
    push_end, push_first, push_next, push_number, take_end, take_first, take_next, take_number,
};
use ndc_node_shapes::{Fault, Framed};
use std::alloc::Global;

/// A level or a place in a queue.
#[derive(Clone, Copy)]
pub struct Level {
    /// From 0 to 10^12.
    pub level: u64,
}

/// Levels or places, in order.
pub type LevelList = Items<Level>;

/// What a node keeps of the queue of a shard. The lines of what is learned, put off and queued there come after it.
#[derive(Drop)]
pub struct ShardLine {
    /// The queue's epoch.
    pub epoch: u64,
    /// How many of its entries were dropped.
    pub first: u64,
    /// For each reader how far it has told to be done.
    pub told: LevelList,
}

impl Framed for Level {
    ghost use Rattle.ndc_node_frames.specs.Parts.{level};
    ghost use Rattle.ndc_node_store.specs.Lines.{level_value};

    ghost shape = { level };

    ghost value = { level_value };

    fn push(&self, text: &mut Vec<u8>) -> Result<(), OutOfMemory> {
        push_number(text, self.level)
    }

    fn take(_alloc: Global, left: &[u8]) -> Result<(Level, &[u8]), Fault> {
        let (level, left) = take_number(left, 0, MAX_LEVEL)?;
        Ok((Level { level }, left))
    }
}

impl Framed for ShardLine {
    ghost use Rattle.ndc_node_store.specs.Lines.{shard_shape, shard_value};

    ghost shape = { shard_shape };

    ghost value = { shard_value };

    fn push(&self, text: &mut Vec<u8>) -> Result<(), OutOfMemory> {
        push_first(text, "epoch")?;
        push_number(text, self.epoch)?;
        push_next(text, "first")?;
        push_number(text, self.first)?;
        push_next(text, "told")?;
        push_list(text, self.told.as_slice())?;
        push_end(text)
    }

    fn take(alloc: Global, left: &[u8]) -> Result<(ShardLine, &[u8]), Fault> {
        let left = take_first(left, "epoch")?;
        let (epoch, left) = take_number(left, 0, MAX_LEVEL)?;
        let left = take_next(left, "first")?;
        let (first, left) = take_number(left, 0, MAX_LEVEL)?;
        let left = take_next(left, "told")?;
        let (told, left) = take_list::<Level>(alloc, left)?;
        let left = take_end(left)?;
        let told = LevelList::new(told);
        Ok((ShardLine { epoch, first, told }, left))
    }
}
