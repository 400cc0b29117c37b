// An order in which the batches of a set are well gone over.
use ndc_event::{Batch, BatchKey, OutOfMemory};
use std::alloc::Global;

/// A batch to be gone over.
#[derive(Clone, Copy)]
pub(crate) struct Step {
    /// Its place among the batches.
    pub(crate) place: usize,
    /// Whether a batch that hangs below it comes later.
    pub(crate) has_child: bool,
    /// Whether no other batch comes later that hangs below its parent.
    pub(crate) is_last: bool,
}

/// What is known of the batches' order while they are gone over by key.
#[derive(Drop)]
struct Chain {
    /// The place that comes after each of the places so far; the number of batches where none does.
    next: Vec<usize>,
    /// Whether some batch so far hangs below the one at a place.
    parents: Vec<bool>,
    /// Whether the one at a place is the first that hangs below its parent.
    firsts: Vec<bool>,
    /// The place that comes first.
    first: usize,
}

impl Chain {
    /// No place yet, of so many.
    fn new(alloc: Global, count: usize) -> Result<Chain, OutOfMemory> {
        Ok(Chain {
            next: Vec::with_capacity(alloc, count)?,
            parents: Vec::with_capacity(alloc, count)?,
            firsts: Vec::with_capacity(alloc, count)?,
            first: count,
        })
    }

    /// Puts the next place right after its parent's, or before all.
    fn put(&mut self, parent: usize) -> Result<(), OutOfMemory> {
        let place = self.next.len();
        let mut is_first = true;
        let mut behind = self.first;
        match self.next.get_mut(parent) {
            Some(next) => {
                behind = *next;
                *next = place;
            }
            None => self.first = place,
        }
        if let Some(has_child) = self.parents.get_mut(parent) {
            is_first = !*has_child;
            *has_child = true;
        }
        self.next.push(behind)?;
        self.parents.push(false)?;
        self.firsts.push(is_first)?;
        Ok(())
    }

    /// What is known of the batch at a place.
    fn step_at(&self, place: usize) -> Step {
        Step {
            place,
            has_child: matches!(self.parents.get(place), Some(true)),
            is_last: matches!(self.firsts.get(place), Some(true)),
        }
    }
}

/// The place of the batch of this key; the number of batches where there is none.
fn place_of(batches: &[Batch], key: Option<BatchKey>) -> usize {
    match key {
        None => batches.len(),
        Some(key) => batches.partition_point(|other| other.key.is_before(key)),
    }
}

/// The batches in an order in which each comes after its parent, and all that hangs below a batch comes right after
/// it. No clause says so: who goes over batches in this order looks whether a parent is the one that is wanted, and what
/// is promised does not rest on it.
pub(crate) fn steps_of(alloc: Global, batches: &[Batch]) -> Result<Vec<Step>, OutOfMemory> {
    let mut chain = Chain::new(alloc, batches.len())?;
    for batch in batches {
        chain.put(place_of(batches, batch.parent))?;
    }
    let mut steps = Vec::with_capacity(alloc, batches.len())?;
    let mut place = chain.first;
    for _ in batches {
        match chain.next.get(place) {
            None => return Ok(steps),
            Some(next) => {
                steps.push(chain.step_at(place))?;
                place = *next;
            }
        }
    }
    Ok(steps)
}
