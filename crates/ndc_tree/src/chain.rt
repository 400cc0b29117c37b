ghost use Rattle.std.specs.Prelude.{◌≡◌, ◌<◌, length, IfOk, IfErr};
ghost use Rattle.ndc_event.specs.Sorted.{Hits, InOrder, Parts};
ghost use Rattle.ndc_tree.specs.Events.{IdsGoOn, against_id};
ghost use Rattle.ndc_tree.specs.Places.{comes_before, IsAt, IsGap};

use crate::ids::event_in;
use crate::sorted::put;
use ndc_event::{Batch, BatchKey, Event, OutOfMemory};
use ndc_model_sets::{first_id, last_id};
use std::alloc::Global;
use std::cmp::Ordering;
use std::marker::Model;

/// Batches that are found by key. Seen as their list in key order.
#[derive(Drop)]
pub(crate) struct Chain {
    batches: Vec<Batch>,
}

impl Model for Chain {
    ghost use Rattle.std.specs.Prelude.{List};
    ghost use Rattle.ndc_event.specs.declared.batch.Batch.{Batch};

    ghost Value = { List Batch };

    ghost use Rattle.ndc_event.specs.Sorted.{InOrder};
    ghost use Rattle.ndc_tree.specs.Places.{comes_before};

    ghost view = { λ chain. chain.batches.items };

    ghost invariant = { λ chain. InOrder comes_before chain.batches.items };
}

/// Where the batch of the key stands, or where it would go, by a search through all.
fn search(batches: &[Batch], key: BatchKey) -> Result<usize, usize>
    requires { InOrder comes_before batches.now }
    ensures found { IfOk result (IsAt batches.now key) }
    ensures absent { IfErr result (IsGap batches.now key) }
{
    batches.binary_search_by(|batch| batch.key.cmp(&key))
}

/// Where the batch of the key stands, or where it would go. The last batch is looked at first: what is sought is most often
/// this one, or goes after it.
fn place_of(batches: &[Batch], key: BatchKey) -> Result<usize, usize>
    requires { InOrder comes_before batches.now }
    ensures found { IfOk result (IsAt batches.now key) }
    ensures absent { IfErr result (IsGap batches.now key) }
{
    if batches.is_empty() {
        return Err(0);
    }
    let last = batches.len() - 1;
    let there = batches[last].key;
    if there.is_before(key) {
        return Err(batches.len());
    }
    if !key.is_before(there) {
        return Ok(last);
    }
    search(batches, key)
}

/// How the ids of the batch's events stand to this one: all come before it, all after it, or it is one of them.
fn against_id(batch: &Batch, id: u64) -> Ordering
    ensures { result ≡ against_id id batch.now }
{
    let events = batch.events.as_slice();
    if last_id(events) < id {
        return Ordering::Less;
    }
    if id < first_id(events) {
        return Ordering::Greater;
    }
    Ordering::Equal
}

/// Where the batch with the event of this id stands, or where it would go.
fn search_id(batches: &[Batch], id: u64) -> Result<usize, usize>
    requires { InOrder IdsGoOn batches.now }
    ensures found { IfOk result (Hits (against_id id) batches.now) }
    ensures in_range { IfOk result (λ place. place < length batches.now) }
    ensures absent { IfErr result (Parts (against_id id) batches.now) }
{
    batches.binary_search_by(|batch| against_id(batch, id))
}

impl Chain {
    ghost use Rattle.std.specs.Prelude.{◌≡◌, [], ◌∷◌, IfOk, OnOk, OnErr, slice_get};
    ghost use Rattle.ndc_state.specs.Replay.{history_of};
    ghost use Rattle.ndc_tree.specs.Events.{AreInIdOrder, event_of};
    ghost use Rattle.std.specs.Option.{option_copied};
    ghost use Rattle.ndc_model_sets.specs.Sets.{batch_at, arrived};
    ghost use Rattle.ndc_model_sets.specs.Last.{first_from, last_batch};

    /// The batch alone.
    pub(crate) fn of(alloc: Global, batch: Batch) -> Result<Chain, OutOfMemory>
        ensures { IfOk result (λ chain. chain ≡ batch ∷ []) }
    {
        let mut batches = Vec::new(alloc);
        put(&mut batches, 0, batch)?;
        Ok(Chain { batches })
    }

    /// The batches, in key order.
    pub(crate) fn as_slice(&self) -> &[Batch]
        ensures { result.now ≡ self.now }
    {
        self.batches.as_slice()
    }

    /// The batch of this key.
    pub(crate) fn get(&self, key: BatchKey) -> Option<&Batch>
        ensures { option_copied result ≡ batch_at key self.now }
    {
        match place_of(self.batches.as_slice(), key) {
            Ok(place) => Some(&self.batches[place]),
            Err(_) => None,
        }
    }

    /// The first batch whose key is not before this one. The first of all is looked at before the others are.
    pub(crate) fn first_from(&self, key: BatchKey) -> Option<&Batch>
        ensures { option_copied result ≡ first_from key self.now }
    {
        let first = self.batches.first()?;
        if !first.key.is_before(key) {
            return Some(first);
        }
        let place = match place_of(self.batches.as_slice(), key) {
            Ok(place) => place,
            Err(place) => place,
        };
        self.batches.as_slice().get(place)
    }

    /// The first batch.
    pub(crate) fn first(&self) -> Option<&Batch>
        ensures { option_copied result ≡ slice_get self.now 0 }
    {
        self.batches.first()
    }

    /// The last batch.
    pub(crate) fn last(&self) -> Option<&Batch>
        ensures { option_copied result ≡ last_batch self.now }
    {
        self.batches.last()
    }

    /// The event of this id in one of the batches.
    pub(crate) fn event(&self, id: u64) -> Option<&Event>
        requires { AreInIdOrder self.now }
        ensures { option_copied result ≡ event_of id (history_of self.now) }
    {
        let batches = self.batches.as_slice();
        match search_id(batches, id) {
            Ok(place) => event_in(batches[place].events.as_slice(), id),
            Err(_) => None,
        }
    }

    /// Puts the batch to its place, where none of its key is there.
    pub(crate) fn insert(&mut self, batch: Batch) -> Result<(), OutOfMemory>
        ensures ok { OnOk result (self.new ≡ arrived batch self.old) }
        ensures err { OnErr result (self.new ≡ self.old) }
    {
        match place_of(self.batches.as_slice(), batch.key) {
            Ok(_) => Ok(()),
            Err(place) => put(&mut self.batches, place, batch),
        }
    }
}
