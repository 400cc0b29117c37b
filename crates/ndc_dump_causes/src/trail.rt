// Paths gone over for origins that come again.
ghost use Rattle.std.specs.Prelude.{◌≡◌, false, Ok, IfOk, OnOk};
ghost use Rattle.ndc_dump_causes.specs.Causes.{has_origin_twice, holds_of_none, is_ill_formed};
ghost use Rattle.ndc_dump_causes.specs.Given.{AreRead};
ghost use Rattle.ndc_dump_causes.specs.Trails.{AreKnown, IsTrail};
ghost use Rattle.ndc_dump_causes.specs.declared.error.KeyCause.TheVariants.{NotWellFormed};

use crate::keys::KeySet;
use crate::order::Step;
use indexmap::IndexSet;
use ndc_event::{Batch, BatchKey, Event, EventKind, Origin, OutOfMemory, RunId};
use ndc_state::origin_of;
use std::alloc::Global;
use std::marker::Model;

/// A batch of the path that is gone over, and how many origins were listed when its own were.
#[derive(Clone, Copy)]
pub(crate) struct Opened {
    key: BatchKey,
    count: usize,
}

/// A path, and the origins of the signals on it. The set finds an origin without going over the others.
#[derive(Drop)]
pub(crate) struct Trail {
    opened: Vec<Opened>,
    origins: IndexSet<Origin>,
}

impl Model for Trail {
    ghost use Rattle.ndc_dump_causes.specs.Trails.{TrailValue};

    ghost Value = { TrailValue };

    ghost view = { λ t. record { opened = t.opened.items; listed = t.origins.keys } };
}

impl Trail {
    ghost use Rattle.std.specs.Prelude.{◌≡◌, ◌++◌, ◌||◌, ◌∷◌, true, false, not, [], length, take, OnOk, IfOk, Some, None};
    ghost use Rattle.ndc_event.specs.declared.key.BatchKey.{BatchKey};
    ghost use Rattle.ndc_model_sets.specs.Origins.{origins_in};
    ghost use Rattle.ndc_model_sets.specs.Sets.{Has};
    ghost use Rattle.ndc_state.specs.Origins.{is_among, with_origin};
    ghost use Rattle.ndc_state.specs.Replay.{collected};
    ghost use Rattle.ndc_dump_causes.specs.Causes.{comes_again, has_origin_twice, holds_of_none, is_ill_formed};
    ghost use Rattle.ndc_dump_causes.specs.Given.{AreRead};
    ghost use Rattle.ndc_dump_causes.specs.Trails.{IsAt, IsListed, IsTrail, signal_again, signal_listed};
    ghost use Rattle.ndc_dump_causes.specs.declared.error.KeyCause.TheVariants.{NotWellFormed};

    /// Nothing is open.
    fn new(alloc: Global) -> Trail
        ensures opened { result.opened ≡ [] }
        ensures listed { result.listed ≡ [] }
    {
        Trail {
            opened: Vec::new(alloc),
            origins: IndexSet::new(alloc),
        }
    }

    /// Goes back to the batch of this key, where it is open; answers whether it is.
    fn go_back_to(&mut self, batches: &[Batch], key: BatchKey) -> Result<bool, OutOfMemory>
        requires { IsTrail batches.now self.old }
        ensures trail { OnOk result (IsTrail batches.now self.new) }
        ensures at { IfOk result (λ is_open.
            is_open ≡ true → IsListed batches.now self.new.listed key) }
    {
        let place = self
            .opened
            .as_slice()
            .partition_point(|opened| opened.key.is_before(key));
        self.opened.truncate(place.saturating_add(1));
        let Some(last) = self.opened.pop() else {
            return Ok(false);
        };
        self.opened.push(last)?;
        if last.key != key {
            return Ok(false);
        }
        self.origins.truncate(last.count);
        Ok(true)
    }

    /// Goes back to what this parent names, where it is open, or to the beginning; answers whether it could.
    fn go_back(&mut self, batches: &[Batch], parent: Option<BatchKey>) -> Result<bool, OutOfMemory>
        requires { IsTrail batches.now self.old }
        ensures trail { OnOk result (IsTrail batches.now self.new) }
        ensures at { IfOk result (λ is_open.
            is_open ≡ true → IsAt batches.now self.new.listed parent) }
    {
        match parent {
            Some(key) => self.go_back_to(batches, key),
            None => {
                self.opened.truncate(0);
                Ok(true)
            }
        }
    }

    /// Lists an origin, where it is not listed; answers whether it was.
    fn list(&mut self, origin: Origin) -> Result<bool, OutOfMemory>
        ensures again { IfOk result (λ again. again ≡ is_among origin self.old.listed) }
        ensures listed { OnOk result (self.new.listed ≡ with_origin origin self.old.listed) }
        ensures opened { self.new.opened ≡ self.old.opened }
    {
        let is_new = self.origins.insert(origin)?;
        Ok(!is_new)
    }

    /// Lists the origin of an event, where it is a signal; answers whether it was listed before.
    fn list_one(&mut self, run: RunId, event: &Event) -> Result<bool, OutOfMemory>
        ensures again { IfOk result (λ again. again ≡ signal_again run event.now self.old.listed) }
        ensures listed { OnOk result
            (self.new.listed ≡ signal_listed run event.now self.old.listed) }
        ensures opened { self.new.opened ≡ self.old.opened }
    {
        match &event.kind {
            EventKind::WorkflowExecutionSignaled { origin, .. } => {
                let again = self.list(origin_of(run, event, origin))?;
                Ok(again)
            }
            _ => Ok(false),
        }
    }

    /// Lists the origins of the signals among the events; answers whether one of them was listed before it.
    fn list_all(&mut self, run: RunId, events: &[Event]) -> Result<bool, OutOfMemory>
        ensures again { IfOk result (λ again.
            again ≡ comes_again self.old.listed (origins_in run events.now)) }
        ensures listed { OnOk result (self.new.listed ≡ collected run self.old.listed events.now) }
        ensures opened { self.new.opened ≡ self.old.opened }
    {
        let mut again = false;
        for event in events {
            let is_again = self.list_one(run, event)?;
            again = again || is_again;
        }
        Ok(again)
    }

    /// Opens a batch after its parent, where this is open and no origin comes again; answers whether the batch is open.
    fn open(&mut self, batches: &[Batch], batch: &Batch) -> Result<bool, OutOfMemory>
        requires read { AreRead batches.now }
        requires formed { holds_of_none NotWellFormed (is_ill_formed batches.now) batches.now
            ≡ Ok tt }
        requires has { Has batches.now batch.now }
        requires trail { IsTrail batches.now self.old }
        ensures trail { OnOk result (IsTrail batches.now self.new) }
        ensures once { IfOk result (λ is_open.
            is_open ≡ true → has_origin_twice batches.now batch.now ≡ false) }
    {
        if !self.go_back(batches, batch.parent)? {
            return Ok(false);
        }
        let before = self.origins.len();
        if self.list_all(batch.run, batch.events.as_slice())? {
            self.origins.truncate(before);
            return Ok(false);
        }
        let opened = Opened {
            key: batch.key,
            count: self.origins.len(),
        };
        self.opened.push(opened)?;
        Ok(true)
    }
}

/// Goes over the batch of a step, and lists its key where no origin stands twice on its path.
fn go_over(
    trail: &mut Trail,
    keys: &mut KeySet,
    batches: &[Batch],
    step: &Step,
) -> Result<(), OutOfMemory>
    requires read { AreRead batches.now }
    requires formed { holds_of_none NotWellFormed (is_ill_formed batches.now) batches.now ≡ Ok tt }
    requires trail { IsTrail batches.now trail.old }
    requires known { AreKnown (λ b. has_origin_twice batches.now b ≡ false) batches.now keys.old }
    ensures trail { OnOk result (IsTrail batches.now trail.new) }
    ensures known { OnOk result
        (AreKnown (λ b. has_origin_twice batches.now b ≡ false) batches.now keys.new) }
{
    if batches.len() <= step.place {
        return Ok(());
    }
    let batch = &batches[step.place];
    if !trail.open(batches, batch)? {
        return Ok(());
    }
    keys.insert(batch.key)?;
    Ok(())
}

/// Keys of batches on whose paths no origin stands twice: of all those of which this is true, where the steps come from
/// [`crate::order::steps_of`]. Each batch is gone over once.
pub(crate) fn keys_without_origin_twice(
    alloc: Global,
    batches: &[Batch],
    steps: &[Step],
) -> Result<KeySet, OutOfMemory>
    requires read { AreRead batches.now }
    requires formed { holds_of_none NotWellFormed (is_ill_formed batches.now) batches.now ≡ Ok tt }
    ensures { IfOk result (λ keys.
        AreKnown (λ b. has_origin_twice batches.now b ≡ false) batches.now keys) }
{
    let mut trail = Trail::new(alloc);
    let mut keys = KeySet::new(alloc);
    for step in steps {
        go_over(&mut trail, &mut keys, batches, step)?;
    }
    Ok(keys)
}
