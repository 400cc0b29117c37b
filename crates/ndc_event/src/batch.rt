ghost use Rattle.std.specs.Prelude.{◌≡◌, ◌+◌, ◌==◌, IfOk, MatchResult, None, Some, IsTrue, ◌↔◌};
ghost use Rattle.std.specs.List.{list_all};
ghost use Rattle.ndc_event.specs.Batch.{follow_from, are_consecutive, are_of_version, is_first_fit, is_parent_fit, is_carrier_fit, fault_of};

use crate::OutOfMemory;
use crate::key::{BatchKey, RunId};
use crate::kind::EventKind;
use crate::name::Name;
use std::alloc::Global;
use std::marker::Model;
use std::sync::Arc;
use thiserror::Error;

/// One event of a run's history.
#[derive(Clone, Debug, Drop)]
pub struct Event {
    /// The place in the run's history, counted from 1.
    pub id: u64,
    /// The failover version that it was written with.
    pub version: u64,
    /// What happened.
    pub kind: EventKind,
}

impl Event {
    ghost use Rattle.std.specs.Prelude.{◌≡◌, ◌↔◌, IfOk, IsTrue};

    /// The same event.
    pub fn try_copy(&self) -> Result<Event, OutOfMemory>
        ensures { IfOk result (λ copy. copy ≡ self.now) }
    {
        self.clone()
    }

    /// Whether this is the same event, in all its parts.
    pub fn is_same(&self, other: &Event) -> bool
        ensures { IsTrue result ↔ (self.now ≡ other.now) }
    {
        self.id == other.id && self.version == other.version && self.kind.is_same(&other.kind)
    }
}

/// Events that are held alone, or shared with copies.
#[derive(Debug, Drop)]
enum Held {
    Own(Vec<Event>),
    Shared(Arc<Vec<Event>, Global>),
}

/// A list of events, in order: its value is the list. It is made of a `Vec`, which it holds alone, or shares with its
/// copies.
#[derive(Debug, Drop)]
pub struct Events {
    held: Held,
}

impl Model for Events {
    ghost use Rattle.std.specs.Prelude.{List};
    ghost use Rattle.ndc_event.specs.declared.batch.Event.{Event};
    ghost use Rattle.ndc_event.specs.Events.{events_of};

    ghost Value = { List Event };

    ghost view = { λ events. events_of events.held };
}

impl Events {
    ghost use Rattle.std.specs.Prelude.{◌≡◌, ◌↔◌, IfOk, IsTrue};

    /// The list of these events, held alone. It takes no memory.
    pub fn of(items: Vec<Event>) -> Events
        ensures { result ≡ items.items }
    {
        Events {
            held: Held::Own(items),
        }
    }

    /// The list of these events, which its copies share.
    pub fn shared(alloc: Global, items: Vec<Event>) -> Result<Events, OutOfMemory>
        ensures { IfOk result (λ events. events ≡ items.items) }
    {
        let items = Arc::new(alloc, items)?;
        Ok(Events {
            held: Held::Shared(items),
        })
    }

    /// The events, to be read.
    pub fn as_slice(&self) -> &[Event]
        ensures { result.now ≡ self.now }
    {
        match &self.held {
            Held::Own(items) => items.as_slice(),
            Held::Shared(items) => items.as_slice(),
        }
    }

    /// The events, given back. It takes memory only where copies share them, which are left as they are.
    pub fn into_vec(self) -> Result<Vec<Event>, OutOfMemory>
        ensures { IfOk result (λ items. items.items ≡ self) }
    {
        let Events { held } = self;
        match held {
            Held::Own(items) => Ok(items),
            Held::Shared(items) => match Arc::try_unwrap(items) {
                Ok(items) => Ok(items),
                Err(items) => copied(&items),
            },
        }
    }

    /// The same list: over the same events, in the same time for any number of them, where they are shared; else over
    /// copies of them.
    pub fn try_copy(&self) -> Result<Events, OutOfMemory>
        ensures { IfOk result (λ copy. copy ≡ self.now) }
    {
        let held = match &self.held {
            Held::Own(items) => Held::Own(copied(items)?),
            Held::Shared(items) => Held::Shared(Arc::try_clone(items)?),
        };
        Ok(Events { held })
    }

    /// Whether these are the same events.
    pub fn is_same(&self, other: &Events) -> bool
        ensures { IsTrue result ↔ (self.now ≡ other.now) }
    {
        are_same(self.as_slice(), other.as_slice())
    }
}

/// Copies of the events.
fn copied(items: &Vec<Event>) -> Result<Vec<Event>, OutOfMemory>
    ensures { IfOk result (λ copies. copies.items ≡ items.now.items) }
{
    items.clone()
}

/// Whether two lists hold the same events.
fn are_same(one: &[Event], two: &[Event]) -> bool
    ensures { IsTrue result ↔ (one.now ≡ two.now) }
{
    if one.len() != two.len() {
        return false;
    }
    for i in 0..one.len() {
        if !one[i].is_same(&two[i]) {
            return false;
        }
    }
    true
}

/// What a batch may not be, in the order in which it is tested.
#[derive(Clone, Copy, Debug, PartialEq, Eq, Error)]
pub enum BatchFault {
    #[error("the batch has no event")]
    NoEvents,
    #[error("an event's id is not one more than the id before")]
    IdsNotConsecutive,
    #[error("an event's version is not the key's")]
    MixedVersions,
    #[error("the first event does not fit a batch with or without a parent")]
    BadFirst,
    #[error("the parent's key does not come before")]
    BadParent,
    #[error("the carrier is not the batch just before, or stands beside a parent")]
    BadCarrier,
}

/// Events of one version that were written together in one run.
#[derive(Debug, Drop)]
pub struct Batch {
    /// The domain of the workflow.
    pub domain: Name,
    /// The workflow, to which clusters write batches.
    pub workflow: Name,
    /// The run whose history it goes on with.
    pub run: RunId,
    /// Its key, by which other batches name it.
    pub key: BatchKey,
    /// The batch of the same run that it goes below; none in a run's first batch.
    pub parent: Option<BatchKey>,
    /// The batch that closed the run before, where that one continued as this run.
    pub carrier: Option<BatchKey>,
    /// Its events, in the order of their ids.
    pub events: Events,
}

impl Batch {
    ghost use Rattle.std.specs.Prelude.{◌≡◌, ◌↔◌, IfOk, IsTrue, MatchResult, None, Some};
    ghost use Rattle.ndc_event.specs.Batch.{fault_of};

    /// Tests the batch by itself. The faults, the first that holds: there is no event
    /// ([`BatchFault::NoEvents`]); ids do not rise by one ([`BatchFault::IdsNotConsecutive`]); an event's
    /// version is not the key's ([`BatchFault::MixedVersions`]); without a parent the first id is not 1 or the
    /// run is not the key's, or with one the first id is below 2 ([`BatchFault::BadFirst`]); the parent's version
    /// is above the key's or its task not below ([`BatchFault::BadParent`]); there is a carrier beside a parent,
    /// or of another version, or not of the task just before ([`BatchFault::BadCarrier`]).
    pub fn check(&self) -> Result<(), BatchFault>
        ensures { MatchResult result (λ _. fault_of self.now ≡ None) (λ fault.
            fault_of self.now ≡ Some fault) }
    {
        let events = self.events.as_slice();
        let Some(first) = events.first() else {
            return Err(BatchFault::NoEvents);
        };
        if !are_consecutive(events) {
            return Err(BatchFault::IdsNotConsecutive);
        }
        if !are_of_version(self.key.version, events) {
            return Err(BatchFault::MixedVersions);
        }
        if !is_first_fit(self, first.id, self.parent) {
            return Err(BatchFault::BadFirst);
        }
        if !is_parent_fit(self.key, self.parent) {
            return Err(BatchFault::BadParent);
        }
        if !is_carrier_fit(self.key, self.parent, self.carrier) {
            return Err(BatchFault::BadCarrier);
        }
        Ok(())
    }

    /// The same batch.
    pub fn try_copy(&self) -> Result<Batch, OutOfMemory>
        ensures { IfOk result (λ copy. copy ≡ self.now) }
    {
        Ok(Batch {
            domain: self.domain.try_copy()?,
            workflow: self.workflow.try_copy()?,
            run: self.run,
            key: self.key,
            parent: self.parent,
            carrier: self.carrier,
            events: self.events.try_copy()?,
        })
    }

    /// Whether this is the same batch, in all its parts.
    pub fn is_same(&self, other: &Batch) -> bool
        ensures { IsTrue result ↔ (self.now ≡ other.now) }
    {
        self.key == other.key
            && self.run == other.run
            && self.parent == other.parent
            && self.carrier == other.carrier
            && self.domain == other.domain
            && self.workflow == other.workflow
            && self.events.is_same(&other.events)
    }
}

impl Clone for Batch {
    ghost use Rattle.std.specs.Prelude.{◌≡◌};

    ghost is_clone = { λ batch copy. copy ≡ batch };

    fn clone(&self) -> Result<Batch, OutOfMemory> {
        self.try_copy()
    }
}

/// Whether the id is one more than the one before.
fn follows(previous: u64, id: u64) -> bool
    ensures { result ≡ (id == previous + 1) }
{
    id.checked_sub(1) == Some(previous)
}

/// Whether the ids rise by one from event to event.
fn are_consecutive(events: &[Event]) -> bool
    ensures { result ≡ are_consecutive events.now }
{
    let Some((first, rest)) = events.split_first() else {
        return true;
    };
    let mut previous = first.id;
    for event in rest {
        if !follows(previous, event.id) {
            return false;
        }
        previous = event.id;
    }
    true
}

/// Whether each event has this version.
fn are_of_version(version: u64, events: &[Event]) -> bool
    ensures { result ≡ are_of_version version events.now }
{
    events.iter().all(|event| event.version == version)
}

/// Whether the first id and the run fit a batch with this parent.
fn is_first_fit(batch: &Batch, id: u64, parent: Option<BatchKey>) -> bool
    ensures { result ≡ is_first_fit batch.now id parent }
{
    match parent {
        None => id == 1 && batch.run.value == RunId::of(batch.key).value,
        Some(_) => 1 < id,
    }
}

/// Whether the parent comes before the key.
fn is_parent_fit(key: BatchKey, parent: Option<BatchKey>) -> bool
    ensures { result ≡ is_parent_fit key parent }
{
    match parent {
        None => true,
        Some(parent) => !(key.version < parent.version) && parent.task < key.task,
    }
}

/// Whether the carrier is the batch just before the key, with no parent beside it.
fn is_carrier_fit(key: BatchKey, parent: Option<BatchKey>, carrier: Option<BatchKey>) -> bool
    ensures { result ≡ is_carrier_fit key parent carrier }
{
    match carrier {
        None => true,
        Some(carrier) => {
            parent.is_none() && carrier.version == key.version && follows(carrier.task, key.task)
        }
    }
}
