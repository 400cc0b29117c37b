//! The places where blocks are drawn.
ghost use Rattle.std.specs.Prelude.{◌≡◌};
ghost use Rattle.std.specs.Option.{option_copied};
ghost use Rattle.ndc_explain_picture.specs.Places.{bottom_of};

use indexmap::IndexMap;
use ndc_event::{Batch, BatchKey, Event, EventKind, Origin, OutOfMemory, Rare, RunId};
use ndc_state::origin_of;
use std::alloc::Global;
use std::marker::Model;

/// Where a block is drawn: the left end of its lane, and where it begins and ends in it.
#[derive(Clone, Copy, Debug, Drop)]
pub(crate) struct Place {
    pub(crate) left: u64,
    pub(crate) top: u64,
    pub(crate) bottom: u64,
}

/// The place of the block of each batch, and of the block where each signal was first written.
#[derive(Drop)]
pub(crate) struct Places {
    keys: IndexMap<BatchKey, Place>,
    signals: IndexMap<Origin, Place>,
}

impl Model for Places {
    ghost use Rattle.ndc_explain_picture.specs.Places.{Placed};

    ghost Value = { Placed };

    ghost view = { λ places. record { keys = places.keys.entries; signals = places.signals.entries } };
}

/// Where a place ends; 0 where there is none.
pub(crate) fn bottom_of(place: Option<&Place>) -> u64
    ensures { result ≡ bottom_of (option_copied place.entry) }
{
    match place {
        None => 0,
        Some(place) => place.bottom,
    }
}

impl Places {
    ghost use Rattle.std.specs.Prelude.{◌≡◌, map, OnOk};
    ghost use Rattle.std.specs.Option.{option_copied};
    ghost use Rattle.ndc_explain_picture.specs.Places.{home_of, nothing_placed, place_at, with_batches, with_events, with_key, with_kind, with_own};

    /// Nothing has a place.
    pub(crate) fn new(alloc: Global) -> Places
        ensures { result ≡ nothing_placed }
    {
        Places {
            keys: IndexMap::new(alloc),
            signals: IndexMap::new(alloc),
        }
    }

    /// The place of the block of a batch, where there is one.
    pub(crate) fn place_at(&self, key: Option<BatchKey>) -> Option<&Place>
        ensures { option_copied result ≡ place_at key self.now }
    {
        match key {
            None => None,
            Some(key) => self.keys.get(&key),
        }
    }

    /// The place where a signal was first written.
    pub(crate) fn home_of(&self, origin: Origin) -> Option<&Place>
        ensures { option_copied result ≡ home_of origin self.now }
    {
        self.signals.get(&origin)
    }

    /// A signal that is not a copy is at home in this place.
    fn add_own(
        &mut self,
        place: Place,
        origin: Origin,
        copied: Option<Origin>,
    ) -> Result<(), OutOfMemory>
        ensures { OnOk result (self.new ≡ with_own place origin copied self.old) }
    {
        match copied {
            None => {
                self.signals.insert(origin, place)?;
                Ok(())
            }
            Some(_) => Ok(()),
        }
    }

    /// Takes an event of a run in at this place.
    fn add_event(&mut self, place: Place, run: RunId, event: &Event) -> Result<(), OutOfMemory>
        ensures { OnOk result (self.new ≡ with_kind place run event.now.id event.now.version event.now.kind self.old) }
    {
        match &event.kind {
            EventKind::WorkflowExecutionSignaled { origin, .. } => {
                self.add_own(
                    place,
                    origin_of(run, event, &Rare::none()),
                    origin.as_ref().copied(),
                )
            }
            _ => Ok(()),
        }
    }

    /// Takes events of a run in at this place.
    fn add_events(&mut self, place: Place, run: RunId, events: &[Event]) -> Result<(), OutOfMemory>
        ensures { OnOk result (self.new ≡ with_events place run events.now self.old) }
    {
        for event in events {
            self.add_event(place, run, event)?;
        }
        Ok(())
    }

    /// Takes a batch in at this place, without its events.
    fn add_key(&mut self, place: Place, key: BatchKey) -> Result<(), OutOfMemory>
        ensures { OnOk result (self.new ≡ with_key place key self.old) }
    {
        self.keys.insert(key, place)?;
        Ok(())
    }

    /// Takes batches in at this place.
    pub(crate) fn add_batches(
        &mut self,
        place: Place,
        batches: &[&Batch],
    ) -> Result<(), OutOfMemory>
        ensures { OnOk result (self.new ≡ with_batches place (map (λ b. b.now) batches.now) self.old) }
    {
        for batch in batches {
            self.add_key(place, batch.key)?;
            self.add_events(place, batch.run, batch.events.as_slice())?;
        }
        Ok(())
    }
}
