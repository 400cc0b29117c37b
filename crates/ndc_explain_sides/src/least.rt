//! Of what does not stand, where the first batch of each label parts.
ghost use Rattle.std.specs.Prelude.{◌≡◌, [], IfOk};
ghost use Rattle.std.specs.Option.{option_copied};
ghost use Rattle.ndc_explain_sides.specs.Sides.{is_after};
ghost use Rattle.ndc_explain_sides.specs.Traces.{comes_first, with_lost};

use crate::label::{Label, deed_label, scope_label};
use crate::parting::{Parting, Partings};
use indexmap::IndexMap;
use ndc_dump_causes::keys::KeySet;
use ndc_event::{Batch, BatchKey, Event, OutOfMemory, RunId};
use std::alloc::Global;
use std::marker::Model;

/// Whether what is known parts later.
fn comes_first(since: BatchKey, known: Option<&BatchKey>) -> bool
    ensures { result ≡ comes_first since (option_copied known.entry) }
{
    match known {
        None => true,
        Some(known) => since.is_before(*known),
    }
}

/// Whether this batch comes after where a lost one parts, where there is one.
fn is_after(reach: BatchKey, known: Option<&BatchKey>) -> bool
    ensures { result ≡ is_after reach (option_copied known.entry) }
{
    match known {
        None => false,
        Some(since) => since.is_before(reach),
    }
}

/// Of each label where the first batch parts that has an event of it and does not stand.
#[derive(Drop)]
pub(crate) struct Least {
    known: IndexMap<Label, BatchKey>,
}

impl Model for Least {
    ghost use Rattle.std.specs.Prelude.{List, ℕ};
    ghost use Rattle.ndc_event.specs.declared.key.BatchKey.{BatchKey};

    ghost Value = { List (List ℕ × BatchKey) };

    ghost view = { λ least. least.known.entries };
}

impl Least {
    ghost use Rattle.std.specs.Prelude.{◌≡◌, [], IfOk, OnOk};
    ghost use Rattle.ndc_explain_sides.specs.Sides.{faces, meets};
    ghost use Rattle.ndc_explain_sides.specs.Traces.{with_lost_batch, with_lost_events, with_since};

    /// None is known.
    fn new(alloc: Global) -> Least
        ensures { result ≡ [] }
    {
        Least {
            known: IndexMap::new(alloc),
        }
    }

    /// Whether an event that is matched up to this batch faces a lost batch.
    pub(crate) fn faces(
        &self,
        alloc: Global,
        scope: Option<RunId>,
        reach: BatchKey,
    ) -> Result<bool, OutOfMemory>
        ensures { IfOk result (λ found. found ≡ faces self.now scope reach) }
    {
        let label = scope_label(alloc, scope)?;
        Ok(is_after(reach, self.known.get(&label)))
    }

    /// Whether it faces one in which the same happened.
    pub(crate) fn meets(
        &self,
        alloc: Global,
        scope: Option<RunId>,
        reach: BatchKey,
        event: &Event,
    ) -> Result<bool, OutOfMemory>
        ensures { IfOk result (λ found. found ≡ meets self.now scope reach event.now) }
    {
        let label = deed_label(alloc, scope, &event.kind)?;
        Ok(is_after(reach, self.known.get(&label)))
    }

    /// Takes a label in, with where a batch parts.
    fn put(&mut self, label: Label, since: BatchKey) -> Result<(), OutOfMemory>
        ensures { OnOk result (self.new ≡ with_since label since self.old) }
    {
        if comes_first(since, self.known.get(&label)) {
            self.known.insert(label, since)?;
        }
        Ok(())
    }

    /// Takes events of a batch in that parts so.
    fn add_events(
        &mut self,
        alloc: Global,
        parting: Parting,
        events: &[Event],
    ) -> Result<(), OutOfMemory>
        ensures { OnOk result (self.new ≡ with_lost_events parting events.now self.old) }
    {
        for event in events {
            self.put(
                deed_label(alloc, parting.scope, &event.kind)?,
                parting.since,
            )?;
        }
        Ok(())
    }

    /// Takes a batch in that parts so.
    fn add(&mut self, alloc: Global, parting: Parting, batch: &Batch) -> Result<(), OutOfMemory>
        ensures { OnOk result (self.new ≡ with_lost_batch parting batch.now self.old) }
    {
        self.put(scope_label(alloc, parting.scope)?, parting.since)?;
        self.add_events(alloc, parting, batch.events.as_slice())?;
        Ok(())
    }
}

/// Of each label where the first of those of the batches parts whose keys are not listed.
pub(crate) fn least_of(
    alloc: Global,
    keys: &KeySet,
    partings: &Partings,
    batches: &[Batch],
) -> Result<Least, OutOfMemory>
    ensures { IfOk result (λ least. least ≡ with_lost keys.now partings.now batches.now []) }
{
    let mut least = Least::new(alloc);
    for batch in batches {
        if !keys.contains(batch.key) {
            least.add(alloc, partings.of(keys, batch), batch)?;
        }
    }
    Ok(least)
}
