//! Of what stands, the last event of each label.
ghost use Rattle.std.specs.Prelude.{◌≡◌, [], IfOk, OnOk};
ghost use Rattle.std.specs.Option.{option_copied};
ghost use Rattle.ndc_explain_sides.specs.Sides.{facing};
ghost use Rattle.ndc_explain_sides.specs.Traces.{reaches, traced, with_standing};

use crate::label::{Label, deed_label, subject_label};
use crate::parting::{Ends, Parting};
use crate::trace::Trace;
use indexmap::IndexMap;
use ndc_dump_causes::keys::KeySet;
use ndc_event::{Batch, BatchKey, Event, OutOfMemory, RunId};
use std::alloc::Global;
use std::marker::Model;

/// Whether what is known does not reach further.
fn reaches(reach: BatchKey, known: Option<&Trace>) -> bool
    ensures { result ≡ reaches reach (option_copied known.entry) }
{
    match known {
        None => true,
        Some(trace) => !reach.is_before(trace.reach),
    }
}

/// A standing event, where it is matched up to a batch after this one.
fn facing<'v>(since: BatchKey, known: Option<&Trace<'v>>) -> Option<Trace<'v>>
    ensures { result ≡ facing since (option_copied known.entry) }
{
    match known {
        None => None,
        Some(trace) => {
            if since.is_before(trace.reach) {
                Some(trace.copied())
            } else {
                None
            }
        }
    }
}

/// An event of a batch, matched up to this one.
pub(crate) fn traced<'v>(reach: BatchKey, batch: &Batch, event: &'v Event) -> Trace<'v>
    ensures { result ≡ traced reach batch.now event.now }
{
    Trace {
        run: batch.run,
        key: batch.key,
        event,
        reach,
    }
}

/// Of each label the standing event that reaches furthest.
#[derive(Drop)]
pub(crate) struct Latest<'v> {
    known: IndexMap<Label, Trace<'v>>,
}

impl<'v> Model for Latest<'v> {
    ghost use Rattle.std.specs.Prelude.{List, ℕ};
    ghost use Rattle.ndc_explain_sides.specs.Traces.{Traced};

    ghost Value = { List (List ℕ × Traced) };

    ghost view = { λ latest. latest.known.entries };
}

impl<'v> Latest<'v> {
    ghost use Rattle.std.specs.Prelude.{◌≡◌, [], IfOk, None, OnOk, Some};
    ghost use Rattle.ndc_explain_sides.specs.Sides.{facing, kin_of, twin_of};
    ghost use Rattle.ndc_explain_sides.specs.Traces.{with_event_in, with_standing_event, with_standing_events, with_trace};

    /// None is known.
    fn new(alloc: Global) -> Latest<'v>
        ensures { result ≡ [] }
    {
        Latest {
            known: IndexMap::new(alloc),
        }
    }

    /// The last event in which the same happened, and that faces a batch that parts so.
    pub(crate) fn twin_of(
        &self,
        alloc: Global,
        parting: Parting,
        event: &Event,
    ) -> Result<Option<Trace<'v>>, OutOfMemory>
        ensures { IfOk result (λ twin. twin ≡ twin_of self.now parting event.now) }
    {
        let label = deed_label(alloc, parting.scope, &event.kind)?;
        Ok(facing(parting.since, self.known.get(&label)))
    }

    /// The last event that is about the same, and that faces a batch that parts so.
    pub(crate) fn kin_of(
        &self,
        alloc: Global,
        parting: Parting,
        event: &Event,
    ) -> Result<Option<Trace<'v>>, OutOfMemory>
        ensures { IfOk result (λ kin. kin ≡ kin_of self.now parting event.now) }
    {
        let label = subject_label(alloc, parting.scope, &event.kind)?;
        Ok(facing(parting.since, self.known.get(&label)))
    }

    /// Takes a standing event in under a label.
    fn put(&mut self, label: Label, trace: &Trace<'v>) -> Result<(), OutOfMemory>
        ensures { OnOk result (self.new ≡ with_trace label trace.now self.old) }
    {
        if reaches(trace.reach, self.known.get(&label)) {
            self.known.insert(label, trace.copied())?;
        }
        Ok(())
    }

    /// Takes a standing event in, in this scope.
    fn add_in(
        &mut self,
        alloc: Global,
        scope: Option<RunId>,
        trace: &Trace<'v>,
    ) -> Result<(), OutOfMemory>
        ensures { OnOk result (self.new ≡ with_event_in scope trace.now self.old) }
    {
        self.put(subject_label(alloc, scope, &trace.event.kind)?, trace)?;
        self.put(deed_label(alloc, scope, &trace.event.kind)?, trace)?;
        Ok(())
    }

    /// Takes an event of a standing batch in, whose run ends so.
    fn add_event(
        &mut self,
        alloc: Global,
        end: BatchKey,
        batch: &Batch,
        event: &'v Event,
    ) -> Result<(), OutOfMemory>
        ensures { OnOk result (self.new ≡ with_standing_event end batch.now event.now self.old) }
    {
        self.add_in(alloc, Some(batch.run), &traced(batch.key, batch, event))?;
        self.add_in(alloc, None, &traced(end, batch, event))?;
        Ok(())
    }

    /// Takes these events of a standing batch in.
    fn add_events(
        &mut self,
        alloc: Global,
        end: BatchKey,
        batch: &Batch,
        events: &'v [Event],
    ) -> Result<(), OutOfMemory>
        ensures { OnOk result (self.new ≡ with_standing_events end batch.now events.now self.old) }
    {
        for event in events {
            self.add_event(alloc, end, batch, event)?;
        }
        Ok(())
    }
}

/// Of each label the last event of those of the batches whose keys are listed.
pub(crate) fn latest_of<'v>(
    alloc: Global,
    keys: &KeySet,
    ends: &Ends,
    batches: &'v [Batch],
) -> Result<Latest<'v>, OutOfMemory>
    ensures { IfOk result (λ latest. latest ≡ with_standing keys.now ends.now batches.now []) }
{
    let mut latest = Latest::new(alloc);
    for batch in batches {
        if keys.contains(batch.key) {
            latest.add_events(alloc, ends.of(batch), batch, batch.events.as_slice())?;
        }
    }
    Ok(latest)
}
