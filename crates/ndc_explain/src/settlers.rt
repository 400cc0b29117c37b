//! What settles signals.
ghost use Rattle.std.specs.Prelude.{◌≡◌, [], IfOk};
ghost use Rattle.ndc_explain.specs.Signals.{with_listed};

use indexmap::IndexMap;
use ndc_dump_causes::keys::KeySet;
use ndc_event::{Batch, BatchKey, Event, EventKind, Origin, OutOfMemory};
use ndc_state::origin_of;
use std::alloc::Global;
use std::marker::Model;

/// A batch that settles a signal, with the signal itself or with a copy of it.
#[derive(Clone, Copy, Drop)]
pub(crate) struct Settler {
    pub(crate) key: BatchKey,
    pub(crate) is_copy: bool,
}

/// The origins of settled signals, each with what settles it. The map finds an origin without going over the others.
#[derive(Drop)]
pub(crate) struct Settlers {
    known: IndexMap<Origin, Settler>,
}

impl Model for Settlers {
    ghost use Rattle.std.specs.Prelude.{List};
    ghost use Rattle.ndc_event.specs.declared.key.Origin.{Origin};
    ghost use Rattle.ndc_explain.specs.declared.settlers.Settler.{Settler};

    ghost Value = { List (Origin × Settler) };

    ghost view = { λ settlers. settlers.known.entries };
}

impl Settlers {
    ghost use Rattle.std.specs.Prelude.{◌≡◌, [], OnOk};
    ghost use Rattle.std.specs.Map.{lookup};
    ghost use Rattle.std.specs.Option.{option_copied};
    ghost use Rattle.ndc_state.specs.Origins.{same_origin};
    ghost use Rattle.ndc_explain.specs.Signals.{with_events, with_kind};

    /// Nothing is settled.
    fn new(alloc: Global) -> Settlers
        ensures { result ≡ [] }
    {
        Settlers {
            known: IndexMap::new(alloc),
        }
    }

    /// What settles the signal of this origin.
    pub(crate) fn get(&self, origin: Origin) -> Option<&Settler>
        ensures { option_copied result ≡ lookup (same_origin origin) self.now }
    {
        self.known.get(&origin)
    }

    /// Takes an event of a batch in.
    fn add_event(&mut self, batch: &Batch, event: &Event) -> Result<(), OutOfMemory>
        ensures { OnOk result (self.new
            ≡ with_kind batch.now event.now.id event.now.version event.now.kind self.old) }
    {
        match &event.kind {
            EventKind::WorkflowExecutionSignaled { origin, .. } => {
                let settler = Settler {
                    key: batch.key,
                    is_copy: origin.as_ref().is_some(),
                };
                self.known
                    .insert(origin_of(batch.run, event, origin), settler)?;
                Ok(())
            }
            _ => Ok(()),
        }
    }

    /// Takes these events of a batch in.
    fn add_events(&mut self, batch: &Batch, events: &[Event]) -> Result<(), OutOfMemory>
        ensures { OnOk result (self.new ≡ with_events batch.now events.now self.old) }
    {
        for event in events {
            self.add_event(batch, event)?;
        }
        Ok(())
    }
}

/// What settles the signals of those of the batches whose keys are listed.
pub(crate) fn settlers_of(
    alloc: Global,
    keys: &KeySet,
    batches: &[Batch],
) -> Result<Settlers, OutOfMemory>
    ensures { IfOk result (λ known. known ≡ with_listed keys.now batches.now []) }
{
    let mut known = Settlers::new(alloc);
    for batch in batches {
        if keys.contains(batch.key) {
            known.add_events(batch, batch.events.as_slice())?;
        }
    }
    Ok(known)
}
