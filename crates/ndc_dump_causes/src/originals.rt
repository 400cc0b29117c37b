// Which copied signals of a set name an event that is not their original.
ghost use Rattle.std.specs.Prelude.{◌≡◌, [], IfOk};
ghost use Rattle.std.specs.Option.{option_copied};
ghost use Rattle.ndc_dump_causes.specs.Originals.{both, has_unfit_among, is_unfit_among, joined, same_signal, signal_in, with_batches};

use indexmap::IndexMap;
use ndc_event::{Batch, Event, EventKind, Name, Origin, OutOfMemory, RunId};
use std::alloc::Global;
use std::marker::Model;

/// The name and the input of an original signal.
#[derive(Drop)]
pub(crate) struct Signal {
    name: Name,
    input: Name,
}

/// What is known of the events that origins name: the original signal that an event is, or that it is none, or not
/// the same one each time.
#[derive(Drop)]
pub(crate) struct Originals {
    known: IndexMap<Origin, Option<Signal>>,
}

impl Model for Originals {
    ghost use Rattle.std.specs.Prelude.{List, Option};
    ghost use Rattle.ndc_event.specs.declared.key.Origin.{Origin};
    ghost use Rattle.ndc_dump_causes.specs.declared.originals.Signal.{Signal};

    ghost Value = { List (Origin × Option Signal) };

    ghost view = { λ originals. originals.known.entries };
}

/// Whether two signals have one name and one input.
fn is_same(one: &Signal, two: &Signal) -> bool
    ensures { result ≡ same_signal one.now two.now }
{
    one.name == two.name && one.input == two.input
}

/// The original signal that an event of this kind is.
fn signal_in(kind: &EventKind) -> Result<Option<Signal>, OutOfMemory>
    ensures { IfOk result (λ signal. signal ≡ signal_in kind.now) }
{
    match kind {
        EventKind::WorkflowExecutionSignaled {
            signal_name,
            input,
            origin,
        } => match origin.as_ref() {
            None => Ok(Some(Signal {
                name: signal_name.try_copy()?,
                input: input.try_copy()?,
            })),
            Some(_) => Ok(None),
        },
        _ => Ok(None),
    }
}

/// The signal that both are.
fn both(known: &Option<Signal>, new: Option<Signal>) -> Option<Signal>
    ensures { result ≡ both known.now new }
{
    match (known, new) {
        (Some(known), Some(new)) => {
            if is_same(known, &new) {
                Some(new)
            } else {
                None
            }
        }
        _ => None,
    }
}

/// What is known with one event more.
fn joined(known: Option<&Option<Signal>>, new: Option<Signal>) -> Option<Signal>
    ensures { result ≡ joined (option_copied known.entry) new }
{
    match known {
        None => new,
        Some(known) => both(known, new),
    }
}

impl Originals {
    ghost use Rattle.std.specs.Prelude.{◌≡◌, [], OnOk};
    ghost use Rattle.std.specs.Map.{lookup};
    ghost use Rattle.std.specs.Option.{option_copied};
    ghost use Rattle.ndc_state.specs.Origins.{same_origin};
    ghost use Rattle.ndc_dump_causes.specs.Originals.{misfits_in, with_batches, with_event, with_events};

    /// Nothing is known.
    fn new(alloc: Global) -> Originals
        ensures { result ≡ [] }
    {
        Originals {
            known: IndexMap::new(alloc),
        }
    }

    /// What is known of the events that an origin names.
    fn known_at(&self, origin: Origin) -> Option<&Option<Signal>>
        ensures { option_copied result ≡ lookup (same_origin origin) self.now }
    {
        self.known.get(&origin)
    }

    /// Takes an event of a run in.
    fn add_event(&mut self, run: RunId, event: &Event) -> Result<(), OutOfMemory>
        ensures { OnOk result (self.new ≡ with_event run event.now self.old) }
    {
        let place = Origin {
            run,
            event: event.id,
            version: event.version,
        };
        let new = signal_in(&event.kind)?;
        let joined = joined(self.known_at(place), new);
        self.known.insert(place, joined)?;
        Ok(())
    }

    /// Takes events of a run in.
    fn add_events(&mut self, run: RunId, events: &[Event]) -> Result<(), OutOfMemory>
        ensures { OnOk result (self.new ≡ with_events run events.now self.old) }
    {
        for event in events {
            self.add_event(run, event)?;
        }
        Ok(())
    }

    /// Whether an origin names an event that is not an original signal of this name and input.
    fn misfits(&self, origin: Origin, name: &Name, input: &Name) -> bool
        ensures { result ≡ misfits_in self.now origin name.now input.now }
    {
        match self.known_at(origin) {
            None => false,
            Some(None) => true,
            Some(Some(signal)) => !(signal.name == *name && signal.input == *input),
        }
    }
}

/// What is known of the events of a set.
pub(crate) fn originals_of(alloc: Global, batches: &[Batch]) -> Result<Originals, OutOfMemory>
    ensures { IfOk result (λ known. known ≡ with_batches batches.now []) }
{
    let mut known = Originals::new(alloc);
    for batch in batches {
        known.add_events(batch.run, batch.events.as_slice())?;
    }
    Ok(known)
}

/// Whether an event of this kind is a copied signal whose origin names an event that is not its original.
fn is_unfit_copy(known: &Originals, kind: &EventKind) -> bool
    ensures { result ≡ is_unfit_among known.now kind.now }
{
    match kind {
        EventKind::WorkflowExecutionSignaled {
            signal_name,
            input,
            origin,
        } => match origin.as_ref() {
            None => false,
            Some(origin) => known.misfits(*origin, signal_name, input),
        },
        _ => false,
    }
}

/// Whether there is such a copy among these events.
pub(crate) fn has_unfit_copy(known: &Originals, events: &[Event]) -> bool
    ensures { result ≡ has_unfit_among known.now events.now }
{
    for event in events {
        if is_unfit_copy(known, &event.kind) {
            return true;
        }
    }
    false
}
