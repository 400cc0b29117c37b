ghost use Rattle.std.specs.Prelude.{◌≡◌, IfOk, OnOk, OnErr};
ghost use Rattle.ndc_event.specs.declared.key.Origin.{Origin as EventOrigin};
ghost use Rattle.ndc_reapply.specs.Places.{place_of};
ghost use Rattle.ndc_reapply.specs.Strays.{strays_of};
ghost use Rattle.ndc_state.specs.Origins.{is_among, with_origin};

use crate::stray::Stray;
use indexmap::IndexSet;
use ndc_event::{Origin, OutOfMemory, RunId};
use std::alloc::Global;
use std::collections::BTreeMap;
use std::marker::Model;

/// The place of an origin in the order of strays: by version, then by event, then by run.
#[derive(Clone, Copy, Debug, PartialEq, Eq, PartialOrd, Ord)]
struct Place {
    version: u64,
    event: u64,
    run: RunId,
}

/// The place of this origin.
fn place_of(origin: Origin) -> Place
    ensures { result ≡ place_of origin }
{
    Place {
        version: origin.version,
        event: origin.event,
        run: origin.run,
    }
}

/// Signals in the order of their origins, one of each origin.
#[derive(Drop)]
struct Ordered {
    signals: BTreeMap<Place, Stray>,
}

impl Model for Ordered {
    ghost use Rattle.std.specs.Prelude.{List};
    ghost use Rattle.ndc_reapply.specs.declared.stray.Stray.{Stray};

    ghost Value = { List Stray };

    ghost use Rattle.ndc_reapply.specs.OrderedSignals.{signals_of, AreInPlace};

    ghost view = { signals_of };

    ghost invariant = { AreInPlace };
}

impl Ordered {
    ghost use Rattle.std.specs.Prelude.{◌≡◌, [], IfOk, OnOk, OnErr};
    ghost use Rattle.ndc_reapply.specs.Strays.{with_stray};

    /// There is no signal.
    fn new(alloc: Global) -> Ordered
        ensures { result ≡ [] }
    {
        Ordered {
            signals: BTreeMap::new(alloc),
        }
    }

    /// Puts the signal to its place, instead of one that has its origin.
    fn put(&mut self, signal: Stray) -> Result<(), OutOfMemory>
        ensures ok { OnOk result (self.new ≡ with_stray signal self.old) }
        ensures err { OnErr result (self.new ≡ self.old) }
    {
        self.signals.insert(place_of(signal.origin), signal)?;
        Ok(())
    }

    /// The signals, in order.
    fn into_vec(self, alloc: Global) -> Result<Vec<Stray>, OutOfMemory>
        ensures { IfOk result (λ list. list.items ≡ self) }
    {
        self.signals.into_values().collect(alloc)
    }
}

/// Puts the origin into the set, where it is not there.
fn insert(set: &mut IndexSet<Origin>, origin: Origin) -> Result<(), OutOfMemory>
    ensures ok { OnOk result (set.new.keys ≡ with_origin origin set.old.keys) }
    ensures err { OnErr result (set.new.keys ≡ set.old.keys) }
{
    set.insert(origin)?;
    Ok(())
}

/// The origins as a set that is asked without going over them.
fn set_of(alloc: Global, origins: &[Origin]) -> Result<IndexSet<Origin>, OutOfMemory>
    ensures { IfOk result (λ set.
        (origin : EventOrigin) → is_among origin set.keys ≡ is_among origin origins.now) }
{
    let mut set = IndexSet::new(alloc);
    for origin in origins {
        insert(&mut set, *origin)?;
    }
    Ok(set)
}

/// Whether the origin is in the set.
fn is_settled(settled: &IndexSet<Origin>, origin: Origin) -> bool
    ensures { result ≡ is_among origin settled.now.keys }
{
    settled.contains(&origin)
}

/// The signals whose origins are not in the set. They are put to their places from the last to the first, so
/// that of several with one origin the first stays.
fn unsettled(
    alloc: Global,
    signals: &[Stray],
    settled: &IndexSet<Origin>,
) -> Result<Ordered, OutOfMemory>
    ensures { IfOk result (λ found. found ≡ strays_of signals.now settled.now.keys) }
{
    let mut found = Ordered::new(alloc);
    for taken in 0..signals.len() {
        let place = signals.len() - 1 - taken;
        let signal = &signals[place];
        if !is_settled(settled, signal.origin) {
            found.put(signal.try_copy()?)?;
        }
    }
    Ok(found)
}

/// Each origin of the signals that is not settled, once, ordered by version, then event, then run. Of several
/// signals with one origin the first counts. In time of the signals and of what is settled, and of sorting
/// what is answered.
pub fn strays(
    alloc: Global,
    signals: &[Stray],
    settled: &[Origin],
) -> Result<Vec<Stray>, OutOfMemory>
    ensures { IfOk result (λ list. list.items ≡ strays_of signals.now settled.now) }
{
    let settled = set_of(alloc, settled)?;
    let found = unsettled(alloc, signals, &settled)?;
    found.into_vec(alloc)
}
