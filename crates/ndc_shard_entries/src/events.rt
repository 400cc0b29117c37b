ghost use Rattle.std.specs.Prelude.{◌≡◌, ◌≤◌, ◌+◌, ◌^◌, IfOk, length};
ghost use Rattle.ndc_state.specs.Written.{events_from};

use ndc_event::{Event, EventKind, OutOfMemory};
use std::alloc::Global;

/// The kinds as events of this version, with ids from the first on.
pub(crate) fn events_from(
    alloc: Global,
    first: u64,
    version: u64,
    kinds: Vec<EventKind>,
) -> Result<Vec<Event>, OutOfMemory>
    requires { first + length kinds.items ≤ 2 ^ 64 }
    ensures { IfOk result (λ events. events.items ≡ events_from first version kinds.items) }
{
    let mut events = Vec::with_capacity(alloc, kinds.len())?;
    for kind in kinds {
        events.push(Event {
            id: first + events.len() as u64,
            version,
            kind,
        })?;
    }
    Ok(events)
}
