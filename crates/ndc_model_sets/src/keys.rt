// Keys and ids of batches.
ghost use Rattle.std.specs.Prelude.{◌≡◌};
ghost use Rattle.ndc_model_sets.specs.Keys.{is_key};
ghost use Rattle.ndc_model_sets.specs.Paths.{first_id, last_id};
ghost use Rattle.ndc_model_sets.specs.Sets.{earlier};

use ndc_event::{Batch, BatchKey, Event};

/// The key for which the batch waits, where it waits: its parent's, or else its carrier's.
pub fn earlier_key(batch: &Batch) -> Option<BatchKey>
    ensures { result ≡ earlier batch.now }
{
    match batch.parent {
        Some(parent) => Some(parent),
        None => batch.carrier,
    }
}

/// Whether the key is this one, where there is one.
pub fn is_key(key: BatchKey, other: Option<BatchKey>) -> bool
    ensures { result ≡ is_key key other }
{
    match other {
        None => false,
        Some(other) => key.version == other.version && key.task == other.task,
    }
}

/// The id of the first event, 0 where there is none.
pub fn first_id(events: &[Event]) -> u64
    ensures { result ≡ first_id events.now }
{
    match events.first() {
        None => 0,
        Some(event) => event.id,
    }
}

/// The id of the last event, 0 where there is none.
pub fn last_id(events: &[Event]) -> u64
    ensures { result ≡ last_id events.now }
{
    match events.last() {
        None => 0,
        Some(event) => event.id,
    }
}
