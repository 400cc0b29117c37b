ghost use Rattle.std.specs.Prelude.{◌≡◌};
ghost use Rattle.ndc_node_lanes.specs.Told.{are_in_turn};

use ndc_event::{BatchKey, Name};

/// An entry of a source's queue that is addressed to the reader: its place there, and the batch that it brings.
#[derive(Debug, Drop)]
pub struct Told {
    /// The place in the queue, counted from 0.
    pub place: u64,
    /// The domain of the batch.
    pub domain: Name,
    /// The workflow of the batch.
    pub workflow: Name,
    /// The key of the batch there.
    pub key: BatchKey,
}

impl Told {
    ghost use Rattle.std.specs.Prelude.{◌≡◌};
    ghost use Rattle.ndc_node_lanes.specs.Told.{is_for};

    /// Whether the entry brings the batch of this key of a workflow.
    pub fn is_for(&self, domain: &Name, workflow: &Name, key: BatchKey) -> bool
        ensures { result ≡ is_for domain.now workflow.now key self.now }
    {
        self.key == key && self.workflow == *workflow && self.domain == *domain
    }
}

/// Whether the entries are in turn: their places rise, from `from` on, and are below `next`.
pub(crate) fn are_in_turn(from: u64, next: u64, entries: &[Told]) -> bool
    ensures { result ≡ are_in_turn from next entries.now }
{
    let mut least = from;
    for entry in entries {
        if entry.place < least || next <= entry.place {
            return false;
        }
        least = entry.place + 1;
    }
    true
}
