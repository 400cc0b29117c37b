ghost use Rattle.std.specs.Prelude.{◌≡◌};
ghost use Rattle.ndc_resend.specs.Gaps.{first_item, gap_of};

use crate::serving::Gap;
use ndc_event::Batch;
use ndc_history::{Item, VersionHistory, best_common};
use ndc_model_sets::first_id;

/// The gap before an event: after the item with the greatest id that one of the local histories has in common
/// with the remote one; after id 0 and version 0 where none has an item in common. Takes no memory.
pub fn gap(local: &[VersionHistory], remote: &VersionHistory, first: Item) -> Gap
    ensures { result ≡ gap_of local.now remote.now first }
{
    let after = match best_common(local, remote) {
        Some((_, item)) => item,
        None => Item { id: 0, version: 0 },
    };
    Gap {
        after,
        before: first,
    }
}

/// The first event of a batch, by its id and version; id 0 where it has none. Takes no memory.
pub fn first_item(batch: &Batch) -> Item
    ensures { result ≡ first_item batch.now }
{
    Item {
        id: first_id(batch.events.as_slice()),
        version: batch.key.version,
    }
}
