// The keys of a path.
ghost use Rattle.std.specs.Prelude.{◌≡◌, map, IfOk, Some};
ghost use Rattle.ndc_event.specs.declared.key.BatchKey.{BatchKey};
ghost use Rattle.ndc_model_sets.specs.Learned.{has_key};
ghost use Rattle.ndc_model_sets.specs.Paths.{path_from};
ghost use Rattle.ndc_dump_causes.specs.Keys.{is_listed};

use ndc_dump_causes::keys::KeySet;
use ndc_event::{Batch, BatchKey, OutOfMemory};
use std::alloc::Global;

/// The keys of the path among these batches that ends where this key is wanted: the batches are gone over once, from
/// the last to the first.
pub(crate) fn path_keys(
    alloc: Global,
    batches: &[&Batch],
    tip: Option<BatchKey>,
) -> Result<KeySet, OutOfMemory>
    ensures { IfOk result (λ keys.
        (key : BatchKey) → is_listed key keys
        ≡ has_key (Some key) (path_from tip (map (λ b. b.now) batches.now))) }
{
    let mut keys = KeySet::new(alloc);
    let mut wanted = tip;
    let mut place = batches.len();
    while place > 0 {
        place -= 1;
        let batch = batches[place];
        if wanted == Some(batch.key) {
            keys.insert(batch.key)?;
            wanted = batch.parent;
        }
    }
    Ok(keys)
}
