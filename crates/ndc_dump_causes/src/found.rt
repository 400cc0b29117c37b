// Batches in key order, found by key.
ghost use Rattle.std.specs.Prelude.{◌≡◌, ◌<◌, ◌∷◌, ◌++◌, [], length, IfNone, IfSome};
ghost use Rattle.std.specs.Option.{option_copied};
ghost use Rattle.ndc_model_sets.specs.Sets.{Rise, batch_at};
ghost use Rattle.ndc_model_sets.specs.Reading.{named};

use ndc_event::{Batch, BatchKey};

/// The batches before the middle one, this one, and those after it; nothing where there is none.
fn halves(batches: &[Batch]) -> Option<(&[Batch], &Batch, &[Batch])>
    ensures none { IfNone result (batches.now ≡ []) }
    ensures some { IfSome result (λ parts. batches.now ≡ parts.0.now ++ parts.1.now ∷ parts.2.now) }
{
    let (front, back) = batches.split_at(batches.len() / 2);
    let (middle, behind) = back.split_first()?;
    Some((front, middle, behind))
}

/// The batch of this key. In time of the logarithm of the batches.
pub fn batch_at(batches: &[Batch], key: BatchKey) -> Option<&Batch>
    requires { Rise batches.now }
    ensures { option_copied result ≡ batch_at key batches.now }
{
    let mut rest = batches;
    while let Some((front, middle, behind)) = halves(rest) {
        if middle.key == key {
            return Some(middle);
        }
        rest = if key.is_before(middle.key) {
            front
        } else {
            behind
        };
    }
    None
}

/// The batch of the key, where there is a key and such a batch.
pub fn named(batches: &[Batch], key: Option<BatchKey>) -> Option<&Batch>
    requires { Rise batches.now }
    ensures { option_copied result ≡ named key batches.now }
{
    match key {
        None => None,
        Some(key) => batch_at(batches, key),
    }
}
