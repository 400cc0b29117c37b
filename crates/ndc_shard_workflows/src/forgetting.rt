// A message that is put off is dropped.
ghost use Rattle.std.specs.Prelude.{◌≡◌, true, Some, map, IfOk, IfSome, OnOk};
ghost use Rattle.ndc_event.specs.Key.{key_eq};
ghost use Rattle.ndc_model_cells.specs.Cells.{both};
ghost use Rattle.ndc_model_cells.specs.Messages.{batches_of, message_with, IsNewTo};
ghost use Rattle.ndc_model_sets.specs.Learned.{has_key};
ghost use Rattle.ndc_shard_waiting.specs.Waiting.{AreWaiting, CanWait};
ghost use Rattle.ndc_shard_workflows.specs.Forgetting.{but_for, kept_with};

use ndc_event::{Batch, BatchKey, OutOfMemory};
use ndc_model_cells::Message;
use ndc_shard_waiting::Waiting;
use std::alloc::Global;

/// Whether a message has a batch of this key, its own or the one that it carries.
fn has_batch(sent: &Message, key: BatchKey) -> bool
    ensures { result ≡ has_key (Some key) (both sent.now) }
{
    if sent.batch.key == key {
        return true;
    }
    match sent.second.as_ref() {
        Some(second) => second.key == key,
        None => false,
    }
}

/// Keeps a copy of the message of which this is the first batch, unless it has a batch of this key.
fn keep(
    kept: &mut Waiting,
    waiting: &Waiting,
    batch: &Batch,
    key: BatchKey,
) -> Result<(), OutOfMemory>
    requires { IfSome (message_with batch.now.key waiting.now) (λ sent.
        key_eq sent.batch.key batch.now.key ≡ true → CanWait sent
        × IsNewTo (batches_of kept.old) sent) }
    ensures { OnOk result (kept.new
        ≡ kept_with key (message_with batch.now.key waiting.now) batch.now kept.old) }
{
    let Some(sent) = waiting.message(batch.key) else {
        return Ok(());
    };
    if sent.batch.key != batch.key || has_batch(sent, key) {
        return Ok(());
    }
    kept.put(sent.try_copy()?)
}

/// Keeps copies of the messages of these batches, but for the one that has a batch of this key.
fn keep_all(
    waiting: &Waiting,
    alloc: Global,
    batches: &[&Batch],
    key: BatchKey,
) -> Result<Waiting, OutOfMemory>
    requires waiting { AreWaiting waiting.now }
    requires batches { map (λ b. b.now) batches.now ≡ batches_of waiting.now }
    ensures { IfOk result (λ kept. kept ≡ but_for key waiting.now) }
{
    let mut kept = Waiting::new(alloc);
    for batch in batches {
        keep(&mut kept, waiting, batch, key)?;
    }
    Ok(kept)
}

/// Copies of the messages that wait, but for the one that has a batch of this key. In time of what waits.
pub(crate) fn but_for(
    waiting: &Waiting,
    alloc: Global,
    key: BatchKey,
) -> Result<Waiting, OutOfMemory>
    ensures { IfOk result (λ kept. kept ≡ but_for key waiting.now) }
{
    let _count = waiting.len();
    let batches = waiting.batches(alloc)?;
    keep_all(waiting, alloc, batches.as_slice(), key)
}
