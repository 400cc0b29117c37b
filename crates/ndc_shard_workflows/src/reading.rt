ghost use Rattle.std.specs.Prelude.{◌≡◌, ◌++◌, find, map, option_to_list, Some, IfOk, OnOk};
ghost use Rattle.std.specs.List.{filter_map};
ghost use Rattle.ndc_model_cells.specs.Cells.{carries, message_of, own_message};
ghost use Rattle.ndc_event.specs.declared.key.BatchKey.{BatchKey as Key};
ghost use Rattle.ndc_shard_workflows.specs.Messages.{first_key, is_under, noted_at, own_message_of};
ghost use Rattle.ndc_model_sets.specs.Learned.{learned};
ghost use Rattle.ndc_model_sets.specs.Paths.{events_to, versions_of};
ghost use Rattle.ndc_model_sets.specs.Sets.{batch_at};
ghost use Rattle.ndc_model_sets.specs.Sound.{IsSound};
ghost use Rattle.ndc_model_sets.specs.Reading.{named};
ghost use Rattle.ndc_shard_workflows.specs.Workflow.{IsWorkflow};

use crate::carried::{Carried, least_carried};
use crate::next::next_carried;
use crate::workflow::Workflow;
use ndc_event::{Batch, BatchKey, OutOfMemory, Rare};
use ndc_history::VersionHistory;
use ndc_model_cells::Message;
use ndc_shard_runs::Runs;
use std::alloc::Global;

/// The messages of what is learned of the workflow, in key order, each with the version history of its batch's path and
/// with the batch that it carries; a batch that another one carries has no message of its own. In one pass over what has
/// arrived, with two look-ups for each version on the path to a batch.
pub fn messages(alloc: Global, workflow: &Workflow) -> Result<Vec<Message>, OutOfMemory>
    ensures { IfOk result (λ list.
        list.items ≡ filter_map (own_message (learned workflow.now.arrived) workflow.now.arrived)
        (learned workflow.now.arrived)) }
{
    let learned = workflow.runs().batches(alloc)?;
    let carried = carried_in(alloc, workflow, learned.as_slice())?;
    let mut list = Vec::new(alloc);
    for batch in learned.as_slice() {
        push_message(alloc, workflow, &carried, &mut list, batch)?;
    }
    Ok(list)
}

/// The own message of the learned batch of this key; none where it is not learned, or is carried by another one. In one
/// pass over what has arrived, with two look-ups for each version on the path to the batch.
pub fn message_at(
    alloc: Global,
    workflow: &Workflow,
    key: BatchKey,
) -> Result<Option<Message>, OutOfMemory>
    ensures { IfOk result (λ message.
        message ≡ own_message_of workflow.now.arrived
        (batch_at key (learned workflow.now.arrived))) }
{
    let Some(batch) = workflow.runs().get(key) else {
        return Ok(None);
    };
    if batch.carrier.is_some() {
        return Ok(None);
    }
    let found = first_carried(alloc, workflow.runs(), batch)?;
    let second = second_key(alloc, workflow, batch, found)?;
    let message = message_with(alloc, workflow, batch, second)?;
    Ok(Some(message))
}

/// The same, where what is learned is sound. In one pass over what is put off.
pub(crate) fn message_in(
    alloc: Global,
    workflow: &Workflow,
    key: BatchKey,
) -> Result<Option<Message>, OutOfMemory>
    requires { IsSound (learned workflow.now.arrived) }
    ensures { IfOk result (λ message.
        message ≡ own_message_of workflow.now.arrived
        (batch_at key (learned workflow.now.arrived))) }
{
    let Some(batch) = workflow.runs().get(key) else {
        return Ok(None);
    };
    if batch.carrier.is_some() {
        return Ok(None);
    }
    let found = next_carried(workflow.runs(), batch);
    let second = second_key(alloc, workflow, batch, found)?;
    let message = message_with(alloc, workflow, batch, second)?;
    Ok(Some(message))
}

/// What the batches that have arrived carry, by their keys.
fn carried_in(alloc: Global, workflow: &Workflow, known: &[&Batch]) -> Result<Carried, OutOfMemory>
    requires workflow { IsWorkflow workflow.now }
    requires learned { map (λ b. b.now) known.now ≡ learned workflow.now.arrived }
    ensures { IfOk result (λ carried.
        (one : Key) → noted_at one carried
        ≡ first_key (is_under workflow.now.arrived one) workflow.now.arrived) }
{
    let mut carried = Carried::new(alloc);
    carried.note_all(workflow, known)?;
    let waiting = workflow.put_off().batches(alloc)?;
    carried.note_all(workflow, waiting.as_slice())?;
    Ok(carried)
}

/// Adds the message of a learned batch, where the batch is not carried.
fn push_message(
    alloc: Global,
    workflow: &Workflow,
    carried: &Carried,
    list: &mut Vec<Message>,
    batch: &Batch,
) -> Result<(), OutOfMemory>
    requires workflow { IsWorkflow workflow.now }
    requires carried { (one : Key) → noted_at one carried.now
        ≡ first_key (is_under workflow.now.arrived one) workflow.now.arrived }
    requires learned { batch_at batch.now.key (learned workflow.now.arrived) ≡ Some batch.now }
    ensures { OnOk result (list.new.items
        ≡ list.old.items ++ option_to_list
        (own_message (learned workflow.now.arrived) workflow.now.arrived batch.now)) }
{
    if batch.carrier.is_some() {
        return Ok(());
    }
    let message = message_with(alloc, workflow, batch, carried.get(batch.key))?;
    list.push(message)?;
    Ok(())
}

/// The least key of the learned batches that are carried by this one.
fn first_carried(alloc: Global, runs: &Runs, batch: &Batch) -> Result<Option<BatchKey>, OutOfMemory>
    ensures { IfOk result (λ key. key ≡ first_key (carries batch.now) runs.now) }
{
    let known = runs.batches(alloc)?;
    Ok(least_carried(batch, known.as_slice(), None))
}

/// The least key of all batches that are carried by this one, where that of the learned ones was found.
fn second_key(
    alloc: Global,
    workflow: &Workflow,
    batch: &Batch,
    found: Option<BatchKey>,
) -> Result<Option<BatchKey>, OutOfMemory>
    requires workflow { IsWorkflow workflow.now }
    requires found { found ≡ first_key (carries batch.now) (learned workflow.now.arrived) }
    ensures { IfOk result (λ key.
        named key workflow.now.arrived ≡ find (carries batch.now) workflow.now.arrived) }
{
    let waiting = workflow.put_off().batches(alloc)?;
    Ok(least_carried(batch, waiting.as_slice(), found))
}

/// The message of a learned batch, which carries the batch of this second key.
fn message_with(
    alloc: Global,
    workflow: &Workflow,
    batch: &Batch,
    second: Option<BatchKey>,
) -> Result<Message, OutOfMemory>
    requires learned { batch_at batch.now.key (learned workflow.now.arrived) ≡ Some batch.now }
    requires second { named second workflow.now.arrived
        ≡ find (carries batch.now) workflow.now.arrived }
    ensures { IfOk result (λ message.
        message ≡ message_of (learned workflow.now.arrived) workflow.now.arrived batch.now) }
{
    let second = Rare::of(alloc, copy_of(workflow, second)?)?;
    let history = history_to(alloc, workflow, batch)?;
    Ok(Message {
        batch: batch.try_copy()?,
        history,
        second,
    })
}

/// A copy of the batch of this key, where there is one.
fn copy_of(workflow: &Workflow, key: Option<BatchKey>) -> Result<Option<Batch>, OutOfMemory>
    ensures { IfOk result (λ copy. copy ≡ named key workflow.now.arrived) }
{
    let Some(key) = key else {
        return Ok(None);
    };
    match workflow.get(key) {
        None => Ok(None),
        Some(batch) => Ok(Some(batch.try_copy()?)),
    }
}

/// The version history of the path to a learned batch.
fn history_to(
    alloc: Global,
    workflow: &Workflow,
    batch: &Batch,
) -> Result<VersionHistory, OutOfMemory>
    requires { batch_at batch.now.key (learned workflow.now.arrived) ≡ Some batch.now }
    ensures { IfOk result (λ history.
        history ≡ versions_of (events_to batch.now.key (learned workflow.now.arrived))) }
{
    match workflow.runs().history_of(alloc, batch.key)? {
        Some(history) => Ok(history),
        None => Ok(VersionHistory::new(alloc)),
    }
}
