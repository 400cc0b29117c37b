ghost use Rattle.std.specs.Prelude.{◌≡◌, ◌+◌, ◌<◌, ◌^◌, [], ◌∷◌, length, map, Some, unwrap_or, IfOk, OnOk, OnErr};
ghost use Rattle.std.specs.List.{AllByRecursion};
ghost use Rattle.std.specs.Option.{option_copied};
ghost use Rattle.ndc_model_cells.specs.Arrival.{arrival_in};
ghost use Rattle.ndc_model_cells.specs.Cells.{both};
ghost use Rattle.ndc_model_cells.specs.Laws.{arrived_second};
ghost use Rattle.ndc_model_cells.specs.Writing.{greatest_task};
ghost use Rattle.ndc_model_cells.specs.declared.job.Arrived.TheVariants.{Learned, PutOff};
ghost use Rattle.ndc_model_sets.specs.Learned.{has_key, learned};
ghost use Rattle.ndc_model_sets.specs.Sets.{arrived, earlier};
ghost use Rattle.ndc_model_sets.specs.Sound.{IsSound};
ghost use Rattle.ndc_state.specs.Counted.{counted};
ghost use Rattle.ndc_model_sets.specs.Reading.{current_key};
ghost use Rattle.ndc_shard_waiting.specs.Learning.{with_message, with_messages, ArePutOff};
ghost use Rattle.ndc_model_cells.specs.Messages.{batches_of, IsMessage, IsNewTo};
ghost use Rattle.ndc_shard_waiting.specs.Waiting.{put_off, freed, still_put_off, missing_from, CanWait};
ghost use Rattle.ndc_model_cells.specs.Messages.{HasSmallIds};
ghost use Rattle.ndc_shard_workflows.specs.Learnable.{CanBeLearned, CanBothBeLearned};
ghost use Rattle.ndc_shard_workflows.specs.Workflow.{beside, workflow_with, learned_with, counted_for};

use crate::arrival::Arrival;
use ndc_event::{Batch, OutOfMemory};
use ndc_model_cells::Message;
use ndc_shard_runs::Runs;
use ndc_shard_waiting::Waiting;
use ndc_state::Steps;
use std::alloc::Global;

/// A task is a number of 64 bits.
fn is_small(task: u64)
    ensures { task < 2 ^ 64 }
{}

/// The tasks of the learned batches and of these two are numbers of 64 bits.
fn are_tasks_small(runs: &Runs, batch: &Batch, second: &Batch)
    ensures learned { greatest_task runs.now < 2 ^ 64 }
    ensures first { batch.now.key.task < 2 ^ 64 }
    ensures second { second.now.key.task < 2 ^ 64 }
{
    is_small(runs.greatest_task());
    is_small(batch.key.task);
    is_small(second.key.task);
}

/// Learns a batch, and the one that goes with it and begins a run. For want of memory all is as it was.
pub(crate) fn learn<L>(
    runs: &mut Runs,
    alloc: Global,
    batch: &Batch,
    second: Option<&Batch>,
    steps: &mut Steps<L>,
) -> Result<(), OutOfMemory>
    requires { CanBothBeLearned runs.old batch.now (option_copied second) }
    ensures ok { OnOk result
        (runs.new ≡ arrived_second (option_copied second.entry) (arrived batch.now runs.old)) }
    ensures err { OnErr result (runs.new ≡ runs.old) }
    ensures steps { OnOk result (batch.now.parent ≡ current_key batch.now.run runs.old
        → steps.new ≡ counted (counted_for (option_copied second.entry) steps.old)
        (length batch.now.events)) }
{
    match second {
        None => runs.learn(alloc, batch, steps),
        Some(second) => {
            are_tasks_small(runs, batch, second);
            runs.learn_both(alloc, batch, second, steps)
        }
    }
}

/// Learns messages, one after the other.
fn learn_all<L>(
    runs: &mut Runs,
    alloc: Global,
    messages: &[Message],
    steps: &mut Steps<L>,
) -> Result<(), OutOfMemory>
    requires { CanBeLearned runs.old messages.now }
    ensures { OnOk result (runs.new ≡ with_messages messages.now runs.old) }
{
    for sent in messages {
        learn(runs, alloc, &sent.batch, sent.second.as_ref(), steps)?;
    }
    Ok(())
}

/// Learns a message and what it frees.
fn learn_freed<L>(
    runs: &mut Runs,
    waiting: &mut Waiting,
    alloc: Global,
    message: Message,
    steps: &mut Steps<L>,
) -> Result<Arrival, OutOfMemory>
    requires new { IsNewTo (batches_of waiting.old) message }
    requires learnable { CanBeLearned runs.old (freed message waiting.old) }
    ensures runs { OnOk result (runs.new ≡ with_messages (freed message waiting.old) runs.old) }
    ensures waiting { OnOk result (waiting.new ≡ still_put_off message waiting.old) }
    ensures outcome { IfOk result (λ arrival.
        arrival.outcome ≡ Learned (map (λ b. b.key) (batches_of (freed message waiting.old)))) }
    ensures learned { IfOk result (λ arrival.
        arrival.learned ≡ batches_of (freed message waiting.old)) }
{
    let freed = waiting.free(alloc, message)?;
    learn_all(runs, alloc, freed.as_slice(), steps)?;
    Arrival::learned(alloc, freed)
}

/// Puts a message off.
fn put_off(waiting: &mut Waiting, alloc: Global, message: Message) -> Result<Arrival, OutOfMemory>
    requires waits { CanWait message }
    requires new { IsNewTo (batches_of waiting.old) message }
    ensures waiting { OnOk result (waiting.new ≡ put_off message waiting.old) }
    ensures outcome { IfOk result (λ arrival.
        arrival.outcome ≡ PutOff
        (unwrap_or (missing_from (Some message.batch.key)
        (batches_of (put_off message waiting.old))) message.batch.key)) }
    ensures learned { IfOk result (λ arrival. arrival.learned ≡ []) }
{
    let key = message.batch.key;
    waiting.put(message)?;
    let missing = waiting.missing(key);
    Ok(Arrival::put_off(alloc, missing))
}

/// Whether the earlier key of a batch, where it has one, is learned.
pub(crate) fn is_reached(runs: &Runs, batch: &Batch) -> bool
    ensures { result ≡ has_key (earlier batch.now) runs.now }
{
    match batch.parent.or(batch.carrier) {
        None => true,
        Some(key) => runs.has(key),
    }
}

/// A message that is not known is learned with what waits for it, or put off.
pub(crate) fn take_in<L>(
    runs: &mut Runs,
    waiting: &mut Waiting,
    alloc: Global,
    message: Message,
    steps: &mut Steps<L>,
) -> Result<Arrival, OutOfMemory>
    requires apart { ArePutOff runs.old waiting.old }
    requires small { AllByRecursion HasSmallIds (batches_of waiting.old) }
    requires message { IsMessage message }
    requires new { IsNewTo (with_messages waiting.old runs.old) message }
    requires sound { IsSound (learned (with_message message (with_messages waiting.old runs.old))) }
    requires ids { AllByRecursion HasSmallIds (both message) }
    ensures outcome { IfOk result (λ arrival.
        arrival.outcome ≡ arrival_in message (learned_with message (beside runs.old waiting.old))
        (workflow_with message (beside runs.old waiting.old)).arrived) }
    ensures learned { IfOk result (λ arrival.
        arrival.learned ≡ learned_with message (beside runs.old waiting.old)) }
    ensures workflow { OnOk result
        (beside runs.new waiting.new ≡ workflow_with message (beside runs.old waiting.old)) }
    ensures apart { OnOk result (ArePutOff runs.new waiting.new) }
    ensures small { OnOk result (AllByRecursion HasSmallIds (batches_of waiting.new)) }
{
    if is_reached(runs, &message.batch) {
        learn_freed(runs, waiting, alloc, message, steps)
    } else {
        put_off(waiting, alloc, message)
    }
}
