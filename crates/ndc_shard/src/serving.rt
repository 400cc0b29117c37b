ghost use Rattle.std.specs.Prelude.{◌≡◌, map, IfOk};
ghost use Rattle.std.specs.List.{filter_map};
ghost use Rattle.std.specs.Option.{option_copied};
ghost use Rattle.ndc_model_cells.specs.Cells.{message_at};
ghost use Rattle.ndc_model_cells.specs.Places.{place_of};
ghost use Rattle.ndc_model_sets.specs.Paths.{path_to};
ghost use Rattle.ndc_model_sets.specs.Reading.{named};
ghost use Rattle.ndc_model_sets.specs.Sets.{IsSet};
ghost use Rattle.ndc_resend.specs.Gaps.{end_behind, served};
ghost use Rattle.ndc_shard.specs.Ends.{behind};
ghost use Rattle.ndc_resend.specs.Serving.{answered, chain_to, first_carrier, served_for};

use ndc_event::{Batch, BatchKey, OutOfMemory};
use ndc_model_cells::Message;
use ndc_model_sets::{earlier_key, first_id};
use ndc_resend::{Gap, GapOf, serve_lent};
use ndc_shard_runs::Runs;
use ndc_shard_workflows::{Workflows, message_there};
use std::alloc::Global;

/// What a cell serves for a gap: the messages of the batches in it on the path to the batch that was asked for, in path
/// order. A batch that another one carries comes with the message of its carrier, after the messages of the carrier's
/// path, and so on upwards. Nothing, where the batch that was asked for is not learned here. In time of what is served
/// times the logarithm of what is learned, and of what is put off of the workflow for each message.
pub(crate) fn serve(
    alloc: Global,
    workflows: &Workflows,
    asked: &GapOf,
) -> Result<Vec<Message>, OutOfMemory>
    ensures { IfOk result (λ list. list.items ≡ served_for asked.now workflows.now) }
{
    match workflows.find(&asked.domain, &asked.workflow) {
        Some(found) => {
            let batches = answered(alloc, found.runs(), &asked.gap, asked.key)?;
            messages(alloc, workflows, batches.as_slice())
        }
        None => Ok(Vec::new(alloc)),
    }
}

/// The messages of what a cell has learned at the places of these batches.
fn messages(
    alloc: Global,
    workflows: &Workflows,
    batches: &[&Batch],
) -> Result<Vec<Message>, OutOfMemory>
    ensures { IfOk result (λ list.
        list.items ≡ filter_map (λ b. message_at workflows.now (place_of b))
        (map (λ b. b.now) batches.now)) }
{
    let mut list = Vec::new(alloc);
    for batch in batches {
        let found = message_there(alloc, workflows, &batch.domain, &batch.workflow, batch.key)?;
        if let Some(message) = found {
            list.push(message)?;
        }
    }
    Ok(list)
}

/// The batches of a gap on the path to the one of this key, after those by which carriers lead to the first of them.
fn answered<'r>(
    alloc: Global,
    runs: &'r Runs,
    gap: &Gap,
    key: BatchKey,
) -> Result<Vec<&'r Batch>, OutOfMemory>
    requires { IsSet runs.now }
    ensures { IfOk result (λ list. map (λ b. b.now) list.items ≡ answered runs.now gap.now key) }
{
    let mut lie = lie_between(alloc, runs, gap, key)?;
    let mut list = chain(alloc, runs, first_carrier(lie.as_slice()))?;
    list.append(&mut lie)?;
    Ok(list)
}

/// The batches of a gap on the path to the one of this key.
fn lie_between<'r>(
    alloc: Global,
    runs: &'r Runs,
    gap: &Gap,
    key: BatchKey,
) -> Result<Vec<&'r Batch>, OutOfMemory>
    requires { IsSet runs.now }
    ensures { IfOk result (λ list.
        map (λ b. b.now) list.items
        ≡ served gap.now (end_behind gap.now.after.id (path_to key runs.now))) }
{
    let path = path_behind(alloc, runs, gap.after.id, key)?;
    serve_lent(alloc, path.as_slice(), gap)
}

/// The end of the path to the batch of this key that begins after an id. In time of its length.
fn path_behind(
    alloc: Global,
    runs: &Runs,
    id: u64,
    key: BatchKey,
) -> Result<Vec<&Batch>, OutOfMemory>
    requires { IsSet runs.now }
    ensures { IfOk result (λ list.
        map (λ b. b.now) list.items ≡ end_behind id (path_to key runs.now)) }
{
    let mut list = Vec::new(alloc);
    let mut next = behind(named(runs, Some(key)), id);
    while let Some(one) = next {
        list.push(one)?;
        next = behind(named(runs, one.parent), id);
    }
    list.reverse();
    Ok(list)
}

/// The batch, where it begins after an id.
fn behind(batch: Option<&Batch>, id: u64) -> Option<&Batch>
    ensures { option_copied result ≡ behind id (option_copied batch.entry) }
{
    match batch {
        Some(one) if id < first_id(one.events.as_slice()) => Some(one),
        _ => None,
    }
}

/// The carrier's key of the first of these batches.
fn first_carrier(batches: &[&Batch]) -> Option<BatchKey>
    ensures { result ≡ first_carrier (map (λ b. b.now) batches.now) }
{
    match batches {
        [] => None,
        [batch, ..] => batch.carrier,
    }
}

/// The batches that lead to the one of this key, through parents and carriers, and that one.
fn chain(alloc: Global, runs: &Runs, wanted: Option<BatchKey>) -> Result<Vec<&Batch>, OutOfMemory>
    requires { IsSet runs.now }
    ensures { IfOk result (λ list. map (λ b. b.now) list.items ≡ chain_to wanted runs.now) }
{
    let mut list = Vec::new(alloc);
    let mut next = named(runs, wanted);
    while let Some(one) = next {
        list.push(one)?;
        next = named(runs, earlier_key(one));
    }
    list.reverse();
    Ok(list)
}

/// The learned batch of this key, where there is one.
fn named(runs: &Runs, key: Option<BatchKey>) -> Option<&Batch>
    ensures { option_copied result ≡ named key runs.now }
{
    match key {
        None => None,
        Some(key) => runs.get(key),
    }
}
