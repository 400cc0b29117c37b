ghost use Rattle.std.specs.Prelude.{◌≡◌, ◌+◌, [], map, length, IfOk, OnOk};
ghost use Rattle.std.specs.List.{flat_map, fold, list_any};
ghost use Rattle.ndc_model_cells.specs.Cells.{both};
ghost use Rattle.ndc_model_cells.specs.Places.{is_of};
ghost use Rattle.ndc_world_queries.specs.Summaries.{messages_of, with_workflow, workflows_in};

use ndc_cluster::Cell;
use ndc_event::{Batch, OutOfMemory};
use ndc_model_cells::Message;
use ndc_world_answers::sum;
use std::alloc::Global;

/// What cells have written: how many batches, and to which workflows, each by the first batch that was found of it.
#[derive(Drop)]
pub(crate) struct Found {
    pub(crate) batches: u64,
    pub(crate) workflows: Vec<Batch>,
}

/// How many batches a message has: its own, and the one that it carries.
fn batches_in(message: &Message) -> u64
    ensures { result ≡ length (both message.now) }
{
    match message.second.as_ref() {
        None => 1,
        Some(_) => 2,
    }
}

/// Whether the workflow of a batch is one of those that were found.
fn is_found(found: &[Batch], batch: &Batch) -> bool
    ensures { result ≡ list_any (is_of batch.now.domain batch.now.workflow) found.now }
{
    found.iter().any(|other| other.domain == batch.domain && other.workflow == batch.workflow)
}

/// Adds the workflow of a batch to those that were found, where none of them is it.
fn add_workflow(found: &mut Vec<Batch>, batch: Batch) -> Result<(), OutOfMemory>
    ensures { OnOk result (found.new.items ≡ with_workflow found.old.items batch) }
{
    if !is_found(found.as_slice(), &batch) {
        found.push(batch)?;
    }
    Ok(())
}

/// Adds the workflows to which a cell has written, and counts the batches.
fn add_written<C: Cell>(found: &mut Vec<Batch>, cell: &C) -> Result<u64, OutOfMemory>
    ensures workflows { OnOk result (found.new.items ≡ fold with_workflow found.old.items (map (λ sent. sent.batch) (C.cell cell.now).written)) }
    ensures batches { IfOk result (λ count. count ≡ length (flat_map both (C.cell cell.now).written)) }
{
    let mut count = 0;
    for place in 0..cell.written_len() {
        let message = cell.written_at(place)?;
        count = sum(count, batches_in(&message))?;
        let Message {
            batch,
            history: _history,
            second: _second,
        } = message;
        add_workflow(found, batch)?;
    }
    Ok(count)
}

/// What cells have written.
pub(crate) fn found_in<C: Cell>(alloc: Global, cells: &[&C]) -> Result<Found, OutOfMemory>
    ensures batches { IfOk result (λ found. found.batches ≡ length (flat_map both (messages_of (map (λ cell. C.cell cell.now) cells.now)))) }
    ensures workflows { IfOk result (λ found. found.workflows.items ≡ workflows_in (map (λ cell. C.cell cell.now) cells.now)) }
{
    let mut batches = 0;
    let mut workflows = Vec::new(alloc);
    for cell in cells {
        let count = add_written(&mut workflows, *cell)?;
        batches = sum(batches, count)?;
    }
    Ok(Found { batches, workflows })
}
