ghost use Rattle.std.specs.Prelude.{◌≡◌, [], ◌++◌, is_some, option_to_list, IfOk, OnOk, if◌then◌else◌};
ghost use Rattle.std.specs.Option.{option_copied};
ghost use Rattle.ndc_model_cells.specs.Workflow.{workflow_of};
ghost use Rattle.ndc_resend.specs.Gaps.{first_item, gap_of};
ghost use Rattle.ndc_resend.specs.PutOff.{gap_with, gaps_at, gaps_in, gaps_of, history_in};
ghost use Rattle.ndc_shard.specs.Gaps.{gap_there};
ghost use Rattle.ndc_shard.specs.Histories.{histories_at};
ghost use Rattle.ndc_shard_workflows.specs.Workflow.{IsWorkflow};

use crate::histories::Histories;
use ndc_event::{Batch, BatchKey, Name, OutOfMemory};
use ndc_history::VersionHistory;
use ndc_model_cells::{Message, Place};
use ndc_resend::{Gap, GapOf, first_item};
use ndc_shard_waiting::{PutOff, Waiting};
use ndc_shard_workflows::{Workflow, Workflows};
use std::alloc::Global;

/// What is put off in a cell, in order of domain, workflow and key, each batch with the gap before it: after the best
/// item that the histories of the learned branches of its run have in common with the history that its message came
/// with. Looks into no other cell. In time of what is put off times the branches of the run, and of what is learned of
/// the workflows of which something is put off.
pub(crate) fn gaps(alloc: Global, workflows: &Workflows) -> Result<Vec<GapOf>, OutOfMemory>
    ensures { IfOk result (λ list. list.items ≡ gaps_of workflows.now) }
{
    let places = workflows.behind(alloc)?;
    let mut list = Vec::new(alloc);
    for place in places.as_slice() {
        let mut more = gaps_at(alloc, workflows, &place.domain, &place.workflow)?;
        list.append(&mut more)?;
    }
    Ok(list)
}

/// Those of one workflow, in key order.
pub(crate) fn gaps_at(
    alloc: Global,
    workflows: &Workflows,
    domain: &Name,
    workflow: &Name,
) -> Result<Vec<GapOf>, OutOfMemory>
    ensures { IfOk result (λ list.
        list.items ≡ gaps_in (workflow_of domain.now workflow.now workflows.now)) }
{
    match workflows.find(domain, workflow) {
        Some(found) => gaps_in(alloc, found),
        None => Ok(Vec::new(alloc)),
    }
}

/// Those of a workflow.
fn gaps_in(alloc: Global, workflow: &Workflow) -> Result<Vec<GapOf>, OutOfMemory>
    requires { IsWorkflow workflow.now }
    ensures { IfOk result (λ list. list.items ≡ gaps_in workflow.now) }
{
    let missing = workflow.all_missing(alloc)?;
    let histories = Histories::of(alloc, workflow.runs())?;
    let mut list = Vec::with_capacity(alloc, missing.len())?;
    for one in missing.as_slice() {
        push_gap(&mut list, &histories, workflow.put_off(), one)?;
    }
    Ok(list)
}

/// Adds the gap before a batch that is put off.
fn push_gap(
    list: &mut Vec<GapOf>,
    histories: &Histories,
    waiting: &Waiting,
    one: &PutOff,
) -> Result<(), OutOfMemory>
    ensures { OnOk result (list.new.items
        ≡ list.old.items ++ option_to_list (gap_there histories.now waiting.now one.now)) }
{
    let Some(batch) = waiting.get(one.key) else {
        return Ok(());
    };
    list.push(gap_of(histories, waiting, batch, one.missing)?)?;
    Ok(())
}

/// The gap before a batch, one of those that wait.
fn gap_of(
    histories: &Histories,
    waiting: &Waiting,
    batch: &Batch,
    missing: BatchKey,
) -> Result<GapOf, OutOfMemory>
    ensures { IfOk result (λ gap.
        gap ≡ gap_with (histories_at batch.now.run histories.now) waiting.now missing batch.now) }
{
    Ok(GapOf {
        domain: batch.domain.try_copy()?,
        workflow: batch.workflow.try_copy()?,
        run: batch.run,
        key: batch.key,
        gap: gap_before(histories, batch, waiting.message(batch.key)),
        missing,
    })
}

/// The gap before a batch, which this message brings; a batch that begins its run has no history before it.
fn gap_before(histories: &Histories, batch: &Batch, sent: Option<&Message>) -> Gap
    ensures { result ≡ gap_of (histories_at batch.now.run histories.now)
        (if is_some batch.now.parent then history_in (option_copied sent.entry) else [])
        (first_item batch.now) }
{
    let first = first_item(batch);
    match sent {
        Some(sent) if batch.parent.is_some() => histories.gap(batch.run, &sent.history, first),
        _ => histories.gap(batch.run, &VersionHistory::new(histories.alloc()), first),
    }
}
