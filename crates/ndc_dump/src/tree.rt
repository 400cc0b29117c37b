ghost use Rattle.std.specs.Prelude.{◌≡◌, ◌++◌, codes, decimal, map, IfOk, OnOk};
ghost use Rattle.std.specs.List.{flat_map};
ghost use Rattle.ndc_model_sets.specs.Paths.{first_id, last_id};
ghost use Rattle.ndc_model_sets.specs.Sound.{IsSound};
ghost use Rattle.ndc_model_sets.specs.View.{view_of};
ghost use Rattle.ndc_dump.specs.Groups.{listed};
ghost use Rattle.ndc_text.specs.Views.{branch_line, current_mark, parent_text, tree_text};
ghost use Rattle.ndc_dump.specs.Marks.{batch_head, current_key, marked_line, marked_lines, run_tree};

use crate::path::path_keys;
use crate::run_batches::{RunBatches, grouped};
use ndc_dump_causes::keys::KeySet;
use ndc_event::{Batch, BatchKey, Event, Name, OutOfMemory};
use ndc_model_sets::{BranchView, RunView, View, first_id, last_id};
use ndc_text::dump::push_heading;
use ndc_text::line::{push_branch_line, push_key, push_mark, push_number, push_run_line};
use std::alloc::Global;

/// Appends a parent's key, or a dash.
fn push_parent(text: &mut Vec<u8>, parent: Option<BatchKey>) -> Result<(), OutOfMemory>
    ensures { OnOk result (text.new.items ≡ text.old.items ++ parent_text parent) }
{
    match parent {
        None => text.extend_from_slice(b"-"),
        Some(key) => push_key(text, key),
    }
}

/// Appends `batch KEY after PARENT`.
fn push_batch_head(text: &mut Vec<u8>, batch: &Batch) -> Result<(), OutOfMemory>
    ensures { OnOk result (text.new.items ≡ text.old.items ++ batch_head batch.now) }
{
    text.extend_from_slice(b"batch ")?;
    push_key(text, batch.key)?;
    text.extend_from_slice(b" after ")?;
    push_parent(text, batch.parent)
}

/// Appends ` events FIRST..LAST`, with a mark where it is wanted, and the line end.
fn push_events(text: &mut Vec<u8>, events: &[Event], mark: bool) -> Result<(), OutOfMemory>
    ensures { OnOk result (text.new.items ≡ text.old.items ++ codes " events "
        ++ decimal (first_id events.now) ++ codes ".."
        ++ decimal (last_id events.now) ++ current_mark mark ++ codes "\n") }
{
    text.extend_from_slice(b" events ")?;
    push_number(text, first_id(events))?;
    text.extend_from_slice(b"..")?;
    push_number(text, last_id(events))?;
    push_mark(text, mark)?;
    text.extend_from_slice(b"\n")
}

/// Appends the line of a batch, with a mark where it is on the current branch.
fn push_batch_line(text: &mut Vec<u8>, batch: &Batch, is_current: bool) -> Result<(), OutOfMemory>
    ensures { OnOk result (text.new.items ≡ text.old.items ++ marked_line is_current batch.now) }
{
    push_batch_head(text, batch)?;
    push_events(text, batch.events.as_slice(), is_current)?;
    Ok(())
}

/// Appends the lines of batches, those with a listed key marked.
fn push_batch_lines(
    text: &mut Vec<u8>,
    batches: &[&Batch],
    keys: &KeySet,
) -> Result<(), OutOfMemory>
    ensures { OnOk result (text.new.items
        ≡ text.old.items ++ marked_lines keys.now (map (λ b. b.now) batches.now)) }
{
    for batch in batches {
        push_batch_line(text, batch, keys.contains(batch.key))?;
    }
    Ok(())
}

/// Appends the lines of branches.
fn push_branch_lines(text: &mut Vec<u8>, branches: &[BranchView]) -> Result<(), OutOfMemory>
    ensures { OnOk result (text.new.items ≡ text.old.items ++ flat_map branch_line branches.now) }
{
    for branch in branches {
        push_branch_line(text, branch)?;
    }
    Ok(())
}

/// The tip of the current branch.
fn current_key(branches: &[BranchView]) -> Option<BatchKey>
    ensures { result ≡ current_key branches.now }
{
    for branch in branches {
        if branch.is_current {
            return Some(branch.tip);
        }
    }
    None
}

/// Appends a run with its batches and branches.
fn push_run_tree(
    alloc: Global,
    text: &mut Vec<u8>,
    batches: &[&Batch],
    run: &RunView,
) -> Result<(), OutOfMemory>
    ensures { OnOk result (text.new.items
        ≡ text.old.items ++ run_tree (map (λ b. b.now) batches.now) run.now) }
{
    let branches = run.branches.as_slice();
    let keys = path_keys(alloc, batches, current_key(branches))?;
    push_run_line(alloc, text, run)?;
    push_batch_lines(text, batches, &keys)?;
    push_branch_lines(text, branches)?;
    Ok(())
}

/// Appends a run with those of the batches that are listed under it, and its branches.
fn push_run_among(
    alloc: Global,
    text: &mut Vec<u8>,
    batches: &RunBatches,
    run: &RunView,
) -> Result<(), OutOfMemory>
    ensures { OnOk result (text.new.items
        ≡ text.old.items ++ run_tree (listed run.now.run batches.now) run.now) }
{
    match batches.get(run.run) {
        Some(list) => push_run_tree(alloc, text, list.as_slice(), run),
        None => push_run_tree(alloc, text, &[], run),
    }
}

/// Appends runs, each with those of the batches that are listed under it, and its branches.
fn push_run_trees(
    alloc: Global,
    text: &mut Vec<u8>,
    batches: &RunBatches,
    runs: &[RunView],
) -> Result<(), OutOfMemory>
    ensures { OnOk result (text.new.items
        ≡ text.old.items ++ flat_map (λ run. run_tree (listed run.run batches.now) run) runs.now) }
{
    for run in runs {
        push_run_among(alloc, text, batches, run)?;
    }
    Ok(())
}

/// The tree of a view: a first line with the domain and the workflow, and each run with its batches in key order and
/// its branches. It asks for the view of a sound set. The batches are gone over once for their runs, and those of each
/// run once more for the path of its current branch.
pub fn tree_text(
    alloc: Global,
    domain: &Name,
    workflow: &Name,
    view: &View,
) -> Result<Vec<u8>, OutOfMemory>
    requires shown { view.now ≡ view_of view.now.batches }
    requires sound { IsSound view.now.batches }
    ensures { IfOk result (λ text. text.items ≡ tree_text domain.now workflow.now view.now) }
{
    let batches = grouped(alloc, view.batches.as_slice())?;
    let mut text = Vec::new(alloc);
    push_heading(&mut text, b"workflow ".as_slice(), domain, workflow)?;
    push_run_trees(alloc, &mut text, &batches, view.runs.as_slice())?;
    Ok(text)
}
