ghost use Rattle.std.specs.Prelude.{◌≡◌, ◌++◌, codes, map, OnOk, IfOk};
ghost use Rattle.std.specs.List.{flat_map};
ghost use Rattle.ndc_text.specs.Bare.{bare_text};
ghost use Rattle.ndc_text.specs.Text.{batch_text};
ghost use Rattle.ndc_text.specs.Views.{branch_state_lines, run_state_lines, dump_text};

use crate::line::{push_branch_line, push_run_line, push_state_line};
use crate::print::print_batch;
use ndc_event::{Batch, Name, OutOfMemory};
use ndc_model_sets::{BranchView, RunView, View};
use std::alloc::Global;

/// Appends a first line: its word, the domain and the workflow.
pub fn push_heading(
    text: &mut Vec<u8>,
    word: &[u8],
    domain: &Name,
    workflow: &Name,
) -> Result<(), OutOfMemory>
    ensures { OnOk result (text.new.items
        ≡ text.old.items ++ (word.now ++ domain.now ++ codes " " ++ workflow.now ++ codes "\n")) }
{
    text.extend_from_slice(word)?;
    text.extend_from_slice(domain.as_bytes())?;
    text.extend_from_slice(b" ")?;
    text.extend_from_slice(workflow.as_bytes())?;
    text.extend_from_slice(b"\n")
}

/// Appends the text of a batch as a line.
fn push_batch(alloc: Global, text: &mut Vec<u8>, batch: &Batch) -> Result<(), OutOfMemory>
    ensures { OnOk result (text.new.items
        ≡ text.old.items ++ (batch_text batch.now ++ codes "\n")) }
{
    text.extend_from_slice(print_batch(alloc, batch)?.as_slice())?;
    text.extend_from_slice(b"\n")
}

/// Appends the texts of batches, one a line.
fn push_batches(alloc: Global, text: &mut Vec<u8>, batches: &[Batch]) -> Result<(), OutOfMemory>
    ensures { OnOk result (text.new.items
        ≡ text.old.items ++ flat_map (λ b. batch_text b ++ codes "\n") batches.now) }
{
    for batch in batches {
        push_batch(alloc, text, batch)?;
    }
    Ok(())
}

/// Appends a branch with its state.
fn push_branch(text: &mut Vec<u8>, branch: &BranchView) -> Result<(), OutOfMemory>
    ensures { OnOk result (text.new.items ≡ text.old.items ++ branch_state_lines branch.now) }
{
    push_branch_line(text, branch)?;
    push_state_line(text, &branch.state)
}

/// Appends branches with their states.
fn push_branches(text: &mut Vec<u8>, branches: &[BranchView]) -> Result<(), OutOfMemory>
    ensures { OnOk result (text.new.items
        ≡ text.old.items ++ flat_map branch_state_lines branches.now) }
{
    for branch in branches {
        push_branch(text, branch)?;
    }
    Ok(())
}

/// Appends a run with its branches and their states.
fn push_run(alloc: Global, text: &mut Vec<u8>, run: &RunView) -> Result<(), OutOfMemory>
    ensures { OnOk result (text.new.items ≡ text.old.items ++ run_state_lines run.now) }
{
    push_run_line(alloc, text, run)?;
    push_branches(text, run.branches.as_slice())
}

/// Appends runs with their branches and their states.
pub fn push_runs(alloc: Global, text: &mut Vec<u8>, runs: &[RunView]) -> Result<(), OutOfMemory>
    ensures { OnOk result (text.new.items ≡ text.old.items ++ flat_map run_state_lines runs.now) }
{
    for run in runs {
        push_run(alloc, text, run)?;
    }
    Ok(())
}

/// The dump of a view: a first line with the domain and the workflow, the batches in key order, each run with its
/// branches and their states, and a last line `end`.
pub fn dump_text(
    alloc: Global,
    domain: &Name,
    workflow: &Name,
    view: &View,
) -> Result<Vec<u8>, OutOfMemory>
    ensures { IfOk result (λ text. text.items ≡ dump_text domain.now workflow.now view.now) }
{
    let mut text = Vec::new(alloc);
    push_heading(&mut text, b"dump 2 ".as_slice(), domain, workflow)?;
    push_batches(alloc, &mut text, view.batches.as_slice())?;
    push_runs(alloc, &mut text, view.runs.as_slice())?;
    text.extend_from_slice(b"end\n")?;
    Ok(text)
}

/// The dump of batches alone, without the lines of a view: a first line with the domain and the workflow, then a line for
/// each batch, in the order in which they are given. An engine that knows its batches and nothing else prints so what
/// `read_bare_dump` of `ndc_dump` reads.
pub fn bare_text(
    alloc: Global,
    domain: &Name,
    workflow: &Name,
    batches: &[&Batch],
) -> Result<Vec<u8>, OutOfMemory>
    ensures { IfOk result (λ text.
        text.items ≡ bare_text domain.now workflow.now (map (λ b. b.now) batches.now)) }
{
    let mut text = Vec::new(alloc);
    push_heading(&mut text, b"dump 2 ".as_slice(), domain, workflow)?;
    for batch in batches {
        push_batch(alloc, &mut text, batch)?;
    }
    Ok(text)
}
