ghost use Rattle.std.specs.Prelude.{◌≡◌, ◌++◌, [], ◌∷◌, codes, decimal, length, map, IfOk, OnOk, if◌then◌else◌};
ghost use Rattle.std.specs.List.{flat_map};
ghost use Rattle.ndc_event.specs.Key.{run_text};
ghost use Rattle.ndc_model.specs.Texts.{event_line, ok, refused};
ghost use Rattle.ndc_state.specs.Replay.{history_of};
ghost use Rattle.ndc_state.specs.Text.{state_text};
ghost use Rattle.ndc_text.specs.Views.{branch_line, dump_text, key_text, run_lines, status_text};

use crate::tally::sum;
use crate::text::AnswerText;
use crate::word::{Word, count_line, ok, refused};
use ndc_event::{Batch, BatchKey, Event, Name, OutOfMemory, RunId};
use ndc_history::Item;
use ndc_model_sets::{BranchView, RunStatus, RunView, View};
use ndc_state::{CloseKind, State};
use ndc_text::dump_text;
use ndc_text::line::{push_branch_line, push_item, push_run_line, status_word};
use std::alloc::Global;

/// Nothing of the workflow is learned.
pub fn no_workflow(alloc: Global) -> Result<AnswerText, OutOfMemory>
    ensures { IfOk result (λ text. text ≡ refused (codes "NoWorkflow" ∷ [])) }
{
    refused(alloc, &[Word::Plain("NoWorkflow")])
}

/// Appends `ID@VERSION KIND`.
fn push_event(text: &mut Vec<u8>, event: &Event) -> Result<(), OutOfMemory>
    ensures { OnOk result (text.new.items ≡ text.old.items ++ event_line event.now) }
{
    push_item(
        text,
        Item {
            id: event.id,
            version: event.version,
        },
    )?;
    text.extend_from_slice(b" ")?;
    text.extend_from_slice(event.kind.name().as_bytes())?;
    text.extend_from_slice(b"\n")
}

/// Appends events, one a line.
fn push_events(text: &mut Vec<u8>, events: &[Event]) -> Result<(), OutOfMemory>
    ensures { OnOk result (text.new.items ≡ text.old.items ++ flat_map event_line events.now) }
{
    for event in events {
        push_event(text, event)?;
    }
    Ok(())
}

/// How many events the batches have. A number above 2^64 - 1, for which there is no memory, is said to be want of it.
fn count_events(path: &[&Batch]) -> Result<u64, OutOfMemory>
    ensures { IfOk result (λ count. count ≡ length (history_of (map (λ b. b.now) path.now))) }
{
    let mut count = 0;
    for batch in path {
        count = sum(count, batch.events.as_slice().len() as u64)?;
    }
    Ok(count)
}

/// How many events the batches of a path have, and a line for each event.
pub fn history(alloc: Global, path: &[&Batch]) -> Result<AnswerText, OutOfMemory>
    ensures { IfOk result (λ text. text
        ≡ ok (decimal (length (history_of (map (λ b. b.now) path.now))) ∷ [])
        ++ flat_map event_line (history_of (map (λ b. b.now) path.now))) }
{
    let mut text = count_line(alloc, count_events(path)?)?;
    for batch in path {
        push_events(&mut text, batch.events.as_slice())?;
    }
    Ok(AnswerText::done(text))
}

/// Appends branches, one a line.
fn push_branches(text: &mut Vec<u8>, branches: &[BranchView]) -> Result<(), OutOfMemory>
    ensures { OnOk result (text.new.items ≡ text.old.items ++ flat_map branch_line branches.now) }
{
    for branch in branches {
        push_branch_line(text, branch)?;
    }
    Ok(())
}

/// Appends a run with its branches.
fn push_run(alloc: Global, text: &mut Vec<u8>, run: &RunView) -> Result<(), OutOfMemory>
    ensures { OnOk result (text.new.items ≡ text.old.items ++ run_lines run.now) }
{
    push_run_line(alloc, text, run)?;
    push_branches(text, run.branches.as_slice())
}

/// How many runs there are, and their lines with those of their branches.
pub fn branches(alloc: Global, runs: &[RunView]) -> Result<AnswerText, OutOfMemory>
    ensures { IfOk result (λ text.
        text ≡ ok (decimal (length runs.now) ∷ []) ++ flat_map run_lines runs.now) }
{
    let mut text = count_line(alloc, runs.len() as u64)?;
    for run in runs {
        push_run(alloc, &mut text, run)?;
    }
    Ok(AnswerText::done(text))
}

/// The current run, the tip of its current branch, and its status.
pub fn current(
    alloc: Global,
    run: RunId,
    tip: BatchKey,
    status: RunStatus,
    close: Option<CloseKind>,
) -> Result<AnswerText, OutOfMemory>
    ensures { IfOk result (λ text.
        text ≡ ok (run_text run ∷ key_text tip ∷ status_text status close ∷ [])) }
{
    let name = run.text(alloc)?;
    ok(
        alloc,
        &[
            Word::Bytes(name.as_bytes()),
            Word::Key(tip),
            Word::Plain(status_word(status, close)),
        ],
    )
}

/// A state in one line.
pub fn state(alloc: Global, state: &State) -> Result<AnswerText, OutOfMemory>
    ensures { IfOk result (λ text. text ≡ ok (state_text state.now ∷ [])) }
{
    let shown = state.text()?;
    ok(alloc, &[Word::Bytes(shown.as_slice())])
}

/// How many batches are learned, and the dump.
pub fn dump(
    alloc: Global,
    domain: &Name,
    workflow: &Name,
    view: &View,
) -> Result<AnswerText, OutOfMemory>
    ensures { IfOk result (λ text.
        text ≡ ok (decimal (length view.now.batches) ∷ [])
        ++ dump_text domain.now workflow.now view.now) }
{
    let mut text = count_line(alloc, view.batches.as_slice().len() as u64)?;
    text.extend_from_slice(dump_text(alloc, domain, workflow, view)?.as_slice())?;
    Ok(AnswerText::done(text))
}

/// Whether two clusters show the same.
pub fn compared(alloc: Global, is_same: bool) -> Result<AnswerText, OutOfMemory>
    ensures { IfOk result (λ text.
        text ≡ ok ((if is_same then codes "same" else codes "differ") ∷ [])) }
{
    if is_same {
        ok(alloc, &[Word::Plain("same")])
    } else {
        ok(alloc, &[Word::Plain("differ")])
    }
}
