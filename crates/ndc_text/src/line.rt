ghost use Rattle.std.specs.Prelude.{◌≡◌, ◌++◌, codes, decimal, map, OnOk};
ghost use Rattle.ndc_state.specs.Text.{state_text};
ghost use Rattle.ndc_text.specs.Views.{further, with_commas, key_text, item_text, close_text, closed_text, status_text, current_mark, run_line, branch_line};

use ndc_event::{BatchKey, OutOfMemory, RunId};
use ndc_history::Item;
use ndc_model_sets::{BranchView, RunStatus, RunView};
use ndc_state::{CloseKind, State};
use std::alloc::Global;

/// Appends a number.
pub fn push_number(text: &mut Vec<u8>, number: u64) -> Result<(), OutOfMemory>
    ensures { OnOk result (text.new.items ≡ text.old.items ++ decimal number) }
{
    let mut buffer = itoa::Buffer::new();
    text.extend_from_slice(buffer.format(number).as_bytes())
}

/// Appends `VERSION.TASK`.
pub fn push_key(text: &mut Vec<u8>, key: BatchKey) -> Result<(), OutOfMemory>
    ensures { OnOk result (text.new.items ≡ text.old.items ++ key_text key) }
{
    push_number(text, key.version)?;
    text.extend_from_slice(b".")?;
    push_number(text, key.task)
}

/// Appends `ID@VERSION`.
pub fn push_item(text: &mut Vec<u8>, item: Item) -> Result<(), OutOfMemory>
    ensures { OnOk result (text.new.items ≡ text.old.items ++ item_text item) }
{
    push_number(text, item.id)?;
    text.extend_from_slice(b"@")?;
    push_number(text, item.version)
}

/// Appends items, each after a comma.
fn push_further(text: &mut Vec<u8>, items: &[Item]) -> Result<(), OutOfMemory>
    ensures { OnOk result (text.new.items ≡ text.old.items ++ further (map item_text items.now)) }
{
    for item in items {
        text.extend_from_slice(b",")?;
        push_item(text, *item)?;
    }
    Ok(())
}

/// Appends items with commas between them.
fn push_items(text: &mut Vec<u8>, items: &[Item]) -> Result<(), OutOfMemory>
    ensures { OnOk result (text.new.items
        ≡ text.old.items ++ with_commas (map item_text items.now)) }
{
    match items {
        [] => Ok(()),
        [first, later @ ..] => {
            push_item(text, *first)?;
            push_further(text, later)
        }
    }
}

/// Appends ` current` where something is.
pub fn push_mark(text: &mut Vec<u8>, is_current: bool) -> Result<(), OutOfMemory>
    ensures { OnOk result (text.new.items ≡ text.old.items ++ current_mark is_current) }
{
    if is_current {
        text.extend_from_slice(b" current")?;
    }
    Ok(())
}

/// How a close is printed.
fn close_word(close: CloseKind) -> &'static str
    ensures { result.now ≡ close_text close }
{
    match close {
        CloseKind::Completed => "completed",
        CloseKind::Failed => "failed",
        CloseKind::Canceled => "canceled",
        CloseKind::Terminated => "terminated",
        CloseKind::Continued => "continued",
    }
}

/// How a closed run is printed.
fn closed_word(close: Option<CloseKind>) -> &'static str
    ensures { result.now ≡ closed_text close }
{
    match close {
        None => "closed",
        Some(kind) => close_word(kind),
    }
}

/// How the status of a run is printed.
pub fn status_word(status: RunStatus, close: Option<CloseKind>) -> &'static str
    ensures { result.now ≡ status_text status close }
{
    match status {
        RunStatus::Running => "open",
        RunStatus::Zombie => "zombie",
        RunStatus::Closed => closed_word(close),
    }
}

/// Appends the line of a run.
pub fn push_run_line(alloc: Global, text: &mut Vec<u8>, run: &RunView) -> Result<(), OutOfMemory>
    ensures { OnOk result (text.new.items ≡ text.old.items ++ run_line run.now) }
{
    text.extend_from_slice(b"run ")?;
    text.extend_from_slice(run.run.text(alloc)?.as_bytes())?;
    text.extend_from_slice(b" ")?;
    text.extend_from_slice(status_word(run.status, run.close).as_bytes())?;
    push_mark(text, run.is_current)?;
    text.extend_from_slice(b"\n")
}

/// Appends the line of a branch.
pub fn push_branch_line(text: &mut Vec<u8>, branch: &BranchView) -> Result<(), OutOfMemory>
    ensures { OnOk result (text.new.items ≡ text.old.items ++ branch_line branch.now) }
{
    text.extend_from_slice(b"branch ")?;
    push_key(text, branch.tip)?;
    text.extend_from_slice(b" ")?;
    push_items(text, branch.history.items())?;
    push_mark(text, branch.is_current)?;
    text.extend_from_slice(b"\n")
}

/// Appends the line of a state.
pub fn push_state_line(text: &mut Vec<u8>, state: &State) -> Result<(), OutOfMemory>
    ensures { OnOk result (text.new.items ≡ text.old.items ++ codes "state " ++ state_text state.now
        ++ codes "\n") }
{
    text.extend_from_slice(b"state ")?;
    text.extend_from_slice(state.text()?.as_slice())?;
    text.extend_from_slice(b"\n")
}
