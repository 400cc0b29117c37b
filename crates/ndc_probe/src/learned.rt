//! What is told of what clusters have learned.
ghost use Rattle.std.specs.Prelude.{◌≡◌, ◌++◌, OnOk, map};
ghost use Rattle.ndc_probe.specs.Learned.{fork_line, lines_or_none, quoted, workflow_line, workflows_text};

use ndc_event::{Name, OutOfMemory};
use ndc_model_sets::RunView;
use ndc_text::line::push_number;
use std::alloc::Global;

/// Appends bytes, with `| ` before each line of them.
pub(crate) fn push_quoted(text: &mut Vec<u8>, bytes: &[u8]) -> Result<(), OutOfMemory>
    ensures { OnOk result (text.new.items ≡ text.old.items ++ quoted bytes.now) }
{
    let mut begins = true;
    for byte in bytes {
        if begins {
            text.extend_from_slice(b"| ")?;
        }
        text.push(*byte)?;
        begins = *byte == b'\n';
    }
    Ok(())
}

/// Appends the line of a workflow.
pub(crate) fn push_workflow(text: &mut Vec<u8>, workflow: &Name) -> Result<(), OutOfMemory>
    ensures { OnOk result (text.new.items ≡ text.old.items ++ workflow_line workflow.now) }
{
    text.extend_from_slice(workflow.as_bytes())?;
    text.extend_from_slice(b"\n")
}

/// Appends workflows, a line for each.
pub(crate) fn push_workflows(text: &mut Vec<u8>, workflows: &[Name]) -> Result<(), OutOfMemory>
    ensures { OnOk result (text.new.items ≡ text.old.items ++ workflows_text workflows.now) }
{
    push_number(text, workflows.len() as u64)?;
    text.extend_from_slice(b" workflows\n")?;
    for workflow in workflows {
        push_workflow(text, workflow)?;
    }
    Ok(())
}

/// Appends the line of a run that has several branches.
#[tactic(auto, unfolding(crate::specs::Learned::fork_line))]
pub(crate) fn push_fork(
    alloc: Global,
    text: &mut Vec<u8>,
    workflow: &Name,
    run: &RunView,
) -> Result<(), OutOfMemory>
    ensures { OnOk result (text.new.items ≡ text.old.items ++ fork_line workflow.now run.now) }
{
    let count = run.branches.as_slice().len();
    if count == 1 {
        return Ok(());
    }
    text.extend_from_slice(workflow.as_bytes())?;
    text.extend_from_slice(b" run ")?;
    text.extend_from_slice(run.run.text(alloc)?.as_bytes())?;
    text.extend_from_slice(b" has ")?;
    push_number(text, count as u64)?;
    text.extend_from_slice(b" branches\n")
}

/// Appends lines after one that says so, or one that says that there are none.
pub(crate) fn push_lines_or_none(
    text: &mut Vec<u8>,
    none: &[u8],
    some: &[u8],
    lines: &[u8],
) -> Result<(), OutOfMemory>
    ensures { OnOk result (text.new.items ≡ text.old.items ++ lines_or_none none.now some.now lines.now) }
{
    if lines.is_empty() {
        return text.extend_from_slice(none);
    }
    text.extend_from_slice(some)?;
    text.extend_from_slice(lines)
}
