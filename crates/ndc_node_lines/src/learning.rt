use crate::answer::Answer;
use ndc_event::{Batch, BatchKey, Name, OutOfMemory};
use ndc_model_cells::Written;
use ndc_node::Node;
use ndc_text::print_batch;

/// A batch that became learned, for an index: a line of its domain, its workflow and its text.
pub(crate) fn tell_learned(batch: &Batch, answer: &mut Answer) -> Result<(), OutOfMemory> {
    let text = print_batch(answer.alloc(), batch)?;
    answer.push(b"learned ")?;
    answer.push(batch.domain.as_bytes())?;
    answer.push(b" ")?;
    answer.push(batch.workflow.as_bytes())?;
    answer.push(b" ")?;
    answer.push(text.as_slice())?;
    answer.end()
}

/// The batch of this key, where the node has learned it.
pub(crate) fn tell_batch(
    node: &Node,
    domain: &Name,
    workflow: &Name,
    key: BatchKey,
    answer: &mut Answer,
) -> Result<(), OutOfMemory> {
    let runs = match node.cell_of(domain, workflow) {
        Some(cell) => cell.runs(domain, workflow),
        None => None,
    };
    let batch = match runs {
        Some(runs) => runs.get(key),
        None => None,
    };
    match batch {
        Some(batch) => tell_learned(batch, answer),
        None => Ok(()),
    }
}

/// The batches that a call wrote, in order.
pub(crate) fn tell_written(
    node: &Node,
    domain: &Name,
    workflow: &Name,
    written: Written,
    answer: &mut Answer,
) -> Result<(), OutOfMemory> {
    tell_batch(node, domain, workflow, written.key, answer)?;
    match written.second {
        Some(second) => tell_batch(node, domain, workflow, second, answer),
        None => Ok(()),
    }
}
