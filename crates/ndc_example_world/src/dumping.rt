//! A dump that is made of batches alone.
use crate::error::StoryError;
use ndc_dump::{bare_text, dump_text, read_bare_dump};
use ndc_event::Name;
use ndc_shard::Shard;
use std::alloc::Global;

/// The dump that is read of the batches alone which a cell has learned of a workflow.
pub(crate) fn read_again(
    alloc: Global,
    cell: &Shard,
    domain: &Name,
    workflow: &Name,
) -> Result<Vec<u8>, StoryError> {
    let Some(runs) = cell.runs(domain, workflow) else {
        return Ok(Vec::new(alloc));
    };
    let batches = runs.batches(alloc)?;
    let bare = bare_text(alloc, domain, workflow, batches.as_slice())?;
    let dump = read_bare_dump(alloc, bare.as_slice())?;
    let text = dump_text(alloc, &dump.domain, &dump.workflow, &dump.view)?;
    Ok(text)
}
