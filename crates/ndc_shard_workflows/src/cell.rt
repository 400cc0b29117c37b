ghost use Rattle.std.specs.Prelude.{◌≡◌, IfOk};
ghost use Rattle.ndc_model_cells.specs.Cells.{message_at as message_at_place};
ghost use Rattle.ndc_model_cells.specs.Domains.{learned_of_domains};

use crate::reading::{message_in, messages};
use crate::workflows::Workflows;
use ndc_event::{BatchKey, Name, OutOfMemory};
use ndc_model_cells::Message;
use std::alloc::Global;

/// The message of what is learned at a place of the cell; none where nothing is, or where the batch is carried by another
/// one. In one pass over what is put off of the place's workflow, with two look-ups for each version on the path to the batch.
pub fn message_there(
    alloc: Global,
    workflows: &Workflows,
    domain: &Name,
    workflow: &Name,
    key: BatchKey,
) -> Result<Option<Message>, OutOfMemory>
    ensures { IfOk result (λ message.
        message ≡ message_at_place workflows.now
        (record { domain = domain.now; workflow = workflow.now; key = key })) }
{
    match workflows.find(domain, workflow) {
        None => Ok(None),
        Some(found) => message_in(alloc, found, key),
    }
}

/// The messages of what the cell has learned of these domains, in order of place: workflow by workflow those of
/// [`messages`].
pub fn messages_of(
    alloc: Global,
    workflows: &Workflows,
    domains: &[Name],
) -> Result<Vec<Message>, OutOfMemory>
    ensures { IfOk result (λ list. list.items ≡ learned_of_domains domains.now workflows.now) }
{
    let found = workflows.of_domains(alloc, domains)?;
    let mut list = Vec::new(alloc);
    for workflow in found.as_slice() {
        let mut more = messages(alloc, workflow)?;
        list.append(&mut more)?;
    }
    Ok(list)
}
