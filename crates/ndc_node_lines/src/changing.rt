use crate::answer::Answer;
use crate::learning::tell_written;
use crate::reading::read;
use crate::told::{Given, tell_call, tell_error};
use ndc_event::{Name, OutOfMemory};
use ndc_model_cells::Written;
use ndc_node::{CallError, Node};
use ndc_script_types::{Act, Header};
use ndc_shard::TryError;

/// Does what a line of a script asks for, and answers it.
pub(crate) fn change(
    node: &mut Node,
    header: &Header,
    act: Act,
    answer: &mut Answer,
) -> Result<(), OutOfMemory> {
    match act {
        Act::Command {
            domain,
            workflow,
            command,
            ..
        } => {
            let written = node.command(&domain, &workflow, &command);
            tell_writing(node, &domain, &workflow, written, answer)
        }
        Act::Reset {
            domain,
            workflow,
            event,
            ..
        } => {
            let written = node.reset(&domain, &workflow, event);
            tell_writing(node, &domain, &workflow, written, answer)
        }
        Act::Beat {
            domain,
            workflow,
            id,
            details,
            ..
        } => tell_call(answer, node.beat(&domain, &workflow, &id, &details)),
        other => change_domain(node, header, other, answer),
    }
}

/// What came of a call that writes to a workflow: the batches that it wrote, for an index, and the answer.
fn tell_writing(
    node: &Node,
    domain: &Name,
    workflow: &Name,
    written: Result<Written, CallError<TryError>>,
    answer: &mut Answer,
) -> Result<(), OutOfMemory> {
    match written {
        Ok(written) => {
            tell_written(node, domain, workflow, written, answer)?;
            answer.note(true);
            written.tell(answer)
        }
        Err(error) => tell_error(answer, error),
    }
}

/// Does what a line asks for that changes the record of a domain, and answers it. Any other one reads.
fn change_domain(
    node: &mut Node,
    header: &Header,
    act: Act,
    answer: &mut Answer,
) -> Result<(), OutOfMemory> {
    match act {
        Act::Register {
            domain,
            target,
            days,
            members,
            ..
        } => tell_call(answer, node.register(&domain, target, days, members)),
        Act::Retain { domain, days, .. } => tell_call(answer, node.retain(&domain, days)),
        Act::Join { domain, member, .. } => tell_call(answer, node.join(&domain, member)),
        Act::Failover { domain, target, .. } => tell_call(answer, node.failover(&domain, target)),
        Act::Handover { domain, target, .. } => tell_call(answer, node.handover(&domain, target)),
        Act::Complete { domain, .. } => tell_call(answer, node.complete(&domain)),
        other => read(node, header, &other, answer),
    }
}
