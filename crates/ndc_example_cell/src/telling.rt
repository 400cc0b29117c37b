//! What is told, piece by piece.
use ndc_command::Refusal;
use ndc_event::{BatchKey, Name, OutOfMemory};
use ndc_shard::{Arrived, Shard, Written};
use ndc_state::Steps;
use ndc_text::dump_text;
use ndc_text::line::{push_key, push_number};
use std::alloc::Global;

/// Marks the counters of steps of what is shown.
struct Looking;

/// Appends a word and a key, and ends the line.
fn end_with_key(text: &mut Vec<u8>, word: &[u8], key: BatchKey) -> Result<(), OutOfMemory> {
    text.extend_from_slice(word)?;
    push_key(text, key)?;
    text.extend_from_slice(b"\n")
}

/// Why a command was refused, where that is for what the cell knows of the workflow's writer.
fn reason_of(refusal: Refusal) -> &'static [u8] {
    match refusal {
        Refusal::UnknownDomain => b"no record of the domain",
        Refusal::NotActive { .. } => b"another cluster writes",
        Refusal::Behind { .. } => b"another cluster wrote later",
        _ => b"not as the workflow stands",
    }
}

/// Tells what a cell wrote, or why it did not.
pub(crate) fn tell_written(
    text: &mut Vec<u8>,
    who: &[u8],
    written: &Result<Written, Refusal>,
) -> Result<(), OutOfMemory> {
    text.extend_from_slice(who)?;
    match written {
        Ok(written) => {
            text.extend_from_slice(b" writes ")?;
            push_key(text, written.key)?;
            match written.second {
                Some(second) => end_with_key(text, b" and ", second),
                None => text.extend_from_slice(b"\n"),
            }
        }
        Err(refusal) => {
            text.extend_from_slice(b" refuses: ")?;
            text.extend_from_slice(reason_of(*refusal))?;
            text.extend_from_slice(b"\n")
        }
    }
}

/// Tells with which version a cell may write, or why it may not.
pub(crate) fn tell_may(
    text: &mut Vec<u8>,
    who: &[u8],
    version: Result<u64, Refusal>,
) -> Result<(), OutOfMemory> {
    text.extend_from_slice(who)?;
    match version {
        Ok(version) => {
            text.extend_from_slice(b" may write with version ")?;
            push_number(text, version)?;
        }
        Err(refusal) => {
            text.extend_from_slice(b" may not write: ")?;
            text.extend_from_slice(reason_of(refusal))?;
        }
    }
    text.extend_from_slice(b"\n")
}

/// Tells what came of a message.
pub(crate) fn tell_arrived(
    text: &mut Vec<u8>,
    who: &[u8],
    arrived: &Option<Arrived>,
) -> Result<(), OutOfMemory> {
    text.extend_from_slice(who)?;
    match arrived {
        Some(Arrived::Learned { .. }) => text.extend_from_slice(b" learns it\n"),
        Some(Arrived::PutOff { missing }) => {
            end_with_key(text, b" puts it off, lacks ", *missing)
        }
        Some(Arrived::Known) => text.extend_from_slice(b" knows it\n"),
        None => text.extend_from_slice(b" is told nothing\n"),
    }
}

/// Tells a count.
pub(crate) fn tell_count(text: &mut Vec<u8>, what: &[u8], count: usize) -> Result<(), OutOfMemory> {
    text.extend_from_slice(what)?;
    push_number(text, count as u64)?;
    text.extend_from_slice(b"\n")
}

/// The dump of what a cell shows of a workflow; nothing where it has learned nothing of it.
pub(crate) fn shown(
    alloc: Global,
    cell: &Shard,
    domain: &Name,
    workflow: &Name,
) -> Result<Vec<u8>, OutOfMemory> {
    let mut steps: Steps<Looking> = Steps::new();
    match cell.view(domain, workflow, &mut steps)? {
        Some(view) => dump_text(alloc, domain, workflow, &view),
        None => Ok(Vec::new(alloc)),
    }
}

/// Tells whether two cells show the same.
pub(crate) fn tell_alike(text: &mut Vec<u8>, alike: bool) -> Result<(), OutOfMemory> {
    text.extend_from_slice(if alike {
        b"both show the same\n"
    } else {
        b"they show different things\n"
    })
}
