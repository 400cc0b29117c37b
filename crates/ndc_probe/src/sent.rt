//! What is told of queues and of what is in flight.
ghost use Rattle.std.specs.Prelude.{◌≡◌, ◌+◌, ◌<◌, ◌^◌, ◌++◌, OnOk, length};
ghost use Rattle.std.specs.Option.{option_map};
ghost use Rattle.ndc_probe.specs.Sent.{entries_from, entry_line, flight_text, queue_text};

use crate::piece::{Piece, push_pieces};
use ndc_event::{BatchKey, OutOfMemory};
use ndc_model_cells::Message;
use ndc_text::line::push_number;

/// The key of the batch that a message carries, where it carries one.
fn carried_key(sent: &Message) -> Option<BatchKey>
    ensures { result ≡ option_map (λ b. b.key) sent.now.second }
{
    match sent.second.as_ref() {
        Some(second) => Some(second.key),
        None => None,
    }
}

/// Appends the line of an entry.
pub(crate) fn push_entry(text: &mut Vec<u8>, place: u64, sent: &Message) -> Result<(), OutOfMemory>
    ensures { OnOk result (text.new.items ≡ text.old.items ++ entry_line place sent.now) }
{
    push_pieces(
        text,
        &[
            Piece::Number(place),
            Piece::Plain(" "),
            Piece::Bytes(sent.batch.domain.as_bytes()),
            Piece::Plain(" "),
            Piece::Bytes(sent.batch.workflow.as_bytes()),
            Piece::Plain(" "),
            Piece::Key(sent.batch.key),
            Piece::Carried(carried_key(sent)),
            Piece::Plain("\n"),
        ],
    )
}

/// Appends the lines of entries, of which the first stands at this place.
fn push_entries(text: &mut Vec<u8>, first: u64, entries: &[Message]) -> Result<(), OutOfMemory>
    requires { first + length entries.now < 2 ^ 64 }
    ensures { OnOk result (text.new.items ≡ text.old.items ++ entries_from first entries.now) }
{
    let mut place = first;
    for sent in entries {
        push_entry(text, place, sent)?;
        place += 1;
    }
    Ok(())
}

/// Appends what is in flight.
pub(crate) fn push_flight(text: &mut Vec<u8>, flight: &[Message]) -> Result<(), OutOfMemory>
    ensures { OnOk result (text.new.items ≡ text.old.items ++ flight_text flight.now) }
{
    push_number(text, flight.len() as u64)?;
    text.extend_from_slice(b" in flight\n")?;
    push_entries(text, 0, flight)
}

/// Appends what is kept of a queue of which so many entries were trimmed.
pub(crate) fn push_queue(
    text: &mut Vec<u8>,
    first: u64,
    kept: &[Message],
) -> Result<(), OutOfMemory>
    requires { first + length kept.now < 2 ^ 64 }
    ensures { OnOk result (text.new.items ≡ text.old.items ++ queue_text first kept.now) }
{
    push_number(text, kept.len() as u64)?;
    text.extend_from_slice(b" kept, ")?;
    push_number(text, first)?;
    text.extend_from_slice(b" trimmed\n")?;
    push_entries(text, first, kept)
}
