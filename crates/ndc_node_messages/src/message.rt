ghost use Rattle.std.specs.Prelude.{◌≡◌, ◌++◌, Ok, IfOk, OnOk, option_copied, map};
ghost use Rattle.ndc_event.specs.Outcome.{Gives};
ghost use Rattle.ndc_model_cells.specs.declared.message.Message.{Message as Sent};
ghost use Rattle.ndc_node_messages.specs.Text.{second_text, message_text, history_shape, history_value, MessageFits};
ghost use Rattle.ndc_node_messages.specs.Read.{batch_at, second_at, ended, with_history, message_at};
ghost use Rattle.ndc_node_messages.specs.declared.error.MessageError.TheVariants.{Memory};
ghost use Rattle.ndc_history.specs.History.{rises, rise_from};
ghost use Rattle.ndc_text.specs.Text.{batch_text};

use crate::error::MessageError;
use ndc_event::{Batch, OutOfMemory, Rare};
use ndc_history::{Item, VersionHistory};
use ndc_model_cells::Message;
use ndc_node_shapes::framed::{push_list, take_list};
use ndc_node_shapes::piece::{
    after, push_end, push_first, push_next, take_end, take_first, take_next,
};
use ndc_node_shapes::{Cause, take_object};
use ndc_text::{TextError, print_batch, read_batch};
use std::alloc::Global;

/// Appends the text of a batch.
fn push_batch(text: &mut Vec<u8>, batch: &Batch) -> Result<(), OutOfMemory>
    ensures { OnOk result (text.new.items ≡ text.old.items ++ batch_text batch.now) }
{
    text.extend_from_slice(print_batch(*text.allocator(), batch)?.as_slice())
}

/// Appends the text of a batch, or `null`.
fn push_second(text: &mut Vec<u8>, second: Option<&Batch>) -> Result<(), OutOfMemory>
    ensures { OnOk result (text.new.items
        ≡ text.old.items ++ second_text (option_copied second.entry)) }
{
    match second {
        Some(batch) => push_batch(text, batch),
        None => text.extend_from_slice(b"null"),
    }
}

/// The text of a message: one JSON object without spaces and without a line end, with the keys `batch`, `history` and
/// `second`, in this order. `second` is the batch that it carries, or `null`.
pub fn message_text(alloc: Global, message: &Message) -> Result<Vec<u8>, OutOfMemory>
    ensures { IfOk result (λ text. text.items ≡ message_text message.now) }
{
    let mut text = Vec::new(alloc);
    push_first(&mut text, "batch")?;
    push_batch(&mut text, &message.batch)?;
    push_next(&mut text, "history")?;
    push_list(&mut text, message.history.items())?;
    push_next(&mut text, "second")?;
    push_second(&mut text, message.second.as_ref())?;
    push_end(&mut text)?;
    Ok(text)
}

/// Takes the text of a batch.
fn take_batch(alloc: Global, left: &[u8]) -> Result<(Batch, &[u8]), MessageError>
    ensures { Gives Memory (λ taken. (taken.0, taken.1.now)) result (batch_at left.now) }
{
    let (bytes, rest) = take_object(left)?;
    match read_batch(alloc, bytes) {
        Ok(batch) => Ok((batch, rest)),
        Err(TextError::Memory) => Err(MessageError::Memory),
        Err(error) => Err(MessageError::Batch {
            error,
            left: left.len(),
        }),
    }
}

/// Takes the text of a batch, or `null`.
fn take_second(alloc: Global, left: &[u8]) -> Result<(Option<Batch>, &[u8]), MessageError>
    ensures { Gives Memory (λ taken. (taken.0, taken.1.now)) result (second_at left.now) }
{
    match after(left, b"null") {
        Some(rest) => Ok((None, rest)),
        None => {
            let (batch, rest) = take_batch(alloc, left)?;
            Ok((Some(batch), rest))
        }
    }
}

/// Tests that nothing is left.
fn ended(left: &[u8]) -> Result<(), MessageError>
    ensures { Gives Memory (λ _. tt) result (ended left.now) }
{
    if left.is_empty() {
        Ok(())
    } else {
        Err(MessageError::Form {
            cause: Cause::Unexpected,
            left: left.len(),
        })
    }
}

/// Whether ids and versions rise from an item on.
fn rise_from(last: Item, items: &[Item]) -> bool
    ensures { result ≡ rise_from last items.now }
{
    let mut last = last;
    for item in items {
        if item.id <= last.id || item.version <= last.version {
            return false;
        }
        last = *item;
    }
    true
}

/// Whether ids and versions rise.
fn rises(items: &[Item]) -> bool
    ensures { result ≡ rises items.now }
{
    match items {
        [] => true,
        [first, later @ ..] => rise_from(*first, later),
    }
}

/// A message of these parts, where its history rises.
fn with_history(
    alloc: Global,
    batch: Batch,
    items: Vec<Item>,
    second: Option<Batch>,
) -> Result<Message, MessageError>
    ensures { Gives Memory (λ message. message) result
        (with_history batch items.items second (rises items.items)) }
{
    if !rises(items.as_slice()) {
        return Err(MessageError::History);
    }
    let history = VersionHistory::of(alloc, items)?;
    let second = Rare::of(alloc, second)?;
    Ok(Message {
        batch,
        history,
        second,
    })
}

/// The message that a text is.
#[tactic(auto, unfolding(crate::specs::Read::message_at), using(crate::proofs::Items::items_back))]
fn take_message(alloc: Global, bytes: &[u8]) -> Result<Message, MessageError>
    ensures { Gives Memory (λ message. message) result (message_at bytes.now) }
{
    let left = take_first(bytes, "batch")?;
    let (batch, left) = take_batch(alloc, left)?;
    let left = take_next(left, "history")?;
    let (items, left) = take_list::<Item>(alloc, left)?;
    let left = take_next(left, "second")?;
    let (second, left) = take_second(alloc, left)?;
    let left = take_end(left)?;
    ended(left)?;
    with_history(alloc, batch, items, second)
}

/// Reads the text of a message. It answers the message exactly where its batches are whole, its history rises in its
/// ranges, and the bytes are what [`message_text`] writes of it.
///
/// The refusals, the first on the way through the text: another piece of the form is wanted, or a number of the history is
/// none or out of its range ([`MessageError::Form`]); a batch is not read by [`ndc_text::read_batch`]
/// ([`MessageError::Batch`], with its cause); and after all of the text the history does not rise
/// ([`MessageError::History`]).
#[tactic(auto, using(crate::proofs::MessageLaws::message_only, crate::proofs::MessageLaws::message_again))]
pub fn read_message(alloc: Global, bytes: &[u8]) -> Result<Message, MessageError>
    ensures gives { Gives Memory (λ message. message) result (message_at bytes.now) }
    ensures found { IfOk result (λ message.
        MessageFits message × (bytes.now ≡ message_text message)) }
    ensures only { (message : Sent) → MessageFits message → bytes.now ≡ message_text message
        → Gives Memory (λ message. message) result (Ok message) }
{
    take_message(alloc, bytes)
}
