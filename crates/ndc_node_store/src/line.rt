use crate::ends::{NodeLine, WholeLine};
use crate::peers::{LaneLine, PeerLine};
use crate::places::{BatchPlace, LetterLine, OpenHandover, UsedVersion};
use crate::shards::ShardLine;
use ndc_event::OutOfMemory;
use ndc_model_cells::Message;
use ndc_node_frames::{Offer, ToldRecord, ToldReport};
use ndc_node_messages::{MessageError, message_text, read_message};
use ndc_node_shapes::framed::push_one;
use ndc_node_shapes::{Cause, Fault, Framed};
use std::alloc::{AllocError, AllocFailed, Global};
use thiserror::Error;

/// A line of a store.
#[derive(Drop)]
pub enum Line {
    /// Which node the store is of: the first line.
    Node(NodeLine),
    /// The record of a domain.
    Record(ToldRecord),
    /// With which version of its own the node may have written to a domain before it lost something.
    Used(UsedVersion),
    /// A handover that the node has begun.
    Handover(OpenHandover),
    /// A handover that was told to the node.
    Offer(Offer),
    /// What is held of the progress of an activity.
    Report(ToldReport),
    /// The queue of a shard: the lines up to the next one are of it.
    Shard(ShardLine),
    /// The message of a batch that is learned.
    Learned(Message),
    /// A message that is put off.
    Waits(Message),
    /// An entry that is kept of the queue: where its batch stands.
    Queued(BatchPlace),
    /// Another node: the lines up to the next one are of it.
    Peer(PeerLine),
    /// What was read of a shard of the other node.
    Lane(LaneLine),
    /// A message that was set aside.
    Letter(LetterLine),
    /// The text is whole: the last line.
    Whole(WholeLine),
}

/// Why a text is no line of a store.
#[derive(Clone, Copy, Debug, PartialEq, Eq, Error)]
pub enum LineFault {
    /// It begins with none of the words of lines and a space.
    #[error("it begins with no word of a store's lines")]
    Word,
    /// What comes after its word is not what would be printed: what is wrong, and how many bytes there are from there on.
    #[error("{cause}, {left} bytes before the end")]
    Text { cause: Cause, left: usize },
    /// What comes after its word is the text of no message.
    #[error("{0}")]
    Message(MessageError),
    #[error("out of memory")]
    Memory,
}

impl From<AllocError> for LineFault {
    fn from(_error: AllocError) -> LineFault {
        LineFault::Memory
    }
}

impl<T: Drop> From<AllocFailed<T>> for LineFault {
    fn from(_failed: AllocFailed<T>) -> LineFault {
        LineFault::Memory
    }
}

impl From<Fault> for LineFault {
    fn from(fault: Fault) -> LineFault {
        match fault {
            Fault::At { cause, left } => LineFault::Text { cause, left },
            Fault::Memory => LineFault::Memory,
        }
    }
}

impl From<MessageError> for LineFault {
    fn from(error: MessageError) -> LineFault {
        match error {
            MessageError::Memory => LineFault::Memory,
            other => LineFault::Message(other),
        }
    }
}

/// Appends a line: its word, and the text of what it says.
fn push_line<T: Framed>(text: &mut Vec<u8>, word: &str, one: &T) -> Result<(), OutOfMemory> {
    text.extend_from_slice(word.as_bytes())?;
    text.push(b' ')?;
    push_one(text, one)?;
    text.push(b'\n')?;
    Ok(())
}

/// Appends a line with a message.
fn push_message(text: &mut Vec<u8>, word: &str, message: &Message) -> Result<(), OutOfMemory> {
    let bytes = message_text(*text.allocator(), message)?;
    text.extend_from_slice(word.as_bytes())?;
    text.push(b' ')?;
    text.extend_from_slice(bytes.as_slice())?;
    text.push(b'\n')?;
    Ok(())
}

/// Takes what a line says, up to its end.
fn take_all<T: Framed>(alloc: Global, left: &[u8]) -> Result<T, LineFault> {
    let (one, rest) = T::take(alloc, left)?;
    if rest.is_empty() {
        Ok(one)
    } else {
        Err(LineFault::Text {
            cause: Cause::Unexpected,
            left: rest.len(),
        })
    }
}

/// The word that a line begins with, and what comes after the space after it.
fn split_word(line: &[u8]) -> Option<(&[u8], &[u8])> {
    let place = line.iter().position(|byte| *byte == b' ')?;
    let (word, after) = line.split_at(place);
    match after {
        [_, rest @ ..] => Some((word, rest)),
        [] => None,
    }
}

impl Line {
    /// Appends the line to a text, with its end.
    pub fn push_to(&self, text: &mut Vec<u8>) -> Result<(), OutOfMemory> {
        match self {
            Line::Node(line) => push_line(text, "node", line),
            Line::Record(record) => push_line(text, "record", record),
            Line::Used(used) => push_line(text, "used", used),
            Line::Handover(handover) => push_line(text, "handover", handover),
            Line::Offer(offer) => push_line(text, "offer", offer),
            Line::Report(report) => push_line(text, "report", report),
            Line::Shard(line) => push_line(text, "shard", line),
            Line::Learned(message) => push_message(text, "learned", message),
            Line::Waits(message) => push_message(text, "waits", message),
            Line::Queued(place) => push_line(text, "queued", place),
            Line::Peer(line) => push_line(text, "peer", line),
            Line::Lane(line) => push_line(text, "lane", line),
            Line::Letter(letter) => push_line(text, "letter", letter),
            Line::Whole(line) => push_line(text, "whole", line),
        }
    }

    /// Reads a line, which has no end. It is read exactly where it is what [`Line::push_to`] appends of it.
    pub fn read(alloc: Global, line: &[u8]) -> Result<Line, LineFault> {
        let Some((word, rest)) = split_word(line) else {
            return Err(LineFault::Word);
        };
        if word == b"learned".as_slice() {
            return Ok(Line::Learned(read_message(alloc, rest)?));
        }
        if word == b"waits".as_slice() {
            return Ok(Line::Waits(read_message(alloc, rest)?));
        }
        if word == b"queued".as_slice() {
            return Ok(Line::Queued(take_all::<BatchPlace>(alloc, rest)?));
        }
        read_other(alloc, word, rest)
    }
}

/// Reads a line that is not of a batch.
fn read_other(alloc: Global, word: &[u8], rest: &[u8]) -> Result<Line, LineFault> {
    if word == b"shard".as_slice() {
        return Ok(Line::Shard(take_all::<ShardLine>(alloc, rest)?));
    }
    if word == b"peer".as_slice() {
        return Ok(Line::Peer(take_all::<PeerLine>(alloc, rest)?));
    }
    if word == b"lane".as_slice() {
        return Ok(Line::Lane(take_all::<LaneLine>(alloc, rest)?));
    }
    if word == b"letter".as_slice() {
        return Ok(Line::Letter(take_all::<LetterLine>(alloc, rest)?));
    }
    if word == b"whole".as_slice() {
        return Ok(Line::Whole(take_all::<WholeLine>(alloc, rest)?));
    }
    read_of_node(alloc, word, rest)
}

/// Reads a line of the node itself.
fn read_of_node(alloc: Global, word: &[u8], rest: &[u8]) -> Result<Line, LineFault> {
    if word == b"node".as_slice() {
        return Ok(Line::Node(take_all::<NodeLine>(alloc, rest)?));
    }
    if word == b"record".as_slice() {
        return Ok(Line::Record(take_all::<ToldRecord>(alloc, rest)?));
    }
    if word == b"used".as_slice() {
        return Ok(Line::Used(take_all::<UsedVersion>(alloc, rest)?));
    }
    if word == b"handover".as_slice() {
        return Ok(Line::Handover(take_all::<OpenHandover>(alloc, rest)?));
    }
    if word == b"offer".as_slice() {
        return Ok(Line::Offer(take_all::<Offer>(alloc, rest)?));
    }
    if word == b"report".as_slice() {
        return Ok(Line::Report(take_all::<ToldReport>(alloc, rest)?));
    }
    Err(LineFault::Word)
}
