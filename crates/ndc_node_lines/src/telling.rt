use crate::answer::Answer;
use crate::learning::{tell_batch, tell_learned};
use crate::reply::Code;
use crate::told::tell_error;
use crate::words::split_word;
use ndc_domain::ClusterNo;
use ndc_event::{BatchKey, Items, Name, OutOfMemory};
use ndc_node::{FrameError, Heard, Node};
use ndc_script_types::Header;
use ndc_script_words::number_of;
use std::alloc::AllocError;

/// Answers a line for the node itself: whether it is one.
pub(crate) fn tell_node(
    node: &mut Node,
    header: &Header,
    word: &[u8],
    rest: &[u8],
    answer: &mut Answer,
) -> Result<bool, OutOfMemory> {
    if word == b"hear".as_slice() {
        hear(node, rest, answer)?;
    } else if word == b"ask".as_slice() {
        ask(node, header, rest, answer)?;
    } else if word == b"trim".as_slice() {
        let dropped = node.trim();
        answer.note(dropped > 0);
        answer.count(dropped)?;
    } else if word == b"reapply".as_slice() {
        reapply(node, answer)?;
    } else {
        return tell_aside(node, header, word, rest, answer);
    }
    Ok(true)
}

/// Answers a line on letters, or on how far the node has come: whether it is one.
fn tell_aside(
    node: &mut Node,
    header: &Header,
    word: &[u8],
    rest: &[u8],
    answer: &mut Answer,
) -> Result<bool, OutOfMemory> {
    if word == b"rewind".as_slice() {
        rewind(node, header, rest, answer)?;
    } else if word == b"forget".as_slice() {
        forget(node, rest, answer)?;
    } else if word == b"letters".as_slice() {
        letters(node, answer)?;
    } else if word == b"retry".as_slice() {
        retry(node, answer)?;
    } else if word == b"drop".as_slice() {
        drop_letter(node, rest, answer)?;
    } else if word == b"force".as_slice() {
        node.force();
        answer.note(true);
        answer.done()?;
    } else if word == b"loaded".as_slice() {
        node.loaded();
        answer.note(true);
        answer.done()?;
    } else if word == b"status".as_slice() {
        status(node, answer)?;
    } else {
        return Ok(false);
    }
    Ok(true)
}

/// `retry`: all letters are taken up again.
fn retry(node: &mut Node, answer: &mut Answer) -> Result<(), OutOfMemory> {
    match node.retry() {
        Ok(heard) => tell_heard(&heard, answer),
        Err(error) => tell_error(answer, error),
    }
}

/// `hear FRAME`: what became learned, frames to be sent, and what came of it in numbers.
fn hear(node: &mut Node, frame: &[u8], answer: &mut Answer) -> Result<(), OutOfMemory> {
    match node.hear(frame) {
        Ok(heard) => tell_heard(&heard, answer),
        Err(error) => tell_unheard(error, answer),
    }
}

/// Answers a frame that is not heard.
fn tell_unheard(error: FrameError, answer: &mut Answer) -> Result<(), OutOfMemory> {
    match error {
        FrameError::Spent => answer.refuse(Code::Spent, b"Spent"),
        FrameError::TooLong => answer.refuse(Code::Refused, b"TooLong"),
        FrameError::Text { .. } => answer.refuse(Code::Unreadable, b"NoFrame"),
        FrameError::OtherNode => answer.refuse(Code::Refused, b"OtherNode"),
        FrameError::UnknownSender => answer.refuse(Code::Refused, b"UnknownSender"),
        FrameError::OtherHeader => answer.refuse(Code::Refused, b"OtherHeader"),
        FrameError::Shards => answer.refuse(Code::Refused, b"Shards"),
        FrameError::Handover => answer.refuse(Code::Refused, b"Handover"),
        FrameError::Record(_) => answer.refuse(Code::Refused, b"Record"),
        FrameError::Memory => Err(AllocError),
    }
}

/// What was heard: each batch that became learned, each frame that is to be sent, and the numbers.
fn tell_heard(heard: &Heard, answer: &mut Answer) -> Result<(), OutOfMemory> {
    answer.note(heard.changed);
    for batch in heard.learned.as_slice() {
        tell_learned(batch, answer)?;
    }
    tell_frames(heard.answers.as_slice(), answer)?;
    answer.begin(b"ok")?;
    answer.push_number(heard.learned.len() as u64)?;
    answer.push_number(heard.put_off)?;
    answer.push_number(heard.letters)?;
    if heard.is_full {
        answer.push(b" full")?;
    }
    answer.end()
}

/// Frames, each with its text.
fn tell_frames(frames: &[Items<u8>], answer: &mut Answer) -> Result<(), OutOfMemory> {
    for frame in frames {
        answer.push(b"frame ")?;
        answer.push(frame.as_slice())?;
        answer.end()?;
    }
    Ok(())
}

/// `ask NAME`: what the node would say to another one.
fn ask(node: &Node, header: &Header, name: &[u8], answer: &mut Answer) -> Result<(), OutOfMemory> {
    let Some(to) = header.clusters.find(name) else {
        return answer.refuse(Code::Refused, b"UnknownName");
    };
    let frames = node.ask(to)?;
    tell_frames(frames.as_slice(), answer)?;
    answer.count(frames.len() as u64)
}

/// `rewind NAME`: all that a source has told and that is not done is asked for again.
fn rewind(
    node: &mut Node,
    header: &Header,
    name: &[u8],
    answer: &mut Answer,
) -> Result<(), OutOfMemory> {
    let Some(source) = header.clusters.find(name) else {
        return answer.refuse(Code::Refused, b"UnknownName");
    };
    node.rewind(source);
    answer.note(true);
    answer.done()
}

/// `reapply`: the batches that were written, for an index, and how many.
fn reapply(node: &mut Node, answer: &mut Answer) -> Result<(), OutOfMemory> {
    let written = match node.reapply() {
        Ok(written) => written,
        Err(error) => return tell_error(answer, error),
    };
    answer.note(!written.is_empty());
    for (domain, workflow, key) in written.as_slice() {
        tell_batch(node, domain, workflow, *key, answer)?;
    }
    answer.count(written.len() as u64)
}

/// `forget DOMAIN WORKFLOW VERSION.TASK`: drops the message of a batch that is put off.
fn forget(node: &mut Node, rest: &[u8], answer: &mut Answer) -> Result<(), OutOfMemory> {
    let (domain, after) = split_word(rest);
    let (workflow, key) = split_word(after);
    let alloc = answer.alloc();
    let (Ok(domain), Ok(workflow), Some(key)) = (
        Name::new(alloc, domain),
        Name::new(alloc, workflow),
        key_of(key),
    ) else {
        return answer.refuse(Code::Unreadable, b"NoLine");
    };
    match node.forget(&domain, &workflow, key) {
        Ok(true) => {
            answer.note(true);
            answer.done()
        }
        Ok(false) => answer.refuse(Code::Refused, b"NotPutOff"),
        Err(error) => tell_error(answer, error),
    }
}

/// The key that `VERSION.TASK` is.
fn key_of(text: &[u8]) -> Option<BatchKey> {
    let place = text.iter().position(|byte| *byte == b'.')?;
    let (version, task) = text.split_at(place);
    match task {
        [_, task @ ..] => Some(BatchKey {
            version: number_of(version)?,
            task: number_of(task)?,
        }),
        [] => None,
    }
}

/// `letters`: how many there are, and a line for each.
fn letters(node: &Node, answer: &mut Answer) -> Result<(), OutOfMemory> {
    answer.count(node.letters().len() as u64)?;
    for letter in node.letters() {
        answer.push(b"letter from")?;
        answer.push_number(u64::from(letter.source.number))?;
        answer.push(b" ")?;
        answer.push(letter.cause.as_slice())?;
        answer.end()?;
    }
    Ok(())
}

/// `drop N`: lets go of a letter, counted from 0.
fn drop_letter(node: &mut Node, rest: &[u8], answer: &mut Answer) -> Result<(), OutOfMemory> {
    let Some(number) = number_of(rest) else {
        return answer.refuse(Code::Unreadable, b"NoNumber");
    };
    if node.drop_letter(number as usize) {
        answer.note(true);
        answer.done()
    } else {
        answer.refuse(Code::Refused, b"NoLetter")
    }
}

/// `status`: how far the node has come.
fn status(node: &Node, answer: &mut Answer) -> Result<(), OutOfMemory> {
    answer.begin(b"ok")?;
    answer.push_number(node.letters().len() as u64)?;
    if node.is_behind_its_past() {
        answer.push(b" behind")?;
    }
    if node.is_spent() {
        answer.push(b" spent")?;
    }
    answer.end()?;
    for shard in 0..node.shards() {
        shard_status(node, shard, answer)?;
    }
    Ok(())
}

/// How far a shard has come: its queue, and each source's.
fn shard_status(node: &Node, shard: u32, answer: &mut Answer) -> Result<(), OutOfMemory> {
    if let Some(status) = node.shard_status(shard) {
        answer.push(b"shard")?;
        answer.push_number(u64::from(shard))?;
        answer.push(b" entries")?;
        answer.push_number(status.entries)?;
        answer.push(b" dropped")?;
        answer.push_number(status.dropped)?;
        answer.push(b" put_off")?;
        answer.push_number(status.put_off)?;
        answer.end()?;
    }
    for number in 0..node.clusters().count() {
        source_status(node, ClusterNo { number }, shard, answer)?;
    }
    Ok(())
}

/// How far the node has come with a shard of a source.
fn source_status(
    node: &Node,
    source: ClusterNo,
    shard: u32,
    answer: &mut Answer,
) -> Result<(), OutOfMemory> {
    if source.number == node.me().number {
        return Ok(());
    }
    let Some(status) = node.peer_status(source, shard) else {
        return Ok(());
    };
    answer.push(b"source")?;
    answer.push_number(u64::from(source.number))?;
    answer.push(b" shard")?;
    answer.push_number(u64::from(shard))?;
    answer.push(b" read")?;
    answer.push_number(status.read)?;
    answer.push(b" done")?;
    answer.push_number(status.done)?;
    answer.push(b" held")?;
    answer.push_number(status.held as u64)?;
    answer.push(b" lacks")?;
    answer.push_number(status.lacks as u64)?;
    answer.push(b" owes")?;
    answer.push_number(status.owes as u64)?;
    answer.end()
}
