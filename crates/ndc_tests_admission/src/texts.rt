//! Texts of events and batches, and the messages that they make.
use ndc_event::{Batch, BatchKey, OutOfMemory, Rare, RunId};
use ndc_history::{Item, VersionHistory};
use ndc_model_cells::Message;
use ndc_text::read_batch;
use std::alloc::Global;
use std::test::Fail;

/// The first run of the workflow: cluster A begins it.
pub(crate) const RUN: RunId = RunId {
    value: (1 << 64) + 1,
};

/// A key.
pub(crate) fn key(version: u64, task: u64) -> BatchKey {
    BatchKey { version, task }
}

/// The text of a signal, with the input `x`.
fn signal(alloc: Global, id: u64, version: u64, name: &str) -> Result<String, OutOfMemory> {
    format!(in alloc;
        "{{\"eventId\":{id},\"eventType\":\"WorkflowExecutionSignaled\",\"input\":\"x\",\"signalName\":\"{name}\",\"version\":{version}}}"
    )
}

/// The text of a copy of that signal, with version 2, which names an event of the first run by its id and version.
fn copied(alloc: Global, id: u64, name: &str, named: (u64, u64)) -> Result<String, OutOfMemory> {
    let run = RUN.text(alloc)?;
    let (event, version) = named;
    format!(in alloc;
        "{{\"eventId\":{id},\"eventType\":\"WorkflowExecutionSignaled\",\"input\":\"x\",\"origin\":{{\"event\":{event},\"run\":\"{run}\",\"version\":{version}}},\"signalName\":\"{name}\",\"version\":2}}"
    )
}

/// The text of an event of a type without attributes.
pub(crate) fn plain(
    alloc: Global,
    id: u64,
    version: u64,
    event_type: &str,
) -> Result<String, OutOfMemory> {
    format!(in alloc; "{{\"eventId\":{id},\"eventType\":\"{event_type}\",\"version\":{version}}}")
}

/// The texts of events of version 2 that start a decision, complete it, and go on as the run that begins with a batch of
/// version 2 and this task.
fn going_on(alloc: Global, id: u64, task: u64) -> Result<String, OutOfMemory> {
    let started = plain(alloc, id, 2, "DecisionTaskStarted")?;
    let completed = plain(alloc, id.saturating_add(1), 2, "DecisionTaskCompleted")?;
    let last = id.saturating_add(2);
    let run = RunId::of(key(2, task)).text(alloc)?;
    format!(in alloc;
        "{started},{completed},{{\"eventId\":{last},\"eventType\":\"WorkflowExecutionContinuedAsNew\",\"newExecutionRunId\":\"{run}\",\"version\":2,\"workflowType\":\"order\"}}"
    )
}

/// The text of a batch of a run, with a parent, which has these events.
pub(crate) fn batch_of(
    alloc: Global,
    run: RunId,
    key: BatchKey,
    parent: BatchKey,
    events: &str,
) -> Result<String, OutOfMemory> {
    let run = run.text(alloc)?;
    let BatchKey { version, task } = key;
    let (above, before) = (parent.version, parent.task);
    format!(in alloc;
        "{{\"domain\":\"alpha\",\"events\":[{events}],\"parent\":{{\"task\":{before},\"version\":{above}}},\"run\":\"{run}\",\"task\":{task},\"version\":{version},\"workflow\":\"w1\"}}"
    )
}

/// The text of a batch that the batch just before it carries, with version 2: the start, its decision, and more events.
fn begun(alloc: Global, carried: Carried) -> Result<String, OutOfMemory> {
    let Carried {
        workflow,
        task,
        more,
    } = carried;
    let run = RunId::of(key(2, task)).text(alloc)?;
    let before = task.saturating_sub(1);
    let scheduled = plain(alloc, 2, 2, "DecisionTaskScheduled")?;
    format!(in alloc;
        "{{\"carrier\":{{\"task\":{before},\"version\":2}},\"domain\":\"alpha\",\"events\":[{{\"eventId\":1,\"eventType\":\"WorkflowExecutionStarted\",\"version\":2,\"workflowType\":\"order\"}},{scheduled}{more}],\"parent\":null,\"run\":\"{run}\",\"task\":{task},\"version\":2,\"workflow\":\"{workflow}\"}}"
    )
}

/// The version history of these items, each an id and a version.
fn history(alloc: Global, items: &[(u64, u64)]) -> Result<VersionHistory, Fail> {
    let mut history = VersionHistory::new(alloc);
    for (id, version) in items {
        history.add(Item {
            id: *id,
            version: *version,
        })?;
    }
    Ok(history)
}

/// The batch of a text.
fn read(alloc: Global, text: &str) -> Result<Batch, Fail> {
    Ok(read_batch(alloc, text.as_bytes())?)
}

/// The message of the batch of a text, with a version history of these items, each an id and a version.
pub(crate) fn message(alloc: Global, text: &str, items: &[(u64, u64)]) -> Result<Message, Fail> {
    Ok(Message {
        batch: read(alloc, text)?,
        history: history(alloc, items)?,
        second: Rare::none(),
    })
}

/// A message of the first run with these events, after a parent.
pub(crate) fn going(
    alloc: Global,
    key: BatchKey,
    parent: BatchKey,
    events: &str,
    items: &[(u64, u64)],
) -> Result<Message, Fail> {
    let text = batch_of(alloc, RUN, key, parent, events)?;
    message(alloc, text.as_str(), items)
}

/// One with one signal.
pub(crate) fn signaled(
    alloc: Global,
    key: BatchKey,
    parent: BatchKey,
    id: u64,
    name: &str,
    items: &[(u64, u64)],
) -> Result<Message, Fail> {
    let event = signal(alloc, id, key.version, name)?;
    going(alloc, key, parent, event.as_str(), items)
}

/// One with these events, of version 2, after the batch of that version just before. The last event has this id.
fn next(alloc: Global, task: u64, last: u64, events: &str) -> Result<Message, Fail> {
    let parent = key(2, task.saturating_sub(1));
    going(alloc, key(2, task), parent, events, &[(3, 1), (last, 2)])
}

/// One with one signal, there.
pub(crate) fn next_signal(alloc: Global, task: u64, id: u64, name: &str) -> Result<Message, Fail> {
    let event = signal(alloc, id, 2, name)?;
    next(alloc, task, id, event.as_str())
}

/// One with a copied signal, there, which names an event of the first run by its id and version.
pub(crate) fn next_copy(
    alloc: Global,
    task: u64,
    id: u64,
    name: &str,
    named: (u64, u64),
) -> Result<Message, Fail> {
    let event = copied(alloc, id, name, named)?;
    next(alloc, task, id, event.as_str())
}

/// The batch that another one carries, as it is to be told: its workflow, its task, and the texts of more events, each after
/// a comma.
#[derive(Clone, Copy)]
pub(crate) struct Carried<'a> {
    pub workflow: &'a str,
    pub task: u64,
    pub more: &'a str,
}

impl<'a> Carried<'a> {
    /// The first batch of a run of the workflow `w1`, with two events.
    pub(crate) fn begins(task: u64) -> Carried<'a> {
        Carried {
            workflow: "w1",
            task,
            more: "",
        }
    }
}

/// The message of a batch of version 2 of the first run, after a parent, with a decision that goes on as the run that begins
/// with version 2 and the task `next`. The decision starts with this id. There may be a second.
pub(crate) fn carrier(
    alloc: Global,
    task: u64,
    parent: BatchKey,
    id: u64,
    next: u64,
    carried: Option<Carried>,
) -> Result<Message, Fail> {
    let events = going_on(alloc, id, next)?;
    let last = id.saturating_add(2);
    let above = id.saturating_sub(1);
    let items = match parent.version {
        1 => [(above, 1), (last, 2)],
        _ => [(3, 1), (last, 2)],
    };
    let told = going(
        alloc,
        key(2, task),
        parent,
        events.as_str(),
        items.as_slice(),
    )?;
    match carried {
        None => Ok(told),
        Some(carried) => with_second(alloc, told, carried),
    }
}

/// The same message, which brings a second batch.
pub(crate) fn with_second(alloc: Global, told: Message, carried: Carried) -> Result<Message, Fail> {
    let Message { batch, history, .. } = told;
    let text = begun(alloc, carried)?;
    let second = read(alloc, text.as_str())?;
    Ok(Message {
        batch,
        history,
        second: Rare::of(alloc, Some(second))?,
    })
}
