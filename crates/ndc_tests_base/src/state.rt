ghost use Rattle.std.specs.Prelude.{◌≤◌, ◌^◌, All};

use crate::given::{Test, batch};
use ndc_event::{Batch, Event, OutOfMemory};
use ndc_state::{State, StateError, Steps};
use std::alloc::Global;
use std::test::Fail;

// A run with a signal, three activities, a timer and a child.
const FIRST: &str =
    "{\"domain\":\"alpha\",\"events\":[{\"eventId\":1,\"eventType\":\"WorkflowExecutionStarted\",\"version\":1,\"workflowType\":\"order\"},{\"eventId\":2,\"eventType\":\"WorkflowExecutionSignaled\",\"input\":\"i\",\"signalName\":\"s\",\"version\":1},{\"activityId\":\"a\",\"activityType\":\"t\",\"eventId\":3,\"eventType\":\"ActivityTaskScheduled\",\"version\":1},{\"activityId\":\"b\",\"activityType\":\"t\",\"eventId\":4,\"eventType\":\"ActivityTaskScheduled\",\"version\":1},{\"activityId\":\"c\",\"activityType\":\"t\",\"eventId\":5,\"eventType\":\"ActivityTaskScheduled\",\"version\":1},{\"activityId\":\"b\",\"eventId\":6,\"eventType\":\"ActivityTaskStarted\",\"version\":1},{\"eventId\":7,\"eventType\":\"TimerStarted\",\"timerId\":\"t\",\"version\":1},{\"eventId\":8,\"eventType\":\"StartChildWorkflowExecutionInitiated\",\"version\":1,\"workflowId\":\"u\",\"workflowType\":\"t\"},{\"eventId\":9,\"eventType\":\"ChildWorkflowExecutionStarted\",\"version\":1,\"workflowId\":\"u\"}],\"parent\":null,\"run\":\"00000000-0000-0001-0000-000000000001\",\"task\":1,\"version\":1,\"workflow\":\"w1\"}";

// What comes after it: a copied signal, and the end of most of what is pending.
const SECOND: &str =
    "{\"domain\":\"alpha\",\"events\":[{\"eventId\":10,\"eventType\":\"WorkflowExecutionSignaled\",\"input\":\"i\",\"origin\":{\"event\":50,\"run\":\"00000000-0000-0001-0000-000000000001\",\"version\":1},\"signalName\":\"s\",\"version\":1},{\"eventId\":11,\"eventType\":\"WorkflowExecutionCancelRequested\",\"version\":1},{\"activityId\":\"a\",\"eventId\":12,\"eventType\":\"ActivityTaskStarted\",\"version\":1},{\"activityId\":\"b\",\"eventId\":13,\"eventType\":\"ActivityTaskCompleted\",\"result\":\"r\",\"version\":1},{\"eventId\":14,\"eventType\":\"TimerFired\",\"timerId\":\"t\",\"version\":1},{\"eventId\":15,\"eventType\":\"ChildWorkflowExecutionCompleted\",\"result\":\"r\",\"version\":1,\"workflowId\":\"u\"},{\"eventId\":16,\"eventType\":\"DecisionTaskScheduled\",\"version\":1}],\"parent\":{\"task\":1,\"version\":1},\"run\":\"00000000-0000-0001-0000-000000000001\",\"task\":2,\"version\":1,\"workflow\":\"w1\"}";

// The state after both, copied without its origins, back at the mark between them, and copied there; and after one
// event more.
const SHOWN: &str =
    "next=17 decision=16 activities=3+12,5 timers=- children=- signals=0 cancel=yes\nnext=10 decision=- activities=3,4+6,5 timers=7 children=8+9 signals=1 cancel=no\nnext=10 decision=- activities=3,4+6,5 timers=7 children=8+9 signals=1 cancel=no\nnext=11 decision=- activities=3,4+6,5 timers=7 children=8+9 signals=2 cancel=no\n";

// The state after a batch.
fn state_behind(alloc: Global, batch: &Batch) -> Result<State, StateError>
    requires { All (λ event. event.id ≤ 10 ^ 12) batch.now.events }
{
    let mut state = State::new(alloc, batch.run);
    let mut steps: Steps<Test> = Steps::new();
    state.apply_all(batch.events.as_slice(), &mut steps)?;
    Ok(state)
}

// Appends what a state shows.
fn push_line(lines: &mut Vec<u8>, state: &State) -> Result<(), OutOfMemory> {
    lines.extend_from_slice(state.text()?.as_slice())?;
    lines.extend_from_slice(b"\n".as_slice())
}

// Appends what a state shows after a batch, copied without its origins; then it is at its mark again.
fn push_marked(lines: &mut Vec<u8>, state: &mut State, batch: &Batch) -> Result<(), StateError>
    requires { All (λ event. event.id ≤ 10 ^ 12) batch.now.events }
{
    let mut steps: Steps<Test> = Steps::new();
    let marked = state.mark();
    marked.apply_all(batch.events.as_slice(), &mut steps)?;
    let copy = marked.try_copy_without_origins()?;
    marked.revert();
    push_line(lines, &copy)?;
    Ok(())
}

// Appends what a copy of a state shows whose origins were left out and collected again from a batch.
fn push_refilled(lines: &mut Vec<u8>, state: &State, batch: &Batch) -> Result<(), OutOfMemory> {
    let mut copy = state.try_copy()?.try_copy_without_origins()?;
    copy.collect_origins(batch.events.as_slice())?;
    push_line(lines, &copy)
}

// Appends what a state shows after the first event of a batch.
fn push_after(lines: &mut Vec<u8>, state: &mut State, batch: &Batch) -> Result<(), StateError> {
    let mut steps: Steps<Test> = Steps::new();
    if let Some(event) = batch.events.as_slice().first() {
        if event.id <= 1_000_000_000_000 {
            state.apply(event, &mut steps)?;
        }
    }
    push_line(lines, state)?;
    Ok(())
}

// Appends what a state shows after two batches and between them.
fn push_all(
    alloc: Global,
    first: &Batch,
    second: &Batch,
    lines: &mut Vec<u8>,
) -> Result<(), StateError>
    requires first { All (λ event. event.id ≤ 10 ^ 12) first.now.events }
    requires second { All (λ event. event.id ≤ 10 ^ 12) second.now.events }
{
    let mut state = state_behind(alloc, first)?;
    push_marked(lines, &mut state, second)?;
    push_line(lines, &state)?;
    push_refilled(lines, &state, first)?;
    push_after(lines, &mut state, second)
}

// What a state shows.
fn shown(alloc: Global) -> Result<Vec<u8>, StateError> {
    let (first, second) = (batch(alloc, FIRST)?, batch(alloc, SECOND)?);
    let mut lines = Vec::new(alloc);
    push_all(alloc, &first, &second, &mut lines)?;
    Ok(lines)
}

#[test]
fn a_state_is_marked_and_copied(rt: HostRuntime) -> Result<(), Fail> {
    assert!(rt; shown(rt.alloc())?.as_slice() == SHOWN.as_bytes());
    Ok(())
}

// Whether the cancel was requested after the first batch, and after both.
fn cancels(alloc: Global) -> Result<(bool, bool), StateError> {
    let (first, second) = (batch(alloc, FIRST)?, batch(alloc, SECOND)?);
    let mut state = state_behind(alloc, &first)?;
    let before = state.cancel();
    let mut steps: Steps<Test> = Steps::new();
    state.apply_all(second.events.as_slice(), &mut steps)?;
    Ok((before, state.cancel()))
}

#[test]
fn a_cancel_is_requested_once_its_event_is_applied(rt: HostRuntime) -> Result<(), Fail> {
    assert_eq!(rt; cancels(rt.alloc())?, (false, true));
    Ok(())
}
