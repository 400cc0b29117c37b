use crate::given::batch;
use ndc_event::{EventKind, OutOfMemory, RunId};
use ndc_reset::{ResetError, plan_reset};
use std::alloc::Global;
use std::test::Fail;

const RUN: RunId = RunId {
    value: 18446744073709551617,
};

/// A history: a decision is made, and a signal comes after it.
const HISTORY: &str =
    "{\"domain\":\"alpha\",\"events\":[{\"eventId\":1,\"eventType\":\"WorkflowExecutionStarted\",\"version\":1,\"workflowType\":\"order\"},{\"eventId\":2,\"eventType\":\"DecisionTaskScheduled\",\"version\":1},{\"eventId\":3,\"eventType\":\"DecisionTaskStarted\",\"version\":1},{\"eventId\":4,\"eventType\":\"DecisionTaskCompleted\",\"version\":1},{\"eventId\":5,\"eventType\":\"WorkflowExecutionSignaled\",\"input\":\"x\",\"signalName\":\"ping\",\"version\":1}],\"parent\":null,\"run\":\"00000000-0000-0001-0000-000000000001\",\"task\":1,\"version\":1,\"workflow\":\"w1\"}";

// What a reset to an event of the history plans, where a new run may have so many events.
fn planned(alloc: Global, event: u64, limit: u64) -> Result<Vec<EventKind>, ResetError> {
    let batch = batch(alloc, HISTORY)?;
    plan_reset(alloc, batch.events.as_slice(), RUN, event, limit)
}

// The names of kinds.
fn names(alloc: Global, kinds: &[EventKind]) -> Result<Vec<&'static str>, OutOfMemory> {
    let mut list = Vec::new(alloc);
    for kind in kinds {
        list.push(kind.name())?;
    }
    Ok(list)
}

// The id and version of the event that a copied signal names.
fn origin(kind: &EventKind) -> Option<(u64, u64)> {
    match kind {
        EventKind::WorkflowExecutionSignaled { origin, .. } => {
            let origin = origin.as_ref()?;
            Some((origin.event, origin.version))
        }
        _ => None,
    }
}

#[test]
fn a_reset_goes_on_before_the_decision_with_later_signals(rt: HostRuntime) -> Result<(), Fail> {
    let alloc = rt.alloc();
    let kinds = planned(alloc, 4, 6)?;
    let want = [
        "WorkflowExecutionStarted",
        "DecisionTaskScheduled",
        "DecisionTaskStarted",
        "DecisionTaskFailed",
        "DecisionTaskScheduled",
        "WorkflowExecutionSignaled",
    ];
    assert_eq!(rt; names(alloc, kinds.as_slice())?.as_slice(), want.as_slice());
    assert_eq!(rt; kinds.as_slice().last().and_then(origin), Some((5, 1)));
    Ok(())
}

#[test]
fn a_reset_is_refused(rt: HostRuntime) -> Result<(), Fail> {
    let alloc = rt.alloc();
    for event in [0, 3, 5, 6] {
        assert!(rt;
            matches!(planned(alloc, event, 6), Err(ResetError::NoSuchPoint)),
            "{event}"
        );
    }
    assert!(rt; matches!(planned(alloc, 4, 5), Err(ResetError::HistoryFull)));
    Ok(())
}
