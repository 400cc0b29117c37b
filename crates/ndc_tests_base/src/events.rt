use crate::given;
use ndc_event::{Events, OutOfMemory};
use std::alloc::Global;
use std::test::Fail;

// The events of the first batch of a run, held alone or by copies.
fn events(alloc: Global, shared: bool) -> Result<Events, OutOfMemory> {
    let events = given::forked(alloc)?.first.events.try_copy()?.into_vec()?;
    if shared {
        return Events::shared(alloc, events);
    }
    Ok(Events::of(events))
}

// The ids and the names of the kinds of events.
fn told(alloc: Global, events: Events) -> Result<Vec<(u64, &'static str)>, OutOfMemory> {
    let mut list = Vec::new(alloc);
    for event in events.into_vec()?.as_slice() {
        list.push((event.id, event.kind.name()))?;
    }
    Ok(list)
}

#[test]
fn events_are_given_back(rt: HostRuntime) -> Result<(), Fail> {
    let alloc = rt.alloc();
    let want = [
        (1, "WorkflowExecutionStarted"),
        (2, "DecisionTaskScheduled"),
    ];
    let alone = events(alloc, false)?;
    assert_eq!(rt; told(alloc, alone)?.as_slice(), want.as_slice());
    let shared = events(alloc, true)?;
    let copy = shared.try_copy()?;
    assert_eq!(rt; told(alloc, shared)?.as_slice(), want.as_slice());
    assert_eq!(rt; told(alloc, copy)?.as_slice(), want.as_slice());
    Ok(())
}
