ghost use Rattle.std.specs.Prelude.{◌≡◌, ◌≤◌, ◌^◌, All, IfOk};

use crate::given::{Test, name};
use ndc_event::{Batch, BatchKey, Event, EventKind, Events, Name, OutOfMemory, Rare, RunId};
use ndc_rebuild::{Checkpoints, rebuild};
use ndc_state::{State, StateError, Steps};
use std::alloc::Global;
use std::test::Fail;

const RUN: RunId = RunId {
    value: 18446744073709551617,
};

// An event of version 1: the start with id 1, a signal with any other.
fn event(alloc: Global, id: u16) -> Result<Event, OutOfMemory>
    ensures { IfOk result (λ event. event.id ≡ id) }
{
    let kind = if id == 1 {
        EventKind::WorkflowExecutionStarted {
            workflow_type: name(alloc, "t")?,
        }
    } else {
        EventKind::WorkflowExecutionSignaled {
            signal_name: name(alloc, "s")?,
            input: name(alloc, "i")?,
            origin: Rare::none(),
        }
    };
    Ok(Event {
        id: u64::from(id),
        version: 1,
        kind,
    })
}

// A batch of so many events.
fn batch(alloc: Global, count: u16) -> Result<Batch, OutOfMemory>
    ensures { IfOk result (λ batch. All (λ event. event.id ≤ 10 ^ 12) batch.events) }
{
    let mut events = Vec::new(alloc);
    for place in 0..count {
        events.push(event(alloc, place.saturating_add(1))?)?;
    }
    Ok(Batch {
        domain: name(alloc, "d")?,
        workflow: name(alloc, "w")?,
        run: RUN,
        key: BatchKey {
            version: 1,
            task: 1,
        },
        parent: None,
        carrier: None,
        events: Events::of(events),
    })
}

// The next id, the signals and the steps of a batch of so many events restored where its state was handed to `keep`.
fn restored_from_kept(alloc: Global, count: u16) -> Result<Option<(u64, u64, u64)>, OutOfMemory> {
    let batch = batch(alloc, count)?;
    let key = batch.key;
    let mut path = Vec::new(alloc);
    path.push(batch)?;
    let mut steps: Steps<Test> = Steps::new();
    let Ok(state) = rebuild(alloc, RUN, path.as_slice(), &mut steps) else {
        return Ok(None);
    };
    let mut kept = Checkpoints::new(alloc, RUN);
    kept.keep(key, u64::from(count), &state)?;
    let mut fewer: Steps<Test> = Steps::new();
    match kept.restore(path.as_slice(), &mut fewer) {
        Ok(state) => Ok(Some((state.next(), state.signals(), fewer.taken()))),
        Err(_) => Ok(None),
    }
}

#[test]
fn a_path_is_restored_from_what_is_kept(rt: HostRuntime) -> Result<(), Fail> {
    assert_eq!(rt; restored_from_kept(rt.alloc(), 512)?, Some((513, 511, 0)));
    Ok(())
}
