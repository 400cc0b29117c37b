ghost use Rattle.std.specs.Prelude.{◌≡◌, ◌≤◌, ◌^◌, All, None};
ghost use Rattle.ndc_event.specs.Batch.{fault_of};
ghost use Rattle.ndc_model_sets.specs.Learned.{has_key};

use crate::given::{self, Test, key};
use ndc_event::{Batch, EventKind, Name, Origin, RunId};
use ndc_run::Learned;
use ndc_shard_runs::{Misfit, Runs};
use ndc_state::{Rule, Steps};
use std::alloc::Global;
use std::test::Fail;

/// The first batch of a run, with a signal.
const SIGNALED: &str =
    "{\"domain\":\"alpha\",\"events\":[{\"eventId\":1,\"eventType\":\"WorkflowExecutionStarted\",\"version\":1,\"workflowType\":\"order\"},{\"eventId\":2,\"eventType\":\"WorkflowExecutionSignaled\",\"input\":\"x\",\"signalName\":\"ping\",\"version\":1}],\"parent\":null,\"run\":\"00000000-0000-0001-0000-000000000001\",\"task\":1,\"version\":1,\"workflow\":\"w1\"}";

/// A batch of another run with a copy of that signal.
const COPIED: &str =
    "{\"domain\":\"alpha\",\"events\":[{\"eventId\":1,\"eventType\":\"WorkflowExecutionStarted\",\"version\":2,\"workflowType\":\"order\"},{\"eventId\":2,\"eventType\":\"WorkflowExecutionSignaled\",\"input\":\"x\",\"origin\":{\"event\":2,\"run\":\"00000000-0000-0001-0000-000000000001\",\"version\":1},\"signalName\":\"ping\",\"version\":2}],\"parent\":null,\"run\":\"00000000-0000-0002-0000-000000000002\",\"task\":2,\"version\":2,\"workflow\":\"w1\"}";

/// The same with another input.
const FALSE_INPUT: &str =
    "{\"domain\":\"alpha\",\"events\":[{\"eventId\":1,\"eventType\":\"WorkflowExecutionStarted\",\"version\":2,\"workflowType\":\"order\"},{\"eventId\":2,\"eventType\":\"WorkflowExecutionSignaled\",\"input\":\"y\",\"origin\":{\"event\":2,\"run\":\"00000000-0000-0001-0000-000000000001\",\"version\":1},\"signalName\":\"ping\",\"version\":2}],\"parent\":null,\"run\":\"00000000-0000-0002-0000-000000000002\",\"task\":2,\"version\":2,\"workflow\":\"w1\"}";

/// The same, of an event that is not a signal.
const FALSE_ORIGIN: &str =
    "{\"domain\":\"alpha\",\"events\":[{\"eventId\":1,\"eventType\":\"WorkflowExecutionStarted\",\"version\":2,\"workflowType\":\"order\"},{\"eventId\":2,\"eventType\":\"WorkflowExecutionSignaled\",\"input\":\"x\",\"origin\":{\"event\":1,\"run\":\"00000000-0000-0001-0000-000000000001\",\"version\":1},\"signalName\":\"ping\",\"version\":2}],\"parent\":null,\"run\":\"00000000-0000-0002-0000-000000000002\",\"task\":2,\"version\":2,\"workflow\":\"w1\"}";

/// A first batch that does not start its run.
const UNSTARTED: &str =
    "{\"domain\":\"alpha\",\"events\":[{\"eventId\":1,\"eventType\":\"WorkflowExecutionSignaled\",\"input\":\"x\",\"signalName\":\"ping\",\"version\":1}],\"parent\":null,\"run\":\"00000000-0000-0001-0000-000000000001\",\"task\":1,\"version\":1,\"workflow\":\"w1\"}";

/// A batch that goes on from the first one.
const NEXT: &str =
    "{\"domain\":\"alpha\",\"events\":[{\"eventId\":3,\"eventType\":\"WorkflowExecutionSignaled\",\"input\":\"y\",\"signalName\":\"pong\",\"version\":1}],\"parent\":{\"task\":1,\"version\":1},\"run\":\"00000000-0000-0001-0000-000000000001\",\"task\":2,\"version\":1,\"workflow\":\"w1\"}";

/// Another one of its version, which goes on from the first one too.
const SPLIT: &str =
    "{\"domain\":\"alpha\",\"events\":[{\"eventId\":3,\"eventType\":\"WorkflowExecutionSignaled\",\"input\":\"z\",\"signalName\":\"pong\",\"version\":1}],\"parent\":{\"task\":1,\"version\":1},\"run\":\"00000000-0000-0001-0000-000000000001\",\"task\":3,\"version\":1,\"workflow\":\"w1\"}";

/// One whose id leaves a hole.
const WITH_HOLE: &str =
    "{\"domain\":\"alpha\",\"events\":[{\"eventId\":4,\"eventType\":\"WorkflowExecutionSignaled\",\"input\":\"y\",\"signalName\":\"pong\",\"version\":1}],\"parent\":{\"task\":1,\"version\":1},\"run\":\"00000000-0000-0001-0000-000000000001\",\"task\":2,\"version\":1,\"workflow\":\"w1\"}";

/// One of another run.
const OF_ANOTHER_RUN: &str =
    "{\"domain\":\"alpha\",\"events\":[{\"eventId\":3,\"eventType\":\"WorkflowExecutionSignaled\",\"input\":\"y\",\"signalName\":\"pong\",\"version\":2}],\"parent\":{\"task\":1,\"version\":1},\"run\":\"00000000-0000-0002-0000-000000000002\",\"task\":3,\"version\":2,\"workflow\":\"w1\"}";

/// One with a copy of a signal on its own path.
const TWICE: &str =
    "{\"domain\":\"alpha\",\"events\":[{\"eventId\":3,\"eventType\":\"WorkflowExecutionSignaled\",\"input\":\"x\",\"origin\":{\"event\":2,\"run\":\"00000000-0000-0001-0000-000000000001\",\"version\":1},\"signalName\":\"ping\",\"version\":2}],\"parent\":{\"task\":1,\"version\":1},\"run\":\"00000000-0000-0001-0000-000000000001\",\"task\":2,\"version\":2,\"workflow\":\"w1\"}";

// Whether the parent of a batch is learned, where it has one.
fn is_reached(runs: &Runs, batch: &Batch) -> bool
    ensures { result ≡ has_key batch.now.parent runs.now }
{
    match batch.parent {
        None => true,
        Some(key) => runs.has(key),
    }
}

// Admits a batch that comes next and that no other carries.
fn admit(
    runs: &mut Runs,
    alloc: Global,
    batch: &Batch,
    steps: &mut Steps<Test>,
) -> Result<Learned, Misfit>
    requires faultless { fault_of batch.now ≡ None }
    requires ids { All (λ event. event.id ≤ 10 ^ 12) batch.now.events }
{
    if batch.carrier.is_some() || runs.has(batch.key) || !is_reached(runs, batch) {
        return Err(Misfit::Memory);
    }
    runs.admit(alloc, batch, None, steps)
}

// Admits the batch of a text.
fn admit_text(runs: &mut Runs, alloc: Global, text: &str) -> Result<Learned, Misfit> {
    let batch = given::batch(alloc, text)?;
    let mut steps: Steps<Test> = Steps::new();
    admit(runs, alloc, &batch, &mut steps)
}

// What becomes of the batch of a text after one that is learned.
fn behind(alloc: Global, first: &str, text: &str) -> Result<Learned, Misfit> {
    let mut runs = Runs::new(alloc);
    admit_text(&mut runs, alloc, first)?;
    admit_text(&mut runs, alloc, text)
}

// What is learned of a workflow with one signal.
fn signaled(alloc: Global) -> Result<Runs, Misfit> {
    let mut runs = Runs::new(alloc);
    admit_text(&mut runs, alloc, SIGNALED)?;
    Ok(runs)
}

// Whether the origin names a signal of this name.
fn is_signal(runs: &Runs, origin: Origin, name: &Name) -> bool {
    match runs.event_of(&origin) {
        None => false,
        Some(event) => match &event.kind {
            EventKind::WorkflowExecutionSignaled { signal_name, .. } => signal_name == name,
            _ => false,
        },
    }
}

// The origin of an event.
fn origin(run: RunId, event: u64, version: u64) -> Origin {
    Origin {
        run,
        event,
        version,
    }
}

#[test]
fn an_origin_finds_its_event(rt: HostRuntime) -> Result<(), Fail> {
    let alloc = rt.alloc();
    let runs = signaled(alloc)?;
    let ping = given::name(alloc, "ping")?;
    let (run, other) = (RunId::of(key(1, 1)), RunId::of(key(2, 2)));
    assert!(rt; is_signal(&runs, origin(run, 2, 1), &ping));
    assert!(rt; runs.event_of(&origin(run, 1, 1)).is_some());
    assert!(rt; !is_signal(&runs, origin(run, 1, 1), &ping));
    assert!(rt; runs.event_of(&origin(run, 3, 1)).is_none());
    assert!(rt; runs.event_of(&origin(run, 2, 2)).is_none());
    assert!(rt; runs.event_of(&origin(other, 2, 1)).is_none());
    Ok(())
}

#[test]
fn a_copy_fits_its_original_alone(rt: HostRuntime) -> Result<(), Fail> {
    let alloc = rt.alloc();
    let runs = signaled(alloc)?;
    let none = Runs::new(alloc);
    let copied = given::batch(alloc, COPIED)?;
    let false_input = given::batch(alloc, FALSE_INPUT)?;
    let false_origin = given::batch(alloc, FALSE_ORIGIN)?;
    assert!(rt; runs.copies_fit(&copied));
    assert!(rt; !runs.copies_fit(&false_input));
    assert!(rt; !runs.copies_fit(&false_origin));
    assert!(rt; none.copies_fit(&false_origin));
    Ok(())
}

#[test]
fn a_forbidden_event_is_refused(rt: HostRuntime) -> Result<(), Fail> {
    let alloc = rt.alloc();
    let mut runs = Runs::new(alloc);
    let refused = admit_text(&mut runs, alloc, UNSTARTED);
    assert!(rt; matches!(refused, Err(Misfit::BadReplay { id: 1, .. })));
    assert!(rt; runs.is_empty());
    Ok(())
}

#[test]
fn a_batch_beside_its_run_is_refused(rt: HostRuntime) -> Result<(), Fail> {
    let alloc = rt.alloc();
    assert!(rt; behind(alloc, SIGNALED, NEXT).is_ok());
    assert!(rt; matches!(behind(alloc, SIGNALED, WITH_HOLE), Err(Misfit::IllFormed)));
    assert!(rt;
        matches!(
            behind(alloc, SIGNALED, OF_ANOTHER_RUN),
            Err(Misfit::ParentUnfit)
        )
    );
    let twice = behind(alloc, SIGNALED, TWICE);
    assert!(rt;
        matches!(
            twice,
            Err(Misfit::BadReplay {
                id: 3,
                rule: Rule::Origin
            })
        )
    );
    Ok(())
}

#[test]
fn a_split_version_is_refused(rt: HostRuntime) -> Result<(), Fail> {
    let alloc = rt.alloc();
    let mut runs = signaled(alloc)?;
    admit_text(&mut runs, alloc, NEXT)?;
    assert!(rt; matches!(admit_text(&mut runs, alloc, SPLIT), Err(Misfit::IllFormed)));
    assert!(rt; !runs.has(key(1, 3)));
    Ok(())
}

#[test]
fn a_false_copy_is_refused_whichever_comes_first(rt: HostRuntime) -> Result<(), Fail> {
    let alloc = rt.alloc();
    assert!(rt; behind(alloc, SIGNALED, COPIED).is_ok());
    assert!(rt; behind(alloc, COPIED, SIGNALED).is_ok());
    assert!(rt;
        matches!(
            behind(alloc, SIGNALED, FALSE_INPUT),
            Err(Misfit::OriginUnfit)
        )
    );
    assert!(rt;
        matches!(
            behind(alloc, FALSE_INPUT, SIGNALED),
            Err(Misfit::OriginUnfit)
        )
    );
    assert!(rt;
        matches!(
            behind(alloc, FALSE_ORIGIN, SIGNALED),
            Err(Misfit::OriginUnfit)
        )
    );
    Ok(())
}
