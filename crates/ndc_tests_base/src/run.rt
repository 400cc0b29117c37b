use crate::given::{Test, forked, key};
use ndc_event::RunId;
use ndc_run::{Learned, Run, RunError};
use ndc_state::Steps;
use std::alloc::{AllocError, Global};
use std::test::Fail;

// A run that goes on with its third batch, and what became of that one.
fn switched(alloc: Global, steps: &mut Steps<Test>) -> Result<(Run, Learned), RunError> {
    let batches = forked(alloc)?;
    let mut run = Run::new(alloc, RunId::of(key(1, 1)));
    run.learn(alloc, &batches.first, steps)?;
    run.learn(alloc, &batches.second, steps)?;
    let learned = run.learn(alloc, &batches.other, steps)?;
    Ok((run, learned))
}

#[test]
fn a_run_switches_to_a_greater_version(rt: HostRuntime) -> Result<(), Fail> {
    let alloc = rt.alloc();
    let mut steps: Steps<Test> = Steps::new();
    let (run, learned) = switched(alloc, &mut steps)?;
    assert_eq!(rt; learned, Learned::New { switched: true });
    assert_eq!(rt; run.tip(), Some(key(2, 2)));
    let losing = run.state_of(alloc, key(1, 2), &mut steps)?;
    assert_eq!(rt;
        losing.map(|state| (state.next(), state.signals())),
        Some((4, 1))
    );
    Ok(())
}
