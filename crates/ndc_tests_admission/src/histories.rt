//! Messages whose version history ends with their batch and is not that of its path.
use crate::scene::Scene;
use crate::texts::{key, next_signal, signaled};
use ndc_model_cells::Message;
use std::alloc::Global;
use std::test::Fail;

/// B's signal after its batch just before, with a history that names another last event of version 1 than its path has.
fn misdated(alloc: Global, task: u64, id: u64) -> Result<Message, Fail> {
    let parent = key(2, task.saturating_sub(1));
    signaled(alloc, key(2, task), parent, id, "late", &[(2, 1), (id, 2)])
}

#[test]
fn a_history_of_another_path_is_refused(rt: HostRuntime) -> Result<(), Fail> {
    let alloc = rt.alloc();
    let mut scene = Scene::forked(alloc)?;
    let came = scene.told(misdated(alloc, 4, 5)?)?;
    assert_eq!(rt; came.as_str(), "refused: History");
    assert!(rt; !scene.has(key(2, 4)));
    let came = scene.told(next_signal(alloc, 4, 5, "a")?)?;
    assert_eq!(rt; came.as_str(), "learned 2.4");
    Ok(())
}

#[test]
fn a_history_that_leaves_a_version_out_is_refused(rt: HostRuntime) -> Result<(), Fail> {
    let alloc = rt.alloc();
    let mut scene = Scene::forked(alloc)?;
    let came = scene.told(signaled(alloc, key(2, 4), key(2, 3), 5, "late", &[(5, 2)])?)?;
    assert_eq!(rt; came.as_str(), "refused: History");
    Ok(())
}

#[test]
fn a_history_that_waited_is_tested_once_its_path_is_there(rt: HostRuntime) -> Result<(), Fail> {
    let alloc = rt.alloc();
    let mut scene = Scene::forked(alloc)?;
    let came = scene.told(misdated(alloc, 5, 6)?)?;
    assert_eq!(rt; came.as_str(), "put off for 2.4");
    let came = scene.told(next_signal(alloc, 4, 5, "a")?)?;
    assert_eq!(rt; came.as_str(), "learned 2.4, aside 2.5: History");
    assert!(rt; !scene.has(key(2, 5)));
    Ok(())
}
