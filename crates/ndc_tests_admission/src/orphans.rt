//! Messages whose ancestors have not come, where nothing more may wait.
use crate::scene::{Scene, pong};
use crate::texts::next_signal;
use ndc_shard::NotAdmitted;
use std::test::Fail;

#[test]
fn an_orphan_without_room_is_refused(rt: HostRuntime) -> Result<(), Fail> {
    let alloc = rt.alloc();
    let mut scene = Scene::forked(alloc)?;
    let why = scene.refused_when_full(&rt, next_signal(alloc, 5, 6, "b")?)?;
    assert_eq!(rt; why, Some(NotAdmitted::Full));
    let came = scene.told_when_full(next_signal(alloc, 4, 5, "a")?)?;
    assert_eq!(rt; came.as_str(), "learned 2.4");
    Ok(())
}

#[test]
fn a_refusal_begins_no_workflow(rt: HostRuntime) -> Result<(), Fail> {
    let alloc = rt.alloc();
    let mut scene = Scene::empty(alloc)?;
    let why = scene.refused_when_full(&rt, pong(alloc)?)?;
    assert_eq!(rt; why, Some(NotAdmitted::Full));
    let came = scene.told(pong(alloc)?)?;
    assert_eq!(rt; came.as_str(), "put off for 1.2");
    Ok(())
}

#[test]
fn no_more_wait_than_may(rt: HostRuntime) -> Result<(), Fail> {
    let alloc = rt.alloc();
    let mut scene = Scene::forked(alloc)?;
    assert_eq!(rt; scene.waiting(), 0);
    let came = scene.told_with_room(2, next_signal(alloc, 8, 9, "e")?)?;
    assert_eq!(rt; came.as_str(), "put off for 2.7");
    let came = scene.told_with_room(2, next_signal(alloc, 6, 7, "c")?)?;
    assert_eq!(rt; came.as_str(), "put off for 2.5");
    let came = scene.told_with_room(2, next_signal(alloc, 5, 6, "b")?)?;
    assert_eq!(rt; came.as_str(), "refused: Full");
    assert_eq!(rt; scene.waiting(), 2);
    let came = scene.told_with_room(2, next_signal(alloc, 4, 5, "a")?)?;
    assert_eq!(rt; came.as_str(), "learned 2.4");
    let came = scene.told_with_room(2, next_signal(alloc, 5, 6, "b")?)?;
    assert_eq!(rt; came.as_str(), "learned 2.5 2.6");
    assert_eq!(rt; scene.waiting(), 1);
    Ok(())
}
