//! Messages that wait and are dropped, what is told of what waits, and what is written once nothing is in the way.
use crate::scene::{Scene, pong};
use crate::texts::{Carried, carrier, key, next_signal, signaled};
use ndc_shard::{NotWritten, TryError};
use std::test::Fail;

#[test]
fn what_waits_is_counted_and_dropped(rt: HostRuntime) -> Result<(), Fail> {
    let alloc = rt.alloc();
    let mut scene = Scene::forked(alloc)?;
    let _came = scene.told(next_signal(alloc, 6, 7, "c")?)?;
    let _came = scene.told(next_signal(alloc, 5, 6, "b")?)?;
    let counted = scene.counted()?;
    assert_eq!(rt; counted.as_str(), "2 since 2.5");
    assert_eq!(rt; scene.waiting(), 2);
    assert!(rt; scene.forget(key(2, 5))?);
    assert!(rt; !scene.forget(key(2, 5))?);
    assert_eq!(rt; scene.waiting(), 1);
    let waits = scene.waits()?;
    assert_eq!(rt; waits.as_str(), "2.6 for 2.5;");
    let came = scene.told(next_signal(alloc, 4, 5, "a")?)?;
    assert_eq!(rt; came.as_str(), "learned 2.4");
    let counted = scene.counted()?;
    assert_eq!(rt; counted.as_str(), "1 since 2.6");
    Ok(())
}

#[test]
fn a_message_is_dropped_by_the_key_of_what_it_carries(rt: HostRuntime) -> Result<(), Fail> {
    let alloc = rt.alloc();
    let mut scene = Scene::forked(alloc)?;
    let waits = carrier(alloc, 5, key(2, 4), 6, 6, Some(Carried::begins(6)))?;
    let _came = scene.told(waits)?;
    assert!(rt; scene.forget(key(2, 6))?);
    let counted = scene.counted()?;
    assert_eq!(rt; counted.as_str(), "");
    Ok(())
}

#[test]
fn what_is_learned_is_not_dropped(rt: HostRuntime) -> Result<(), Fail> {
    let alloc = rt.alloc();
    let mut scene = Scene::forked(alloc)?;
    assert!(rt; !scene.forget(key(1, 2))?);
    assert!(rt; scene.has(key(1, 2)));
    Ok(())
}

#[test]
fn an_own_batch_that_waits_is_lacked(rt: HostRuntime) -> Result<(), Fail> {
    let alloc = rt.alloc();
    let mut scene = Scene::forked(alloc)?;
    assert!(rt; !scene.lacks_own()?);
    assert!(rt; !scene.lacks_any_own()?);
    let told = signaled(alloc, key(1, 5), key(1, 4), 6, "lost", &[(6, 1)])?;
    let _came = scene.told_again(told)?;
    assert!(rt; scene.lacks_own()?);
    assert!(rt; scene.lacks_any_own()?);
    assert!(rt; scene.forget(key(1, 5))?);
    assert!(rt; !scene.lacks_own()?);
    assert!(rt; !scene.lacks_any_own()?);
    Ok(())
}

#[test]
fn a_reset_waits_for_what_is_in_its_way(rt: HostRuntime) -> Result<(), Fail> {
    let alloc = rt.alloc();
    let mut scene = Scene::written(alloc)?;
    let completed = scene.complete()?;
    assert_eq!(rt; completed.key, key(1, 4));
    let told = signaled(alloc, key(1, 6), key(0, 3), 9, "lost", &[(9, 1)])?;
    let _came = scene.told_again(told)?;
    let rival = NotWritten::Rival {
        key: key(1, 6),
        waits: true,
    };
    assert_eq!(rt; scene.reset(5).err(), Some(TryError::NotWritten(rival)));
    assert!(rt; !scene.has(key(1, 5)));
    assert!(rt; scene.forget(key(1, 6))?);
    let written = scene.reset(5)?;
    assert_eq!(rt; written.key, key(1, 5));
    assert_eq!(rt; written.second, Some(key(1, 6)));
    Ok(())
}

#[test]
fn a_workflow_is_passed_over_and_written_later(rt: HostRuntime) -> Result<(), Fail> {
    let alloc = rt.alloc();
    let mut scene = Scene::written(alloc)?;
    let _written = scene.signal("mine")?;
    let _came = scene.told(pong(alloc)?)?;
    scene.fail_over_and_back()?;
    let told = signaled(alloc, key(11, 5), key(0, 3), 9, "lost", &[(9, 11)])?;
    let _came = scene.told_again(told)?;
    let passed = scene.reapplied()?;
    assert_eq!(rt;
        passed.as_str(),
        "passed over: NotWritten(Rival { key: BatchKey { version: 11, task: 5 }, waits: true })"
    );
    assert!(rt; scene.forget(key(11, 5))?);
    let written = scene.reapplied()?;
    assert_eq!(rt; written.as_str(), "written 11.5");
    let again = scene.reapplied()?;
    assert_eq!(rt; again.as_str(), "");
    Ok(())
}
