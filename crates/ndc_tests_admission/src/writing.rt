//! What a cell does not write because of messages that nobody vouches for.
use crate::scene::Scene;
use crate::texts::{key, next_copy, signaled};
use ndc_command::Refusal;
use ndc_shard::{NotWritten, TryError};
use ndc_shard_runs::Misfit;
use std::test::Fail;

#[test]
fn nothing_is_written_under_a_key_that_waits(rt: HostRuntime) -> Result<(), Fail> {
    let alloc = rt.alloc();
    let mut scene = Scene::written(alloc)?;
    let told = signaled(alloc, key(1, 4), key(0, 3), 9, "lost", &[(9, 1)])?;
    let came = scene.told_again(told)?;
    assert_eq!(rt; came.as_str(), "put off for 0.3");
    let why = scene.unwritten(&rt, "mine")?;
    let rival = NotWritten::Rival {
        key: key(1, 4),
        waits: true,
    };
    assert_eq!(rt; why, Some(TryError::NotWritten(rival)));
    Ok(())
}

#[test]
fn nothing_is_written_for_which_a_message_waits(rt: HostRuntime) -> Result<(), Fail> {
    let alloc = rt.alloc();
    let mut scene = Scene::written(alloc)?;
    let told = signaled(alloc, key(2, 5), key(1, 4), 6, "early", &[(5, 1), (6, 2)])?;
    let came = scene.told(told)?;
    assert_eq!(rt; came.as_str(), "put off for 1.4");
    let why = scene.unwritten(&rt, "mine")?;
    let awaited = NotWritten::Awaited { key: key(2, 5) };
    assert_eq!(rt; why, Some(TryError::NotWritten(awaited)));
    Ok(())
}

#[test]
fn nothing_is_written_that_a_learned_copy_names_otherwise(rt: HostRuntime) -> Result<(), Fail> {
    let alloc = rt.alloc();
    let mut scene = Scene::forked(alloc)?;
    let came = scene.told_again(next_copy(alloc, 4, 5, "bell", (6, 11))?)?;
    assert_eq!(rt; came.as_str(), "learned 2.4");
    scene.fail_over_and_back()?;
    let why = scene.unwritten(&rt, "gong")?;
    let unfit = NotWritten::Misfit(Misfit::OriginUnfit);
    assert_eq!(rt; why, Some(TryError::NotWritten(unfit)));
    Ok(())
}

#[test]
fn a_cell_whose_record_is_old_is_behind(rt: HostRuntime) -> Result<(), Fail> {
    let alloc = rt.alloc();
    let mut scene = Scene::forked(alloc)?;
    let why = scene.unwritten(&rt, "mine")?;
    assert_eq!(rt;
        why,
        Some(TryError::Refused(Refusal::Behind { version: 2 }))
    );
    Ok(())
}

#[test]
fn a_cell_writes_after_what_came(rt: HostRuntime) -> Result<(), Fail> {
    let alloc = rt.alloc();
    let mut scene = Scene::forked(alloc)?;
    scene.fail_over_and_back()?;
    let written = scene.signal("mine")?;
    assert_eq!(rt; written.key, key(11, 4));
    Ok(())
}
