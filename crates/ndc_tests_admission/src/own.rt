//! Messages that claim what the cell's own cluster has not written, where the cell asks for what it lost.
use crate::scene::Scene;
use crate::texts::{key, next_copy, signaled};
use ndc_model_cells::Message;
use std::alloc::Global;
use std::test::Fail;

/// A batch of A's version, after A's last one: A has not written it.
fn unwritten(alloc: Global) -> Result<Message, Fail> {
    signaled(alloc, key(1, 4), key(1, 3), 5, "lost", &[(5, 1)])
}

/// A batch of B with a copy of an event of A's version, after A's last one: A has not written that.
fn of_unwritten(alloc: Global) -> Result<Message, Fail> {
    next_copy(alloc, 4, 5, "lost", (5, 1))
}

#[test]
fn an_own_version_is_learned_where_it_is_asked_for(rt: HostRuntime) -> Result<(), Fail> {
    let alloc = rt.alloc();
    let mut scene = Scene::forked(alloc)?;
    let came = scene.told_again(unwritten(alloc)?)?;
    assert_eq!(rt; came.as_str(), "learned 1.4");
    Ok(())
}

#[test]
fn such_a_copy_is_learned_where_it_is_asked_for(rt: HostRuntime) -> Result<(), Fail> {
    let alloc = rt.alloc();
    let mut scene = Scene::forked(alloc)?;
    let came = scene.told_again(of_unwritten(alloc)?)?;
    assert_eq!(rt; came.as_str(), "learned 2.4");
    Ok(())
}
