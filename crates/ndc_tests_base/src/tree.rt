use crate::given::{self, item, key};
use ndc_event::{BatchKey, EventKind, Name, OutOfMemory, RunId};
use ndc_history::Item;
use ndc_tree::{Inserted, Tree, TreeError};
use std::alloc::Global;
use std::test::Fail;

// A run of three batches, of which the third forks off after the first, and what became of that one.
fn forked(alloc: Global) -> Result<(Tree, Inserted), TreeError> {
    let batches = given::forked(alloc)?;
    let mut tree = Tree::new(alloc, RunId::of(key(1, 1)));
    tree.insert(&batches.first)?;
    tree.insert(&batches.second)?;
    let inserted = tree.insert(&batches.other)?;
    Ok((tree, inserted))
}

// The items of the version history of a path, none where it is not there.
fn items(tree: &Tree, alloc: Global, tip: BatchKey) -> Result<Vec<Item>, OutOfMemory> {
    match tree.history_of(alloc, tip)? {
        None => Ok(Vec::new(alloc)),
        Some(history) => Vec::from_slice(alloc, history.items()),
    }
}

// The keys of a path, none where it is not there.
fn path(tree: &Tree, alloc: Global, tip: BatchKey) -> Result<Vec<BatchKey>, OutOfMemory> {
    match tree.path(alloc, tip)? {
        None => Ok(Vec::new(alloc)),
        Some(path) => Ok(path),
    }
}

#[test]
fn a_branch_forks_off(rt: HostRuntime) -> Result<(), Fail> {
    let alloc = rt.alloc();
    let (tree, inserted) = forked(alloc)?;
    let (first, second, branch) = (key(1, 1), key(1, 2), key(2, 2));
    let (at, end) = (item(2, 1), item(3, 2));
    assert_eq!(rt; inserted, Inserted::Forked { branch, at });
    assert_eq!(rt;
        tree.branches(alloc)?.as_slice(),
        [second, branch].as_slice()
    );
    assert_eq!(rt;
        items(&tree, alloc, branch)?.as_slice(),
        [at, end].as_slice()
    );
    assert_eq!(rt;
        path(&tree, alloc, branch)?.as_slice(),
        [first, branch].as_slice()
    );
    Ok(())
}

// Whether the event of this version and id is a signal of this name.
fn is_signal(tree: &Tree, version: u64, id: u64, name: &Name) -> bool {
    match tree.event(version, id) {
        None => false,
        Some(event) => match &event.kind {
            EventKind::WorkflowExecutionSignaled { signal_name, .. } => signal_name == name,
            _ => false,
        },
    }
}

// Whether the tree has an event of this version and id.
fn has(tree: &Tree, version: u64, id: u64) -> bool {
    tree.event(version, id).is_some()
}

#[test]
fn an_event_is_found_on_the_branch_of_its_version(rt: HostRuntime) -> Result<(), Fail> {
    let alloc = rt.alloc();
    let (tree, _inserted) = forked(alloc)?;
    let (ping, pong) = (given::name(alloc, "ping")?, given::name(alloc, "pong")?);
    assert!(rt; is_signal(&tree, 1, 3, &ping) && is_signal(&tree, 2, 3, &pong));
    assert!(rt; has(&tree, 1, 1) && has(&tree, 1, 2));
    assert!(rt; !is_signal(&tree, 1, 2, &ping));
    assert!(rt; !has(&tree, 1, 0) && !has(&tree, 1, 4));
    assert!(rt; !has(&tree, 2, 2) && !has(&tree, 3, 3));
    Ok(())
}
