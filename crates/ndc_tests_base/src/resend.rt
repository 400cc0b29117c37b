use crate::given::{self, item};
use ndc_event::{BatchKey, OutOfMemory};
use ndc_resend::{Gap, serve};
use std::alloc::Global;
use std::test::Fail;

// The keys of what is served of a path of two batches, of the events 1 to 2 and 3, between two ids.
fn served(alloc: Global, after: u64, before: u64) -> Result<Vec<BatchKey>, OutOfMemory> {
    let batches = given::forked(alloc)?;
    let mut path = Vec::new(alloc);
    path.push(batches.first.try_copy()?)?;
    path.push(batches.second.try_copy()?)?;
    let gap = Gap {
        after: item(after, 1),
        before: item(before, 1),
    };
    let mut keys = Vec::new(alloc);
    for batch in serve(alloc, path.as_slice(), &gap)?.as_slice() {
        keys.push(batch.key)?;
    }
    Ok(keys)
}

#[test]
fn what_lies_in_a_gap_is_served(rt: HostRuntime) -> Result<(), Fail> {
    let alloc = rt.alloc();
    let (first, second) = (given::key(1, 1), given::key(1, 2));
    assert_eq!(rt; served(alloc, 0, 4)?.as_slice(), [first, second].as_slice());
    assert_eq!(rt; served(alloc, 2, 4)?.as_slice(), [second].as_slice());
    assert_eq!(rt; served(alloc, 0, 3)?.as_slice(), [first].as_slice());
    assert!(rt; served(alloc, 1, 3)?.is_empty());
    Ok(())
}
