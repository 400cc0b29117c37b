use crate::given::item;
use ndc_history::{AddError, Item, VersionHistory};
use std::alloc::Global;
use std::test::Fail;

// The history of these items, as id and version.
fn history(alloc: Global, items: &[(u64, u64)]) -> Result<VersionHistory, AddError> {
    let mut history = VersionHistory::new(alloc);
    for (id, version) in items {
        history.add(item(*id, *version))?;
    }
    Ok(history)
}

#[test]
fn what_is_not_behind_is_refused(rt: HostRuntime) -> Result<(), Fail> {
    let alloc = rt.alloc();
    let mut one = history(alloc, &[(5, 1)])?;
    assert!(rt; one.add(item(5, 1)) == Err(AddError::NotAfter));
    assert_eq!(rt; one.items(), [item(5, 1)].as_slice());
    let (first, second) = (history(alloc, &[(3, 1)])?, history(alloc, &[(2, 2)])?);
    assert_eq!(rt; first.common(&second), None);
    Ok(())
}

#[test]
fn what_follows_the_last_item_is_appendable(rt: HostRuntime) -> Result<(), Fail> {
    let alloc = rt.alloc();
    let two = history(alloc, &[(3, 1), (5, 2)])?;
    // An item, and whether it is the last one of id 5 and version 2.
    for (id, version, want) in [
        (5, 2, true),
        (3, 1, false),
        (5, 1, false),
        (4, 2, false),
        (6, 2, false),
    ] {
        assert_eq!(rt;
            two.appendable(item(id, version)),
            want,
            "{id} of {version}"
        );
    }
    assert!(rt; !VersionHistory::new(alloc).appendable(item(5, 2)));
    Ok(())
}
