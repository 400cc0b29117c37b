use crate::given::key;
use ndc_current::pick;
use std::test::Fail;

#[test]
fn the_greatest_key_is_picked(rt: HostRuntime) -> Result<(), Fail> {
    let tips = [key(1, 9), key(3, 2), key(2, 40), key(3, 1)];
    assert_eq!(rt; pick(&tips), Some(1), "by version, then task");
    assert_eq!(rt; pick(&[]), None);
    Ok(())
}
