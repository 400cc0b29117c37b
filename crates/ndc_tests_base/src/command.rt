use crate::given::name;
use ndc_command::Action;
use ndc_event::OutOfMemory;
use std::alloc::Global;
use std::test::Fail;

// Id and type of the copy of a child that is to be initiated.
fn copied_child(alloc: Global) -> Result<String, OutOfMemory> {
    let action = Action::Child {
        id: name(alloc, "c1")?,
        workflow_type: name(alloc, "billing")?,
    };
    match action.try_copy()? {
        Action::Child { id, workflow_type } => format!(in alloc; "{id} {workflow_type}"),
        _ => Ok(String::new(alloc)),
    }
}

#[test]
fn an_action_is_copied(rt: HostRuntime) -> Result<(), Fail> {
    assert_eq!(rt; copied_child(rt.alloc())?.as_str(), "c1 billing");
    Ok(())
}
