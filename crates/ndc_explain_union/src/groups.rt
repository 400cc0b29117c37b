//! The dumps of each workflow.
ghost use Rattle.std.specs.Prelude.{◌≡◌, [], IfOk, unwrap_or};
ghost use Rattle.ndc_explain_union.specs.Groupings.{groups_of, workflow_of};

use crate::taken::Taken;
use indexmap::IndexMap;
use ndc_event::{Items, Name, OutOfMemory};
use std::alloc::Global;
use std::marker::Model;

/// A workflow by its names.
#[derive(PartialEq, Eq, Hash, Drop)]
pub struct WorkflowName {
    /// Its domain.
    pub domain: Name,
    /// The workflow in it.
    pub workflow: Name,
}

/// The workflow that a dump is of.
fn workflow_of(taken: &Taken) -> Result<WorkflowName, OutOfMemory>
    ensures { IfOk result (λ workflow. workflow ≡ workflow_of taken.now) }
{
    let dump = taken.dump();
    Ok(WorkflowName {
        domain: dump.domain.try_copy()?,
        workflow: dump.workflow.try_copy()?,
    })
}

/// The dumps, or none.
fn dumps_or_none(alloc: Global, dumps: Option<Items<Taken>>) -> Vec<Taken>
    ensures { result.items ≡ unwrap_or dumps [] }
{
    match dumps {
        None => Vec::new(alloc),
        Some(dumps) => dumps.into_vec(),
    }
}

/// Workflows, each with its dumps. The map finds a workflow without going over the others.
#[derive(Drop)]
pub struct Groups {
    dumps: IndexMap<WorkflowName, Items<Taken>>,
}

impl Model for Groups {
    ghost use Rattle.ndc_explain_union.specs.Groupings.{Grouped};

    ghost Value = { Grouped };

    ghost view = { λ groups. groups.dumps.entries };
}

impl Groups {
    ghost use Rattle.std.specs.Prelude.{◌≡◌, [], OnOk, IfOk, length, slice_get};
    ghost use Rattle.std.specs.Option.{option_map};
    ghost use Rattle.indexmap.specs.IndexMap.{insert_entry};
    ghost use Rattle.ndc_explain_union.specs.Groupings.{dumps_of, same_workflow, with_taking};

    /// No workflow.
    fn new(alloc: Global) -> Groups
        ensures { result ≡ [] }
    {
        Groups {
            dumps: IndexMap::new(alloc),
        }
    }

    /// How many workflows there are.
    pub fn count(&self) -> usize
        ensures { result ≡ length self.now }
    {
        self.dumps.len()
    }

    /// The workflow at this place, in the order of their first dumps, and its dumps.
    pub fn get(&self, place: usize) -> Option<(&WorkflowName, &[Taken])>
        ensures { option_map (λ group. (group.0.now, group.1.now)) result ≡ slice_get self.now place }
    {
        let (workflow, dumps) = self.dumps.get_index(place)?;
        Some((workflow, dumps.as_slice()))
    }

    /// Takes the dumps of a workflow out, which has none then.
    fn take_dumps(
        &mut self,
        alloc: Global,
        workflow: WorkflowName,
    ) -> Result<Vec<Taken>, OutOfMemory>
        ensures dumps { IfOk result (λ dumps. dumps.items ≡ dumps_of workflow self.old) }
        ensures none { OnOk result (self.new ≡ insert_entry same_workflow self.old workflow []) }
    {
        let before = self.dumps.insert(workflow, Items::new(Vec::new(alloc)))?;
        Ok(dumps_or_none(alloc, before))
    }

    /// Puts a dump after those of its workflow.
    fn add(&mut self, alloc: Global, taken: Taken) -> Result<(), OutOfMemory>
        ensures { OnOk result (self.new ≡ with_taking taken self.old) }
    {
        let workflow = workflow_of(&taken)?;
        let again = workflow_of(&taken)?;
        let mut dumps = self.take_dumps(alloc, workflow)?;
        dumps.push(taken)?;
        self.dumps.insert(again, Items::new(dumps))?;
        Ok(())
    }
}

/// The workflows of dumps, each with its dumps. It takes time of the dumps.
pub fn groups_of(alloc: Global, list: Vec<Taken>) -> Result<Groups, OutOfMemory>
    ensures { IfOk result (λ groups. groups ≡ groups_of list.items) }
{
    let mut groups = Groups::new(alloc);
    for taken in list {
        groups.add(alloc, taken)?;
    }
    Ok(groups)
}
