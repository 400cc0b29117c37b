ghost use Rattle.std.specs.Prelude.{◌≡◌, IfOk};

use ndc_event::{Name, OutOfMemory};
use std::alloc::Global;
use std::collections::BTreeSet;
use std::marker::Model;

/// Some workflows, each as its domain and its name. Seen as their list, in order.
#[derive(Drop)]
pub(crate) struct Listing {
    set: BTreeSet<(Name, Name)>,
}

impl Model for Listing {
    ghost use Rattle.std.specs.Prelude.{List};
    ghost use Rattle.ndc_event.specs.declared.name.Name.{Name};

    ghost Value = { List (Name × Name) };

    ghost view = { λ listing. listing.set.keys };
}

/// The same names.
fn copy_of(names: &(Name, Name)) -> Result<(Name, Name), OutOfMemory>
    ensures { IfOk result (λ copy. copy ≡ names.now) }
{
    Ok((names.0.try_copy()?, names.1.try_copy()?))
}

impl Listing {
    ghost use Rattle.std.specs.Prelude.{◌≡◌, ◌||◌, ◌&&◌, ◌==◌, not, [], length, IfOk, OnOk, OnErr};
    ghost use Rattle.std.specs.List.Sorted.{IsStrictlySortedBy};
    ghost use Rattle.ndc_event.specs.declared.name.Name.{Name as Text};
    ghost use Rattle.ndc_shard_workflows.specs.Due.{is_listed, is_named, names_order};

    /// There is no workflow.
    pub(crate) fn new(alloc: Global) -> Listing
        ensures { result ≡ [] }
    {
        Listing {
            set: BTreeSet::new(alloc),
        }
    }

    /// Whether there is no workflow.
    pub(crate) fn is_empty(&self) -> bool
        ensures { result ≡ (length self.now == 0) }
    {
        self.set.is_empty()
    }

    /// Puts a workflow to its place, where it is not there.
    pub(crate) fn put(&mut self, domain: &Name, workflow: &Name) -> Result<(), OutOfMemory>
        ensures ok { OnOk result
            ((d w : Text) → is_listed d w self.new
            ≡ (is_named d w (domain.now, workflow.now) || is_listed d w self.old)) }
        ensures err { OnErr result (self.new ≡ self.old) }
    {
        self.set.insert((domain.try_copy()?, workflow.try_copy()?))?;
        Ok(())
    }

    /// Takes a workflow out, where it is there.
    pub(crate) fn take(&mut self, domain: &Name, workflow: &Name) -> Result<(), OutOfMemory>
        ensures ok { OnOk result
            ((d w : Text) → is_listed d w self.new
            ≡ (not (is_named d w (domain.now, workflow.now)) && is_listed d w self.old)) }
        ensures err { OnErr result (self.new ≡ self.old) }
    {
        let names = (domain.try_copy()?, workflow.try_copy()?);
        self.set.remove(&names);
        Ok(())
    }

    /// The workflows, in order.
    pub(crate) fn list(&self, alloc: Global) -> Result<Vec<(Name, Name)>, OutOfMemory>
        ensures list { IfOk result (λ list. list.items ≡ self.now) }
        ensures ordered { IsStrictlySortedBy names_order self.now }
    {
        let mut list = Vec::with_capacity(alloc, self.set.len())?;
        for names in self.set.iter() {
            list.push(copy_of(names)?)?;
        }
        Ok(list)
    }
}
