//! Names, each once.
use indexmap::IndexSet;
use ndc_event::{Name, OutOfMemory};
use std::alloc::Global;
use std::marker::Model;

/// Names in the order in which they came first. The set finds a name without going over the others.
#[derive(Drop)]
pub struct NameSet {
    names: IndexSet<Name>,
}

impl Model for NameSet {
    ghost use Rattle.std.specs.Prelude.{List};
    ghost use Rattle.ndc_event.specs.declared.name.Name.{Name};

    ghost Value = { List Name };

    ghost view = { λ set. set.names.keys };
}

impl NameSet {
    ghost use Rattle.std.specs.Prelude.{◌≡◌, [], OnOk};
    ghost use Rattle.ndc_explain_union.specs.Parts.{with_name};

    /// No name.
    pub(crate) fn new(alloc: Global) -> NameSet
        ensures { result ≡ [] }
    {
        NameSet {
            names: IndexSet::new(alloc),
        }
    }

    /// The names, in order.
    pub fn as_slice(&self) -> &[Name]
        ensures { result.now ≡ self.now }
    {
        self.names.as_slice()
    }

    /// Takes a name in.
    pub(crate) fn insert(&mut self, name: &Name) -> Result<(), OutOfMemory>
        ensures { OnOk result (self.new ≡ with_name name.now self.old) }
    {
        self.names.insert(name.try_copy()?)?;
        Ok(())
    }
}
