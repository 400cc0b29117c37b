ghost use Rattle.std.specs.Prelude.{◌≡◌, map, IfOk};
ghost use Rattle.std.specs.Map.{keys_of};

use crate::listing::Listing;
use ndc_event::{Name, OutOfMemory};
use std::alloc::Global;
use std::collections::BTreeMap;
use std::marker::Model;

/// Some workflows by domain, each domain with those of it. Seen as the list of all, each as its domain and its name, in
/// order.
pub(crate) struct DueListing {
    alloc: Global,
    domains: BTreeMap<Name, Listing>,
}

impl Model for DueListing {
    ghost use Rattle.std.specs.Prelude.{List};
    ghost use Rattle.ndc_event.specs.declared.name.Name.{Name};
    ghost use Rattle.ndc_shard_workflows.specs.ByDomain.{all_listed, AreByDomain};

    ghost Value = { List (Name × Name) };

    ghost view = { λ listing. all_listed listing.domains.entries };

    ghost invariant = { λ listing. AreByDomain listing.domains.entries };
}

impl Drop for DueListing {
    fn drop(self) {
        let DueListing {
            alloc: _alloc,
            domains: _domains,
        } = self;
    }
}

/// The names of these domains, in order.
fn names_of(alloc: Global, domains: &BTreeMap<Name, Listing>) -> Result<Vec<Name>, OutOfMemory>
    ensures { IfOk result (λ names. names.items ≡ keys_of domains.now.entries) }
{
    let mut names = Vec::with_capacity(alloc, domains.len())?;
    for name in domains.keys() {
        names.push(name.try_copy()?)?;
    }
    Ok(names)
}

impl DueListing {
    ghost use Rattle.std.specs.Prelude.{◌≡◌, ◌||◌, ◌&&◌, ◌==◌, not, [], false, length, IfOk, OnOk, OnErr};
    ghost use Rattle.std.specs.List.{list_any};
    ghost use Rattle.std.specs.List.Sorted.{IsStrictlySortedBy};
    ghost use Rattle.std.specs.Str.{bytes_eq};
    ghost use Rattle.ndc_domain.specs.Records.{names_cmp};
    ghost use Rattle.ndc_event.specs.declared.name.Name.{Name as Text};
    ghost use Rattle.ndc_shard_workflows.specs.ByDomain.{AreThoseOf};
    ghost use Rattle.ndc_shard_workflows.specs.Due.{is_listed, is_named};

    /// There is no workflow.
    pub(crate) fn new(alloc: Global) -> DueListing
        ensures { result ≡ [] }
    {
        DueListing {
            alloc,
            domains: BTreeMap::new(alloc),
        }
    }

    /// Whether there is no workflow.
    pub(crate) fn is_empty(&self) -> bool
        ensures { result ≡ (length self.now == 0) }
    {
        self.domains.len() == 0
    }

    /// Puts a workflow to its place, where it is not there.
    pub(crate) fn put(&mut self, domain: &Name, workflow: &Name) -> Result<(), OutOfMemory>
        ensures ok { OnOk result
            ((d w : Text) → is_listed d w self.new
            ≡ (is_named d w (domain.now, workflow.now) || is_listed d w self.old)) }
        ensures err { OnErr result (self.new ≡ self.old) }
    {
        if let Some(listing) = self.domains.get_mut(domain) {
            return listing.put(domain, workflow);
        }
        let name = domain.try_copy()?;
        let mut listing = Listing::new(self.alloc);
        listing.put(domain, workflow)?;
        self.domains.insert(name, listing)?;
        Ok(())
    }

    /// Takes a workflow out, where it is there. A domain of which none is left goes with it.
    pub(crate) fn take(&mut self, domain: &Name, workflow: &Name) -> Result<(), OutOfMemory>
        ensures ok { OnOk result
            ((d w : Text) → is_listed d w self.new
            ≡ (not (is_named d w (domain.now, workflow.now)) && is_listed d w self.old)) }
        ensures err { OnErr result (self.new ≡ self.old) }
    {
        let Some(listing) = self.domains.get_mut(domain) else {
            return Ok(());
        };
        listing.take(domain, workflow)?;
        if !listing.is_empty() {
            return Ok(());
        }
        self.domains.remove(domain);
        Ok(())
    }

    /// The domains of the workflows, in order. In time of these domains, however many workflows they have.
    pub(crate) fn domains(&self, alloc: Global) -> Result<Vec<Name>, OutOfMemory>
        ensures ordered { IfOk result (λ names. IsStrictlySortedBy names_cmp names.items) }
        ensures each { IfOk result (λ names.
            (d w : Text) → list_any (bytes_eq d) names.items ≡ false → is_listed d w self.now
            ≡ false) }
    {
        names_of(alloc, &self.domains)
    }

    /// The workflows of a domain, in order. In time of these, and of one look-up.
    pub(crate) fn of_domain(
        &self,
        alloc: Global,
        domain: &Name,
    ) -> Result<Vec<(Name, Name)>, OutOfMemory>
        ensures { IfOk result (λ list. AreThoseOf domain.now list.items self.now) }
    {
        match self.domains.get(domain) {
            Some(listing) => listing.list(alloc),
            None => Ok(Vec::new(alloc)),
        }
    }
}
