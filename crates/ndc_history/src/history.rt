ghost use Rattle.std.specs.Prelude.{◌≡◌, OnErr};
ghost use Rattle.std.specs.Arc.{arc_value};
ghost use Rattle.ndc_event.specs.Outcome.{Gives};
ghost use Rattle.ndc_history.specs.History.{added};
ghost use Rattle.ndc_history.specs.declared.item.AddError.TheVariants.{Memory};
ghost use Rattle.ndc_history.specs.Common.{best_from, better};

use crate::item::{AddError, Item};
use crate::rising::Rising;
use ndc_event::OutOfMemory;
use std::alloc::Global;
use std::marker::Model;
use std::sync::Arc;

/// The version history of a path: an item for each version on it, in order. Ids and versions rise strictly. Copies share
/// the items.
#[derive(Debug, Drop)]
pub struct VersionHistory {
    alloc: Global,
    shared: Option<Arc<Rising, Global>>,
}

impl Model for VersionHistory {
    ghost use Rattle.std.specs.Prelude.{List};
    ghost use Rattle.ndc_history.specs.declared.item.Item.{Item};

    ghost Value = { List Item };

    ghost use Rattle.ndc_history.specs.Shared.{items_shared};

    ghost view = { λ history. items_shared history.shared };
}

impl VersionHistory {
    ghost use Rattle.std.specs.Prelude.{◌≡◌, [], IsTrue, IfOk, OnErr};
    ghost use Rattle.ndc_event.specs.Outcome.{Gives};
    ghost use Rattle.ndc_history.specs.declared.item.AddError.TheVariants.{Memory};
    ghost use Rattle.ndc_history.specs.History.{rises, added, is_last, last_item};
    ghost use Rattle.ndc_history.specs.Common.{common_of};

    /// A history of no version.
    pub fn new(alloc: Global) -> VersionHistory
        ensures { result ≡ [] }
    {
        VersionHistory {
            alloc,
            shared: None,
        }
    }

    /// The history of these items, whose ids and versions rise strictly.
    pub fn of(alloc: Global, items: Vec<Item>) -> Result<VersionHistory, OutOfMemory>
        requires { IsTrue (rises items.items) }
        ensures { IfOk result (λ history. history ≡ items.items) }
    {
        let shared = Arc::new(alloc, Rising::of(items))?;
        Ok(VersionHistory {
            alloc,
            shared: Some(shared),
        })
    }

    /// The items, in order.
    pub fn items(&self) -> &[Item]
        ensures items { result.now ≡ self.now }
        ensures rises { IsTrue (rises self.now) }
    {
        match &self.shared {
            None => &[],
            Some(shared) => shared.items(),
        }
    }

    /// Adds an item after the last: where the version is the last one's, its id is replaced, else the item
    /// goes last. Refused with [`AddError::NotAfter`] where the id is not above the last id or the version is
    /// below the last version. After an error the history is unchanged.
    pub fn add(&mut self, item: Item) -> Result<(), AddError>
        ensures answer { Gives Memory (λ _. self.new) result (added self.old item) }
        ensures err { OnErr result (self.new ≡ self.old) }
    {
        if let Some(shared) = &mut self.shared {
            return add_to(shared, item);
        }
        let first = Rising::one(self.alloc, item)?;
        self.shared = Some(Arc::new(self.alloc, first)?);
        Ok(())
    }

    /// The greatest version that stands in both histories, with the smaller of the two ids; none where no
    /// version stands in both.
    pub fn common(&self, other: &VersionHistory) -> Option<Item>
        ensures { result ≡ common_of self.now other.now }
    {
        let Some(one) = &self.shared else {
            return None;
        };
        let Some(two) = &other.shared else {
            return None;
        };
        one.common(two)
    }

    /// Whether the item is the last one, so that what follows it can be appended.
    pub fn appendable(&self, item: Item) -> bool
        ensures { result ≡ is_last item (last_item self.now) }
    {
        match &self.shared {
            None => false,
            Some(shared) => shared.appendable(item),
        }
    }

    /// The same history, over the same items: in the same time for any number of them.
    pub fn try_copy(&self) -> Result<VersionHistory, OutOfMemory>
        ensures { IfOk result (λ copy. copy ≡ self.now) }
    {
        let shared = match &self.shared {
            None => None,
            Some(shared) => Some(Arc::try_clone(shared)?),
        };
        Ok(VersionHistory {
            alloc: self.alloc,
            shared,
        })
    }
}

/// Adds an item to items that may be shared: a copy of its own then.
fn add_to(shared: &mut Arc<Rising, Global>, item: Item) -> Result<(), AddError>
    ensures answer { Gives Memory (λ _. arc_value shared.new) result
        (added (arc_value shared.old) item) }
    ensures err { OnErr result (arc_value shared.new ≡ arc_value shared.old) }
{
    let items = Arc::make_mut(shared)?;
    items.add(item)
}

/// What a place has in common, or what a later place has with a greater id.
fn better(place: usize, item: Option<Item>, later: Option<(usize, Item)>) -> Option<(usize, Item)>
    ensures { result ≡ better place item later }
{
    match (item, later) {
        (None, later) => later,
        (Some(item), None) => Some((place, item)),
        (Some(item), Some(later)) => {
            if item.id < later.1.id {
                Some(later)
            } else {
                Some((place, item))
            }
        }
    }
}

/// The place of the local history whose common item with the remote one has the greatest id, the first at a
/// tie, with that item; none where no place has a common item.
pub fn best_common(local: &[VersionHistory], remote: &VersionHistory) -> Option<(usize, Item)>
    ensures { result ≡ best_from 0 local.now remote.now }
{
    let mut best = None;
    let mut place = local.len();
    while place > 0 {
        place -= 1;
        best = better(place, local[place].common(remote), best);
    }
    best
}
