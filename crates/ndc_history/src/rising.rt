ghost use Rattle.std.specs.Prelude.{◌≡◌};
ghost use Rattle.ndc_history.specs.History.{last_item};

use crate::item::{AddError, Item};
use ndc_event::OutOfMemory;
use std::alloc::Global;
use std::marker::Model;

/// Items of which ids and versions rise strictly.
#[derive(Debug, Drop)]
pub(crate) struct Rising {
    items: Vec<Item>,
}

impl Model for Rising {
    ghost use Rattle.std.specs.Prelude.{List, IsTrue};
    ghost use Rattle.ndc_history.specs.declared.item.Item.{Item};

    ghost Value = { List Item };

    ghost use Rattle.ndc_history.specs.History.{rises};

    ghost view = { λ rising. rising.items.items };

    ghost invariant = { λ rising. IsTrue (rises rising.items.items) };
}

impl Clone for Rising {
    ghost use Rattle.std.specs.Prelude.{◌≡◌};

    ghost is_clone = { λ rising copy. copy ≡ rising };

    fn clone(&self) -> Result<Rising, OutOfMemory> {
        Ok(Rising {
            items: self.items.clone()?,
        })
    }
}

/// The last item.
fn last_of(items: &[Item]) -> Option<Item>
    ensures { result ≡ last_item items.now }
{
    items.last().copied()
}

impl Rising {
    ghost use Rattle.std.specs.Prelude.{◌≡◌, ◌∷◌, [], IsTrue, IfOk, OnErr};
    ghost use Rattle.ndc_event.specs.Outcome.{Gives};
    ghost use Rattle.ndc_history.specs.declared.item.AddError.TheVariants.{Memory};
    ghost use Rattle.ndc_history.specs.History.{rises, added, is_last, last_item};
    ghost use Rattle.ndc_history.specs.Common.{common_of};

    /// These items.
    pub(crate) fn of(items: Vec<Item>) -> Rising
        requires { IsTrue (rises items.items) }
        ensures { result ≡ items.items }
    {
        Rising { items }
    }

    /// The item alone.
    pub(crate) fn one(alloc: Global, item: Item) -> Result<Rising, OutOfMemory>
        ensures { IfOk result (λ rising. rising ≡ item ∷ []) }
    {
        let mut items = Vec::new(alloc);
        items.push(item)?;
        Ok(Rising { items })
    }

    /// The items, in order.
    pub(crate) fn items(&self) -> &[Item]
        ensures items { result.now ≡ self.now }
        ensures rises { IsTrue (rises self.now) }
    {
        self.items.as_slice()
    }

    /// Adds an item after the last: where the version is the last one's, its id is replaced, else the item
    /// goes last. Refused with [`AddError::NotAfter`] where the id is not above the last id or the version is
    /// below the last version. After an error the history is unchanged.
    pub(crate) fn add(&mut self, item: Item) -> Result<(), AddError>
        ensures answer { Gives Memory (λ _. self.new) result (added self.old item) }
        ensures err { OnErr result (self.new ≡ self.old) }
    {
        let Some(last) = last_of(self.items.as_slice()) else {
            self.items.push(item)?;
            return Ok(());
        };
        if item.id <= last.id || item.version < last.version {
            return Err(AddError::NotAfter);
        }
        if item.version == last.version {
            let end = self.items.len() - 1;
            self.items[end] = item;
            return Ok(());
        }
        self.items.push(item)?;
        Ok(())
    }

    /// The greatest version that stands in both histories, with the smaller of the two ids; none where no
    /// version stands in both.
    pub(crate) fn common(&self, other: &Rising) -> Option<Item>
        ensures { result ≡ common_of self.now other.now }
    {
        let one = self.items.as_slice();
        let two = other.items.as_slice();
        let (mut own, mut others) = (one.len(), two.len());
        while own > 0 && others > 0 {
            let (last, other) = (one[own - 1], two[others - 1]);
            if last.version == other.version {
                return Some(Item {
                    id: last.id.min(other.id),
                    version: last.version,
                });
            }
            if last.version < other.version {
                others -= 1;
            } else {
                own -= 1;
            }
        }
        None
    }

    /// Whether the item is the last one, so that what follows it can be appended.
    pub(crate) fn appendable(&self, item: Item) -> bool
        ensures { result ≡ is_last item (last_item self.now) }
    {
        match last_of(self.items.as_slice()) {
            Some(last) => last.id == item.id && last.version == item.version,
            None => false,
        }
    }
}
