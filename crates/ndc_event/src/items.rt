ghost use Rattle.std.specs.Prelude.{◌≡◌, List};

use crate::OutOfMemory;
use std::marker::Model;

/// A list of things, in order: its value is the list of them.
#[derive(Debug)]
pub struct Items<T: Drop> {
    items: Vec<T>,
}

impl<T: Drop> Model for Items<T> {
    ghost Value = { List T };

    ghost view = { λ items. items.items.items };
}

impl<T: Drop> Items<T> {
    /// The list of these things.
    pub fn new(items: Vec<T>) -> Items<T>
        ensures { result ≡ items.items }
    {
        Items { items }
    }

    /// The things, to be read.
    pub fn as_slice(&self) -> &[T]
        ensures { result.now ≡ self.now }
    {
        self.items.as_slice()
    }

    /// The things, given back.
    pub fn into_vec(self) -> Vec<T>
        ensures { result.items ≡ self }
    {
        let Items { items } = self;
        items
    }
}

impl<T: Drop> Drop for Items<T> {
    fn drop(self) {
        let Items { items } = self;
        drop(items);
    }
}

impl<T: Drop + Clone> Clone for Items<T> {
    ghost use Rattle.std.specs.List.{AllZip};

    ghost is_clone = { λ items copies. AllZip T.is_clone items copies };

    fn clone(&self) -> Result<Items<T>, OutOfMemory> {
        let items = self.items.clone()?;
        Ok(Items { items })
    }
}
