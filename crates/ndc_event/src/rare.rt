ghost use Rattle.std.specs.Prelude.{◌≡◌, IfOk, None, Option};
ghost use Rattle.std.specs.Option.{option_copied};
ghost use Rattle.ndc_event.specs.Rare.{unboxed};

use crate::OutOfMemory;
use std::alloc::Global;
use std::marker::Model;

/// A value that is mostly absent: it stands in a box, so that its absence takes two words. Seen as the option that it is.
#[derive(Debug)]
pub struct Rare<T: Drop> {
    boxed: Option<Box<T>>,
}

impl<T: Drop> Model for Rare<T> {
    ghost use Rattle.std.specs.Prelude.{Option};
    ghost use Rattle.ndc_event.specs.Rare.{unboxed};

    ghost Value = { Option T };

    ghost view = { λ rare. unboxed rare.boxed };
}

impl<T: Drop> Rare<T> {
    /// No value, without memory.
    pub fn none() -> Rare<T>
        ensures { result ≡ None }
    {
        Rare { boxed: None }
    }

    /// This value, or none. Where there is one, it takes memory for its box.
    pub fn of(alloc: Global, value: Option<T>) -> Result<Rare<T>, OutOfMemory>
        ensures { IfOk result (λ rare. rare ≡ value) }
    {
        let boxed = match value {
            None => None,
            Some(value) => Some(Box::new(alloc, value)?),
        };
        Ok(Rare { boxed })
    }

    /// The value, to be read, where there is one.
    pub fn as_ref(&self) -> Option<&T>
        ensures { option_copied result ≡ self.now }
    {
        match &self.boxed {
            None => None,
            Some(boxed) => Some(boxed),
        }
    }

    /// The value, given back, where there is one.
    pub fn into_option(self) -> Option<T>
        ensures { result ≡ self }
    {
        let Rare { boxed } = self;
        match boxed {
            None => None,
            Some(boxed) => Some(Box::into_inner(boxed)),
        }
    }
}

impl<T: Drop> Drop for Rare<T> {
    fn drop(self) {
        let Rare { boxed } = self;
        drop(boxed);
    }
}

impl<T: Drop + Clone> Clone for Rare<T> {
    ghost use Rattle.ndc_event.specs.Rare.{IsOptionClone};

    ghost is_clone = { IsOptionClone T.is_clone };

    fn clone(&self) -> Result<Rare<T>, OutOfMemory> {
        let boxed = self.boxed.clone()?;
        Ok(Rare { boxed })
    }
}
