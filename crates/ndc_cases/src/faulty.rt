//! An indexer of which one call fails.
use ndc_event::OutOfMemory;
use ndc_index::{Indexer, Seen, ToldError};
use std::alloc::Global;

/// An indexer of which one call fails, counted from 1; none where the number is 0.
#[derive(Drop)]
pub struct Faulty {
    at: u64,
    seen: Vec<Seen>,
}

impl Faulty {
    ghost use Rattle.std.specs.Prelude.{◌≡◌, []};

    /// The indexer that was told nothing, and fails at this call.
    pub(crate) fn new(alloc: Global, at: u64) -> Faulty
        ensures { result.seen.items ≡ [] }
    {
        Faulty {
            at,
            seen: Vec::new(alloc),
        }
    }
}

impl Indexer for Faulty {
    ghost use Rattle.std.specs.Prelude.{[], ◌∷◌, codes};

    ghost title = { λ _. codes "faulty" };

    ghost list = { λ faulty. faulty.seen.items };

    ghost failing = { λ faulty. faulty.at ∷ [] };

    ghost text = { λ _. codes "told" };

    fn name(&self) -> &str {
        "faulty"
    }

    fn told(&mut self, seen: &Seen) -> Result<(), ToldError> {
        let count = self.seen.len() as u64;
        if count < self.at && self.at - count == 1 {
            return Err(ToldError::Failed);
        }
        self.seen.push(seen.try_copy()?)?;
        Ok(())
    }

    fn line(&self, into: &mut Vec<u8>) -> Result<(), OutOfMemory> {
        into.extend_from_slice(b"told".as_slice())
    }
}
