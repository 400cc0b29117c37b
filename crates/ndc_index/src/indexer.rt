ghost use Rattle.std.specs.Prelude.{◌≡◌, ◌≢◌, ℕ, true, false, List, [], ◌∷◌, ◌++◌, Err, IsErr, OnErr, OnOk};
ghost use Rattle.ndc_index.specs.Told.{fails_next, text_of};
ghost use Rattle.ndc_index.specs.declared.indexer.ToldError.TheVariants.{Failed};
ghost use Rattle.ndc_index.specs.declared.seen.Seen.{Seen};

use crate::seen::Seen;
use ndc_event::OutOfMemory;
use std::alloc::{AllocError, AllocFailed};
use thiserror::Error;

/// Why an indexer was not told.
#[derive(Clone, Copy, Debug, PartialEq, Eq, Error)]
pub enum ToldError {
    #[error("the indexer has failed")]
    Failed,
    #[error("out of memory")]
    Memory,
}

impl From<AllocError> for ToldError {
    ghost use Rattle.std.specs.Prelude.{◌≡◌};
    ghost use Rattle.ndc_index.specs.declared.indexer.ToldError.TheVariants.{Memory};

    ghost from_gives = { λ _ e. e ≡ Memory };

    fn from(_error: AllocError) -> ToldError {
        ToldError::Memory
    }
}

impl<T: Drop> From<AllocFailed<T>> for ToldError {
    ghost use Rattle.std.specs.Prelude.{◌≡◌};
    ghost use Rattle.ndc_index.specs.declared.indexer.ToldError.TheVariants.{Memory};

    ghost from_gives = { λ _ e. e ≡ Memory };

    fn from(_failed: AllocFailed<T>) -> ToldError {
        ToldError::Memory
    }
}

/// Something that is told of each batch that becomes learned at a cluster, and shows a line of text. It has a name,
/// which never changes; the list of what it was told; the numbers of its calls that fail, counted from 1, which no call
/// changes; and a text of its own.
pub trait Indexer: Drop {
    ghost title: { Self → List ℕ };

    ghost list: { Self → List Seen };

    ghost failing: { Self → List ℕ };

    ghost text: { Self → List ℕ };

    /// The name.
    fn name(&self) -> &str
        ensures { result.now ≡ title self.now };

    /// Is told of a batch, which then goes last in the list. Refused with [`ToldError::Failed`] exactly where the
    /// number of the call is one that fails, with [`ToldError::Memory`] where memory runs out; then the list stays as
    /// it was.
    fn told(&mut self, seen: &Seen) -> Result<(), ToldError>
        ensures told { OnOk result (list self.new ≡ list self.old ++ seen.now ∷ []) }
        ensures unchanged { OnErr result (list self.new ≡ list self.old) }
        ensures fails { fails_next (failing self.old) (list self.old) ≡ true → IsErr result }
        ensures goes_well { fails_next (failing self.old) (list self.old) ≡ false
            → result ≢ Err Failed }
        ensures title { title self.new ≡ title self.old }
        ensures failing { failing self.new ≡ failing self.old };

    /// Appends what it shows: what the indexers `kinds`, `open` and `signals` show of all that they were told; its own
    /// text, where it has another name.
    fn line(&self, into: &mut Vec<u8>) -> Result<(), OutOfMemory>
        ensures { OnOk result (into.new.items
            ≡ into.old.items ++ text_of (title self.now) (text self.now) (list self.now)) };
}

/// What is counted of the events that an indexer is told.
#[derive(Clone, Copy, Debug, PartialEq, Eq)]
pub enum Counted {
    /// Events that begin a run.
    Starts,
    /// Events that close a run.
    Closes,
    /// Signals that are not copies.
    Originals,
    /// Signals that repeat another one.
    Copies,
}
