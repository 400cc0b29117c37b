use ndc_event::BatchKey;
use ndc_history::Item;
use std::alloc::{AllocError, AllocFailed};
use thiserror::Error;

/// What became of a batch that was handed in.
#[derive(Clone, Copy, Debug, PartialEq, Eq)]
pub enum Inserted {
    /// An equal batch was there.
    Known,
    /// It goes on from a tip, or is the first; it is the tip of this branch.
    Extended { branch: BatchKey },
    /// It hangs below a batch that had a child, whose last event is this item; it is the tip of a new branch.
    Forked { branch: BatchKey, at: Item },
}

/// Why a batch was not taken in.
#[derive(Clone, Copy, Debug, PartialEq, Eq, Error)]
pub enum TreeError {
    #[error("the parent of batch {key:?} is missing")]
    MissingParent { key: BatchKey },
    #[error("batch {key:?} does not fit the tree")]
    NotWellFormed { key: BatchKey },
    #[error("out of memory")]
    Memory,
}

impl From<AllocError> for TreeError {
    ghost use Rattle.std.specs.Prelude.{◌≡◌};
    ghost use Rattle.ndc_tree.specs.declared.answer.TreeError.TheVariants.{Memory};

    ghost from_gives = { λ _ e. e ≡ Memory };

    fn from(_error: AllocError) -> TreeError {
        TreeError::Memory
    }
}

impl<T: Drop> From<AllocFailed<T>> for TreeError {
    ghost use Rattle.std.specs.Prelude.{◌≡◌};
    ghost use Rattle.ndc_tree.specs.declared.answer.TreeError.TheVariants.{Memory};

    ghost from_gives = { λ _ e. e ≡ Memory };

    fn from(_failed: AllocFailed<T>) -> TreeError {
        TreeError::Memory
    }
}
