use std::alloc::{AllocError, AllocFailed};
use thiserror::Error;

/// The last event id that was written with a version.
#[derive(Clone, Copy, Debug, PartialEq, Eq)]
pub struct Item {
    /// The event id, counted from 1.
    pub id: u64,
    /// The version.
    pub version: u64,
}

/// Why an item was not added to a history.
#[derive(Clone, Copy, Debug, PartialEq, Eq, Error)]
pub enum AddError {
    #[error("the item is not behind the last one")]
    NotAfter,
    #[error("out of memory")]
    Memory,
}

impl From<AllocError> for AddError {
    ghost use Rattle.std.specs.Prelude.{◌≡◌};
    ghost use Rattle.ndc_history.specs.declared.item.AddError.TheVariants.{Memory};

    ghost from_gives = { λ _ e. e ≡ Memory };

    fn from(_error: AllocError) -> AddError {
        AddError::Memory
    }
}

impl<T: Drop> From<AllocFailed<T>> for AddError {
    ghost use Rattle.std.specs.Prelude.{◌≡◌};
    ghost use Rattle.ndc_history.specs.declared.item.AddError.TheVariants.{Memory};

    ghost from_gives = { λ _ e. e ≡ Memory };

    fn from(_failed: AllocFailed<T>) -> AddError {
        AddError::Memory
    }
}
