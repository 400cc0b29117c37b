use ndc_event::BatchKey;
use ndc_state::{Rule, StateError};
use ndc_tree::TreeError;
use std::alloc::{AllocError, AllocFailed};
use thiserror::Error;

/// What became of a batch that was handed in.
#[derive(Clone, Copy, Debug, PartialEq, Eq)]
pub enum Learned {
    /// It was taken in. `switched` where the branch that was current is not gone on with by the one that is.
    New { switched: bool },
    /// An equal batch was there.
    Known,
}

/// Why a batch was not taken in.
#[derive(Clone, Copy, Debug, PartialEq, Eq, Error)]
pub enum RunError {
    #[error("the parent of batch {key:?} is missing")]
    MissingParent { key: BatchKey },
    #[error("batch {key:?} does not fit the run")]
    NotWellFormed { key: BatchKey },
    /// The event with this id is forbidden; the rule is the first that forbids it.
    #[error("event {id} is forbidden by the rule {rule:?}")]
    Invalid { id: u64, rule: Rule },
    #[error("out of memory")]
    Memory,
}

impl From<AllocError> for RunError {
    ghost use Rattle.std.specs.Prelude.{◌≡◌};
    ghost use Rattle.ndc_run.specs.declared.answer.RunError.TheVariants.{Memory};

    ghost from_gives = { λ _ e. e ≡ Memory };

    fn from(_error: AllocError) -> RunError {
        RunError::Memory
    }
}

impl<T: Drop> From<AllocFailed<T>> for RunError {
    ghost use Rattle.std.specs.Prelude.{◌≡◌};
    ghost use Rattle.ndc_run.specs.declared.answer.RunError.TheVariants.{Memory};

    ghost from_gives = { λ _ e. e ≡ Memory };

    fn from(_failed: AllocFailed<T>) -> RunError {
        RunError::Memory
    }
}

impl From<StateError> for RunError {
    ghost use Rattle.std.specs.Prelude.{◌≡◌};
    ghost use Rattle.ndc_run.specs.Learning.{of_state_error};

    ghost from_gives = { λ error e. e ≡ of_state_error error };

    fn from(error: StateError) -> RunError {
        match error {
            StateError::Invalid { id, rule } => RunError::Invalid { id, rule },
            StateError::Memory => RunError::Memory,
        }
    }
}

impl From<TreeError> for RunError {
    ghost use Rattle.std.specs.Prelude.{◌≡◌};
    ghost use Rattle.ndc_run.specs.Learning.{of_tree_error};

    ghost from_gives = { λ error e. e ≡ of_tree_error error };

    fn from(error: TreeError) -> RunError {
        match error {
            TreeError::MissingParent { key } => RunError::MissingParent { key },
            TreeError::NotWellFormed { key } => RunError::NotWellFormed { key },
            TreeError::Memory => RunError::Memory,
        }
    }
}
