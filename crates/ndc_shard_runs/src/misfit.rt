use ndc_run::RunError;
use ndc_state::Rule;
use std::alloc::{AllocError, AllocFailed};
use thiserror::Error;

/// Why a batch that comes next, or the one that goes right after it, does not fit what is learned of its workflow.
#[derive(Clone, Copy, Debug, PartialEq, Eq, Error)]
pub enum Misfit {
    /// The parent is not a batch of the run.
    #[error("the parent is of another run")]
    ParentUnfit,
    /// The first event's id is not one past the parent's last, or a batch of the same run and version is not an
    /// ancestor.
    #[error("the ids do not go on from the parent's, or the version is split")]
    IllFormed,
    /// A copied signal names an event that is not an original signal of its name and input: one of the batch names a
    /// learned event, or a learned one names an event of the batch.
    #[error("a copied signal names an event that is not its original")]
    OriginUnfit,
    /// The carrier does not end by continuing as the run that the carried batch begins.
    #[error("the carrier does not continue as the run of what it carries")]
    CarrierUnfit,
    /// The path to the batch does not replay: the event with this id is forbidden, and the rule is the first that forbids
    /// it. [`Rule::Origin`] says that a signal's origin stands twice on the path.
    #[error("event {id} is forbidden by the rule {rule:?}")]
    BadReplay { id: u64, rule: Rule },
    /// Memory is wanting.
    #[error("out of memory")]
    Memory,
}

impl From<AllocError> for Misfit {
    ghost use Rattle.std.specs.Prelude.{◌≡◌};
    ghost use Rattle.ndc_shard_runs.specs.declared.misfit.Misfit.TheVariants.{Memory};

    ghost from_gives = { λ _ e. e ≡ Memory };

    fn from(_error: AllocError) -> Misfit {
        Misfit::Memory
    }
}

impl<T: Drop> From<AllocFailed<T>> for Misfit {
    ghost use Rattle.std.specs.Prelude.{◌≡◌};
    ghost use Rattle.ndc_shard_runs.specs.declared.misfit.Misfit.TheVariants.{Memory};

    ghost from_gives = { λ _ e. e ≡ Memory };

    fn from(_failed: AllocFailed<T>) -> Misfit {
        Misfit::Memory
    }
}

impl From<RunError> for Misfit {
    ghost use Rattle.std.specs.Prelude.{◌≡◌};
    ghost use Rattle.ndc_shard_runs.specs.Fitting.{of_run_error};

    ghost from_gives = { λ error e. e ≡ of_run_error error };

    fn from(error: RunError) -> Misfit {
        match error {
            RunError::MissingParent { .. } => Misfit::ParentUnfit,
            RunError::NotWellFormed { .. } => Misfit::IllFormed,
            RunError::Invalid { id, rule } => Misfit::BadReplay { id, rule },
            RunError::Memory => Misfit::Memory,
        }
    }
}
