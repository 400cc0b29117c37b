use ndc_command::{CommandError, Refusal};
use ndc_shard_workflows::NotWritten;
use std::alloc::{AllocError, AllocFailed};
use thiserror::Error;

/// Why a shard has not written what it was asked to.
#[derive(Clone, Copy, Debug, PartialEq, Eq, Error)]
pub enum ShardError {
    /// It is refused; the refusal is the first that holds.
    #[error("refused: {0:?}")]
    Refused(Refusal),
    #[error("out of memory")]
    Memory,
}

/// Why a shard that nobody vouches for has not written what it was asked to: the first of these that holds.
#[derive(Clone, Copy, Debug, PartialEq, Eq, Error)]
pub enum TryError {
    /// The tasks of what is learned leave no room, or an event of what would be written has an id above 10^12.
    #[error("no room")]
    Full,
    /// It is refused; the refusal is the first that holds.
    #[error("refused: {0:?}")]
    Refused(Refusal),
    /// What would be written is not, because of what has arrived; for want of memory [`NotWritten::Memory`].
    #[error("{0}")]
    NotWritten(NotWritten),
}

impl From<CommandError> for TryError {
    ghost use Rattle.std.specs.Prelude.{◌≡◌};
    ghost use Rattle.ndc_shard.specs.Trying.{as_try_error};

    ghost from_gives = { λ error e. e ≡ as_try_error error };

    fn from(error: CommandError) -> TryError {
        match error {
            CommandError::Refused(refusal) => TryError::Refused(refusal),
            CommandError::Memory => TryError::NotWritten(NotWritten::Memory),
        }
    }
}

impl From<CommandError> for ShardError {
    ghost use Rattle.std.specs.Prelude.{◌≡◌};
    ghost use Rattle.ndc_shard.specs.Answers.{as_shard_error};

    ghost from_gives = { λ error e. e ≡ as_shard_error error };

    fn from(error: CommandError) -> ShardError {
        match error {
            CommandError::Refused(refusal) => ShardError::Refused(refusal),
            CommandError::Memory => ShardError::Memory,
        }
    }
}

impl From<AllocError> for ShardError {
    ghost use Rattle.std.specs.Prelude.{◌≡◌};
    ghost use Rattle.ndc_shard.specs.declared.error.ShardError.TheVariants.{Memory};

    ghost from_gives = { λ _ e. e ≡ Memory };

    fn from(_error: AllocError) -> ShardError {
        ShardError::Memory
    }
}

impl<T: Drop> From<AllocFailed<T>> for ShardError {
    ghost use Rattle.std.specs.Prelude.{◌≡◌};
    ghost use Rattle.ndc_shard.specs.declared.error.ShardError.TheVariants.{Memory};

    ghost from_gives = { λ _ e. e ≡ Memory };

    fn from(_failed: AllocFailed<T>) -> ShardError {
        ShardError::Memory
    }
}
