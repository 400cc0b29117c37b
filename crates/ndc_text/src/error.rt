use ndc_event::BatchFault;
use std::alloc::{AllocError, AllocFailed};
use thiserror::Error;

/// Why bytes are the text of no batch: the first failure on the way through the text.
#[derive(Clone, Copy, Debug, PartialEq, Eq, Error)]
pub enum TextError {
    /// The bytes are not one JSON value, or it nests deeper than 127.
    #[error("the text is not one JSON value")]
    NotJson,
    /// An object lacks a key.
    #[error("a key is missing")]
    MissingKey,
    /// No object stands where one is wanted, or a member is of another kind: a number that is negative, has a
    /// fraction or an exponent, or is above 2^64 - 1 is one too.
    #[error("a member or an item is of the wrong kind")]
    WrongKind,
    /// An object has a key that does not belong there.
    #[error("there is a key too many")]
    ExtraKey,
    /// An event id or a task is not 1 to 10^12, a version is above 10^13, a text is not a name or not a run's id, or
    /// there is no such kind of event.
    #[error("a member is out of its range")]
    Range,
    /// The batch that was read is written otherwise.
    #[error("the batch is not written in this way")]
    NotCanonical,
    /// The batch that was read has this fault.
    #[error("{0}")]
    Check(BatchFault),
    #[error("out of memory")]
    Memory,
}

impl From<AllocError> for TextError {
    ghost use Rattle.std.specs.Prelude.{◌≡◌};
    ghost use Rattle.ndc_text.specs.declared.error.TextError.TheVariants.{Memory};

    ghost from_gives = { λ _ e. e ≡ Memory };

    fn from(_error: AllocError) -> TextError {
        TextError::Memory
    }
}

impl<T: Drop> From<AllocFailed<T>> for TextError {
    ghost use Rattle.std.specs.Prelude.{◌≡◌};
    ghost use Rattle.ndc_text.specs.declared.error.TextError.TheVariants.{Memory};

    ghost from_gives = { λ _ e. e ≡ Memory };

    fn from(_error: AllocFailed<T>) -> TextError {
        TextError::Memory
    }
}
