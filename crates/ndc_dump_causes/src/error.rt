use ndc_event::{BatchFault, BatchKey};
use std::alloc::{AllocError, AllocFailed};
use thiserror::Error;

/// What is wrong with a line of a dump.
#[derive(Clone, Copy, Debug, PartialEq, Eq, Error)]
pub enum LineCause {
    /// The first line is not a heading of a dump, or the second one is not there or begins no batch.
    #[error("the frame of the dump is broken")]
    BadFrame,
    /// The line is not one JSON value, or it nests deeper than 127.
    #[error("the line is not one JSON value")]
    NotJson,
    /// An object of the line lacks a key.
    #[error("a key is missing")]
    MissingKey,
    /// An object of the line has a key that does not belong there.
    #[error("there is a key too many")]
    ExtraKey,
    /// A member or an item is of another kind than is wanted.
    #[error("a member or an item is of the wrong kind")]
    WrongKind,
    /// A number or a text is out of its range.
    #[error("a member is out of its range")]
    Range,
    /// The batch of the line is written otherwise.
    #[error("the batch is not written in this way")]
    NotCanonical,
    /// The batch of the line has this fault.
    #[error("{0}")]
    Check(BatchFault),
    /// The batch is of another domain or workflow than the heading.
    #[error("the batch is of another domain or workflow")]
    Foreign,
    /// The batch has the key of the line before.
    #[error("the batch has the key of the line before")]
    SameKey,
    /// The batch has a key below that of the line before.
    #[error("the batch comes before that of the line before")]
    BadOrder,
    /// The line is not the one that the batches have here, or is missing, or is one too many.
    #[error("the line is not what the batches show")]
    BadView,
}

/// What is wrong with a batch of a dump beside the others.
#[derive(Clone, Copy, Debug, PartialEq, Eq, Error)]
pub enum KeyCause {
    /// The parent is not in the dump.
    #[error("the parent is missing")]
    MissingParent,
    /// The parent is of another run, or does not end just before the batch begins.
    #[error("the batch does not go on from its parent")]
    NotWellFormed,
    /// An earlier batch of the same run and version is not an ancestor.
    #[error("an earlier batch of the same run and version is no ancestor")]
    SplitVersion,
    /// Two signals on the path to the batch have one origin.
    #[error("two signals on the path have one origin")]
    OriginTwice,
    /// A copied signal of the batch names an event of the dump that is not its original.
    #[error("a copied signal names an event that is not its original")]
    OriginUnfit,
    /// An event of the batch is forbidden where its path is replayed.
    #[error("an event is forbidden")]
    BadReplay,
    /// The carrier is not in the dump, or does not end by continuing as the batch's run.
    #[error("the carrier is missing, or does not continue as the run")]
    CarrierUnfit,
}

/// Why bytes are not a dump.
#[derive(Clone, Copy, Debug, PartialEq, Eq, Error)]
pub enum DumpError {
    /// The line with this number, counted from 1, is wrong.
    #[error("line {line}: {cause}")]
    Line { line: u64, cause: LineCause },
    /// The batch with this key is wrong.
    #[error("batch {}.{}: {cause}", key.version, key.task)]
    Key { key: BatchKey, cause: KeyCause },
    #[error("out of memory")]
    Memory,
}

impl From<AllocError> for DumpError {
    ghost use Rattle.std.specs.Prelude.{◌≡◌};
    ghost use Rattle.ndc_dump_causes.specs.declared.error.DumpError.TheVariants.{Memory};

    ghost from_gives = { λ _ e. e ≡ Memory };

    fn from(_error: AllocError) -> DumpError {
        DumpError::Memory
    }
}

impl<T: Drop> From<AllocFailed<T>> for DumpError {
    ghost use Rattle.std.specs.Prelude.{◌≡◌};
    ghost use Rattle.ndc_dump_causes.specs.declared.error.DumpError.TheVariants.{Memory};

    ghost from_gives = { λ _ e. e ≡ Memory };

    fn from(_failed: AllocFailed<T>) -> DumpError {
        DumpError::Memory
    }
}
