use std::alloc::{AllocError, AllocFailed};
use thiserror::Error;

/// Why a cluster refuses a command, or another line that writes, in the order in which the reasons are
/// tested. The last one is a reset's alone, which tests it before the limit.
#[derive(Clone, Copy, Debug, PartialEq, Eq)]
pub enum Refusal {
    /// The cluster has no record of the domain.
    UnknownDomain,
    /// The version of the domain's record, which is carried, is another cluster's.
    NotActive { version: u64 },
    /// A learned batch of the workflow has a version above the record's; the greatest is carried.
    Behind { version: u64 },
    /// The workflow has no run.
    NoWorkflow,
    /// A start, and the current run is open.
    AlreadyRunning,
    /// The run is closed.
    Closed,
    /// A decision is needed, and none is pending.
    NoDecision,
    /// The decision is scheduled and has not started.
    DecisionNotStarted,
    /// The decision has started.
    DecisionStarted,
    /// No activity of this name is pending.
    NoSuchActivity,
    /// The activity has not started.
    ActivityNotStarted,
    /// The activity has started.
    ActivityStarted,
    /// An activity of this name is pending.
    DuplicateActivity,
    /// No timer of this name is pending.
    NoSuchTimer,
    /// A timer of this name is pending.
    DuplicateTimer,
    /// No child of this name is pending.
    NoSuchChild,
    /// The child has not started.
    ChildNotStarted,
    /// The child has started.
    ChildStarted,
    /// A child of this name is pending.
    DuplicateChild,
    /// The new events would take the run's history above the limit.
    HistoryFull,
    /// The history has no completed decision with this id.
    NoSuchPoint,
}

/// Why a command is not planned.
#[derive(Clone, Copy, Debug, PartialEq, Eq, Error)]
pub enum CommandError {
    /// The command is refused; the refusal is the first that holds.
    #[error("the command is refused: {0:?}")]
    Refused(Refusal),
    #[error("out of memory")]
    Memory,
}

impl From<AllocError> for CommandError {
    ghost use Rattle.std.specs.Prelude.{◌≡◌};
    ghost use Rattle.ndc_command.specs.declared.refusal.CommandError.TheVariants.{Memory};

    ghost from_gives = { λ _ e. e ≡ Memory };

    fn from(_error: AllocError) -> CommandError {
        CommandError::Memory
    }
}

impl<T: Drop> From<AllocFailed<T>> for CommandError {
    ghost use Rattle.std.specs.Prelude.{◌≡◌};
    ghost use Rattle.ndc_command.specs.declared.refusal.CommandError.TheVariants.{Memory};

    ghost from_gives = { λ _ e. e ≡ Memory };

    fn from(_failed: AllocFailed<T>) -> CommandError {
        CommandError::Memory
    }
}
