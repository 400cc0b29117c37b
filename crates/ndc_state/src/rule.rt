use std::alloc::{AllocError, AllocFailed};
use thiserror::Error;

/// How a run came to its end.
#[derive(Clone, Copy, Debug, PartialEq, Eq)]
pub enum CloseKind {
    /// With a result.
    Completed,
    /// With a reason.
    Failed,
    /// Since it was asked to cancel it.
    Canceled,
    /// From outside.
    Terminated,
    /// It goes on as another run.
    Continued,
}

/// A rule that an event of a run keeps, in the order in which they are tested. An event is tested by one
/// of the last five at most.
#[derive(Clone, Copy, Debug, PartialEq, Eq)]
pub enum Rule {
    /// The event's id is the next one.
    Next,
    /// The event with id 1 is the start, and no other one is.
    Start,
    /// Any other event needs an open run.
    Running,
    /// What a decision writes needs that no decision is pending.
    Decision,
    /// A decision starts once it is scheduled, and ends once it is started.
    Task,
    /// An activity is scheduled, started and ended in turn.
    Activity,
    /// A timer is started, and then fired or canceled.
    Timer,
    /// A child is initiated, started and ended in turn.
    Child,
    /// No signal comes twice.
    Origin,
}

/// Why an event was not applied.
#[derive(Clone, Copy, Debug, PartialEq, Eq, Error)]
pub enum StateError {
    /// The event with this id is forbidden; the rule is the first that forbids it.
    #[error("event {id} is forbidden by the rule {rule:?}")]
    Invalid { id: u64, rule: Rule },
    #[error("out of memory")]
    Memory,
}

impl From<AllocError> for StateError {
    ghost use Rattle.std.specs.Prelude.{◌≡◌};
    ghost use Rattle.ndc_state.specs.declared.rule.StateError.TheVariants.{Memory};

    ghost from_gives = { λ _ e. e ≡ Memory };

    fn from(_error: AllocError) -> StateError {
        StateError::Memory
    }
}

impl<T: Drop> From<AllocFailed<T>> for StateError {
    ghost use Rattle.std.specs.Prelude.{◌≡◌};
    ghost use Rattle.ndc_state.specs.declared.rule.StateError.TheVariants.{Memory};

    ghost from_gives = { λ _ e. e ≡ Memory };

    fn from(_failed: AllocFailed<T>) -> StateError {
        StateError::Memory
    }
}
