use crate::records::RecordFault;
use ndc_graceful::{BeginError, ReadyError};
use ndc_node_frames::{Cause, Fault};
use ndc_shard::TryError;
use std::alloc::{AllocError, AllocFailed};
use thiserror::Error;

/// Why a node is not made, in the order in which it is tested.
#[derive(Clone, Copy, Debug, PartialEq, Eq, Error)]
pub enum NodeError {
    #[error("the node is none of the clusters")]
    NoCluster,
    #[error("there are 1 to 64 shards")]
    Shards,
    #[error("the limit of histories is 10 to 204,800")]
    Limit,
    #[error("out of memory")]
    Memory,
}

/// Why a frame is not heard, in the order in which it is tested. But for want of memory nothing has changed.
#[derive(Clone, Copy, Debug, PartialEq, Eq, Error)]
pub enum FrameError {
    /// An earlier call ran out of memory: the node is spent.
    #[error("the node is spent")]
    Spent,
    /// It is greater than the node's bound.
    #[error("the frame is too long")]
    TooLong,
    /// It is the text of no frame: why, and how many bytes there are from there to the end.
    #[error("no frame: {cause}, {left} bytes before the end")]
    Text { cause: Cause, left: usize },
    /// It is for another cluster.
    #[error("the frame is for another node")]
    OtherNode,
    /// Who sends it is none of the clusters, or this one.
    #[error("the frame is from none of the other nodes")]
    UnknownSender,
    /// Its network has other clusters, another increment, limit or number of shards.
    #[error("the frame is of another network")]
    OtherHeader,
    /// It names a shard that there is not, or has not one place for each.
    #[error("the frame has other shards")]
    Shards,
    /// The handover in it is none from its sender to this node.
    #[error("the handover is none from the sender to this node")]
    Handover,
    /// A record in it breaks a rule.
    #[error("{0}")]
    Record(RecordFault),
    /// Memory ran out: the node is spent.
    #[error("out of memory")]
    Memory,
}

impl From<Fault> for FrameError {
    fn from(fault: Fault) -> FrameError {
        match fault {
            Fault::At { cause, left } => FrameError::Text { cause, left },
            Fault::Memory => FrameError::Memory,
        }
    }
}

impl From<AllocError> for FrameError {
    ghost use Rattle.std.specs.Prelude.{◌≡◌};
    ghost use Rattle.ndc_node.specs.declared.error.FrameError.TheVariants.{Memory};

    ghost from_gives = { λ _ e. e ≡ Memory };

    fn from(_error: AllocError) -> FrameError {
        FrameError::Memory
    }
}

impl<T: Drop> From<AllocFailed<T>> for FrameError {
    fn from(_error: AllocFailed<T>) -> FrameError {
        FrameError::Memory
    }
}

/// Why a call on a node changes nothing, or, for want of memory, leaves it spent.
#[derive(Clone, Copy, Debug, PartialEq, Eq)]
pub enum CallError<E> {
    /// An earlier call ran out of memory: the node is spent.
    Spent,
    /// Another node knows more of what this node has given out than the node itself: it writes nothing until the others have
    /// sent what it lacks.
    BehindItsPast,
    /// The node was loaded, and not all other nodes have polled since: they would tell what it lacks of its own past.
    Awaiting,
    /// The node may have written to the domain with the version of its record before it lost something. It writes there
    /// again once it has failed over to itself: with a greater version.
    NeedsFailover,
    /// There is no room for more.
    Full,
    /// The call is refused.
    Refused(E),
    /// Memory ran out: the node is spent.
    Memory,
}

impl<E> From<AllocError> for CallError<E> {
    fn from(_error: AllocError) -> CallError<E> {
        CallError::Memory
    }
}

impl<E, T: Drop> From<AllocFailed<T>> for CallError<E> {
    fn from(_error: AllocFailed<T>) -> CallError<E> {
        CallError::Memory
    }
}

/// Why a handover does not begin, or is not completed.
#[derive(Clone, Copy, Debug, PartialEq, Eq, Error)]
pub enum HandError {
    /// One of the domain is open.
    #[error("a handover of the domain is open")]
    StillOpen,
    /// No handover of the domain was told to this node.
    #[error("there is no handover of the domain")]
    NoHandover,
    #[error("{0}")]
    Begin(BeginError),
    #[error("{0}")]
    Ready(ReadyError),
}

/// Why nothing is told of an activity.
#[derive(Clone, Copy, Debug, PartialEq, Eq, Error)]
pub enum ReportError {
    /// The node may not write to the workflow, or no such activity is started.
    #[error("refused: {0:?}")]
    Refused(ndc_command::Refusal),
    /// A report with this greater version is held.
    #[error("a report of version {version} is held")]
    Stale { version: u64 },
}

/// What a write that was tried comes to as a call of the node.
pub(crate) fn of_try(error: TryError) -> CallError<TryError> {
    match error {
        TryError::Full => CallError::Full,
        TryError::NotWritten(ndc_shard::NotWritten::Memory) => CallError::Memory,
        other => CallError::Refused(other),
    }
}
