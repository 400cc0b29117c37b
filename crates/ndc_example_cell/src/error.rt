use ndc_domain::{ClustersError, DomainError, FailoverError};
use ndc_event::NameError;
use std::alloc::{AllocError, AllocFailed};

/// Why the story ends early.
#[derive(Clone, Copy)]
pub(crate) enum StoryError {
    /// A text is not a name.
    Name,
    /// There are no clusters, or too few.
    Clusters,
    /// The domain is not registered.
    Domain,
    /// The domain is not failed over.
    Failover,
    /// The cells are spent, or hold too much.
    Spent,
    /// Memory is wanting.
    Memory,
}

impl StoryError {
    /// What is told of it.
    pub(crate) fn text(self) -> &'static str {
        match self {
            StoryError::Name => "a name is none",
            StoryError::Clusters => "the clusters are none, or too few",
            StoryError::Domain => "the domain is not registered",
            StoryError::Failover => "the domain is not failed over",
            StoryError::Spent => "the cells are spent",
            StoryError::Memory => "out of memory",
        }
    }
}

impl From<AllocError> for StoryError {
    fn from(_error: AllocError) -> StoryError {
        StoryError::Memory
    }
}

impl<T: Drop> From<AllocFailed<T>> for StoryError {
    fn from(_failed: AllocFailed<T>) -> StoryError {
        StoryError::Memory
    }
}

impl From<NameError> for StoryError {
    fn from(_error: NameError) -> StoryError {
        StoryError::Name
    }
}

impl From<ClustersError> for StoryError {
    fn from(_error: ClustersError) -> StoryError {
        StoryError::Clusters
    }
}

impl From<DomainError> for StoryError {
    fn from(_error: DomainError) -> StoryError {
        StoryError::Domain
    }
}

impl From<FailoverError> for StoryError {
    fn from(_error: FailoverError) -> StoryError {
        StoryError::Failover
    }
}
