//! Clusters and their versions, and the domain tables that clusters keep.
#![tactic(auto)]

pub mod cluster_laws;
mod clusters;
mod members;
mod merging;
mod record;
mod table;
pub mod table_laws;

pub use clusters::{
    ClusterNo, Clusters, ClustersError, MAX_CLUSTERS, MAX_INCREMENT, MAX_VERSION, VersionLimit,
};
pub use members::Members;
pub use record::{DomainError, DomainRecord, FailoverError, JoinError, RetainError};
pub use table::DomainTable;
