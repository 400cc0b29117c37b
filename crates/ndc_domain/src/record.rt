ghost use Rattle.std.specs.Prelude.{◌≡◌};

use crate::members::Members;
use ndc_event::{Name, OutOfMemory};
use std::alloc::{AllocError, AllocFailed};
use thiserror::Error;

/// What a cluster knows of a domain.
#[derive(Debug, Drop)]
pub struct DomainRecord {
    /// The domain's name.
    pub name: Name,
    /// The failover version; its writer is the domain's active cluster.
    pub version: u64,
    /// How often the configuration was changed.
    pub config: u64,
    /// How long closed workflows are kept, in days.
    pub days: u32,
    /// The clusters that receive the domain's batches.
    pub members: Members,
}

impl DomainRecord {
    ghost use Rattle.std.specs.Prelude.{◌≡◌, IfOk};
    ghost use Rattle.ndc_domain.specs.Records.{record_eq};

    /// The same record.
    pub fn try_copy(&self) -> Result<DomainRecord, OutOfMemory>
        ensures { IfOk result (λ copy. copy ≡ self.now) }
    {
        Ok(DomainRecord {
            name: self.name.try_copy()?,
            version: self.version,
            config: self.config,
            days: self.days,
            members: self.members,
        })
    }

    /// Whether the other record says the same.
    pub fn is_same(&self, other: &DomainRecord) -> bool
        ensures { result ≡ record_eq self.now other.now }
    {
        self.name == other.name
            && self.version == other.version
            && self.config == other.config
            && self.days == other.days
            && self.members == other.members
    }
}

/// Why a domain is not registered, in the order in which it is tested.
#[derive(Clone, Copy, Debug, PartialEq, Eq, Error)]
pub enum DomainError {
    #[error("domains are registered at the primary cluster alone")]
    NotPrimary,
    #[error("there is a record of the domain")]
    DomainExists,
    #[error("the target is no cluster")]
    UnknownTarget,
    #[error("the target is no member of the domain")]
    NotMember,
    #[error("out of memory")]
    Memory,
}

impl From<AllocError> for DomainError {
    ghost use Rattle.std.specs.Prelude.{◌≡◌};
    ghost use Rattle.ndc_domain.specs.declared.record.DomainError.TheVariants.{Memory};

    ghost from_gives = { λ _ e. e ≡ Memory };

    fn from(_error: AllocError) -> DomainError {
        DomainError::Memory
    }
}

impl<T: Drop> From<AllocFailed<T>> for DomainError {
    ghost use Rattle.std.specs.Prelude.{◌≡◌};
    ghost use Rattle.ndc_domain.specs.declared.record.DomainError.TheVariants.{Memory};

    ghost from_gives = { λ _ e. e ≡ Memory };

    fn from(_failed: AllocFailed<T>) -> DomainError {
        DomainError::Memory
    }
}

/// Why a domain's days are not replaced, in the order in which it is tested.
#[derive(Clone, Copy, Debug, PartialEq, Eq, Error)]
pub enum RetainError {
    #[error("domains are changed at the primary cluster alone")]
    NotPrimary,
    #[error("there is no record of the domain")]
    UnknownDomain,
}

/// Why a domain is not failed over, in the order in which it is tested.
#[derive(Clone, Copy, Debug, PartialEq, Eq, Error)]
pub enum FailoverError {
    #[error("there is no record of the domain")]
    UnknownDomain,
    #[error("the target is no cluster")]
    UnknownTarget,
    #[error("the next version is above 10^13")]
    VersionLimit,
    #[error("the target is no member of the domain")]
    NotMember,
}

/// Why a cluster does not join a domain, in the order in which it is tested.
#[derive(Clone, Copy, Debug, PartialEq, Eq, Error)]
pub enum JoinError {
    #[error("clusters join a domain at the primary cluster alone")]
    NotPrimary,
    #[error("there is no record of the domain")]
    UnknownDomain,
    #[error("the cluster is a member of the domain")]
    MemberExists,
}
