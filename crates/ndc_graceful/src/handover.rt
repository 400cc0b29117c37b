ghost use Rattle.std.specs.Prelude.{◌≡◌, length};
ghost use Rattle.ndc_model_cells.specs.Writing.{is_writer};
ghost use Rattle.ndc_domain.specs.Clusters.{writer_of};
ghost use Rattle.ndc_domain.specs.Records.{record_of};
ghost use Rattle.ndc_graceful.specs.Ready.{lagging_from, not_below};

use ndc_domain::{ClusterNo, Clusters, DomainTable, FailoverError};
use ndc_event::{Items, Name, OutOfMemory};
use ndc_queue::Levels;
use std::alloc::{AllocError, AllocFailed};
use thiserror::Error;

/// A place for each shard, in order: how far a queue is to be done there.
pub type Places = Items<u64>;

/// A handover of a domain that is open: from the cluster that was active to the one that is to be.
#[derive(Debug, Drop)]
pub struct Handover {
    /// The domain that is handed over.
    pub domain: Name,
    /// The cluster that was active.
    pub from: ClusterNo,
    /// The cluster that is to be active.
    pub to: ClusterNo,
    /// The version of the record before the handover.
    pub old: u64,
    /// The version that the handover has given the record.
    pub new: u64,
    /// For each shard how far the target is to be done with the queue of the cluster that was active.
    pub places: Places,
}

/// Whether the cluster is the writer of the version.
fn is_own(clusters: &Clusters, at: ClusterNo, version: u64) -> bool
    ensures { result ≡ is_writer at (writer_of clusters.now version) }
{
    match clusters.writer_of(version) {
        Some(writer) => writer.number == at.number,
        None => false,
    }
}

/// The version of the record of a domain, where it is not below another one.
fn version_not_below(table: &DomainTable, domain: &Name, new: u64) -> Option<u64>
    ensures { result ≡ not_below new (record_of table.now domain.now) }
{
    let record = table.find(domain)?;
    if record.version < new {
        None
    } else {
        Some(record.version)
    }
}

/// Whether each shard is done up to its place; or the first one that is not.
fn lagging(places: &[u64], levels: &[Levels]) -> Result<(), ReadyError>
    requires { length levels.now ≡ length places.now }
    ensures { result ≡ lagging_from 0 places.now levels.now }
{
    for shard in 0..places.len() {
        let (place, level) = (places[shard], &levels[shard]);
        let done = level.done;
        if done < place {
            let shard = shard as u64;
            return Err(ReadyError::NotYet { shard, done, place });
        }
    }
    Ok(())
}

impl Handover {
    ghost use Rattle.std.specs.Prelude.{◌≡◌, length, IfOk, OnErr};
    ghost use Rattle.ndc_event.specs.Outcome.{Gives};
    ghost use Rattle.ndc_graceful.specs.Begin.{begin_of};
    ghost use Rattle.ndc_graceful.specs.Ready.{ready_of};
    ghost use Rattle.ndc_graceful.specs.declared.handover.BeginError.TheVariants.{Memory};

    /// Begins a handover of a domain at cluster `at`, which is to be its active one: the record fails over to the
    /// target, and the handover keeps both versions and the places given. Refused with
    /// [`BeginError::UnknownDomain`] where there is no record of the name, then [`BeginError::NotActive`] where the
    /// writer of the record's version is not `at`, [`BeginError::VersionLimit`] where the new version would be
    /// above 10^13, and [`BeginError::NotMember`] where the record does not name the target; a target that is not
    /// below the count of the clusters is not a member. [`BeginError::Memory`] where memory runs out. Where it is
    /// refused, the table stays as it was.
    #[tactic(auto, unfolding(crate::specs::Begin::begin_of))]
    pub fn begin(
        table: &mut DomainTable,
        clusters: &Clusters,
        at: ClusterNo,
        name: &Name,
        to: ClusterNo,
        places: Vec<u64>,
    ) -> Result<Handover, BeginError>
        ensures answer { Gives Memory (λ handover. (handover, table.new)) result
            (begin_of clusters.now at name.now to places.items table.old) }
        ensures unchanged { OnErr result (table.new ≡ table.old) }
    {
        let Some(record) = table.find(name) else {
            return Err(BeginError::UnknownDomain);
        };
        let old = record.version;
        if !is_own(clusters, at, old) {
            return Err(BeginError::NotActive { version: old });
        }
        let domain = name.try_copy()?;
        let new = table.failover(clusters, name, to)?;
        Ok(Handover {
            domain,
            from: at,
            to,
            old,
            new,
            places: Places::new(places),
        })
    }

    /// Whether the handover can be completed, by the target's levels of each shard's queue, by whether the domain
    /// is one of which it came to be a member late, and by its table. Refused with [`ReadyError::Overtaken`] where
    /// the target's record has a version not below the new one, then [`ReadyError::BootstrapDue`] where it is
    /// late, and [`ReadyError::NotYet`] for the first shard that is not done up to its place. Takes no memory.
    /// There is one `Levels` a place.
    #[tactic(auto, unfolding(crate::specs::Ready::ready_of))]
    pub fn ready(
        &self,
        levels: &[Levels],
        late: bool,
        table: &DomainTable,
    ) -> Result<(), ReadyError>
        requires alike { length levels.now ≡ length self.now.places }
        ensures { result ≡ ready_of self.now levels.now late table.now }
    {
        if let Some(version) = version_not_below(table, &self.domain, self.new) {
            return Err(ReadyError::Overtaken { version });
        }
        if late {
            return Err(ReadyError::BootstrapDue);
        }
        lagging(self.places.as_slice(), levels)
    }

    /// The same handover.
    pub fn try_copy(&self) -> Result<Handover, OutOfMemory>
        ensures { IfOk result (λ copy. copy ≡ self.now) }
    {
        Ok(Handover {
            domain: self.domain.try_copy()?,
            from: self.from,
            to: self.to,
            old: self.old,
            new: self.new,
            places: self.places.clone()?,
        })
    }
}

/// Why a handover does not begin, in the order in which it is tested.
#[derive(Clone, Copy, Debug, PartialEq, Eq, Error)]
pub enum BeginError {
    #[error("there is no record of the domain")]
    UnknownDomain,
    #[error("the domain's version {version} is not one of the cluster's own")]
    NotActive { version: u64 },
    #[error("the next version is above 10^13")]
    VersionLimit,
    #[error("the target is no member of the domain")]
    NotMember,
    #[error("out of memory")]
    Memory,
}

impl From<AllocError> for BeginError {
    ghost use Rattle.std.specs.Prelude.{◌≡◌};
    ghost use Rattle.ndc_graceful.specs.declared.handover.BeginError.TheVariants.{Memory};

    ghost from_gives = { λ _ e. e ≡ Memory };

    fn from(_error: AllocError) -> BeginError {
        BeginError::Memory
    }
}

impl<T: Drop> From<AllocFailed<T>> for BeginError {
    ghost use Rattle.std.specs.Prelude.{◌≡◌};
    ghost use Rattle.ndc_graceful.specs.declared.handover.BeginError.TheVariants.{Memory};

    ghost from_gives = { λ _ e. e ≡ Memory };

    fn from(_failed: AllocFailed<T>) -> BeginError {
        BeginError::Memory
    }
}

impl From<FailoverError> for BeginError {
    ghost use Rattle.std.specs.Prelude.{◌≡◌};
    ghost use Rattle.ndc_graceful.specs.Begin.{as_begin_error};

    ghost from_gives = { λ refusal e. e ≡ as_begin_error refusal };

    fn from(refusal: FailoverError) -> BeginError {
        match refusal {
            FailoverError::UnknownDomain => BeginError::UnknownDomain,
            FailoverError::UnknownTarget | FailoverError::NotMember => BeginError::NotMember,
            FailoverError::VersionLimit => BeginError::VersionLimit,
        }
    }
}

/// Why a handover can't be completed yet, in the order in which it is tested.
#[derive(Clone, Copy, Debug, PartialEq, Eq, Error)]
pub enum ReadyError {
    #[error("the target's record has come to version {version}")]
    Overtaken { version: u64 },
    #[error("the target has not been brought what was written before it was a member")]
    BootstrapDue,
    #[error("in shard {shard} the target is done up to {done} of {place}")]
    NotYet { shard: u64, done: u64, place: u64 },
}
