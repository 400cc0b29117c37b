use ndc_admission::MessageFault;
use ndc_domain::{ClusterNo, Clusters};
use ndc_event::BatchKey;
use ndc_model_cells::Message;
use ndc_model_sets::Batches;
use ndc_shard_runs::Misfit;
use std::alloc::{AllocError, AllocFailed};
use std::marker::Model;
use thiserror::Error;

/// On what terms a workflow takes messages that nobody vouches for.
#[derive(Drop)]
pub struct Terms<'a> {
    /// All clusters.
    pub clusters: &'a Clusters,
    /// Which of them the cell is of.
    pub me: ClusterNo,
    /// Whether the cell asks for what it lost: then batches of its own versions may come that it has not learned.
    pub recall: bool,
    /// Whether there is room for one more message that waits.
    pub may_wait: bool,
}

impl<'a> Model for Terms<'a> {
    ghost use Rattle.ndc_shard_workflows.specs.Terms.{TermsValue};

    ghost Value = { TermsValue };

    ghost view = { λ terms. record {
      clusters = terms.clusters.now;
      me = terms.me;
      recall = terms.recall;
      may_wait = terms.may_wait;
    } };
}

/// On what terms a whole cell takes messages that nobody vouches for.
#[derive(Drop)]
pub struct CellTerms<'a> {
    /// All clusters.
    pub clusters: &'a Clusters,
    /// Which of them the cell is of.
    pub me: ClusterNo,
    /// Whether the cell asks for what it lost: then batches of its own versions may come that it has not learned.
    pub recall: bool,
    /// How many messages may wait in the cell, in all workflows together.
    pub most_waiting: u64,
}

impl<'a> Model for CellTerms<'a> {
    ghost use Rattle.ndc_shard_workflows.specs.Terms.{CellTermsValue};

    ghost Value = { CellTermsValue };

    ghost view = { λ terms. record {
      clusters = terms.clusters.now;
      me = terms.me;
      recall = terms.recall;
      most_waiting = terms.most_waiting;
    } };
}

impl<'a> CellTerms<'a> {
    ghost use Rattle.std.specs.Prelude.{◌≡◌, nat_lt};

    /// The terms for one workflow, where so many messages wait in the cell.
    pub(crate) fn where_wait(&self, waiting: u64) -> Terms<'a>
        ensures { result ≡ record {
          clusters = self.now.clusters;
          me = self.now.me;
          recall = self.now.recall;
          may_wait = nat_lt waiting self.now.most_waiting;
        } }
    {
        Terms {
            clusters: self.clusters,
            me: self.me,
            recall: self.recall,
            may_wait: waiting < self.most_waiting,
        }
    }
}

/// Why a message is not admitted: the first of these that holds.
#[derive(Clone, Copy, Debug, PartialEq, Eq, Error)]
pub enum NotAdmitted {
    /// It is not one that cells of these clusters send, whatever is learned here.
    #[error("{0}")]
    Fault(MessageFault),
    /// The cell's own cluster writes with the version of its batch, which is not learned here.
    #[error("the batch has a version of this cluster, which has not written it")]
    OwnVersion,
    /// A copied signal in it names an event with a version of the cell's own cluster that is not learned here.
    #[error("a copied signal names an event of this cluster, which has not written it")]
    OwnOrigin,
    /// Another batch stands under the key of its batch, or of the one that it carries.
    #[error("another batch stands under the key {key:?}")]
    Rival {
        key: BatchKey,
        /// Whether that one is put off.
        waits: bool,
    },
    /// Its version history does not end with its batch, or its earlier key is learned, and it is not that of its path.
    #[error("the version history is not that of the batch's path")]
    History,
    /// Its earlier key is learned, and it does not fit what is learned.
    #[error("{0}")]
    Misfit(Misfit),
    /// Its earlier key is not learned, and there is no room for one more message that waits.
    #[error("too much waits")]
    Full,
}

/// Why a batch is not written that a cell would write: the first of these that holds.
#[derive(Clone, Copy, Debug, PartialEq, Eq, Error)]
pub enum NotWritten {
    /// Something stands under the key of the batch, or of the one that goes right after it.
    #[error("a batch stands under the key {key:?}")]
    Rival {
        key: BatchKey,
        /// Whether that one is put off.
        waits: bool,
    },
    /// A message that is put off waits for the batch, or for the one that goes right after it. Its key is the least such one.
    #[error("the batch {key:?} waits for what would be written")]
    Awaited {
        key: BatchKey,
    },
    /// It does not fit what is learned.
    #[error("{0}")]
    Misfit(Misfit),
    /// Memory is wanting.
    #[error("out of memory")]
    Memory,
}

/// A message that was put off and did not fit once what it waited for was learned. It is taken out of what is put off.
#[derive(Drop)]
pub struct SetAside {
    pub message: Message,
    /// Why it does not fit: [`NotAdmitted::History`] or [`NotAdmitted::Misfit`].
    pub cause: NotAdmitted,
}

/// What comes of a message that nobody vouches for.
#[derive(Drop)]
pub enum Admission {
    /// It is not admitted. Nothing changed.
    Refused {
        cause: NotAdmitted,
    },
    /// The same batch has arrived before. Nothing changed.
    Known,
    /// It waits for a batch with this key, its nearest ancestor that has not arrived.
    PutOff {
        missing: BatchKey,
    },
    /// It is learned, and of what waited for it all that fits.
    Learned {
        /// The batches that became learned, in key order.
        batches: Batches,
        /// What waited for it and does not fit, in key order.
        aside: Vec<SetAside>,
    },
}

/// What want of memory leaves of a cell that was to admit a message.
#[derive(Clone, Copy, Debug, PartialEq, Eq, Error)]
pub enum AdmitError {
    /// All is as it was.
    #[error("out of memory")]
    Memory,
    /// What the message freed is lost, and with it all else: nothing has arrived any more.
    #[error("out of memory, and what had arrived is lost")]
    Spent,
}

impl From<AllocError> for AdmitError {
    ghost use Rattle.std.specs.Prelude.{◌≡◌};
    ghost use Rattle.ndc_shard_workflows.specs.declared.admission.AdmitError.TheVariants.{Memory};

    ghost from_gives = { λ _ e. e ≡ Memory };

    fn from(_error: AllocError) -> AdmitError {
        AdmitError::Memory
    }
}

impl<T: Drop> From<AllocFailed<T>> for AdmitError {
    ghost use Rattle.std.specs.Prelude.{◌≡◌};
    ghost use Rattle.ndc_shard_workflows.specs.declared.admission.AdmitError.TheVariants.{Memory};

    ghost from_gives = { λ _ e. e ≡ Memory };

    fn from(_failed: AllocFailed<T>) -> AdmitError {
        AdmitError::Memory
    }
}

impl From<AllocError> for NotAdmitted {
    ghost use Rattle.std.specs.Prelude.{◌≡◌};
    ghost use Rattle.ndc_shard_runs.specs.declared.misfit.Misfit.TheVariants.{Memory};
    ghost use Rattle.ndc_shard_workflows.specs.declared.admission.NotAdmitted.TheVariants as refused;

    ghost from_gives = { λ _ e. e ≡ refused.Misfit Memory };

    fn from(_error: AllocError) -> NotAdmitted {
        NotAdmitted::Misfit(Misfit::Memory)
    }
}

impl From<AllocError> for NotWritten {
    ghost use Rattle.std.specs.Prelude.{◌≡◌};
    ghost use Rattle.ndc_shard_workflows.specs.declared.admission.NotWritten.TheVariants.{Memory};

    ghost from_gives = { λ _ e. e ≡ Memory };

    fn from(_error: AllocError) -> NotWritten {
        NotWritten::Memory
    }
}

impl<T: Drop> From<AllocFailed<T>> for NotWritten {
    ghost use Rattle.std.specs.Prelude.{◌≡◌};
    ghost use Rattle.ndc_shard_workflows.specs.declared.admission.NotWritten.TheVariants.{Memory};

    ghost from_gives = { λ _ e. e ≡ Memory };

    fn from(_failed: AllocFailed<T>) -> NotWritten {
        NotWritten::Memory
    }
}
