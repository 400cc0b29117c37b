use ndc_event::{Batch, BatchKey, Items, RunId};
use ndc_history::VersionHistory;
use ndc_state::{CloseKind, State};

/// Whether a run goes on.
#[derive(Clone, Copy, Debug, PartialEq, Eq)]
pub enum RunStatus {
    /// Open, and the current run of its workflow.
    Running,
    /// Open on its current branch, but not the current run of its workflow.
    Zombie,
    /// Closed on its current branch.
    Closed,
}

/// What a cluster shows of a branch of a run.
#[derive(Drop)]
pub struct BranchView {
    /// The key of the branch's last batch.
    pub tip: BatchKey,
    /// For each version on the branch the last event id written with it.
    pub history: VersionHistory,
    /// Whether it is the run's current branch.
    pub is_current: bool,
    /// The replay of the branch.
    pub state: State,
}

/// A list of branches, in order.
pub type BranchViews = Items<BranchView>;

/// What a cluster shows of a run.
#[derive(Drop)]
pub struct RunView {
    /// The id of the run.
    pub run: RunId,
    /// Whether it goes on.
    pub status: RunStatus,
    /// How its current branch closed; none before.
    pub close: Option<CloseKind>,
    /// Whether it is the current run of its workflow.
    pub is_current: bool,
    /// Its branches, tips ascending.
    pub branches: BranchViews,
}

/// A list of runs, in order.
pub type RunViews = Items<RunView>;

/// A list of batches, in order.
pub type Batches = Items<Batch>;

/// What a cluster shows of a workflow.
#[derive(Drop)]
pub struct View {
    /// The learned batches, in key order.
    pub batches: Batches,
    /// The runs, ascending.
    pub runs: RunViews,
}
