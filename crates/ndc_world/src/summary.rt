/// What a world comes to, in numbers.
#[derive(Clone, Copy, Debug, PartialEq, Eq)]
pub struct Summary {
    /// How many answers its lines gave.
    pub answers: u64,
    /// How many of these are refusals.
    pub refused: u64,
    /// How many batches all clusters have written.
    pub batches: u64,
    /// Of how many workflows the first cluster has learned anything.
    pub workflows: u64,
    /// How many branches the runs of these workflows have at the first cluster.
    pub branches: u64,
    /// Whether all clusters hold one table and have learned the same of each workflow.
    pub same: bool,
}
