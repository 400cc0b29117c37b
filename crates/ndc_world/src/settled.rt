use ndc_index::Seen;

/// What a settlement came to.
#[derive(Drop)]
pub struct Settled {
    /// How many batches it made learned.
    pub learned: u64,
    /// How many batches were applied again.
    pub reapplied: u64,
    /// What became learned, in the order of being told.
    pub seen: Vec<Seen>,
}
