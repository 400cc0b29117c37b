use ndc_event::{Batch, OutOfMemory, Rare};
use ndc_history::VersionHistory;

/// What is sent from a cell to another: a batch with the version history of its path, and the batch that it
/// carries, where it carries one. Both are learned together.
#[derive(Debug, Drop)]
pub struct Message {
    /// The batch that is sent.
    pub batch: Batch,
    /// For each version on the path to the batch the last event id written with it.
    pub history: VersionHistory,
    /// The first batch of the run as which the batch's run goes on.
    pub second: Rare<Batch>,
}

impl Message {
    ghost use Rattle.std.specs.Prelude.{◌≡◌, IfOk};

    /// The same message.
    pub fn try_copy(&self) -> Result<Message, OutOfMemory>
        ensures { IfOk result (λ copy. copy ≡ self.now) }
    {
        Ok(Message {
            batch: self.batch.try_copy()?,
            history: self.history.try_copy()?,
            second: self.second.clone()?,
        })
    }
}
