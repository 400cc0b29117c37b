use crate::runs::Runs;
use ndc_event::{Batch, BatchKey, OutOfMemory};
use ndc_history::VersionHistory;
use std::alloc::Global;

impl Runs {
    ghost use Rattle.std.specs.Prelude.{◌≡◌, map, IfOk};
    ghost use Rattle.std.specs.Option.{option_map};
    ghost use Rattle.ndc_model_sets.specs.Reading.{history_at, path_at};

    /// The version history of the path to the batch of this key; none exactly where it is not learned. Two look-ups for
    /// each version on the path.
    pub fn history_of(
        &self,
        alloc: Global,
        key: BatchKey,
    ) -> Result<Option<VersionHistory>, OutOfMemory>
        ensures { IfOk result (λ history. history ≡ history_at key self.now) }
    {
        match self.run_of(key) {
            None => Ok(None),
            Some(run) => run.tree().history_of(alloc, key),
        }
    }

    /// The batches of the path to the one of this key, from its run's first on; none exactly where it is not learned. A
    /// look-up for each batch of the path.
    pub fn path(&self, alloc: Global, key: BatchKey) -> Result<Option<Vec<&Batch>>, OutOfMemory>
        ensures { IfOk result (λ path.
            option_map (λ list. map (λ b. b.now) list.items) path ≡ path_at key self.now) }
    {
        match self.run_of(key) {
            None => Ok(None),
            Some(run) => run.tree().path_batches(alloc, key),
        }
    }
}
