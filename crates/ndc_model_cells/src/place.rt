use ndc_event::{BatchKey, Name, OutOfMemory};

/// The place of a batch: its workflow, and its key there.
#[derive(Debug, Drop)]
pub struct Place {
    /// The domain of the workflow.
    pub domain: Name,
    /// The workflow.
    pub workflow: Name,
    /// The key of the batch there.
    pub key: BatchKey,
}

impl Place {
    ghost use Rattle.std.specs.Prelude.{◌≡◌, IfOk};

    /// The same place.
    pub fn try_copy(&self) -> Result<Place, OutOfMemory>
        ensures { IfOk result (λ copy. copy ≡ self.now) }
    {
        Ok(Place {
            domain: self.domain.try_copy()?,
            workflow: self.workflow.try_copy()?,
            key: self.key,
        })
    }
}
