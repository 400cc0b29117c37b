use ndc_domain::ClusterNo;
use ndc_event::{Batch, OutOfMemory};

/// A batch that became learned at a cluster.
#[derive(Debug, Drop)]
pub struct Seen {
    /// The cluster.
    pub cluster: ClusterNo,
    /// The batch.
    pub batch: Batch,
}

impl Seen {
    ghost use Rattle.std.specs.Prelude.{◌≡◌, IfOk};

    /// The same.
    pub fn try_copy(&self) -> Result<Seen, OutOfMemory>
        ensures { IfOk result (λ copy. copy ≡ self.now) }
    {
        Ok(Seen {
            cluster: self.cluster,
            batch: self.batch.try_copy()?,
        })
    }
}
