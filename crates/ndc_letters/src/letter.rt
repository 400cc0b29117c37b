use ndc_domain::ClusterNo;
use ndc_event::{BatchKey, Items, Name};

/// Bytes that came.
pub type Bytes = Items<u8>;

/// What came of a message: the cluster that sent it, the place of the batch that it was, and the bytes that came.
#[derive(Debug, Drop)]
pub struct Letter {
    /// The cluster that sent the message.
    pub source: ClusterNo,
    /// The domain of the workflow.
    pub domain: Name,
    /// The workflow.
    pub workflow: Name,
    /// The key of the batch there.
    pub key: BatchKey,
    /// The bytes that came.
    pub bytes: Bytes,
}
