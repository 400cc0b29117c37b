use ndc_node::{LoadCause, NodeError};
use ndc_script_types::ScriptError;
use std::alloc::AllocError;

/// Why no session is opened.
#[derive(Clone, Copy, Debug, PartialEq, Eq)]
pub enum OpenError {
    /// The lines before `node` are no header of a script: why.
    Header(ScriptError),
    /// They go on after the header.
    NoHeader,
    /// The node is none of the clusters.
    NoCluster,
    /// The node is not made: why.
    Node(NodeError),
    Memory,
}

impl From<AllocError> for OpenError {
    fn from(_error: AllocError) -> OpenError {
        OpenError::Memory
    }
}

/// Why no session is loaded.
#[derive(Clone, Copy, Debug, PartialEq, Eq)]
pub enum LoadError {
    /// There is no whole store: a header's lines, `node NAME`, `store UNITS BYTES` and so many bytes.
    NoStore,
    /// Its header is none, or has no such node: why.
    Open(OpenError),
    /// The text of the node is not read: why.
    Node(ndc_node::LoadError),
    /// The text is that of another node than the header's.
    OtherNode,
    /// What was appended has another unit than the next one, or one that changes nothing. It begins with this line, counted
    /// from 1.
    Unit { line: u64 },
    Memory,
}

impl From<AllocError> for LoadError {
    fn from(_error: AllocError) -> LoadError {
        LoadError::Memory
    }
}

impl From<OpenError> for LoadError {
    fn from(error: OpenError) -> LoadError {
        match error {
            OpenError::Memory => LoadError::Memory,
            other => LoadError::Open(other),
        }
    }
}

impl From<ndc_node::LoadError> for LoadError {
    fn from(error: ndc_node::LoadError) -> LoadError {
        match error.cause {
            LoadCause::Memory => LoadError::Memory,
            _ => LoadError::Node(error),
        }
    }
}
