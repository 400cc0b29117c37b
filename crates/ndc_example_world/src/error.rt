use ndc_dump::DumpError;
use ndc_event::NameError;
use ndc_script_types::ScriptError;
use std::alloc::{AllocError, AllocFailed};

/// Why the story ends early.
#[derive(Clone, Copy)]
pub(crate) enum StoryError {
    /// A text is not a script.
    Script,
    /// A text is not a name.
    Name,
    /// What was printed is not a dump.
    Dump,
    /// The header has no cluster of a name.
    NoCluster,
    /// A cluster is not a member of the domain.
    NoMember,
    /// The world has run as many lines as it may.
    Full,
    /// The world is spent.
    Spent,
    /// Memory is wanting.
    Memory,
}

impl StoryError {
    /// What is told of it.
    pub(crate) fn text(self) -> &'static str {
        match self {
            StoryError::Script => "the text is no script",
            StoryError::Name => "a name is none",
            StoryError::Dump => "what was printed is no dump",
            StoryError::NoCluster => "the header has no such cluster",
            StoryError::NoMember => "a cluster is no member of the domain",
            StoryError::Full => "the world has run as many lines as it may",
            StoryError::Spent => "the world is spent",
            StoryError::Memory => "out of memory",
        }
    }
}

impl From<AllocError> for StoryError {
    fn from(_error: AllocError) -> StoryError {
        StoryError::Memory
    }
}

impl<T: Drop> From<AllocFailed<T>> for StoryError {
    fn from(_failed: AllocFailed<T>) -> StoryError {
        StoryError::Memory
    }
}

impl From<ScriptError> for StoryError {
    fn from(_error: ScriptError) -> StoryError {
        StoryError::Script
    }
}

impl From<NameError> for StoryError {
    fn from(_error: NameError) -> StoryError {
        StoryError::Name
    }
}

impl From<DumpError> for StoryError {
    fn from(_error: DumpError) -> StoryError {
        StoryError::Dump
    }
}
