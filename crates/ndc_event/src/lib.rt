//! The nouns of a workflow's history: names, keys of batches, ids of runs, events and batches.
#![tactic(auto)]

mod batch;
mod items;
mod key;
mod kind;
mod name;
mod rare;

pub use batch::{Batch, BatchFault, Event, Events};
pub use items::Items;
pub use key::{BatchKey, Origin, RunId};
pub use kind::EventKind;
pub use name::{Name, NameError};
pub use rare::Rare;

/// Want of memory, where it is the only error.
pub type OutOfMemory = std::alloc::AllocError;
