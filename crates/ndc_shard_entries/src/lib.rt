//! What a cell writes to a workflow, made over what it has learned of it: commands, reapplication, resets.
#![tactic(auto)]

mod batch;
mod entry;
mod events;
pub mod laws;
mod reapplication;
mod reset;
mod tip;
mod writing;

pub use entry::Entry;
pub use reapplication::reapplication_entry;
pub use reset::reset_entries;
pub use writing::{command_entry, unless_behind, writes_to};
