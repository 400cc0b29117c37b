//! The batches of one workflow as a set: what is learned of it, its paths and branches, the current run, what
//! makes it sound, its strays, and the view of it. These are definitions, and laws above them: a law is what an
//! empty function ensures.
#![tactic(auto)]

pub mod arrival_laws;
pub mod branch_laws;
mod key_set;
mod keys;
pub mod path_laws;
pub mod sound_laws;
mod view;
pub mod view_laws;
pub mod worked_sets;

pub use key_set::KeySet;
pub use keys::{earlier_key, first_id, is_key, last_id};
pub use view::{Batches, BranchView, BranchViews, RunStatus, RunView, RunViews, View};
