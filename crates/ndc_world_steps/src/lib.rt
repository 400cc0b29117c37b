//! What each kind of line does to the clusters of a script, and what it answers.
#![tactic(auto)]

mod activities;
pub mod domains;
pub mod handovers;
pub mod lanes;
pub mod letters;
pub mod moving;
pub mod reports;
mod told;
pub mod writing;

pub use told::{Told, answered};
