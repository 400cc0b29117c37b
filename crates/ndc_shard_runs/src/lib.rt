//! All that a cell has learned of one workflow: its runs, with their states.
#![tactic(auto)]

mod admitting;
mod copies;
mod index;
mod kept;
pub mod laws;
mod misfit;
mod places;
mod reading;
mod run_map;
mod runs;
mod stray;
mod views;

pub use misfit::Misfit;
pub use runs::Runs;
