//! The explanation of a dump: which branch of each run leads and why, what is to be driven again, and what became of
//! each signal.
#![tactic(auto)]

mod branches;
mod explanation;
pub mod laws;
pub mod losses;
pub mod piece;
mod settlers;
mod signals;
pub mod standing;
mod summary;
mod writer;

pub use explanation::{Found, findings, has_forks, has_zombies, push_explained};
pub use summary::Summary;
pub use writer::writer_name;
