//! The two sides of a fork: which events stand on no current branch, which of them happened on a current branch as well,
//! and what happened there alone.
#![tactic(auto)]

mod label;
mod latest;
pub mod laws;
mod least;
mod names;
mod parting;
mod sides;
mod subject;
mod trace;

pub use names::{first_name, second_name};
pub use sides::{Sides, sides_of};
pub use subject::{Sort, sort_of};
pub use trace::{Loss, Trace};
