//! Lines that read a workflow: what they answer, over what a cell has learned of it; and what the clusters of a script
//! come to, in numbers.
#![tactic(auto)]

mod alike;
mod clusters;
mod comparing;
mod found;
pub mod gaps;
mod learned;
mod parts;
mod queries;
pub mod reading;
mod tables;

pub use clusters::totals;
pub use comparing::are_same;
pub use parts::Totals;
