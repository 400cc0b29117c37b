//! What the lines of a script read of a cell.
#![tactic(auto)]

mod reads;

pub use reads::Reads;
