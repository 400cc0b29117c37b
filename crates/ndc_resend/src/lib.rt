//! Gaps: what a cell lacks before each batch that it has put off, what another cell serves for it, and what asking for
//! all of them brings.
#![tactic(auto)]

mod asking;
mod finding;
pub mod laws;
mod serving;

pub use asking::GapOf;
pub use finding::{first_item, gap};
pub use serving::{Gap, serve, serve_lent};
