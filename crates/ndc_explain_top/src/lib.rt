//! The program that explains: its words, what it tells of one dump or of many, and its top call.
#![tactic(auto)]

mod asked;
mod fault;
mod report;
mod rows;
mod section;
mod told;
mod top;

pub use top::explain_top;
