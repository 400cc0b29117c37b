//! Scripts read from text.
#![tactic(auto)]

mod body;
mod command;
pub mod laws;
mod line;
mod parsing;
mod register;

pub use parsing::{parse, read_lines};
