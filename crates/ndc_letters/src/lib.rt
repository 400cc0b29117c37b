//! Letters: messages that came damaged and were set aside.
#![tactic(auto)]

mod letter;
mod letters;

pub use letter::{Bytes, Letter};
pub use letters::{Letters, Taken};
