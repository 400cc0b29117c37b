//! The words that the program is called with, read into what they ask for.
#![tactic(auto)]

mod command;
mod error;
mod found;
mod names;
mod number;
mod words;
pub mod words_laws;

pub use error::WordsError;
pub use names::{Names, parts_of};
pub use words::{Asked, read};
