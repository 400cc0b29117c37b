//! The questions in a script's comments: found by their lines, and read.
#![tactic(auto)]

mod finding;
mod question;
mod reading;

pub use finding::questions_in;
pub use ndc_script_words::KeptLine;
pub use question::{DomainAt, LaneAt, Question};
pub use reading::{Verb, question_of, verb_of};
