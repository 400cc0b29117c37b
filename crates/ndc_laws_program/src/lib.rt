//! Laws of what a program's user sees: dumps are read again, settled clusters are the same, and all that is promised of
//! every script, as one law.
#![tactic(auto)]

pub mod dump_laws;
pub mod inside_laws;
pub mod promise_laws;
pub mod summary_laws;
