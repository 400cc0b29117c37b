//! The types of a script, with the definitions of its text and of well-formed scripts.
#![tactic(auto)]

mod below;
mod script;

pub use below::clusters_below;
pub use script::{Act, BurstJob, Header, Jobs, Line, Lines, Script, ScriptCause, ScriptError};
