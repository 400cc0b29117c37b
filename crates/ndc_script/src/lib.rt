//! The script language: scripts read from text, whole or line by line, and printed, and scripts generated from a seed.
#![tactic(auto)]

mod generating;
pub mod laws;
mod printing;

pub use generating::generate;
pub use ndc_script_read::{parse, read_lines};
pub use ndc_script_types::{
    Act, BurstJob, Header, Jobs, Line, Lines, Script, ScriptCause, ScriptError,
};
pub use printing::print;
