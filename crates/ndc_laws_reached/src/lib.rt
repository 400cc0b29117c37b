//! Laws of fair worlds: every line keeps worlds as they should be, and so every world of a script is.
#![tactic(auto)]

pub mod arrival_laws;
pub mod handover_laws;
pub mod lane_laws;
pub mod line_laws;
pub mod one_writer_laws;
pub mod report_laws;
pub mod resend_laws;
pub mod round_laws;
pub mod settled_laws;
pub mod table_laws;
pub mod trim_laws;
pub mod writing_laws;
