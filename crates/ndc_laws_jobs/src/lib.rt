//! Laws of fair worlds: every job that a line gives to cells may be done by them.
#![tactic(auto)]

pub mod again_laws;
pub mod arrive_laws;
pub mod ask_laws;
pub mod author_laws;
pub mod bare_laws;
pub mod line_laws;
