//! What is promised of every script, as laws.
#![tactic(auto)]

pub mod arrival_laws;
pub mod ended_laws;
pub mod handover_laws;
pub mod letter_laws;
pub mod progress_laws;
pub mod reset_laws;
pub mod script_laws;
pub mod settlement_laws;
pub mod version_laws;
pub mod work_laws;
pub mod world_laws;
