//! The model of the whole: worlds, and what each line of a script changes and answers. These are definitions, and
//! laws above them: a law is what an empty function ensures.
#![tactic(auto)]

pub mod fair_laws;
pub mod letter_laws;
pub mod level_laws;
pub mod script_laws;
pub mod worked_scripts;
pub mod worked_worlds;
pub mod world_laws;
