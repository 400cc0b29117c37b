//! The world of a script: what each line leaves, answers and makes learned; and the report of a script that is run whole,
//! written line by line, with indexers told of what becomes learned.
#![tactic(auto)]

mod acting;
mod answer;
mod bursts;
mod error;
mod last;
mod reporting;
mod running;
mod script;
mod settled;
mod summary;
mod world;

pub use answer::Answer;
pub use error::RunError;
pub use last::last_world;
pub use script::run_script;
pub use settled::Settled;
pub use summary::Summary;
pub use world::World;

/// A world whose cells are shards.
pub type ShardWorld<'a> = World<'a, ndc_shard::Shard>;
