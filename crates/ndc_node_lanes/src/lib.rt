//! What a node keeps of one shard between a reader and a source, apart from cells and frames: of the reader, how far it
//! has heard and what it has not learned yet ([`ReadLane`]); of the source, how far its readers have told to be done
//! ([`ToldLevels`]).
#![tactic(auto)]

pub mod laws;
mod read_lane;
mod told;
mod told_levels;

pub use laws::{
    done_never_falls, done_passes_only_what_is_learned, done_waits_for_what_is_held,
    levels_never_fall, levels_stay_within_the_queue, the_trim_level_is_that_of_all_readers,
    what_is_told_is_held_until_it_is_learned,
};
pub use read_lane::{HearError, ReadLane};
pub use told::Told;
pub use told_levels::{Telling, ToldLevels};
