//! The text of what a node keeps: a line for each thing, of a word and one object of JSON, the last of which is a mark that
//! the text is whole.
#![tactic(auto)]

mod ends;
mod line;
mod peers;
mod places;
mod shards;
mod split;

pub use ends::{NodeLine, WholeLine};
pub use line::{Line, LineFault};
pub use peers::{LaneLine, LastTold, PeerLine, ToldEntries, ToldEntry};
pub use places::{BatchPlace, LetterLine, OpenHandover, UsedVersion};
pub use shards::{Level, LevelList, ShardLine};
pub use split::split_line;
