//! Indexers: objects that are told of each batch that becomes learned at a cluster, and the lines that they show.
#![tactic(auto)]

mod choose;
pub mod index_laws;
mod indexer;
mod kinds;
mod seat;
mod seen;
mod shipped;
mod tally;

pub use choose::{ChooseError, Indexers};
pub use indexer::{Counted, Indexer, ToldError};
pub use kinds::KindsIndexer;
pub use seat::Seat;
pub use seen::Seen;
pub use shipped::{OpenIndexer, SignalsIndexer};
