//! Clusters: domain records, and cells that do jobs in rounds. What cells do side by side has the same outcome as
//! one job after the other.
#![tactic(auto)]

mod cell;
mod cells;
mod cluster;
mod fresh;
mod halves;
mod home;
mod in_turn;
mod piece;
pub mod round_laws;
mod rounds;

pub use cell::Cell;
pub use cluster::Cluster;
pub use fresh::Fresh;
pub use home::{Desk, Home};
