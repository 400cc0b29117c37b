//! Handing a domain over: begun at its active cluster, and completed at the target once this has all that was written before.
#![tactic(auto)]

mod handover;

pub use handover::{BeginError, Handover, Places, ReadyError};
