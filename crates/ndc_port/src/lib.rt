//! The outside as the program sees it: where bytes come from and where they go.
//!
//! A source or a sink may tell its bytes to contracts, and counts its faults. Those over memory tell
//! them, and fail where they are told to; those over the standard streams tell nothing.
#![tactic(auto)]

mod fault;
mod gate;
mod memory;
mod reading;
mod standard;
mod writing;

pub use fault::Failed;
pub use gate::{Gate, OpenGate, PairGate};
pub use memory::{MemSink, MemSource};
pub use reading::{ReadError, Source, read_all};
pub use standard::{StdSink, StdSource};
pub use writing::{Sink, write_all};

/// Want of memory, where it is the only error.
pub type OutOfMemory = std::alloc::AllocError;
