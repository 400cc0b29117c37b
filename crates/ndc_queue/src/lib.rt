//! Queues of messages, lists in flight, and levels: how far a reader has read a queue, and how far all of it is done.
#![tactic(auto)]

mod flight;
mod laws;
mod levels;
mod queue;

pub use flight::{Flight, FlightError, NoSuchPlace};
pub use laws::{entries_are_those_of_the_queue, what_is_kept_is_the_rest_of_the_queue};
pub use levels::Levels;
pub use ndc_model_cells::Message;
pub use queue::{MAX_ENTRIES, Queue};
