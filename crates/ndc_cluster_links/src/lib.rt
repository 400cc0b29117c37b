//! What readers have of the queues of sources: lanes and links.
#![tactic(auto)]

mod addressed;
mod lane;
mod link;
mod queues;

pub use addressed::{is_addressed, is_named};
pub use lane::Lane;
pub use link::Link;
pub use queues::Queues;
