//! Why bytes are not a dump: the causes of refusal, and which of them holds of a set of batches.
#![tactic(auto)]

mod ancestors;
pub mod causes;
mod chains;
mod error;
pub mod found;
pub mod keys;
mod order;
mod originals;
mod replaying;
mod sound;
mod trail;

pub use error::{DumpError, KeyCause, LineCause};
pub use sound::sound_or;
