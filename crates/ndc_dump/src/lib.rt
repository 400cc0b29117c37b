//! Dumps: what a cluster shows of a workflow, read back exactly, from bytes or a source, and its tree; and what a program
//! tells of bytes that are not a dump, written without memory.
#![tactic(auto)]

mod bare;
mod batches;
mod cut;
mod dump;
pub mod dump_laws;
mod error;
mod faults;
mod frame;
mod input;
mod migrated;
mod path;
mod pieces;
mod read;
mod run_batches;
mod showing;
mod tree;
pub mod worked_dumps;

pub use bare::read_bare_dump;
pub use dump::Dump;
pub use error::PrintError;
pub use faults::{tell_batch, tell_line};
pub use input::{InputFault, MOST_BYTES, read_input};
pub use ndc_dump_causes::{DumpError, KeyCause, LineCause};
pub use ndc_text::{bare_text, dump_text};
pub use pieces::write_pieces;
pub use read::read_dump;
pub use tree::tree_text;
