//! The text of a batch, both ways: one JSON object, read back exactly where it is what would be printed. And what a
//! cluster shows of a workflow, printed: its dump, and the lines of runs, branches and states.
#![tactic(auto)]

pub mod dump;
mod error;
mod event;
mod form;
mod laws;
pub mod line;
mod member;
mod print;
mod read;
mod tag;

pub use dump::{bare_text, dump_text};
pub use error::TextError;
pub use form::TextForm;
pub use laws::{
    carrier_is_extra_without_carriers, no_text_goes_on, one_batch_of_a_text, one_text_of_a_batch,
    read_bare_where_printed, read_where_printed, refused_for_a_fault,
};
pub use print::print_batch;
pub use read::{read_batch, read_batch_1};
