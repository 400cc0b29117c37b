//! The frames that nodes send each other, as text both ways.
//!
//! A frame is one line of canonical JSON, without its newline: an object with the keys `body`, `format` (the number 1),
//! `from`, `header`, `kind` and `to`, in this order; `from` and `to` are names of clusters. The body is that of its kind. Each
//! kind has a shape of the language of `ndc_node_shapes`, and each type of this crate is seen as a value of its shape: so one proof over
//! all shapes gives that a frame is read exactly where it is what would be printed. The kind stands after the body, so the
//! body is passed over first, to its closing bracket, and read once the kind is known.
//!
//! Messages stand in a frame as texts. One that does not read as a message leaves the rest of the frame as it is.
#![tactic(auto)]

mod body;
mod frame;
mod gap;
mod handover;
mod header;
mod kind;
pub mod laws;
mod piece;
mod place;
mod progress;
mod record;
mod sending;
mod text;

pub use body::{Domains, Entries, Entry, EntryList, Lates, Messages, Poll, Polled, Polls, Served};
pub use frame::{Body, Frame};
pub use gap::AskedGap;
pub use handover::{Offer, Offers, Promised, PromisedList};
pub use header::{Header, Seat, Seats};
pub use kind::Kind;
pub use ndc_node_shapes::{Cause, Fault, Text};
pub use place::{Late, Place};
pub use progress::{Held, ToldReport, ToldReports};
pub use record::{ToldRecord, ToldRecords};
pub use sending::{Bootstrap, Recall, Recalled, Records, Spot};
pub use text::{frame_text, read_frame};
