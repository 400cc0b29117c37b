//! The text of a message between nodes, both ways: one JSON object with the text of the batch, the version history of its
//! path, and the text of the batch that it carries, or `null`. It is read exactly where it is what would be printed.
#![tactic(auto)]

mod error;
mod laws;
mod message;

pub use error::MessageError;
pub use laws::{
    messages_fit_in_frames, one_message_of_a_text, one_text_of_a_message, read_where_printed,
};
pub use message::{message_text, read_message};
