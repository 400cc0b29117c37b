//! What can be said of a message before any cell is looked at: the first cause why it is not one that cells of these
//! clusters send, and whether its version history ends with its batch or continues another.
#![tactic(auto)]

mod fault;
mod history;
pub mod laws;
mod ranges;

pub use fault::{MAX_TASK, MessageFault, first_fault};
pub use history::{history_continues, history_ends};
pub use laws::{
    a_faultless_message_is_well_made, a_message_of_a_sound_set_is_well_made,
    a_well_made_message_is_as_cells_write_it, histories_of_a_sound_set_are_those_of_their_paths,
    histories_of_a_sound_set_end_with_their_batch, ranges_are_tested,
};
pub use ranges::is_in_range;
