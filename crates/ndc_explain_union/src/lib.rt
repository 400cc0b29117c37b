//! Many dumps on one input: the parts that the input has, the dumps that they are, the dumps of each workflow, and what
//! these have together.
#![tactic(auto)]

mod groups;
pub mod laws;
mod merging;
mod names;
mod parts;
mod same;
mod taken;

pub use groups::{Groups, WorkflowName, groups_of};
pub use merging::united;
pub use names::NameSet;
pub use parts::{Input, Part, parts_of};
pub use same::{are_same, is_same};
pub use taken::{InputError, Spot, Taken, dump_in, taken_of};
