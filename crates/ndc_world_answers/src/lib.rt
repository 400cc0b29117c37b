//! What the lines of a script answer, as text.
#![tactic(auto)]

mod aside;
mod domains;
mod handovers;
mod membership;
mod progress;
mod queues;
mod reading;
mod tally;
mod text;
mod word;
mod writing;

pub use aside::{letters, set_aside, whole};
pub use domains::{
    counted, domain, done, failover_refused, join_refused, register_refused, retain_refused,
};
pub use handovers::{begin_refused, no_handover, ready_refused, still_open};
pub use membership::members;
pub use progress::{beaten, report, stale};
pub use queues::{arrived, brought, gaps, levels, no_place, settled, worked};
pub use reading::{branches, compared, current, dump, history, no_workflow, state};
pub use tally::{Tally, add_reply, add_seen, sum};
pub use text::AnswerText;
pub use writing::{outcome, refusal};
