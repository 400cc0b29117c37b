//! Scripts that are run as `ndc run` runs them, with answers to the questions in their comments.
#![tactic(auto)]

mod answering;
mod comments;
mod fault;
mod holding;
mod late;
mod learned;
mod names;
mod notices;
mod piece;
mod probing;
mod reason;
mod sent;
mod top;
mod unasked;
mod workflows;

pub use comments::what_is_told_beside_is_comments_alone;
pub use probing::{probe_script, what_lines_answer_is_the_report};
pub use top::probe_top;
