//! The lines and words of a script's text, numbers and names among them, and the header that its first lines are.
#![tactic(auto)]

mod header;
mod interning;
mod number;
mod operand;
mod text;
mod verb;

pub use header::{HeaderRead, header_of, within};
pub use interning::Interner;
pub use number::{are_digits, has_leading_zero, number_of};
pub use operand::{
    MAX_PLACE, TwoClusters, WorkflowAt, bad, both_known, known, named, numbered, place_of,
    shard_of, two_clusters, workflow_at,
};
pub use text::{
    KeptLine, MAX_LINES, MAX_WORD, Reading, kept_from, kept_of, line_after, line_behind,
};
pub use verb::{
    ActionVerb, BareCommand, ClosingAction, ClusterVerb, CommandVerb, DomainVerb, NamedAction,
    NamedCommand, PairVerb, PairedAction, PairedCommand, PlaceVerb, PlacesVerb, TargetVerb, Verb,
    WorkflowVerb, action_verb, verb_of,
};
