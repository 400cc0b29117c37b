//! Progress of activities, told beside the histories.
#![tactic(auto)]

mod holding;
mod laws;
mod progress;
mod report;
mod reports;

pub use laws::{
    merging_twice_is_merging_once, the_greatest_reports_are_held,
    the_order_of_merges_does_not_matter,
};
pub use progress::Progress;
pub use report::{ActivityRef, Report};
pub use reports::Reports;
