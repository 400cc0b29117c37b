use ndc_event::Name;
use ndc_model_sets::View;

/// A dump: a workflow and what a cluster shows of it.
#[derive(Drop)]
pub struct Dump {
    /// The domain of the workflow.
    pub domain: Name,
    /// The workflow.
    pub workflow: Name,
    /// Its learned batches, and its runs with their branches and states.
    pub view: View,
}
