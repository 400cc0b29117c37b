//! Laws of cells: what one write adds to all that was written of a workflow, and what a cell asks of its callers.
#![tactic(auto)]

pub mod write_laws;
