//! The picture of a dump: an SVG document, or lines of characters.
#![tactic(auto)]

mod blocks;
mod columns;
mod graph;
pub mod laws;
mod layout;
mod picture;
mod places;

pub use graph::push_tree_picture;
pub use picture::push_picture;
