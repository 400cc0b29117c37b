//! The language of shapes in which texts between nodes are written: canonical JSON (no spaces, the keys of each object in
//! one order, each number with its range), read exactly where it is what would be printed.
//!
//! A shape is a number in a range, a flag, a name, a text, a run's id, a list, an object with its keys in order, or `null`
//! in the place of an object. There is one definition of the text of a value of a shape ([`laws`] says of which shapes), one
//! of what is read, and one proof over all shapes that the two fit. A type that has a text names its shape, and what it is
//! as a value of it ([`Framed`]).
#![tactic(auto)]

mod common;
mod fault;
pub mod framed;
pub mod laws;
mod object;
pub mod piece;

pub use common::Text;
pub use fault::{Cause, Fault};
pub use framed::Framed;
pub use object::{skip_object, take_object};
