//! Laws of admission: what nobody vouches for is taken as it would be if somebody did, where it is honest.
#![tactic(auto)]

pub mod laws;
