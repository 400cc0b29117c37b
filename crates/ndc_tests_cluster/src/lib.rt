//! Tests of rounds and clusters: workers at gates, want of memory, and a round with nothing to do.
#![tactic(auto)]

#[cfg(test)]
mod clusters;
#[cfg(test)]
mod given;
#[cfg(test)]
mod replication;
#[cfg(test)]
mod rounds;
