//! Tests by hand of the admission of messages that nobody vouches for, and of calls that write without being vouched
//! for: what a node can't show, since it asks for nothing that it lost. All else is tested through a node
//! (tools/tests/of_nodes.py).
#![tactic(auto)]

#[cfg(test)]
mod dropped;
#[cfg(test)]
mod histories;
#[cfg(test)]
mod orphans;
#[cfg(test)]
mod own;
#[cfg(test)]
mod scene;
#[cfg(test)]
mod texts;
#[cfg(test)]
mod writing;
