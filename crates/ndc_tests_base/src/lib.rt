//! Tests of small parts by hand: bytes in and out with faults, names of domains, version histories, states at a mark, a
//! restored path, a tree, a run, the current run, what a reset plans, what lies in a gap, reports that are merged, and
//! copies that nothing in the program makes.
#![tactic(auto)]

#[cfg(test)]
mod command;
#[cfg(test)]
mod current;
#[cfg(test)]
mod domain;
#[cfg(test)]
mod events;
#[cfg(test)]
mod given;
#[cfg(test)]
mod history;
#[cfg(test)]
mod port;
#[cfg(test)]
mod progress;
#[cfg(test)]
mod rebuild;
#[cfg(test)]
mod resend;
#[cfg(test)]
mod reset;
#[cfg(test)]
mod run;
#[cfg(test)]
mod runs;
#[cfg(test)]
mod state;
#[cfg(test)]
mod tree;
