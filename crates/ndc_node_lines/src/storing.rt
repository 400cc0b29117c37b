use crate::error::LoadError;
use crate::kept::{Appended, Kept, count_lines, next_unit, split_kept};
use crate::network::Network;
use crate::reply::{Code, Reply};
use crate::session::Session;
use crate::units::Units;
use ndc_domain::{ClusterNo, Clusters};
use ndc_event::OutOfMemory;
use ndc_node::{Bounds, Node};
use ndc_script_types::Header;
use ndc_text::line::push_number;
use std::alloc::{AllocError, Global};

/// The line by which a node knows that it was brought to where it was. It leaves a unit as each line that changes the node,
/// so that what comes after it comes to the same when the units are done again.
const LOADED: &[u8] = b"loaded";

/// A session that was loaded.
#[derive(Drop)]
pub struct Loaded {
    pub session: Session,
    /// How many bytes at the end are part of a unit. They count for nothing: who goes on appending cuts them off first.
    pub dropped: u64,
}

impl Session {
    /// The node whole, as lines: the header's, `node NAME`, `store UNITS BYTES`, and the text of the node, which has so many
    /// bytes. Units are appended to it, from the one after UNITS on.
    ///
    /// Answered by [`Code::Spent`] where the session is spent, and by [`Code::Memory`] where memory runs out; nothing changes
    /// then either.
    pub fn store(&self) -> Reply {
        if self.is_spent || self.node.is_spent() {
            return Reply {
                code: Code::Spent,
                text: Vec::new(self.alloc),
            };
        }
        match self.store_text() {
            Ok(text) => Reply {
                code: Code::Done,
                text,
            },
            Err(AllocError) => Reply::memory(self.alloc),
        }
    }

    /// The text of the store.
    fn store_text(&self) -> Result<Vec<u8>, OutOfMemory> {
        let node = self.node.store()?;
        let mut text = Vec::new(self.alloc);
        text.extend_from_slice(self.network.lines())?;
        text.extend_from_slice(b"node ")?;
        text.extend_from_slice(self.node.name())?;
        text.extend_from_slice(b"\nstore ")?;
        push_number(&mut text, self.units.last())?;
        text.extend_from_slice(b" ")?;
        push_number(&mut text, node.len() as u64)?;
        text.extend_from_slice(b"\n")?;
        text.extend_from_slice(node.as_slice())?;
        Ok(text)
    }

    /// The session that was stored: a store, and the units that were appended to it, which are done again. What stands at
    /// the end and is less than a unit is dropped. From then on the node writes when all other nodes have polled, or the
    /// caller vouches for it by the line `force`; the unit that says so is the first one to be stored.
    pub fn load(alloc: Global, kept: &[u8], bounds: Bounds) -> Result<Loaded, LoadError> {
        let Some(parts) = split_kept(kept) else {
            return Err(LoadError::NoStore);
        };
        let mut session = stored_session(alloc, &parts, bounds)?;
        let left = session.do_again(kept, parts.appended)?;
        if session.line(LOADED).code != Code::Done {
            return Err(LoadError::Memory);
        }
        Ok(Loaded {
            session,
            dropped: left as u64,
        })
    }

    /// Does units again, up to the end of what was kept: how many bytes are left that are less than a unit.
    fn do_again(&mut self, kept: &[u8], appended: &[u8]) -> Result<usize, LoadError> {
        let mut rest = appended;
        for _unit in 0..appended.len() {
            let number = self.units.last().saturating_add(1);
            match next_unit(rest, number) {
                Appended::Part => return Ok(rest.len()),
                Appended::Unit { line, rest: after } if self.does_again(line, number)? => {
                    rest = after;
                }
                _ => {
                    let (before, _) = kept.split_at(kept.len().saturating_sub(rest.len()));
                    return Err(LoadError::Unit {
                        line: count_lines(before).saturating_add(1),
                    });
                }
            }
        }
        Ok(rest.len())
    }

    /// Does the line of a unit again: whether it left the unit of this number, as it did before.
    fn does_again(&mut self, line: &[u8], number: u64) -> Result<bool, LoadError> {
        let reply = self.line(line);
        if reply.code == Code::Memory {
            return Err(LoadError::Memory);
        }
        Ok(self.units.let_go(number))
    }
}

/// The session of a store.
fn stored_session(alloc: Global, parts: &Kept, bounds: Bounds) -> Result<Session, LoadError> {
    let network = Network::read(alloc, parts.header)?;
    let node = Node::load(alloc, parts.node, bounds)?;
    if !is_of(&node, network.header(), parts.name) {
        return Err(LoadError::OtherNode);
    }
    Ok(Session {
        alloc,
        network,
        number: 0,
        node,
        units: Units::after(alloc, parts.units),
        is_spent: false,
    })
}

/// Whether a node is the one of this name in a network of this header.
fn is_of(node: &Node, header: &Header, name: &[u8]) -> bool {
    node.name() == name
        && node.shards() == header.shards
        && have_same_names(node.clusters(), &header.clusters)
}

/// Whether clusters have the same names, in the same order.
fn have_same_names(one: &Clusters, other: &Clusters) -> bool {
    if one.count() != other.count() {
        return false;
    }
    for number in 0..other.count() {
        if one.find(other.name(ClusterNo { number }).as_bytes()) != Some(ClusterNo { number }) {
            return false;
        }
    }
    true
}
