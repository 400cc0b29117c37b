use crate::handing::copy_offer;
use crate::lane::{Lane, Last};
use crate::letter::Letter;
use crate::node::Node;
use crate::past::Past;
use crate::peer::Peer;
use crate::polling::copy_late;
use crate::recalling::copy_spot;
use crate::seat::Seat;
use ndc_event::{Items, Name, OutOfMemory};
use ndc_graceful::Handover;
use ndc_node_frames::{Domains, Lates, ToldRecord, ToldReport};
use ndc_node_lanes::Told;
use ndc_node_store::{
    BatchPlace, LaneLine, LastTold, LetterLine, Level, LevelList, Line, NodeLine, OpenHandover,
    PeerLine, ShardLine, ToldEntries, ToldEntry, UsedVersion, WholeLine,
};
use std::alloc::{AllocError, Global};

/// A text of a node, with its lines counted.
struct Writer {
    text: Vec<u8>,
    lines: u64,
}

impl Drop for Writer {
    fn drop(self) {
        let Writer {
            text: _text,
            lines: _lines,
        } = self;
    }
}

impl Writer {
    /// The text.
    fn into_text(self) -> Vec<u8> {
        let Writer {
            text,
            lines: _lines,
        } = self;
        text
    }

    /// Appends a line.
    fn push(&mut self, line: &Line) -> Result<(), OutOfMemory> {
        line.push_to(&mut self.text)?;
        self.lines = self.lines.saturating_add(1);
        Ok(())
    }
}

impl Node {
    /// The node as text: lines, the last of which is a mark that the text is whole. All that a later answer depends on is in
    /// it, but for the bounds; [`Node::load`] makes the node of it again. No node has two texts. There is none of a node that
    /// is spent: [`AllocError`], as for want of memory.
    pub fn store(&self) -> Result<Vec<u8>, OutOfMemory> {
        if self.is_spent {
            return Err(AllocError);
        }
        let mut writer = Writer {
            text: Vec::new(self.alloc),
            lines: 0,
        };
        self.store_node(&mut writer)?;
        self.store_handovers(&mut writer)?;
        self.store_reports(&mut writer)?;
        for seat in self.seats.as_slice() {
            seat.store(self.alloc, &mut writer)?;
        }
        self.store_peers(&mut writer)?;
        for letter in self.letters.as_slice() {
            writer.push(&Line::Letter(letter.line(self.alloc)?))?;
        }
        let lines = writer.lines;
        writer.push(&Line::Whole(WholeLine { lines }))?;
        Ok(writer.into_text())
    }

    /// Which node it is, its records, and the versions that it may have used.
    fn store_node(&self, writer: &mut Writer) -> Result<(), OutOfMemory> {
        writer.push(&Line::Node(NodeLine {
            behind: self.past != Past::Whole,
            header: self.header()?,
            name: self.name_of(self.me)?,
            newest: self.newest,
            recalling: self.past == Past::Recalling,
        }))?;
        for record in self.table.records() {
            let record = record.try_copy()?;
            writer.push(&Line::Record(ToldRecord { record }))?;
        }
        for used in self.used.as_slice() {
            let domain = used.domain.try_copy()?;
            let version = used.version;
            writer.push(&Line::Used(UsedVersion { domain, version }))?;
        }
        Ok(())
    }

    /// The handovers that it has begun, and those that were told to it.
    fn store_handovers(&self, writer: &mut Writer) -> Result<(), OutOfMemory> {
        for handover in self.open.as_slice() {
            writer.push(&Line::Handover(handover_line(self.alloc, handover)?))?;
        }
        for offer in self.offers.as_slice() {
            let copy = copy_offer(self.alloc, offer)?;
            writer.push(&Line::Offer(copy))?;
        }
        Ok(())
    }

    /// The reports that it holds.
    fn store_reports(&self, writer: &mut Writer) -> Result<(), OutOfMemory> {
        for report in self.progress.list(self.alloc)? {
            let report = report.try_copy()?;
            writer.push(&Line::Report(ToldReport { report }))?;
        }
        Ok(())
    }

    /// What it keeps of each other node.
    fn store_peers(&self, writer: &mut Writer) -> Result<(), OutOfMemory> {
        let others = self.others()?;
        for other in others.as_slice() {
            if let Some(peer) = self.peers.get(other.number as usize) {
                peer.store(self.alloc, writer)?;
            }
        }
        Ok(())
    }
}

impl Seat {
    /// The shard's lines: its queue's levels, what is learned, what is put off, and the entries that are kept.
    fn store(&self, alloc: Global, writer: &mut Writer) -> Result<(), OutOfMemory> {
        writer.push(&Line::Shard(self.line(alloc)?))?;
        let mut domains = Vec::new(alloc);
        for (domain, _) in self.cell.workflows()? {
            domains.push(domain)?;
        }
        domains.dedup();
        for domain in domains.as_slice() {
            for message in self.cell.all_of(domain)? {
                writer.push(&Line::Learned(message))?;
            }
        }
        for message in self.put_off.as_slice() {
            writer.push(&Line::Waits(message.try_copy()?))?;
        }
        for message in self.queue.kept() {
            writer.push(&Line::Queued(BatchPlace::of(&message.batch)?))?;
        }
        Ok(())
    }

    /// The levels of its queue.
    fn line(&self, alloc: Global) -> Result<ShardLine, OutOfMemory> {
        let mut told = Vec::new(alloc);
        for reader in 0..self.levels.readers() {
            told.push(Level {
                level: self.level(reader),
            })?;
        }
        Ok(ShardLine {
            epoch: self.levels.epoch(),
            first: self.queue.first(),
            told: LevelList::new(told),
        })
    }
}

impl Peer {
    /// The other node's lines: what is kept of it, and of each of its shards.
    fn store(&self, alloc: Global, writer: &mut Writer) -> Result<(), OutOfMemory> {
        writer.push(&Line::Peer(self.line(alloc)?))?;
        for lane in self.lanes.as_slice() {
            writer.push(&Line::Lane(lane.line(alloc)?))?;
        }
        Ok(())
    }

    /// What is kept of it.
    fn line(&self, alloc: Global) -> Result<PeerLine, OutOfMemory> {
        let mut late = Vec::new(alloc);
        for one in self.lacks.as_slice() {
            late.push(copy_late(one)?)?;
        }
        let spot = match &self.spot {
            Some(spot) => Some(copy_spot(spot)?),
            None => None,
        };
        Ok(PeerLine {
            all: copy_names(alloc, self.has_all.as_slice())?,
            awaited: self.is_awaited,
            follows: self.follows,
            largest: self.largest,
            late: Lates::new(late),
            owes: copy_names(alloc, self.owes.as_slice())?,
            recalled: self.is_recalled,
            records: self.same_records,
            reports: self.same_reports,
            spot,
        })
    }
}

impl Lane {
    /// What was read of the shard.
    fn line(&self, alloc: Global) -> Result<LaneLine, OutOfMemory> {
        let lane = self.read();
        let mut held = Vec::new(alloc);
        for told in lane.held() {
            held.push(told_line(told)?)?;
        }
        Ok(LaneLine {
            epoch: lane.epoch(),
            held: ToldEntries::new(held),
            last: last_line(self.last()),
            read: lane.read(),
        })
    }
}

impl Letter {
    /// The letter's line.
    fn line(&self, alloc: Global) -> Result<LetterLine, OutOfMemory> {
        let at = match &self.at {
            Some(at) => Some(at.try_copy()?),
            None => None,
        };
        Ok(LetterLine {
            at,
            cause: copy_bytes(alloc, self.cause.as_slice())?,
            source: self.source.number,
            text: copy_bytes(alloc, self.text.as_slice())?,
        })
    }
}

/// The line of a handover that was begun.
fn handover_line(alloc: Global, handover: &Handover) -> Result<OpenHandover, OutOfMemory> {
    let mut places = Vec::new(alloc);
    for place in handover.places.as_slice() {
        places.push(Level { level: *place })?;
    }
    Ok(OpenHandover {
        domain: handover.domain.try_copy()?,
        new: handover.new,
        old: handover.old,
        places: LevelList::new(places),
        to: handover.to.number,
    })
}

/// What is kept of an entry that was told.
fn told_line(told: &Told) -> Result<ToldEntry, OutOfMemory> {
    Ok(ToldEntry {
        domain: told.domain.try_copy()?,
        key: told.key,
        place: told.place,
        workflow: told.workflow.try_copy()?,
    })
}

/// What is kept of the last entry that was told.
fn last_line(last: Option<Last>) -> Option<LastTold> {
    let Last { place, key } = last?;
    Some(LastTold { key, place })
}

/// The same names.
fn copy_names(alloc: Global, names: &[Name]) -> Result<Domains, OutOfMemory> {
    let mut copies = Vec::new(alloc);
    for name in names {
        copies.push(name.try_copy()?)?;
    }
    Ok(Domains::new(copies))
}

/// The same bytes.
fn copy_bytes(alloc: Global, bytes: &[u8]) -> Result<Items<u8>, OutOfMemory> {
    let mut copy = Vec::new(alloc);
    copy.extend_from_slice(bytes)?;
    Ok(Items::new(copy))
}
