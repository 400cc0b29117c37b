use crate::lane::Lane;
use ndc_event::{Name, OutOfMemory};
use ndc_node_frames::{Late, Place, Spot};
use std::alloc::Global;

/// What a node keeps of another one: as its reader, and as its source.
pub(crate) struct Peer {
    /// What was read of each of its shards.
    pub(crate) lanes: Vec<Lane>,
    /// The domains in which this node is late there, each with how far it has come.
    pub(crate) lacks: Vec<Late>,
    /// The domains of which this node has come to have all, until the other no longer says that it is late.
    pub(crate) has_all: Vec<Name>,
    /// The domains in which the other node is late here.
    pub(crate) owes: Vec<Name>,
    /// Whether the other node was last heard to have the same records.
    pub(crate) same_records: bool,
    /// Whether the other node was last heard to hold the same reports.
    pub(crate) same_reports: bool,
    /// The greatest frame that the other node takes.
    pub(crate) largest: u64,
    /// Whether the other node has not polled since this one was loaded, or found itself behind its past.
    pub(crate) is_awaited: bool,
    /// Whether the other node was last heard to follow the epochs of this one's queues.
    pub(crate) follows: bool,
    /// Whether the other node has sent all that it has for the recall.
    pub(crate) is_recalled: bool,
    /// How far the other node has come with what it sends for the recall.
    pub(crate) spot: Option<Spot>,
}

/// The greatest frame that is sent to a node that has not said yet what it takes.
const FIRST_LARGEST: u64 = 65_536;

impl Drop for Peer {
    fn drop(self) {
        let Peer {
            lanes: _lanes,
            lacks: _lacks,
            has_all: _has_all,
            owes: _owes,
            same_records: _same_records,
            same_reports: _same_reports,
            largest: _largest,
            is_awaited: _is_awaited,
            follows: _follows,
            is_recalled: _is_recalled,
            spot: _spot,
        } = self;
    }
}

/// Whether one of the names is this one.
pub(crate) fn has_name(names: &[Name], name: &Name) -> bool {
    names.iter().any(|one| *one == *name)
}

/// The names without this one.
pub(crate) fn drop_name(names: &mut Vec<Name>, name: &Name) {
    names.retain(|one| *one != *name);
}

impl Peer {
    /// A node of which nothing was heard.
    pub(crate) fn new(alloc: Global, shards: u32, held: usize) -> Result<Peer, OutOfMemory> {
        let mut lanes = Vec::new(alloc);
        for _shard in 0..shards {
            lanes.push(Lane::new(alloc, held))?;
        }
        Ok(Peer {
            lanes,
            lacks: Vec::new(alloc),
            has_all: Vec::new(alloc),
            owes: Vec::new(alloc),
            same_records: false,
            same_reports: false,
            largest: FIRST_LARGEST,
            is_awaited: false,
            follows: false,
            is_recalled: false,
            spot: None,
        })
    }

    /// A recall begins: nothing was sent for it, and the other node has not told the epochs of this one's queues.
    pub(crate) fn begin_recall(&mut self) {
        self.follows = false;
        self.is_recalled = false;
        self.spot = None;
    }

    /// How far this node has come in a domain in which it is late there. None where it is not late.
    pub(crate) fn lack(&self, domain: &Name) -> Option<&Late> {
        self.lacks.iter().find(|late| late.domain == *domain)
    }

    /// The other node holds this one late in these domains: it is late in those of which it has not come to have all, and
    /// no longer keeps in mind that it has all of the others.
    pub(crate) fn hold_late(&mut self, domains: &[Name]) -> Result<(), OutOfMemory> {
        self.fall_late(domains)?;
        self.has_all.retain(|one| has_name(domains, one));
        Ok(())
    }

    /// This node is late there in those of these domains of which it has not come to have all.
    pub(crate) fn fall_late(&mut self, domains: &[Name]) -> Result<(), OutOfMemory> {
        for domain in domains {
            if !has_name(self.has_all.as_slice(), domain) && self.lack(domain).is_none() {
                let domain = domain.try_copy()?;
                self.lacks.push(Late {
                    domain,
                    place: None,
                })?;
            }
        }
        Ok(())
    }

    /// This node has come to have all of a domain.
    pub(crate) fn got_all(&mut self, domain: &Name) -> Result<(), OutOfMemory> {
        self.lacks.retain(|late| late.domain != *domain);
        if !has_name(self.has_all.as_slice(), domain) {
            self.has_all.push(domain.try_copy()?)?;
        }
        Ok(())
    }

    /// This node has come to a place in a domain in which it is late.
    pub(crate) fn come_to(&mut self, domain: &Name, place: Place) {
        for late in self.lacks.as_mut_slice() {
            if late.domain == *domain {
                late.place = Some(place);
                return;
            }
        }
    }

    /// The other node is late in a domain.
    pub(crate) fn owe(&mut self, domain: &Name) -> Result<(), OutOfMemory> {
        if !has_name(self.owes.as_slice(), domain) {
            self.owes.push(domain.try_copy()?)?;
        }
        Ok(())
    }

    /// The batch of a key of a workflow of a shard is learned.
    pub(crate) fn learned(
        &mut self,
        shard: u32,
        domain: &Name,
        workflow: &Name,
        key: ndc_event::BatchKey,
    ) {
        if let Some(lane) = self.lanes.get_mut(shard as usize) {
            lane.learned(domain, workflow, key);
        }
    }
}
