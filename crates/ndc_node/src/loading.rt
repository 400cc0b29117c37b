use crate::bounds::Bounds;
use crate::error::NodeError;
use crate::lane::{Lane, Last};
use crate::letter::Letter;
use crate::node::Node;
use crate::past::Past;
use crate::records::{RecordFault, put_record, record_fault};
use ndc_domain::{ClusterNo, Clusters, ClustersError};
use ndc_event::OutOfMemory;
use ndc_graceful::{Handover, Places};
use ndc_model_cells::Message;
use ndc_node_frames::{Header, Seat, ToldRecord};
use ndc_node_lanes::{HearError, Told, ToldLevels};
use ndc_node_store::{
    BatchPlace, LaneLine, LastTold, LetterLine, Level, Line, LineFault, NodeLine, OpenHandover,
    PeerLine, ShardLine, ToldEntry, WholeLine, split_line,
};
use ndc_queue::{MAX_ENTRIES, Queue};
use ndc_shard::{Admission, AdmitError, CellTerms, NotAdmitted};
use ndc_state::Steps;
use std::alloc::{AllocError, AllocFailed, Global};
use thiserror::Error;

/// Counts the steps of learning again.
struct Restoring;

/// Why no node is made of a text: the first cause on the way through its lines.
#[derive(Clone, Copy, Debug, PartialEq, Eq, Error)]
#[error("line {line}: {cause}")]
pub struct LoadError {
    /// The line, counted from 1.
    pub line: u64,
    /// What is wrong with it.
    pub cause: LoadCause,
}

/// What is wrong with a line of a store.
#[derive(Clone, Copy, Debug, PartialEq, Eq, Error)]
pub enum LoadCause {
    /// There is no such line: the text ends before its mark.
    #[error("the store is not whole")]
    NotWhole,
    /// It is no line of a store.
    #[error("{0}")]
    Line(LineFault),
    /// It is not a line that may stand there.
    #[error("the line is out of turn")]
    OutOfTurn,
    /// The clusters of its header are none of a network.
    #[error("{0}")]
    Clusters(ClustersError),
    /// No node is made of its header.
    #[error("{0}")]
    Node(NodeError),
    /// A number in it is that of no cluster.
    #[error("there is no such cluster")]
    NoCluster,
    /// Its record breaks a rule.
    #[error("{0}")]
    Record(RecordFault),
    /// Its message is of a workflow of another shard.
    #[error("the message is of another shard")]
    OtherShard,
    /// Its message is not admitted.
    #[error("{0}")]
    NotAdmitted(NotAdmitted),
    /// Its message is not learned where it should be, or not put off where it should be.
    #[error("the message does not come to what the line says")]
    NotAsSaid,
    /// It names a batch that is not learned.
    #[error("the batch of the entry is not learned")]
    NotLearned,
    /// What it tells of a lane is not so of any.
    #[error("{0}")]
    Lane(HearError),
    /// It is not what the node that is made of the text stores there.
    #[error("the line is not what the node stores")]
    NotAsStored,
    /// Memory ran out.
    #[error("out of memory")]
    Memory,
}

impl From<AllocError> for LoadCause {
    fn from(_error: AllocError) -> LoadCause {
        LoadCause::Memory
    }
}

impl<T: Drop> From<AllocFailed<T>> for LoadCause {
    fn from(_failed: AllocFailed<T>) -> LoadCause {
        LoadCause::Memory
    }
}

impl From<LineFault> for LoadCause {
    fn from(fault: LineFault) -> LoadCause {
        match fault {
            LineFault::Memory => LoadCause::Memory,
            other => LoadCause::Line(other),
        }
    }
}

impl From<NodeError> for LoadCause {
    fn from(error: NodeError) -> LoadCause {
        match error {
            NodeError::Memory => LoadCause::Memory,
            other => LoadCause::Node(other),
        }
    }
}

/// A node that is being made of a text.
struct Loading {
    node: Node,
    /// The other clusters, in order.
    others: Vec<ClusterNo>,
    /// How many lines of shards, of other nodes, and of lanes of the last one there were.
    shards: usize,
    peers: usize,
    lanes: usize,
    /// Whether there was the mark.
    is_whole: bool,
}

impl Drop for Loading {
    fn drop(self) {
        let Loading {
            node: _node,
            others: _others,
            shards: _shards,
            peers: _peers,
            lanes: _lanes,
            is_whole: _is_whole,
        } = self;
    }
}

impl Node {
    /// Makes the node of a text again, with these bounds. It is made exactly where the text is what [`Node::store`] gives of
    /// it, and its cells take each message as one that nobody vouches for. Refused with the first line that is wrong, and
    /// why. It is as it was when it was stored: where others may know more of it, the caller calls [`Node::loaded`].
    pub fn load(alloc: Global, text: &[u8], bounds: Bounds) -> Result<Node, LoadError> {
        let node = read_all(alloc, text, bounds)?;
        match node.store() {
            Ok(stored) if stored.as_slice() == text => Ok(node),
            Ok(stored) => Err(LoadError {
                line: first_difference(stored.as_slice(), text),
                cause: LoadCause::NotAsStored,
            }),
            Err(_) => Err(LoadError {
                line: 0,
                cause: LoadCause::Memory,
            }),
        }
    }
}

/// The node of a text, line by line.
fn read_all(alloc: Global, text: &[u8], bounds: Bounds) -> Result<Node, LoadError> {
    let (mut loading, mut rest) = begin(alloc, text, bounds)?;
    for number in 2..u64::MAX {
        if loading.is_whole && rest.is_empty() {
            return Ok(loading.into_node());
        }
        let Some((line, after)) = split_line(rest) else {
            return Err(LoadError {
                line: number,
                cause: LoadCause::NotWhole,
            });
        };
        if let Err(cause) = loading.take_text(line, number) {
            return Err(LoadError {
                line: number,
                cause,
            });
        }
        rest = after;
    }
    Err(LoadError {
        line: u64::MAX,
        cause: LoadCause::NotWhole,
    })
}

/// The node of the first line, in which nothing has happened, and what comes after that line.
fn begin(alloc: Global, text: &[u8], bounds: Bounds) -> Result<(Loading, &[u8]), LoadError> {
    let Some((line, rest)) = split_line(text) else {
        return Err(LoadError {
            line: 1,
            cause: LoadCause::NotWhole,
        });
    };
    match begun(alloc, line, bounds) {
        Ok(loading) => Ok((loading, rest)),
        Err(cause) => Err(LoadError { line: 1, cause }),
    }
}

/// The node of the first line, in which nothing has happened.
fn begun(alloc: Global, line: &[u8], bounds: Bounds) -> Result<Loading, LoadCause> {
    let Line::Node(line) = Line::read(alloc, line)? else {
        return Err(LoadCause::OutOfTurn);
    };
    let NodeLine {
        behind,
        header,
        name,
        newest,
        recalling,
    } = line;
    let Header {
        clusters,
        increment,
        limit,
        shards,
    } = header;
    let clusters = clusters_of(alloc, increment, clusters.into_vec())?;
    let Some(me) = clusters.find(name.as_bytes()) else {
        return Err(LoadCause::NoCluster);
    };
    let mut node = Node::new(alloc, clusters, me, shards, limit, bounds)?;
    node.newest = newest;
    node.past = past_of(behind, recalling);
    let others = node.others()?;
    Ok(Loading {
        node,
        others,
        shards: 0,
        peers: 0,
        lanes: 0,
        is_whole: false,
    })
}

/// Whether a node has all that it has given out, by the flags of its line.
fn past_of(behind: bool, recalling: bool) -> Past {
    if !behind {
        Past::Whole
    } else if recalling {
        Past::Recalling
    } else {
        Past::Behind
    }
}

/// The clusters of a header.
fn clusters_of(alloc: Global, increment: u64, seats: Vec<Seat>) -> Result<Clusters, LoadCause> {
    let mut members = Vec::new(alloc);
    for seat in seats {
        let Seat { name, initial } = seat;
        members.push((name, initial))?;
    }
    match Clusters::build(increment, members) {
        Ok(clusters) => Ok(clusters),
        Err(error) => Err(LoadCause::Clusters(error)),
    }
}

/// The first line in which two texts differ, counted from 1.
fn first_difference(one: &[u8], other: &[u8]) -> u64 {
    let (mut one, mut other) = (one, other);
    for number in 1..u64::MAX {
        match (split_line(one), split_line(other)) {
            (Some((line, rest)), Some((there, after))) if line == there => {
                one = rest;
                other = after;
            }
            _ => return number,
        }
    }
    u64::MAX
}

impl Loading {
    /// The node that was made.
    fn into_node(self) -> Node {
        let Loading {
            node,
            others: _others,
            shards: _shards,
            peers: _peers,
            lanes: _lanes,
            is_whole: _is_whole,
        } = self;
        node
    }

    /// Takes the text of a line of this number.
    fn take_text(&mut self, line: &[u8], number: u64) -> Result<(), LoadCause> {
        if self.is_whole {
            return Err(LoadCause::OutOfTurn);
        }
        let line = Line::read(self.node.alloc, line)?;
        self.take(line, number)
    }

    /// Takes a line of this number.
    fn take(&mut self, line: Line, number: u64) -> Result<(), LoadCause> {
        match line {
            Line::Shard(line) => self.take_shard(line),
            Line::Learned(message) => self.learn(message),
            Line::Waits(message) => self.put_off(message),
            Line::Queued(place) => self.queue_up(&place),
            Line::Peer(line) => self.take_peer(line),
            Line::Lane(line) => self.take_lane(line),
            Line::Letter(letter) => self.take_letter(letter),
            Line::Whole(WholeLine { lines }) => {
                self.is_whole = lines.saturating_add(1) == number;
                if self.is_whole {
                    Ok(())
                } else {
                    Err(LoadCause::OutOfTurn)
                }
            }
            other => self.take_of_node(other),
        }
    }

    /// Takes a line of the node itself.
    fn take_of_node(&mut self, line: Line) -> Result<(), LoadCause> {
        match line {
            Line::Record(ToldRecord { record }) => {
                if let Some(fault) = record_fault(&self.node.clusters, &record) {
                    return Err(LoadCause::Record(fault));
                }
                put_record(&mut self.node.table, record)?;
                Ok(())
            }
            Line::Used(used) => {
                self.node.used.push(used)?;
                Ok(())
            }
            Line::Handover(handover) => self.take_handover(handover),
            Line::Offer(offer) => {
                self.node.offers.push(offer)?;
                Ok(())
            }
            Line::Report(told) => {
                self.node.progress.take(&told.report)?;
                Ok(())
            }
            _ => Err(LoadCause::OutOfTurn),
        }
    }

    /// A cluster by its number.
    fn cluster(&self, number: u32) -> Result<ClusterNo, LoadCause> {
        if number < self.node.clusters.count() {
            Ok(ClusterNo { number })
        } else {
            Err(LoadCause::NoCluster)
        }
    }

    /// A handover that was begun here.
    fn take_handover(&mut self, handover: OpenHandover) -> Result<(), LoadCause> {
        let OpenHandover {
            domain,
            new,
            old,
            places,
            to,
        } = handover;
        let to = self.cluster(to)?;
        let mut ends = Vec::new(self.node.alloc);
        for place in places.as_slice() {
            ends.push(place.level)?;
        }
        self.node.open.push(Handover {
            domain,
            from: self.node.me,
            to,
            old,
            new,
            places: Places::new(ends),
        })?;
        Ok(())
    }

    /// A message that was set aside.
    fn take_letter(&mut self, letter: LetterLine) -> Result<(), LoadCause> {
        let LetterLine {
            at,
            cause,
            source,
            text,
        } = letter;
        let source = self.cluster(source)?;
        self.node.letters.push(Letter {
            source,
            at,
            text,
            cause,
        })?;
        Ok(())
    }

    /// The next shard: the levels of its queue, which has no entries yet.
    fn take_shard(&mut self, line: ShardLine) -> Result<(), LoadCause> {
        let alloc = self.node.alloc;
        let ShardLine { epoch, first, told } = line;
        let Some(seat) = self.node.seats.get_mut(self.shards) else {
            return Err(LoadCause::OutOfTurn);
        };
        if MAX_ENTRIES < first || told.as_slice().len() != seat.levels.readers() {
            return Err(LoadCause::OutOfTurn);
        }
        seat.queue = Queue::trimmed_to(alloc, first);
        seat.levels = levels_of(alloc, epoch, told.as_slice())?;
        self.shards = self.shards.saturating_add(1);
        Ok(())
    }

    /// The place of the shard of which the lines are.
    fn shard(&self) -> Result<usize, LoadCause> {
        match self.shards.checked_sub(1) {
            Some(shard) => Ok(shard),
            None => Err(LoadCause::OutOfTurn),
        }
    }

    /// A message comes to the cell of the shard.
    fn admit(&mut self, message: Message) -> Result<Admission, LoadCause> {
        let shard = self.shard()?;
        let at = self
            .node
            .shard_of(&message.batch.domain, &message.batch.workflow);
        if at as usize != shard {
            return Err(LoadCause::OtherShard);
        }
        let Some(seat) = self.node.seats.get_mut(shard) else {
            return Err(LoadCause::OutOfTurn);
        };
        let terms = CellTerms {
            clusters: &self.node.clusters,
            me: self.node.me,
            recall: true,
            most_waiting: u64::MAX,
        };
        let mut steps: Steps<Restoring> = Steps::new();
        match seat.cell.admit(&terms, message, &mut steps) {
            Ok(admission) => Ok(admission),
            Err(AdmitError::Memory) | Err(AdmitError::Spent) => Err(LoadCause::Memory),
        }
    }

    /// A message that is learned.
    fn learn(&mut self, message: Message) -> Result<(), LoadCause> {
        match self.admit(message)? {
            Admission::Learned { .. } => Ok(()),
            Admission::Refused { cause } => Err(LoadCause::NotAdmitted(cause)),
            _ => Err(LoadCause::NotAsSaid),
        }
    }

    /// A message that is put off.
    fn put_off(&mut self, message: Message) -> Result<(), LoadCause> {
        let copy = message.try_copy()?;
        match self.admit(message)? {
            Admission::PutOff { .. } => {}
            Admission::Refused { cause } => return Err(LoadCause::NotAdmitted(cause)),
            _ => return Err(LoadCause::NotAsSaid),
        }
        let shard = self.shard()?;
        if let Some(seat) = self.node.seats.get_mut(shard) {
            seat.put_off.push(copy)?;
        }
        Ok(())
    }

    /// An entry that is kept of the queue.
    fn queue_up(&mut self, place: &BatchPlace) -> Result<(), LoadCause> {
        let shard = self.shard()?;
        let Some(seat) = self.node.seats.get_mut(shard) else {
            return Err(LoadCause::OutOfTurn);
        };
        match seat
            .cell
            .message(&place.domain, &place.workflow, place.key)?
        {
            Some(message) => {
                seat.queue.push(message)?;
                Ok(())
            }
            None => Err(LoadCause::NotLearned),
        }
    }

    /// The number of another node, counted from 1 among the others.
    fn other(&self, count: usize) -> Result<usize, LoadCause> {
        let Some(place) = count.checked_sub(1) else {
            return Err(LoadCause::OutOfTurn);
        };
        match self.others.get(place) {
            Some(other) => Ok(other.number as usize),
            None => Err(LoadCause::OutOfTurn),
        }
    }

    /// The next one of the other nodes.
    fn take_peer(&mut self, line: PeerLine) -> Result<(), LoadCause> {
        self.peers = self.peers.saturating_add(1);
        self.lanes = 0;
        let number = self.other(self.peers)?;
        let Some(peer) = self.node.peers.get_mut(number) else {
            return Err(LoadCause::OutOfTurn);
        };
        let PeerLine {
            all,
            awaited,
            follows,
            largest,
            late,
            owes,
            recalled,
            records,
            reports,
            spot,
        } = line;
        peer.has_all = all.into_vec();
        peer.is_awaited = awaited;
        peer.follows = follows;
        peer.largest = largest;
        peer.lacks = late.into_vec();
        peer.owes = owes.into_vec();
        peer.is_recalled = recalled;
        peer.same_records = records;
        peer.same_reports = reports;
        peer.spot = spot;
        Ok(())
    }

    /// The next lane of the other node.
    fn take_lane(&mut self, line: LaneLine) -> Result<(), LoadCause> {
        let number = self.other(self.peers)?;
        let lane = lane_of(self.node.alloc, self.node.bounds.held, line)?;
        let Some(peer) = self.node.peers.get_mut(number) else {
            return Err(LoadCause::OutOfTurn);
        };
        let Some(slot) = peer.lanes.get_mut(self.lanes) else {
            return Err(LoadCause::OutOfTurn);
        };
        *slot = lane;
        self.lanes = self.lanes.saturating_add(1);
        Ok(())
    }
}

/// The levels that readers have told under an epoch.
fn levels_of(alloc: Global, epoch: u64, told: &[Level]) -> Result<ToldLevels, OutOfMemory> {
    let mut levels = ToldLevels::new(alloc, epoch, told.len())?;
    let mut reader: usize = 0;
    for one in told {
        if reader < levels.readers() {
            let _telling = levels.tell(reader, epoch, one.level, u64::MAX);
        }
        reader = reader.saturating_add(1);
    }
    Ok(levels)
}

/// The lane of a line, where not more is held than may be.
fn lane_of(alloc: Global, most: usize, line: LaneLine) -> Result<Lane, LoadCause> {
    let LaneLine {
        epoch,
        held,
        last,
        read,
    } = line;
    let mut told = Vec::new(alloc);
    for entry in held.into_vec() {
        let ToldEntry {
            domain,
            key,
            place,
            workflow,
        } = entry;
        told.push(Told {
            place,
            domain,
            workflow,
            key,
        })?;
    }
    match Lane::again(alloc, most, epoch, read, told, last_of(last)) {
        Ok(lane) => Ok(lane),
        Err(HearError::Memory) => Err(LoadCause::Memory),
        Err(error) => Err(LoadCause::Lane(error)),
    }
}

/// The last entry that was told.
fn last_of(last: Option<LastTold>) -> Option<Last> {
    let LastTold { key, place } = last?;
    Some(Last { place, key })
}
