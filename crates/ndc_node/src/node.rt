use crate::bounds::Bounds;
use crate::error::{CallError, NodeError};
use crate::letter::Letter;
use crate::past::Past;
use crate::peer::Peer;
use crate::seat::Seat;
use ndc_cluster::Home;
use ndc_domain::{ClusterNo, Clusters, DomainTable};
use ndc_event::{Name, OutOfMemory};
use ndc_graceful::Handover;
use ndc_model_cells::shard_of;
use ndc_node_frames::Offer;
use ndc_node_store::UsedVersion;
use ndc_progress::Progress;
use ndc_shard::Shard;
use std::alloc::{AllocError, Global};

/// One data centre of the layer.
pub struct Node {
    pub(crate) alloc: Global,
    pub(crate) clusters: Clusters,
    pub(crate) me: ClusterNo,
    pub(crate) shards: u32,
    pub(crate) limit: u64,
    pub(crate) bounds: Bounds,
    pub(crate) table: DomainTable,
    /// By shard.
    pub(crate) seats: Vec<Seat>,
    /// By the number of the cluster; that of the node itself stays as it was made.
    pub(crate) peers: Vec<Peer>,
    pub(crate) progress: Progress,
    /// The handovers that were begun here and are open.
    pub(crate) open: Vec<Handover>,
    /// The handovers that were told to this node, one a domain.
    pub(crate) offers: Vec<Offer>,
    pub(crate) letters: Vec<Letter>,
    /// Whether it has all that it has given out.
    pub(crate) past: Past,
    /// The greatest epoch of its queues that a reader has told.
    pub(crate) newest: u64,
    /// With which versions of its own it may have written to domains before it lost something, one a domain.
    pub(crate) used: Vec<UsedVersion>,
    /// Whether a call ran out of memory.
    pub(crate) is_spent: bool,
}

impl Drop for Node {
    fn drop(self) {
        let Node {
            alloc: _alloc,
            clusters: _clusters,
            me: _me,
            shards: _shards,
            limit: _limit,
            bounds: _bounds,
            table: _table,
            seats: _seats,
            peers: _peers,
            progress: _progress,
            open: _open,
            offers: _offers,
            letters: _letters,
            past: _past,
            newest: _newest,
            used: _used,
            is_spent: _is_spent,
        } = self;
    }
}

/// The greatest number of shards.
const MAX_SHARDS: u32 = 64;

/// The least and the greatest limit of histories.
const MIN_LIMIT: u64 = 10;

const MAX_LIMIT: u64 = 204_800;

/// The shards of a node, in which nothing has happened.
fn new_seats(
    alloc: Global,
    home: &Home,
    shards: u32,
    readers: usize,
) -> Result<Vec<Seat>, OutOfMemory> {
    let mut seats = Vec::new(alloc);
    for _shard in 0..shards {
        seats.push(Seat::new(alloc, home, readers)?)?;
    }
    Ok(seats)
}

/// The other nodes, of which nothing was heard.
fn new_peers(
    alloc: Global,
    count: u32,
    shards: u32,
    held: usize,
) -> Result<Vec<Peer>, OutOfMemory> {
    let mut peers = Vec::new(alloc);
    for _peer in 0..count {
        peers.push(Peer::new(alloc, shards, held)?)?;
    }
    Ok(peers)
}

impl From<AllocError> for NodeError {
    fn from(_error: AllocError) -> NodeError {
        NodeError::Memory
    }
}

impl Node {
    /// A node in which nothing has happened: one of these clusters, with so many shards (1 to 64), the limit of histories
    /// (10 to 204,800) and its bounds. All nodes of a network are made with the same clusters, shards and limit.
    pub fn new(
        alloc: Global,
        clusters: Clusters,
        me: ClusterNo,
        shards: u32,
        limit: u64,
        bounds: Bounds,
    ) -> Result<Node, NodeError> {
        let count = clusters.count();
        if count <= me.number {
            return Err(NodeError::NoCluster);
        }
        if shards == 0 || MAX_SHARDS < shards {
            return Err(NodeError::Shards);
        }
        if limit < MIN_LIMIT || MAX_LIMIT < limit {
            return Err(NodeError::Limit);
        }
        let home = Home {
            clusters: &clusters,
            me,
            limit,
        };
        let seats = new_seats(alloc, &home, shards, count as usize - 1)?;
        let peers = new_peers(alloc, count, shards, bounds.held)?;
        Ok(Node {
            alloc,
            clusters,
            me,
            shards,
            limit,
            bounds,
            table: DomainTable::new(alloc),
            seats,
            peers,
            progress: Progress::new(alloc),
            open: Vec::new(alloc),
            offers: Vec::new(alloc),
            letters: Vec::new(alloc),
            past: Past::Whole,
            newest: 0,
            used: Vec::new(alloc),
            is_spent: false,
        })
    }

    /// All clusters of the network.
    pub fn clusters(&self) -> &Clusters {
        &self.clusters
    }

    /// Which of them the node is.
    pub fn me(&self) -> ClusterNo {
        self.me
    }

    /// The node's name.
    pub fn name(&self) -> &[u8] {
        if self.clusters.count() <= self.me.number {
            return &[];
        }
        self.clusters.name(self.me).as_bytes()
    }

    /// How many shards there are.
    pub fn shards(&self) -> u32 {
        self.shards
    }

    /// Its domain records.
    pub fn records(&self) -> &DomainTable {
        &self.table
    }

    /// Whether a call ran out of memory: all further calls that change something are refused.
    pub fn is_spent(&self) -> bool {
        self.is_spent
    }

    /// Whether another node knows more of what this one has given out than the node itself: it writes nothing until the
    /// others have sent it what it lacks, or [`Node::force`] is called.
    pub fn is_behind_its_past(&self) -> bool {
        self.past != Past::Whole
    }

    /// The cell in which a workflow lives, to be read.
    pub fn cell_of(&self, domain: &Name, workflow: &Name) -> Option<&Shard> {
        let shard = self.shard_of(domain, workflow);
        Some(&self.seats.get(shard as usize)?.cell)
    }

    /// The cell of a shard, to be read.
    pub fn cell(&self, shard: u32) -> Option<&Shard> {
        Some(&self.seats.get(shard as usize)?.cell)
    }

    /// The shard in which a workflow lives.
    pub(crate) fn shard_of(&self, domain: &Name, workflow: &Name) -> u32 {
        if self.shards == 0 {
            return 0;
        }
        shard_of(domain, workflow, self.shards)
    }

    /// A reader's place among the levels of a queue: the clusters in order, without this one.
    pub(crate) fn reader_of(&self, peer: ClusterNo) -> usize {
        if peer.number <= self.me.number {
            peer.number as usize
        } else {
            peer.number as usize - 1
        }
    }

    /// The other clusters, in order.
    pub(crate) fn others(&self) -> Result<Vec<ClusterNo>, OutOfMemory> {
        let mut others = Vec::new(self.alloc);
        for number in 0..self.clusters.count() {
            if number != self.me.number {
                others.push(ClusterNo { number })?;
            }
        }
        Ok(others)
    }

    /// Begins a call that changes something: refused where the node is spent. Until it ends, the node counts as spent.
    pub(crate) fn begin<E>(&mut self) -> Result<(), CallError<E>> {
        if self.is_spent {
            return Err(CallError::Spent);
        }
        self.is_spent = true;
        Ok(())
    }

    /// Ends the node, and gives its memory back.
    pub fn close(self) {}

    /// Begins a call that writes: refused where the node is spent, or behind its past, or others have to poll before.
    pub(crate) fn begin_writing<E>(&mut self) -> Result<(), CallError<E>> {
        if self.is_spent {
            return Err(CallError::Spent);
        }
        if self.past != Past::Whole {
            return Err(CallError::BehindItsPast);
        }
        if self.is_awaiting() {
            return Err(CallError::Awaiting);
        }
        self.is_spent = true;
        Ok(())
    }

    /// Ends a call: the node is spent where memory ran out.
    pub(crate) fn end<T, E>(&mut self, done: Result<T, CallError<E>>) -> Result<T, CallError<E>> {
        self.is_spent = matches!(done, Err(CallError::Memory));
        done
    }
}
