use crate::node::Node;
use ndc_domain::ClusterNo;

/// How far a shard of a node has come.
#[derive(Clone, Copy, Debug)]
pub struct ShardStatus {
    /// How many entries its queue has, with those that were dropped.
    pub entries: u64,
    /// How many of them were dropped.
    pub dropped: u64,
    /// The least level that a reader has told: what may be dropped. None where there is no other node.
    pub least: Option<u64>,
    /// How many messages are put off.
    pub put_off: u64,
}

/// How far a node has come with a source.
#[derive(Clone, Copy, Debug)]
pub struct PeerStatus {
    /// How many entries of a shard's queue were told.
    pub read: u64,
    /// How many of them are done.
    pub done: u64,
    /// How many that were told are not learned.
    pub held: usize,
    /// In how many domains this node is late there.
    pub lacks: usize,
    /// In how many domains the other one is late here.
    pub owes: usize,
}

impl Node {
    /// How far a shard has come. None where there is no such shard. Takes no memory.
    pub fn shard_status(&self, shard: u32) -> Option<ShardStatus> {
        let seat = self.seats.get(shard as usize)?;
        Some(ShardStatus {
            entries: seat.queue.len(),
            dropped: seat.queue.first(),
            least: seat.levels.trim_level(),
            put_off: seat.waiting(),
        })
    }

    /// How far the node has come with a shard of a source. None where there is no such cluster or shard. Takes no memory.
    pub fn peer_status(&self, source: ClusterNo, shard: u32) -> Option<PeerStatus> {
        let peer = self.peers.get(source.number as usize)?;
        let lane = peer.lanes.get(shard as usize)?;
        Some(PeerStatus {
            read: lane.read().read(),
            done: lane.read().done(),
            held: lane.read().held().len(),
            lacks: peer.lacks.len(),
            owes: peer.owes.len(),
        })
    }
}
