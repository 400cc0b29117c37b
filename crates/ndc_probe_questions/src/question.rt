use ndc_domain::ClusterNo;
use ndc_event::Name;

/// What a reader has of a source for a shard of the header.
#[derive(Clone, Copy, Debug, PartialEq, Eq)]
pub struct LaneAt {
    /// The cluster that reads.
    pub reader: ClusterNo,
    /// The cluster that it reads from.
    pub source: ClusterNo,
    /// The shard, counted from 0.
    pub shard: u32,
}

/// A domain at a cluster.
#[derive(Debug, Drop)]
pub struct DomainAt {
    /// The cluster.
    pub cluster: ClusterNo,
    /// The domain.
    pub domain: Name,
}

/// What a comment of a script asks.
#[derive(Debug, Drop)]
pub enum Question {
    /// What is in flight.
    Flight(LaneAt),
    /// What keeps the level `done` of a reader below the end of the source's queue.
    Holds(LaneAt),
    /// What is kept of the queue of a source for a shard.
    Queue {
        source: ClusterNo,
        shard: u32,
    },
    /// Of which domains the reader came to be a member late, and lacks what the source had before.
    Late {
        reader: ClusterNo,
        source: ClusterNo,
    },
    /// Of which workflows of a domain a cluster has learned something.
    Workflows(DomainAt),
    /// Which of these have a run with more than one branch.
    Forks(DomainAt),
    /// Their dumps.
    Dumps(DomainAt),
    /// Of which workflows of a domain two clusters have not learned the same.
    Differs {
        one: ClusterNo,
        two: ClusterNo,
        domain: Name,
    },
}
