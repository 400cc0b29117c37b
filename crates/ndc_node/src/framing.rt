use crate::node::Node;
use ndc_domain::{ClusterNo, Clusters};
use ndc_event::{Items, Name, OutOfMemory};
use ndc_node_frames::{Body, Frame, Header, Seat, Seats, frame_text};
use std::alloc::AllocError;

/// Whether a header is that of a network of these clusters.
pub(crate) fn is_same_header(
    clusters: &Clusters,
    shards: u32,
    limit: u64,
    header: &Header,
) -> bool {
    header.increment == clusters.increment()
        && header.shards == shards
        && header.limit == limit
        && are_same_seats(clusters, header.clusters.as_slice())
}

/// Whether the clusters of a header are these, in order.
fn are_same_seats(clusters: &Clusters, seats: &[Seat]) -> bool {
    let count = clusters.count();
    if seats.len() != count as usize {
        return false;
    }
    for number in 0..count {
        let cluster = ClusterNo { number };
        let Some(seat) = seats.get(number as usize) else {
            return false;
        };
        if seat.initial != clusters.initial(cluster) || seat.name != *clusters.name(cluster) {
            return false;
        }
    }
    true
}

impl Node {
    /// The header of the node's frames.
    pub(crate) fn header(&self) -> Result<Header, OutOfMemory> {
        let mut seats = Vec::new(self.alloc);
        for number in 0..self.clusters.count() {
            let cluster = ClusterNo { number };
            seats.push(Seat {
                name: self.clusters.name(cluster).try_copy()?,
                initial: self.clusters.initial(cluster),
            })?;
        }
        Ok(Header {
            clusters: Seats::new(seats),
            increment: self.clusters.increment(),
            limit: self.limit,
            shards: self.shards,
        })
    }

    /// The name of a cluster.
    pub(crate) fn name_of(&self, cluster: ClusterNo) -> Result<Name, OutOfMemory> {
        if self.clusters.count() <= cluster.number {
            return Err(AllocError);
        }
        self.clusters.name(cluster).try_copy()
    }

    /// A frame of this node for another one.
    pub(crate) fn frame_of(&self, to: ClusterNo, body: Body) -> Result<Frame, OutOfMemory> {
        Ok(Frame {
            from: self.name_of(self.me)?,
            to: self.name_of(to)?,
            header: self.header()?,
            body,
        })
    }

    /// The text of a frame of this node for another one.
    pub(crate) fn frame(&self, to: ClusterNo, body: Body) -> Result<Items<u8>, OutOfMemory> {
        let frame = self.frame_of(to, body)?;
        Ok(Items::new(frame_text(self.alloc, &frame)?))
    }
}
