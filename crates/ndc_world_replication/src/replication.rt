use crate::publisher::Publisher;
use ndc_cluster::Cell;
use ndc_cluster_links::Link;
use ndc_graceful::Handover;
use std::marker::Model;

/// All clusters in header order, what each reader has of each source, and the open handovers. Seen as a world.
pub struct Replication<C: Cell + Drop> {
    pub(crate) publishers: Vec<Publisher<C>>,
    pub(crate) links: Vec<Link>,
    pub(crate) handovers: Vec<Handover>,
}

impl<C: Cell + Drop> Model for Replication<C> {
    ghost use Rattle.ndc_model.specs.World.{World};
    ghost use Rattle.ndc_world_replication.specs.Replications.{world_of};

    ghost Value = { World };

    ghost view = { λ replication. world_of replication.publishers.items replication.links.items replication.handovers.items };
}

impl<C: Cell + Drop> Drop for Replication<C> {
    fn drop(self) {
        let Replication {
            publishers: _publishers,
            links: _links,
            handovers: _handovers,
        } = self;
    }
}

impl<C: Cell + Drop> Replication<C> {
    ghost use Rattle.std.specs.Prelude.{◌≡◌, map};
    ghost use Rattle.ndc_world_replication.specs.Publishers.{PublisherValue};

    /// The clusters, in header order. Takes no memory.
    pub fn publishers(&self) -> &[Publisher<C>]
        ensures clusters { map (λ (publisher : PublisherValue). publisher.cluster) result.now ≡ self.now.clusters }
        ensures trimmed { map (λ (publisher : PublisherValue). publisher.trimmed) result.now ≡ self.now.trimmed }
    {
        self.publishers.as_slice()
    }

    /// What each reader has of each source. Takes no memory.
    pub fn links(&self) -> &[Link]
        ensures { result.now ≡ self.now.links }
    {
        self.links.as_slice()
    }

    /// The open handovers. Takes no memory.
    pub fn handovers(&self) -> &[Handover]
        ensures { result.now ≡ self.now.handovers }
    {
        self.handovers.as_slice()
    }
}
