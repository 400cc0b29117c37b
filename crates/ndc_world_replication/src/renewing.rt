ghost use Rattle.std.specs.Prelude.{◌≡◌, length, map};
ghost use Rattle.ndc_script_types.specs.WellFormed.{IsCluster};
ghost use Rattle.ndc_model.specs.Moves.{renewed, renewed_link};
ghost use Rattle.ndc_model.specs.World.{World};
ghost use Rattle.ndc_world_replication.specs.Orderly.{IsOrderly};

use crate::own::own_places;
use crate::publisher::Publisher;
use crate::replication::Replication;
use ndc_cluster::Cell;
use ndc_cluster_links::Link;
use ndc_domain::ClusterNo;
use ndc_script_types::Header;

impl<C: Cell + Drop> Replication<C> {
    /// Renews the levels of a reader, of each source and shard. Links of other readers are not looked at. Takes no memory.
    pub fn renew(&mut self, header: &Header, reader: ClusterNo)
        requires reader { IsCluster header.now reader }
        requires orderly { IsOrderly header.now self.old }
        ensures { self.new ≡ renewed self.old reader }
    {
        let (first, last) = own_places(header, reader);
        for place in first..last {
            let link = &mut self.links[place];
            if link.reader().number == reader.number {
                let source = &self.publishers[link.source().number as usize];
                let own = &self.publishers[reader.number as usize];
                link.renew(source.table(), own.cells(), source.queues());
            }
        }
    }
}
