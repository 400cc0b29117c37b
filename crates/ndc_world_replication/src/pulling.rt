ghost use Rattle.std.specs.Prelude.{◌≡◌, ◌<◌, None, Some, position, sum, IfOk, OnErr, OnOk};
ghost use Rattle.ndc_script_types.specs.WellFormed.{AreTwoClusters, IsCluster};
ghost use Rattle.ndc_model.specs.Moves.{map_from, pulled_all, pulled_shard};
ghost use Rattle.ndc_model.specs.Sending.{pull_count};
ghost use Rattle.ndc_model.specs.World.{is_link, lane_at, link_at};
ghost use Rattle.ndc_world_replication.specs.Orderly.{IsOrderly};

use crate::replication::Replication;
use ndc_cluster::Cell;
use ndc_cluster_links::Link;
use ndc_domain::ClusterNo;
use ndc_event::OutOfMemory;
use ndc_script_types::Header;

/// Where what a reader has of a source stands among the links.
pub(crate) fn link_place(links: &[Link], reader: ClusterNo, source: ClusterNo) -> Option<usize>
    ensures { result ≡ position (is_link reader source) links.now }
{
    links.iter().position(|link| link.is(reader, source))
}

impl<C: Cell + Drop> Replication<C> {
    /// A reader takes all entries of each queue of a source from `read` on; those that are addressed to it go last in
    /// flight, and are counted. After want of memory some shards were pulled.
    pub fn pull(
        &mut self,
        header: &Header,
        reader: ClusterNo,
        source: ClusterNo,
    ) -> Result<u64, OutOfMemory>
        requires source { IsCluster header.now source }
        requires orderly { IsOrderly header.now self.old }
        ensures pulled { OnOk result (self.new ≡ pulled_all reader source self.old) }
        ensures count { IfOk result (λ sent. sent ≡ sum (map_from (pull_count self.old None (link_at reader source self.old)) 0 (link_at reader source self.old).lanes)) }
    {
        let Some(place) = link_place(self.links.as_slice(), reader, source) else {
            return Ok(0);
        };
        let publisher = &self.publishers[source.number as usize];
        let link = &mut self.links[place];
        let sent = link.pull(publisher.table(), publisher.queues())?;
        Ok(sent)
    }

    /// The same for one shard, at most so many entries. Where memory runs out, all stays as it was.
    pub fn pull_some(
        &mut self,
        header: &Header,
        reader: ClusterNo,
        source: ClusterNo,
        shard: u32,
        count: u64,
    ) -> Result<u64, OutOfMemory>
        requires ends { AreTwoClusters header.now reader source }
        requires shard { shard < header.now.shards }
        requires orderly { IsOrderly header.now self.old }
        ensures pulled { OnOk result (self.new ≡ pulled_shard reader source shard count self.old) }
        ensures count { IfOk result (λ sent. sent ≡ pull_count self.old (Some count) (link_at reader source self.old) shard (lane_at reader source shard self.old)) }
        ensures unchanged { OnErr result (self.new ≡ self.old) }
    {
        let Some(place) = link_place(self.links.as_slice(), reader, source) else {
            return Ok(0);
        };
        let publisher = &self.publishers[source.number as usize];
        let queues = publisher.queues().as_slice();
        let queue = &queues[shard as usize];
        let link = &mut self.links[place];
        let sent = link.pull_some(publisher.table(), shard as usize, count, queue)?;
        Ok(sent)
    }
}
