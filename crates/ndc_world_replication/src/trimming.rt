ghost use Rattle.std.specs.Prelude.{◌≡◌, ◌<◌, ◌≤◌, ◌-◌, length, map, min, sum};
ghost use Rattle.std.specs.List.{AllByRecursion, fold};
ghost use Rattle.ndc_script_types.specs.WellFormed.{IsCluster};
ghost use Rattle.ndc_model.specs.Moves.{done_levels, map_from, trimmed_all, trimmed_level};
ghost use Rattle.ndc_model.specs.World.{shards_of, trimmed_at};
ghost use Rattle.ndc_world_replication.specs.Trims.{dropped_now, raised_level, with_trimmed};
ghost use Rattle.ndc_world_replication.specs.Orderly.{IsOrderly};

use crate::publisher::Publisher;
use crate::replication::Replication;
use ndc_cluster::Cell;
use ndc_cluster_links::Link;
use ndc_domain::ClusterNo;
use ndc_script_types::Header;

/// How far all readers of a source are done for a shard, at most up to a level.
fn done_level(links: &[Link], source: ClusterNo, shard: usize, most: u64) -> u64
    requires { AllByRecursion (λ link. shard < length link.lanes) links.now }
    ensures least { result ≡ fold min most (done_levels source shard links.now) }
    ensures most { result ≤ most }
{
    let mut level = most;
    for link in links {
        if link.source().number == source.number {
            level = level.min(link.lanes()[shard].levels().done);
        }
    }
    level
}

/// Trims the queues of a source up to where all of its readers are done, and counts the entries that are dropped now.
fn trim_publisher<C: Cell + Drop>(
    publisher: &mut Publisher<C>,
    links: &[Link],
    source: ClusterNo,
) -> u64
    requires { AllByRecursion (λ link. length link.lanes ≡ length publisher.old.cluster.cells) links.now }
    ensures trimmed { publisher.new ≡ with_trimmed (map_from (raised_level source links.now publisher.old.cluster.cells) 0 publisher.old.trimmed) publisher.old }
    ensures count { result ≡ sum (map_from (dropped_now source links.now publisher.old.cluster.cells) 0 publisher.old.trimmed) }
{
    let mut count = 0;
    for shard in 0..publisher.queues().len() {
        let len = publisher.queues().as_slice()[shard].len();
        let level = done_level(links, source, shard, len);
        count += publisher.trim(shard, level);
    }
    count
}

impl<C: Cell + Drop> Replication<C> {
    /// Drops all entries of each queue of a source that all readers are done with, and counts those that are dropped now.
    /// Takes no memory.
    pub fn trim(&mut self, header: &Header, source: ClusterNo) -> u64
        requires source { IsCluster header.now source }
        requires orderly { IsOrderly header.now self.old }
        ensures trimmed { self.new ≡ trimmed_all header.now source self.old }
        ensures count { result ≡ sum (map (λ shard. trimmed_level source self.old shard - trimmed_at source self.old shard) (shards_of header.now)) }
    {
        let publisher = &mut self.publishers[source.number as usize];
        trim_publisher(publisher, self.links.as_slice(), source)
    }
}
