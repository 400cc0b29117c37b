ghost use Rattle.std.specs.Prelude.{◌≡◌, ◌<◌, [], find, length, option_copied, position, slice_index_or};
ghost use Rattle.ndc_script_types.specs.WellFormed.{IsCluster};
ghost use Rattle.ndc_model_cells.specs.Jobs.{cell_for};
ghost use Rattle.ndc_model_cells.specs.Writing.{may_go_on};
ghost use Rattle.ndc_model.specs.Fair.{IsShaped};
ghost use Rattle.ndc_model.specs.Reading.{learned_at};
ghost use Rattle.ndc_model.specs.World.{cell_of as cell_in, cluster_at, flight_at, home_at, is_link, lane_at, link_at, link_found, queue_at, trimmed_at};
ghost use Rattle.ndc_world_replication.specs.Found.{batches_or_none};
ghost use Rattle.ndc_world_replication.specs.Publishers.{cluster_alone};
ghost use Rattle.ndc_queue.specs.Queues.{queue_len};

use crate::publisher::{Publisher, home_in};
use crate::replication::Replication;
use ndc_cluster::{Cell, Cluster};
use ndc_cluster_links::Link;
use ndc_cluster_reads::Reads;
use ndc_command::Refusal;
use ndc_domain::{ClusterNo, DomainTable};
use ndc_event::Name;
use ndc_model_cells::{Message, shard_of};
use ndc_queue::{Levels, Queue};
use ndc_script_types::Header;
use ndc_shard_runs::Runs;

/// A cluster.
pub fn publisher_of<C: Cell + Drop>(
    replication: &Replication<C>,
    cluster: ClusterNo,
) -> &Publisher<C>
    requires { cluster.number < length replication.now.clusters }
    ensures cluster { result.now.cluster ≡ cluster_at cluster replication.now }
    ensures trimmed { result.now.trimmed ≡ slice_index_or replication.now.trimmed cluster.number [] }
{
    &replication.publishers()[cluster.number as usize]
}

/// The cluster alone: its domain records and its cells.
pub fn cluster_of<C: Cell + Drop>(replication: &Replication<C>, cluster: ClusterNo) -> &Cluster<C>
    requires { cluster.number < length replication.now.clusters }
    ensures { result.now ≡ cluster_alone (cluster_at cluster replication.now) }
{
    publisher_of(replication, cluster).cluster()
}

/// Its domain records.
pub fn table_of<C: Cell + Drop>(replication: &Replication<C>, cluster: ClusterNo) -> &DomainTable
    requires { cluster.number < length replication.now.clusters }
    ensures { result.now ≡ (cluster_at cluster replication.now).table }
{
    publisher_of(replication, cluster).table()
}

/// Its cell for a shard.
pub fn cell_of<C: Cell + Drop>(replication: &Replication<C>, cluster: ClusterNo, shard: u32) -> &C
    requires cluster { cluster.number < length replication.now.clusters }
    requires shard { shard < length (cluster_at cluster replication.now).cells }
    ensures { C.cell result.now ≡ cell_for shard (cluster_at cluster replication.now).cells }
{
    cluster_of(replication, cluster).shard(shard)
}

/// Where what a reader has of a source stands among links.
fn link_place(links: &[Link], reader: ClusterNo, source: ClusterNo) -> Option<usize>
    ensures { result ≡ position (is_link reader source) links.now }
{
    links.iter().position(|link| link.is(reader, source))
}

/// What a reader has of a source, where it is there.
fn find_link(links: &[Link], reader: ClusterNo, source: ClusterNo) -> Option<&Link>
    ensures { option_copied result ≡ find (is_link reader source) links.now }
{
    let Some(place) = link_place(links, reader, source) else {
        return None;
    };
    Some(&links[place])
}

/// What a reader has of a source, where it has anything.
pub fn link_of<C: Cell + Drop>(
    replication: &Replication<C>,
    reader: ClusterNo,
    source: ClusterNo,
) -> Option<&Link>
    ensures { link_found reader source (option_copied result) ≡ link_at reader source replication.now }
{
    find_link(replication.links(), reader, source)
}

/// What is in flight from a source to a reader for a shard.
pub fn flight_of<C: Cell + Drop>(
    replication: &Replication<C>,
    reader: ClusterNo,
    source: ClusterNo,
    shard: u32,
) -> &[Message]
    ensures { result.now ≡ flight_at reader source shard replication.now }
{
    let Some(link) = link_of(replication, reader, source) else {
        return &[];
    };
    match link.lanes().get(shard as usize) {
        Some(lane) => lane.flight(),
        None => &[],
    }
}

/// How far a reader has read the queue of a source for a shard, and how far all of it is done.
pub fn levels_of<C: Cell + Drop>(
    replication: &Replication<C>,
    reader: ClusterNo,
    source: ClusterNo,
    shard: u32,
) -> Levels
    ensures { result ≡ (lane_at reader source shard replication.now).levels }
{
    let Some(link) = link_of(replication, reader, source) else {
        return Levels::new();
    };
    match link.lanes().get(shard as usize) {
        Some(lane) => *lane.levels(),
        None => Levels::new(),
    }
}

/// What is kept of the queue of a source for a shard.
pub fn queue_of<C: Cell + Drop>(
    replication: &Replication<C>,
    source: ClusterNo,
    shard: u32,
) -> &Queue
    requires source { source.number < length replication.now.clusters }
    requires shard { shard < length (cluster_at source replication.now).cells }
    ensures len { queue_len result.now ≡ length (queue_at source shard replication.now) }
    ensures first { result.now.first ≡ trimmed_at source replication.now shard }
{
    let publisher = publisher_of(replication, source);
    &publisher.queues().as_slice()[shard as usize]
}

/// What a cluster has learned of a workflow. There is none only where nothing is.
pub fn runs_of<'a, C: Reads + Drop>(
    replication: &'a Replication<C>,
    header: &Header,
    cluster: ClusterNo,
    domain: &Name,
    workflow: &Name,
) -> Option<&'a Runs>
    requires shards { 0 < header.now.shards }
    requires cluster { IsCluster header.now cluster }
    requires shaped { IsShaped header.now replication.now }
    ensures { batches_or_none (option_copied result) ≡ learned_at header.now cluster domain.now workflow.now replication.now }
{
    let shard = shard_of(domain, workflow, header.shards);
    cell_of(replication, cluster, shard).runs(domain, workflow)
}

/// The version with which a cluster may write to a workflow that has begun. Takes no memory. Refused as
/// [`Reads::may_write`] refuses it.
pub fn may_write<C: Reads + Drop>(
    replication: &Replication<C>,
    header: &Header,
    cluster: ClusterNo,
    domain: &Name,
    workflow: &Name,
) -> Result<u64, Refusal>
    requires shards { 0 < header.now.shards }
    requires cluster { IsCluster header.now cluster }
    requires shaped { IsShaped header.now replication.now }
    ensures { result ≡ may_go_on (home_at header.now cluster replication.now) domain.now workflow.now
        (cell_in header.now cluster domain.now workflow.now replication.now) }
{
    let home = home_in(header, cluster);
    let shard = shard_of(domain, workflow, header.shards);
    let cell = cell_of(replication, cluster, shard);
    cell.may_write(&home, table_of(replication, cluster), domain, workflow)
}
