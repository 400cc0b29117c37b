ghost use Rattle.std.specs.Prelude.{◌≡◌, ◌≤◌, ◌++◌, List, map, not, replicate, IfOk, OnOk};
ghost use Rattle.std.specs.List.{filter, flat_map};
ghost use Rattle.ndc_model_cells.specs.Writing.{same_cluster};
ghost use Rattle.ndc_domain.specs.declared.clusters.ClusterNo.{ClusterNo as No};
ghost use Rattle.ndc_model.specs.World.{all_clusters, opening_world};
ghost use Rattle.ndc_world_replication.specs.Replications.{links_of, opening_publisher};

use crate::publisher::{Publisher, home_in};
use crate::replication::Replication;
use ndc_cluster::Cell;
use ndc_cluster_links::Link;
use ndc_domain::ClusterNo;
use ndc_event::OutOfMemory;
use ndc_script_types::{Header, clusters_below};
use std::alloc::Global;

/// Adds what a reader has of each other of these clusters in the beginning, in order.
fn add_links(
    alloc: Global,
    links: &mut Vec<Link>,
    header: &Header,
    clusters: &[ClusterNo],
    reader: ClusterNo,
) -> Result<(), OutOfMemory>
    requires { header.now.shards ≤ 64 }
    ensures { OnOk result (links.new.items ≡ links.old.items ++ links_of header.now clusters.now reader) }
{
    for &source in clusters {
        if reader.number != source.number {
            links.push(Link::new(alloc, reader, source, header.shards)?)?;
        }
    }
    Ok(())
}

/// What each of these clusters has of each other in the beginning.
fn opening_links(
    alloc: Global,
    header: &Header,
    clusters: &[ClusterNo],
) -> Result<Vec<Link>, OutOfMemory>
    requires { header.now.shards ≤ 64 }
    ensures { IfOk result (λ links. links.items ≡ flat_map (links_of header.now clusters.now) clusters.now) }
{
    let mut links = Vec::new(alloc);
    for &reader in clusters {
        add_links(alloc, &mut links, header, clusters, reader)?;
    }
    Ok(links)
}

/// These clusters in the beginning: nothing is registered or written.
fn opening_publishers<C: Cell + Drop>(
    alloc: Global,
    header: &Header,
    clusters: &[ClusterNo],
) -> Result<Vec<Publisher<C>>, OutOfMemory>
    requires { header.now.shards ≤ 64 }
    ensures { IfOk result (λ publishers. publishers.items ≡ map (λ _. opening_publisher header.now.shards) clusters.now) }
{
    let mut publishers = Vec::new(alloc);
    for &cluster in clusters {
        let home = home_in(header, cluster);
        publishers.push(Publisher::new(alloc, &home, header.shards)?)?;
    }
    Ok(publishers)
}

impl<C: Cell + Drop> Replication<C> {
    /// The clusters of a header in the beginning: nothing is registered, written or sent.
    pub fn new(alloc: Global, header: &Header) -> Result<Replication<C>, OutOfMemory>
        requires { header.now.shards ≤ 64 }
        ensures { IfOk result (λ replication. replication ≡ opening_world header.now) }
    {
        let clusters = clusters_below(alloc, header.clusters.count())?;
        let clusters = clusters.as_slice();
        let publishers = opening_publishers(alloc, header, clusters)?;
        let links = opening_links(alloc, header, clusters)?;
        Ok(Replication {
            publishers,
            links,
            handovers: Vec::new(alloc),
        })
    }
}
