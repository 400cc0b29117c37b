ghost use Rattle.std.specs.Prelude.{◌≡◌, ◌<◌, length, map, IfOk};
ghost use Rattle.std.specs.List.{AllByRecursion};
ghost use Rattle.ndc_model_cells.specs.Jobs.{cell_for};
ghost use Rattle.ndc_model.specs.Fair.{IsShaped};
ghost use Rattle.ndc_world_replication.specs.Publishers.{PublisherValue};
ghost use Rattle.ndc_world_queries.specs.Summaries.{cells_of, totals_in, totals_of};

use crate::parts::{Totals, added, totals_in};
use crate::tables::have_one_table;
use ndc_cluster::Cell;
use ndc_cluster_reads::Reads;
use ndc_event::OutOfMemory;
use ndc_script_types::Header;
use ndc_world_replication::{Publisher, Replication};
use std::alloc::Global;

/// The cell of a cluster for a shard.
fn cell_of<C: Cell + Drop>(publisher: &Publisher<C>, shard: u32) -> &C
    requires { shard < length publisher.now.cluster.cells }
    ensures { C.cell result.now ≡ cell_for shard publisher.now.cluster.cells }
{
    &publisher.cells()[shard as usize]
}

/// The cells of clusters for a shard.
fn cells_of<C: Cell + Drop>(
    alloc: Global,
    publishers: &[Publisher<C>],
    shard: u32,
) -> Result<Vec<&C>, OutOfMemory>
    requires { AllByRecursion (λ (publisher : PublisherValue). shard < length publisher.cluster.cells) publishers.now }
    ensures { IfOk result (λ cells. map (λ cell. C.cell cell.now) cells.items ≡ map (λ (publisher : PublisherValue). cell_for shard publisher.cluster.cells) publishers.now) }
{
    let mut cells = Vec::new(alloc);
    for publisher in publishers {
        cells.push(cell_of(publisher, shard))?;
    }
    Ok(cells)
}

/// What the cells of a shard come to, at all clusters.
fn shard_totals<C: Reads + Drop>(
    alloc: Global,
    header: &Header,
    replication: &Replication<C>,
    shard: u32,
) -> Result<Totals, OutOfMemory>
    requires shaped { IsShaped header.now replication.now }
    requires shard { shard < header.now.shards }
    ensures { IfOk result (λ part. part ≡ totals_in (cells_of replication.now shard)) }
{
    let cells = cells_of(alloc, replication.publishers(), shard)?;
    totals_in(alloc, cells.as_slice())
}

/// What all clusters come to. In time of all that was written and learned.
#[tactic(auto, unfolding(crate::specs::Summaries::totals_of))]
pub fn totals<C: Reads + Drop>(
    alloc: Global,
    header: &Header,
    replication: &Replication<C>,
) -> Result<Totals, OutOfMemory>
    requires { IsShaped header.now replication.now }
    ensures { IfOk result (λ totals. totals ≡ totals_of header.now replication.now) }
{
    let mut whole = Totals {
        batches: 0,
        workflows: 0,
        branches: 0,
        same: have_one_table(replication.publishers()),
    };
    for shard in 0..header.shards {
        let part = shard_totals(alloc, header, replication, shard)?;
        whole = added(whole, part)?;
    }
    Ok(whole)
}
