ghost use Rattle.std.specs.Prelude.{◌≡◌, ◌<◌, ◌++◌, IfOk, OnOk};
ghost use Rattle.std.specs.List.{flat_map};
ghost use Rattle.ndc_script_types.specs.WellFormed.{IsCluster};
ghost use Rattle.ndc_model.specs.Sometime.{IsReachedSometime};
ghost use Rattle.ndc_model.specs.Sending.{gaps_answer};
ghost use Rattle.ndc_model.specs.World.{cell_at, shards_of};
ghost use Rattle.ndc_resend.specs.PutOff.{gaps_of};
ghost use Rattle.ndc_world_queries.specs.Gaps.{gaps_at};

use ndc_cluster_reads::Reads;
use ndc_domain::ClusterNo;
use ndc_event::OutOfMemory;
use ndc_resend::GapOf;
use ndc_script_types::Header;
use ndc_world_answers::AnswerText;
use ndc_world_replication::Replication;
use ndc_world_replication::publishers::cell_of;
use std::alloc::Global;

/// Adds what is put off at a cluster in a shard, in order of place, each batch with the gap before it, as its cell tells it.
fn add_shard<C: Reads + Drop>(
    replication: &Replication<C>,
    alloc: Global,
    gaps: &mut Vec<GapOf>,
    header: &Header,
    cluster: ClusterNo,
    shard: u32,
) -> Result<(), OutOfMemory>
    requires cluster { IsCluster header.now cluster }
    requires shard { shard < header.now.shards }
    requires reached { IsReachedSometime header.now replication.now }
    ensures { OnOk result (gaps.new.items ≡ gaps.old.items ++ gaps_of (cell_at cluster shard replication.now)) }
{
    let cell = cell_of(replication, cluster, shard);
    let mut more = cell.gaps(alloc)?;
    gaps.append(&mut more)?;
    Ok(())
}

/// What is put off at a cluster, by shard and then in order of place.
fn all_gaps<C: Reads + Drop>(
    replication: &Replication<C>,
    alloc: Global,
    header: &Header,
    cluster: ClusterNo,
) -> Result<Vec<GapOf>, OutOfMemory>
    requires cluster { IsCluster header.now cluster }
    requires reached { IsReachedSometime header.now replication.now }
    ensures { IfOk result (λ gaps. gaps.items ≡ flat_map (gaps_at cluster replication.now) (shards_of header.now)) }
{
    let mut gaps = Vec::new(alloc);
    for shard in 0..header.shards {
        add_shard(replication, alloc, &mut gaps, header, cluster, shard)?;
    }
    Ok(gaps)
}

/// `gaps`.
pub fn gaps<C: Reads + Drop>(
    replication: &Replication<C>,
    alloc: Global,
    header: &Header,
    cluster: ClusterNo,
) -> Result<AnswerText, OutOfMemory>
    requires cluster { IsCluster header.now cluster }
    requires reached { IsReachedSometime header.now replication.now }
    ensures { IfOk result (λ text. text ≡ gaps_answer header.now cluster replication.now) }
{
    let gaps = all_gaps(replication, alloc, header, cluster)?;
    let text = ndc_world_answers::gaps(alloc, gaps.as_slice())?;
    Ok(text)
}
