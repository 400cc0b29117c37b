ghost use Rattle.std.specs.Prelude.{◌≡◌, ◌<◌, [], ◌∷◌, IfOk};
ghost use Rattle.ndc_script_types.specs.WellFormed.{IsCluster};
ghost use Rattle.ndc_model.specs.Allowed.{job_for};
ghost use Rattle.ndc_model_cells.specs.declared.job.Job.TheVariants as job;
ghost use Rattle.ndc_model.specs.Fair.{IsShaped};
ghost use Rattle.ndc_model.specs.Steps.{command_step, reset_step, writing_step};
ghost use Rattle.ndc_model.specs.Conditions.{MayDoAll};
ghost use Rattle.ndc_world_steps.specs.Told.{leaving};

use crate::told::Told;
use ndc_cluster::Cell;
use ndc_command::Command;
use ndc_domain::ClusterNo;
use ndc_event::{Name, OutOfMemory};
use ndc_model_cells::{Job, ShardJob, shard_of};
use ndc_port::Gate;
use ndc_script_types::Header;
use ndc_world_answers::add_reply;
use ndc_world_replication::Replication;
use std::alloc::Global;
use std::thread::Threads;

/// A cluster does one job that writes.
fn ask<R: Threads + Sync, G: Gate, C: Cell + Drop + Send>(
    replication: &mut Replication<C>,
    rt: &R,
    alloc: Global,
    gate: &G,
    workers: u32,
    header: &Header,
    cluster: ClusterNo,
    asked: ShardJob,
) -> Result<Told, OutOfMemory>
    requires workers { 0 < workers }
    requires cluster { IsCluster header.now cluster }
    requires shard { asked.shard < header.now.shards }
    requires shaped { IsShaped header.now replication.old }
    requires allowed { MayDoAll C.allows header.now cluster (asked ∷ []) replication.old }
    ensures { IfOk result (λ answer. leaving replication.new answer ≡ writing_step header.now cluster asked replication.old) }
{
    let reply = replication.do_one(rt, alloc, gate, workers, header, cluster, &asked)?;
    let answer = ndc_world_answers::outcome(alloc, &reply.outcome)?;
    let mut seen = Vec::new(alloc);
    add_reply(&mut seen, cluster, reply)?;
    Ok(Told { text: answer, seen })
}

/// A command line.
pub fn command<R: Threads + Sync, G: Gate, C: Cell + Drop + Send>(
    replication: &mut Replication<C>,
    rt: &R,
    alloc: Global,
    gate: &G,
    workers: u32,
    header: &Header,
    cluster: ClusterNo,
    domain: &Name,
    workflow: &Name,
    command: &Command,
) -> Result<Told, OutOfMemory>
    requires workers { 0 < workers }
    requires cluster { IsCluster header.now cluster }
    requires shards { 0 < header.now.shards }
    requires shaped { IsShaped header.now replication.old }
    requires allowed { MayDoAll C.allows header.now cluster (job_for header.now domain.now workflow.now (job.Command domain.now workflow.now command.now) ∷ []) replication.old }
    ensures { IfOk result (λ answer. leaving replication.new answer ≡ command_step header.now cluster domain.now workflow.now command.now replication.old) }
{
    let asked = ShardJob {
        shard: shard_of(domain, workflow, header.shards),
        job: Job::Command {
            domain: domain.try_copy()?,
            workflow: workflow.try_copy()?,
            command: command.try_copy()?,
        },
    };
    ask(
        replication,
        rt,
        alloc,
        gate,
        workers,
        header,
        cluster,
        asked,
    )
}

/// `reset`.
pub fn reset<R: Threads + Sync, G: Gate, C: Cell + Drop + Send>(
    replication: &mut Replication<C>,
    rt: &R,
    alloc: Global,
    gate: &G,
    workers: u32,
    header: &Header,
    cluster: ClusterNo,
    domain: &Name,
    workflow: &Name,
    event: u64,
) -> Result<Told, OutOfMemory>
    requires workers { 0 < workers }
    requires cluster { IsCluster header.now cluster }
    requires shards { 0 < header.now.shards }
    requires shaped { IsShaped header.now replication.old }
    requires allowed { MayDoAll C.allows header.now cluster (job_for header.now domain.now workflow.now (job.Reset domain.now workflow.now event) ∷ []) replication.old }
    ensures { IfOk result (λ answer. leaving replication.new answer ≡ reset_step header.now cluster domain.now workflow.now event replication.old) }
{
    let asked = ShardJob {
        shard: shard_of(domain, workflow, header.shards),
        job: Job::Reset {
            domain: domain.try_copy()?,
            workflow: workflow.try_copy()?,
            event,
        },
    };
    ask(
        replication,
        rt,
        alloc,
        gate,
        workers,
        header,
        cluster,
        asked,
    )
}
