ghost use Rattle.std.specs.Prelude.{◌≡◌, ◌<◌, ◌≤◌, ◌++◌, length, IfOk, OnOk};
ghost use Rattle.ndc_script_types.specs.WellFormed.{IsCluster};
ghost use Rattle.ndc_model_cells.specs.Jobs.{cells_after, replies_to};
ghost use Rattle.ndc_model_cells.specs.declared.job.Job.TheVariants as job;
ghost use Rattle.ndc_model.specs.Allowed.{burst_jobs, job_for};
ghost use Rattle.ndc_model.specs.Fair.{IsShaped};
ghost use Rattle.ndc_model.specs.Moves.{notes_of};
ghost use Rattle.ndc_model.specs.Laws.{is_refusal};
ghost use Rattle.ndc_model.specs.Steps.{outcome_answer, seen_of};
ghost use Rattle.ndc_model.specs.World.{cluster_at, home_at, with_cells};
ghost use Rattle.ndc_model.specs.Conditions.{MayDoAll};
ghost use Rattle.ndc_world.specs.Bursts.{burst_text};
ghost use Rattle.ndc_world.specs.Counts.{refusals};

use crate::answer::Answer;
use ndc_cluster_reads::Reads;
use ndc_domain::ClusterNo;
use ndc_event::OutOfMemory;
use ndc_model_cells::{Job, JobReply, Outcome, ShardJob, shard_of};
use ndc_port::Gate;
use ndc_script_types::{BurstJob, Header};
use ndc_world_answers::{add_seen, outcome};
use ndc_world_replication::Replication;
use std::alloc::Global;
use std::thread::Threads;

/// The command of a line in a burst as a job.
fn job_of(header: &Header, one: &BurstJob) -> Result<ShardJob, OutOfMemory>
    requires { 0 < header.now.shards }
    ensures { IfOk result (λ asked. asked ≡ job_for header.now one.now.domain one.now.workflow (job.Command one.now.domain one.now.workflow one.now.command)) }
{
    Ok(ShardJob {
        shard: shard_of(&one.domain, &one.workflow, header.shards),
        job: Job::Command {
            domain: one.domain.try_copy()?,
            workflow: one.workflow.try_copy()?,
            command: one.command.try_copy()?,
        },
    })
}

/// The commands of a burst as jobs, in order.
fn jobs_of(alloc: Global, header: &Header, burst: &[BurstJob]) -> Result<Vec<ShardJob>, OutOfMemory>
    requires { 0 < header.now.shards }
    ensures { IfOk result (λ jobs. jobs.items ≡ burst_jobs header.now burst.now) }
{
    let mut jobs = Vec::with_capacity(alloc, burst.len())?;
    for one in burst {
        jobs.push(job_of(header, one)?)?;
    }
    Ok(jobs)
}

/// Each answer after the number of its line, in order.
fn answers_of(
    alloc: Global,
    burst: &[BurstJob],
    replies: &[JobReply],
) -> Result<Vec<u8>, OutOfMemory>
    ensures { IfOk result (λ text. text.items ≡ burst_text burst.now replies.now) }
{
    let mut text = Vec::new(alloc);
    for place in 0..burst.len() {
        if replies.len() <= place {
            return Ok(text);
        }
        let answer = outcome(alloc, &replies[place].outcome)?;
        answer.push_behind_number(&mut text, burst[place].number)?;
    }
    Ok(text)
}

/// Whether the answer to a job is a refusal.
fn refuses(outcome: &Outcome) -> bool
    ensures { result ≡ is_refusal (outcome_answer outcome.now) }
{
    match outcome {
        Outcome::Refused(_) => true,
        Outcome::Written(_) => false,
        Outcome::Arrived(_) => false,
        Outcome::Reapplied { .. } => false,
    }
}

/// How many of the answers to jobs are refusals.
fn refusals(replies: &[JobReply]) -> u64
    ensures count { result ≡ refusals replies.now }
    ensures most { result ≤ length replies.now }
{
    let mut count = 0;
    for place in 0..replies.len() {
        count += u64::from(refuses(&replies[place].outcome));
    }
    count
}

/// The commands of a burst are done side by side, and their answers are given together, each after its number;
/// and how many of these are refusals.
pub(crate) fn burst<R: Threads + Sync, G: Gate, C: Reads + Drop + Send>(
    replication: &mut Replication<C>,
    rt: &R,
    alloc: Global,
    gate: &G,
    workers: u32,
    header: &Header,
    cluster: ClusterNo,
    burst: &[BurstJob],
) -> Result<(Answer, u64), OutOfMemory>
    requires workers { 0 < workers }
    requires cluster { IsCluster header.now cluster }
    requires shards { 0 < header.now.shards }
    requires shaped { IsShaped header.now replication.old }
    requires allowed { MayDoAll C.allows header.now cluster (burst_jobs header.now burst.now) replication.old }
    ensures world { OnOk result (replication.new ≡ with_cells cluster (cells_after (home_at header.now cluster replication.old) (burst_jobs header.now burst.now) (cluster_at cluster replication.old).cells) replication.old) }
    ensures answer { IfOk result (λ told. told.0.text ≡ burst_text burst.now (replies_to (home_at header.now cluster replication.old) (burst_jobs header.now burst.now) (cluster_at cluster replication.old).cells)) }
    ensures seen { IfOk result (λ told. told.0.seen ≡ seen_of (notes_of cluster (burst_jobs header.now burst.now)
        (replies_to (home_at header.now cluster replication.old) (burst_jobs header.now burst.now) (cluster_at cluster replication.old).cells))) }
    ensures refused { IfOk result (λ told. told.1 ≡ refusals (replies_to (home_at header.now cluster replication.old) (burst_jobs header.now burst.now) (cluster_at cluster replication.old).cells)) }
{
    let jobs = jobs_of(alloc, header, burst)?;
    let replies = replication.do_jobs(rt, alloc, gate, workers, header, cluster, jobs.as_slice())?;
    let text = answers_of(alloc, burst, replies.as_slice())?;
    let refused = refusals(replies.as_slice());
    let mut seen = Vec::with_capacity(alloc, jobs.len())?;
    add_seen(&mut seen, cluster, jobs.as_slice(), replies)?;
    Ok((Answer { text, seen }, refused))
}
