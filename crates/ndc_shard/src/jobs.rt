ghost use Rattle.std.specs.Prelude.{◌≡◌, ◌≢◌, Err, IfOk, IsTrue, OnOk};
ghost use Rattle.ndc_cluster.specs.Idle.{IsIdle};
ghost use Rattle.ndc_model_cells.specs.Jobs.{after_job, keys_written, reply_to, workflows_of};
ghost use Rattle.ndc_model_cells.specs.Writing.{command_of, reset_at};
ghost use Rattle.ndc_model_cells.specs.declared.job.Job.TheVariants.{Arrive, Command as Commanded, Reapply, Reset};
ghost use Rattle.ndc_command.specs.declared.refusal.CommandError.TheVariants.{Memory};
ghost use Rattle.ndc_shard.specs.Shards.{reply_of};
ghost use Rattle.ndc_model_cells.specs.Allowed.{IsAllowed, MayArrive, MayBeAsked, MayReapply};

use crate::shard::Shard;
use ndc_cluster::Desk;
use ndc_command::{Command, CommandError};
use ndc_event::{Batch, Name, OutOfMemory};
use ndc_model_cells::{Job, JobReply, Message, Outcome, Written};
use ndc_model_sets::Batches;
use ndc_shard_workflows::Arrival;
use ndc_state::Steps;
use std::alloc::{AllocError, Global};

/// Marks the counters of steps that jobs take.
struct Jobs;

/// Does a job, as the cell that the shard is seen as does it.
pub(crate) fn do_job(shard: &mut Shard, desk: &Desk, job: &Job) -> Result<JobReply, OutOfMemory>
    requires { IsAllowed desk.now job.now shard.old }
    ensures cell { OnOk result (shard.new ≡ after_job desk.now job.now shard.old) }
    ensures reply { IfOk result (λ reply. reply ≡ reply_to desk.now job.now shard.old) }
{
    match job {
        Job::Command {
            domain,
            workflow,
            command,
        } => do_command(shard, desk, domain, workflow, command),
        Job::Arrive { message } => do_arrive(shard, desk, message),
        Job::Reapply => do_reapply(shard, desk),
        Job::Reset {
            domain,
            workflow,
            event,
        } => do_reset(shard, desk, domain, workflow, *event),
    }
}

/// A command to a workflow.
fn do_command(
    shard: &mut Shard,
    desk: &Desk,
    domain: &Name,
    workflow: &Name,
    command: &Command,
) -> Result<JobReply, OutOfMemory>
    requires { MayBeAsked desk.now domain.now workflow.now
        (command_of desk.now domain.now workflow.now command.now shard.old) shard.old }
    ensures cell { OnOk result
        (shard.new ≡ after_job desk.now (Commanded domain.now workflow.now command.now) shard.old) }
    ensures reply { IfOk result (λ reply.
        reply ≡ reply_to desk.now (Commanded domain.now workflow.now command.now) shard.old) }
{
    let mut steps: Steps<Jobs> = Steps::new();
    let written = shard.write_command(desk, domain, workflow, command, &mut steps);
    let reply = written_reply(shard.alloc(), written)?;
    Ok(reply)
}

/// A message arrives.
#[tactic(auto, unfolding(ndc_model_cells::specs::Jobs::after_job, ndc_model_cells::specs::Jobs::outcome_of, ndc_model_cells::specs::Jobs::learned_in))]
fn do_arrive(shard: &mut Shard, desk: &Desk, message: &Message) -> Result<JobReply, OutOfMemory>
    requires { MayArrive message.now shard.old }
    ensures cell { OnOk result (shard.new ≡ after_job desk.now (Arrive message.now) shard.old) }
    ensures reply { IfOk result (λ reply.
        reply ≡ reply_to desk.now (Arrive message.now) shard.old) }
{
    let mut steps: Steps<Jobs> = Steps::new();
    let arrival = shard.take_in(message.try_copy()?, &mut steps)?;
    let Arrival { outcome, learned } = arrival;
    Ok(JobReply {
        outcome: Outcome::Arrived(outcome),
        learned,
    })
}

/// Strays are applied again in each workflow.
#[tactic(auto, unfolding(ndc_model_cells::specs::Jobs::after_job, ndc_model_cells::specs::Jobs::outcome_of, ndc_model_cells::specs::Jobs::learned_in))]
fn do_reapply(shard: &mut Shard, desk: &Desk) -> Result<JobReply, OutOfMemory>
    requires { MayReapply desk.now (workflows_of shard.old.arrived) shard.old }
    ensures cell { OnOk result (shard.new ≡ after_job desk.now Reapply shard.old) }
    ensures reply { IfOk result (λ reply. reply ≡ reply_to desk.now Reapply shard.old) }
{
    let mut steps: Steps<Jobs> = Steps::new();
    let learned = shard.apply_again(desk, &mut steps)?;
    let count = learned.as_slice().len() as u64;
    Ok(JobReply {
        outcome: Outcome::Reapplied { count },
        learned,
    })
}

/// Whether there is no workflow in which reapplication may be due, so that the job changes and tells nothing.
#[tactic(auto, unfolding(ndc_model_cells::specs::Jobs::after_job, ndc_model_cells::specs::Jobs::outcome_of, ndc_model_cells::specs::Jobs::learned_in))]
pub(crate) fn is_idle(shard: &Shard, desk: &Desk) -> bool
    ensures { IsTrue result → IsIdle desk.now shard.now }
{
    shard.applies_nothing()
}

/// A new run repeats the current one up to an event.
fn do_reset(
    shard: &mut Shard,
    desk: &Desk,
    domain: &Name,
    workflow: &Name,
    event: u64,
) -> Result<JobReply, OutOfMemory>
    requires { MayBeAsked desk.now domain.now workflow.now
        (reset_at desk.now domain.now workflow.now event shard.old) shard.old }
    ensures cell { OnOk result
        (shard.new ≡ after_job desk.now (Reset domain.now workflow.now event) shard.old) }
    ensures reply { IfOk result (λ reply.
        reply ≡ reply_to desk.now (Reset domain.now workflow.now event) shard.old) }
{
    let mut steps: Steps<Jobs> = Steps::new();
    let written = shard.write_reset(desk, domain, workflow, event, &mut steps);
    let reply = written_reply(shard.alloc(), written)?;
    Ok(reply)
}

/// The reply to a command or a reset that has written these batches, or was refused.
fn written_reply(
    alloc: Global,
    written: Result<Batches, CommandError>,
) -> Result<JobReply, OutOfMemory>
    ensures reply { IfOk result (λ reply. reply ≡ reply_of written) }
    ensures calm { IfOk result (λ _. written ≢ Err Memory) }
{
    match written {
        Ok(batches) => Ok(JobReply {
            outcome: keys_written(batches.as_slice()),
            learned: batches,
        }),
        Err(CommandError::Refused(refusal)) => Ok(JobReply {
            outcome: Outcome::Refused(refusal),
            learned: Batches::new(Vec::new(alloc)),
        }),
        Err(CommandError::Memory) => Err(AllocError),
    }
}

/// The keys of batches that were written: there is one, or there are two.
fn keys_written(batches: &[Batch]) -> Outcome
    ensures { result ≡ keys_written batches.now }
{
    match batches {
        [] => Outcome::Reapplied { count: 0 },
        [batch] => Outcome::Written(Written {
            key: batch.key,
            second: None,
        }),
        [batch, second, ..] => Outcome::Written(Written {
            key: batch.key,
            second: Some(second.key),
        }),
    }
}
