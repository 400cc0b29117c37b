ghost use Rattle.std.specs.Prelude.{◌≡◌, ◌+◌, ◌++◌, length, map, option_to_list, IfOk, OnOk};
ghost use Rattle.ndc_model_cells.specs.Cells.{both};
ghost use Rattle.ndc_domain.specs.declared.clusters.ClusterNo.{ClusterNo as No};
ghost use Rattle.ndc_model.specs.Moves.{notes_of};
ghost use Rattle.ndc_model.specs.Steps.{applied_count, arrived_count, brought, known_count, learned_count, put_off_count, seen_at, seen_of};
ghost use Rattle.ndc_world_answers.specs.Tallies.{seen_by, with_reply};

use ndc_domain::ClusterNo;
use ndc_event::{Batch, OutOfMemory};
use ndc_index::Seen;
use ndc_model_cells::{Arrived, Job, JobReply, Message, Outcome, ShardJob};
use std::alloc::AllocError;

/// What jobs came to, counted.
#[derive(Clone, Copy, Debug, PartialEq, Eq)]
pub struct Tally {
    /// How many batches messages made learned.
    pub learned: u64,
    /// How many messages were known.
    pub known: u64,
    /// How many messages were put off.
    pub put_off: u64,
    /// How many batches arrived.
    pub arrived: u64,
    /// How many batches were applied again.
    pub applied: u64,
}

/// The sum; where it is above 2^64 - 1 there can't be so much, and memory is said to have run out.
pub fn sum(one: u64, two: u64) -> Result<u64, OutOfMemory>
    ensures { IfOk result (λ sum. sum ≡ one + two) }
{
    match one.checked_add(two) {
        Some(sum) => Ok(sum),
        None => Err(AllocError),
    }
}

/// How many batches a message made learned.
fn learned_count(reply: &JobReply) -> u64
    ensures { result ≡ learned_count reply.now.outcome reply.now.learned }
{
    match reply.outcome {
        Outcome::Arrived(_) => reply.learned.as_slice().len() as u64,
        Outcome::Written(_) => 0,
        Outcome::Refused(_) => 0,
        Outcome::Reapplied { .. } => 0,
    }
}

/// How many messages were known and how many put off, none or one.
fn known_and_put_off(outcome: &Outcome) -> (u64, u64)
    ensures { result ≡ (known_count outcome.now, put_off_count outcome.now) }
{
    match outcome {
        Outcome::Arrived(Arrived::Known) => (1, 0),
        Outcome::Arrived(Arrived::PutOff { .. }) => (0, 1),
        Outcome::Arrived(Arrived::Learned { .. }) => (0, 0),
        Outcome::Written(_) => (0, 0),
        Outcome::Refused(_) => (0, 0),
        Outcome::Reapplied { .. } => (0, 0),
    }
}

/// How many batches a message has: its own, and the one that it carries.
fn batches_in(message: &Message) -> u64
    ensures { result ≡ length (both message.now) }
{
    match message.second.as_ref() {
        None => 1,
        Some(_) => 2,
    }
}

/// How many batches a message brought: none where it was known.
fn brought(message: &Message, arrived: &Arrived) -> u64
    ensures { result ≡ brought message.now arrived.now }
{
    match arrived {
        Arrived::Known => 0,
        Arrived::PutOff { .. } => batches_in(message),
        Arrived::Learned { .. } => batches_in(message),
    }
}

/// How many batches arrived by a job.
fn arrived_count(job: &Job, outcome: &Outcome) -> u64
    ensures { result ≡ arrived_count job.now outcome.now }
{
    match job {
        Job::Arrive { message } => match outcome {
            Outcome::Arrived(arrived) => brought(message, arrived),
            _ => 0,
        },
        _ => 0,
    }
}

/// How many batches were applied again.
fn applied_count(outcome: &Outcome) -> u64
    ensures { result ≡ applied_count outcome.now }
{
    match outcome {
        Outcome::Reapplied { count } => *count,
        Outcome::Arrived(_) => 0,
        Outcome::Written(_) => 0,
        Outcome::Refused(_) => 0,
    }
}

impl Tally {
    ghost use Rattle.std.specs.Prelude.{◌≡◌, length, OnOk, IfOk};
    ghost use Rattle.ndc_domain.specs.declared.clusters.ClusterNo.{ClusterNo};
    ghost use Rattle.ndc_model.specs.Moves.{notes_of};
    ghost use Rattle.ndc_world_answers.specs.Tallies.{no_tally, with_notes, with_replies, with_reply};

    /// Nothing is counted.
    pub fn new() -> Tally
        ensures { result ≡ no_tally }
    {
        Tally {
            learned: 0,
            known: 0,
            put_off: 0,
            arrived: 0,
            applied: 0,
        }
    }

    /// With what one job came to.
    fn with(self, job: &Job, reply: &JobReply) -> Result<Tally, OutOfMemory>
        ensures { IfOk result (λ tally. tally ≡ with_reply job.now reply.now self) }
    {
        let (known, put_off) = known_and_put_off(&reply.outcome);
        Ok(Tally {
            learned: sum(self.learned, learned_count(reply))?,
            known: sum(self.known, known)?,
            put_off: sum(self.put_off, put_off)?,
            arrived: sum(self.arrived, arrived_count(job, &reply.outcome))?,
            applied: sum(self.applied, applied_count(&reply.outcome))?,
        })
    }

    /// Adds what jobs came to, job by job.
    fn add_all(&mut self, jobs: &[ShardJob], replies: &[JobReply]) -> Result<(), OutOfMemory>
        ensures { OnOk result (self.new ≡ with_replies jobs.now replies.now self.old) }
    {
        for place in 0..jobs.len() {
            if replies.len() <= place {
                return Ok(());
            }
            *self = self.with(&jobs[place].job, &replies[place])?;
        }
        Ok(())
    }

    /// Adds what jobs came to, by their replies in order; on which cluster they were done does not count. Numbers
    /// above 2^64 - 1, for which there is no memory, are said to be want of it.
    #[tactic(auto, using(crate::proofs::TallyLemmas::replies_as_notes))]
    pub fn add(&mut self, jobs: &[ShardJob], replies: &[JobReply]) -> Result<(), OutOfMemory>
        ensures { OnOk result ((cluster : ClusterNo)
            → self.new ≡ with_notes (notes_of cluster jobs.now replies.now) self.old) }
    {
        self.add_all(jobs, replies)?;
        Ok(())
    }
}

/// Adds the batches of a reply as seen at a cluster, in order.
fn add_batches(
    seen: &mut Vec<Seen>,
    cluster: ClusterNo,
    batches: Vec<Batch>,
) -> Result<(), OutOfMemory>
    ensures { OnOk result (seen.new.items ≡ seen.old.items ++ seen_at cluster batches.items) }
{
    for batch in batches {
        seen.push(Seen { cluster, batch })?;
    }
    Ok(())
}

/// Adds what a reply made learned at a cluster, in order.
pub fn add_reply(
    seen: &mut Vec<Seen>,
    cluster: ClusterNo,
    reply: JobReply,
) -> Result<(), OutOfMemory>
    ensures { OnOk result (seen.new.items ≡ seen.old.items ++ seen_at cluster reply.learned) }
{
    let JobReply {
        outcome: _outcome,
        learned,
    } = reply;
    add_batches(seen, cluster, learned.into_vec())
}

/// Adds what replies made learned at a cluster, in order.
fn add_replies(
    seen: &mut Vec<Seen>,
    cluster: ClusterNo,
    replies: Vec<JobReply>,
) -> Result<(), OutOfMemory>
    ensures { OnOk result (seen.new.items ≡ seen.old.items ++ seen_by cluster replies.items) }
{
    for reply in replies {
        add_reply(seen, cluster, reply)?;
    }
    Ok(())
}

/// Adds what jobs on a cluster made learned, by their replies in order, in the order of being told.
#[tactic(auto, using(crate::proofs::TallyLemmas::seen_as_notes))]
pub fn add_seen(
    seen: &mut Vec<Seen>,
    cluster: ClusterNo,
    jobs: &[ShardJob],
    replies: Vec<JobReply>,
) -> Result<(), OutOfMemory>
    ensures { OnOk result (seen.new.items
        ≡ seen.old.items ++ seen_of (notes_of cluster jobs.now replies.items)) }
{
    let mut answered = replies;
    answered.truncate(jobs.len());
    add_replies(seen, cluster, answered)?;
    Ok(())
}
