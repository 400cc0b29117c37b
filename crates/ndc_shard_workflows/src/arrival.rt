ghost use Rattle.std.specs.Prelude.{◌≡◌, [], map, IfOk};
ghost use Rattle.ndc_model_cells.specs.declared.job.Arrived.TheVariants.{Known, Learned, PutOff};
ghost use Rattle.ndc_model_cells.specs.Messages.{batches_of};

use crate::admission::Admission;
use ndc_event::{Batch, BatchKey, OutOfMemory};
use ndc_model_cells::{Arrived, Keys, Message};
use ndc_model_sets::Batches;
use std::alloc::Global;

/// What comes of the arrival of a message.
#[derive(Drop)]
pub struct Arrival {
    /// Whether the batch was learned, put off or known.
    pub outcome: Arrived,
    /// The batches that became learned, in key order.
    pub learned: Batches,
}

/// What comes of the arrival of a message, and how its workflow stands then.
#[derive(Drop)]
pub(crate) struct Received {
    pub(crate) arrival: Arrival,
    /// Whether reapplication may be due, by what is known of the workflow.
    pub(crate) may_be_due: bool,
    /// Whether something is put off of the workflow.
    pub(crate) is_behind: bool,
}

/// What comes of a message that nobody vouches for, and how its workflow stands then.
#[derive(Drop)]
pub(crate) struct Admitted {
    pub(crate) admission: Admission,
    /// Whether reapplication may be due, by what is known of the workflow.
    pub(crate) may_be_due: bool,
    /// Whether something is put off of the workflow.
    pub(crate) is_behind: bool,
}

/// The batches of messages, each followed by the one that it carries.
pub(crate) fn batches_in(alloc: Global, messages: Vec<Message>) -> Result<Vec<Batch>, OutOfMemory>
    ensures { IfOk result (λ batches. batches.items ≡ batches_of messages.items) }
{
    let mut batches = Vec::with_capacity(alloc, messages.len())?;
    for sent in messages {
        let Message { batch, second, .. } = sent;
        batches.push(batch)?;
        if let Some(second) = second.into_option() {
            batches.push(second)?;
        }
    }
    Ok(batches)
}

/// The keys of batches, in order.
fn keys_of(alloc: Global, batches: &[Batch]) -> Result<Keys, OutOfMemory>
    ensures { IfOk result (λ keys. keys ≡ map (λ b. b.key) batches.now) }
{
    let mut keys = Vec::with_capacity(alloc, batches.len())?;
    for batch in batches {
        keys.push(batch.key)?;
    }
    Ok(Keys::new(keys))
}

impl Arrival {
    ghost use Rattle.std.specs.Prelude.{◌≡◌, [], map, IfOk};
    ghost use Rattle.ndc_model_cells.specs.declared.job.Arrived.TheVariants.{Known, Learned, PutOff};
    ghost use Rattle.ndc_model_cells.specs.Messages.{batches_of};

    /// The batch was known.
    pub(crate) fn known(alloc: Global) -> Arrival
        ensures outcome { result.outcome ≡ Known }
        ensures learned { result.learned ≡ [] }
    {
        Arrival {
            outcome: Arrived::Known,
            learned: Batches::new(Vec::new(alloc)),
        }
    }

    /// The batch is put off, because this one has not arrived.
    pub(crate) fn put_off(alloc: Global, missing: BatchKey) -> Arrival
        ensures outcome { result.outcome ≡ PutOff missing }
        ensures learned { result.learned ≡ [] }
    {
        Arrival {
            outcome: Arrived::PutOff { missing },
            learned: Batches::new(Vec::new(alloc)),
        }
    }

    /// The batches of these messages are learned.
    pub(crate) fn learned(alloc: Global, messages: Vec<Message>) -> Result<Arrival, OutOfMemory>
        ensures outcome { IfOk result (λ arrival.
            arrival.outcome ≡ Learned (map (λ b. b.key) (batches_of messages.items))) }
        ensures learned { IfOk result (λ arrival. arrival.learned ≡ batches_of messages.items) }
    {
        let batches = batches_in(alloc, messages)?;
        let keys = keys_of(alloc, batches.as_slice())?;
        Ok(Arrival {
            outcome: Arrived::Learned { keys },
            learned: Batches::new(batches),
        })
    }
}
