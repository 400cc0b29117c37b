ghost use Rattle.std.specs.Prelude.{◌≡◌, map};
ghost use Rattle.ndc_model_cells.specs.Cells.{carries};
ghost use Rattle.ndc_model_cells.specs.Places.{is_of};
ghost use Rattle.ndc_shard_workflows.specs.Messages.{carrier_in, least_of, lesser};

use crate::workflow::Workflow;
use ndc_event::{Batch, BatchKey, OutOfMemory};
use std::alloc::Global;
use std::collections::BTreeMap;
use std::marker::Model;

/// For each batch that carries others the least key of these, by the carrier's key. Seen as the list of these pairs.
#[derive(Drop)]
pub(crate) struct Carried {
    map: BTreeMap<BatchKey, BatchKey>,
}

impl Model for Carried {
    ghost use Rattle.std.specs.Prelude.{List};
    ghost use Rattle.ndc_event.specs.declared.key.BatchKey.{BatchKey};

    ghost Value = { List (BatchKey × BatchKey) };

    ghost view = { λ carried. carried.map.entries };
}

impl Carried {
    ghost use Rattle.std.specs.Prelude.{◌≡◌, [], map, OnOk};
    ghost use Rattle.ndc_event.specs.declared.key.BatchKey.{BatchKey as Key};
    ghost use Rattle.ndc_shard_workflows.specs.Messages.{is_under, least_of, least_with, noted_at};

    /// No batch was gone over.
    pub(crate) fn new(alloc: Global) -> Carried
        ensures { result ≡ [] }
    {
        Carried {
            map: BTreeMap::new(alloc),
        }
    }

    /// The least key of the batches with this carrier.
    pub(crate) fn get(&self, carrier: BatchKey) -> Option<BatchKey>
        ensures { result ≡ noted_at carrier self.now }
    {
        self.map.get(&carrier).copied()
    }

    /// Goes over batches of the workflow.
    pub(crate) fn note_all(
        &mut self,
        workflow: &Workflow,
        batches: &[&Batch],
    ) -> Result<(), OutOfMemory>
        ensures { OnOk result ((one : Key) → noted_at one self.new
            ≡ least_of (is_under workflow.now.arrived one) (map (λ b. b.now) batches.now)
            (noted_at one self.old)) }
    {
        for batch in batches {
            self.note(workflow, batch)?;
        }
        Ok(())
    }

    /// Goes over one more batch.
    fn note(&mut self, workflow: &Workflow, batch: &Batch) -> Result<(), OutOfMemory>
        ensures { OnOk result ((one : Key) → noted_at one self.new
            ≡ least_with (is_under workflow.now.arrived one) batch.now (noted_at one self.old)) }
    {
        let Some(carrier) = carrier_of(workflow, batch) else {
            return Ok(());
        };
        let least = lesser(batch.key, self.get(carrier));
        self.map.insert(carrier, least)?;
        Ok(())
    }
}

/// The key of the batch's carrier, where it has arrived in the batch's workflow.
fn carrier_of(workflow: &Workflow, batch: &Batch) -> Option<BatchKey>
    ensures { result ≡ carrier_in workflow.now.arrived batch.now batch.now.carrier }
{
    let key = batch.carrier?;
    let carrier = workflow.get(key)?;
    if is_beside(carrier, batch) {
        Some(key)
    } else {
        None
    }
}

/// Whether two batches are of one workflow.
fn is_beside(batch: &Batch, other: &Batch) -> bool
    ensures { result ≡ is_of batch.now.domain batch.now.workflow other.now }
{
    other.domain == batch.domain && other.workflow == batch.workflow
}

/// Whether the second batch is carried by the first.
pub(crate) fn carries(batch: &Batch, other: &Batch) -> bool
    ensures { result ≡ carries batch.now other.now }
{
    is_beside(batch, other) && other.carrier == Some(batch.key)
}

/// The lesser of two keys, where there are two.
fn lesser(key: BatchKey, other: Option<BatchKey>) -> BatchKey
    ensures { result ≡ lesser key other }
{
    match other {
        None => key,
        Some(other) => { if other.is_before(key) { other } else { key } }
    }
}

/// The least of the keys of the batches that are carried by this one, and of the one that was found.
pub(crate) fn least_carried(
    batch: &Batch,
    others: &[&Batch],
    found: Option<BatchKey>,
) -> Option<BatchKey>
    ensures { result ≡ least_of (carries batch.now) (map (λ b. b.now) others.now) found }
{
    let mut least = found;
    for other in others {
        if carries(batch, other) {
            least = Some(lesser(other.key, least));
        }
    }
    least
}
