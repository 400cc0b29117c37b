ghost use Rattle.std.specs.Prelude.{◌≡◌, ◌++◌, [], IfOk, IsTrue, OnOk};
ghost use Rattle.ndc_domain.specs.Records.{record_of};
ghost use Rattle.ndc_event.specs.declared.name.Name.{Name as Text};
ghost use Rattle.ndc_model_cells.specs.Cells.{Cell};
ghost use Rattle.ndc_model_cells.specs.Jobs.{all_batches};
ghost use Rattle.ndc_model_cells.specs.Places.{place_of};
ghost use Rattle.ndc_model_cells.specs.Writing.{as_command_error, batches_in, reapplication_of};
ghost use Rattle.ndc_shard_entries.specs.Writer.{writes_to};

use ndc_cluster::Desk;
use ndc_command::{CommandError, Refusal};
use ndc_event::{Batch, Name, OutOfMemory};
use ndc_model_cells::Place;
use ndc_model_sets::Batches;
use ndc_shard_entries::{Entry, writes_to};
use std::alloc::Global;

/// The version with which the cluster writes to a domain: that of its record. Takes no memory. Refused where there is no
/// record, and where another cluster writes with that version, or none does.
pub(crate) fn version_of(desk: &Desk, domain: &Name) -> Result<u64, Refusal>
    ensures { result ≡ writes_to desk.now (record_of desk.now.table domain.now) }
{
    let clusters = desk.clusters();
    let me = desk.me();
    let table = desk.table();
    writes_to(clusters, me, table.find(domain))
}

/// Whether the cluster's record of a domain does not let it write there. Then reapplication writes to no workflow of the
/// domain, whatever is learned of it. Takes no memory.
pub(crate) fn refuses(desk: &Desk, domain: &Name) -> bool
    ensures { IsTrue result → (workflow : Text) (cell : Cell)
        → reapplication_of desk.now domain.now workflow cell ≡ [] }
{
    match version_of(desk, domain) {
        Ok(_) => false,
        Err(_) => true,
    }
}

/// A refusal to write as that of a command.
pub(crate) fn as_command_error<T>(asked: Result<T, Refusal>) -> Result<T, CommandError>
    ensures { result ≡ as_command_error asked }
{
    match asked {
        Ok(answer) => Ok(answer),
        Err(refusal) => Err(CommandError::Refused(refusal)),
    }
}

/// Where a batch stands in a cell.
pub(crate) fn place_of(batch: &Batch) -> Result<Place, OutOfMemory>
    ensures { IfOk result (λ place. place ≡ place_of batch.now) }
{
    Ok(Place {
        domain: batch.domain.try_copy()?,
        workflow: batch.workflow.try_copy()?,
        key: batch.key,
    })
}

/// Appends copies of the batches of an entry.
pub(crate) fn push_batches(batches: &mut Vec<Batch>, entry: &Entry) -> Result<(), OutOfMemory>
    ensures { OnOk result (batches.new.items ≡ batches.old.items ++ batches_in entry.now) }
{
    batches.push(entry.batch().try_copy()?)?;
    if let Some(second) = entry.second() {
        batches.push(second.try_copy()?)?;
    }
    Ok(())
}

/// Copies of the batches of entries, in order.
pub(crate) fn batches_of(alloc: Global, entries: &[Entry]) -> Result<Batches, OutOfMemory>
    ensures { IfOk result (λ batches. batches ≡ all_batches entries.now) }
{
    let mut batches = Vec::with_capacity(alloc, entries.len())?;
    for entry in entries {
        push_batches(&mut batches, entry)?;
    }
    Ok(Batches::new(batches))
}
