ghost use Rattle.std.specs.Prelude.{◌≡◌, map, IfOk};
ghost use Rattle.ndc_resend.specs.Gaps.{is_between, served};

use ndc_event::{Batch, OutOfMemory};
use ndc_history::Item;
use ndc_model_sets::{first_id, last_id};
use std::alloc::Global;

/// A gap in a run: what comes after one event and before another one, each by its id and version.
#[derive(Clone, Copy, Debug, PartialEq, Eq)]
pub struct Gap {
    /// The last event before the gap; id 0 and version 0 where the gap begins with the run.
    pub after: Item,
    /// The first event after the gap.
    pub before: Item,
}

/// Whether all events of the batch come after the one end of the gap and before the other. Takes no memory.
fn is_between(gap: &Gap, batch: &Batch) -> bool
    ensures { result ≡ is_between gap.now batch.now }
{
    gap.after.id < first_id(batch.events.as_slice())
        && last_id(batch.events.as_slice()) < gap.before.id
}

/// Copies of the batches of a path that lie in the gap, in order: those whose first id is above that of the one end,
/// and whose last id is below that of the other.
pub fn serve(alloc: Global, path: &[Batch], gap: &Gap) -> Result<Vec<Batch>, OutOfMemory>
    ensures { IfOk result (λ list. list.items ≡ served gap.now path.now) }
{
    let lent: Vec<&Batch> = path.iter().collect(alloc)?;
    let between = serve_lent(alloc, lent.as_slice(), gap)?;
    copies_of(alloc, between.as_slice())
}

/// The batches themselves of which [`serve`] gives copies, of a path whose batches are lent.
pub fn serve_lent<'p>(
    alloc: Global,
    path: &[&'p Batch],
    gap: &Gap,
) -> Result<Vec<&'p Batch>, OutOfMemory>
    ensures { IfOk result (λ list.
        map (λ b. b.now) list.items ≡ served gap.now (map (λ b. b.now) path.now)) }
{
    let mut list = Vec::new(alloc);
    for batch in path {
        if is_between(gap, batch) {
            list.push(*batch)?;
        }
    }
    Ok(list)
}

/// Copies of batches, in order.
fn copies_of(alloc: Global, batches: &[&Batch]) -> Result<Vec<Batch>, OutOfMemory>
    ensures { IfOk result (λ list. list.items ≡ map (λ b. b.now) batches.now) }
{
    let mut list = Vec::with_capacity(alloc, batches.len())?;
    for batch in batches {
        list.push(batch.try_copy()?)?;
    }
    Ok(list)
}
