ghost use Rattle.std.specs.Prelude.{◌≡◌, ◌↔◌, map, option_copied, IfOk, IsTrue};
ghost use Rattle.std.specs.List.{AllByRecursion};
ghost use Rattle.ndc_model.specs.Reading.{compare_answer};
ghost use Rattle.ndc_world_replication.specs.Found.{batches_or_none};
ghost use Rattle.ndc_text.specs.Ranges.{InRange};
ghost use Rattle.ndc_world_queries.specs.Learned.{last_key};

use ndc_event::{Batch, BatchKey, Name, OutOfMemory};
use ndc_shard_runs::Runs;
use ndc_world_answers::AnswerText;
use std::alloc::Global;

/// Whether two lists of batches are one.
fn are_equal(one: &[&Batch], two: &[&Batch]) -> bool
    ensures { IsTrue result ↔ (map (λ b. b.now) one.now ≡ map (λ b. b.now) two.now) }
{
    if one.len() != two.len() {
        return false;
    }
    for place in 0..one.len() {
        if !one[place].is_same(two[place]) {
            return false;
        }
    }
    true
}

/// The batches, none where nothing is learned.
fn batches_of<'a>(alloc: Global, runs: Option<&'a Runs>) -> Result<Vec<&'a Batch>, OutOfMemory>
    ensures { IfOk result (λ list. map (λ b. b.now) list.items ≡ batches_or_none (option_copied runs.entry)) }
{
    match runs {
        Some(runs) => runs.batches(alloc),
        None => Ok(Vec::new(alloc)),
    }
}

/// The greatest key of what is learned.
fn last_key(runs: Option<&Runs>) -> Option<BatchKey>
    ensures { result ≡ last_key (batches_or_none (option_copied runs.entry)) }
{
    Some(runs?.tip()?.key)
}

/// Whether two clusters have learned the same of a workflow. Where their greatest keys differ, two look-ups tell that they
/// have not; else it takes time of the batches. No dump is made.
pub fn are_same(alloc: Global, one: Option<&Runs>, two: Option<&Runs>) -> Result<bool, OutOfMemory>
    ensures { IfOk result (λ same. IsTrue same ↔ (batches_or_none (option_copied one.entry) ≡ batches_or_none (option_copied two.entry))) }
{
    if last_key(one) != last_key(two) {
        return Ok(false);
    }
    let first = batches_of(alloc, one)?;
    let second = batches_of(alloc, two)?;
    Ok(are_equal(first.as_slice(), second.as_slice()))
}

/// What `compare` answers: whether two clusters show the same of a workflow. The numbers of the batches are in the
/// ranges of batch texts.
pub(crate) fn compare(
    alloc: Global,
    domain: &Name,
    workflow: &Name,
    one: Option<&Runs>,
    two: Option<&Runs>,
) -> Result<AnswerText, OutOfMemory>
    requires one { AllByRecursion InRange (batches_or_none (option_copied one)) }
    requires two { AllByRecursion InRange (batches_or_none (option_copied two)) }
    ensures { IfOk result (λ text. text ≡ compare_answer domain.now workflow.now (batches_or_none (option_copied one.entry)) (batches_or_none (option_copied two.entry))) }
{
    let is_same = are_same(alloc, one, two)?;
    ndc_world_answers::compared(alloc, is_same)
}
