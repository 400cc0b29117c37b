//! Whether what dumps have under one key is one batch.
ghost use Rattle.std.specs.Prelude.{◌≡◌, IfOk, map};
ghost use Rattle.std.specs.Option.{option_copied};
ghost use Rattle.ndc_model_sets.specs.Sets.{Rise};
ghost use Rattle.ndc_explain_union.specs.Unions.{are_same, is_no_other, is_same};

use ndc_dump_causes::found::batch_at;
use ndc_event::{Batch, OutOfMemory};
use ndc_text::print_batch;
use std::alloc::Global;

/// Whether two batches have one content. Memory is taken only where they are not the same.
pub fn is_same(alloc: Global, one: &Batch, two: &Batch) -> Result<bool, OutOfMemory>
    ensures { IfOk result (λ same. same ≡ is_same one.now two.now) }
{
    if one.is_same(two) {
        return Ok(true);
    }
    let text = print_batch(alloc, one)?;
    let other = print_batch(alloc, two)?;
    Ok(text.as_slice() == other.as_slice())
}

/// Whether a batch is the other one, where there is one.
fn is_no_other(alloc: Global, own: Option<&Batch>, batch: &Batch) -> Result<bool, OutOfMemory>
    ensures { IfOk result (λ same. same ≡ is_no_other (option_copied own.entry) batch.now) }
{
    match own {
        None => Ok(true),
        Some(own) => is_same(alloc, own, batch),
    }
}

/// Whether no key has one content among the batches of a dump, which are in key order, and another one in the union.
pub fn are_same(alloc: Global, batches: &[Batch], union: &[&Batch]) -> Result<bool, OutOfMemory>
    requires { Rise batches.now }
    ensures { IfOk result (λ same. same ≡ are_same batches.now (map (λ b. b.now) union.now)) }
{
    for batch in union {
        if !is_no_other(alloc, batch_at(batches, batch.key), batch)? {
            return Ok(false);
        }
    }
    Ok(true)
}
