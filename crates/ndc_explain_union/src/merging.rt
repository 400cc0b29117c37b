//! What dumps of one workflow have together.
ghost use Rattle.std.specs.Prelude.{◌≡◌, ◌++◌, IfOk, OnOk, map};
ghost use Rattle.ndc_explain_union.specs.Unions.{merged, united};

use crate::taken::Taken;
use ndc_event::{Batch, OutOfMemory};
use std::alloc::Global;

/// Appends the batches.
fn push_all<'b>(all: &mut Vec<&'b Batch>, batches: &[&'b Batch]) -> Result<(), OutOfMemory>
    ensures { OnOk result (map (λ b. b.now) all.new.items ≡ map (λ b. b.now) all.old.items ++ map (λ b. b.now) batches.now) }
{
    for batch in batches {
        all.push(*batch)?;
    }
    Ok(())
}

/// The batches, to be read one by one.
fn each_of<'b>(alloc: Global, batches: &'b [Batch]) -> Result<Vec<&'b Batch>, OutOfMemory>
    ensures { IfOk result (λ list. map (λ b. b.now) list.items ≡ batches.now) }
{
    let mut list = Vec::with_capacity(alloc, batches.len())?;
    for batch in batches {
        list.push(batch)?;
    }
    Ok(list)
}

/// The batches of both, in key order; of two with one key ours.
fn merged<'b>(
    alloc: Global,
    ours: &[&'b Batch],
    theirs: &[&'b Batch],
) -> Result<Vec<&'b Batch>, OutOfMemory>
    ensures { IfOk result (λ all. map (λ b. b.now) all.items ≡ merged (map (λ b. b.now) ours.now) (map (λ b. b.now) theirs.now)) }
{
    let mut all = Vec::new(alloc);
    let mut place = 0;
    let mut other = 0;
    while place < ours.len() && other < theirs.len() {
        let one = ours[place];
        let two = theirs[other];
        if one.key.is_before(two.key) {
            all.push(one)?;
            place += 1;
        } else if one.key == two.key {
            all.push(one)?;
            place += 1;
            other += 1;
        } else {
            all.push(two)?;
            other += 1;
        }
    }
    push_all(&mut all, &ours[place..])?;
    push_all(&mut all, &theirs[other..])?;
    Ok(all)
}

/// The batches of dumps of one workflow, in key order, each key once, with what the first dump that has the key has
/// under it.
pub fn united<'b>(alloc: Global, dumps: &'b [Taken]) -> Result<Vec<&'b Batch>, OutOfMemory>
    ensures { IfOk result (λ union. map (λ b. b.now) union.items ≡ united dumps.now) }
{
    let mut union: Vec<&'b Batch> = Vec::new(alloc);
    for taken in dumps {
        let theirs = each_of(alloc, taken.batches())?;
        union = merged(alloc, union.as_slice(), theirs.as_slice())?;
    }
    Ok(union)
}
