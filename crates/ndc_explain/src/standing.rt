//! The batches that stand on current branches.
ghost use Rattle.std.specs.Prelude.{◌≡◌, IfOk, OnOk};
ghost use Rattle.ndc_dump.specs.Marks.{current_key};
ghost use Rattle.ndc_model_sets.specs.Current.{is_zombie};
ghost use Rattle.ndc_explain.specs.Standing.{standing, with_optional, with_parent, with_parents, with_tip, with_tips};

use crate::branches::leader;
use ndc_dump_causes::keys::KeySet;
use ndc_event::{Batch, BatchKey, OutOfMemory};
use ndc_model_sets::{BranchView, RunStatus, RunView, View};
use std::alloc::Global;

/// Whether it is the status of a zombie.
pub(crate) fn is_zombie(status: RunStatus) -> bool
    ensures { result ≡ is_zombie status }
{
    match status {
        RunStatus::Zombie => true,
        RunStatus::Running | RunStatus::Closed => false,
    }
}

/// The tip of the branch that leads.
fn current_key(branches: &[BranchView]) -> Option<BatchKey>
    ensures { result ≡ current_key branches.now }
{
    match leader(branches) {
        None => None,
        Some(branch) => Some(branch.tip),
    }
}

/// Lists the key, where there is one.
pub fn insert(keys: &mut KeySet, key: Option<BatchKey>) -> Result<(), OutOfMemory>
    ensures { OnOk result (keys.new ≡ with_optional key keys.old) }
{
    match key {
        None => Ok(()),
        Some(key) => keys.insert(key),
    }
}

/// Lists the tip of the current branch of a run, unless it is a zombie.
fn insert_tip(keys: &mut KeySet, run: &RunView) -> Result<(), OutOfMemory>
    ensures { OnOk result (keys.new ≡ with_tip run.now keys.old) }
{
    if !is_zombie(run.status) {
        insert(keys, current_key(run.branches.as_slice()))
    } else {
        Ok(())
    }
}

/// Lists the tips of the current branches of those of the runs that are not zombies.
fn insert_tips(keys: &mut KeySet, runs: &[RunView]) -> Result<(), OutOfMemory>
    ensures { OnOk result (keys.new ≡ with_tips runs.now keys.old) }
{
    for run in runs {
        insert_tip(keys, run)?;
    }
    Ok(())
}

/// Lists the parent of a batch that is listed.
fn insert_parent(keys: &mut KeySet, batch: &Batch) -> Result<(), OutOfMemory>
    ensures { OnOk result (keys.new ≡ with_parent batch.now keys.old) }
{
    if keys.contains(batch.key) {
        insert(keys, batch.parent)
    } else {
        Ok(())
    }
}

/// Lists the parents of those of the batches that are listed, from the last batch to the first.
fn insert_parents(keys: &mut KeySet, batches: &[Batch]) -> Result<(), OutOfMemory>
    ensures { OnOk result (keys.new ≡ with_parents batches.now keys.old) }
{
    let mut place = batches.len();
    while place > 0 {
        place -= 1;
        insert_parent(keys, &batches[place])?;
    }
    Ok(())
}

/// The keys of the batches on current branches of runs that are not zombies.
pub fn standing(alloc: Global, view: &View) -> Result<KeySet, OutOfMemory>
    ensures { IfOk result (λ keys. keys ≡ standing view.now) }
{
    let mut keys = KeySet::new(alloc);
    insert_tips(&mut keys, view.runs.as_slice())?;
    insert_parents(&mut keys, view.batches.as_slice())?;
    Ok(keys)
}
