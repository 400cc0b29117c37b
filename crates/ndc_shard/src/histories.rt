ghost use Rattle.std.specs.Prelude.{◌≡◌, ◌||◌, map, IfOk, OnOk};
ghost use Rattle.ndc_event.specs.declared.batch.Batch.{Batch as One};
ghost use Rattle.ndc_model_sets.specs.Branches.{has_child};
ghost use Rattle.ndc_model_sets.specs.Keys.{is_key_among};
ghost use Rattle.ndc_model_sets.specs.Paths.{is_wanted};

use ndc_event::{Batch, BatchKey, OutOfMemory, RunId};
use ndc_history::{Item, VersionHistory};
use ndc_resend::{Gap, gap};
use ndc_shard_runs::Runs;
use std::alloc::Global;
use std::collections::{BTreeMap, BTreeSet};
use std::marker::Model;

/// The version histories of the learned branches of a workflow, by run. Seen as the list of the runs with theirs.
pub(crate) struct Histories {
    alloc: Global,
    map: BTreeMap<u128, Vec<VersionHistory>>,
}

impl Model for Histories {
    ghost use Rattle.std.specs.Prelude.{ℕ, List};
    ghost use Rattle.std.specs.Global.{Vec};
    ghost use Rattle.ndc_history.specs.declared.item.Item.{Item};

    ghost Value = { List (ℕ × Vec (List Item)) };

    ghost view = { λ histories. histories.map.entries };
}

impl Drop for Histories {
    fn drop(self) {
        let Histories {
            alloc: _alloc,
            map: _map,
        } = self;
    }
}

impl Histories {
    ghost use Rattle.std.specs.Prelude.{◌≡◌, [], ◌∷◌, ◌++◌, IfOk, OnOk, if◌then◌else◌};
    ghost use Rattle.ndc_event.specs.declared.key.RunId.{RunId as RunKey};
    ghost use Rattle.ndc_model_sets.specs.Branches.{histories, same_run};
    ghost use Rattle.ndc_resend.specs.Gaps.{gap_of};
    ghost use Rattle.ndc_shard.specs.Histories.{branch_ending, histories_at};

    /// Those of what is learned of a workflow. In time of what is learned of it.
    pub(crate) fn of(alloc: Global, runs: &Runs) -> Result<Histories, OutOfMemory>
        ensures { IfOk result (λ all.
            (run : RunKey) → histories_at run all ≡ histories run runs.now) }
    {
        let batches = runs.batches(alloc)?;
        let parents = parents_of(alloc, batches.as_slice())?;
        let mut all = Histories {
            alloc,
            map: BTreeMap::new(alloc),
        };
        for batch in batches.as_slice() {
            all.add_branch(runs, &parents, batch)?;
        }
        Ok(all)
    }

    /// Where its memory comes from.
    pub(crate) fn alloc(&self) -> Global {
        self.alloc
    }

    /// The gap before an event of a batch of this run, by the run's histories and this one.
    pub(crate) fn gap(&self, run: RunId, remote: &VersionHistory, first: Item) -> Gap
        ensures { result ≡ gap_of (histories_at run self.now) remote.now first }
    {
        match self.map.get(&run.value) {
            Some(list) => gap(list.as_slice(), remote, first),
            None => {
                let none = Vec::new(self.alloc);
                gap(none.as_slice(), remote, first)
            }
        }
    }

    /// Adds the history of the branch that ends with this batch, where no batch has it as its parent.
    fn add_branch(
        &mut self,
        runs: &Runs,
        parents: &BTreeSet<BatchKey>,
        batch: &Batch,
    ) -> Result<(), OutOfMemory>
        ensures { OnOk result ((run : RunKey) → histories_at run self.new
            ≡ histories_at run self.old ++ branch_ending run parents.now.keys runs.now batch.now) }
    {
        if parents.contains(&batch.key) {
            return Ok(());
        }
        let Some(history) = runs.history_of(self.alloc, batch.key)? else {
            return Ok(());
        };
        self.add(batch.run, history)
    }

    /// Adds a history to those of a run.
    fn add(&mut self, run: RunId, history: VersionHistory) -> Result<(), OutOfMemory>
        ensures { OnOk result ((one : RunKey) → histories_at one self.new
            ≡ (if same_run run one then histories_at one self.old ++ history
            ∷ [] else histories_at one self.old)) }
    {
        let mut list = self.take(run);
        list.push(history)?;
        self.map.insert(run.value, list)?;
        Ok(())
    }

    /// Takes those of a run out.
    fn take(&mut self, run: RunId) -> Vec<VersionHistory>
        ensures taken { result.items ≡ histories_at run self.old }
        ensures others { (one : RunKey) → histories_at one self.new
            ≡ (if same_run run one then [] else histories_at one self.old) }
    {
        match self.map.remove(&run.value) {
            Some(list) => list,
            None => Vec::new(self.alloc),
        }
    }
}

/// The keys of the batches that are parents of some of these.
fn parents_of(alloc: Global, batches: &[&Batch]) -> Result<BTreeSet<BatchKey>, OutOfMemory>
    ensures { IfOk result (λ parents.
        (b : One) → is_key_among b.key parents.keys ≡ has_child b (map (λ x. x.now) batches.now)) }
{
    let mut parents = BTreeSet::new(alloc);
    for batch in batches {
        add_parent(&mut parents, batch)?;
    }
    Ok(parents)
}

/// Adds the key of the batch's parent, where it has one.
fn add_parent(parents: &mut BTreeSet<BatchKey>, batch: &Batch) -> Result<(), OutOfMemory>
    ensures { OnOk result ((b : One) → is_key_among b.key parents.new.keys
        ≡ (is_key_among b.key parents.old.keys || is_wanted batch.now.parent b)) }
{
    if let Some(parent) = batch.parent {
        parents.insert(parent)?;
    }
    Ok(())
}
