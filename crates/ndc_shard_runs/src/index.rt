ghost use Rattle.std.specs.Prelude.{◌≡◌, ◌+◌, ◌≤◌, ◌^◌, [], false, All, map, IsOk, IfOk, IfSome, length, slice_get, None, OnOk, OnErr};
ghost use Rattle.std.specs.Option.{option_copied, option_map};
ghost use Rattle.ndc_event.specs.Batch.{fault_of};
ghost use Rattle.ndc_event.specs.Key.{key_eq};
ghost use Rattle.ndc_model_sets.specs.Branches.{same_run};
ghost use Rattle.ndc_model_sets.specs.Reading.{current_key};
ghost use Rattle.ndc_model_sets.specs.Sets.{batch_at};
ghost use Rattle.ndc_model_sets.specs.Sound.{IsSound};
ghost use Rattle.ndc_event.specs.Outcome.{Gives};
ghost use Rattle.ndc_run.specs.Learning.{learned};
ghost use Rattle.ndc_run.specs.declared.answer.RunError.TheVariants.{Memory};
ghost use Rattle.ndc_shard_runs.specs.Fitting.{both_joined};
ghost use Rattle.ndc_shard_runs.specs.Index.{AreIndexed, AreOne, left, run_with};
ghost use Rattle.ndc_shard_runs.specs.Places.{places_of};
ghost use Rattle.ndc_shard_runs.specs.RunMap.{AreParts, all_of, batches_of, run_at, with_batch};
ghost use Rattle.ndc_state.specs.Counted.{counted};
ghost use Rattle.ndc_state.specs.Replay.{CountsWithin};
ghost use Rattle.ndc_tree.specs.Inserting.{inserted};
ghost use Rattle.ndc_tree.specs.Tree.{IsTree};

use crate::places::Places;
use crate::run_map::RunMap;
use ndc_event::{Batch, BatchKey, OutOfMemory, RunId};
use ndc_run::{Learned, Run, RunError};
use ndc_state::Steps;
use ndc_tree::{Inserted, Tree, TreeError};
use std::alloc::{AllocError, Global};
use std::marker::Model;

/// The runs by their ids, in which batches are found by key. One run alone is asked itself; the places of keys are kept
/// from the second run on. Seen as the list of the runs, ascending.
pub(crate) struct RunIndex {
    runs: RunMap,
    places: Option<Places>,
}

impl Model for RunIndex {
    ghost use Rattle.std.specs.Prelude.{List};
    ghost use Rattle.ndc_tree.specs.Tree.{TreeValue};
    ghost use Rattle.ndc_shard_runs.specs.Index.{AreIndexed};

    ghost Value = { List TreeValue };

    ghost view = { λ index. index.runs };

    ghost invariant = { λ index. AreIndexed index.runs index.places };
}

impl Drop for RunIndex {
    fn drop(self) {
        let RunIndex {
            runs: _runs,
            places: _places,
        } = self;
    }
}

impl RunIndex {
    ghost use Rattle.std.specs.Prelude.{◌≡◌, ◌+◌, ◌≤◌, ◌^◌, [], false, All, map, IsOk, IfOk, length, None, OnOk, OnErr};
    ghost use Rattle.std.specs.Option.{option_copied, option_map};
    ghost use Rattle.ndc_event.specs.Batch.{fault_of};
    ghost use Rattle.ndc_event.specs.Key.{key_eq};
    ghost use Rattle.ndc_model_sets.specs.Branches.{same_run};
    ghost use Rattle.ndc_model_sets.specs.Last.{last_batch};
    ghost use Rattle.ndc_model_sets.specs.Reading.{current_key};
    ghost use Rattle.ndc_model_sets.specs.Sets.{batch_at};
    ghost use Rattle.ndc_model_sets.specs.Sound.{IsSound};
    ghost use Rattle.ndc_event.specs.Outcome.{Gives};
    ghost use Rattle.ndc_run.specs.Learning.{learned};
    ghost use Rattle.ndc_run.specs.declared.answer.RunError.TheVariants.{Memory};
    ghost use Rattle.ndc_tree.specs.Inserting.{inserted};
    ghost use Rattle.ndc_shard_runs.specs.Fitting.{both_joined};
    ghost use Rattle.ndc_shard_runs.specs.Index.{run_with};
    ghost use Rattle.ndc_shard_runs.specs.RunMap.{AreInOrder, AreParts, all_of, batches_of, run_at, with_batch};
    ghost use Rattle.ndc_state.specs.Counted.{counted};
    ghost use Rattle.ndc_state.specs.Replay.{CountsWithin};

    /// There is no run.
    pub(crate) fn new(alloc: Global) -> RunIndex
        ensures { result ≡ [] }
    {
        RunIndex {
            runs: RunMap::new(alloc),
            places: None,
        }
    }

    /// The runs, ascending.
    pub(crate) fn as_slice(&self) -> &[Run]
        ensures list { result.now ≡ self.now }
        ensures order { AreInOrder self.now }
    {
        self.runs.as_slice()
    }

    /// The run of this id.
    pub(crate) fn get(&self, run: RunId) -> Option<&Run>
        ensures { option_copied result ≡ run_at run self.now }
    {
        self.runs.get(run)
    }

    /// The run of the batch of this key.
    pub(crate) fn run_of(&self, key: BatchKey) -> Option<&Run>
        ensures { option_copied result ≡ run_with key self.now }
    {
        match &self.places {
            None => only_with(&self.runs, key),
            Some(places) => self.runs.get(places.get(key)?),
        }
    }

    /// The batch of this key.
    pub(crate) fn batch(&self, key: BatchKey) -> Option<&Batch>
        requires sound { IsSound (all_of self.now) }
        requires parts { AreParts self.now }
        ensures { option_copied result ≡ batch_at key (all_of self.now) }
    {
        match &self.places {
            None => only_tree(&self.runs)?.get(key),
            Some(places) => batch_of(&self.runs, places, key),
        }
    }

    /// The greatest key.
    pub(crate) fn last_key(&self) -> Option<BatchKey>
        ensures { result ≡ option_map (λ b. b.key) (last_batch (all_of self.now)) }
    {
        match &self.places {
            None => only_tree(&self.runs)?.current(),
            Some(places) => places.last_key(),
        }
    }

    /// The batches, in key order.
    pub(crate) fn batches(&self, alloc: Global) -> Result<Vec<&Batch>, OutOfMemory>
        requires sound { IsSound (all_of self.now) }
        requires parts { AreParts self.now }
        ensures { IfOk result (λ list. map (λ b. b.now) list.items ≡ all_of self.now) }
    {
        match &self.places {
            None => only_batches(alloc, &self.runs),
            Some(places) => batches_at(alloc, &self.runs, places),
        }
    }

    /// What the tree of its run says of a batch whose key is new there.
    pub(crate) fn judge(&self, batch: &Batch) -> Result<Inserted, TreeError>
        requires fresh { batch_at batch.now.key (batches_of (run_at batch.now.run self.now))
            ≡ None }
        requires faultless { fault_of batch.now ≡ None }
        ensures { result ≡ inserted batch.now.run
            (batches_of (run_at batch.now.run self.now)) batch.now }
    {
        let key = batch.key;
        match self.runs.get(batch.run) {
            Some(run) => run.tree().judge(batch),
            None => match batch.parent {
                Some(_) => Err(TreeError::MissingParent { key }),
                None => Ok(Inserted::Extended { branch: key }),
            },
        }
    }

    /// Takes in a batch whose key is new, and that its run takes. For want of memory the runs are as they were.
    pub(crate) fn learn<L>(
        &mut self,
        alloc: Global,
        batch: &Batch,
        steps: &mut Steps<L>,
    ) -> Result<(), OutOfMemory>
        requires fresh { batch_at batch.now.key (all_of self.old) ≡ None }
        requires fits { IsOk (learned batch.now.run
            (batches_of (run_at batch.now.run self.old)) batch.now) }
        requires faultless { fault_of batch.now ≡ None }
        requires ids { All (λ event. event.id ≤ 10 ^ 12) batch.now.events }
        ensures ok { OnOk result (self.new ≡ with_batch batch.now self.old) }
        ensures err { OnErr result (self.new ≡ self.old) }
        ensures extend_steps { OnOk result
            (batch.now.parent ≡ current_key batch.now.run
            (batches_of (run_at batch.now.run self.old))
            → steps.new ≡ counted steps.old (length batch.now.events)) }
        ensures most_steps { CountsWithin steps.old (length batch.now.events + 511) steps.new }
    {
        match self.try_learn(alloc, batch, steps) {
            Ok(_) => Ok(()),
            Err(RunError::Memory) => Err(AllocError),
            Err(_) => unreachable!(),
        }
    }

    /// Takes in a batch whose key is new, and that the tree of its run takes. Refused with [`RunError::Invalid`] for the
    /// first event that is forbidden on its path, with its first rule. After an error the runs are as they were.
    pub(crate) fn try_learn<L>(
        &mut self,
        alloc: Global,
        batch: &Batch,
        steps: &mut Steps<L>,
    ) -> Result<Learned, RunError>
        requires fresh { batch_at batch.now.key (all_of self.old) ≡ None }
        requires fits { IsOk (inserted batch.now.run
            (batches_of (run_at batch.now.run self.old)) batch.now) }
        requires faultless { fault_of batch.now ≡ None }
        requires ids { All (λ event. event.id ≤ 10 ^ 12) batch.now.events }
        ensures answer { Gives Memory (λ done.
            done) result (learned batch.now.run
            (batches_of (run_at batch.now.run self.old)) batch.now) }
        ensures ok { OnOk result (self.new ≡ with_batch batch.now self.old) }
        ensures err { OnErr result (self.new ≡ self.old) }
        ensures extend_steps { OnOk result
            (batch.now.parent ≡ current_key batch.now.run
            (batches_of (run_at batch.now.run self.old))
            → steps.new ≡ counted steps.old (length batch.now.events)) }
        ensures most_steps { CountsWithin steps.old (length batch.now.events + 511) steps.new }
    {
        take_in(&mut self.runs, &mut self.places, alloc, batch, steps)
    }

    /// Takes in two batches whose keys are new, of which the second begins a run; or, for want of memory, neither.
    pub(crate) fn learn_both<L>(
        &mut self,
        alloc: Global,
        batch: &Batch,
        second: &Batch,
        steps: &mut Steps<L>,
    ) -> Result<(), OutOfMemory>
        requires fresh { batch_at batch.now.key (all_of self.old) ≡ None }
        requires fits { IsOk (learned batch.now.run
            (batches_of (run_at batch.now.run self.old)) batch.now) }
        requires second_fresh { batch_at second.now.key (all_of self.old) ≡ None }
        requires fits_both { IsOk
            (both_joined (batches_of (run_at batch.now.run self.old)) batch.now second.now) }
        requires other_key { key_eq second.now.key batch.now.key ≡ false }
        requires second_run { run_at second.now.run self.old ≡ None }
        requires other_run { same_run second.now.run batch.now.run ≡ false }
        requires first { second.now.parent ≡ None }
        requires faultless { fault_of batch.now ≡ None }
        requires second_faultless { fault_of second.now ≡ None }
        requires ids { All (λ event. event.id ≤ 10 ^ 12) batch.now.events }
        requires second_ids { All (λ event. event.id ≤ 10 ^ 12) second.now.events }
        ensures ok { OnOk result
            (self.new ≡ with_batch batch.now (with_batch second.now self.old)) }
        ensures err { OnErr result (self.new ≡ self.old) }
        ensures extend_steps { OnOk result
            (batch.now.parent ≡ current_key batch.now.run
            (batches_of (run_at batch.now.run self.old))
            → steps.new ≡ counted (counted steps.old (length second.now.events))
            (length batch.now.events)) }
        ensures most_steps { CountsWithin steps.old
            (length second.now.events + (length batch.now.events + 511)) steps.new }
    {
        match self.try_learn_both(alloc, batch, second, steps) {
            Ok(_) => Ok(()),
            Err(RunError::Memory) => Err(AllocError),
            Err(_) => unreachable!(),
        }
    }

    /// Takes in two batches whose keys are new, of which the second begins a run, and the tree of its run takes the first;
    /// or neither. Refused with [`RunError::Invalid`] for the first event that is forbidden, of the second or else on the
    /// path of the first, with its first rule. After an error the runs are as they were.
    pub(crate) fn try_learn_both<L>(
        &mut self,
        alloc: Global,
        batch: &Batch,
        second: &Batch,
        steps: &mut Steps<L>,
    ) -> Result<Learned, RunError>
        requires fresh { batch_at batch.now.key (all_of self.old) ≡ None }
        requires fits { IsOk (inserted batch.now.run
            (batches_of (run_at batch.now.run self.old)) batch.now) }
        requires second_fresh { batch_at second.now.key (all_of self.old) ≡ None }
        requires other_key { key_eq second.now.key batch.now.key ≡ false }
        requires second_run { run_at second.now.run self.old ≡ None }
        requires other_run { same_run second.now.run batch.now.run ≡ false }
        requires first { second.now.parent ≡ None }
        requires faultless { fault_of batch.now ≡ None }
        requires second_faultless { fault_of second.now ≡ None }
        requires ids { All (λ event. event.id ≤ 10 ^ 12) batch.now.events }
        requires second_ids { All (λ event. event.id ≤ 10 ^ 12) second.now.events }
        ensures answer { Gives Memory (λ done.
            done) result (both_joined
            (batches_of (run_at batch.now.run self.old)) batch.now second.now) }
        ensures ok { OnOk result
            (self.new ≡ with_batch batch.now (with_batch second.now self.old)) }
        ensures err { OnErr result (self.new ≡ self.old) }
        ensures extend_steps { OnOk result
            (batch.now.parent ≡ current_key batch.now.run
            (batches_of (run_at batch.now.run self.old))
            → steps.new ≡ counted (counted steps.old (length second.now.events))
            (length batch.now.events)) }
        ensures most_steps { CountsWithin steps.old
            (length second.now.events + (length batch.now.events + 511)) steps.new }
    {
        take_both(
            &mut self.runs,
            &mut self.places,
            alloc,
            batch,
            second,
            steps,
        )
    }
}

/// The batches of the only run, where there is one.
fn only_tree(runs: &RunMap) -> Option<&Tree>
    requires { AreOne runs.now }
    ensures first { option_copied result ≡ slice_get runs.now 0 }
    ensures all { all_of runs.now ≡ batches_of (option_copied result) }
    ensures tree { IfSome (option_copied result) (λ t. IsTree t.run t.batches) }
{
    Some(runs.first()?.tree())
}

/// The only run, where it has the batch of this key.
fn only_with(runs: &RunMap, key: BatchKey) -> Option<&Run>
    requires { AreOne runs.now }
    ensures { option_copied result ≡ run_with key runs.now }
{
    only_tree(runs)?.get(key)?;
    runs.first()
}

/// The batches of the only run, in key order.
fn only_batches(alloc: Global, runs: &RunMap) -> Result<Vec<&Batch>, OutOfMemory>
    requires { AreOne runs.now }
    ensures { IfOk result (λ list. map (λ b. b.now) list.items ≡ all_of runs.now) }
{
    match only_tree(runs) {
        None => Ok(Vec::new(alloc)),
        Some(tree) => tree.batches(alloc),
    }
}

/// The batch of this key, by the places.
fn batch_of<'r>(runs: &'r RunMap, places: &Places, key: BatchKey) -> Option<&'r Batch>
    requires sound { IsSound (all_of runs.now) }
    requires parts { AreParts runs.now }
    requires places { places.now ≡ places_of (all_of runs.now) }
    ensures { option_copied result ≡ batch_at key (all_of runs.now) }
{
    let run = places.get(key)?;
    runs.get(run)?.tree().get(key)
}

/// The batches, in key order, by the places.
fn batches_at<'r>(
    alloc: Global,
    runs: &'r RunMap,
    places: &Places,
) -> Result<Vec<&'r Batch>, OutOfMemory>
    requires sound { IsSound (all_of runs.now) }
    requires parts { AreParts runs.now }
    requires places { places.now ≡ places_of (all_of runs.now) }
    ensures { IfOk result (λ list. map (λ b. b.now) list.items ≡ all_of runs.now) }
{
    let keys = places.keys(alloc)?;
    let mut list = Vec::new(alloc);
    for key in keys.as_slice() {
        if let Some(batch) = batch_of(runs, places, *key) {
            list.push(batch)?;
        }
    }
    Ok(list)
}

/// Takes in a batch whose key is new, and that the tree of its run takes. After an error all is as it was.
fn take_in<L>(
    runs: &mut RunMap,
    places: &mut Option<Places>,
    alloc: Global,
    batch: &Batch,
    steps: &mut Steps<L>,
) -> Result<Learned, RunError>
    requires indexed { AreIndexed runs.old places.old }
    requires fresh { batch_at batch.now.key (all_of runs.old) ≡ None }
    requires fits { IsOk (inserted batch.now.run
        (batches_of (run_at batch.now.run runs.old)) batch.now) }
    requires faultless { fault_of batch.now ≡ None }
    requires ids { All (λ event. event.id ≤ 10 ^ 12) batch.now.events }
    ensures indexed { AreIndexed runs.new places.new }
    ensures answer { Gives Memory (λ done.
        done) result (learned batch.now.run
        (batches_of (run_at batch.now.run runs.old)) batch.now) }
    ensures ok { OnOk result (runs.new ≡ with_batch batch.now runs.old) }
    ensures err { OnErr result (runs.new ≡ runs.old) }
    ensures extend_steps { OnOk result
        (batch.now.parent ≡ current_key batch.now.run (batches_of (run_at batch.now.run runs.old))
        → steps.new ≡ counted steps.old (length batch.now.events)) }
    ensures most_steps { CountsWithin steps.old (length batch.now.events + 511) steps.new }
{
    enter(places, alloc, runs, batch)?;
    match runs.learn(alloc, batch, steps) {
        Ok(learned) => Ok(learned),
        Err(error) => {
            leave(places, batch.key);
            Err(error)
        }
    }
}

/// Takes in two batches whose keys are new, of which the second begins a run, and the tree of its run takes the first; or
/// neither. After an error all is as it was.
fn take_both<L>(
    runs: &mut RunMap,
    places: &mut Option<Places>,
    alloc: Global,
    batch: &Batch,
    second: &Batch,
    steps: &mut Steps<L>,
) -> Result<Learned, RunError>
    requires indexed { AreIndexed runs.old places.old }
    requires fresh { batch_at batch.now.key (all_of runs.old) ≡ None }
    requires fits { IsOk (inserted batch.now.run
        (batches_of (run_at batch.now.run runs.old)) batch.now) }
    requires second_fresh { batch_at second.now.key (all_of runs.old) ≡ None }
    requires other_key { key_eq second.now.key batch.now.key ≡ false }
    requires second_run { run_at second.now.run runs.old ≡ None }
    requires other_run { same_run second.now.run batch.now.run ≡ false }
    requires first { second.now.parent ≡ None }
    requires faultless { fault_of batch.now ≡ None }
    requires second_faultless { fault_of second.now ≡ None }
    requires ids { All (λ event. event.id ≤ 10 ^ 12) batch.now.events }
    requires second_ids { All (λ event. event.id ≤ 10 ^ 12) second.now.events }
    ensures indexed { AreIndexed runs.new places.new }
    ensures answer { Gives Memory (λ done.
        done) result (both_joined
        (batches_of (run_at batch.now.run runs.old)) batch.now second.now) }
    ensures ok { OnOk result (runs.new ≡ with_batch batch.now (with_batch second.now runs.old)) }
    ensures err { OnErr result (runs.new ≡ runs.old) }
    ensures extend_steps { OnOk result
        (batch.now.parent ≡ current_key batch.now.run (batches_of (run_at batch.now.run runs.old))
        → steps.new ≡ counted (counted steps.old (length second.now.events))
        (length batch.now.events)) }
    ensures most_steps { CountsWithin steps.old
        (length second.now.events + (length batch.now.events + 511)) steps.new }
{
    match take_in(runs, places, alloc, second, steps) {
        Ok(_) => {}
        Err(error) => return Err(error),
    }
    match take_in(runs, places, alloc, batch, steps) {
        Ok(learned) => Ok(learned),
        Err(error) => {
            runs.take(second.run);
            leave(places, second.key);
            Err(error)
        }
    }
}

/// Puts the batch, which is learned next, to its place. The places are made where it begins a second run. For want of
/// memory they are as they were.
fn enter(
    places: &mut Option<Places>,
    alloc: Global,
    runs: &RunMap,
    batch: &Batch,
) -> Result<(), OutOfMemory>
    requires indexed { AreIndexed runs.now places.old }
    requires fresh { batch_at batch.now.key (all_of runs.now) ≡ None }
    ensures ok { OnOk result (AreIndexed (with_batch batch.now runs.now) places.new) }
    ensures err { OnErr result (places.new ≡ places.old) }
{
    match places {
        Some(there) => there.put(batch.key, batch.run),
        None => {
            *places = places_with(alloc, runs, batch)?;
            Ok(())
        }
    }
}

/// The places of the only run's batches and of one that is learned next, where that one begins a second run.
fn places_with(alloc: Global, runs: &RunMap, batch: &Batch) -> Result<Option<Places>, OutOfMemory>
    requires one { AreOne runs.now }
    requires fresh { batch_at batch.now.key (all_of runs.now) ≡ None }
    ensures { IfOk result (λ places. AreIndexed (with_batch batch.now runs.now) places) }
{
    let Some(tree) = only_tree(runs) else {
        return Ok(None);
    };
    if tree.run().value == batch.run.value {
        return Ok(None);
    }
    let mut places = Places::of(alloc, tree)?;
    places.put(batch.key, batch.run)?;
    Ok(Some(places))
}

/// Takes the key out of the places, where they are kept.
fn leave(places: &mut Option<Places>, key: BatchKey)
    ensures { places.new ≡ left key places.old }
{
    if let Some(places) = places {
        places.take(key);
    }
}
