ghost use Rattle.std.specs.Prelude.{◌≡◌};
ghost use Rattle.ndc_run.specs.Learning.{is_known, leads_over};
ghost use Rattle.ndc_run.specs.Leading.{leading_of, beside_of};

use crate::answer::{Learned, RunError};
use crate::copies::Copies;
use crate::growing::grow;
use ndc_event::{Batch, BatchKey, OutOfMemory, RunId};
use ndc_model_sets::is_key;
use ndc_state::{State, Steps};
use ndc_tree::{Inserted, Tree};
use std::alloc::{AllocError, Global};
use std::marker::Model;
use std::mem;

/// A path of a run by its last batch, with its state.
#[derive(Drop)]
pub(crate) struct Branch {
    pub(crate) tip: BatchKey,
    pub(crate) state: State,
}

/// The batches of one run, with the state of its current branch. Seen as the run and the list of its batches in key
/// order. Beside the current state it holds one more, that of the other branch which was last gone on with, and what
/// is kept of the states on the way.
pub struct Run {
    tree: Tree,
    state: State,
    beside: Option<Box<Branch>>,
    kept: Copies,
}

impl Model for Run {
    ghost use Rattle.ndc_tree.specs.Tree.{TreeValue};

    ghost Value = { TreeValue };

    ghost use Rattle.ndc_run.specs.RunFields.{run_of, IsRunInside};

    ghost view = { run_of };

    ghost invariant = { IsRunInside };
}

impl Drop for Run {
    fn drop(self) {
        let Run {
            tree: _tree,
            state: _state,
            beside: _beside,
            kept: _kept,
        } = self;
    }
}

impl Run {
    ghost use Rattle.std.specs.Prelude.{◌≡◌, ◌≢◌, ◌+◌, ◌≤◌, ◌^◌, ◌↔◌, [], All, length, map, Bool, true, false, None, Some, Ok, Err, is_some, IsOk, IfOk, IfErr, OnOk, OnErr};
    ghost use Rattle.ndc_event.specs.Batch.{fault_of};
    ghost use Rattle.ndc_event.specs.Outcome.{Gives};
    ghost use Rattle.ndc_event.specs.declared.key.BatchKey.{BatchKey as Key};
    ghost use Rattle.ndc_run.specs.Learning.{learned, joined, current_path, BeginsWith, tip_state};
    ghost use Rattle.ndc_model_sets.specs.Keys.{is_key};
    ghost use Rattle.ndc_run.specs.Run.{IsRun};
    ghost use Rattle.ndc_run.specs.declared.answer.Learned.TheVariants.{New, Known};
    ghost use Rattle.ndc_run.specs.declared.answer.RunError.TheVariants.{MissingParent, NotWellFormed, Memory};
    ghost use Rattle.ndc_model_sets.specs.Branches.{current_tip};
    ghost use Rattle.ndc_model_sets.specs.Current.{current_state, state_to};
    ghost use Rattle.ndc_model_sets.specs.Paths.{path_to};
    ghost use Rattle.ndc_model_sets.specs.Sets.{arrived, batch_at, Has};
    ghost use Rattle.ndc_state.specs.Counted.{counted};
    ghost use Rattle.ndc_state.specs.Replay.{CountsWithin};
    ghost use Rattle.ndc_model_sets.specs.Reading.{current_key};
    ghost use Rattle.ndc_tree.specs.Inserting.{inserted};
    ghost use Rattle.ndc_tree.specs.Tree.{Joins};

    /// The run without a batch.
    pub fn new(alloc: Global, run: RunId) -> Run
        ensures { result ≡ record { run = run; batches = [] } }
    {
        Run {
            tree: Tree::new(alloc, run),
            state: State::new(alloc, run),
            beside: None,
            kept: Copies::new(alloc, run),
        }
    }

    /// The batches: a tree whose paths replay.
    pub fn tree(&self) -> &Tree
        ensures tree { result.now ≡ self.now }
        ensures run { IsRun self.now.run self.now.batches }
    {
        &self.tree
    }

    /// The state of the current branch; that of no event where there is no batch.
    pub fn state(&self) -> &State
        ensures { result.now ≡ current_state self.now.run self.now.batches }
    {
        &self.state
    }

    /// The key of the current branch's last batch; none exactly where there is no batch.
    pub fn tip(&self) -> Option<BatchKey>
        ensures { result ≡ current_key self.now.run self.now.batches }
    {
        self.tree.current()
    }

    /// Takes the batch in. [`Learned::Known`] exactly where an equal one is there. Refused with
    /// [`RunError::MissingParent`] and [`RunError::NotWellFormed`] where its tree refuses it, then with
    /// [`RunError::Invalid`] for the first event that is forbidden on its path, with its first rule. After an error
    /// the run is as it was. A batch that goes on from the current branch takes a step for each of its events; a known
    /// one and one that the tree refuses take none; any other takes at most 511 more.
    pub fn learn<L>(
        &mut self,
        alloc: Global,
        batch: &Batch,
        steps: &mut Steps<L>,
    ) -> Result<Learned, RunError>
        requires faultless { fault_of batch.now ≡ None }
        requires ids { All (λ event. event.id ≤ 10 ^ 12) batch.now.events }
        ensures known { Has self.old.batches batch.now ↔ (result ≡ Ok Known) }
        ensures answer { result ≢ Ok Known
            → Gives Memory (λ done. done) result (learned self.old.run self.old.batches batch.now) }
        ensures grown { result ≢ Ok Known
            → OnOk result (self.new ≡ record self.old {
              batches = arrived batch.now self.old.batches;
            }) }
        ensures same { result ≡ Ok Known → self.new ≡ self.old }
        ensures err { OnErr result (self.new ≡ self.old) }
        ensures known_steps { result ≡ Ok Known → steps.new ≡ steps.old }
        ensures missing_steps { (key : Key) → result ≡ Err (MissingParent key)
            → steps.new ≡ steps.old }
        ensures ill_formed_steps { (key : Key) → result ≡ Err (NotWellFormed key)
            → steps.new ≡ steps.old }
        ensures extend_steps { result ≢ Ok Known
            → OnOk result (batch.now.parent ≡ current_key self.old.run self.old.batches
            → steps.new ≡ counted steps.old (length batch.now.events)) }
        ensures most_steps { CountsWithin steps.old (length batch.now.events + 511) steps.new }
        ensures switched { (switched : Bool) → result ≡ Ok (New switched)
            → (switched ≡ false) ↔ BeginsWith (current_path self.new.run self.new.batches)
            (current_path self.old.run self.old.batches) }
    {
        if is_known(self.tree.judge(batch)?) {
            return Ok(Learned::Known);
        }
        self.take_in(alloc, batch, steps)
    }

    /// Takes in a batch that fits the run's tree, so that the tree neither refuses nor knows it: what [`Run::learn`] does
    /// once the tree has judged. For who knows that already. Refused with [`RunError::Invalid`] for the first event that is
    /// forbidden on its path, with its first rule. After an error the run is as it was. A batch that goes on from the
    /// current branch takes a step for each of its events, any other at most 511 more.
    pub fn join<L>(
        &mut self,
        alloc: Global,
        batch: &Batch,
        steps: &mut Steps<L>,
    ) -> Result<Learned, RunError>
        requires fits { IsOk (inserted self.old.run self.old.batches batch.now) }
        requires faultless { fault_of batch.now ≡ None }
        requires ids { All (λ event. event.id ≤ 10 ^ 12) batch.now.events }
        ensures answer { Gives Memory (λ done.
            done) result (learned self.old.run self.old.batches batch.now) }
        ensures new { result ≢ Ok Known }
        ensures grown { OnOk result
            (self.new ≡ record self.old { batches = arrived batch.now self.old.batches }) }
        ensures err { OnErr result (self.new ≡ self.old) }
        ensures extend_steps { OnOk result
            (batch.now.parent ≡ current_key self.old.run self.old.batches
            → steps.new ≡ counted steps.old (length batch.now.events)) }
        ensures most_steps { CountsWithin steps.old (length batch.now.events + 511) steps.new }
        ensures switched { (switched : Bool) → result ≡ Ok (New switched)
            → (switched ≡ false) ↔ BeginsWith (current_path self.new.run self.new.batches)
            (current_path self.old.run self.old.batches) }
    {
        // What holds of its tree is known here: the batch joins it.
        let _tree = &self.tree;
        self.take_in(alloc, batch, steps)
    }

    /// The state of the branch with this tip; none exactly where the key is that of no tip. Takes at most 511 steps,
    /// none where it is none.
    pub fn state_of<L>(
        &self,
        alloc: Global,
        tip: BatchKey,
        steps: &mut Steps<L>,
    ) -> Result<Option<State>, OutOfMemory>
        ensures state { IfOk result (λ state. state ≡ tip_state self.now.run self.now.batches tip) }
        ensures most_steps { CountsWithin steps.old 511 steps.new }
        ensures no_steps { result ≡ Ok None → steps.new ≡ steps.old }
    {
        if !self.tree.is_tip(tip) {
            return Ok(None);
        }
        Ok(Some(self.state_at(alloc, tip, steps)?))
    }

    /// Takes in a batch that joins the tree.
    fn take_in<L>(
        &mut self,
        alloc: Global,
        batch: &Batch,
        steps: &mut Steps<L>,
    ) -> Result<Learned, RunError>
        requires joins { Joins self.old.run self.old.batches batch.now }
        requires ids { All (λ event. event.id ≤ 10 ^ 12) batch.now.events }
        ensures answer { Gives Memory (λ done.
            done) result (joined self.old.run self.old.batches batch.now) }
        ensures new { result ≢ Ok Known }
        ensures grown { OnOk result
            (self.new ≡ record self.old { batches = arrived batch.now self.old.batches }) }
        ensures err { OnErr result (self.new ≡ self.old) }
        ensures extend_steps { OnOk result
            (batch.now.parent ≡ current_key self.old.run self.old.batches
            → steps.new ≡ counted steps.old (length batch.now.events)) }
        ensures most_steps { CountsWithin steps.old (length batch.now.events + 511) steps.new }
    {
        let Some(parent) = batch.parent else {
            return self.extend(batch, steps);
        };
        if is_key(parent, self.tree.current()) {
            return self.extend(batch, steps);
        }
        let branch = self.branch_at(alloc, parent, steps)?;
        self.extend_beside(branch, batch, steps)
    }

    /// Takes in a batch that goes on from the current branch.
    fn extend<L>(&mut self, batch: &Batch, steps: &mut Steps<L>) -> Result<Learned, RunError>
        requires joins { Joins self.old.run self.old.batches batch.now }
        requires ids { All (λ event. event.id ≤ 10 ^ 12) batch.now.events }
        requires tip { batch.now.parent ≡ current_key self.old.run self.old.batches }
        ensures answer { Gives Memory (λ done.
            done) result (joined self.old.run self.old.batches batch.now) }
        ensures new { result ≢ Ok Known }
        ensures grown { OnOk result
            (self.new ≡ record self.old { batches = arrived batch.now self.old.batches }) }
        ensures err { OnErr result (self.new ≡ self.old) }
        ensures ok_steps { OnOk result (steps.new ≡ counted steps.old (length batch.now.events)) }
        ensures most_steps { CountsWithin steps.old (length batch.now.events) steps.new }
    {
        match grow(
            &mut self.state,
            &mut self.kept,
            &mut self.tree,
            batch,
            steps,
        ) {
            Ok(()) => {}
            Err(error) => return Err(error),
        }
        Ok(Learned::New { switched: false })
    }

    /// Takes in a batch that goes on from this path, and not from the current branch.
    fn extend_beside<L>(
        &mut self,
        mut branch: Box<Branch>,
        batch: &Batch,
        steps: &mut Steps<L>,
    ) -> Result<Learned, RunError>
        requires joins { Joins self.old.run self.old.batches batch.now }
        requires ids { All (λ event. event.id ≤ 10 ^ 12) batch.now.events }
        requires parent { batch.now.parent ≡ Some branch.value.tip }
        requires state { branch.value.state
            ≡ state_to self.old.run branch.value.tip self.old.batches }
        requires apart { is_key branch.value.tip (current_key self.old.run self.old.batches)
            ≡ false }
        ensures answer { Gives Memory (λ done.
            done) result (joined self.old.run self.old.batches batch.now) }
        ensures new { result ≢ Ok Known }
        ensures grown { OnOk result
            (self.new ≡ record self.old { batches = arrived batch.now self.old.batches }) }
        ensures err { OnErr result (self.new ≡ self.old) }
        ensures most_steps { CountsWithin steps.old (length batch.now.events) steps.new }
    {
        let tip = self.tree.current();
        let held = branch.as_mut();
        match grow(
            &mut held.state,
            &mut self.kept,
            &mut self.tree,
            batch,
            steps,
        ) {
            Ok(()) => {
                let switched = leads_over(batch.key, tip);
                lead(&mut self.state, held, batch.key, tip);
                self.beside = Some(branch);
                Ok(Learned::New { switched })
            }
            Err(error) => {
                self.beside = Some(branch);
                Err(error)
            }
        }
    }

    /// The path to the batch of this key, with its state: the one that is held, or else restored. The one that is held
    /// is let go.
    fn branch_at<L>(
        &mut self,
        alloc: Global,
        key: BatchKey,
        steps: &mut Steps<L>,
    ) -> Result<Box<Branch>, OutOfMemory>
        requires { is_some (batch_at key self.old.batches) ≡ true }
        ensures tip { IfOk result (λ branch. branch.value.tip ≡ key) }
        ensures state { IfOk result (λ branch.
            branch.value.state ≡ state_to self.old.run key self.old.batches) }
        ensures same { self.new ≡ self.old }
        ensures steps { CountsWithin steps.old 511 steps.new }
    {
        if let Some(branch) = self.beside.take() {
            if is_key(key, Some(branch.tip)) {
                return Ok(branch);
            }
        }
        let state = self.restored(alloc, key, steps)?;
        Ok(Box::new(alloc, Branch { tip: key, state })?)
    }

    /// The state of the path to the batch of this key.
    fn state_at<L>(
        &self,
        alloc: Global,
        key: BatchKey,
        steps: &mut Steps<L>,
    ) -> Result<State, OutOfMemory>
        requires { is_some (batch_at key self.now.batches) ≡ true }
        ensures state { IfOk result (λ state. state ≡ state_to self.now.run key self.now.batches) }
        ensures steps { CountsWithin steps.old 511 steps.new }
    {
        if is_key(key, self.tree.current()) {
            return self.state.try_copy();
        }
        if let Some(branch) = &self.beside {
            let held = branch.as_ref();
            if is_key(key, Some(held.tip)) {
                return held.state.try_copy();
            }
        }
        self.restored(alloc, key, steps)
    }

    /// The same, from what is kept on the path.
    fn restored<L>(
        &self,
        alloc: Global,
        key: BatchKey,
        steps: &mut Steps<L>,
    ) -> Result<State, OutOfMemory>
        requires { is_some (batch_at key self.now.batches) ≡ true }
        ensures state { IfOk result (λ state. state ≡ state_to self.now.run key self.now.batches) }
        ensures steps { CountsWithin steps.old 511 steps.new }
    {
        let path = self.path_to(alloc, key)?;
        match self.kept.restore_along(path.as_slice(), steps) {
            Ok(state) => Ok(state),
            Err(_) => Err(AllocError),
        }
    }

    /// The batches of the path to the one of this key.
    fn path_to(&self, alloc: Global, key: BatchKey) -> Result<Vec<&Batch>, OutOfMemory>
        requires { is_some (batch_at key self.now.batches) ≡ true }
        ensures { IfOk result (λ path. map (λ b. b.now) path.items ≡ path_to key self.now.batches) }
    {
        match self.tree.path_batches(alloc, key)? {
            None => Ok(Vec::new(alloc)),
            Some(path) => Ok(path),
        }
    }
}

/// Whether it tells that the batch was there.
fn is_known(inserted: Inserted) -> bool
    ensures { result ≡ is_known inserted }
{
    match inserted {
        Inserted::Known => true,
        _ => false,
    }
}

/// Whether the key comes after this one, where there is one.
fn leads_over(key: BatchKey, other: Option<BatchKey>) -> bool
    ensures { result ≡ leads_over key other }
{
    match other {
        None => false,
        Some(other) => other.is_before(key),
    }
}

/// Puts the state of the path that is gone on with in the place of the current one, where its last key, which is this
/// one, comes after the tip of this. The one that is not current is held beside.
fn lead(current: &mut State, held: &mut Branch, key: BatchKey, tip: Option<BatchKey>)
    ensures current { current.new ≡ leading_of key tip held.old.state current.old }
    ensures beside { held.new ≡ beside_of key tip held.old.state current.old }
{
    match tip {
        None => held.tip = key,
        Some(tip) => {
            if tip.is_before(key) {
                mem::swap(current, &mut held.state);
                held.tip = tip;
            } else {
                held.tip = key;
            }
        }
    }
}
