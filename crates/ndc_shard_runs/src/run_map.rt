ghost use Rattle.std.specs.Prelude.{◌≡◌, ◌+◌, ◌≤◌, ◌^◌, All, IsOk, IfOk, IfErr, length, None, OnOk, OnErr};
ghost use Rattle.ndc_event.specs.Batch.{fault_of};
ghost use Rattle.ndc_shard_runs.specs.RunMap.{AreInOrder, grown};
ghost use Rattle.ndc_shard_runs.specs.Standing.{IsAt, IsGap};
ghost use Rattle.ndc_run.specs.Learning.{learned};
ghost use Rattle.ndc_run.specs.declared.answer.RunError.TheVariants.{Memory};
ghost use Rattle.ndc_event.specs.Outcome.{Gives};
ghost use Rattle.ndc_state.specs.Counted.{counted};
ghost use Rattle.ndc_state.specs.Replay.{CountsWithin};
ghost use Rattle.ndc_model_sets.specs.Reading.{current_key};
ghost use Rattle.ndc_tree.specs.Inserting.{inserted};

use ndc_event::{Batch, RunId};
use ndc_run::{Learned, Run, RunError};
use ndc_state::Steps;
use ndc_tree::sorted::put;
use std::alloc::Global;
use std::marker::Model;

/// The runs by their ids. Seen as their list, ascending.
pub(crate) struct RunMap {
    runs: Vec<Run>,
}

impl Model for RunMap {
    ghost use Rattle.std.specs.Prelude.{List};
    ghost use Rattle.ndc_shard_runs.specs.RunMap.{AreInOrder};
    ghost use Rattle.ndc_tree.specs.Tree.{TreeValue};

    ghost Value = { List TreeValue };

    ghost view = { λ map. map.runs.items };

    ghost invariant = { λ map. AreInOrder map.runs.items };
}

impl Drop for RunMap {
    fn drop(self) {
        let RunMap { runs: _runs } = self;
    }
}

impl RunMap {
    ghost use Rattle.std.specs.Prelude.{◌≡◌, ◌+◌, ◌≤◌, ◌^◌, [], All, IsOk, length, slice_get, None, OnOk, OnErr};
    ghost use Rattle.std.specs.Option.{option_copied};
    ghost use Rattle.ndc_event.specs.Batch.{fault_of};
    ghost use Rattle.ndc_event.specs.Outcome.{Gives};
    ghost use Rattle.ndc_run.specs.Learning.{learned};
    ghost use Rattle.ndc_run.specs.declared.answer.RunError.TheVariants.{Memory};
    ghost use Rattle.ndc_shard_runs.specs.RunMap.{AreInOrder, batches_of, run_at, with_batch, without_run};
    ghost use Rattle.ndc_tree.specs.Inserting.{inserted};
    ghost use Rattle.ndc_state.specs.Counted.{counted};
    ghost use Rattle.ndc_state.specs.Replay.{CountsWithin};
    ghost use Rattle.ndc_model_sets.specs.Reading.{current_key};

    /// There is no run.
    pub(crate) fn new(alloc: Global) -> RunMap
        ensures { result ≡ [] }
    {
        RunMap {
            runs: Vec::new(alloc),
        }
    }

    /// The first run.
    pub(crate) fn first(&self) -> Option<&Run>
        ensures { option_copied result ≡ slice_get self.now 0 }
    {
        self.runs.first()
    }

    /// The runs, ascending.
    pub(crate) fn as_slice(&self) -> &[Run]
        ensures list { result.now ≡ self.now }
        ensures order { AreInOrder self.now }
    {
        self.runs.as_slice()
    }

    /// The run of this id.
    pub(crate) fn get(&self, run: RunId) -> Option<&Run>
        ensures { option_copied result ≡ run_at run self.now }
    {
        match place_of(self.runs.as_slice(), run) {
            Ok(place) => Some(&self.runs[place]),
            Err(_) => None,
        }
    }

    /// Takes in a batch that the tree of its run takes. Refused with [`RunError::Invalid`] for the first event that is
    /// forbidden on its path, with its first rule. After an error the runs are as they were.
    pub(crate) fn learn<L>(
        &mut self,
        alloc: Global,
        batch: &Batch,
        steps: &mut Steps<L>,
    ) -> Result<Learned, RunError>
        requires fits { IsOk (inserted batch.now.run
            (batches_of (run_at batch.now.run self.old)) batch.now) }
        requires faultless { fault_of batch.now ≡ None }
        requires ids { All (λ event. event.id ≤ 10 ^ 12) batch.now.events }
        ensures answer { Gives Memory (λ done.
            done) result (learned batch.now.run
            (batches_of (run_at batch.now.run self.old)) batch.now) }
        ensures ok { OnOk result (self.new ≡ with_batch batch.now self.old) }
        ensures err { OnErr result (self.new ≡ self.old) }
        ensures extend_steps { OnOk result
            (batch.now.parent ≡ current_key batch.now.run
            (batches_of (run_at batch.now.run self.old))
            → steps.new ≡ counted steps.old (length batch.now.events)) }
        ensures most_steps { CountsWithin steps.old (length batch.now.events + 511) steps.new }
    {
        match place_of(self.runs.as_slice(), batch.run) {
            Ok(place) => grow(&mut self.runs[place], alloc, batch, steps),
            Err(place) => {
                let mut run = Run::new(alloc, batch.run);
                let learned = grow(&mut run, alloc, batch, steps)?;
                put(&mut self.runs, place, run)?;
                Ok(learned)
            }
        }
    }

    /// Takes the run out, where it is there.
    pub(crate) fn take(&mut self, run: RunId)
        ensures { self.new ≡ without_run run self.old }
    {
        if let Ok(place) = place_of(self.runs.as_slice(), run) {
            self.runs.remove(place);
        }
    }
}

/// Where the run of an id stands, or where it would go.
fn place_of(runs: &[Run], run: RunId) -> Result<usize, usize>
    requires { AreInOrder runs.now }
    ensures found { IfOk result (IsAt runs.now run) }
    ensures absent { IfErr result (IsGap runs.now run) }
{
    runs.binary_search_by(|one| one.tree().run().value.cmp(&run.value))
}

/// Takes in a batch that the run's tree takes. After an error the run is as it was.
fn grow<L>(
    run: &mut Run,
    alloc: Global,
    batch: &Batch,
    steps: &mut Steps<L>,
) -> Result<Learned, RunError>
    requires fits { IsOk (inserted run.old.run run.old.batches batch.now) }
    requires faultless { fault_of batch.now ≡ None }
    requires ids { All (λ event. event.id ≤ 10 ^ 12) batch.now.events }
    ensures answer { Gives Memory (λ done.
        done) result (learned run.old.run run.old.batches batch.now) }
    ensures ok { OnOk result (run.new ≡ grown batch.now run.old) }
    ensures err { OnErr result (run.new ≡ run.old) }
    ensures extend_steps { OnOk result (batch.now.parent ≡ current_key run.old.run run.old.batches
        → steps.new ≡ counted steps.old (length batch.now.events)) }
    ensures most_steps { CountsWithin steps.old (length batch.now.events + 511) steps.new }
{
    run.join(alloc, batch, steps)
}
