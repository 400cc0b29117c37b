//! What is learned of a batch that nobody vouches for.
ghost use Rattle.std.specs.Prelude.{◌≡◌, IsTrue};
ghost use Rattle.ndc_model_sets.specs.Paths.{last_event};
ghost use Rattle.ndc_shard_runs.specs.Fitting.{continues, is_carrying_fit, is_continued_by};

use crate::misfit::Misfit;
use crate::runs::Runs;
use ndc_event::{Batch, Event, EventKind, RunId};
use ndc_run::Learned;
use ndc_state::Steps;
use std::alloc::Global;

impl Runs {
    ghost use Rattle.std.specs.Prelude.{◌≡◌, ◌+◌, ◌≤◌, ◌^◌, All, length, None, IfSome, OnOk, OnErr};
    ghost use Rattle.std.specs.Option.{option_copied};
    ghost use Rattle.ndc_event.specs.Outcome.{Gives};
    ghost use Rattle.ndc_model_cells.specs.Laws.{arrived_second};
    ghost use Rattle.ndc_model_cells.specs.Messages.{HasSmallIds};
    ghost use Rattle.ndc_model_sets.specs.Sets.{arrived};
    ghost use Rattle.ndc_shard_runs.specs.Fitting.{ComesNext, GoesWithNew, fit_alone, fit_both, fit_of};
    ghost use Rattle.ndc_shard_runs.specs.declared.misfit.Misfit.TheVariants.{Memory};

    /// Learns a batch that comes next, and the one that goes right after it, where there is one, if both fit; or neither. Refused
    /// with the first cause of [`Misfit`] that holds; what is learned then would not be sound
    /// (`laws::what_is_refused_would_not_be_sound`). After an error all is as it was.
    ///
    /// Of the batch and of the other nothing is asked but what can be seen of them: no fault, new keys, a learned earlier
    /// key, and event ids of at most 10^12.
    pub fn admit<L>(
        &mut self,
        alloc: Global,
        batch: &Batch,
        second: Option<&Batch>,
        steps: &mut Steps<L>,
    ) -> Result<Learned, Misfit>
        requires next { ComesNext self.old batch.now }
        requires lone { batch.now.carrier ≡ None }
        requires second { IfSome (option_copied second) (GoesWithNew self.old batch.now) }
        requires ids { HasSmallIds batch.now }
        requires second_ids { IfSome (option_copied second) HasSmallIds }
        ensures answer { Gives Memory (λ done.
            done) result (fit_of self.old batch.now (option_copied second.entry)) }
        ensures ok { OnOk result
            (self.new ≡ arrived_second (option_copied second.entry) (arrived batch.now self.old)) }
        ensures err { OnErr result (self.new ≡ self.old) }
    {
        match second {
            None => self.admit_alone(alloc, batch, steps),
            Some(second) => self.admit_both(alloc, batch, second, steps),
        }
    }

    /// Learns a batch that comes next, if it fits.
    fn admit_alone<L>(
        &mut self,
        alloc: Global,
        batch: &Batch,
        steps: &mut Steps<L>,
    ) -> Result<Learned, Misfit>
        requires next { ComesNext self.old batch.now }
        requires lone { batch.now.carrier ≡ None }
        requires ids { HasSmallIds batch.now }
        ensures answer { Gives Memory (λ done. done) result (fit_alone self.old batch.now) }
        ensures ok { OnOk result (self.new ≡ arrived batch.now self.old) }
        ensures err { OnErr result (self.new ≡ self.old) }
    {
        self.has_small_tasks(batch);
        if !self.copies_fit_both_ways(alloc, batch)? {
            return Err(Misfit::OriginUnfit);
        }
        match self.try_learn(alloc, batch, steps) {
            Ok(learned) => Ok(learned),
            Err(error) => Err(Misfit::from(error)),
        }
    }

    /// Learns a batch that comes next, and the one that goes right after it, if both fit; or neither.
    fn admit_both<L>(
        &mut self,
        alloc: Global,
        batch: &Batch,
        second: &Batch,
        steps: &mut Steps<L>,
    ) -> Result<Learned, Misfit>
        requires next { ComesNext self.old batch.now }
        requires lone { batch.now.carrier ≡ None }
        requires second { GoesWithNew self.old batch.now second.now }
        requires ids { HasSmallIds batch.now }
        requires second_ids { HasSmallIds second.now }
        ensures answer { Gives Memory (λ done.
            done) result (fit_both self.old batch.now second.now) }
        ensures ok { OnOk result (self.new ≡ arrived second.now (arrived batch.now self.old)) }
        ensures err { OnErr result (self.new ≡ self.old) }
    {
        self.has_small_tasks(second);
        if second.run.value == batch.run.value {
            return Err(Misfit::ParentUnfit);
        }
        if !self.copies_fit_both_ways(alloc, batch)? {
            return Err(Misfit::OriginUnfit);
        }
        if !is_carrying_fit(batch, second) {
            return Err(Misfit::CarrierUnfit);
        }
        if !self.second_copies_fit(alloc, batch, second)? {
            return Err(Misfit::OriginUnfit);
        }
        match self.try_learn_both(alloc, batch, second, steps) {
            Ok(learned) => Ok(learned),
            Err(error) => Err(Misfit::from(error)),
        }
    }
}

/// Whether the batch ends by continuing as the run of the second, where that names a carrier.
fn is_carrying_fit(batch: &Batch, second: &Batch) -> bool
    ensures { result ≡ is_carrying_fit batch.now second.now }
{
    second.carrier.is_none() || is_continued_by(second.run, batch.events.as_slice())
}

/// Whether the last of these events continues its run as this one.
fn is_continued_by(run: RunId, events: &[Event]) -> bool
    ensures { result ≡ is_continued_by run (last_event events.now) }
{
    match events.last() {
        None => false,
        Some(event) => continues(run, &event.kind),
    }
}

/// Whether an event of this kind continues its run as this one.
fn continues(run: RunId, kind: &EventKind) -> bool
    ensures { result ≡ continues run kind.now }
{
    match kind {
        EventKind::WorkflowExecutionContinuedAsNew {
            new_execution_run_id,
            ..
        } => *new_execution_run_id == run,
        _ => false,
    }
}
