ghost use Rattle.std.specs.Prelude.{◌≡◌};
ghost use Rattle.ndc_rebuild.specs.Kept.{reaches};

use ndc_event::{Batch, BatchKey, OutOfMemory, RunId};
use ndc_rebuild::{Checkpoints, INTERVAL};
use ndc_state::{State, StateError, Steps, Tracked};
use std::alloc::Global;
use std::marker::Model;

/// What is kept of the states of one run, in a box that is made for the first of them: most runs are too short for
/// one. Seen as what is kept.
pub(crate) struct Copies {
    alloc: Global,
    run: RunId,
    held: Option<Box<Checkpoints>>,
}

impl Model for Copies {
    ghost use Rattle.ndc_rebuild.specs.Kept.{Kept};
    ghost use Rattle.ndc_run.specs.CopiesFields.{kept_of, IsOfRun};

    ghost Value = { Kept };

    ghost view = { kept_of };

    ghost invariant = { IsOfRun };
}

impl Drop for Copies {
    fn drop(self) {
        let Copies {
            alloc: _alloc,
            run: _run,
            held: _held,
        } = self;
    }
}

/// Whether the last so many events before the next id took their number to or past a multiple of [`INTERVAL`].
fn reaches(events: u64, next: u64) -> bool
    ensures { result ≡ reaches events next }
{
    let count = next.saturating_sub(1);
    let before = count.saturating_sub(events);
    count / INTERVAL != before / INTERVAL
}

impl Copies {
    ghost use Rattle.std.specs.Prelude.{◌≡◌, [], length, map, OnOk, OnErr};
    ghost use Rattle.ndc_event.specs.Outcome.{Gives};
    ghost use Rattle.ndc_state.specs.declared.rule.StateError.TheVariants.{Memory};
    ghost use Rattle.ndc_state.specs.Replay.{history_of, replay_of, CountsWithin};
    ghost use Rattle.ndc_rebuild.specs.Kept.{with_kept, without_kept, events_behind, FitsPath};
    ghost use Rattle.ndc_rebuild.specs.Rebuilt.{HaveSmallIds};

    /// Nothing is kept of the run.
    pub(crate) fn new(alloc: Global, run: RunId) -> Copies
        ensures { result ≡ record { run = run; states = [] } }
    {
        Copies {
            alloc,
            run,
            held: None,
        }
    }

    /// Does what [`Checkpoints::keep_marked`] does.
    pub(crate) fn keep_marked(
        &mut self,
        tip: BatchKey,
        events: u64,
        state: &Tracked,
    ) -> Result<(), OutOfMemory>
        ensures states { OnOk result
            (self.new.states ≡ with_kept tip events state.now.current self.old.states) }
        ensures run { self.new.run ≡ self.old.run }
        ensures err { OnErr result (self.new ≡ self.old) }
    {
        if let Some(held) = &mut self.held {
            return held.keep_marked(tip, events, state);
        }
        if !reaches(events, state.next()) {
            return Ok(());
        }
        let mut held = Checkpoints::new(self.alloc, self.run);
        held.keep_marked(tip, events, state)?;
        self.held = Some(Box::new(self.alloc, held)?);
        Ok(())
    }

    /// Drops what is kept for the tip, where it is. The others stay.
    pub(crate) fn forget(&mut self, tip: BatchKey)
        ensures states { self.new.states ≡ without_kept tip self.old.states }
        ensures run { self.new.run ≡ self.old.run }
    {
        if let Some(held) = &mut self.held {
            held.forget(tip);
        }
    }

    /// Does what [`Checkpoints::restore_along`] does.
    pub(crate) fn restore_along<L>(
        &self,
        path: &[&Batch],
        steps: &mut Steps<L>,
    ) -> Result<State, StateError>
        requires ids { HaveSmallIds (map (λ b. b.now) path.now) }
        requires kept { FitsPath self.now (map (λ b. b.now) path.now) }
        ensures answer { Gives Memory (λ state.
            state) result (replay_of self.now.run (history_of (map (λ b. b.now) path.now))) }
        ensures most_steps { CountsWithin steps.old
            (length (events_behind self.now.states (map (λ b. b.now) path.now))) steps.new }
    {
        match &self.held {
            Some(held) => held.restore_along(path, steps),
            None => Checkpoints::new(self.alloc, self.run).restore_along(path, steps),
        }
    }
}
