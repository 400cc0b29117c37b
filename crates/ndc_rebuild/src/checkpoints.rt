ghost use Rattle.std.specs.Prelude.{◌≡◌, map, IfOk};
ghost use Rattle.ndc_state.specs.Replay.{history_of, collected};
ghost use Rattle.ndc_rebuild.specs.Kept.{reaches};

use crate::replay::{lent, rebuild_along, replay_batches};
use indexmap::IndexMap;
use ndc_event::{Batch, BatchKey, OutOfMemory, RunId};
use ndc_state::{State, StateError, Steps, Tracked};
use std::alloc::Global;
use std::marker::Model;

/// A state is kept where a batch takes its path's number of events to or past a multiple of this.
pub const INTERVAL: u64 = 512;

/// Copies of states of one run, kept by the key of the last batch of their path. A copy is found without
/// going over the others, and holds no origins: what is pending is all that its size grows with.
pub struct Checkpoints {
    run: RunId,
    states: IndexMap<BatchKey, State>,
}

impl Model for Checkpoints {
    ghost use Rattle.ndc_rebuild.specs.Kept.{Kept};

    ghost Value = { Kept };

    ghost view = { λ c. record { run = c.run; states = c.states.entries } };
}

impl Drop for Checkpoints {
    fn drop(self) {
        let Checkpoints {
            run: _run,
            states: _states,
        } = self;
    }
}

impl Checkpoints {
    ghost use Rattle.std.specs.Prelude.{◌≡◌, [], None, length, map, OnOk, OnErr, MatchOption};
    ghost use Rattle.std.specs.Option.{option_copied};
    ghost use Rattle.ndc_event.specs.Outcome.{Gives};
    ghost use Rattle.ndc_state.specs.declared.rule.StateError.TheVariants.{Memory};
    ghost use Rattle.ndc_state.specs.Counted.{counted};
    ghost use Rattle.ndc_state.specs.Replay.{history_of, replay_of, CountsWithin};
    ghost use Rattle.ndc_rebuild.specs.Kept.{kept_at, with_kept, without_kept, last_kept, events_behind, FitsPath};
    ghost use Rattle.ndc_rebuild.specs.Found.{IsFoundAt};
    ghost use Rattle.ndc_rebuild.specs.Rebuilt.{HaveSmallIds};

    /// Nothing is kept of the run.
    pub fn new(alloc: Global, run: RunId) -> Checkpoints
        ensures { result ≡ record { run = run; states = [] } }
    {
        Checkpoints {
            run,
            states: IndexMap::new(alloc),
        }
    }

    /// Keeps a copy of the state, without its origins, for the tip of its path, where the last batch of the
    /// path, of so many events, took the path's number of events to or past a multiple of 512. It replaces
    /// what was kept for the tip. For want of memory what is kept stays.
    pub fn keep(&mut self, tip: BatchKey, events: u64, state: &State) -> Result<(), OutOfMemory>
        ensures states { OnOk result
            (self.new.states ≡ with_kept tip events state.now self.old.states) }
        ensures run { self.new.run ≡ self.old.run }
        ensures err { OnErr result (self.new ≡ self.old) }
    {
        self.keep_marked(tip, events, state.tracked())
    }

    /// Does what [`Checkpoints::keep`] does, for a state that is marked.
    pub fn keep_marked(
        &mut self,
        tip: BatchKey,
        events: u64,
        state: &Tracked,
    ) -> Result<(), OutOfMemory>
        ensures states { OnOk result
            (self.new.states ≡ with_kept tip events state.now.current self.old.states) }
        ensures run { self.new.run ≡ self.old.run }
        ensures err { OnErr result (self.new ≡ self.old) }
    {
        if !reaches(events, state.next()) {
            return Ok(());
        }
        let copy = state.try_copy_without_origins()?;
        self.states.insert(tip, copy)?;
        Ok(())
    }

    /// Drops what is kept for the tip, where it is. The others stay.
    pub fn forget(&mut self, tip: BatchKey)
        ensures states { self.new.states ≡ without_kept tip self.old.states }
        ensures run { self.new.run ≡ self.old.run }
    {
        self.states.shift_remove(&tip);
    }

    /// The state of a path of this run, as [`rebuild`](crate::rebuild) gives it, with a step for each event after the
    /// last batch of the path that is kept. Refused with [`StateError::Invalid`] for the first event that is forbidden,
    /// with its first rule.
    pub fn restore<L>(&self, path: &[Batch], steps: &mut Steps<L>) -> Result<State, StateError>
        requires ids { HaveSmallIds path.now }
        requires kept { FitsPath self.now path.now }
        ensures answer { Gives Memory (λ state.
            state) result (replay_of self.now.run (history_of path.now)) }
        ensures ok_steps { OnOk result
            (steps.new ≡ counted steps.old (length (events_behind self.now.states path.now))) }
        ensures most_steps { CountsWithin steps.old
            (length (events_behind self.now.states path.now)) steps.new }
    {
        let lent = lent(*self.states.allocator(), path)?;
        self.restore_along(lent.as_slice(), steps)
    }

    /// Does what [`Checkpoints::restore`] does, for a path of batches that are lent: none of them is copied.
    pub fn restore_along<L>(
        &self,
        path: &[&Batch],
        steps: &mut Steps<L>,
    ) -> Result<State, StateError>
        requires ids { HaveSmallIds (map (λ b. b.now) path.now) }
        requires kept { FitsPath self.now (map (λ b. b.now) path.now) }
        ensures answer { Gives Memory (λ state.
            state) result (replay_of self.now.run (history_of (map (λ b. b.now) path.now))) }
        ensures ok_steps { OnOk result
            (steps.new ≡ counted steps.old
            (length (events_behind self.now.states (map (λ b. b.now) path.now)))) }
        ensures most_steps { CountsWithin steps.old
            (length (events_behind self.now.states (map (λ b. b.now) path.now))) steps.new }
    {
        let (count, kept) = match self.last_kept(path) {
            Some(found) => found,
            None => return rebuild_along(*self.states.allocator(), self.run, path, steps),
        };
        let (front, behind) = path.split_at(count);
        let mut state = refilled(kept, front)?;
        match replay_batches(&mut state, behind, steps) {
            Ok(()) => Ok(state),
            Err(error) => Err(error),
        }
    }

    /// What is kept for the key.
    fn kept(&self, key: BatchKey) -> Option<&State>
        ensures { option_copied result ≡ kept_at key self.now.states }
    {
        self.states.get(&key)
    }

    /// How many batches of the path there are up to the last one that is kept, with what is kept for it.
    fn last_kept(&self, path: &[&Batch]) -> Option<(usize, &State)>
        ensures { MatchOption result (last_kept self.now.states (map (λ b. b.now) path.now) ≡ None)
            (λ found. IsFoundAt self.now.states (map (λ b. b.now) path.now) found.0 found.1.now) }
    {
        let mut count = path.len();
        while count > 0 {
            match self.kept(path[count - 1].key) {
                Some(state) => return Some((count, state)),
                None => count -= 1,
            }
        }
        None
    }
}

/// Whether the last so many events before the next id took their number to or past a multiple of [`INTERVAL`].
fn reaches(events: u64, next: u64) -> bool
    ensures { result ≡ reaches events next }
{
    let count = next.saturating_sub(1);
    let before = count.saturating_sub(events);
    count / INTERVAL != before / INTERVAL
}

/// A copy of the state, with the origins of the signals in the batches after those that it lists.
fn refilled(state: &State, batches: &[&Batch]) -> Result<State, OutOfMemory>
    ensures { IfOk result (λ copy.
        copy ≡ record state.now {
          origins = collected state.now.run state.now.origins (history_of
              (map (λ b. b.now) batches.now));
        }) }
{
    let mut copy = state.try_copy()?;
    for batch in batches {
        copy.collect_origins(batch.events.as_slice())?;
    }
    Ok(copy)
}
