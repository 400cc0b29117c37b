ghost use Rattle.std.specs.Prelude.{◌≡◌, ◌++◌, [], map, is_some, IfOk, OnOk};
ghost use Rattle.std.specs.List.{cons_option, filter, position};
ghost use Rattle.std.specs.Option.{option_copied};
ghost use Rattle.ndc_model_sets.specs.Current.{current_state};
ghost use Rattle.ndc_model_sets.specs.Origins.{signal_of};
ghost use Rattle.ndc_shard_runs.specs.Kept.{is_unlisted};
ghost use Rattle.ndc_shard_runs.specs.Settled.{origins_seen, seen_by, settled_with, unsettled, unsettled_in};
ghost use Rattle.ndc_state.specs.Origins.{is_among};

use crate::runs::Runs;
use ndc_event::{Batch, Event, EventKind, Origin, OutOfMemory, RunId};
use ndc_reapply::Stray;
use ndc_run::Run;
use ndc_state::{State, origin_of};
use std::alloc::Global;

impl Runs {
    ghost use Rattle.std.specs.Prelude.{◌≡◌, ◌++◌, map, IfOk, OnOk};
    ghost use Rattle.std.specs.List.{flat_map};
    ghost use Rattle.std.specs.Option.{option_copied};
    ghost use Rattle.ndc_shard_runs.specs.Settled.{origins_seen, seen_by, settled_from};
    ghost use Rattle.ndc_model_sets.specs.Branches.{is_current_run};
    ghost use Rattle.ndc_model_sets.specs.Current.{strays};
    ghost use Rattle.ndc_model_sets.specs.Sets.{Has};
    ghost use Rattle.ndc_model_sets.specs.Sound.{IsSound};

    /// The signals whose origins are not settled, each once, ordered by version, event and run. In time of all learned
    /// events; no other signal is copied.
    pub fn strays(&self, alloc: Global) -> Result<Vec<Stray>, OutOfMemory>
        ensures { IfOk result (λ list. list.items ≡ strays self.now) }
    {
        let batches = self.batches(alloc)?;
        let states = self.settling(alloc, batches.as_slice())?;
        let signals = unsettled(alloc, batches.as_slice(), states.as_slice())?;
        ndc_reapply::strays(alloc, signals.as_slice(), &[])
    }

    /// The states by which the runs of these batches settle origins, which are all that is learned.
    fn settling(&self, alloc: Global, batches: &[&Batch]) -> Result<Vec<&State>, OutOfMemory>
        requires all { map (λ b. b.now) batches.now ≡ self.now }
        requires sound { IsSound self.now }
        ensures { IfOk result (λ list.
            origins_seen (map (λ s. s.now) list.items)
            ≡ flat_map (settled_from self.now) (map (λ b. b.now) batches.now)) }
    {
        let mut list = Vec::new(alloc);
        for batch in batches {
            push_state(&mut list, self.settler(batch))?;
        }
        Ok(list)
    }

    /// The state by which the run of this batch settles origins, where the batch is the first of its run.
    fn settler(&self, batch: &Batch) -> Option<&State>
        requires { Has self.now batch.now }
        ensures { seen_by (option_copied result) ≡ settled_from self.now batch.now }
    {
        if batch.parent.is_some() {
            return None;
        }
        let run = self.run_of(batch.key)?;
        settling_state(run, self.is_current(batch.run))
    }

    /// Whether the run is the current one.
    pub(crate) fn is_current(&self, run: RunId) -> bool
        ensures { result ≡ is_current_run run self.now }
    {
        match self.tip() {
            None => false,
            Some(tip) => tip.run.value == run.value,
        }
    }
}

/// The state by which the run settles origins, where it is the current one or not.
fn settling_state(run: &Run, is_current: bool) -> Option<&State>
    ensures { seen_by (option_copied result)
        ≡ settled_with (current_state run.now.run run.now.batches) is_current }
{
    let state = run.state();
    if state.is_running() && !is_current {
        None
    } else {
        Some(state)
    }
}

/// Adds the state, where there is one.
fn push_state<'s>(list: &mut Vec<&'s State>, state: Option<&'s State>) -> Result<(), OutOfMemory>
    ensures { OnOk result (origins_seen (map (λ s. s.now) list.new.items)
        ≡ origins_seen (map (λ s. s.now) list.old.items) ++ seen_by (option_copied state.entry)) }
{
    match state {
        None => Ok(()),
        Some(state) => {
            list.push(state)?;
            Ok(())
        }
    }
}

/// The signals of the batches whose origins none of the states has seen.
fn unsettled(
    alloc: Global,
    batches: &[&Batch],
    states: &[&State],
) -> Result<Vec<Stray>, OutOfMemory>
    ensures { IfOk result (λ list.
        list.items ≡ unsettled (origins_seen (map (λ s. s.now) states.now))
        (map (λ b. b.now) batches.now)) }
{
    let mut list = Vec::new(alloc);
    let mut hint = 0;
    for batch in batches {
        hint = push_unsettled(&mut list, batch.run, batch.events.as_slice(), states, hint)?;
    }
    Ok(list)
}

/// Adds the signals among the events of a run whose origins none of the states has seen. The place of the state that
/// was found last is given on.
fn push_unsettled(
    list: &mut Vec<Stray>,
    run: RunId,
    events: &[Event],
    states: &[&State],
    hint: usize,
) -> Result<usize, OutOfMemory>
    ensures { OnOk result (list.new.items
        ≡ list.old.items ++ unsettled_in
        (origins_seen (map (λ s. s.now) states.now)) run events.now) }
{
    let mut place = hint;
    for event in events {
        place = push_event(list, run, event, states, place)?;
    }
    Ok(place)
}

/// Adds the event of a run, where it is a signal whose origin none of the states has seen.
fn push_event(
    list: &mut Vec<Stray>,
    run: RunId,
    event: &Event,
    states: &[&State],
    hint: usize,
) -> Result<usize, OutOfMemory>
    ensures { OnOk result (list.new.items
        ≡ list.old.items ++ filter (is_unlisted (origins_seen (map (λ s. s.now) states.now)))
        (cons_option (signal_of run event.now.id event.now.version event.now.kind) [])) }
{
    match &event.kind {
        EventKind::WorkflowExecutionSignaled {
            signal_name,
            input,
            origin,
        } => {
            let origin = origin_of(run, event, origin);
            if let Some(place) = place_of(states, origin, hint) {
                return Ok(place);
            }
            list.push(Stray {
                origin,
                name: signal_name.try_copy()?,
                input: input.try_copy()?,
            })?;
            Ok(hint)
        }
        _ => Ok(hint),
    }
}

/// The place of a state that has seen the origin. The hinted place is looked at first.
fn place_of(states: &[&State], origin: Origin, hint: usize) -> Option<usize>
    ensures { is_some result ≡ is_among origin (origins_seen (map (λ s. s.now) states.now)) }
{
    if hint < states.len() && states[hint].has_origin(origin) {
        return Some(hint);
    }
    first_place(states, origin)
}

/// The first place of a state that has seen the origin.
fn first_place(states: &[&State], origin: Origin) -> Option<usize>
    ensures { result ≡ position (λ s. is_among origin s.now.origins) states.now }
{
    states.iter().position(|state| state.has_origin(origin))
}
