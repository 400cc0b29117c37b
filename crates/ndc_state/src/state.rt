use crate::pendings::Pending;
use crate::rule::{CloseKind, StateError};
use crate::steps::Steps;
use crate::text::state_text;
use crate::tracked::Tracked;
use ndc_event::{Event, Name, Origin, OutOfMemory, RunId};
use std::alloc::Global;
use std::marker::Model;

/// The mutable state of a run: what the events applied to it amount to. It is seen as a record of numbers
/// and lists, so two states are equal where these are.
pub struct State {
    tracked: Tracked,
}

impl Model for State {
    ghost use Rattle.ndc_state.specs.Value.{StateValue};

    ghost Value = { StateValue };

    ghost view = { λ state. state.tracked.current };
}

impl Drop for State {
    fn drop(self) {
        let State { tracked: _tracked } = self;
    }
}

impl State {
    ghost use Rattle.std.specs.Prelude.{◌≡◌, ◌≢◌, ◌≤◌, ◌^◌, [], length, All, Err, IfOk, OnOk, OnErr, is_ok, if◌then◌else◌};
    ghost use Rattle.ndc_event.specs.Outcome.{Gives};
    ghost use Rattle.ndc_state.specs.declared.rule.StateError.TheVariants.{Memory};
    ghost use Rattle.std.specs.Borrow.{sem};
    ghost use Rattle.ndc_state.specs.Counted.{counted};
    ghost use Rattle.ndc_state.specs.Lending.{LendsTracked};
    ghost use Rattle.ndc_state.specs.Origins.{is_among};
    ghost use Rattle.ndc_state.specs.Pendings.{pending_of};
    ghost use Rattle.ndc_state.specs.Replay.{replay, allowed_count, collected, CountsWithin};
    ghost use Rattle.ndc_state.specs.Table.{applied};
    ghost use Rattle.ndc_state.specs.Text.{state_text};
    ghost use Rattle.ndc_state.specs.Value.{new_state};

    /// The state of a run that has seen no event.
    pub fn new(alloc: Global, run: RunId) -> State
        ensures { result ≡ new_state run }
    {
        State {
            tracked: Tracked::new(alloc, run),
        }
    }

    /// Applies an event and counts one step. Refused with [`StateError::Invalid`] and the first rule that
    /// forbids the event; the state is then unchanged and no step is counted, as for want of memory.
    pub fn apply<L>(&mut self, event: &Event, steps: &mut Steps<L>) -> Result<(), StateError>
        requires { event.now.id ≤ 10 ^ 12 }
        ensures answer { Gives Memory (λ _. self.new) result (applied self.old event.now) }
        ensures err { OnErr result (self.new ≡ self.old) }
        ensures steps { steps.new ≡ (if is_ok result then counted steps.old 1 else steps.old) }
    {
        self.tracked.apply(event, steps)?;
        self.tracked.mark();
        Ok(())
    }

    /// Applies the events in order, in time of these events and of what is pending at a removal. Refused with
    /// [`StateError::Invalid`] for the first event that is forbidden; the state is then unchanged, as for want
    /// of memory, and the steps of the events before it stay counted.
    pub fn apply_all<L>(&mut self, events: &[Event], steps: &mut Steps<L>) -> Result<(), StateError>
        requires { All (λ event. event.id ≤ 10 ^ 12) events.now }
        ensures answer { Gives Memory (λ _. self.new) result (replay self.old events.now) }
        ensures err { OnErr result (self.new ≡ self.old) }
        ensures ok_steps { OnOk result (steps.new ≡ counted steps.old (length events.now)) }
        ensures steps { result ≢ Err Memory
            → steps.new ≡ counted steps.old (allowed_count self.old events.now) }
        ensures most_steps { CountsWithin steps.old (allowed_count self.old events.now) steps.new }
    {
        self.tracked.step_all(events, steps)
    }

    /// The state with a mark at what it is now, to change it and to go back. When the loan ends, the state stays as
    /// it was left. Takes no memory.
    pub fn mark(&mut self) -> &mut Tracked
        ensures* writes_back { sem 𝓛 (LendsTracked self.entry result) }
        ensures current { result.now.current ≡ self.old }
        ensures marked { result.now.marked ≡ self.old }
    {
        self.tracked.mark();
        &mut self.tracked
    }

    /// The state, as what is marked is seen.
    pub fn tracked(&self) -> &Tracked
        ensures { result.now.current ≡ self.now }
    {
        &self.tracked
    }

    /// The run.
    pub fn run(&self) -> RunId
        ensures { result ≡ self.now.run }
    {
        let tracked = &self.tracked;
        tracked.outline.run
    }

    /// The id of the event that comes next, 1 before the first.
    pub fn next(&self) -> u64
        ensures { result ≡ self.now.next }
    {
        let tracked = &self.tracked;
        tracked.outline.next
    }

    /// The version of the last event, 0 before the first.
    pub fn version(&self) -> u64
        ensures { result ≡ self.now.version }
    {
        let tracked = &self.tracked;
        tracked.outline.version
    }

    /// Whether the run is open.
    pub fn is_running(&self) -> bool
        ensures { result ≡ self.now.running }
    {
        let tracked = &self.tracked;
        tracked.outline.running
    }

    /// How the run closed; none before.
    pub fn close(&self) -> Option<CloseKind>
        ensures { result ≡ self.now.close }
    {
        let tracked = &self.tracked;
        tracked.outline.close
    }

    /// The pending decision.
    pub fn decision(&self) -> Option<Pending>
        ensures { result ≡ self.now.decision }
    {
        let tracked = &self.tracked;
        tracked.outline.decision
    }

    /// The pending activity of this name.
    pub fn activity(&self, name: &Name) -> Option<Pending>
        ensures { result ≡ pending_of name.now self.now.activities }
    {
        let tracked = &self.tracked;
        tracked.activities.get(name)
    }

    /// The pending timer of this name.
    pub fn timer(&self, name: &Name) -> Option<Pending>
        ensures { result ≡ pending_of name.now self.now.timers }
    {
        let tracked = &self.tracked;
        tracked.timers.get(name)
    }

    /// The pending child of this name.
    pub fn child(&self, name: &Name) -> Option<Pending>
        ensures { result ≡ pending_of name.now self.now.children }
    {
        let tracked = &self.tracked;
        tracked.children.get(name)
    }

    /// How many signals it has seen.
    pub fn signals(&self) -> u64
        ensures { result ≡ length self.now.origins }
    {
        self.origins().len() as u64
    }

    /// Whether its cancel was requested.
    pub fn cancel(&self) -> bool
        ensures { result ≡ self.now.cancel }
    {
        let tracked = &self.tracked;
        tracked.outline.cancel
    }

    /// The origins of its signals, in order and each once.
    pub fn origins(&self) -> &[Origin]
        ensures { result.now ≡ self.now.origins }
    {
        let tracked = &self.tracked;
        tracked.origins.as_slice()
    }

    /// Whether a signal of this origin is among those that it has seen. It is found without going over the others.
    pub fn has_origin(&self, origin: Origin) -> bool
        ensures { result ≡ is_among origin self.now.origins }
    {
        self.tracked.origins.contains(origin)
    }

    /// The same state.
    pub fn try_copy(&self) -> Result<State, OutOfMemory>
        ensures { IfOk result (λ copy. copy ≡ self.now) }
    {
        Ok(State {
            tracked: self.tracked.try_copy()?,
        })
    }

    /// The same state but for its origins: it has none. What is pending is all that such a copy's size grows
    /// with.
    pub fn try_copy_without_origins(&self) -> Result<State, OutOfMemory>
        ensures { IfOk result (λ copy. copy ≡ record self.now { origins = [] }) }
    {
        self.tracked.try_copy_without_origins()
    }

    /// Lists the origins of the signals among the events after those that are listed; one that is listed
    /// already stays where it is. Nothing else of the state changes. For want of memory it is unchanged.
    pub fn collect_origins(&mut self, events: &[Event]) -> Result<(), OutOfMemory>
        ensures ok { OnOk result
            (self.new ≡ record self.old {
              origins = collected self.old.run self.old.origins events.now;
            }) }
        ensures err { OnErr result (self.new ≡ self.old) }
    {
        self.tracked.collect(events)
    }

    /// The state in one line: the next id, the decision, what is pending in the order of scheduling, the number
    /// of signals, and whether its cancel was requested.
    pub fn text(&self) -> Result<Vec<u8>, OutOfMemory>
        ensures { IfOk result (λ text. text.items ≡ state_text self.now) }
    {
        state_text(self.tracked.allocator(), &self.tracked)
    }
}

impl Tracked {
    ghost use Rattle.std.specs.Prelude.{◌≡◌, [], IfOk};

    /// The id of the event that comes next.
    pub fn next(&self) -> u64
        ensures { result ≡ self.now.current.next }
    {
        self.outline.next
    }

    /// The state as it is now but for its origins, as [`State::try_copy_without_origins`] gives it.
    pub fn try_copy_without_origins(&self) -> Result<State, OutOfMemory>
        ensures { IfOk result (λ copy. copy ≡ record self.now.current { origins = [] }) }
    {
        Ok(State {
            tracked: self.without_origins()?,
        })
    }
}
