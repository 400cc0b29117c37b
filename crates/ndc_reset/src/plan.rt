ghost use Rattle.std.specs.Prelude.{◌≡◌, ◌+◌, ◌++◌, IfOk, OnOk, codes, count_by, map};
ghost use Rattle.ndc_event.specs.Outcome.{Gives};
ghost use Rattle.ndc_reset.specs.Reset.{is_completed, is_signal, is_kept, is_point, repeated, repeated_kinds, events_before, signals_onward, reset_kinds, reset_of};
ghost use Rattle.ndc_reset.specs.declared.plan.ResetError.TheVariants.{Memory};

use ndc_event::{Event, EventKind, Name, NameError, OutOfMemory, Rare, RunId};
use ndc_state::origin_of;
use std::alloc::{AllocError, AllocFailed, Global};
use thiserror::Error;

/// Why a run is not reset.
#[derive(Clone, Copy, Debug, PartialEq, Eq, Error)]
pub enum ResetError {
    /// No completed decision of the history has the event's id.
    #[error("no completed decision has this event id")]
    NoSuchPoint,
    /// The new run would begin with more events than the limit allows.
    #[error("the new run would have more events than the limit allows")]
    HistoryFull,
    #[error("out of memory")]
    Memory,
}

impl From<AllocError> for ResetError {
    ghost use Rattle.std.specs.Prelude.{◌≡◌};
    ghost use Rattle.ndc_reset.specs.declared.plan.ResetError.TheVariants.{Memory};

    ghost from_gives = { λ _ e. e ≡ Memory };

    fn from(_error: AllocError) -> ResetError {
        ResetError::Memory
    }
}

impl<T: Drop> From<AllocFailed<T>> for ResetError {
    ghost use Rattle.std.specs.Prelude.{◌≡◌};
    ghost use Rattle.ndc_reset.specs.declared.plan.ResetError.TheVariants.{Memory};

    ghost from_gives = { λ _ e. e ≡ Memory };

    fn from(_failed: AllocFailed<T>) -> ResetError {
        ResetError::Memory
    }
}

/// Whether the kind is a completed decision.
fn is_completed(kind: &EventKind) -> bool
    ensures { result ≡ is_completed kind.now }
{
    match kind {
        EventKind::DecisionTaskCompleted => true,
        _ => false,
    }
}

/// Whether the kind is a signal.
fn is_signal(kind: &EventKind) -> bool
    ensures { result ≡ is_signal kind.now }
{
    match kind {
        EventKind::WorkflowExecutionSignaled { .. } => true,
        _ => false,
    }
}

/// Whether the new run has a kind of this event.
fn is_kept(event: &Event, point: u64) -> bool
    ensures { result ≡ is_kept point event.now }
{
    event.id < point || is_signal(&event.kind)
}

/// Whether a completed decision of the history has this id.
fn is_point(history: &[&Event], point: u64) -> bool
    ensures { result ≡ is_point point (map (λ e. e.now) history.now) }
{
    for event in history {
        if event.id == point && is_completed(&event.kind) {
            return true;
        }
    }
    false
}

/// How many kinds the new run begins with.
fn count_kinds(history: &[&Event], point: u64) -> u64
    ensures { result ≡ count_by (is_kept point) (map (λ e. e.now) history.now) + 2 }
{
    let mut count: u64 = 2;
    for event in history {
        if is_kept(event, point) {
            count += 1;
        }
    }
    count
}

/// The kind of the event as another run repeats it.
fn repeated(alloc: Global, run: RunId, event: &Event) -> Result<EventKind, OutOfMemory>
    ensures { IfOk result (λ kind.
        kind ≡ repeated run event.now.id event.now.version event.now.kind) }
{
    match &event.kind {
        EventKind::WorkflowExecutionSignaled {
            signal_name,
            input,
            origin,
        } => Ok(EventKind::WorkflowExecutionSignaled {
            signal_name: signal_name.try_copy()?,
            input: input.try_copy()?,
            origin: Rare::of(alloc, Some(origin_of(run, event, origin)))?,
        }),
        kind => kind.try_copy(),
    }
}

/// Appends the kinds of the events before the point.
fn push_before(
    alloc: Global,
    kinds: &mut Vec<EventKind>,
    history: &[&Event],
    run: RunId,
    point: u64,
) -> Result<(), OutOfMemory>
    ensures ok { OnOk result
        (kinds.new.items ≡ kinds.old.items
        ++ repeated_kinds run (events_before point (map (λ e. e.now) history.now))) }
{
    for event in history {
        if event.id < point {
            kinds.push(repeated(alloc, run, event)?)?;
        }
    }
    Ok(())
}

/// Appends copies of the signals from the point on.
fn push_onward(
    alloc: Global,
    kinds: &mut Vec<EventKind>,
    history: &[&Event],
    run: RunId,
    point: u64,
) -> Result<(), OutOfMemory>
    ensures ok { OnOk result
        (kinds.new.items ≡ kinds.old.items
        ++ repeated_kinds run (signals_onward point (map (λ e. e.now) history.now))) }
{
    for event in history {
        if !(event.id < point) && is_signal(&event.kind) {
            let copy = repeated(alloc, run, event)?;
            kinds.push(copy)?;
        }
    }
    Ok(())
}

/// The cause of the decision that a reset fails.
fn reset_cause(alloc: Global) -> Result<Name, OutOfMemory>
    ensures { IfOk result (λ name. name ≡ codes "reset") }
{
    match Name::new(alloc, b"reset".as_slice()) {
        Ok(name) => Ok(name),
        Err(NameError::Memory) => Err(AllocError),
        Err(_) => unreachable!(),
    }
}

/// The kinds of the new run, with room for so many from the start.
#[tactic(auto, unfolding(crate::specs::Reset::reset_kinds))]
fn reset_kinds(
    alloc: Global,
    history: &[&Event],
    run: RunId,
    point: u64,
    count: usize,
) -> Result<Vec<EventKind>, OutOfMemory>
    ensures { IfOk result (λ kinds.
        kinds.items ≡ reset_kinds run point (map (λ e. e.now) history.now)) }
{
    let mut kinds = Vec::with_capacity(alloc, count)?;
    push_before(alloc, &mut kinds, history, run, point)?;
    kinds.push(EventKind::DecisionTaskFailed {
        cause: reset_cause(alloc)?,
    })?;
    kinds.push(EventKind::DecisionTaskScheduled)?;
    push_onward(alloc, &mut kinds, history, run, point)?;
    Ok(kinds)
}

/// The kinds of the events of a new run, from the history of the current branch of `run`: those of the events
/// before `event`, each signal with its origin; DecisionTaskFailed with cause `reset`; DecisionTaskScheduled;
/// and a copy, with its origin, of each signal from `event` on. Refused with [`ResetError::NoSuchPoint`] where
/// no DecisionTaskCompleted of the history has this id, and otherwise with [`ResetError::HistoryFull`] where
/// there would be more than `limit` kinds.
pub fn plan_reset(
    alloc: Global,
    history: &[Event],
    run: RunId,
    event: u64,
    limit: u64,
) -> Result<Vec<EventKind>, ResetError>
    ensures { Gives Memory (λ kinds. kinds.items) result (reset_of history.now run event limit) }
{
    let lent: Vec<&Event> = history.iter().collect(alloc)?;
    plan_reset_of(alloc, lent.as_slice(), run, event, limit)
}

/// What [`plan_reset`] answers, of a history whose events are lent one by one: they stand in several batches.
#[tactic(auto, using(crate::proofs::CountLemmas::count_is_length), unfolding(crate::specs::Reset::reset_of))]
pub fn plan_reset_of(
    alloc: Global,
    history: &[&Event],
    run: RunId,
    event: u64,
    limit: u64,
) -> Result<Vec<EventKind>, ResetError>
    ensures { Gives Memory (λ kinds. kinds.items) result
        (reset_of (map (λ e. e.now) history.now) run event limit) }
{
    if !is_point(history, event) {
        return Err(ResetError::NoSuchPoint);
    }
    let count = count_kinds(history, event);
    if limit < count {
        return Err(ResetError::HistoryFull);
    }
    let kinds = reset_kinds(alloc, history, run, event, count as usize)?;
    Ok(kinds)
}
