ghost use Rattle.std.specs.Prelude.{◌≡◌};
ghost use Rattle.ndc_index.specs.Texts.{count_kinds};
ghost use Rattle.ndc_index.specs.Told.{counts};
ghost use Rattle.ndc_index.specs.declared.indexer.Counted.TheVariants as which;

use crate::indexer::Counted;
use crate::seen::Seen;
use ndc_event::{Event, EventKind, OutOfMemory};
use std::alloc::{AllocError, Global};
use std::marker::Model;

/// What was told, and how many of its events are of one sort and of another.
#[derive(Drop)]
pub(crate) struct Tally {
    seen: Vec<Seen>,
    first: Counted,
    second: Counted,
    firsts: u64,
    seconds: u64,
}

impl Model for Tally {
    ghost use Rattle.std.specs.Prelude.{◌≡◌};
    ghost use Rattle.ndc_index.specs.Told.{TallyValue, count_told};

    ghost Value = { TallyValue };

    ghost view = { λ tally. record {
      list = tally.seen.items;
      first = tally.first;
      second = tally.second;
    } };

    ghost invariant = { λ tally. (tally.firsts ≡ count_told tally.first tally.seen.items)
        × (tally.seconds ≡ count_told tally.second tally.seen.items) };
}

/// Whether the kind starts a run.
fn is_start(kind: &EventKind) -> bool
    ensures { result ≡ counts which.Starts kind.now }
{
    matches!(kind, EventKind::WorkflowExecutionStarted { .. })
}

/// Whether the kind closes a run.
fn is_close(kind: &EventKind) -> bool
    ensures { result ≡ counts which.Closes kind.now }
{
    matches!(
        kind,
        EventKind::WorkflowExecutionCompleted { .. }
            | EventKind::WorkflowExecutionFailed { .. }
            | EventKind::WorkflowExecutionCanceled
            | EventKind::WorkflowExecutionTerminated { .. }
            | EventKind::WorkflowExecutionContinuedAsNew { .. }
    )
}

/// Whether the kind is a signal without an origin.
fn is_original(kind: &EventKind) -> bool
    ensures { result ≡ counts which.Originals kind.now }
{
    match kind {
        EventKind::WorkflowExecutionSignaled { origin, .. } => origin.as_ref().is_none(),
        _ => false,
    }
}

/// Whether the kind is a signal with an origin.
fn is_copy(kind: &EventKind) -> bool
    ensures { result ≡ counts which.Copies kind.now }
{
    match kind {
        EventKind::WorkflowExecutionSignaled { origin, .. } => origin.as_ref().is_some(),
        _ => false,
    }
}

/// Whether the kind is of the sort.
fn is_counted(sort: Counted, kind: &EventKind) -> bool
    ensures { result ≡ counts sort kind.now }
{
    match sort {
        Counted::Starts => is_start(kind),
        Counted::Closes => is_close(kind),
        Counted::Originals => is_original(kind),
        Counted::Copies => is_copy(kind),
    }
}

/// How many of the events are of the sort.
fn counted(sort: Counted, events: &[Event]) -> u64
    ensures { result ≡ count_kinds (counts sort) events.now }
{
    let mut count = 0;
    for event in events {
        if is_counted(sort, &event.kind) {
            count += 1;
        }
    }
    count
}

impl Tally {
    ghost use Rattle.std.specs.Prelude.{◌≡◌, [], ◌∷◌, ◌++◌, OnErr, OnOk};
    ghost use Rattle.ndc_index.specs.Told.{count_told};

    /// Nothing was told.
    #[tactic(auto, using(crate::proofs::CountLemmas::count_none))]
    pub(crate) fn new(alloc: Global, first: Counted, second: Counted) -> Tally
        ensures { result ≡ record { list = []; first = first; second = second } }
    {
        Tally {
            seen: Vec::new(alloc),
            first,
            second,
            firsts: 0,
            seconds: 0,
        }
    }

    /// Notes what is told. Where memory runs out, or a count is too great, all stays as it was.
    #[tactic(auto, using(crate::proofs::CountLemmas::count_more))]
    pub(crate) fn told(&mut self, seen: &Seen) -> Result<(), OutOfMemory>
        ensures told { OnOk result
            (self.new ≡ record self.old { list = self.old.list ++ seen.now ∷ [] }) }
        ensures unchanged { OnErr result (self.new ≡ self.old) }
    {
        let events = seen.batch.events.as_slice();
        let (Some(firsts), Some(seconds)) = (
            self.firsts.checked_add(counted(self.first, events)),
            self.seconds.checked_add(counted(self.second, events)),
        ) else {
            return Err(AllocError);
        };
        self.seen.push(seen.try_copy()?)?;
        self.firsts = firsts;
        self.seconds = seconds;
        Ok(())
    }

    /// How many events are of the first sort.
    pub(crate) fn firsts(&self) -> u64
        ensures { result ≡ count_told self.now.first self.now.list }
    {
        self.firsts
    }

    /// How many events are of the second sort.
    pub(crate) fn seconds(&self) -> u64
        ensures { result ≡ count_told self.now.second self.now.list }
    {
        self.seconds
    }
}
