// Whether the copied signals of a batch fit the events that their origins name.
ghost use Rattle.std.specs.Prelude.{◌≡◌, [], ◌∷◌, map, None, List, IfOk, IsTrue, false, true, ◌↔◌};
ghost use Rattle.ndc_event.specs.declared.batch.Batch.{Batch as One};
ghost use Rattle.std.specs.List.{list_all};
ghost use Rattle.std.specs.Option.{option_copied};
ghost use Rattle.ndc_event.specs.Batch.{fault_of};
ghost use Rattle.ndc_shard_runs.specs.Copies.{are_fit_copies, are_fit_to, are_named_copies, are_open_fit, copies_fit_both_ways, event_of, is_fit_copy, is_fit_to, is_named_copy, is_none_or_original, is_open_fit, is_original, open_copies_fit, second_copies_fit};

use crate::runs::Runs;
use ndc_event::{Batch, Event, EventKind, Name, Origin, OutOfMemory};
use ndc_tree::event_in;
use std::alloc::Global;

impl Runs {
    ghost use Rattle.std.specs.Prelude.{◌≡◌, map, None, IfOk, IsTrue, true, ◌↔◌};
    ghost use Rattle.std.specs.List.{list_all};
    ghost use Rattle.ndc_event.specs.Batch.{fault_of};
    ghost use Rattle.ndc_shard_runs.specs.Copies.{are_fit_copies, are_named_copies, are_open_fit, copies_fit_both_ways, CopiesFitInto, is_fit_copy, is_named_copy, is_open_fit, open_copies_fit, second_copies_fit};

    /// Whether the copied signals of the batch fit: where the origin of one names an event of the batch or of a learned
    /// one, this is an original signal of the same name and input. A look-up for each copied signal, without memory.
    pub fn copies_fit(&self, batch: &Batch) -> bool
        requires { fault_of batch.now ≡ None }
        ensures { IsTrue result ↔ CopiesFitInto self.now batch.now }
    {
        // What is learned is sound, so an origin names one event.
        let _key = self.last_key();
        self.are_fit_copies(batch)
    }

    /// Whether none of the batch's events is a copied signal that does not fit.
    fn are_fit_copies(&self, batch: &Batch) -> bool
        requires { fault_of batch.now ≡ None }
        ensures { result ≡ are_fit_copies self.now batch.now }
    {
        for event in batch.events.as_slice() {
            if !self.is_fit_copy(batch, &event.kind) {
                return false;
            }
        }
        true
    }

    /// Whether an event of the batch of this kind is not a copied signal, or one that fits.
    fn is_fit_copy(&self, batch: &Batch, kind: &EventKind) -> bool
        requires { fault_of batch.now ≡ None }
        ensures { result ≡ is_fit_copy self.now batch.now kind.now }
    {
        match kind {
            EventKind::WorkflowExecutionSignaled {
                signal_name,
                input,
                origin,
            } => match origin.as_ref() {
                None => true,
                Some(origin) => {
                    is_none_or_original(own_event(batch, origin), signal_name, input)
                        && is_none_or_original(self.event_of(origin), signal_name, input)
                }
            },
            _ => true,
        }
    }

    /// Whether the batch has no copied signal, so that each names an event that is there. No look-up.
    pub(crate) fn has_no_copies(&self, batch: &Batch) -> bool
        ensures { result ≡ true → are_named_copies self.now batch.now ≡ true }
    {
        for event in batch.events.as_slice() {
            if is_copy(&event.kind) {
                return false;
            }
        }
        true
    }

    /// Whether each copied signal of the batch names an event of it or a learned one. A look-up for each copied signal.
    pub(crate) fn has_named_copies(&self, batch: &Batch) -> bool
        requires { fault_of batch.now ≡ None }
        ensures { result ≡ are_named_copies self.now batch.now }
    {
        for event in batch.events.as_slice() {
            if !self.is_named_copy(batch, &event.kind) {
                return false;
            }
        }
        true
    }

    /// Whether an event of the batch of this kind is not a copied signal, or one that names an event that is there.
    fn is_named_copy(&self, batch: &Batch, kind: &EventKind) -> bool
        requires { fault_of batch.now ≡ None }
        ensures { result ≡ is_named_copy self.now batch.now kind.now }
    {
        match kind {
            EventKind::WorkflowExecutionSignaled { origin, .. } => match origin.as_ref() {
                None => true,
                Some(origin) => {
                    own_event(batch, origin).is_some() || self.event_of(origin).is_some()
                }
            },
            _ => true,
        }
    }

    /// Whether the copied signals of the batch fit it and what is learned, and those that are learned and open fit the batch.
    /// A look-up for each copied signal of the batch; where a learned one may be open, in time of all learned events.
    pub(crate) fn copies_fit_both_ways(
        &self,
        alloc: Global,
        batch: &Batch,
    ) -> Result<bool, OutOfMemory>
        requires { fault_of batch.now ≡ None }
        ensures { IfOk result (λ fit. fit ≡ copies_fit_both_ways self.now batch.now) }
    {
        if !self.are_fit_copies(batch) {
            return Ok(false);
        }
        self.open_copies_fit(alloc, batch)
    }

    /// The same of a batch that is learned with another one, which comes before it.
    pub(crate) fn second_copies_fit(
        &self,
        alloc: Global,
        batch: &Batch,
        second: &Batch,
    ) -> Result<bool, OutOfMemory>
        requires first { fault_of batch.now ≡ None }
        requires second { fault_of second.now ≡ None }
        ensures { IfOk result (λ fit. fit ≡ second_copies_fit self.now batch.now second.now) }
    {
        if !self.copies_fit_both_ways(alloc, second)? {
            return Ok(false);
        }
        Ok(
            are_fit_to(batch, second.events.as_slice())
                && are_fit_to(second, batch.events.as_slice()),
        )
    }

    /// Whether each learned copied signal that is open names nothing but its original in the batch.
    fn open_copies_fit(&self, alloc: Global, batch: &Batch) -> Result<bool, OutOfMemory>
        requires { fault_of batch.now ≡ None }
        ensures { IfOk result (λ fit. fit ≡ open_copies_fit self.now batch.now) }
    {
        if self.is_named() {
            return Ok(true);
        }
        let others = self.batches(alloc)?;
        Ok(self.are_all_open_fit(batch, others.as_slice()))
    }

    /// The same of the copied signals in these batches.
    fn are_all_open_fit(&self, batch: &Batch, others: &[&Batch]) -> bool
        requires { fault_of batch.now ≡ None }
        ensures { result ≡ list_all (λ other. are_open_fit self.now batch.now other.events)
            (map (λ b. b.now) others.now) }
    {
        for other in others {
            if !self.are_open_fit(batch, other.events.as_slice()) {
                return false;
            }
        }
        true
    }

    /// The same of the copied signals among these events.
    fn are_open_fit(&self, batch: &Batch, events: &[Event]) -> bool
        requires { fault_of batch.now ≡ None }
        ensures { result ≡ are_open_fit self.now batch.now events.now }
    {
        for event in events {
            if !self.is_open_fit(batch, &event.kind) {
                return false;
            }
        }
        true
    }

    /// Whether an event of this kind is not a copied signal that is open, or names nothing but its original in the
    /// batch.
    fn is_open_fit(&self, batch: &Batch, kind: &EventKind) -> bool
        requires { fault_of batch.now ≡ None }
        ensures { result ≡ is_open_fit self.now batch.now kind.now }
    {
        match kind {
            EventKind::WorkflowExecutionSignaled {
                signal_name,
                input,
                origin,
            } => match origin.as_ref() {
                None => true,
                Some(origin) => {
                    self.event_of(origin).is_some()
                        || is_none_or_original(own_event(batch, origin), signal_name, input)
                }
            },
            _ => true,
        }
    }
}

/// Whether the copied signals among these events name nothing but their originals in the batch.
fn are_fit_to(batch: &Batch, events: &[Event]) -> bool
    requires { fault_of batch.now ≡ None }
    ensures { result ≡ are_fit_to batch.now events.now }
{
    for event in events {
        if !is_fit_to(batch, &event.kind) {
            return false;
        }
    }
    true
}

/// Whether an event of this kind is not a copied signal, or names nothing but its original in the batch.
fn is_fit_to(batch: &Batch, kind: &EventKind) -> bool
    requires { fault_of batch.now ≡ None }
    ensures { result ≡ is_fit_to batch.now kind.now }
{
    match kind {
        EventKind::WorkflowExecutionSignaled {
            signal_name,
            input,
            origin,
        } => match origin.as_ref() {
            None => true,
            Some(origin) => is_none_or_original(own_event(batch, origin), signal_name, input),
        },
        _ => true,
    }
}

/// The event of the batch that the origin names.
fn own_event<'b>(batch: &'b Batch, origin: &Origin) -> Option<&'b Event>
    requires { fault_of batch.now ≡ None }
    ensures { option_copied result ≡ event_of origin.now (batch.now ∷ []) }
{
    if batch.run.value != origin.run.value || batch.key.version != origin.version {
        return None;
    }
    event_in(batch.events.as_slice(), origin.event)
}

/// Whether the event, where there is one, is an original signal of this name and input.
fn is_none_or_original(event: Option<&Event>, name: &Name, input: &Name) -> bool
    ensures { result ≡ is_none_or_original name.now input.now (option_copied event.entry) }
{
    match event {
        None => true,
        Some(event) => is_original(&event.kind, name, input),
    }
}

/// Whether an event of this kind is an original signal of this name and input.
fn is_original(kind: &EventKind, name: &Name, input: &Name) -> bool
    ensures { result ≡ is_original name.now input.now kind.now }
{
    match kind {
        EventKind::WorkflowExecutionSignaled {
            signal_name: other,
            input: more,
            origin,
        } => match origin.as_ref() {
            None => other == name && more == input,
            Some(_) => false,
        },
        _ => false,
    }
}

/// Whether an event of this kind is a copied signal.
fn is_copy(kind: &EventKind) -> bool
    ensures { result ≡ false → (batches : List One) (b : One) → is_named_copy batches b kind.now
        ≡ true }
{
    match kind {
        EventKind::WorkflowExecutionSignaled { origin, .. } => origin.as_ref().is_some(),
        _ => false,
    }
}
