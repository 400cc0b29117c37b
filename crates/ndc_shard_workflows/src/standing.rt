// What stands under the keys of a message, and whether its versions are the cell's own.
ghost use Rattle.std.specs.Prelude.{◌≡◌, map};
ghost use Rattle.std.specs.List.{list_any};
ghost use Rattle.std.specs.Option.{option_copied};
ghost use Rattle.ndc_shard_workflows.specs.Lacking.{is_lacked, names_lacked, tells_of_lacked};
ghost use Rattle.ndc_shard_workflows.specs.Terms.{has_unknown_own, is_own, is_unknown_own, name_unknown_own, names_unknown_own, second_names_unknown_own};

use crate::admission::{NotAdmitted, Terms};
use crate::workflow::Workflow;
use ndc_admission::history_ends;
use ndc_event::{Batch, BatchKey, Event, EventKind, OutOfMemory};
use ndc_model_cells::Message;
use ndc_shard_runs::Runs;
use std::alloc::Global;

/// Whether the cell's own cluster writes with this version.
fn is_own(terms: &Terms, version: u64) -> bool
    ensures { result ≡ is_own terms.now version }
{
    match terms.clusters.writer_of(version) {
        Some(writer) => writer == terms.me,
        None => false,
    }
}

/// Whether the batch has a version of the cell's own cluster, which has not learned it and does not ask for it.
fn is_unknown_own(terms: &Terms, runs: &Runs, batch: &Batch) -> bool
    ensures { result ≡ is_unknown_own terms.now runs.now batch.now }
{
    !terms.recall && is_own(terms, batch.key.version) && !runs.has(batch.key)
}

/// Whether an event of this kind is a copied signal that names an event of the cell's own cluster, which has not learned that.
fn names_unknown_own(terms: &Terms, runs: &Runs, kind: &EventKind) -> bool
    ensures { result ≡ names_unknown_own terms.now runs.now kind.now }
{
    match kind {
        EventKind::WorkflowExecutionSignaled { origin, .. } => match origin.as_ref() {
            None => false,
            Some(origin) => is_own(terms, origin.version) && runs.event_of(origin).is_none(),
        },
        _ => false,
    }
}

/// Whether one of these events is.
fn name_unknown_own(terms: &Terms, runs: &Runs, events: &[Event]) -> bool
    ensures { result ≡ name_unknown_own terms.now runs.now events.now }
{
    events
        .iter()
        .any(|event| names_unknown_own(terms, runs, &event.kind))
}

/// Whether the message has such a copied signal, and the cell does not ask for what it lost.
fn has_unknown_own(terms: &Terms, runs: &Runs, message: &Message) -> bool
    ensures { result ≡ has_unknown_own terms.now runs.now message.now }
{
    if terms.recall {
        return false;
    }
    if name_unknown_own(terms, runs, message.batch.events.as_slice()) {
        return true;
    }
    match message.second.as_ref() {
        None => false,
        Some(second) => name_unknown_own(terms, runs, second.events.as_slice()),
    }
}

/// Whether the key, where there is one, is of the cell's own cluster and not learned.
fn is_lacked(terms: &Terms, runs: &Runs, key: Option<BatchKey>) -> bool
    ensures { result ≡ is_lacked terms.now runs.now key }
{
    match key {
        None => false,
        Some(key) => is_own(terms, key.version) && !runs.has(key),
    }
}

/// Whether the batch names such a key as that of its parent or of its carrier.
fn names_lacked(terms: &Terms, runs: &Runs, batch: &Batch) -> bool
    ensures { result ≡ names_lacked terms.now runs.now batch.now }
{
    is_lacked(terms, runs, batch.parent) || is_lacked(terms, runs, batch.carrier)
}

/// Whether the batch is one of the cell's own cluster that is not learned, or names one.
fn tells_of_lacked(terms: &Terms, runs: &Runs, batch: &Batch) -> bool
    ensures { result ≡ tells_of_lacked terms.now runs.now batch.now }
{
    if is_lacked(terms, runs, Some(batch.key)) || names_lacked(terms, runs, batch) {
        return true;
    }
    name_unknown_own(terms, runs, batch.events.as_slice())
}

/// Whether one of these batches does.
fn tell_of_lacked(terms: &Terms, runs: &Runs, batches: &[&Batch]) -> bool
    ensures { result ≡ list_any (tells_of_lacked terms.now runs.now)
        (map (λ b. b.now) batches.now) }
{
    for batch in batches {
        if tells_of_lacked(terms, runs, batch) {
            return true;
        }
    }
    false
}

impl Workflow {
    ghost use Rattle.std.specs.Prelude.{◌≡◌, true, false, not, Some, IfOk, IfSome, IfNone};
    ghost use Rattle.ndc_shard_workflows.specs.Lacking.{lacks_own};
    ghost use Rattle.ndc_model_sets.specs.Learned.{has_key, learned};
    ghost use Rattle.ndc_shard_workflows.specs.Admitting.{IsRefusedFor};
    ghost use Rattle.ndc_shard_workflows.specs.Terms.{HasNoRival, IsForeign, IsFreeFor, IsRivalOf, IsTaken, StandsAlone};
    ghost use Rattle.ndc_admission.specs.History.{history_ends};
    ghost use Rattle.ndc_shard_workflows.specs.declared.admission.NotAdmitted.TheVariants.{Rival};

    /// Why a message is refused on these terms before it is tried: the cell's own versions, another batch under one of its
    /// keys, and its version history. Where it is not, it has arrived or is new.
    pub(crate) fn refusal(&self, terms: &Terms, message: &Message) -> Option<NotAdmitted>
        ensures refused { IfSome result (λ cause.
            IsRefusedFor terms.now message.now cause self.now) }
        ensures foreign { IfNone result
            (IsForeign terms.now (learned self.now.arrived) message.now) }
        ensures no_rival { IfNone result (HasNoRival self.now.arrived message.now) }
        ensures history { IfNone result (history_ends message.now ≡ true) }
    {
        let runs = self.runs();
        if is_unknown_own(terms, runs, &message.batch) {
            return Some(NotAdmitted::OwnVersion);
        }
        if has_unknown_own(terms, runs, message) {
            return Some(NotAdmitted::OwnOrigin);
        }
        if self.has_other(&message.batch) {
            return Some(self.rival(message.batch.key));
        }
        if let Some(second) = message.second.as_ref() {
            if self.is_taken(&message.batch, second) {
                return Some(self.rival(second.key));
            }
        }
        if !history_ends(message) {
            return Some(NotAdmitted::History);
        }
        None
    }

    /// Whether a batch of the cell's own cluster is known of that is not learned, on these terms: one that is put off is such a
    /// batch, or one that is learned or put off names such a batch as its parent, as its carrier or as the origin of a copied
    /// signal. Whether the cell asks for what it lost makes no difference. In time of all events that have arrived.
    pub fn lacks_own(&self, alloc: Global, terms: &Terms) -> Result<bool, OutOfMemory>
        ensures { IfOk result (λ lacks. lacks ≡ lacks_own terms.now self.now) }
    {
        let runs = self.runs();
        let learned = runs.batches(alloc)?;
        if tell_of_lacked(terms, runs, learned.as_slice()) {
            return Ok(true);
        }
        let waiting = self.put_off().batches(alloc)?;
        Ok(tell_of_lacked(terms, runs, waiting.as_slice()))
    }

    /// Whether another batch stands under the key of this one.
    fn has_other(&self, batch: &Batch) -> bool
        ensures other { result ≡ true → IsRivalOf self.now.arrived batch.now }
        ensures alone { result ≡ false → StandsAlone self.now.arrived batch.now }
    {
        match self.get(batch.key) {
            None => false,
            Some(there) => !there.is_same(batch),
        }
    }

    /// Whether the key of what the batch carries is taken: by another batch, or by any where the batch has not arrived.
    fn is_taken(&self, batch: &Batch, second: &Batch) -> bool
        ensures taken { result ≡ true → IsTaken self.now.arrived batch.now second.now }
        ensures free { result ≡ false → IsFreeFor self.now.arrived batch.now second.now }
    {
        self.has_other(second) || (self.has_arrived(second.key) && !self.has_arrived(batch.key))
    }

    /// The batch under this key as a rival.
    fn rival(&self, key: BatchKey) -> NotAdmitted
        ensures { result ≡ Rival key (not (has_key (Some key) (learned self.now.arrived))) }
    {
        NotAdmitted::Rival {
            key,
            waits: !self.runs().has(key),
        }
    }
}
