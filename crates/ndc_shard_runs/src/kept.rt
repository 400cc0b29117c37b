ghost use Rattle.std.specs.Prelude.{◌≡◌, [], ◌∷◌, ◌++◌, false, IfSome, IsTrue};
ghost use Rattle.std.specs.List.{cons_option, filter};
ghost use Rattle.ndc_reapply.specs.Strays.{origins_of};
ghost use Rattle.ndc_shard_runs.specs.Kept.{is_empty, is_unlisted};
ghost use Rattle.ndc_model_sets.specs.Origins.{origins_in, signal_of, signals_in};
ghost use Rattle.ndc_state.specs.Origins.{is_among, same_origin};
ghost use Rattle.ndc_event.specs.Sorted.{InOrder};
ghost use Rattle.ndc_state.specs.OriginList.{origin_before};

use ndc_event::{Batch, Event, EventKind, Origin, RunId};
use ndc_reapply::Stray;
use ndc_state::{is_among_rising, origin_of, rises_with};
use std::alloc::Global;
use std::marker::Model;

/// Strays that are kept, where they are known. Seen as their list, where it is known.
#[derive(Drop)]
pub(crate) struct Kept {
    list: Option<Vec<Stray>>,
}

impl Model for Kept {
    ghost use Rattle.std.specs.Prelude.{List, Option};
    ghost use Rattle.std.specs.Option.{option_map};
    ghost use Rattle.ndc_reapply.specs.declared.stray.Stray.{Stray};

    ghost Value = { Option (List Stray) };

    ghost view = { λ kept. option_map (λ list. list.items) kept.list };
}

impl Kept {
    ghost use Rattle.std.specs.Prelude.{◌≡◌, [], None, Some, if◌then◌else◌};
    ghost use Rattle.std.specs.Option.{option_map};
    ghost use Rattle.ndc_shard_runs.specs.Kept.{after_any, may_have, stays_empty};

    /// There is no stray.
    pub(crate) fn none(alloc: Global) -> Kept
        ensures { result ≡ Some [] }
    {
        Kept {
            list: Some(Vec::new(alloc)),
        }
    }

    /// These are the strays.
    pub(crate) fn known(list: Vec<Stray>) -> Kept
        ensures { result ≡ Some list.items }
    {
        Kept { list: Some(list) }
    }

    /// Forgets what they are.
    pub(crate) fn forget(&mut self)
        ensures { self.new ≡ None }
    {
        self.list = None;
    }

    /// The strays, where they are known.
    pub(crate) fn get(&self) -> Option<&[Stray]>
        ensures { option_map (λ list. list.now) result ≡ self.now }
    {
        match &self.list {
            None => None,
            Some(list) => Some(list.as_slice()),
        }
    }

    /// Whether there may be some: not where they are known to be none.
    pub(crate) fn may_have(&self) -> bool
        ensures { result ≡ may_have self.now }
    {
        match &self.list {
            None => true,
            Some(list) => !list.is_empty(),
        }
    }

    /// Whether they are known to be none, and stay none with a batch that lies beside what is current, without a signal,
    /// or follows all others.
    pub(crate) fn stay_empty(&self, beside: bool, follows: bool) -> bool
        ensures { result ≡ stays_empty beside follows self.now }
    {
        !self.may_have() && (beside || follows)
    }

    /// What they are once a batch is learned: where it lies beside what is current without a signal, the same; where it
    /// follows all others, those whose origins it does not settle.
    pub(crate) fn pass(&mut self, batch: &Batch, beside: bool, follows: bool)
        ensures { self.new ≡ after_any batch.now beside follows self.old }
    {
        if beside {
            return;
        }
        if !follows {
            return self.forget();
        }
        if let Some(list) = &mut self.list {
            drop_settled(list, batch);
        }
    }
}

/// Drops those whose origins the batch settles.
fn drop_settled(list: &mut Vec<Stray>, batch: &Batch)
    ensures { list.new.items
        ≡ filter (is_unlisted (origins_in batch.now.run batch.now.events)) list.old.items }
{
    if list.is_empty() {
        return;
    }
    match rising_in(*list.allocator(), batch.run, batch.events.as_slice()) {
        Some(origins) => drop_listed(list, origins.as_slice()),
        None => list.retain(|stray| stays(stray, batch)),
    }
}

/// Drops those whose origins stand in a list that rises.
fn drop_listed(list: &mut Vec<Stray>, origins: &[Origin])
    requires { InOrder origin_before origins.now }
    ensures { list.new.items ≡ filter (is_unlisted origins.now) list.old.items }
{
    list.retain(|stray| !is_among_rising(origins, stray.origin));
}

/// The origins of the signals among the events of a run, where they rise and there is memory for them.
fn rising_in(alloc: Global, run: RunId, events: &[Event]) -> Option<Vec<Origin>>
    ensures origins { IfSome result (λ list. list.items ≡ origins_in run events.now) }
    ensures rise { IfSome result (λ list. InOrder origin_before list.items) }
{
    let mut list = Vec::new(alloc);
    for event in events {
        if !push_rising(&mut list, run, event) {
            return None;
        }
    }
    Some(list)
}

/// Appends the origin of the event, where it is a signal; answers whether that is done and the list still rises.
fn push_rising(list: &mut Vec<Origin>, run: RunId, event: &Event) -> bool
    requires { InOrder origin_before list.old.items }
    ensures pushed { IsTrue result
        → list.new.items ≡ list.old.items ++ origins_in run (event.now ∷ []) }
    ensures rises { InOrder origin_before list.new.items }
{
    match &event.kind {
        EventKind::WorkflowExecutionSignaled { origin, .. } => {
            let origin = origin_of(run, event, origin);
            rises_with(list.as_slice(), origin) && list.push(origin).is_ok()
        }
        _ => true,
    }
}

/// Whether the batch does not settle the origin of the stray.
fn stays(stray: &Stray, batch: &Batch) -> bool
    ensures { result ≡ is_unlisted (origins_in batch.now.run batch.now.events) stray.now }
{
    !settles(batch, stray.origin)
}

/// Whether one of the batch's signals has this origin.
fn settles(batch: &Batch, origin: Origin) -> bool
    ensures { result ≡ is_among origin (origins_in batch.now.run batch.now.events) }
{
    for event in batch.events.as_slice() {
        if is_from(batch.run, event, origin) {
            return true;
        }
    }
    false
}

/// Whether the event of a run is a signal that has this origin.
fn is_from(run: RunId, event: &Event, origin: Origin) -> bool
    ensures { result ≡ is_among origin
        (origins_of (cons_option
        (signal_of run event.now.id event.now.version event.now.kind) [])) }
{
    match &event.kind {
        EventKind::WorkflowExecutionSignaled { origin: from, .. } => {
            is_same(origin, origin_of(run, event, from))
        }
        _ => false,
    }
}

/// Whether the batch has no signal.
pub(crate) fn has_no_signal(batch: &Batch) -> bool
    ensures { result ≡ is_empty (signals_in batch.now.run batch.now.events) }
{
    for event in batch.events.as_slice() {
        if !is_no_signal(batch.run, event) {
            return false;
        }
    }
    true
}

/// Whether the event of a run is not a signal.
fn is_no_signal(_run: RunId, event: &Event) -> bool
    ensures { result ≡ is_empty
        (cons_option (signal_of _run event.now.id event.now.version event.now.kind) []) }
{
    match &event.kind {
        EventKind::WorkflowExecutionSignaled { .. } => false,
        _ => true,
    }
}

/// Whether two origins are one.
fn is_same(one: Origin, two: Origin) -> bool
    ensures { result ≡ same_origin one two }
{
    one.run.value == two.run.value && one.event == two.event && one.version == two.version
}
