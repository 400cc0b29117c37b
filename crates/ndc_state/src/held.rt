ghost use Rattle.std.specs.Prelude.{◌≡◌, false, OnOk, OnErr};
ghost use Rattle.ndc_state.specs.Pendings.{gone_back, is_gone, remaining, unstarted_at};
ghost use Rattle.ndc_state.specs.Places.{marked_of, IsCountWithin, IsKeptAs};

use crate::pendings::Pending;
use crate::removed::{
    copy_remaining, forget, is_gone, keep_remaining, remaining_at, remaining_len,
};
use indexmap::{IndexMap, IndexSet};
use ndc_event::{Name, OutOfMemory};
use std::alloc::Global;
use std::marker::Model;

/// What is pending by name, in the order of scheduling, with what takes it back to how it was at the last
/// mark.
#[derive(Drop)]
pub(crate) struct Held {
    entries: IndexMap<Name, Pending>,
    /// How many entries there were at the mark.
    count: usize,
    /// The places of the entries that were started since.
    started: Vec<usize>,
    /// The names that were taken out since; their entries go at the next mark.
    removed: IndexSet<Name>,
    /// The entries at the mark, from when a name came again that had been taken out since.
    kept: Option<IndexMap<Name, Pending>>,
}

impl Model for Held {
    ghost use Rattle.std.specs.Prelude.{List};
    ghost use Rattle.ndc_event.specs.declared.name.Name.{Name};
    ghost use Rattle.ndc_state.specs.declared.pendings.Pending.{Pending};
    ghost use Rattle.ndc_state.specs.Marked.{Marked};

    ghost Value = { Marked (List (Name × Pending)) };

    ghost use Rattle.ndc_state.specs.Places.{held_of, IsMarkWithin};

    ghost view = { held_of };

    ghost invariant = { IsMarkWithin };
}

/// Takes the start of the entry at the place back.
#[tactic(auto, using(crate::proofs::PlaceLemmas::unstarted_at_write, crate::proofs::PlaceLemmas::unstarted_at_beyond))]
fn take_back(entries: &mut IndexMap<Name, Pending>, place: usize)
    ensures { entries.new.entries ≡ unstarted_at place entries.old.entries }
{
    if let Some(pending) = entries.get_index_mut(place) {
        pending.started = None;
    }
}

/// Takes the entries back to the first so many, with none of those at the places started.
fn go_back(entries: &mut IndexMap<Name, Pending>, count: usize, places: &[usize])
    ensures { entries.new.entries ≡ gone_back count places.now entries.old.entries }
{
    entries.truncate(count);
    for place in places {
        take_back(entries, *place);
    }
}

/// Keeps the entries as they were at the mark, where they are not kept.
fn keep(
    kept: &mut Option<IndexMap<Name, Pending>>,
    entries: &IndexMap<Name, Pending>,
    count: usize,
    started: &[usize],
) -> Result<(), OutOfMemory>
    ensures ok { OnOk result
        (IsKeptAs kept.new (marked_of kept.old count started.now entries.now.entries)) }
    ensures err { OnErr result (kept.new ≡ kept.old) }
{
    if kept.is_some() {
        return Ok(());
    }
    let mut copy = entries.clone()?;
    go_back(&mut copy, count, started);
    *kept = Some(copy);
    Ok(())
}

/// Sees to it that a name can go last: where it was taken out since the mark, the entries at the mark are kept, and what was
/// taken out goes.
#[tactic(auto, using(crate::proofs::RemovedLemmas::remaining_nothing, crate::proofs::PlaceLemmas::marked_of_kept, crate::proofs::PlaceLemmas::within_kept))]
fn make_way(
    entries: &mut IndexMap<Name, Pending>,
    removed: &mut IndexSet<Name>,
    kept: &mut Option<IndexMap<Name, Pending>>,
    count: usize,
    started: &[usize],
    name: &Name,
) -> Result<(), OutOfMemory>
    requires { IsCountWithin kept.old count entries.old.entries }
    ensures current { remaining removed.new.keys entries.new.entries
        ≡ remaining removed.old.keys entries.old.entries }
    ensures marked { marked_of kept.new count started.now entries.new.entries
        ≡ marked_of kept.old count started.now entries.old.entries }
    ensures within { IsCountWithin kept.new count entries.new.entries }
    ensures ok { OnOk result (is_gone removed.new.keys name.now ≡ false) }
{
    if !is_gone(removed, name) {
        return Ok(());
    }
    keep(kept, entries, count, started)?;
    keep_remaining(entries, removed);
    forget(removed);
    Ok(())
}

impl Held {
    ghost use Rattle.std.specs.Prelude.{◌≡◌, [], IsTrue, None, not, is_some, OnOk, OnErr, IfOk, length, slice_get};
    ghost use Rattle.std.specs.Map.{values_of};
    ghost use Rattle.ndc_state.specs.Pendings.{pending_of, with_scheduled, with_started, without, is_waiting};

    /// Nothing is pending.
    pub(crate) fn new(alloc: Global) -> Held
        ensures current { result.current ≡ [] }
        ensures marked { result.marked ≡ [] }
    {
        Held {
            entries: IndexMap::new(alloc),
            count: 0,
            started: Vec::new(alloc),
            removed: IndexSet::new(alloc),
            kept: None,
        }
    }

    /// What is pending under the name.
    #[tactic(auto, using(crate::proofs::RemovedLemmas::gone_remaining, crate::proofs::RemovedLemmas::found_remaining))]
    pub(crate) fn get(&self, name: &Name) -> Option<Pending>
        ensures { result ≡ pending_of name.now self.now.current }
    {
        if is_gone(&self.removed, name) {
            return None;
        }
        self.entries.get(name).copied()
    }

    /// Puts the name last, scheduled by this event.
    pub(crate) fn schedule(&mut self, name: Name, id: u64) -> Result<(), OutOfMemory>
        requires { pending_of name self.old.current ≡ None }
        ensures current { OnOk result (self.new.current ≡ with_scheduled name id self.old.current) }
        ensures marked { self.new.marked ≡ self.old.marked }
        ensures err { OnErr result (self.new ≡ self.old) }
    {
        make_way(
            &mut self.entries,
            &mut self.removed,
            &mut self.kept,
            self.count,
            self.started.as_slice(),
            &name,
        )?;
        self.entries.insert(
            name,
            Pending {
                scheduled: id,
                started: None,
            },
        )?;
        Ok(())
    }

    /// Notes that the event starts the name.
    pub(crate) fn start(&mut self, name: &Name, id: u64) -> Result<(), OutOfMemory>
        requires { IsTrue (is_waiting (pending_of name.now self.old.current)) }
        ensures current { OnOk result
            (self.new.current ≡ with_started name.now id self.old.current) }
        ensures marked { self.new.marked ≡ self.old.marked }
        ensures err { OnErr result (self.new ≡ self.old) }
    {
        let Some(place) = self.entries.get_index_of(name) else {
            return Ok(());
        };
        self.started.push(place)?;
        self.entries[place].started = Some(id);
        Ok(())
    }

    /// Takes the name out. Its entry stays until the next mark.
    #[tactic(auto, using(crate::proofs::RemovedLemmas::remaining_taken))]
    pub(crate) fn remove(&mut self, name: &Name) -> Result<(), OutOfMemory>
        ensures current { OnOk result (self.new.current ≡ without name.now self.old.current) }
        ensures marked { self.new.marked ≡ self.old.marked }
        ensures err { OnErr result (self.new ≡ self.old) }
    {
        self.removed.insert(name.try_copy()?)?;
        Ok(())
    }

    /// Makes what is pending now the mark.
    #[tactic(auto, using(crate::proofs::RemovedLemmas::remaining_nothing))]
    pub(crate) fn mark(&mut self)
        ensures current { self.new.current ≡ self.old.current }
        ensures marked { self.new.marked ≡ self.old.current }
    {
        keep_remaining(&mut self.entries, &self.removed);
        self.count = self.entries.len();
        self.started.clear();
        forget(&mut self.removed);
        self.kept = None;
    }

    /// Goes back to the mark.
    #[tactic(auto, using(crate::proofs::RemovedLemmas::remaining_nothing))]
    pub(crate) fn revert(&mut self)
        ensures current { self.new.current ≡ self.old.marked }
        ensures marked { self.new.marked ≡ self.old.marked }
    {
        match self.kept.take() {
            Some(kept) => self.entries = kept,
            None => go_back(&mut self.entries, self.count, self.started.as_slice()),
        }
        self.count = self.entries.len();
        self.started.clear();
        forget(&mut self.removed);
    }

    /// How many names are pending.
    pub(crate) fn len(&self) -> usize
        ensures { result ≡ length self.now.current }
    {
        remaining_len(&self.entries, &self.removed)
    }

    /// What is pending at a place in the order of scheduling.
    pub(crate) fn at(&self, place: usize) -> Option<Pending>
        ensures { result ≡ slice_get (values_of self.now.current) place }
    {
        remaining_at(&self.entries, &self.removed, place)
    }

    /// The same names, pending as they are now.
    #[tactic(auto, using(crate::proofs::RemovedLemmas::remaining_nothing))]
    pub(crate) fn try_copy(&self) -> Result<Held, OutOfMemory>
        ensures { IfOk result (λ copy. copy.current ≡ self.now.current) }
    {
        let entries = copy_remaining(&self.entries, &self.removed)?;
        let count = entries.len();
        let alloc = *self.entries.allocator();
        Ok(Held {
            entries,
            count,
            started: Vec::new(alloc),
            removed: IndexSet::new(alloc),
            kept: None,
        })
    }
}
