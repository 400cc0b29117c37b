// Entries of which some were taken out by name.
ghost use Rattle.std.specs.Prelude.{◌≡◌, suc, [], IfOk, not, true, length, slice_get};
ghost use Rattle.std.specs.List.{cons_option};
ghost use Rattle.std.specs.Map.{values_of};
ghost use Rattle.ndc_state.specs.Pendings.{is_gone, remaining, values_from};

use crate::pendings::Pending;
use indexmap::{IndexMap, IndexSet};
use ndc_event::{Name, OutOfMemory};

/// Whether the name is one of these.
pub(crate) fn is_gone(removed: &IndexSet<Name>, name: &Name) -> bool
    ensures { result ≡ is_gone removed.now.keys name.now }
{
    removed.contains(name)
}

/// Whether there is no name.
fn are_none(removed: &IndexSet<Name>) -> bool
    ensures { result ≡ true → removed.now.keys ≡ [] }
{
    removed.is_empty()
}

/// Forgets the names.
pub(crate) fn forget(removed: &mut IndexSet<Name>)
    ensures { removed.new.keys ≡ [] }
{
    removed.clear();
}

/// Keeps the entries that stand under none of these names.
#[tactic(auto, using(crate::proofs::RemovedLemmas::remaining_nothing))]
pub(crate) fn keep_remaining(entries: &mut IndexMap<Name, Pending>, removed: &IndexSet<Name>)
    ensures { entries.new.entries ≡ remaining removed.now.keys entries.old.entries }
{
    if are_none(removed) {
        return;
    }
    entries.retain(
        |name: &Name, pending: &mut Pending| -> bool
            ensures { (result ≡ not (is_gone removed.entry.now.keys name.now))
                × (pending.new ≡ pending.old) }
        { !is_gone(removed, name) },
    );
}

/// A copy of the entries that stand under none of these names.
pub(crate) fn copy_remaining(
    entries: &IndexMap<Name, Pending>,
    removed: &IndexSet<Name>,
) -> Result<IndexMap<Name, Pending>, OutOfMemory>
    ensures { IfOk result (λ copy. copy.entries ≡ remaining removed.now.keys entries.now.entries) }
{
    let mut copy = entries.clone()?;
    keep_remaining(&mut copy, removed);
    Ok(copy)
}

/// What stands at a place, unless it stands under one of these names.
#[tactic(auto, using(crate::proofs::RemovedLemmas::values_there, crate::proofs::RemovedLemmas::values_gone, crate::proofs::RemovedLemmas::values_behind))]
fn unless_gone(
    entries: &IndexMap<Name, Pending>,
    removed: &IndexSet<Name>,
    place: usize,
) -> Option<Pending>
    ensures { values_from place removed.now.keys entries.now.entries
        ≡ cons_option result (values_from (suc place) removed.now.keys entries.now.entries) }
{
    let (name, pending) = entries.get_index(place)?;
    if is_gone(removed, name) {
        return None;
    }
    Some(*pending)
}

/// How many entries stand under none of these names.
#[tactic(auto, using(crate::proofs::RemovedLemmas::length_none))]
pub(crate) fn remaining_len(entries: &IndexMap<Name, Pending>, removed: &IndexSet<Name>) -> usize
    ensures { result ≡ length (remaining removed.now.keys entries.now.entries) }
{
    if are_none(removed) {
        return entries.len();
    }
    let mut count = 0;
    for place in 0..entries.len() {
        if unless_gone(entries, removed, place).is_some() {
            count += 1;
        }
    }
    count
}

/// What stands at a place.
fn at(entries: &IndexMap<Name, Pending>, place: usize) -> Option<Pending>
    ensures { result ≡ slice_get (values_of entries.now.entries) place }
{
    let (_, pending) = entries.get_index(place)?;
    Some(*pending)
}

/// What stands at a place among the entries under none of these names.
#[tactic(auto, using(crate::proofs::RemovedLemmas::place_none))]
pub(crate) fn remaining_at(
    entries: &IndexMap<Name, Pending>,
    removed: &IndexSet<Name>,
    place: usize,
) -> Option<Pending>
    ensures { result ≡ slice_get
        (values_of (remaining removed.now.keys entries.now.entries)) place }
{
    if are_none(removed) {
        return at(entries, place);
    }
    let mut left = place;
    for next in 0..entries.len() {
        if let Some(pending) = unless_gone(entries, removed, next) {
            if left == 0 {
                return Some(pending);
            }
            left -= 1;
        }
    }
    None
}
