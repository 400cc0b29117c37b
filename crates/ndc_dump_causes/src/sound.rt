// The first cause why a set of batches is not that of a dump.
ghost use Rattle.std.specs.Prelude.{◌≡◌, true, false, Ok, Err, IfOk};
ghost use Rattle.ndc_event.specs.Outcome.{Gives};
ghost use Rattle.ndc_model_sets.specs.Sets.{Has, Rise};
ghost use Rattle.ndc_dump_causes.specs.Causes.{has_origin_twice, has_unfit_copy, holds_of_none, is_forbidden, is_ill_formed, is_split, is_unfit_carried, lacks_parent, sound_or};
ghost use Rattle.ndc_dump_causes.specs.Given.{AreRead};
ghost use Rattle.ndc_dump_causes.specs.Replaying.{replays_to};
ghost use Rattle.ndc_dump_causes.specs.Trails.{AreKnown};
ghost use Rattle.ndc_dump_causes.specs.declared.error.DumpError.TheVariants.{Key, Memory};
ghost use Rattle.ndc_dump_causes.specs.declared.error.KeyCause.TheVariants.{MissingParent, NotWellFormed, SplitVersion, OriginTwice, OriginUnfit, BadReplay, CarrierUnfit};

use crate::causes::{is_ill_formed, is_unfit_carried, lacks_parent};
use crate::chains::first_loose;
use crate::error::{DumpError, KeyCause};
use crate::keys::KeySet;
use crate::order::{Step, steps_of};
use crate::originals::{has_unfit_copy, originals_of};
use crate::replaying::{has_origin_twice, is_forbidden, keys_that_replay};
use crate::trail::keys_without_origin_twice;
use ndc_event::{Batch, BatchKey, OutOfMemory};
use std::alloc::Global;

/// The refusal of the batch with this key.
fn refusal(key: BatchKey, cause: KeyCause) -> Result<(), DumpError>
    ensures { result ≡ Err (Key key cause) }
{
    Err(DumpError::Key { key, cause })
}

/// Refuses the first batch whose parent is not in the set.
fn parents_are_there(batches: &[Batch]) -> Result<(), DumpError>
    requires { Rise batches.now }
    ensures { result ≡ holds_of_none MissingParent (lacks_parent batches.now) batches.now }
{
    for batch in batches {
        if lacks_parent(batches, batch) {
            return refusal(batch.key, KeyCause::MissingParent);
        }
    }
    Ok(())
}

/// Refuses the first batch that does not go on from its parent.
fn parents_fit(batches: &[Batch]) -> Result<(), DumpError>
    requires { Rise batches.now }
    ensures { result ≡ holds_of_none NotWellFormed (is_ill_formed batches.now) batches.now }
{
    for batch in batches {
        if is_ill_formed(batches, batch) {
            return refusal(batch.key, KeyCause::NotWellFormed);
        }
    }
    Ok(())
}

/// Refuses the first batch of which an earlier one of its run and version is not an ancestor. Where batches go on from
/// their parents, it is the first that comes after one of its run and version that is not its parent.
fn versions_are_chains(alloc: Global, batches: &[Batch]) -> Result<(), DumpError>
    requires read { AreRead batches.now }
    requires formed { holds_of_none NotWellFormed (is_ill_formed batches.now) batches.now ≡ Ok tt }
    ensures { Gives Memory (λ done.
        done) result (holds_of_none SplitVersion (is_split batches.now) batches.now) }
{
    match first_loose(alloc, batches)? {
        None => Ok(()),
        Some(key) => refusal(key, KeyCause::SplitVersion),
    }
}

/// Whether two signals on the path to a batch have one origin, where keys of batches of which this is not so are known.
fn has_origin_twice_by(
    alloc: Global,
    known: &KeySet,
    batches: &[Batch],
    batch: &Batch,
) -> Result<bool, OutOfMemory>
    requires read { AreRead batches.now }
    requires has { Has batches.now batch.now }
    requires known { AreKnown (λ b. has_origin_twice batches.now b ≡ false) batches.now known.now }
    ensures { IfOk result (λ test. test ≡ has_origin_twice batches.now batch.now) }
{
    if known.contains(batch.key) {
        return Ok(false);
    }
    has_origin_twice(alloc, batches, batch)
}

/// Refuses the first batch with two signals of one origin on its path.
fn origins_differ(alloc: Global, batches: &[Batch], steps: &[Step]) -> Result<(), DumpError>
    requires read { AreRead batches.now }
    requires formed { holds_of_none NotWellFormed (is_ill_formed batches.now) batches.now ≡ Ok tt }
    ensures { Gives Memory (λ done.
        done) result (holds_of_none OriginTwice (has_origin_twice batches.now) batches.now) }
{
    let known = keys_without_origin_twice(alloc, batches, steps)?;
    for batch in batches {
        if has_origin_twice_by(alloc, &known, batches, batch)? {
            return refusal(batch.key, KeyCause::OriginTwice);
        }
    }
    Ok(())
}

/// Refuses the first batch with a copied signal that names an event of the set which is not its original.
fn copies_fit(alloc: Global, batches: &[Batch]) -> Result<(), DumpError>
    ensures { Gives Memory (λ done.
        done) result (holds_of_none OriginUnfit (has_unfit_copy batches.now) batches.now) }
{
    let known = originals_of(alloc, batches)?;
    for batch in batches {
        if has_unfit_copy(&known, batch.events.as_slice()) {
            return refusal(batch.key, KeyCause::OriginUnfit);
        }
    }
    Ok(())
}

/// Whether the path to a batch does not replay and that to its parent does, where keys of batches whose paths replay are
/// known.
fn is_forbidden_by(
    alloc: Global,
    known: &KeySet,
    batches: &[Batch],
    batch: &Batch,
) -> Result<bool, OutOfMemory>
    requires read { AreRead batches.now }
    requires has { Has batches.now batch.now }
    requires known { AreKnown (λ b. replays_to batches.now b ≡ true) batches.now known.now }
    ensures { IfOk result (λ test. test ≡ is_forbidden batches.now batch.now) }
{
    if known.contains(batch.key) {
        return Ok(false);
    }
    is_forbidden(alloc, batches, batch)
}

/// Refuses the first batch whose path does not replay.
fn paths_replay(alloc: Global, batches: &[Batch], steps: &[Step]) -> Result<(), DumpError>
    requires read { AreRead batches.now }
    requires formed { holds_of_none NotWellFormed (is_ill_formed batches.now) batches.now ≡ Ok tt }
    requires once { holds_of_none OriginTwice (has_origin_twice batches.now) batches.now ≡ Ok tt }
    ensures { Gives Memory (λ done.
        done) result (holds_of_none BadReplay (is_forbidden batches.now) batches.now) }
{
    let known = keys_that_replay(alloc, batches, steps)?;
    for batch in batches {
        if is_forbidden_by(alloc, &known, batches, batch)? {
            return refusal(batch.key, KeyCause::BadReplay);
        }
    }
    Ok(())
}

/// Refuses the first batch whose carrier is not in the set, or does not continue as its run.
fn carriers_fit(batches: &[Batch]) -> Result<(), DumpError>
    requires { Rise batches.now }
    ensures { result ≡ holds_of_none CarrierUnfit (is_unfit_carried batches.now) batches.now }
{
    for batch in batches {
        if is_unfit_carried(batches, batch) {
            return refusal(batch.key, KeyCause::CarrierUnfit);
        }
    }
    Ok(())
}

/// Refuses the first batch of the first cause that holds of some batch of a set. All batches are gone over once for each
/// cause, with a look-up for each of their parents.
#[tactic(auto, unfolding(crate::specs::Causes::sound_or))]
pub fn sound_or(alloc: Global, batches: &[Batch]) -> Result<(), DumpError>
    requires { AreRead batches.now }
    ensures { Gives Memory (λ done. done) result (sound_or batches.now) }
{
    parents_are_there(batches)?;
    parents_fit(batches)?;
    versions_are_chains(alloc, batches)?;
    let steps = steps_of(alloc, batches)?;
    origins_differ(alloc, batches, steps.as_slice())?;
    copies_fit(alloc, batches)?;
    paths_replay(alloc, batches, steps.as_slice())?;
    carriers_fit(batches)
}
