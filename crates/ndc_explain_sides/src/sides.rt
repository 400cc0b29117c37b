//! What both sides had.
ghost use Rattle.std.specs.Prelude.{◌≡◌, ◌++◌, [], IfOk, OnOk};
ghost use Rattle.ndc_explain_sides.specs.Traces.{with_lost, with_standing};
ghost use Rattle.ndc_explain_sides.specs.Sides.{alone_at, alone_in, alone_of, alone_with, faces_any, is_alone, lost_at, lost_in, lost_of, lost_with, meets_any, sides_of};

use crate::latest::{Latest, latest_of, traced};
use crate::least::{Least, least_of};
use crate::parting::{Ends, Parting, Partings, ends_of, partings_of};
use crate::subject::sort_of;
use crate::trace::{Loss, Trace};
use ndc_dump_causes::keys::KeySet;
use ndc_event::{Batch, BatchKey, Event, OutOfMemory};
use std::alloc::Global;
use std::marker::Model;

/// An event of a batch that parts so, with its twin or with what is about the same.
fn lost_with<'v>(
    alloc: Global,
    latest: &Latest<'v>,
    parting: Parting,
    batch: &Batch,
    event: &'v Event,
    twin: Option<Trace<'v>>,
) -> Result<Loss<'v>, OutOfMemory>
    ensures { IfOk result (λ loss.
        loss ≡ lost_with latest.now parting batch.now event.now twin.entry) }
{
    match twin {
        None => {
            let beside = latest.kin_of(alloc, parting, event)?;
            Ok(Loss {
                run: batch.run,
                key: batch.key,
                event,
                is_both: false,
                beside,
            })
        }
        Some(twin) => Ok(Loss {
            run: batch.run,
            key: batch.key,
            event,
            is_both: true,
            beside: Some(twin),
        }),
    }
}

/// Appends an event of a batch that parts so, unless it is a signal.
fn push_lost<'v>(
    alloc: Global,
    lost: &mut Vec<Loss<'v>>,
    latest: &Latest<'v>,
    parting: Parting,
    batch: &Batch,
    event: &'v Event,
) -> Result<(), OutOfMemory>
    ensures { OnOk result (lost.new.items
        ≡ lost.old.items ++ lost_at latest.now parting batch.now event.now) }
{
    if sort_of(&event.kind).is_signal() {
        return Ok(());
    }
    let twin = latest.twin_of(alloc, parting, event)?;
    lost.push(lost_with(alloc, latest, parting, batch, event, twin)?)?;
    Ok(())
}

/// Appends these events of a batch that parts so, but for signals.
fn push_lost_events<'v>(
    alloc: Global,
    lost: &mut Vec<Loss<'v>>,
    latest: &Latest<'v>,
    parting: Parting,
    batch: &Batch,
    events: &'v [Event],
) -> Result<(), OutOfMemory>
    ensures { OnOk result (lost.new.items
        ≡ lost.old.items ++ lost_in latest.now parting batch.now events.now) }
{
    for event in events {
        push_lost(alloc, lost, latest, parting, batch, event)?;
    }
    Ok(())
}

/// The events of those of the batches whose keys are not listed, but for signals.
fn lost_of<'v>(
    alloc: Global,
    keys: &KeySet,
    partings: &Partings,
    latest: &Latest<'v>,
    batches: &'v [Batch],
) -> Result<Vec<Loss<'v>>, OutOfMemory>
    ensures { IfOk result (λ lost.
        lost.items ≡ lost_of keys.now partings.now latest.now batches.now) }
{
    let mut lost = Vec::new(alloc);
    for batch in batches {
        if !keys.contains(batch.key) {
            let parting = partings.of(keys, batch);
            push_lost_events(
                alloc,
                &mut lost,
                latest,
                parting,
                batch,
                batch.events.as_slice(),
            )?;
        }
    }
    Ok(lost)
}

/// Whether an event of a standing batch, whose run ends so, faces a lost batch, in its run or over all runs.
fn faces_any(
    alloc: Global,
    least: &Least,
    end: BatchKey,
    batch: &Batch,
) -> Result<bool, OutOfMemory>
    ensures { IfOk result (λ found. found ≡ faces_any least.now end batch.now) }
{
    if least.faces(alloc, Some(batch.run), batch.key)? {
        return Ok(true);
    }
    least.faces(alloc, None, end)
}

/// Whether it faces one in which the same happened.
fn meets_any(
    alloc: Global,
    least: &Least,
    end: BatchKey,
    batch: &Batch,
    event: &Event,
) -> Result<bool, OutOfMemory>
    ensures { IfOk result (λ found. found ≡ meets_any least.now end batch.now event.now) }
{
    if least.meets(alloc, Some(batch.run), batch.key, event)? {
        return Ok(true);
    }
    least.meets(alloc, None, end, event)
}

/// Whether it faces a lost batch, and what happened in it happened in none that it faces.
fn is_alone(
    alloc: Global,
    least: &Least,
    end: BatchKey,
    batch: &Batch,
    event: &Event,
) -> Result<bool, OutOfMemory>
    ensures { IfOk result (λ alone. alone ≡ is_alone least.now end batch.now event.now) }
{
    if !faces_any(alloc, least, end, batch)? {
        return Ok(false);
    }
    let meets = meets_any(alloc, least, end, batch, event)?;
    Ok(!meets)
}

/// Appends a standing event that happened on a current branch alone, unless it is a signal.
fn push_alone<'v>(
    alloc: Global,
    alone: &mut Vec<Trace<'v>>,
    least: &Least,
    end: BatchKey,
    batch: &Batch,
    event: &'v Event,
) -> Result<(), OutOfMemory>
    ensures { OnOk result (alone.new.items
        ≡ alone.old.items ++ alone_at least.now end batch.now event.now) }
{
    if sort_of(&event.kind).is_signal() {
        return Ok(());
    }
    if is_alone(alloc, least, end, batch, event)? {
        alone.push(traced(end, batch, event))?;
    }
    Ok(())
}

/// Appends those of these events of a standing batch that happened on a current branch alone.
fn push_alone_events<'v>(
    alloc: Global,
    alone: &mut Vec<Trace<'v>>,
    least: &Least,
    end: BatchKey,
    batch: &Batch,
    events: &'v [Event],
) -> Result<(), OutOfMemory>
    ensures { OnOk result (alone.new.items
        ≡ alone.old.items ++ alone_in least.now end batch.now events.now) }
{
    for event in events {
        push_alone(alloc, alone, least, end, batch, event)?;
    }
    Ok(())
}

/// Appends those of the events of a batch that happened on a current branch alone, where its key is listed.
fn push_alone_with<'v>(
    alloc: Global,
    alone: &mut Vec<Trace<'v>>,
    keys: &KeySet,
    ends: &Ends,
    least: &Least,
    batch: &'v Batch,
) -> Result<(), OutOfMemory>
    ensures { OnOk result (alone.new.items
        ≡ alone.old.items ++ alone_with keys.now ends.now least.now batch.now) }
{
    if !keys.contains(batch.key) {
        return Ok(());
    }
    push_alone_events(
        alloc,
        alone,
        least,
        ends.of(batch),
        batch,
        batch.events.as_slice(),
    )
}

/// The events of those of the batches whose keys are listed that happened on a current branch alone.
fn alone_of<'v>(
    alloc: Global,
    keys: &KeySet,
    ends: &Ends,
    least: &Least,
    batches: &'v [Batch],
) -> Result<Vec<Trace<'v>>, OutOfMemory>
    ensures { IfOk result (λ alone.
        alone.items ≡ alone_of keys.now ends.now least.now batches.now) }
{
    let mut alone = Vec::new(alloc);
    for batch in batches {
        push_alone_with(alloc, &mut alone, keys, ends, least, batch)?;
    }
    Ok(alone)
}

/// The lost events, with what stands beside them.
fn all_lost<'v>(
    alloc: Global,
    keys: &KeySet,
    partings: &Partings,
    ends: &Ends,
    batches: &'v [Batch],
) -> Result<Vec<Loss<'v>>, OutOfMemory>
    ensures { IfOk result (λ lost.
        lost.items ≡ lost_of keys.now partings.now
        (with_standing keys.now ends.now batches.now []) batches.now) }
{
    let latest = latest_of(alloc, keys, ends, batches)?;
    lost_of(alloc, keys, partings, &latest, batches)
}

/// What happened on a current branch alone.
fn all_alone<'v>(
    alloc: Global,
    keys: &KeySet,
    partings: &Partings,
    ends: &Ends,
    batches: &'v [Batch],
) -> Result<Vec<Trace<'v>>, OutOfMemory>
    ensures { IfOk result (λ alone.
        alone.items ≡ alone_of keys.now ends.now
        (with_lost keys.now partings.now batches.now []) batches.now) }
{
    let least = least_of(alloc, keys, partings, batches)?;
    alone_of(alloc, keys, ends, &least, batches)
}

/// What both sides had, signals left out.
#[derive(Drop)]
pub struct Sides<'v> {
    /// The events that stand on no current branch, in the order of the batches.
    pub lost: Vec<Loss<'v>>,
    /// The events of current branches that face a batch which stands on none, and in which something happened that
    /// happened in none of these.
    pub alone: Vec<Trace<'v>>,
}

impl<'v> Model for Sides<'v> {
    ghost use Rattle.ndc_explain_sides.specs.Traces.{with_lost, with_standing};
    ghost use Rattle.ndc_explain_sides.specs.Sides.{Sided};

    ghost Value = { Sided };

    ghost view = { λ sides. record { lost = sides.lost.items; alone = sides.alone.items } };
}

/// The two sides of batches in the order of their keys, where those whose keys are listed stand on current branches.
///
/// An event that does not stand is matched with those that stand after the last batch that both share, in its run.
/// Where they share none, as in a zombie, it is matched with those of all runs that end after the first batch of its
/// run.
///
/// It takes time of the batches.
pub fn sides_of<'v>(
    alloc: Global,
    keys: &KeySet,
    batches: &'v [Batch],
) -> Result<Sides<'v>, OutOfMemory>
    ensures { IfOk result (λ sides. sides ≡ sides_of keys.now batches.now) }
{
    let partings = partings_of(alloc, keys, batches)?;
    let ends = ends_of(alloc, keys, batches)?;
    let lost = all_lost(alloc, keys, &partings, &ends, batches)?;
    let alone = all_alone(alloc, keys, &partings, &ends, batches)?;
    Ok(Sides { lost, alone })
}
