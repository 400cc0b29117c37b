//! What both sides had: what is to be driven again, what happened on both, and what happened on a current branch alone.
ghost use Rattle.std.specs.Prelude.{◌≡◌, ◌++◌, OnOk, true, false};
ghost use Rattle.std.specs.List.{flat_map};
ghost use Rattle.ndc_explain.specs.Losses.{alone_count, alone_line, alone_told, batch_named, beside_end, beside_text, event_named, event_text, is_told, is_told_as, loss_count, loss_head, loss_line, loss_told, sides_told};

use crate::piece::{Piece, push_pieces};
use crate::writer::writer_name;
use ndc_domain::Clusters;
use ndc_event::{BatchKey, Event, OutOfMemory};
use ndc_explain_sides::{Loss, Sides, Trace, first_name, second_name, sort_of};
use ndc_history::Item;

/// Whether an event is told: decisions only where all are.
fn is_told(all: bool, event: &Event) -> bool
    ensures { result ≡ is_told all event.now }
{
    all || !sort_of(&event.kind).is_decision()
}

/// Whether a lost event is told among those that happened on both sides, or among the others.
fn is_told_as(all: bool, both: bool, loss: &Loss) -> bool
    ensures { result ≡ is_told_as all both loss.now }
{
    if !is_told(all, loss.event) {
        return false;
    }
    if both { loss.is_both } else { !loss.is_both }
}

/// How many lost events are told so.
pub(crate) fn loss_count(all: bool, both: bool, lost: &[Loss]) -> usize
    ensures { result ≡ loss_count all both lost.now }
{
    let mut count = 0;
    for loss in lost {
        if is_told_as(all, both, loss) {
            count += 1;
        }
    }
    count
}

/// How many events that happened on a current branch alone are told.
pub(crate) fn alone_count(all: bool, alone: &[Trace]) -> usize
    ensures { result ≡ alone_count all alone.now }
{
    let mut count = 0;
    for trace in alone {
        if is_told(all, trace.event) {
            count += 1;
        }
    }
    count
}

/// Appends an event with its kind and its names.
#[tactic(auto, unfolding(crate::specs::Losses::event_named))]
pub fn push_event(text: &mut Vec<u8>, event: &Event) -> Result<(), OutOfMemory>
    ensures { OnOk result (text.new.items ≡ text.old.items ++ event_named event.now) }
{
    push_pieces(
        text,
        &[
            Piece::Plain("event "),
            Piece::Event(Item {
                id: event.id,
                version: event.version,
            }),
            Piece::Plain(" "),
            Piece::Plain(event.kind.name()),
            Piece::Name(first_name(&event.kind)),
            Piece::Name(second_name(&event.kind)),
        ],
    )
}

/// Appends a batch with the cluster that wrote it.
#[tactic(auto, unfolding(crate::specs::Losses::batch_named))]
pub fn push_batch(
    text: &mut Vec<u8>,
    clusters: &Option<Clusters>,
    key: BatchKey,
) -> Result<(), OutOfMemory>
    ensures { OnOk result (text.new.items ≡ text.old.items ++ batch_named clusters.now key) }
{
    push_pieces(
        text,
        &[
            Piece::Plain("batch "),
            Piece::Key(key),
            Piece::Writer(writer_name(clusters, key.version)),
        ],
    )
}

/// Appends an event with its kind, its names and its batch.
#[tactic(auto, unfolding(crate::specs::Losses::event_text))]
fn push_event_in(
    text: &mut Vec<u8>,
    clusters: &Option<Clusters>,
    key: BatchKey,
    event: &Event,
) -> Result<(), OutOfMemory>
    ensures { OnOk result (text.new.items
        ≡ text.old.items ++ event_text clusters.now key event.now) }
{
    push_event(text, event)?;
    text.extend_from_slice(b" in ")?;
    push_batch(text, clusters, key)
}

/// Appends the event of a current branch that stands beside.
fn push_beside(
    text: &mut Vec<u8>,
    clusters: &Option<Clusters>,
    beside: &Option<Trace>,
) -> Result<(), OutOfMemory>
    ensures { OnOk result (text.new.items ≡ text.old.items ++ beside_text clusters.now beside.now) }
{
    match beside {
        None => text.extend_from_slice(b"nothing"),
        Some(trace) => push_event_in(text, clusters, trace.key, trace.event),
    }
}

/// Appends the end of a line, with the event that stands beside.
#[tactic(auto, unfolding(crate::specs::Losses::beside_end))]
fn push_beside_end(
    text: &mut Vec<u8>,
    clusters: &Option<Clusters>,
    beside: &Option<Trace>,
) -> Result<(), OutOfMemory>
    ensures { OnOk result (text.new.items ≡ text.old.items ++ beside_end clusters.now beside.now) }
{
    text.extend_from_slice(b"; beside it: ")?;
    push_beside(text, clusters, beside)?;
    text.extend_from_slice(b"\n")
}

/// With what the line of a lost event begins.
fn loss_head(both: bool) -> &'static str
    ensures { result.now ≡ loss_head both }
{
    if both { "on both: " } else { "re-drive: " }
}

/// Appends the line of a lost event, with what stands beside it.
#[tactic(auto, unfolding(crate::specs::Losses::loss_line))]
fn push_loss(
    text: &mut Vec<u8>,
    clusters: &Option<Clusters>,
    both: bool,
    loss: &Loss,
) -> Result<(), OutOfMemory>
    ensures { OnOk result (text.new.items
        ≡ text.old.items ++ loss_line clusters.now both loss.now) }
{
    text.extend_from_slice(loss_head(both).as_bytes())?;
    push_event_in(text, clusters, loss.key, loss.event)?;
    push_beside_end(text, clusters, &loss.beside)
}

/// Appends the line of a lost event, where it is told so.
fn push_loss_of(
    text: &mut Vec<u8>,
    clusters: &Option<Clusters>,
    all: bool,
    both: bool,
    loss: &Loss,
) -> Result<(), OutOfMemory>
    ensures { OnOk result (text.new.items
        ≡ text.old.items ++ loss_told clusters.now all both loss.now) }
{
    if is_told_as(all, both, loss) {
        push_loss(text, clusters, both, loss)
    } else {
        Ok(())
    }
}

/// Appends the lines of the lost events that are told so.
fn push_losses(
    text: &mut Vec<u8>,
    clusters: &Option<Clusters>,
    all: bool,
    both: bool,
    lost: &[Loss],
) -> Result<(), OutOfMemory>
    ensures { OnOk result (text.new.items
        ≡ text.old.items ++ flat_map (loss_told clusters.now all both) lost.now) }
{
    for loss in lost {
        push_loss_of(text, clusters, all, both, loss)?;
    }
    Ok(())
}

/// Appends the line of an event that happened on a current branch alone.
#[tactic(auto, unfolding(crate::specs::Losses::alone_line))]
fn push_alone(
    text: &mut Vec<u8>,
    clusters: &Option<Clusters>,
    trace: &Trace,
) -> Result<(), OutOfMemory>
    ensures { OnOk result (text.new.items ≡ text.old.items ++ alone_line clusters.now trace.now) }
{
    text.extend_from_slice(b"only current: ")?;
    push_event_in(text, clusters, trace.key, trace.event)?;
    text.extend_from_slice(b"\n")
}

/// Appends its line, where it is told.
fn push_alone_of(
    text: &mut Vec<u8>,
    clusters: &Option<Clusters>,
    all: bool,
    trace: &Trace,
) -> Result<(), OutOfMemory>
    ensures { OnOk result (text.new.items
        ≡ text.old.items ++ alone_told clusters.now all trace.now) }
{
    if is_told(all, trace.event) {
        push_alone(text, clusters, trace)
    } else {
        Ok(())
    }
}

/// Appends the lines of the events that happened on a current branch alone.
fn push_each_alone(
    text: &mut Vec<u8>,
    clusters: &Option<Clusters>,
    all: bool,
    alone: &[Trace],
) -> Result<(), OutOfMemory>
    ensures { OnOk result (text.new.items
        ≡ text.old.items ++ flat_map (alone_told clusters.now all) alone.now) }
{
    for trace in alone {
        push_alone_of(text, clusters, all, trace)?;
    }
    Ok(())
}

/// Appends the lines of what both sides had.
#[tactic(auto, unfolding(crate::specs::Losses::sides_told))]
pub(crate) fn push_sides(
    text: &mut Vec<u8>,
    clusters: &Option<Clusters>,
    all: bool,
    sides: &Sides,
) -> Result<(), OutOfMemory>
    ensures { OnOk result (text.new.items
        ≡ text.old.items ++ sides_told clusters.now all sides.now) }
{
    push_losses(text, clusters, all, false, sides.lost.as_slice())?;
    push_losses(text, clusters, all, true, sides.lost.as_slice())?;
    push_each_alone(text, clusters, all, sides.alone.as_slice())
}
