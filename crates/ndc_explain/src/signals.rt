//! Signals, and what became of each.
ghost use Rattle.std.specs.Prelude.{◌≡◌, ◌++◌, [], IfOk, OnOk};
ghost use Rattle.std.specs.List.{cons_option, flat_map};
ghost use Rattle.std.specs.Option.{option_copied};
ghost use Rattle.ndc_model_sets.specs.Origins.{signal_of, signals, signals_in};
ghost use Rattle.ndc_reapply.specs.Strays.{strays_of};
ghost use Rattle.ndc_state.specs.Origins.{origin_of};
ghost use Rattle.ndc_explain.specs.Signals.{fate_text, said_text, settled_text, settled_words, settler_of, signal_head, signal_line, waiting_count, waiting_text};

use crate::piece::{Piece, push_pieces};
use crate::settlers::{Settler, Settlers};
use crate::writer::writer_name;
use ndc_domain::Clusters;
use ndc_event::{Batch, Event, EventKind, Name, OutOfMemory, RunId};
use ndc_history::Item;
use ndc_reapply::{Stray, strays};
use ndc_state::origin_of;
use std::alloc::Global;

/// Appends the signal that an event of a run is.
fn push_signal(list: &mut Vec<Stray>, run: RunId, event: &Event) -> Result<(), OutOfMemory>
    ensures { OnOk result (list.new.items
        ≡ list.old.items ++ cons_option
        (signal_of run event.now.id event.now.version event.now.kind) []) }
{
    match &event.kind {
        EventKind::WorkflowExecutionSignaled {
            signal_name,
            input,
            origin,
        } => {
            list.push(Stray {
                origin: origin_of(run, event, origin),
                name: signal_name.try_copy()?,
                input: input.try_copy()?,
            })?;
            Ok(())
        }
        _ => Ok(()),
    }
}

/// Appends the signals among events of a run.
fn push_signals(list: &mut Vec<Stray>, run: RunId, events: &[Event]) -> Result<(), OutOfMemory>
    ensures { OnOk result (list.new.items ≡ list.old.items ++ signals_in run events.now) }
{
    for event in events {
        push_signal(list, run, event)?;
    }
    Ok(())
}

/// The signals of batches.
fn signals_of(alloc: Global, batches: &[Batch]) -> Result<Vec<Stray>, OutOfMemory>
    ensures { IfOk result (λ list. list.items ≡ signals batches.now) }
{
    let mut list = Vec::new(alloc);
    for batch in batches {
        push_signals(&mut list, batch.run, batch.events.as_slice())?;
    }
    Ok(list)
}

/// The signals of batches, each once by its origin, and in order.
pub(crate) fn each_signal(alloc: Global, batches: &[Batch]) -> Result<Vec<Stray>, OutOfMemory>
    ensures { IfOk result (λ list. list.items ≡ strays_of (signals batches.now) []) }
{
    let list = signals_of(alloc, batches)?;
    strays(alloc, list.as_slice(), &[])
}

/// What settles a signal.
fn settler_of<'s>(known: &'s Settlers, signal: &Stray) -> Option<&'s Settler>
    ensures { option_copied result ≡ settler_of known.now signal.now }
{
    known.get(signal.origin)
}

/// How many of the signals nothing settles.
pub(crate) fn waiting_count(known: &Settlers, signals: &[Stray]) -> usize
    ensures { result ≡ waiting_count known.now signals.now }
{
    let mut count = 0;
    for signal in signals {
        if settler_of(known, signal).is_none() {
            count += 1;
        }
    }
    count
}

/// Appends what a signal says, and the event that it comes from.
fn push_said(text: &mut Vec<u8>, signal: &Stray) -> Result<(), OutOfMemory>
    ensures { OnOk result (text.new.items ≡ text.old.items ++ said_text signal.now) }
{
    push_pieces(
        text,
        &[
            Piece::Plain("signal "),
            Piece::Bytes(signal.name.as_bytes()),
            Piece::Plain(" "),
            Piece::Bytes(signal.input.as_bytes()),
            Piece::Plain(" of event "),
            Piece::Event(Item {
                id: signal.origin.event,
                version: signal.origin.version,
            }),
            Piece::Plain(" of run "),
        ],
    )
}

/// Appends the beginning of a signal's line.
fn push_head(alloc: Global, text: &mut Vec<u8>, signal: &Stray) -> Result<(), OutOfMemory>
    ensures { OnOk result (text.new.items ≡ text.old.items ++ signal_head signal.now) }
{
    push_said(text, signal)?;
    text.extend_from_slice(signal.origin.run.text(alloc)?.as_bytes())
}

/// How it is said that a signal is settled.
fn settled_words(is_copy: bool) -> &'static str
    ensures { result.now ≡ settled_words is_copy }
{
    if is_copy {
        " was copied in batch "
    } else {
        " stands on a current branch in batch "
    }
}

/// Appends by what a signal is settled.
fn push_settled(
    text: &mut Vec<u8>,
    clusters: &Option<Clusters>,
    settler: Settler,
) -> Result<(), OutOfMemory>
    ensures { OnOk result (text.new.items ≡ text.old.items ++ settled_text clusters.now settler) }
{
    push_pieces(
        text,
        &[
            Piece::Plain(settled_words(settler.is_copy)),
            Piece::Key(settler.key),
            Piece::Writer(writer_name(clusters, settler.key.version)),
            Piece::Plain("\n"),
        ],
    )
}

/// Appends what a signal waits for.
fn push_waiting(text: &mut Vec<u8>, workflow: &Name, is_open: bool) -> Result<(), OutOfMemory>
    ensures { OnOk result (text.new.items ≡ text.old.items ++ waiting_text workflow.now is_open) }
{
    if is_open {
        push_pieces(
            text,
            &[
                Piece::Plain(" waits: it is applied again when the writer of "),
                Piece::Bytes(workflow.as_bytes()),
                Piece::Plain(" works\n"),
            ],
        )
    } else {
        push_pieces(
            text,
            &[
                Piece::Plain(" waits: the current run is closed; it is applied again when "),
                Piece::Bytes(workflow.as_bytes()),
                Piece::Plain(" is started again and its writer works\n"),
            ],
        )
    }
}

/// Appends the line of a signal.
fn push_fate(
    alloc: Global,
    text: &mut Vec<u8>,
    clusters: &Option<Clusters>,
    workflow: &Name,
    is_open: bool,
    known: &Settlers,
    signal: &Stray,
) -> Result<(), OutOfMemory>
    ensures { OnOk result (text.new.items
        ≡ text.old.items ++ signal_line clusters.now workflow.now is_open known.now signal.now) }
{
    push_head(alloc, text, signal)?;
    match settler_of(known, signal) {
        None => push_waiting(text, workflow, is_open),
        Some(settler) => push_settled(text, clusters, *settler),
    }
}

/// Appends the lines of signals.
pub(crate) fn push_fates(
    alloc: Global,
    text: &mut Vec<u8>,
    clusters: &Option<Clusters>,
    workflow: &Name,
    is_open: bool,
    known: &Settlers,
    signals: &[Stray],
) -> Result<(), OutOfMemory>
    ensures { OnOk result (text.new.items
        ≡ text.old.items ++ flat_map
        (signal_line clusters.now workflow.now is_open known.now) signals.now) }
{
    for signal in signals {
        push_fate(alloc, text, clusters, workflow, is_open, known, signal)?;
    }
    Ok(())
}
