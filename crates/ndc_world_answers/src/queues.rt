ghost use Rattle.std.specs.Prelude.{◌≡◌, ◌++◌, [], ◌∷◌, codes, decimal, length, map, IfOk, OnOk};
ghost use Rattle.std.specs.List.{flat_map};
ghost use Rattle.ndc_model.specs.Texts.{ok, refused};
ghost use Rattle.ndc_world_answers.specs.Gaps.{gap_ends, gap_head, gap_text};

use crate::tally::Tally;
use crate::text::AnswerText;
use crate::word::{Word, count_line, ok, refused};
use ndc_event::OutOfMemory;
use ndc_queue::Levels;
use ndc_resend::GapOf;
use ndc_text::line::{push_item, push_key};
use std::alloc::Global;

/// No message is at the place.
pub fn no_place(alloc: Global) -> Result<AnswerText, OutOfMemory>
    ensures { IfOk result (λ text. text ≡ refused (codes "NoSuchPlace" ∷ [])) }
{
    refused(alloc, &[Word::Plain("NoSuchPlace")])
}

/// How long a queue is, how far it is trimmed, what a reader has read and done of it, and how much is in flight.
pub fn levels(
    alloc: Global,
    queue: u64,
    trimmed: u64,
    levels: Levels,
    flight: u64,
) -> Result<AnswerText, OutOfMemory>
    ensures { IfOk result (λ text.
        text ≡ ok (codes "queue" ∷ decimal queue ∷ codes "trimmed" ∷ decimal trimmed
        ∷ codes "read" ∷ decimal levels.read ∷ codes "done" ∷ decimal levels.done ∷ codes "flight"
        ∷ decimal flight ∷ [])) }
{
    ok(
        alloc,
        &[
            Word::Plain("queue"),
            Word::Number(queue),
            Word::Plain("trimmed"),
            Word::Number(trimmed),
            Word::Plain("read"),
            Word::Number(levels.read),
            Word::Plain("done"),
            Word::Number(levels.done),
            Word::Plain("flight"),
            Word::Number(flight),
        ],
    )
}

/// What came of `work`.
pub fn worked(alloc: Global, tally: Tally) -> Result<AnswerText, OutOfMemory>
    ensures { IfOk result (λ text.
        text ≡ ok (codes "learned" ∷ decimal tally.learned ∷ codes "known" ∷ decimal tally.known
        ∷ codes "putoff" ∷ decimal tally.put_off ∷ codes "reapplied" ∷ decimal tally.applied
        ∷ [])) }
{
    ok(
        alloc,
        &[
            Word::Plain("learned"),
            Word::Number(tally.learned),
            Word::Plain("known"),
            Word::Number(tally.known),
            Word::Plain("putoff"),
            Word::Number(tally.put_off),
            Word::Plain("reapplied"),
            Word::Number(tally.applied),
        ],
    )
}

/// What came of messages that arrived: `resend` and `mergeletters`.
pub fn arrived(alloc: Global, tally: Tally) -> Result<AnswerText, OutOfMemory>
    ensures { IfOk result (λ text.
        text ≡ ok (codes "arrived" ∷ decimal tally.arrived ∷ codes "learned" ∷ decimal tally.learned
        ∷ [])) }
{
    ok(
        alloc,
        &[
            Word::Plain("arrived"),
            Word::Number(tally.arrived),
            Word::Plain("learned"),
            Word::Number(tally.learned),
        ],
    )
}

/// What came of `bootstrap`, of so many domains.
pub fn brought(alloc: Global, domains: u64, tally: Tally) -> Result<AnswerText, OutOfMemory>
    ensures { IfOk result (λ text.
        text ≡ ok (codes "domains" ∷ decimal domains ∷ codes "arrived" ∷ decimal tally.arrived
        ∷ codes "learned" ∷ decimal tally.learned ∷ [])) }
{
    ok(
        alloc,
        &[
            Word::Plain("domains"),
            Word::Number(domains),
            Word::Plain("arrived"),
            Word::Number(tally.arrived),
            Word::Plain("learned"),
            Word::Number(tally.learned),
        ],
    )
}

/// What came of `settle`.
pub fn settled(alloc: Global, tally: Tally) -> Result<AnswerText, OutOfMemory>
    ensures { IfOk result (λ text.
        text ≡ ok (codes "learned" ∷ decimal tally.learned ∷ codes "reapplied"
        ∷ decimal tally.applied ∷ [])) }
{
    ok(
        alloc,
        &[
            Word::Plain("learned"),
            Word::Number(tally.learned),
            Word::Plain("reapplied"),
            Word::Number(tally.applied),
        ],
    )
}

/// Appends which batch is put off.
fn push_put_off(text: &mut Vec<u8>, gap: &GapOf) -> Result<(), OutOfMemory>
    ensures { OnOk result (text.new.items ≡ text.old.items ++ gap_head gap.now) }
{
    text.extend_from_slice(b"gap ")?;
    text.extend_from_slice(gap.domain.as_bytes())?;
    text.extend_from_slice(b" ")?;
    text.extend_from_slice(gap.workflow.as_bytes())?;
    text.extend_from_slice(b" ")?;
    push_key(text, gap.key)
}

/// Appends between which events the gap lies, and what is missing.
fn push_ends(text: &mut Vec<u8>, gap: &GapOf) -> Result<(), OutOfMemory>
    ensures { OnOk result (text.new.items ≡ text.old.items ++ gap_ends gap.now) }
{
    text.extend_from_slice(b" after ")?;
    push_item(text, gap.gap.after)?;
    text.extend_from_slice(b" before ")?;
    push_item(text, gap.gap.before)?;
    text.extend_from_slice(b" missing ")?;
    push_key(text, gap.missing)?;
    text.extend_from_slice(b"\n")
}

/// Appends the line of a gap.
fn push_gap(text: &mut Vec<u8>, gap: &GapOf) -> Result<(), OutOfMemory>
    ensures { OnOk result (text.new.items ≡ text.old.items ++ gap_text gap.now) }
{
    push_put_off(text, gap)?;
    push_ends(text, gap)
}

/// How many batches are put off, and a line for each.
pub fn gaps(alloc: Global, gaps: &[GapOf]) -> Result<AnswerText, OutOfMemory>
    ensures { IfOk result (λ text.
        text ≡ ok (decimal (length gaps.now) ∷ []) ++ flat_map gap_text gaps.now) }
{
    let mut text = count_line(alloc, gaps.len() as u64)?;
    for gap in gaps {
        push_gap(&mut text, gap)?;
    }
    Ok(AnswerText::done(text))
}
