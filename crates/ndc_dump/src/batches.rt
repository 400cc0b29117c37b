// The batches of a dump, line by line.
ghost use Rattle.std.specs.Prelude.{◌≡◌, ◌≤◌, length, map, true, None, IfOk};
ghost use Rattle.ndc_event.specs.Outcome.{Gives};
ghost use Rattle.ndc_text.specs.Read.{read_of};
ghost use Rattle.ndc_text.specs.declared.error.TextError.TheVariants as text;
ghost use Rattle.ndc_dump_causes.specs.declared.error.DumpError.TheVariants.{Memory};
ghost use Rattle.ndc_dump.specs.Batches.{batch_on, batches_on, out_of_order, is_behind, is_own, is_same_as, text_fault};
ghost use Rattle.ndc_dump_causes.specs.Given.{AreRead};

use crate::cut::without_end;
use crate::frame::{Heading, begins_batch};
use ndc_dump_causes::{DumpError, LineCause};
use ndc_event::{Batch, BatchKey, OutOfMemory};
use ndc_text::{TextError, TextForm, read_batch, read_batch_1};
use std::alloc::Global;

/// Why the text of the line with this number is not that of a batch.
fn text_fault(line: u64, error: TextError) -> DumpError
    ensures { result ≡ text_fault line error }
{
    let cause = match error {
        TextError::NotJson => LineCause::NotJson,
        TextError::MissingKey => LineCause::MissingKey,
        TextError::WrongKind => LineCause::WrongKind,
        TextError::ExtraKey => LineCause::ExtraKey,
        TextError::Range => LineCause::Range,
        TextError::NotCanonical => LineCause::NotCanonical,
        TextError::Check(fault) => LineCause::Check(fault),
        TextError::Memory => return DumpError::Memory,
    };
    DumpError::Line { line, cause }
}

/// The batch that a text of this form is.
fn read(alloc: Global, form: TextForm, bytes: &[u8]) -> Result<Batch, TextError>
    ensures { Gives text.Memory (λ batch. batch) result (read_of form bytes.now) }
{
    match form {
        TextForm::One => read_batch_1(alloc, bytes),
        TextForm::Two => read_batch(alloc, bytes),
    }
}

/// Whether a batch is of the heading's domain and workflow.
fn is_own(heading: &Heading, batch: &Batch) -> bool
    ensures { result ≡ is_own heading.now batch.now }
{
    batch.domain == heading.domain && batch.workflow == heading.workflow
}

/// Whether a key is that of the line before.
fn is_same_as(key: BatchKey, last: Option<BatchKey>) -> bool
    ensures { result ≡ is_same_as key last }
{
    match last {
        None => false,
        Some(last) => key == last,
    }
}

/// Whether a key comes before that of the line before.
fn is_behind(key: BatchKey, last: Option<BatchKey>) -> bool
    ensures { result ≡ is_behind key last }
{
    match last {
        None => false,
        Some(last) => key.is_before(last),
    }
}

/// What is wrong with a batch that was read, where something is: it is of another workflow, or does not come after
/// the one before.
fn out_of_order(heading: &Heading, last: Option<BatchKey>, batch: &Batch) -> Option<LineCause>
    ensures { result ≡ out_of_order heading.now last batch.now }
{
    if !is_own(heading, batch) {
        Some(LineCause::Foreign)
    } else if is_same_as(batch.key, last) {
        Some(LineCause::SameKey)
    } else if is_behind(batch.key, last) {
        Some(LineCause::BadOrder)
    } else {
        None
    }
}

/// The same batch of the heading's domain and workflow, by the heading's names, whose bytes are shared.
fn with_shared_names(heading: &Heading, batch: Batch) -> Result<Batch, OutOfMemory>
    requires { is_own heading.now batch ≡ true }
    ensures { IfOk result (λ shared. shared ≡ batch) }
{
    let mut shared = batch;
    shared.domain = heading.domain.try_copy()?;
    shared.workflow = heading.workflow.try_copy()?;
    Ok(shared)
}

/// The batch of the line with this number, after the batch with the last key.
#[tactic(auto, unfolding(crate::specs::Batches::batch_on))]
fn batch_on(
    alloc: Global,
    heading: &Heading,
    number: u64,
    last: Option<BatchKey>,
    line: &[u8],
) -> Result<Batch, DumpError>
    ensures { Gives Memory (λ batch. batch) result (batch_on heading.now number last line.now) }
{
    let batch = match read(alloc, heading.form, without_end(line)) {
        Ok(batch) => batch,
        Err(error) => return Err(text_fault(number, error)),
    };
    match out_of_order(heading, last, &batch) {
        None => Ok(with_shared_names(heading, batch)?),
        Some(cause) => Err(DumpError::Line {
            line: number,
            cause,
        }),
    }
}

/// The batches of the lines after the first one, up to the first line that is not a batch's.
fn batches_to(alloc: Global, heading: &Heading, lines: &[&[u8]]) -> Result<Vec<Batch>, DumpError>
    ensures { Gives Memory (λ batches.
        batches.items) result (batches_on heading.now 2 None (map (λ line. line.now) lines.now)) }
{
    let mut batches: Vec<Batch> = Vec::new(alloc);
    let mut last = None;
    let mut number = 2;
    for line in lines {
        if !begins_batch(line) {
            return Ok(batches);
        }
        let batch = batch_on(alloc, heading, number, last, line)?;
        last = Some(batch.key);
        batches.push(batch)?;
        number += 1;
    }
    Ok(batches)
}

/// The batches of the lines after the first one, up to the first line that is not a batch's: a set in range, with
/// not more batches than there are lines.
pub(crate) fn batches_on(
    alloc: Global,
    heading: &Heading,
    lines: &[&[u8]],
) -> Result<Vec<Batch>, DumpError>
    ensures gives { Gives Memory (λ batches.
        batches.items) result (batches_on heading.now 2 None (map (λ line. line.now) lines.now)) }
    ensures read { IfOk result (λ batches. AreRead batches.items) }
    ensures count { IfOk result (λ batches. length batches.items ≤ length lines.now) }
{
    batches_to(alloc, heading, lines)
}
