// The first lines of a dump.
ghost use Rattle.std.specs.Prelude.{◌≡◌, ◌==◌, IfOk, map, take};
ghost use Rattle.std.specs.List.{slice_split};
ghost use Rattle.ndc_event.specs.Outcome.{Gives};
ghost use Rattle.ndc_dump_causes.specs.declared.error.DumpError.TheVariants.{Memory};
ghost use Rattle.ndc_dump.specs.Frame.{begins_batch, body_of, form_of, begins_first, heading_in, heading_of, heading_with, named};

use crate::cut::without_end;
use ndc_dump_causes::{DumpError, LineCause};
use ndc_event::{Name, NameError, OutOfMemory};
use ndc_text::TextForm;
use std::alloc::{AllocError, Global};

/// What the first line of a dump says.
#[derive(Drop)]
pub(crate) struct Heading {
    /// The form of the batches' texts.
    pub(crate) form: TextForm,
    pub(crate) domain: Name,
    pub(crate) workflow: Name,
}

/// The form with this number.
fn form_of(word: &[u8]) -> Option<TextForm>
    ensures { result ≡ form_of word.now }
{
    if word == b"1".as_slice() {
        Some(TextForm::One)
    } else if word == b"2".as_slice() {
        Some(TextForm::Two)
    } else {
        None
    }
}

/// The name that bytes are.
fn named(alloc: Global, bytes: &[u8]) -> Result<Option<Name>, OutOfMemory>
    ensures { IfOk result (λ name. name ≡ named bytes.now) }
{
    match Name::new(alloc, bytes) {
        Ok(name) => Ok(Some(name)),
        Err(NameError::Memory) => Err(AllocError),
        Err(_) => Ok(None),
    }
}

/// The heading with this word, form and names.
fn heading_with(
    word: &[u8],
    form: Option<TextForm>,
    domain: Option<Name>,
    workflow: Option<Name>,
) -> Option<Heading>
    ensures { result ≡ heading_with word.now form domain workflow }
{
    if word != b"dump".as_slice() {
        return None;
    }
    match (form, domain, workflow) {
        (Some(form), Some(domain), Some(workflow)) => Some(Heading {
            form,
            domain,
            workflow,
        }),
        _ => None,
    }
}

/// The heading of these words.
fn heading_in(alloc: Global, words: &[&[u8]]) -> Result<Option<Heading>, OutOfMemory>
    ensures { IfOk result (λ heading. heading ≡ heading_in (map (λ word. word.now) words.now)) }
{
    match words {
        [word, number, domain, workflow] => Ok(heading_with(
            word,
            form_of(number),
            named(alloc, domain)?,
            named(alloc, workflow)?,
        )),
        _ => Ok(None),
    }
}

/// The first words of a line, with single spaces between them: as many as a heading has, and one more.
fn first_words(alloc: Global, line: &[u8]) -> Result<Vec<&[u8]>, OutOfMemory>
    ensures { IfOk result (λ words.
        map (λ word. word.now) words.items ≡ take 5 (slice_split (λ byte. byte == 32) line.now)) }
{
    line.split(|byte| *byte == b' ').take(5).collect(alloc)
}

/// The heading of a line.
fn heading_on(alloc: Global, line: &[u8]) -> Result<Option<Heading>, OutOfMemory>
    ensures { IfOk result (λ heading.
        heading ≡ heading_in (slice_split (λ byte. byte == 32) line.now)) }
{
    let words = first_words(alloc, line)?;
    heading_in(alloc, words.as_slice())
}

/// The heading of the first line.
pub(crate) fn heading_of(alloc: Global, lines: &[&[u8]]) -> Result<Heading, DumpError>
    ensures { Gives Memory (λ heading.
        heading) result (heading_of (map (λ line. line.now) lines.now)) }
{
    let fault = DumpError::Line {
        line: 1,
        cause: LineCause::BadFrame,
    };
    let Some(line) = lines.first() else {
        return Err(fault);
    };
    match heading_on(alloc, without_end(line))? {
        Some(heading) => Ok(heading),
        None => Err(fault),
    }
}

/// Whether a line is that of a batch.
pub(crate) fn begins_batch(line: &[u8]) -> bool
    ensures { result ≡ begins_batch line.now }
{
    match line.first() {
        Some(byte) => *byte == b'{',
        None => false,
    }
}

/// The lines after the first one, of which the next is that of a batch.
pub(crate) fn body_of<'l, 'b>(lines: &'l [&'b [u8]]) -> Result<&'l [&'b [u8]], DumpError>
    ensures { Gives Memory (λ body. map (λ line. line.now) body.now) result
        (body_of (map (λ line. line.now) lines.now)) }
{
    match lines {
        [_, body @ ..] => {
            if begins_first(body) {
                Ok(body)
            } else {
                Err(DumpError::Line {
                    line: 2,
                    cause: LineCause::BadFrame,
                })
            }
        }
        [] => Err(DumpError::Line {
            line: 2,
            cause: LineCause::BadFrame,
        }),
    }
}

/// Whether there is a first line and it is that of a batch.
fn begins_first(lines: &[&[u8]]) -> bool
    ensures { result ≡ begins_first (map (λ line. line.now) lines.now) }
{
    match lines.first() {
        Some(line) => begins_batch(line),
        None => false,
    }
}
