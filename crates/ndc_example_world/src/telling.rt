//! What is told, piece by piece.
use ndc_event::OutOfMemory;
use ndc_text::line::push_number;
use ndc_world::Summary;

/// Appends a word and a number after it.
pub(crate) fn push_count(text: &mut Vec<u8>, word: &[u8], number: u64) -> Result<(), OutOfMemory> {
    text.extend_from_slice(word)?;
    push_number(text, number)
}

/// `yes` or `no`.
pub(crate) fn answer_of(is: bool) -> &'static [u8] {
    if is { b"yes" } else { b"no" }
}

/// Appends a line with a question, and `yes` or `no`.
pub(crate) fn push_answer(
    text: &mut Vec<u8>,
    question: &[u8],
    is: bool,
) -> Result<(), OutOfMemory> {
    text.extend_from_slice(question)?;
    text.extend_from_slice(answer_of(is))?;
    text.extend_from_slice(b"\n")
}

/// Appends the line on a settlement.
pub(crate) fn settled_line(
    text: &mut Vec<u8>,
    learned: u64,
    reapplied: u64,
) -> Result<(), OutOfMemory> {
    push_count(text, b"settled: learned ", learned)?;
    push_count(text, b", applied again ", reapplied)?;
    text.extend_from_slice(b"\n")
}

/// Appends the line on what a world comes to.
pub(crate) fn summary_line(text: &mut Vec<u8>, summary: &Summary) -> Result<(), OutOfMemory> {
    push_count(text, b"in all: answers ", summary.answers)?;
    push_count(text, b", refused ", summary.refused)?;
    push_count(text, b", batches ", summary.batches)?;
    push_count(text, b", branches ", summary.branches)?;
    push_answer(text, b", all clusters alike: ", summary.same)
}
