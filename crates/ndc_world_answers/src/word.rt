ghost use Rattle.std.specs.Prelude.{◌≡◌, ◌++◌, [], ◌∷◌, codes, decimal, map, IfOk, OnOk};
ghost use Rattle.ndc_model.specs.Steps.{written_words};
ghost use Rattle.ndc_model.specs.Texts.{ok, refused, spaced};
ghost use Rattle.ndc_world_answers.specs.Words.{word_text};

use crate::text::AnswerText;
use ndc_event::{BatchKey, OutOfMemory};
use ndc_model_cells::Written;
use ndc_text::line::{push_key, push_number};
use std::alloc::Global;

/// A word of an answer.
#[derive(Clone, Copy)]
pub(crate) enum Word<'a> {
    /// A fixed word.
    Plain(&'static str),
    /// Bytes as they are.
    Bytes(&'a [u8]),
    /// A number in decimal.
    Number(u64),
    /// `VERSION.TASK`.
    Key(BatchKey),
}

/// Appends a word after a space.
fn push_word(text: &mut Vec<u8>, word: Word) -> Result<(), OutOfMemory>
    ensures { OnOk result (text.new.items ≡ text.old.items ++ (codes " " ++ word_text word.entry)) }
{
    text.extend_from_slice(b" ")?;
    match word {
        Word::Plain(word) => text.extend_from_slice(word.as_bytes()),
        Word::Bytes(bytes) => text.extend_from_slice(bytes),
        Word::Number(number) => push_number(text, number),
        Word::Key(key) => push_key(text, key),
    }
}

/// Appends words, each after a space.
fn push_words(text: &mut Vec<u8>, words: &[Word]) -> Result<(), OutOfMemory>
    ensures { OnOk result (text.new.items ≡ text.old.items ++ spaced (map word_text words.now)) }
{
    for word in words {
        push_word(text, *word)?;
    }
    Ok(())
}

/// How much memory the first line of an answer is given at once: most have room in it.
const ROOM: usize = 40;

/// The first line of an answer: a word, and words after it.
fn line(alloc: Global, first: &'static str, words: &[Word]) -> Result<Vec<u8>, OutOfMemory>
    ensures { IfOk result (λ text.
        text.items ≡ first.now ++ spaced (map word_text words.now) ++ codes "\n") }
{
    let mut text = Vec::with_capacity(alloc, ROOM)?;
    text.extend_from_slice(first.as_bytes())?;
    push_words(&mut text, words)?;
    text.extend_from_slice(b"\n")?;
    Ok(text)
}

/// Appends the answer of a line that wrote: `ok`, and the keys.
pub(crate) fn push_written(text: &mut Vec<u8>, written: Written) -> Result<(), OutOfMemory>
    ensures { OnOk result (text.new.items ≡ text.old.items ++ ok (written_words written)) }
{
    text.extend_from_slice(b"ok ")?;
    push_key(text, written.key)?;
    if let Some(second) = written.second {
        text.extend_from_slice(b" ")?;
        push_key(text, second)?;
    }
    text.extend_from_slice(b"\n")
}

/// `ok` and a number: the first line of an answer of so many lines more, or of lines on so many things.
pub(crate) fn count_line(alloc: Global, number: u64) -> Result<Vec<u8>, OutOfMemory>
    ensures { IfOk result (λ text. text.items ≡ ok (decimal number ∷ [])) }
{
    line(alloc, "ok", &[Word::Number(number)])
}

/// `ok`, and the words.
pub(crate) fn ok(alloc: Global, words: &[Word]) -> Result<AnswerText, OutOfMemory>
    ensures { IfOk result (λ text. text ≡ ok (map word_text words.now)) }
{
    Ok(AnswerText::done(line(alloc, "ok", words)?))
}

/// `refused`, and the words.
pub(crate) fn refused(alloc: Global, words: &[Word]) -> Result<AnswerText, OutOfMemory>
    ensures { IfOk result (λ text. text ≡ refused (map word_text words.now)) }
{
    Ok(AnswerText::refused(line(alloc, "refused", words)?))
}
