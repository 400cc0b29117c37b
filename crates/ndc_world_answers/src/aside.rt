ghost use Rattle.std.specs.Prelude.{◌≡◌, ◌<◌, ◌++◌, [], ◌∷◌, codes, decimal, length, map, IfOk, OnOk};
ghost use Rattle.std.specs.List.{AllByRecursion, flat_map};
ghost use Rattle.ndc_domain.specs.Clusters.{count_of};
ghost use Rattle.ndc_model.specs.Letters.{letter_line, letters_answer};
ghost use Rattle.ndc_model.specs.Texts.{ok};

use crate::text::AnswerText;
use crate::word::{Word, count_line, ok};
use ndc_event::OutOfMemory;
use ndc_letters::Letter;
use ndc_script_types::Header;
use ndc_text::line::{push_key, push_number};
use std::alloc::Global;

/// What came was read as the batch that was sent.
pub fn whole(alloc: Global) -> Result<AnswerText, OutOfMemory>
    ensures { IfOk result (λ text. text ≡ ok (codes "whole" ∷ [])) }
{
    ok(alloc, &[Word::Plain("whole")])
}

/// What came was set aside.
pub fn set_aside(alloc: Global) -> Result<AnswerText, OutOfMemory>
    ensures { IfOk result (λ text. text ≡ ok (codes "aside" ∷ [])) }
{
    ok(alloc, &[Word::Plain("aside")])
}

/// Appends the line of a letter.
fn push_letter(text: &mut Vec<u8>, header: &Header, letter: &Letter) -> Result<(), OutOfMemory>
    requires { letter.now.source.number < count_of header.now.clusters }
    ensures { OnOk result (text.new.items ≡ text.old.items ++ letter_line header.now letter.now) }
{
    text.extend_from_slice(b"letter ")?;
    text.extend_from_slice(header.clusters.name(letter.source).as_bytes())?;
    text.extend_from_slice(b" ")?;
    text.extend_from_slice(letter.domain.as_bytes())?;
    text.extend_from_slice(b" ")?;
    text.extend_from_slice(letter.workflow.as_bytes())?;
    text.extend_from_slice(b" ")?;
    push_key(text, letter.key)?;
    text.extend_from_slice(b" ")?;
    push_number(text, letter.bytes.as_slice().len() as u64)?;
    text.extend_from_slice(b"\n")
}

/// How many letters there are, and a line for each.
pub fn letters(
    alloc: Global,
    header: &Header,
    letters: &[Letter],
) -> Result<AnswerText, OutOfMemory>
    requires { AllByRecursion (λ letter.
        letter.source.number < count_of header.now.clusters) letters.now }
    ensures { IfOk result (λ text. text ≡ letters_answer header.now letters.now) }
{
    let mut text = count_line(alloc, letters.len() as u64)?;
    for letter in letters {
        push_letter(&mut text, header, letter)?;
    }
    Ok(AnswerText::done(text))
}
