use crate::word::push_written;
use ndc_event::OutOfMemory;
use ndc_model_cells::Written;
use ndc_text::line::push_number;
use std::alloc::Global;
use std::marker::Model;

/// The text of an answer, which knows whether it is a refusal. Seen as its bytes. That of a line that wrote is made of the
/// keys where it goes, after its number.
#[derive(Drop)]
pub struct AnswerText {
    written: Option<Written>,
    text: Vec<u8>,
    refused: bool,
}

impl Model for AnswerText {
    ghost use Rattle.std.specs.Prelude.{◌≡◌, ℕ, List};
    ghost use Rattle.ndc_model.specs.Laws.{is_refusal};
    ghost use Rattle.ndc_world_answers.specs.Words.{text_of};

    ghost Value = { List ℕ };

    ghost view = { λ answer. text_of answer.written answer.text.items };

    ghost invariant = { λ answer.
        answer.refused ≡ is_refusal (text_of answer.written answer.text.items) };
}

/// How much memory a number and the space after it take at most.
const NUMBER_ROOM: usize = 21;

/// How much memory the keys of what was written are given: most have room in it.
const KEYS_ROOM: usize = 40;

impl AnswerText {
    ghost use Rattle.std.specs.Prelude.{◌≡◌, ◌++◌, [], codes, decimal, false, true, IfOk, OnOk};
    ghost use Rattle.ndc_model.specs.Laws.{is_refusal};
    ghost use Rattle.ndc_model.specs.Steps.{written_words};
    ghost use Rattle.ndc_model.specs.Texts.{ok};

    /// No answer at all.
    pub fn empty(alloc: Global) -> AnswerText
        ensures { result ≡ [] }
    {
        AnswerText {
            written: None,
            text: Vec::new(alloc),
            refused: false,
        }
    }

    /// The answer of a line that was done.
    pub(crate) fn done(text: Vec<u8>) -> AnswerText
        requires { is_refusal text.items ≡ false }
        ensures { result ≡ text.items }
    {
        AnswerText {
            written: None,
            text,
            refused: false,
        }
    }

    /// The answer of a line that wrote.
    pub(crate) fn written(alloc: Global, written: Written) -> AnswerText
        ensures { result ≡ ok (written_words written) }
    {
        AnswerText {
            written: Some(written),
            text: Vec::new(alloc),
            refused: false,
        }
    }

    /// The answer of a line that was refused.
    pub(crate) fn refused(text: Vec<u8>) -> AnswerText
        requires { is_refusal text.items ≡ true }
        ensures { result ≡ text.items }
    {
        AnswerText {
            written: None,
            text,
            refused: true,
        }
    }

    /// Whether the line was refused: whether its answer begins with `refused`. The text is not looked at.
    pub fn is_refusal(&self) -> bool
        ensures { result ≡ is_refusal self.now }
    {
        self.refused
    }

    /// Appends the answer after the number of its line.
    pub fn push_behind_number(&self, text: &mut Vec<u8>, number: u64) -> Result<(), OutOfMemory>
        ensures { OnOk result (text.new.items
            ≡ text.old.items ++ (decimal number ++ codes " " ++ self.now)) }
    {
        push_number(text, number)?;
        text.extend_from_slice(b" ")?;
        match self.written {
            Some(written) => push_written(text, written),
            None => text.extend_from_slice(self.text.as_slice()),
        }
    }

    /// The answer after the number of its line, in memory that is asked for once.
    pub fn behind_number(&self, alloc: Global, number: u64) -> Result<Vec<u8>, OutOfMemory>
        ensures { IfOk result (λ text. text.items ≡ decimal number ++ codes " " ++ self.now) }
    {
        let room = self.text.len().saturating_add(NUMBER_ROOM + KEYS_ROOM);
        let mut text = Vec::with_capacity(alloc, room)?;
        self.push_behind_number(&mut text, number)?;
        Ok(text)
    }
}
