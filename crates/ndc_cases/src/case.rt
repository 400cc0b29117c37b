//! A case of a transcript: a call, and what it has to answer.
ghost use Rattle.std.specs.Prelude.{◌≡◌, ◌≤◌, ◌++◌, ◌∷◌, [], OnOk, IfOk};
ghost use Rattle.ndc_event.specs.Outcome.{Gives};
ghost use Rattle.ndc_cases.specs.Case.{digit_of, byte_of, hex_of, lines_of, many_of, status_of};
ghost use Rattle.ndc_cases.specs.declared.case.CaseError.TheVariants.{Memory};

use crate::line::{Mark, mark_of, parts_of};
use ndc_event::OutOfMemory;
use ndc_script_words::number_of;
use std::alloc::{AllocError, AllocFailed, Global};
use std::marker::Model;

/// Why a line belongs to no transcript.
#[derive(Clone, Copy, Debug, PartialEq, Eq)]
pub enum CaseError {
    /// It is not a line of a transcript.
    Form,
    /// There was not memory enough for the case.
    Memory,
}

impl From<AllocError> for CaseError {
    ghost use Rattle.std.specs.Prelude.{◌≡◌};
    ghost use Rattle.ndc_cases.specs.declared.case.CaseError.TheVariants.{Memory};

    ghost from_gives = { λ _ e. e ≡ Memory };

    fn from(_error: AllocError) -> CaseError {
        CaseError::Memory
    }
}

impl<T: Drop> From<AllocFailed<T>> for CaseError {
    ghost use Rattle.std.specs.Prelude.{◌≡◌};
    ghost use Rattle.ndc_cases.specs.declared.case.CaseError.TheVariants.{Memory};

    ghost from_gives = { λ _ e. e ≡ Memory };

    fn from(_error: AllocFailed<T>) -> CaseError {
        CaseError::Memory
    }
}

/// A call, its input, and what it has to answer.
#[derive(Drop)]
pub struct Case {
    name: Vec<u8>,
    words: Vec<u8>,
    input: Vec<u8>,
    output: Vec<u8>,
    told: Vec<u8>,
    status: u8,
}

impl Model for Case {
    ghost use Rattle.ndc_cases.specs.Case.{Case};

    ghost Value = { Case };

    ghost view = { λ case. record {
      name = case.name.items;
      words = case.words.items;
      input = case.input.items;
      output = case.output.items;
      told = case.told.items;
      status = case.status;
    } };
}

/// Appends a line.
fn push_line(text: &mut Vec<u8>, line: &[u8]) -> Result<(), OutOfMemory>
    ensures { OnOk result (text.new.items ≡ text.old.items ++ line.now ++ 10 ∷ []) }
{
    text.extend_from_slice(line)?;
    text.extend_from_slice(b"\n")
}

/// The value of a hexadecimal digit.
fn digit_of(byte: u8) -> Option<u8>
    ensures { result ≡ digit_of byte }
{
    if 48 <= byte && byte <= 57 {
        Some(byte - 48)
    } else if 97 <= byte && byte <= 102 {
        Some(byte - 87)
    } else {
        None
    }
}

/// The byte of two hexadecimal digits.
fn byte_of(high: u8, low: u8) -> Result<u8, CaseError>
    ensures { result ≡ byte_of high low }
{
    match (digit_of(high), digit_of(low)) {
        (Some(high), Some(low)) => Ok(high * 16 + low),
        _ => Err(CaseError::Form),
    }
}

/// The bytes of hexadecimal digits.
#[tactic(auto, unfolding(crate::specs::Case::hex_of))]
fn hex_of(alloc: Global, text: &[u8]) -> Result<Vec<u8>, CaseError>
    ensures { Gives Memory (λ bytes. bytes.items) result (hex_of text.now) }
{
    let mut bytes = Vec::new(alloc);
    let mut left = text;
    while left.len() >= 2 {
        let (pair, rest) = left.split_at(2);
        let byte = byte_of(pair[0], pair[1])?;
        bytes.push(byte)?;
        left = rest;
    }
    if left.is_empty() {
        Ok(bytes)
    } else {
        Err(CaseError::Form)
    }
}

/// A line so many times.
fn lines_of(alloc: Global, count: u64, line: &[u8]) -> Result<Vec<u8>, OutOfMemory>
    ensures { IfOk result (λ lines. lines.items ≡ lines_of count line.now) }
{
    let mut lines = Vec::new(alloc);
    for _made in 0..count {
        push_line(&mut lines, line)?;
    }
    Ok(lines)
}

/// The lines of `COUNT TEXT`.
#[tactic(auto, unfolding(crate::specs::Case::many_of))]
fn many_of(alloc: Global, text: &[u8]) -> Result<Vec<u8>, CaseError>
    ensures { Gives Memory (λ lines. lines.items) result (many_of text.now) }
{
    let (count, line) = parts_of(text);
    match number_of(count) {
        Some(count) => Ok(lines_of(alloc, count, line)?),
        None => Err(CaseError::Form),
    }
}

/// The status that a text names.
fn status_of(text: &[u8]) -> Result<u8, CaseError>
    ensures { result ≡ status_of text.now }
{
    match text {
        [digit] if 48 <= *digit && *digit <= 57 => Ok(*digit - 48),
        _ => Err(CaseError::Form),
    }
}

impl Case {
    ghost use Rattle.std.specs.Prelude.{◌≡◌};
    ghost use Rattle.ndc_event.specs.Outcome.{Gives};
    ghost use Rattle.ndc_cases.specs.Case.{no_case, marked, with_line};
    ghost use Rattle.ndc_cases.specs.declared.case.CaseError.TheVariants.{Memory};

    /// A case of which no line was read.
    pub fn new(alloc: Global) -> Case
        ensures { result ≡ no_case }
    {
        Case {
            name: Vec::new(alloc),
            words: Vec::new(alloc),
            input: Vec::new(alloc),
            output: Vec::new(alloc),
            told: Vec::new(alloc),
            status: 0,
        }
    }

    /// Its name.
    pub fn name(&self) -> &[u8]
        ensures { result.now ≡ self.now.name }
    {
        &self.name
    }

    /// The words of its call.
    pub fn words(&self) -> &[u8]
        ensures { result.now ≡ self.now.words }
    {
        &self.words
    }

    /// What it reads.
    pub fn input(&self) -> &[u8]
        ensures { result.now ≡ self.now.input }
    {
        &self.input
    }

    /// What it has to print.
    pub fn output(&self) -> &[u8]
        ensures { result.now ≡ self.now.output }
    {
        &self.output
    }

    /// What it has to print on standard error.
    pub fn told(&self) -> &[u8]
        ensures { result.now ≡ self.now.told }
    {
        &self.told
    }

    /// The status that it has to end with.
    pub fn status(&self) -> u8
        ensures { result ≡ self.now.status }
    {
        self.status
    }

    /// The case after a line with this mark and text.
    #[tactic(auto, unfolding(crate::specs::Case::marked))]
    fn marked(self, alloc: Global, mark: Mark, text: &[u8]) -> Result<Case, CaseError>
        ensures { Gives Memory (λ case. case) result (marked self mark text.now) }
    {
        let mut case = self;
        match mark {
            Mark::Comment => {}
            Mark::Name => case.name.extend_from_slice(text)?,
            Mark::Words => case.words.extend_from_slice(text)?,
            Mark::Input => push_line(&mut case.input, text)?,
            Mark::LastInput => case.input.extend_from_slice(text)?,
            Mark::HexInput => case.input.extend_from_slice(&hex_of(alloc, text)?)?,
            Mark::ManyInput => case.input.extend_from_slice(&many_of(alloc, text)?)?,
            Mark::Output => push_line(&mut case.output, text)?,
            Mark::LastOutput => case.output.extend_from_slice(text)?,
            Mark::Told => push_line(&mut case.told, text)?,
            Mark::Status => case.status = status_of(text)?,
        }
        Ok(case)
    }

    /// The case after a line that is not empty. Refused where it is not a line of a transcript.
    #[tactic(auto, unfolding(crate::specs::Case::with_line))]
    pub fn with_line(self, alloc: Global, line: &[u8]) -> Result<Case, CaseError>
        ensures { Gives Memory (λ case. case) result (with_line self line.now) }
    {
        let (word, text) = parts_of(line);
        match mark_of(word) {
            Some(mark) => self.marked(alloc, mark, text),
            None => Err(CaseError::Form),
        }
    }
}
