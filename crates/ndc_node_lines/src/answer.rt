use crate::reply::{Code, Reply};
use ndc_event::OutOfMemory;
use ndc_text::line::push_number;
use ndc_world_answers::AnswerText;
use std::alloc::Global;

/// The lines that are answered to one line, and what became of it.
pub(crate) struct Answer {
    alloc: Global,
    number: u64,
    code: Code,
    has_changed: bool,
    text: Vec<u8>,
}

impl Drop for Answer {
    fn drop(self) {
        let Answer {
            alloc: _alloc,
            number: _number,
            code: _code,
            has_changed: _has_changed,
            text: _text,
        } = self;
    }
}

impl Answer {
    /// No line yet, to the line of this number.
    pub(crate) fn new(alloc: Global, number: u64) -> Answer {
        Answer {
            alloc,
            number,
            code: Code::Done,
            has_changed: false,
            text: Vec::new(alloc),
        }
    }

    /// Where its memory comes from.
    pub(crate) fn alloc(&self) -> Global {
        self.alloc
    }

    /// Whether the line changed the node.
    pub(crate) fn has_changed(&self) -> bool {
        self.has_changed
    }

    /// Notes whether the line changed the node.
    pub(crate) fn note(&mut self, has_changed: bool) {
        self.has_changed = has_changed;
    }

    /// The reply that it is.
    pub(crate) fn into_reply(self) -> Reply {
        let Answer {
            alloc: _alloc,
            number: _number,
            code,
            has_changed: _has_changed,
            text,
        } = self;
        Reply { code, text }
    }

    /// Appends words as they are.
    pub(crate) fn push(&mut self, words: &[u8]) -> Result<(), OutOfMemory> {
        self.text.extend_from_slice(words)
    }

    /// Appends a space and a number.
    pub(crate) fn push_number(&mut self, number: u64) -> Result<(), OutOfMemory> {
        self.text.extend_from_slice(b" ")?;
        push_number(&mut self.text, number)
    }

    /// Begins the line that says what came of the line.
    pub(crate) fn begin(&mut self, words: &[u8]) -> Result<(), OutOfMemory> {
        push_number(&mut self.text, self.number)?;
        self.text.extend_from_slice(b" ")?;
        self.text.extend_from_slice(words)
    }

    /// Ends a line.
    pub(crate) fn end(&mut self) -> Result<(), OutOfMemory> {
        self.text.extend_from_slice(b"\n")
    }

    /// The line was done.
    pub(crate) fn done(&mut self) -> Result<(), OutOfMemory> {
        self.begin(b"ok")?;
        self.end()
    }

    /// The line was done; this many things came of it.
    pub(crate) fn count(&mut self, number: u64) -> Result<(), OutOfMemory> {
        self.begin(b"ok")?;
        self.push_number(number)?;
        self.end()
    }

    /// The line was not done, for this cause.
    pub(crate) fn refuse(&mut self, code: Code, cause: &[u8]) -> Result<(), OutOfMemory> {
        self.code = code;
        self.begin(b"refused ")?;
        self.push(cause)?;
        self.end()
    }

    /// What came of the line, as a script's line answers it.
    pub(crate) fn tell(&mut self, answer: AnswerText) -> Result<(), OutOfMemory> {
        if answer.is_refusal() {
            self.code = Code::Refused;
        }
        answer.push_behind_number(&mut self.text, self.number)
    }
}
