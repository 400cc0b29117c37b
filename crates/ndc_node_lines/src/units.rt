use ndc_event::OutOfMemory;
use ndc_text::line::push_number;
use std::alloc::Global;
use std::collections::VecDeque;

/// The units that are not stored yet: one for each line that changed the node, numbered without a hole.
pub(crate) struct Units {
    alloc: Global,
    /// Their texts, in order.
    waiting: VecDeque<Vec<u8>>,
    /// The number of the last one that was made.
    last: u64,
}

impl Drop for Units {
    fn drop(self) {
        let Units {
            alloc: _alloc,
            waiting: _waiting,
            last: _last,
        } = self;
    }
}

impl Units {
    /// None waits; so many were made before.
    pub(crate) fn after(alloc: Global, last: u64) -> Units {
        Units {
            alloc,
            waiting: VecDeque::new(alloc),
            last,
        }
    }

    /// The number of the last unit that was made.
    pub(crate) fn last(&self) -> u64 {
        self.last
    }

    /// The number of the first unit that waits; where none does, that of the next one to be made.
    pub(crate) fn next(&self) -> u64 {
        let waiting = self.waiting.len() as u64;
        self.last.saturating_sub(waiting).saturating_add(1)
    }

    /// The first unit that waits.
    pub(crate) fn first(&self) -> Option<&[u8]> {
        match self.waiting.front() {
            Some(unit) => Some(unit.as_slice()),
            None => None,
        }
    }

    /// Adds the unit of a line, which is given by its first word and what follows it.
    pub(crate) fn push(&mut self, word: &[u8], rest: &[u8]) -> Result<(), OutOfMemory> {
        let number = self.last.saturating_add(1);
        let text = unit_text(self.alloc, number, word, rest)?;
        self.waiting.push_back(text)?;
        self.last = number;
        Ok(())
    }

    /// Lets go of all units up to a number: whether the unit of this number was waiting. Else nothing changes.
    pub(crate) fn let_go(&mut self, number: u64) -> bool {
        let waiting = self.waiting.len() as u64;
        if self.last < number || self.last - number >= waiting {
            return false;
        }
        let stay = self.last - number;
        for _unit in stay..waiting {
            self.waiting.pop_front();
        }
        true
    }
}

/// The text of a unit: its number, the line, and its number again, by which it is known to be whole.
fn unit_text(alloc: Global, number: u64, word: &[u8], rest: &[u8]) -> Result<Vec<u8>, OutOfMemory> {
    let mut text = Vec::new(alloc);
    text.extend_from_slice(b"unit ")?;
    push_number(&mut text, number)?;
    text.extend_from_slice(b"\n")?;
    text.extend_from_slice(word)?;
    if !rest.is_empty() {
        text.extend_from_slice(b" ")?;
        text.extend_from_slice(rest)?;
    }
    text.extend_from_slice(b"\nend ")?;
    push_number(&mut text, number)?;
    text.extend_from_slice(b"\n")?;
    Ok(text)
}
