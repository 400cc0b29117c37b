use ndc_event::OutOfMemory;
use ndc_port::{Failed, Source};
use std::alloc::{AllocError, AllocFailed, Global};

/// Why no line comes.
#[derive(Clone, Copy, Debug, PartialEq, Eq)]
pub(crate) enum LineError {
    /// The source fails.
    Source,
    Memory,
}

impl From<AllocError> for LineError {
    fn from(_error: AllocError) -> LineError {
        LineError::Memory
    }
}

impl<T: Drop> From<AllocFailed<T>> for LineError {
    fn from(_error: AllocFailed<T>) -> LineError {
        LineError::Memory
    }
}

impl From<Failed> for LineError {
    fn from(_failed: Failed) -> LineError {
        LineError::Source
    }
}

/// How many bytes are read at once.
const PIECE: usize = 4096;

/// Lines of a source, as they come.
pub(crate) struct Lines {
    alloc: Global,
    /// What was read and not given yet.
    left: Vec<u8>,
    /// Whether the source has ended.
    is_over: bool,
}

impl Drop for Lines {
    fn drop(self) {
        let Lines {
            alloc: _alloc,
            left: _left,
            is_over: _is_over,
        } = self;
    }
}

impl Lines {
    /// No line was read.
    pub(crate) fn new(alloc: Global) -> Lines {
        Lines {
            alloc,
            left: Vec::new(alloc),
            is_over: false,
        }
    }

    /// The next line, without its end. None where there is none.
    pub(crate) fn next<S: Source>(&mut self, source: &mut S) -> Result<Option<Vec<u8>>, LineError> {
        let mut looked: usize = 0;
        for _piece in 0..u64::MAX {
            if let Some(place) = self.end_after(looked) {
                return Ok(Some(self.take(place)?));
            }
            looked = self.left.len();
            if self.is_over {
                return self.last();
            }
            self.read_more(source)?;
        }
        Err(LineError::Source)
    }

    /// Where the first line ends, of which the first bytes were looked at.
    fn end_after(&self, looked: usize) -> Option<usize> {
        let (_, rest) = self.left.as_slice().split_at(looked.min(self.left.len()));
        let place = rest.iter().position(|byte| *byte == b'\n')?;
        Some(looked.min(self.left.len()).saturating_add(place))
    }

    /// Takes the line out that ends at a place.
    fn take(&mut self, place: usize) -> Result<Vec<u8>, OutOfMemory> {
        let mut line = Vec::new(self.alloc);
        let mut rest = Vec::new(self.alloc);
        let (first, after) = self.left.as_slice().split_at(place.min(self.left.len()));
        line.extend_from_slice(first)?;
        if let [_, after @ ..] = after {
            rest.extend_from_slice(after)?;
        }
        self.left = rest;
        Ok(line)
    }

    /// What is left where the source has ended: a line, where it is not empty.
    fn last(&mut self) -> Result<Option<Vec<u8>>, LineError> {
        if self.left.is_empty() {
            return Ok(None);
        }
        let len = self.left.len();
        Ok(Some(self.take(len)?))
    }

    /// Reads some bytes more.
    fn read_more<S: Source>(&mut self, source: &mut S) -> Result<(), LineError> {
        let mut piece = vec![in self.alloc; 0; PIECE]?;
        let count = source.read(piece.as_mut_slice())?;
        if count == 0 {
            self.is_over = true;
            return Ok(());
        }
        let (read, _) = piece.as_slice().split_at(count.min(piece.len()));
        self.left.extend_from_slice(read)?;
        Ok(())
    }
}
