//! An indexer that counts its calls.
use ndc_event::OutOfMemory;
use ndc_index::{Indexer, OpenIndexer, Seen, ToldError};
use std::alloc::Global;
use std::sync::Arc;
use std::sync::atomic::{AtomicU64, Ordering};

/// The indexer `open`, whose calls of `told` are counted where others can read the count.
#[derive(Drop)]
pub struct Counting {
    open: OpenIndexer,
    calls: Arc<AtomicU64, Global>,
}

impl Counting {
    ghost use Rattle.std.specs.Prelude.{◌≡◌, []};

    /// The indexer that was told nothing, and adds its calls to this count.
    pub(crate) fn new(alloc: Global, calls: Arc<AtomicU64, Global>) -> Counting
        ensures { result.open ≡ [] }
    {
        Counting {
            open: OpenIndexer::new(alloc),
            calls,
        }
    }
}

impl Indexer for Counting {
    ghost use Rattle.std.specs.Prelude.{[], codes};
    ghost use Rattle.ndc_index.specs.Texts.{events_told, open_text};

    ghost title = { λ _. codes "open" };

    ghost list = { λ counting. counting.open };

    ghost failing = { λ _. [] };

    ghost text = { λ counting. open_text (events_told counting.open) };

    fn name(&self) -> &str {
        "open"
    }

    fn told(&mut self, seen: &Seen) -> Result<(), ToldError> {
        self.calls.fetch_add(1, Ordering::SeqCst);
        self.open.told(seen)
    }

    fn line(&self, into: &mut Vec<u8>) -> Result<(), OutOfMemory> {
        self.open.line(into)
    }
}
