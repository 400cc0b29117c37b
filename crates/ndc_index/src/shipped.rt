ghost use Rattle.std.specs.Prelude.{◌≡◌, ◌++◌, codes, decimal, OnOk};
ghost use Rattle.ndc_index.specs.Texts.{events_told, open_text, signals_text};

use crate::indexer::{Counted, Indexer, ToldError};
use crate::seen::Seen;
use crate::tally::Tally;
use ndc_event::OutOfMemory;
use std::alloc::Global;
use std::marker::Model;

/// Appends two words with a number after each.
fn push_counts(
    into: &mut Vec<u8>,
    first: &str,
    firsts: u64,
    second: &str,
    seconds: u64,
) -> Result<(), OutOfMemory>
    ensures { OnOk result (into.new.items
        ≡ into.old.items ++ (first.now ++ decimal firsts ++ second.now ++ decimal seconds)) }
{
    let mut buffer = itoa::Buffer::new();
    into.extend_from_slice(first.as_bytes())?;
    into.extend_from_slice(buffer.format(firsts).as_bytes())?;
    into.extend_from_slice(second.as_bytes())?;
    into.extend_from_slice(buffer.format(seconds).as_bytes())
}

/// The indexer `open`: how many runs started and how many closed. Seen as the list of what it was told.
#[derive(Drop)]
pub struct OpenIndexer {
    tally: Tally,
}

impl Model for OpenIndexer {
    ghost use Rattle.std.specs.Prelude.{◌≡◌, List};
    ghost use Rattle.ndc_index.specs.declared.indexer.Counted.TheVariants.{Closes, Starts};
    ghost use Rattle.ndc_index.specs.declared.seen.Seen.{Seen};

    ghost Value = { List Seen };

    ghost view = { λ indexer. indexer.tally.list };

    ghost invariant = { λ indexer.
        (indexer.tally.first ≡ Starts) × (indexer.tally.second ≡ Closes) };
}

impl OpenIndexer {
    ghost use Rattle.std.specs.Prelude.{◌≡◌, []};

    /// The indexer that was told nothing. Takes no memory.
    pub fn new(alloc: Global) -> OpenIndexer
        ensures { result ≡ [] }
    {
        OpenIndexer {
            tally: Tally::new(alloc, Counted::Starts, Counted::Closes),
        }
    }
}

impl Indexer for OpenIndexer {
    ghost use Rattle.std.specs.Prelude.{[], codes};
    ghost use Rattle.ndc_index.specs.Texts.{events_told, open_text};

    ghost title = { λ _. codes "open" };

    ghost list = { λ told. told };

    ghost failing = { λ _. [] };

    ghost text = { λ told. open_text (events_told told) };

    fn name(&self) -> &str {
        "open"
    }

    fn told(&mut self, seen: &Seen) -> Result<(), ToldError> {
        self.tally.told(seen)?;
        Ok(())
    }

    #[tactic(auto, unfolding(crate::specs::Told::count_told))]
    fn line(&self, into: &mut Vec<u8>) -> Result<(), OutOfMemory> {
        let (firsts, seconds) = (self.tally.firsts(), self.tally.seconds());
        push_counts(into, "started ", firsts, " closed ", seconds)
    }
}

/// The indexer `signals`: how many signals are originals and how many are copies. Seen as the list of what it was told.
#[derive(Drop)]
pub struct SignalsIndexer {
    tally: Tally,
}

impl Model for SignalsIndexer {
    ghost use Rattle.std.specs.Prelude.{◌≡◌, List};
    ghost use Rattle.ndc_index.specs.declared.indexer.Counted.TheVariants.{Copies, Originals};
    ghost use Rattle.ndc_index.specs.declared.seen.Seen.{Seen};

    ghost Value = { List Seen };

    ghost view = { λ indexer. indexer.tally.list };

    ghost invariant = { λ indexer.
        (indexer.tally.first ≡ Originals) × (indexer.tally.second ≡ Copies) };
}

impl SignalsIndexer {
    ghost use Rattle.std.specs.Prelude.{◌≡◌, []};

    /// The indexer that was told nothing. Takes no memory.
    pub fn new(alloc: Global) -> SignalsIndexer
        ensures { result ≡ [] }
    {
        SignalsIndexer {
            tally: Tally::new(alloc, Counted::Originals, Counted::Copies),
        }
    }
}

impl Indexer for SignalsIndexer {
    ghost use Rattle.std.specs.Prelude.{[], codes};
    ghost use Rattle.ndc_index.specs.Texts.{events_told, signals_text};

    ghost title = { λ _. codes "signals" };

    ghost list = { λ told. told };

    ghost failing = { λ _. [] };

    ghost text = { λ told. signals_text (events_told told) };

    fn name(&self) -> &str {
        "signals"
    }

    fn told(&mut self, seen: &Seen) -> Result<(), ToldError> {
        self.tally.told(seen)?;
        Ok(())
    }

    #[tactic(auto, unfolding(crate::specs::Told::count_told))]
    fn line(&self, into: &mut Vec<u8>) -> Result<(), OutOfMemory> {
        let (firsts, seconds) = (self.tally.firsts(), self.tally.seconds());
        push_counts(into, "originals ", firsts, " copies ", seconds)
    }
}
