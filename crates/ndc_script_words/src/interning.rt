ghost use Rattle.std.specs.Prelude.{◌≡◌, ◌<◌, Ok, IfSome};
ghost use Rattle.ndc_event.specs.Name.{name_of};
ghost use Rattle.ndc_event.specs.Outcome.{Gives};
ghost use Rattle.ndc_event.specs.declared.name.NameError.TheVariants.{Memory};

use ndc_event::{Name, NameError, OutOfMemory};
use std::alloc::Global;
use std::marker::Model;

/// How many names are kept.
const KEPT: usize = 256;

/// The names that were read lately: where a word comes again, its name is a copy of the one before, over the same bytes.
/// What is kept changes no name that is read.
#[derive(Drop)]
pub struct Interner {
    alloc: Global,
    kept: Vec<Option<Name>>,
}

impl Model for Interner {
    ghost Value = { Unit };

    ghost view = { λ _. tt };
}

/// Where the name of a word is kept.
fn place_of(word: &[u8]) -> usize
    ensures { result < 256 }
{
    let mut sum: usize = 0;
    for byte in word {
        sum = sum.wrapping_mul(31).wrapping_add(usize::from(*byte));
    }
    sum % KEPT
}

impl Interner {
    /// None was read yet.
    pub fn new(alloc: Global) -> Result<Interner, OutOfMemory> {
        let mut kept = Vec::new(alloc);
        for _place in 0..KEPT {
            kept.push(None)?;
        }
        Ok(Interner { alloc, kept })
    }

    /// One that keeps no name, for few words. Takes no memory.
    pub fn keeping_none(alloc: Global) -> Interner {
        Interner {
            alloc,
            kept: Vec::new(alloc),
        }
    }

    /// What memory for names is asked of.
    pub fn alloc(&self) -> Global {
        self.alloc
    }

    /// The name at the place, where it is that of the word.
    fn kept(&self, place: usize, word: &[u8]) -> Option<&Name>
        ensures { IfSome result (λ name. name_of word.now ≡ Ok name.now) }
    {
        let name = self.kept.as_slice().get(place)?.as_ref()?;
        if name.as_bytes() != word {
            return None;
        }
        Some(name)
    }

    /// The name of these bytes, as [`Name::new`] makes it and with the same refusals.
    pub fn read(&mut self, word: &[u8]) -> Result<Name, NameError>
        ensures { Gives Memory (λ name. name) result (name_of word.now) }
    {
        let place = place_of(word);
        if let Some(name) = self.kept(place, word) {
            return Ok(name.try_copy()?);
        }
        let name = Name::new(self.alloc, word)?;
        let copy = name.try_copy()?;
        if place < self.kept.len() {
            self.kept[place] = Some(copy);
        }
        Ok(name)
    }
}
