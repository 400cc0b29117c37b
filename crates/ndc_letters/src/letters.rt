ghost use Rattle.std.specs.Prelude.{◌≡◌, IfOk};
ghost use Rattle.ndc_model_cells.specs.Places.{is_at};
ghost use Rattle.ndc_letters.specs.Letters.{place_of_letter, taken_of};

use crate::letter::Letter;
use ndc_event::{Batch, OutOfMemory};
use ndc_text::{TextError, read_batch};
use std::alloc::{AllocError, Global};
use std::marker::Model;

/// What comes of a letter that is taken.
#[derive(Debug, Drop)]
pub enum Taken {
    /// Its bytes are read as the batch that it was, which is this one.
    Whole { batch: Batch },
    /// They are not, and it is set aside.
    Aside,
}

/// The letters that were set aside, in the order in which they came.
#[derive(Debug, Drop)]
pub struct Letters {
    items: Vec<Letter>,
}

impl Model for Letters {
    ghost use Rattle.std.specs.Prelude.{List};
    ghost use Rattle.ndc_letters.specs.declared.letter.Letter.{Letter};

    ghost Value = { List Letter };

    ghost view = { λ letters. letters.items.items };
}

/// Whether the batch is the one that a letter was.
fn is_batch_of(letter: &Letter, batch: &Batch) -> bool
    ensures { result ≡ is_at (place_of_letter letter.now) batch.now }
{
    batch.domain == letter.domain && batch.workflow == letter.workflow && batch.key == letter.key
}

/// Reads the bytes of a letter as the batch that it was.
#[tactic(auto, unfolding(crate::specs::Letters::taken_of))]
fn read_letter(alloc: Global, letter: &Letter) -> Result<Taken, OutOfMemory>
    ensures { IfOk result (λ taken. taken ≡ taken_of letter.now) }
{
    match read_batch(alloc, letter.bytes.as_slice()) {
        Ok(batch) if is_batch_of(letter, &batch) => Ok(Taken::Whole { batch }),
        Err(TextError::Memory) => Err(AllocError),
        _ => Ok(Taken::Aside),
    }
}

impl Letters {
    ghost use Rattle.std.specs.Prelude.{◌≡◌, [], length, IfOk, OnOk, OnErr};
    ghost use Rattle.ndc_letters.specs.Letters.{taken_of, with_letter};

    /// No letter was set aside.
    pub fn new(alloc: Global) -> Letters
        ensures { result ≡ [] }
    {
        Letters {
            items: Vec::new(alloc),
        }
    }

    /// The letters, in the order in which they came.
    pub fn list(&self) -> &[Letter]
        ensures { result.now ≡ self.now }
    {
        self.items.as_slice()
    }

    /// Takes a letter. It is [`Taken::Whole`], with the batch, exactly where [`ndc_text::read_batch`] reads the
    /// bytes as a batch of the letter's domain, workflow and key, and the list stays as it was; else it is
    /// [`Taken::Aside`], and the letter goes last. Where memory runs out, the list stays as it was.
    pub fn take(&mut self, letter: Letter) -> Result<Taken, OutOfMemory>
        ensures taken { IfOk result (λ taken. taken ≡ taken_of letter) }
        ensures list { OnOk result (self.new ≡ with_letter letter self.old) }
        ensures unchanged { OnErr result (self.new ≡ self.old) }
    {
        let taken = read_letter(*self.items.allocator(), &letter)?;
        if matches!(taken, Taken::Aside) {
            self.items.push(letter)?;
        }
        Ok(taken)
    }

    /// Empties the list, and answers how many letters it held. Takes no memory.
    pub fn purge(&mut self) -> u64
        ensures count { result ≡ length self.old }
        ensures empty { self.new ≡ [] }
    {
        let count = self.items.len() as u64;
        self.items.clear();
        count
    }
}
