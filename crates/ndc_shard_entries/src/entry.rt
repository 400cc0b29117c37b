use ndc_event::Batch;
use std::marker::Model;

/// What is written at once: a batch, and the one that it carries, where it carries one: the first of the run as which
/// its run goes on.
#[derive(Debug)]
pub struct Entry {
    batch: Batch,
    second: Option<Batch>,
}

impl Model for Entry {
    ghost use Rattle.ndc_model_cells.specs.Writing.{Entry};

    ghost Value = { Entry };

    ghost view = { λ entry. record { batch = entry.batch; second = entry.second } };
}

impl Drop for Entry {
    fn drop(self) {
        let Entry {
            batch: _batch,
            second: _second,
        } = self;
    }
}

impl Entry {
    ghost use Rattle.std.specs.Prelude.{◌≡◌};
    ghost use Rattle.std.specs.Option.{option_copied};
    ghost use Rattle.ndc_model_cells.specs.Writing.{alone};

    /// A batch, and the one that it carries, where it carries one.
    pub(crate) fn new(batch: Batch, second: Option<Batch>) -> Entry
        ensures { result ≡ record { batch = batch; second = second } }
    {
        Entry { batch, second }
    }

    /// A batch that carries none.
    pub(crate) fn alone(batch: Batch) -> Entry
        ensures { result ≡ alone batch }
    {
        Entry {
            batch,
            second: None,
        }
    }

    /// The batch.
    pub fn batch(&self) -> &Batch
        ensures { result.now ≡ self.now.batch }
    {
        &self.batch
    }

    /// The batch that is carried.
    pub fn second(&self) -> Option<&Batch>
        ensures { option_copied result ≡ self.now.second }
    {
        self.second.as_ref()
    }
}
