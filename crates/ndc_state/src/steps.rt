use std::marker::{Model, PhantomData};

/// Counts steps of replay: one step is one event applied to a state. `L` is a label, any type, that says
/// whose steps these are, so that two counters are not mixed up; no value of it is kept. The count stays
/// at 2^64 - 1 once it is there.
#[derive(Drop)]
pub struct Steps<L> {
    taken: u64,
    label: PhantomData<L>,
}

impl<L> Model for Steps<L> {
    ghost use Rattle.std.specs.Prelude.{ℕ};

    ghost Value = { ℕ };

    ghost view = { λ steps. steps.taken };
}

impl<L> Steps<L> {
    ghost use Rattle.std.specs.Prelude.{◌≡◌};
    ghost use Rattle.ndc_state.specs.Counted.{counted};

    /// A counter that has counted no step.
    pub fn new() -> Steps<L>
        ensures { result ≡ 0 }
    {
        Steps {
            taken: 0,
            label: PhantomData,
        }
    }

    /// How many steps were taken; 2^64 - 1 also means more.
    pub fn taken(&self) -> u64
        ensures { result ≡ self.now }
    {
        self.taken
    }

    /// Counts one more step.
    pub(crate) fn count(&mut self)
        ensures { self.new ≡ counted self.old 1 }
    {
        self.taken = self.taken.saturating_add(1);
    }
}
