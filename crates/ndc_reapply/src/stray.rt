use ndc_event::{Name, Origin, OutOfMemory};

/// A signal by its origin: the signal event that it comes from, with what it says.
#[derive(Debug, Drop)]
pub struct Stray {
    /// The signal event.
    pub origin: Origin,
    /// The name of the signal.
    pub name: Name,
    /// What comes with it.
    pub input: Name,
}

impl Stray {
    ghost use Rattle.std.specs.Prelude.{◌≡◌, IfOk};

    /// The same signal.
    pub fn try_copy(&self) -> Result<Stray, OutOfMemory>
        ensures { IfOk result (λ copy. copy ≡ self.now) }
    {
        Ok(Stray {
            origin: self.origin,
            name: self.name.try_copy()?,
            input: self.input.try_copy()?,
        })
    }
}
