use std::alloc::{AllocError, AllocFailed};
use thiserror::Error;

/// What is wrong at a place of a text.
#[derive(Clone, Copy, Debug, PartialEq, Eq, Error)]
pub enum Cause {
    /// Another piece of the form is wanted there: a bracket, a comma, a key, a quote or a word.
    #[error("another piece is wanted")]
    Unexpected,
    /// No number of 1 to 18 digits without a leading zero stands there.
    #[error("a number of 1 to 18 digits without a leading zero is wanted")]
    Number,
    /// A byte of a quoted text is not one from space to `~`, or a backslash stands before another byte than a quote or a
    /// backslash.
    #[error("a byte that no text has")]
    Byte,
    /// The number is out of its range, the text is not a name, not a run's id or none of the words that may stand
    /// there, or the numbers of a list are not in order.
    #[error("out of its range")]
    Range,
}

/// Why a text is not read.
#[derive(Clone, Copy, Debug, PartialEq, Eq, Error)]
pub enum Fault {
    /// At a place: so many bytes before the end of the text.
    #[error("{cause}, {left} bytes before the end")]
    At { cause: Cause, left: usize },
    #[error("out of memory")]
    Memory,
}

impl From<AllocError> for Fault {
    ghost use Rattle.std.specs.Prelude.{◌≡◌};
    ghost use Rattle.ndc_node_shapes.specs.declared.fault.Fault.TheVariants.{Memory};

    ghost from_gives = { λ _ e. e ≡ Memory };

    fn from(_error: AllocError) -> Fault {
        Fault::Memory
    }
}

impl<T: Drop> From<AllocFailed<T>> for Fault {
    ghost use Rattle.std.specs.Prelude.{◌≡◌};
    ghost use Rattle.ndc_node_shapes.specs.declared.fault.Fault.TheVariants.{Memory};

    ghost from_gives = { λ _ e. e ≡ Memory };

    fn from(_error: AllocFailed<T>) -> Fault {
        Fault::Memory
    }
}
