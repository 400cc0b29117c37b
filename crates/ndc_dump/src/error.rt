use ndc_port::Failed;
use std::alloc::AllocError;
use thiserror::Error;

/// Why what is told of a dump was not printed.
#[derive(Clone, Copy, Debug, PartialEq, Eq, Error)]
pub enum PrintError {
    #[error("a write failed")]
    Write,
    #[error("out of memory")]
    Memory,
}

impl From<AllocError> for PrintError {
    ghost use Rattle.std.specs.Prelude.{◌≡◌};
    ghost use Rattle.ndc_dump.specs.declared.error.PrintError.TheVariants.{Memory};

    ghost from_gives = { λ _ e. e ≡ Memory };

    fn from(_error: AllocError) -> PrintError {
        PrintError::Memory
    }
}

impl From<Failed> for PrintError {
    ghost use Rattle.std.specs.Prelude.{◌≡◌};
    ghost use Rattle.ndc_dump.specs.declared.error.PrintError.TheVariants.{Write};

    ghost from_gives = { λ _ e. e ≡ Write };

    fn from(_error: Failed) -> PrintError {
        PrintError::Write
    }
}
