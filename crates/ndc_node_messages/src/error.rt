ghost use Rattle.std.specs.Prelude.{◌≡◌};

use ndc_node_shapes::{Cause, Fault};
use ndc_text::TextError;
use std::alloc::{AllocError, AllocFailed};
use thiserror::Error;

/// Why a text is not a message: the first cause on the way through the text.
#[derive(Clone, Copy, Debug, PartialEq, Eq, Error)]
pub enum MessageError {
    /// The text has not the form of a message: what is wrong, and how many bytes there are up to the end from there.
    #[error("{cause}, {left} bytes before the end")]
    Form { cause: Cause, left: usize },
    /// What stands in a batch's place is not the text of one: why, and how many bytes there are up to the end from its
    /// first one.
    #[error("{error}, in the batch {left} bytes before the end")]
    Batch { error: TextError, left: usize },
    /// The ids or the versions of the version history do not rise.
    #[error("the version history does not rise")]
    History,
    #[error("out of memory")]
    Memory,
}

impl From<Fault> for MessageError {
    ghost use Rattle.std.specs.Prelude.{◌≡◌};
    ghost use Rattle.ndc_node_messages.specs.Read.{of_fault};

    ghost from_gives = { λ fault e. e ≡ of_fault fault };

    fn from(fault: Fault) -> MessageError {
        match fault {
            Fault::At { cause, left } => MessageError::Form { cause, left },
            Fault::Memory => MessageError::Memory,
        }
    }
}

impl From<AllocError> for MessageError {
    ghost use Rattle.std.specs.Prelude.{◌≡◌};
    ghost use Rattle.ndc_node_messages.specs.declared.error.MessageError.TheVariants.{Memory};

    ghost from_gives = { λ _ e. e ≡ Memory };

    fn from(_error: AllocError) -> MessageError {
        MessageError::Memory
    }
}

impl<T: Drop> From<AllocFailed<T>> for MessageError {
    ghost use Rattle.std.specs.Prelude.{◌≡◌};
    ghost use Rattle.ndc_node_messages.specs.declared.error.MessageError.TheVariants.{Memory};

    ghost from_gives = { λ _ e. e ≡ Memory };

    fn from(_error: AllocFailed<T>) -> MessageError {
        MessageError::Memory
    }
}
