ghost use Rattle.std.specs.Prelude.{◌≡◌};

use ndc_event::OutOfMemory;
use ndc_model_cells::Message;
use std::alloc::{AllocError, AllocFailed, Global};
use std::marker::Model;
use std::mem;
use thiserror::Error;

/// There is no message at the place.
#[derive(Clone, Copy, Debug, PartialEq, Eq, Error)]
#[error("there is no message at the place")]
pub struct NoSuchPlace;

/// Why a message is not repeated.
#[derive(Clone, Copy, Debug, PartialEq, Eq, Error)]
pub enum FlightError {
    #[error("there is no message at the place")]
    NoSuchPlace,
    #[error("out of memory")]
    Memory,
}

impl From<AllocError> for FlightError {
    ghost use Rattle.std.specs.Prelude.{◌≡◌};
    ghost use Rattle.ndc_queue.specs.declared.flight.FlightError.TheVariants.{Memory};

    ghost from_gives = { λ _ e. e ≡ Memory };

    fn from(_error: AllocError) -> FlightError {
        FlightError::Memory
    }
}

impl<T: Drop> From<AllocFailed<T>> for FlightError {
    ghost use Rattle.std.specs.Prelude.{◌≡◌};
    ghost use Rattle.ndc_queue.specs.declared.flight.FlightError.TheVariants.{Memory};

    ghost from_gives = { λ _ e. e ≡ Memory };

    fn from(_failed: AllocFailed<T>) -> FlightError {
        FlightError::Memory
    }
}

/// The messages that are on their way from one cell to another, in order of place, counted from 0.
#[derive(Debug, Drop)]
pub struct Flight {
    items: Vec<Message>,
}

impl Model for Flight {
    ghost use Rattle.std.specs.Prelude.{List};
    ghost use Rattle.ndc_model_cells.specs.declared.message.Message.{Message};

    ghost Value = { List Message };

    ghost view = { λ flight. flight.items.items };
}

impl Flight {
    ghost use Rattle.std.specs.Prelude.{◌≡◌, ◌≢◌, [], ◌++◌, None, Some, Err, MatchResult, OnErr, OnOk, IfErr};
    ghost use Rattle.ndc_queue.specs.Lists.{after_loss, after_move, after_repeat};
    ghost use Rattle.ndc_queue.specs.declared.flight.FlightError.TheVariants as error;

    /// Nothing is on its way. Takes no memory.
    pub fn new(alloc: Global) -> Flight
        ensures { result ≡ [] }
    {
        Flight {
            items: Vec::new(alloc),
        }
    }

    /// The messages, in order of place. Takes no memory.
    pub fn list(&self) -> &[Message]
        ensures { result.now ≡ self.now }
    {
        self.items.as_slice()
    }

    /// Puts messages last, in order. Where memory runs out, the list stays as it was.
    pub fn put(&mut self, messages: Vec<Message>) -> Result<(), OutOfMemory>
        ensures put { OnOk result (self.new ≡ self.old ++ messages.items) }
        ensures unchanged { OnErr result (self.new ≡ self.old) }
    {
        let mut messages = messages;
        self.items.append(&mut messages)
    }

    /// Takes the message at a place out; the others keep their order. Refused exactly where the place is not below the
    /// length, and then the list stays as it was. Takes no memory.
    pub fn lose(&mut self, place: usize) -> Result<(), NoSuchPlace>
        ensures lost { MatchResult result (λ _. after_loss place self.old ≡ Some self.new) (λ _.
            after_loss place self.old ≡ None) }
        ensures unchanged { OnErr result (self.new ≡ self.old) }
    {
        if self.items.len() <= place {
            return Err(NoSuchPlace);
        }
        self.items.remove(place);
        Ok(())
    }

    /// Puts a copy of the message at a place last. Refused with [`FlightError::NoSuchPlace`] exactly where the place is
    /// not below the length, [`FlightError::Memory`] where memory runs out. Where it is refused, the list stays as it
    /// was.
    pub fn repeat(&mut self, place: usize) -> Result<(), FlightError>
        ensures repeated { OnOk result (after_repeat place self.old ≡ Some self.new) }
        ensures refused { IfErr result (λ e.
            e ≢ error.Memory → (e ≡ error.NoSuchPlace) × (after_repeat place self.old ≡ None)) }
        ensures no_place { after_repeat place self.old ≡ None → result ≡ Err error.NoSuchPlace }
        ensures unchanged { OnErr result (self.new ≡ self.old) }
    {
        let Some(message) = self.items.get(place) else {
            return Err(FlightError::NoSuchPlace);
        };
        let copy = message.try_copy()?;
        self.items.push(copy)?;
        Ok(())
    }

    /// Takes the message at one place out and puts it back so that it stands at another. Refused exactly where one of
    /// both places is not below the length, and then the list stays as it was. Takes no memory.
    pub fn move_to(&mut self, from: usize, to: usize) -> Result<(), NoSuchPlace>
        ensures moved { MatchResult result (λ _. after_move from to self.old ≡ Some self.new) (λ _.
            after_move from to self.old ≡ None) }
        ensures unchanged { OnErr result (self.new ≡ self.old) }
    {
        if self.items.len() <= from || self.items.len() <= to {
            return Err(NoSuchPlace);
        }
        let message = self.items.remove(from);
        match self.items.insert(to, message) {
            Ok(()) => Ok(()),
            Err(_) => unreachable!(),
        }
    }

    /// Empties the list, and gives the messages. Takes no memory.
    pub fn take(&mut self) -> Vec<Message>
        ensures given { result.items ≡ self.old }
        ensures empty { self.new ≡ [] }
    {
        let alloc = *self.items.allocator();
        mem::replace(&mut self.items, Vec::new(alloc))
    }
}
